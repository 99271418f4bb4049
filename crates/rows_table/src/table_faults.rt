//! Texts of tables and the code of each one's first fault, or 0 for a table.
//!
//! Each text is read in three ways: by itself, as a text that keeps its reading, and by a database
//! that is asked to put it in force.

use pl_core::{Db, Limits, Reply};
use pl_table::{Act, Head, ReadFault, Request, Role, TableFault, TableText, read_table};
use std::alloc::Global;
use std::process::Abort;
use transcripts::table_text::{START, table_named};
use transcripts::transcript::Stop;

/// What a case is, the pieces of its text, and the code of the fault.
pub(crate) type Case = (&'static str, &'static [&'static str], u8);

/// What is before the cases' pieces, the cases, and what is after them.
pub(crate) type Group = (
    &'static [&'static str],
    &'static [Case],
    &'static [&'static str],
);

const OPERATOR: Head = Head {
    principal: 1,
    token: [0x11; 16],
    role: Role::Operator,
    database: 0,
    epoch: 1,
};

// The code of the text by itself.
fn code_read(alloc: Global, text: &[u8]) -> Result<u8, Stop> {
    match read_table(alloc, text) {
        Ok(_) => Ok(0),
        Err(ReadFault::Malformed(fault)) => Ok(fault.code()),
        Err(ReadFault::NoMemory) => Err(Stop::NoMemory),
    }
}

/// The text with its reading.
pub(crate) fn kept_of(alloc: Global, text: &[u8]) -> Result<TableText, Stop> {
    Ok(TableText::new(alloc, text.to_vec(alloc)?)?)
}

/// The code that the text keeps, which is still the text.
pub(crate) fn code_kept(kept: &TableText, text: &[u8]) -> Option<u8> {
    if kept.text() != text {
        return None;
    }
    match kept.reading() {
        Ok(_) => Some(0),
        Err(fault) => Some(fault.code()),
    }
}

/// A database with the start table.
pub(crate) fn open(alloc: Global, limits: Limits) -> Result<Db, Stop> {
    if !limits.are_valid() {
        return Err(Stop::Unread);
    }
    match Db::new(alloc, table_named(alloc, "start")?, 2, limits) {
        Ok(db) => Ok(db),
        Err(_) => Err(Stop::NoMemory),
    }
}

// The code of the reply to a text.
fn code_in(reply: &Reply) -> Result<u64, Stop> {
    match reply {
        Reply::Done => Ok(0),
        Reply::Denied { row: 7, value, .. } => Ok(*value),
        Reply::NoMemory => Err(Stop::NoMemory),
        _ => Err(Stop::Unread),
    }
}

/// The code that the database denies with if it is asked to put the text in force.
pub(crate) fn set_table(db: &mut Db, text: TableText) -> Result<u64, Stop> {
    let request = Request::new(OPERATOR, Act::SetTable { text }).ok_or(Stop::Unread)?;
    code_in(&db.step(1, request))
}

/// Room for one entry.
const LIMITS: Limits = Limits {
    audit: 1,
    chunks: 1,
};

// The code that a text gives up with its reading.
fn code_given(alloc: Global, text: &[u8]) -> Result<u8, Stop> {
    match kept_of(alloc, text)?.into_reading() {
        Ok(_) => Ok(0),
        Err(fault) => Ok(fault.code()),
    }
}

// Whether the text keeps the code, and the database denies it with the code.
fn is_kept_by(alloc: Global, text: &[u8], code: u8, db: &mut Db) -> Result<bool, Stop> {
    let kept = kept_of(alloc, text)?;
    if code_kept(&kept, text) != Some(code) {
        return Ok(false);
    }
    Ok(set_table(db, kept)? == u64::from(code))
}

fn is_kept(alloc: Global, text: &[u8], code: u8) -> Result<bool, Stop> {
    let mut db = open(alloc, LIMITS)?;
    is_kept_by(alloc, text, code, &mut db)
}

// Each way gives the code.
fn have_code(
    rt: &impl Abort,
    alloc: Global,
    text: &[u8],
    case: &str,
    code: u8,
) -> Result<(), Stop> {
    let by_itself = code_read(alloc, text)? == code && code_given(alloc, text)? == code;
    let kept = is_kept(alloc, text, code)?;
    assert!(rt; by_itself && kept, "{case}");
    Ok(())
}

fn append(text: &mut Vec<u8>, pieces: &[&str]) -> Result<(), Stop> {
    for piece in pieces {
        text.extend_from_slice(piece.as_bytes())?;
    }
    Ok(())
}

// The text of all pieces.
fn text_of(alloc: Global, pieces: [&[&str]; 3]) -> Result<Vec<u8>, Stop> {
    let mut text = Vec::new(alloc);
    for pieces in pieces {
        append(&mut text, pieces)?;
    }
    Ok(text)
}

/// What a case is, what is before the start table, a text in it, what is in the place of
/// that, and the code of the fault.
pub(crate) type Changed = (&'static str, &'static str, &'static str, &'static str, u8);

// The start table with the new text in the place of the old one, and the head before it.
fn text_changed(alloc: Global, head: &str, old: &str, new: &str) -> Result<Vec<u8>, Stop> {
    let (before, after) = START.split_once(old).ok_or(Stop::Unread)?;
    let mut text = Vec::new(alloc);
    append(&mut text, &[head, before, new, after])?;
    Ok(text)
}

fn walk_changed(rt: &impl Abort, alloc: Global, cases: &[Changed]) -> Result<(), Stop> {
    for (case, head, old, new, code) in cases {
        let text = text_changed(alloc, head, old, new)?;
        have_code(rt, alloc, &text, case, *code)?;
    }
    Ok(())
}

fn walk_groups(rt: &impl Abort, alloc: Global, groups: &[Group]) -> Result<(), Stop> {
    for (before, cases, after) in groups {
        for (case, pieces, code) in *cases {
            let text = text_of(alloc, [before, pieces, after])?;
            have_code(rt, alloc, &text, case, *code)?;
        }
    }
    Ok(())
}

/// What a case is, how many principals, what follows the id of each, how many rows, which name 0 to 63 in turn,
/// and the code of the fault.
type Many = (&'static str, u8, &'static str, u16, u8);

fn text_of_many(alloc: Global, principals: u8, token: &str, rows: u16) -> Result<Vec<u8>, Stop> {
    let mut text = String::new(alloc);
    for id in 0..principals {
        write!(text, "[[principal]]\nid = {id}\n{token}")?;
    }
    for row in 0..rows {
        let who = row % 64;
        write!(text, "{ALLOW}who = {who}\n")?;
    }
    Ok(text.into_bytes())
}

fn walk_many(rt: &impl Abort, alloc: Global, cases: &[Many]) -> Result<(), Stop> {
    for (case, principals, token, rows, code) in cases {
        let text = text_of_many(alloc, *principals, token, *rows)?;
        have_code(rt, alloc, &text, case, *code)?;
    }
    Ok(())
}

fn walk_once(
    rt: &impl Abort,
    alloc: Global,
    groups: &[Group],
    changed: &[Changed],
    many: &[Many],
) -> Result<(), Stop> {
    walk_groups(rt, alloc, groups)?;
    walk_changed(rt, alloc, changed)?;
    walk_many(rt, alloc, many)
}

/// Walks over the cases of three kinds; and once more, if an allocation failed.
pub(crate) fn walk(
    rt: &impl Abort,
    alloc: Global,
    groups: &[Group],
    changed: &[Changed],
    many: &[Many],
) {
    let mut end = walk_once(rt, alloc, groups, changed, many);
    if let Err(Stop::NoMemory) = end {
        end = walk_once(rt, alloc, groups, changed, many);
    }
    assert!(rt;
        end.is_ok(),
        "a case is not read, or memory was refused twice"
    );
}

const FAULTS: &[(TableFault, u8)] = &[
    (TableFault::NoDocument, 1),
    (TableFault::UnknownKey, 2),
    (TableFault::PrincipalCount, 3),
    (TableFault::RowCount, 4),
    (TableFault::PrincipalKeys, 5),
    (TableFault::PrincipalId, 6),
    (TableFault::PrincipalToken, 7),
    (TableFault::RepeatedId, 8),
    (TableFault::RowKeys, 9),
    (TableFault::RowWord, 10),
    (TableFault::RowNumber, 11),
    (TableFault::NoOperator, 12),
    (TableFault::BadZone, 13),
];

// The code of the first fault that has another one.
fn wrong_code(faults: &[(TableFault, u8)]) -> Option<u8> {
    for (fault, code) in faults {
        if fault.code() != *code {
            return Some(*code);
        }
    }
    None
}

#[test]
fn numbers_of_faults(rt: HostRuntime) {
    assert_eq!(rt; wrong_code(FAULTS), None);
}

/// A principal.
pub(crate) const ONE: &str =
    "[[principal]]\nid = 1\ntoken = \"11111111111111111111111111111111\"\n";

/// Another principal.
pub(crate) const TWO: &str =
    "[[principal]]\nid = 2\ntoken = \"22222222222222222222222222222222\"\n";

/// The token of the first.
pub(crate) const TOKEN: &str = "token = \"11111111111111111111111111111111\"\n";

/// The beginning of a row that allows.
pub(crate) const ALLOW: &str = "[[row]]\nverdict = \"allow\"\n";

/// The beginning of a row that denies.
pub(crate) const DENY: &str = "[[row]]\nverdict = \"deny\"\n";

const DOCUMENTS: &[Case] = &[
    ("a word", &["x"], 1),
    ("a key without a value", &["principal =\n"], 1),
    ("a key twice", &["x = 1\nx = 2\n"], 1),
    (
        "an integer above 2^63 - 1",
        &["x = 9223372036854775808\n"],
        1,
    ),
    ("a wrong date", &["x = 2025-02-30\n"], 1),
    ("another key", &["x = 1\n"], 2),
    ("a key in upper case", &["[[Principal]]\n"], 2),
    ("an integer for the principals", &["principal = 1\n"], 2),
    ("a table for the principals", &["[principal]\nid = 1\n"], 2),
    ("a dotted key", &["principal.id = 1\n"], 2),
    ("an array of integers", &["principal = [1]\n"], 2),
    ("a string for the rows", &["row = \"allow\"\n"], 2),
    (
        "an inline table for the rows",
        &["row = {verdict = \"allow\"}\n"],
        2,
    ),
    (
        "a table and an integer",
        &["row = [{verdict = \"allow\"}, 1]\n"],
        2,
    ),
    ("no text", &[], 3),
    ("a comment", &["# nothing\n"], 3),
    ("no principals", &["principal = []\n"], 3),
    (
        "neither principals nor rows",
        &["principal = []\nrow = []\n"],
        3,
    ),
    ("rows alone", &[ALLOW], 3),
    (
        "a row with another key, and no principal",
        &["[[row]]\nx = 1\n"],
        3,
    ),
];

#[test]
fn faults_of_documents(rt: HostRuntime) {
    walk(&rt, rt.alloc(), &[(&[], DOCUMENTS, &[])], &[], &[]);
}

const BAD_ID: &str = "[[principal]]\nid = -1\ntoken = \"11111111111111111111111111111111\"\n";

const BAD_TOKEN: &str = "[[principal]]\nid = 9\ntoken = \"\"\n";

const NO_TOKEN: &str = "[[principal]]\nid = 9\n";

const BAD_ROW: &str = "[[row]]\nverdict = \"allow\"\nwho = 9\n";

const BAD_WORD: &str = "[[row]]\nverdict = \"\"\n";

const NO_VERDICT: &str = "[[row]]\nwho = 9\n";

const TWO_FAULTS: &[Case] = &[
    ("an id, then no token", &[BAD_ID, NO_TOKEN], 5),
    ("a token, then no token", &[BAD_TOKEN, NO_TOKEN], 5),
    ("a token, then an id", &[BAD_TOKEN, BAD_ID], 6),
    ("a token, then a row", &[BAD_TOKEN, NO_VERDICT], 7),
    ("an id twice, then a token", &[ONE, ONE, BAD_TOKEN], 7),
    ("an id twice", &[ONE, TWO, ONE, ALLOW], 8),
    ("an id twice, then a row", &[ONE, ONE, NO_VERDICT], 8),
    ("a number, then no verdict", &[ONE, BAD_ROW, NO_VERDICT], 9),
    ("a word, then no verdict", &[ONE, BAD_WORD, NO_VERDICT], 9),
    ("a number, then a word", &[ONE, BAD_ROW, BAD_WORD], 10),
    (
        "nobody sets the table, then a number",
        &[ONE, DENY, BAD_ROW],
        11,
    ),
    ("nobody sets the table", &[ONE, DENY, ALLOW], 12),
];

#[test]
fn first_fault_of_two(rt: HostRuntime) {
    walk(&rt, rt.alloc(), &[(&[], TWO_FAULTS, &[])], &[], &[]);
}

const MANY: &[Many] = &[
    ("64 principals", 64, TOKEN, 1, 0),
    ("65 principals", 65, TOKEN, 1, 3),
    ("64 principals, named by 256 rows", 64, TOKEN, 256, 0),
    ("257 rows", 1, TOKEN, 257, 4),
    ("no principal, and 257 rows", 0, TOKEN, 257, 3),
    ("no token, and 257 rows", 1, "", 257, 4),
    ("no token, and 65 principals", 65, "", 1, 3),
];

#[test]
fn many_principals_and_rows(rt: HostRuntime) {
    walk(&rt, rt.alloc(), &[], &[], MANY);
}
