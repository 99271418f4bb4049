//! What is wrong with the text of a table, and where, in words for whoever wrote it.

use pl_table::{Op, ReadFault, Role, TableFault, read_table};
use std::alloc::Global;
use std::{fmt, str};

// A key of a row that takes words, or any other.
#[derive(Clone, Copy)]
enum Key {
    Verdict,
    Role,
    Op,
    Other,
}

/// A word of a row that its key does not take.
#[derive(Clone, Copy)]
struct Word<'a> {
    key: Key,
    word: &'a str,
    line: usize,
}

/// What is wrong with the text of a table. Displayed, it says in which line, and what would be right.
#[derive(Clone, Copy)]
pub(crate) struct Complaint<'a> {
    fault: TableFault,
    // The line at which the part with the fault begins.
    line: usize,
    word: Option<Word<'a>>,
}

impl<'a> Complaint<'a> {
    /// Of a text that has this fault.
    pub(crate) fn of(alloc: Global, text: &'a [u8], fault: TableFault) -> Complaint<'a> {
        let line = part_of(alloc, text, fault);
        let word = match (fault, str::from_utf8(text)) {
            (TableFault::RowWord, Ok(text)) => wrong_word(text, line),
            _ => None,
        };
        Complaint { fault, line, word }
    }
}

// The line at which the part of the text begins with which it has this fault. A part is a heading in brackets with what
// follows, and what stands before the first one.
fn part_of(alloc: Global, text: &[u8], fault: TableFault) -> usize {
    let mut part = 1;
    let mut end = 0usize;
    for (before, line) in text.split(|byte| *byte == b'\n').enumerate() {
        if line.starts_with(b"[") {
            if has_fault(alloc, text.get(..end), fault) {
                return part;
            }
            part = before.saturating_add(1);
        }
        end = end.saturating_add(line.len()).saturating_add(1);
    }
    part
}

// Whether the text, if there is one, has this fault.
fn has_fault(alloc: Global, text: Option<&[u8]>, fault: TableFault) -> bool {
    match text {
        Some(text) => {
            matches!(read_table(alloc, text), Err(ReadFault::Malformed(found)) if found == fault)
        }
        None => false,
    }
}

// The first word from this line on that its key does not take.
fn wrong_word<'a>(text: &'a str, from: usize) -> Option<Word<'a>> {
    let mut key = Key::Other;
    for (before, line) in text.lines().enumerate() {
        let line_number = before.saturating_add(1);
        if let Some((name, _)) = line.split_once('=') {
            key = key_of(name.trim());
        }
        if line_number >= from {
            if let Some(word) = wrong_word_in(key, line) {
                return Some(Word {
                    key,
                    word,
                    line: line_number,
                });
            }
        }
    }
    None
}

// The first word of a line, in quotes, that this key does not take.
fn wrong_word_in<'a>(key: Key, line: &'a str) -> Option<&'a str> {
    let mut is_quoted = false;
    for piece in line.split('"') {
        if is_quoted && !takes(key, piece) {
            return Some(piece);
        }
        is_quoted = !is_quoted;
    }
    None
}

// The key of this name.
fn key_of(name: &str) -> Key {
    match name {
        "verdict" => Key::Verdict,
        "role" => Key::Role,
        "op" => Key::Op,
        _ => Key::Other,
    }
}

// Whether a key takes a word, if it takes words at all.
fn takes(key: Key, word: &str) -> bool {
    match key {
        Key::Verdict => word == "allow" || word == "deny",
        Key::Role => Role::of_name(word).is_some(),
        Key::Op => Op::of_name(word).is_some(),
        Key::Other => true,
    }
}

// The word with this number among the roles, or among the operations.
fn word_of(key: Key, number: u8) -> Option<&'static str> {
    match key {
        Key::Role => Some(Role::of_number(number)?.name()),
        Key::Op => Some(Op::of_number(number)?.name()),
        Key::Verdict | Key::Other => None,
    }
}

// Writes the roles, or the operations, in the order of their numbers, with "or" before the last.
fn write_words<W: fmt::Write>(f: &mut fmt::Formatter<W>, key: Key) -> fmt::Result {
    let mut joint = "";
    for number in 1..u8::MAX - 1 {
        let Some(word) = word_of(key, number) else {
            break;
        };
        write!(f, "{joint}{word}")?;
        joint = match word_of(key, number + 2) {
            Some(_) => ", ",
            None => " or ",
        };
    }
    Ok(())
}

// What would be right.
fn remedy(fault: TableFault) -> &'static str {
    match fault {
        TableFault::NoDocument => "this is not TOML in UTF-8",
        TableFault::UnknownKey => {
            "a table has principal and row, as [[principal]] and [[row]], copies and quorum, and nothing else"
        }
        TableFault::PrincipalCount => "a table has 1 to 64 principals",
        TableFault::RowCount => "a table has at most 256 rows",
        TableFault::PrincipalKeys => "a principal has an id and a token, and nothing else",
        TableFault::PrincipalId => "an id is an integer from 0 to 4294967295",
        TableFault::PrincipalToken => "a token is a string of 32 hexadecimal digits",
        TableFault::RepeatedId => "this id was listed before, and each has to be another one",
        TableFault::RowKeys => {
            "a row has a verdict, may have who, role, op, through, and from with to, and nothing else"
        }
        TableFault::RowWord => {
            "a verdict, a role or an operation is none, or op is an empty list"
        }
        TableFault::RowNumber => {
            "who is an id that is listed, from and to are 0 to 65535, from is at most to, and through is 0 to 281474976710656"
        }
        TableFault::NoOperator => "the rows have to allow set_table to some principal as operator",
        TableFault::BadZone => "copies and quorum are 3 and 2, or 6 and 4",
    }
}

// Whether the fault is one of the whole text, and of no line.
fn is_of_all(fault: TableFault) -> bool {
    matches!(
        fault,
        TableFault::PrincipalCount
            | TableFault::RowCount
            | TableFault::NoOperator
            | TableFault::BadZone
    )
}

impl fmt::Display for Word<'_> {
    fn fmt<W: fmt::Write>(&self, f: &mut fmt::Formatter<W>) -> fmt::Result {
        let Word { key, word, line } = *self;
        write!(f, "line {line}: '{word}' is not ")?;
        match key {
            Key::Verdict => return write!(f, "a verdict: allow or deny"),
            Key::Role => write!(f, "a role: ")?,
            _ => write!(f, "an operation: ")?,
        }
        write_words(f, key)
    }
}

impl fmt::Display for Complaint<'_> {
    fn fmt<W: fmt::Write>(&self, f: &mut fmt::Formatter<W>) -> fmt::Result {
        let Complaint { fault, line, word } = *self;
        if let Some(word) = word {
            return write!(f, "{word}");
        }
        if !is_of_all(fault) {
            write!(f, "line {line}: ")?;
        }
        write!(f, "{}", remedy(fault))
    }
}
