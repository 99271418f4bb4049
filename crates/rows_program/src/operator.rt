//! Requests of an operator, from their words to the text of the reply.

use crate::plays::{db_of, plays_all};
use pl_core::Db;
use pl_play::{AdminFault, Credentials, admin, answer_text};
use pl_table::Request;
use pl_wire::{decode_request, encode_request};
use std::alloc::{AllocError, Global};

// Principal 1 is the operator, and principal 2 the primary.
const TABLE: &str = "[[principal]]
id = 1
token = \"11111111111111111111111111111111\"
[[principal]]
id = 2
token = \"22222222222222222222222222222222\"
[[row]]
verdict = \"allow\"
";

const OPERATOR: Credentials = Credentials {
    principal: 1,
    token: [0x11; 16],
    database: 0,
    epoch: 1,
};

// Principal 2 writes block 1 to copy 0, and reports it.
const WRITE_AND_REPORT: &[u8] = b"\
000000022222222222222222222222222222222201000000000000000101000000000000000001000100000001010000000000000001aa
0000000222222222222222222222222222222222010000000000000001030000000000000001
";

fn fresh(alloc: Global) -> Option<Db> {
    db_of(alloc, TABLE).ok()
}

fn words_of(alloc: Global, words: &str) -> Result<Vec<String>, AllocError> {
    let mut list = Vec::new(alloc);
    for word in words.split_whitespace() {
        list.push(String::from_str(alloc, word)?)?;
    }
    Ok(list)
}

fn bytes_of(alloc: Global, text: Option<&str>) -> Result<Option<Vec<u8>>, AllocError> {
    match text {
        Some(text) => Ok(Some(Vec::from_slice(alloc, text.as_bytes())?)),
        None => Ok(None),
    }
}

// The request of an operator's words.
fn asked(alloc: Global, words: &str, text: Option<&str>) -> Option<Request> {
    let words = words_of(alloc, words).ok()?;
    let text = bytes_of(alloc, text).ok()?;
    admin(alloc, OPERATOR, &words, text).ok()
}

// The request, as it is read again from its bytes.
fn through_bytes(alloc: Global, request: &Request) -> Option<Request> {
    let body = encode_request(alloc, request).ok()?;
    decode_request(alloc, &body).ok()
}

// The text of the reply to an operator. The request goes through its bytes.
fn answer(alloc: Global, db: &mut Db, words: &str, text: Option<&str>) -> Option<String> {
    let request = asked(alloc, words, text)?;
    let reply = db.step(1, through_bytes(alloc, &request)?);
    answer_text(alloc, &reply).ok()
}

// The text of the file, and that of the reply, to the words of one request after the other.
const ANSWERS: &[(&str, Option<&str>, &str)] = &[
    (
        "status",
        None,
        "epoch 1 primary 2 hard 0 pending 0 landing 0\n",
    ),
    ("tidy", None, "done\n"),
    ("audit 3 10", None, ""),
    (
        "audit 1 1",
        None,
        "1 pass 1 principal 1 role operator epoch 1 op status a 0 b 0 allowed\n",
    ),
    ("set_table faulty", Some("x"), "denied C7 value 1\n"),
    ("set_table same", Some(TABLE), "done\n"),
    ("failover 5", None, "denied C8 value 0\n"),
    ("failover 2", None, "done\n"),
    ("status", None, "denied A2 value 2\n"),
];

// Whether each of them is answered so.
fn answers_by(alloc: Global, db: &mut Db) -> Option<bool> {
    for (words, text, expected) in ANSWERS {
        if answer(alloc, db, words, *text)?.as_str() != *expected {
            return Some(false);
        }
    }
    Some(true)
}

fn answers_each(alloc: Global) -> Option<bool> {
    let mut db = fresh(alloc)?;
    answers_by(alloc, &mut db)
}

// Words that name no request.
const NO_REQUESTS: &[&str] = &[
    "",
    "Status",
    "status 1",
    "write",
    "failover",
    "failover five",
    "failover 4294967296",
    "failover 5 6",
    "audit",
    "audit 1",
    "audit 0 10",
    "audit 1 0",
    "audit 1 1025",
    "audit 18446744073709551616 1",
    "set_table",
    "set_table missing",
    "set_table too_long",
];

// The text of the file, if it is too long for a table.
fn long_text(alloc: Global, words: &str) -> Result<Option<Vec<u8>>, AllocError> {
    if words != "set_table too_long" {
        return Ok(None);
    }
    Ok(Some(vec![in alloc; b' '; 65_507]?))
}

// Whether the words are refused.
fn is_refused(alloc: Global, words: &str) -> Option<bool> {
    let text = long_text(alloc, words).ok()?;
    let words = words_of(alloc, words).ok()?;
    let request = admin(alloc, OPERATOR, &words, text);
    Some(matches!(request, Err(AdminFault::Words)))
}

fn refuses_each(alloc: Global) -> Option<bool> {
    for words in NO_REQUESTS {
        if !is_refused(alloc, words)? {
            return Some(false);
        }
    }
    Some(true)
}

// A second run meets no failed allocation, whichever one fails.
#[test]
fn admin_words(rt: HostRuntime) {
    let alloc = rt.alloc();
    let answered = answers_each(alloc) == Some(true) || answers_each(alloc) == Some(true);
    assert!(rt; answered);
    let refused = refuses_each(alloc) == Some(true) || refuses_each(alloc) == Some(true);
    assert!(rt; refused);
}

// The lines of the two requests before it; its own comes after its answer.
const LINES: &str = "\
1 pass 1 principal 2 role primary epoch 1 op write a 1 b 0 allowed
2 pass 1 principal 2 role primary epoch 1 op report a 1 b 0 denied C6 value 0
";

fn write_and_report(alloc: Global, db: &mut Db) -> Option<u64> {
    plays_all(alloc, WRITE_AND_REPORT, &mut Vec::new(alloc), db).ok()
}

// Whether the list of the database has just those.
fn lists(alloc: Global, db: &mut Db) -> Option<bool> {
    Some(answer(alloc, db, "audit 1 10", None)?.as_str() == LINES)
}

// Whether the tidy after them has its entry.
fn tidies(alloc: Global, db: &mut Db) -> Option<bool> {
    let tidied = answer(alloc, db, "tidy", None)?.as_str() == "done\n";
    Some(tidied && db.audit_len() == 4)
}

fn lists_and_tidies(alloc: Global, db: &mut Db) -> Option<bool> {
    write_and_report(alloc, db)?;
    Some(lists(alloc, db)? && tidies(alloc, db)?)
}

fn lists_two(alloc: Global) -> Option<bool> {
    let mut db = fresh(alloc)?;
    lists_and_tidies(alloc, &mut db)
}

#[test]
fn audit_as_text(rt: HostRuntime) {
    let alloc = rt.alloc();
    let listed = lists_two(alloc) == Some(true) || lists_two(alloc) == Some(true);
    assert!(rt; listed);
}
