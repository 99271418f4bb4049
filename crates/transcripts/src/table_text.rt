//! The texts of tables, each by its name.

use crate::transcript::Stop;
use pl_table::{ReadFault, Table, read_table};
use std::alloc::Global;

/// The table that the program's stored run begins with.
pub const START: &str = r#"[[principal]]
id = 1
token = "11111111111111111111111111111111"
[[principal]]
id = 2
token = "22222222222222222222222222222222"
[[principal]]
id = 3
token = "33333333333333333333333333333333"
[[principal]]
id = 4
token = "44444444444444444444444444444444"
[[principal]]
id = 5
token = "55555555555555555555555555555555"

[[row]]
verdict = "allow"
who = 1
role = "operator"
[[row]]
verdict = "allow"
who = 2
role = "primary"
[[row]]
verdict = "deny"
who = 3
op = ["get"]
from = 7
to = 7
[[row]]
verdict = "allow"
who = 3
role = "secondary"
[[row]]
verdict = "allow"
who = 4
role = "page_server"
from = 0
to = 3
[[row]]
verdict = "allow"
who = 5
role = "primary"
"#;

// The first row of the start table.
const OPERATOR_ROW: &str = r#"[[row]]
verdict = "allow"
who = 1
role = "operator"
"#;

/// Rows, each list by its name, for the principals of the start table.
const ROWS: [(&str, &str); 5] = [
    (
        "other",
        r#"[[row]]
verdict = "deny"
who = 3
op = ["pull"]
from = 5
to = 5
[[row]]
verdict = "allow"
who = 3
[[row]]
verdict = "allow"
who = 1
role = "operator"
[[row]]
verdict = "allow"
who = 2
role = "primary"
"#,
    ),
    (
        "denies_pulls",
        "row = [
  { verdict = 'allow', who = 1, role = 'operator' },
  { verdict = 'deny', op = ['pull'], from = 6, to = 6 },
  { verdict = 'allow', who = 2, role = 'primary' },
  { verdict = 'allow', who = 3, role = 'secondary' },
  { verdict = 'allow', who = 4, role = 'page_server', from = 0, to = 3 },
  { verdict = 'allow', who = 5, role = 'primary' },
]
",
    ),
    (
        "denies_writes",
        "row = [
  { verdict = 'deny', op = ['write'], from = 2, to = 2 },
  { verdict = 'allow', who = 2, role = 'primary' },
  { verdict = 'allow', who = 3 },
  { verdict = 'allow', who = 1 },
]
",
    ),
    (
        "ends_at_two",
        "row = [
  { verdict = 'allow', who = 1, role = 'operator' },
  { verdict = 'allow', who = 2, role = 'primary' },
  { verdict = 'deny', who = 3, op = ['get'], from = 7, to = 7 },
  { verdict = 'allow', who = 3, role = 'secondary', through = 2 },
  { verdict = 'allow', who = 4, role = 'page_server', from = 0, to = 3 },
  { verdict = 'allow', who = 5, role = 'primary' },
]
",
    ),
    (
        "denies_above_three",
        "row = [
  { verdict = 'allow', who = 1, role = 'operator' },
  { verdict = 'allow', who = 2, role = 'primary' },
  { verdict = 'deny', who = 3, op = ['pull'], through = 3 },
  { verdict = 'allow', who = 3, role = 'secondary' },
  { verdict = 'allow', who = 4, role = 'page_server', from = 0, to = 3 },
  { verdict = 'allow', who = 5, role = 'primary' },
]
",
    ),
];

/// Whole texts. Not all of them write down a table.
const TEXTS: [(&str, &str); 9] = [
    ("start", START),
    ("x", "x"),
    ("x_is_1", "x = 1"),
    ("empty", ""),
    ("without_token", "[[row]]\n[[principal]]\nid = 1\n"),
    (
        "another_token",
        "
principal = [
  { id = 4, token = '44444444444444444444444444444444' },
  { id = 3, token = '66666666666666666666666666666666' },
  { id = 2, token = '22222222222222222222222222222222' },
  { id = 1, token = '11111111111111111111111111111111' },
]
row = [{ verdict = 'allow' }]
",
    ),
    (
        "inline",
        "row = [{verdict = 'allow', op = ['tidy', 'set_table', 'tidy']}]
        principal = [{id = 4294967295, token = 'aAbBcCdDeEfF00112233445566778899'}]",
    ),
    (
        "two_principals",
        "
principal = [
  { id = 1, token = '11111111111111111111111111111111' },
  { id = 3, token = '33333333333333333333333333333333' },
]
row = [
  { verdict = 'allow', role = 'operator', who = 1 },
  { verdict = 'deny', op = ['pull'], from = 5, to = 5 },
  { verdict = 'allow', who = 3, from = 7, to = 9 },
  { verdict = 'deny', op = ['pull'], from = 6, to = 6 },
  { verdict = 'allow', who = 3 },
]
",
    ),
    (
        "ranges",
        r#"[[principal]]
id = 1
token = "11111111111111111111111111111111"
[[row]]
verdict = "deny"
op = ["write", "status"]
from = 5
to = 5
[[row]]
verdict = "allow"
from = 0
to = 5
"#,
    ),
];

// What is written beside the name.
fn named(texts: &'static [(&'static str, &'static str)], name: &str) -> Option<&'static str> {
    for (word, text) in texts {
        if *word == name {
            return Some(text);
        }
    }
    None
}

// The pieces of the text of the name.
fn pieces_of(name: &str) -> Option<(&'static str, &'static str)> {
    if let Some(text) = named(&TEXTS, name) {
        return Some((text, ""));
    }
    if name == "six_copies" {
        return Some(("copies = 6\nquorum = 4\n", START));
    }
    if name == "without_operator" {
        return START.split_once(OPERATOR_ROW);
    }
    let (principals, _) = START.split_once("\n[[row]]")?;
    Some((named(&ROWS, name)?, principals))
}

/// The text of the name.
pub fn text_named(alloc: Global, name: &str) -> Result<Vec<u8>, Stop> {
    let (first, second) = pieces_of(name).ok_or(Stop::Unread)?;
    let mut text = Vec::new(alloc);
    text.extend_from_slice(first.as_bytes())?;
    text.extend_from_slice(second.as_bytes())?;
    Ok(text)
}

impl From<ReadFault> for Stop {
    fn from(fault: ReadFault) -> Stop {
        match fault {
            ReadFault::NoMemory => Stop::NoMemory,
            ReadFault::Malformed(_) => Stop::Unread,
        }
    }
}

/// The table that the text of the name writes down.
pub fn table_named(alloc: Global, name: &str) -> Result<Table, Stop> {
    let text = text_named(alloc, name)?;
    Ok(read_table(alloc, &text)?)
}
