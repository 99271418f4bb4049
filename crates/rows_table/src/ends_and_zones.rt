//! Tables whose rows end at an LSN, and tables that say how many copies a landing zone has: their
//! faults, and what is found in them.

use crate::rules::Rules;
use crate::table_faults::{Case, Changed, walk};
use pl_table::{Table, read_table};
use std::alloc::Global;
use transcripts::table_text::{START, table_named};
use transcripts::transcript::{Stop, plays};

/// Rows that end at 0, 2, 3 and 5.
const ENDS: &str = "
principal = [
  { id = 1, token = '11111111111111111111111111111111' },
  { id = 2, token = '22222222222222222222222222222222' },
  { id = 3, token = '33333333333333333333333333333333' },
]
row = [
  { verdict = 'deny', who = 3, op = ['pull'], through = 3 },
  { verdict = 'allow', who = 3, role = 'secondary', through = 5 },
  { verdict = 'allow', role = 'primary', op = ['write', 'offer', 'report'], through = 2 },
  { verdict = 'deny', who = 2, op = ['status', 'advance', 'get'], through = 0 },
  { verdict = 'allow' },
]
";

/// The texts of this module, each by its name, in two pieces.
const TEXTS: &[(&str, &str, &str)] = &[
    ("ends", "", ENDS),
    ("three_copies", "copies = 3\nquorum = 2\n", START),
    ("six_copies", "quorum = 4\ncopies = 6\n", START),
];

// The pieces of the text of the name, if it is one of this module.
fn pieces_of(name: &str) -> Option<(&'static str, &'static str)> {
    for (word, first, second) in TEXTS {
        if *word == name {
            return Some((*first, *second));
        }
    }
    None
}

/// The table of a text of this module, or of another one.
pub(crate) fn table_here(alloc: Global, name: &str) -> Result<Table, Stop> {
    let Some((first, second)) = pieces_of(name) else {
        return table_named(alloc, name);
    };
    let text = format!(in alloc; "{first}{second}")?;
    Ok(read_table(alloc, text.as_bytes())?)
}

// The role of row 4 of the start table, which no other row has.
const SECONDARY: &str = "role = \"secondary\"\n";

const FIRST_ROW: &str = "[[row]]\nverdict = \"allow\"\nwho = 1\nrole = \"operator\"\n";

const ENDS_OF_ROW_4: &[Changed] = &[
    (
        "-1",
        "",
        SECONDARY,
        "role = \"secondary\"\nthrough = -1\n",
        11,
    ),
    (
        "\"2\"",
        "",
        SECONDARY,
        "role = \"secondary\"\nthrough = \"2\"\n",
        11,
    ),
    (
        "2^48 + 1",
        "",
        SECONDARY,
        "role = \"secondary\"\nthrough = 281474976710657\n",
        11,
    ),
    (
        "2^48",
        "",
        SECONDARY,
        "role = \"secondary\"\nthrough = 281474976710656\n",
        0,
    ),
    ("0", "", SECONDARY, "role = \"secondary\"\nthrough = 0\n", 0),
];

#[test]
fn through_out_of_range(rt: HostRuntime) {
    walk(&rt, rt.alloc(), &[], ENDS_OF_ROW_4, &[]);
}

// What is before the start table.
const ZONES: &[Case] = &[
    ("neither", &[], 0),
    ("3 and 2", &["copies = 3\n", "quorum = 2\n"], 0),
    ("6 and 4", &["copies = 6\n", "quorum = 4\n"], 0),
    ("4 and 6", &["quorum = 4\n", "copies = 6\n"], 0),
    ("copies alone", &["copies = 6\n"], 13),
    ("quorum alone", &["quorum = 2\n"], 13),
    ("5 and 3", &["copies = 5\n", "quorum = 3\n"], 13),
    ("6 and 2", &["copies = 6\n", "quorum = 2\n"], 13),
    ("3 and 4", &["copies = 3\n", "quorum = 4\n"], 13),
    ("0 and 0", &["copies = 0\n", "quorum = 0\n"], 13),
    ("-6 and -4", &["copies = -6\n", "quorum = -4\n"], 13),
    (
        "2^32 more of each",
        &["copies = 4294967302\n", "quorum = 4294967300\n"],
        13,
    ),
    ("a text", &["copies = \"6\"\n", "quorum = 4\n"], 13),
    ("a boolean", &["copies = 3\n", "quorum = true\n"], 13),
    ("a float", &["copies = 3.0\n", "quorum = 2.0\n"], 13),
    ("an array", &["copies = [3]\n", "quorum = [2]\n"], 13),
    ("a boolean alone", &["quorum = false\n"], 13),
    ("another key", &["copies = 6\n", "Quorum = 4\n"], 2),
];

const ZONES_WITH_OTHER_FAULTS: &[Changed] = &[
    (
        "nobody sets the table",
        "copies = 6\nquorum = 4\n",
        FIRST_ROW,
        "",
        12,
    ),
    (
        "nobody sets the table, and five copies",
        "copies = 5\nquorum = 4\n",
        FIRST_ROW,
        "",
        12,
    ),
    (
        "no quorum, and another role",
        "copies = 6\n",
        SECONDARY,
        "role = \"reader\"\n",
        10,
    ),
];

#[test]
fn copies_and_quorum_faults(rt: HostRuntime) {
    walk(
        &rt,
        rt.alloc(),
        &[(&[], ZONES, &[START])],
        ZONES_WITH_OTHER_FAULTS,
        &[],
    );
}

const ROWS_THAT_END: &str = "\
table ends                                              = Ok
row 1        = deny who 3 op pull through 3
row 2        = allow who 3 role secondary through 5
row 5        = allow
first 3 00 secondary 1 pull 0 0 3 1                     = 2 allow
first 3 00 secondary 1 pull 0 0 4 1                     = 1 deny
first 3 00 secondary 1 pull 0 0 281474976710656 1       = 1 deny
first 3 00 secondary 1 get 0 0                          = 2 allow
first 3 00 secondary 1 get 0 5 exact                    = 2 allow
first 3 00 secondary 1 get 0 6                          = 5 allow
first 3 00 primary   1 write 2:aa 0                     = 3 allow
first 3 00 primary   1 write 3:aa 0                     = 5 allow
first 3 00 primary   1 offer 2:aa                       = 3 allow
first 3 00 primary   1 offer 3:aa                       = 5 allow
first 3 00 primary   1 report 2                         = 3 allow
first 3 00 primary   1 report 3                         = 5 allow
first 2 00 primary   1 get 0 0                          = 5 allow
first 2 00 primary   1 get 0 1                          = 4 deny
# These name no LSN, so that no end tests them.
first 2 00 primary   1 status                           = 4 deny
first 2 00 primary   1 advance 0 1024                   = 4 deny
first 3 00 secondary 1 status                           = 2 allow
first 3 00 secondary 1 set_table empty                  = 2 allow
first 3 00 secondary 1 failover 9                       = 2 allow
first 3 00 secondary 1 audit 6 1                        = 2 allow
first 3 00 secondary 1 tidy                             = 2 allow
copy                                                    = Ok
row 2        = allow who 3 role secondary through 5
first 3 00 secondary 1 pull 0 0 4 1                     = 1 deny
";

#[test]
fn rows_that_end(rt: HostRuntime) {
    assert!(rt; plays::<Rules>(&rt, ROWS_THAT_END));
}

const HOW_FAR_ROWS_ALLOW: &str = "\
table ends                                              = Ok
reach 9 3 00 secondary 1 pull 0 0 1 1                   = 3
reach 3 3 00 secondary 1 pull 0 0 1 1                   = 3
reach 2 3 00 secondary 1 pull 0 0 1 1                   = 2
reach 0 3 00 secondary 1 pull 0 0 1 1                   = 0
reach 9 3 00 secondary 1 pull 0 0 4 1                   = denied
# Row 5 allows what row 2 does above 5.
reach 9 3 00 secondary 1 get 0 1                        = 9
reach 9 2 00 primary   1 get 0 0                        = 0
reach 9 3 00 secondary 1 status                         = 9
alike 3 00 secondary 1 pull 0 0 1 1                     = 1 2
alike 3 00 secondary 1 pull 0 0 3 1                     = 3 3
alike 3 00 secondary 1 pull 0 0 4 1                     = 4 5
alike 3 00 secondary 1 pull 0 0 6 1                     = 6 18446744073709551615
alike 3 00 secondary 1 get 0 0                          = 0 0
alike 3 00 secondary 1 status                           = none
table start                                             = Ok
reach 9 3 00 secondary 1 pull 0 0 1 1                   = 9
alike 3 00 secondary 1 pull 0 0 1 1                     = 0 18446744073709551615
";

#[test]
fn how_far_rows_allow(rt: HostRuntime) {
    assert!(rt; plays::<Rules>(&rt, HOW_FAR_ROWS_ALLOW));
}

const COPIES_OF_A_TABLE: &str = "\
table start         = Ok
zone                = 3 2
table three_copies  = Ok
zone                = 3 2
table six_copies    = Ok
zone                = 6 4
copy                = Ok
zone                = 6 4
rows                = 6
";

#[test]
fn copies_of_a_table(rt: HostRuntime) {
    assert!(rt; plays::<Rules>(&rt, COPIES_OF_A_TABLE));
}
