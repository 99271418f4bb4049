//! Texts of tables whose principals are faulty, and the code of each one's first fault, or 0 for a table.

use crate::table_faults::{ALLOW, Case, Group, TOKEN, walk};

const KEYS: &[Case] = &[
    ("no key", &[], 5),
    ("no token", &["id = 1\n"], 5),
    (
        "no id",
        &["token = \"11111111111111111111111111111111\"\n"],
        5,
    ),
    ("another key", &["id = 1\nname = \"a\"\n"], 5),
];

const IDS: &[Case] = &[
    ("a negative id", &["id = -1\n"], 6),
    ("the id 4,294,967,296", &["id = 4294967296\n"], 6),
    ("the id 2^63 - 1", &["id = 9223372036854775807\n"], 6),
    ("a float", &["id = 1.0\n"], 6),
    ("a string", &["id = \"1\"\n"], 6),
    ("a boolean", &["id = true\n"], 6),
    ("a date", &["id = 1979-05-27\n"], 6),
    ("an array", &["id = [1]\n"], 6),
    ("a dotted id", &["id.x = 1\n"], 6),
    ("the id 4,294,967,295", &["id = 4294967295\n"], 0),
    ("the id 0", &["id = 0\n"], 0),
    ("an id in hexadecimal", &["id = 0x10\n"], 0),
];

const PRINCIPALS: &[Group] = &[
    (&["[[principal]]\n"], KEYS, &[ALLOW]),
    (&["[[principal]]\n"], IDS, &[TOKEN, ALLOW]),
];

#[test]
fn faults_of_principals(rt: HostRuntime) {
    walk(&rt, rt.alloc(), PRINCIPALS, &[], &[]);
}

const TOKENS: &[Case] = &[
    ("an integer", &["11111111"], 7),
    ("an empty string", &["\"\""], 7),
    ("30 digits", &["\"111111111111111111111111111111\""], 7),
    ("31 digits", &["\"1111111111111111111111111111111\""], 7),
    ("33 digits", &["\"111111111111111111111111111111111\""], 7),
    ("34 digits", &["\"1111111111111111111111111111111111\""], 7),
    (
        "a letter past f",
        &["\"1111111111111111111111111111111g\""],
        7,
    ),
    ("an array", &["[\"11111111111111111111111111111111\"]"], 7),
    (
        "digits of either case",
        &["\"aAbBcCdDeEfF00112233445566778899\""],
        0,
    ),
];

const OF_TOKENS: &[Group] = &[(&["[[principal]]\nid = 7\ntoken = "], TOKENS, &["\n", ALLOW])];

#[test]
fn faults_of_tokens(rt: HostRuntime) {
    walk(&rt, rt.alloc(), OF_TOKENS, &[], &[]);
}
