//! Texts of tables whose rows are faulty, and the code of each one's first fault, or 0 for a table.

use crate::table_faults::{ALLOW, Case, DENY, Group, ONE, TWO, walk};

const ROW_KEYS: &[Case] = &[
    ("no verdict", &["[[row]]\n", "who = 1\n"], 9),
    ("no key", &["[[row]]\n"], 9),
    ("another key", &[ALLOW, "quorum = 2\n"], 9),
    ("only from", &[ALLOW, "from = 1\n"], 9),
    ("only to", &[ALLOW, "to = 1\n"], 9),
    (
        "another key beside through",
        &[ALLOW, "through = -1\nthough = 1\n"],
        9,
    ),
    (
        "through, and no verdict",
        &["[[row]]\n", "through = 1\n"],
        9,
    ),
];

const ROW_WORDS: &[Case] = &[
    ("another verdict", &["[[row]]\nverdict = \"maybe\"\n"], 10),
    (
        "a verdict in upper case",
        &["[[row]]\nverdict = \"Allow\"\n"],
        10,
    ),
    (
        "a boolean for a verdict",
        &["[[row]]\nverdict = true\n"],
        10,
    ),
    ("another role", &[ALLOW, "role = \"writer\"\n"], 10),
    ("a number for a role", &[ALLOW, "role = 1\n"], 10),
    ("no operation", &[ALLOW, "op = []\n"], 10),
    (
        "an operation outside of an array",
        &[ALLOW, "op = \"get\"\n"],
        10,
    ),
    (
        "another operation",
        &[ALLOW, "op = [\"get\", \"read\"]\n"],
        10,
    ),
    ("a number for an operation", &[ALLOW, "op = [4]\n"], 10),
];

const ROW_NUMBERS: &[Case] = &[
    ("who is not listed", &["who = 2\n"], 11),
    ("who is negative", &["who = -1\n"], 11),
    ("who is 1 above 2^32", &["who = 4294967297\n"], 11),
    ("who is a string", &["who = \"1\"\n"], 11),
    ("from above to", &["from = 5\nto = 4\n"], 11),
    ("from is negative", &["from = -1\nto = 4\n"], 11),
    ("to is 65,536", &["from = 0\nto = 65536\n"], 11),
    ("from is a float", &["from = 0.0\nto = 1\n"], 11),
    ("to is a date", &["from = 0\nto = 1979-05-27\n"], 11),
    ("all partitions", &["from = 0\nto = 65535\n"], 0),
    ("one partition", &["from = 9\nto = 9\n"], 0),
    (
        "an operation twice",
        &["op = [\"tidy\", \"set_table\", \"tidy\"]\n"],
        0,
    ),
];

const ROWS: &[Group] = &[
    (&[ONE], ROW_KEYS, &[]),
    (&[ONE], ROW_WORDS, &[]),
    (&[ONE, ALLOW], ROW_NUMBERS, &[]),
];

#[test]
fn faults_of_rows(rt: HostRuntime) {
    walk(&rt, rt.alloc(), ROWS, &[], &[]);
}

const SETTING: &[Case] = &[
    ("no row", &[], 12),
    ("a row that denies all", &[DENY, ALLOW], 12),
    ("only the secondary", &[ALLOW, "role = \"secondary\"\n"], 12),
    ("only failovers", &[ALLOW, "op = [\"failover\"]\n"], 12),
    ("as operator", &[ALLOW, "role = \"operator\"\n"], 0),
    (
        "set_table alone",
        &[ALLOW, "op = [\"get\", \"set_table\"]\n"],
        0,
    ),
    (
        "the second principal",
        &[ALLOW, "who = 2\nrole = \"operator\"\n"],
        0,
    ),
    (
        "in a range of partitions",
        &[ALLOW, "from = 3\nto = 4\n"],
        0,
    ),
    (
        "each denied before",
        &[
            DENY,
            "role = \"operator\"\n",
            ALLOW,
            "role = \"operator\"\n",
        ],
        12,
    ),
    (
        "denied in a range",
        &[
            DENY,
            "op = [\"set_table\"]\nfrom = 0\nto = 0\n",
            ALLOW,
            "role = \"operator\"\n",
        ],
        12,
    ),
    (
        "the one of two denied",
        &[DENY, "who = 1\n", ALLOW, "role = \"operator\"\n"],
        0,
    ),
    (
        "denied as primary",
        &[DENY, "role = \"primary\"\n", ALLOW, "role = \"operator\"\n"],
        0,
    ),
    (
        "denied to get",
        &[DENY, "op = [\"get\"]\n", ALLOW, "role = \"operator\"\n"],
        0,
    ),
];

#[test]
fn who_may_set_the_table(rt: HostRuntime) {
    walk(&rt, rt.alloc(), &[(&[ONE, TWO], SETTING, &[])], &[], &[]);
}
