//! How far the rows allow a pull, by a cached verdict and without one.

use crate::verdicts::ends::{EIGHT_BLOCKS, ROW_BEFORE, ROWS_THAT_END, SOONER, TWO_PRINCIPALS};
use crate::verdicts::steps::{Reach, Row, Step, Text};
use pl_table::Verdict;

/// As row 19 of `ROWS_THAT_END`, but that it ends at LSN 4.
const ROW_TO_FOUR: &str = r#"[[row]]
verdict = "allow"
who = 3
op = ["pull"]
from = 0
to = 0
through = 4
"#;

// With hardened ends below, at and above the LSN to which the rows allow: 2 in partition 0, 3 in 1.
const BY_ROWS_THAT_END: &[Reach] = &[
    (0, 1, 1, 1),
    (0, 1, 2, 2),
    (0, 2, 3, 2),
    (0, 1, u64::MAX, 2),
    (0, 1, 0, 0),
    (1, 1, 2, 2),
    (1, 1, 3, 3),
    (1, 3, 4, 3),
    (1, 1, u64::MAX, 3),
];

// And by the row that ends at LSN 4.
const BY_ROW_TO_FOUR: &[Reach] = &[(0, 1, 3, 3), (0, 2, 4, 4), (0, 4, 5, 4), (0, 1, 8, 4)];

const LATER: Text = &[(TWO_PRINCIPALS, 1), (ROW_BEFORE, 17), (ROW_TO_FOUR, 1)];

const FIRST: Text = &[(TWO_PRINCIPALS, 1), (ROWS_THAT_END, 1), (ROW_BEFORE, 17)];

const ALLOWED: Verdict = Verdict::Allowed;

/// By a table whose rows come after 17 others, and then by one in which the first of them ends later. If
/// memory is refused a verdict may not be cached, and no reach is another. Then the rows come before 17
/// others: a pull that one allows which ends is cached, and one that the last of them allows, which does not
/// end, is not.
pub(crate) const BY_CACHED_VERDICTS: Row = Row {
    tables: &[SOONER, LATER, FIRST],
    who: 3,
    view: EIGHT_BLOCKS,
    lines: &[
        (
            "a reach that is not cached",
            true,
            Step::Reaches(BY_ROWS_THAT_END),
        ),
        ("a pull", true, Step::Pulls(0, 0, 1, ALLOWED)),
        (
            "how far a row allows, by the table in which it ends later",
            false,
            Step::Differs(1),
        ),
        (
            "a pull of the other partition",
            true,
            Step::Pulls(1, 1, 2, ALLOWED),
        ),
        (
            "a reach that is cached",
            true,
            Step::Reaches(BY_ROWS_THAT_END),
        ),
        ("the number of cached verdicts", false, Step::Cached(2)),
        ("the later table", true, Step::NewTable(1)),
        (
            "a reach by the later table",
            true,
            Step::Reaches(BY_ROW_TO_FOUR),
        ),
        (
            "a pull by the later table",
            true,
            Step::Pulls(0, 0, 1, ALLOWED),
        ),
        (
            "a reach by the later table that is cached",
            true,
            Step::Reaches(BY_ROW_TO_FOUR),
        ),
        ("the table of the first rows", true, Step::NewTable(2)),
        (
            "a pull by a row that does not end",
            true,
            Step::Pulls(1, 1, 1, ALLOWED),
        ),
        (
            "a verdict of a row that does not end",
            true,
            Step::Cached(0),
        ),
        (
            "a pull by a row that ends",
            true,
            Step::Pulls(0, 0, 1, ALLOWED),
        ),
        ("a verdict of a row that ends", false, Step::Cached(1)),
        (
            "a reach by the first rows",
            true,
            Step::Reaches(BY_ROWS_THAT_END),
        ),
    ],
};
