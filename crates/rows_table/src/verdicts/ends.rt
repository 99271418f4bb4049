//! Verdicts of rows that end at an LSN, asked at LSNs on both sides of the end.

use crate::verdicts::NO_ROW;
use crate::verdicts::steps::{Row, Step, Text};
use pl_decide::View;
use pl_table::{Section, Verdict};

/// Principals 1 and 3, and the row that lets 1 set the table.
pub(crate) const TWO_PRINCIPALS: &str = r#"[[principal]]
id = 1
token = "11111111111111111111111111111111"
[[principal]]
id = 3
token = "33333333333333333333333333333333"
[[row]]
verdict = "allow"
who = 1
role = "operator"
"#;

/// A row of another partition. After 17 of them a row is so far from the first that its verdict is
/// cached.
pub(crate) const ROW_BEFORE: &str = r#"[[row]]
verdict = "allow"
who = 3
from = 9
to = 9
"#;

/// Row 19 allows pulls of partition 0 up to LSN 2. Row 20 denies those of partition 1 above LSN 3, and
/// row 21 allows the others of them.
pub(crate) const ROWS_THAT_END: &str = r#"[[row]]
verdict = "allow"
who = 3
op = ["pull"]
from = 0
to = 0
through = 2
[[row]]
verdict = "deny"
who = 3
op = ["pull"]
from = 1
to = 1
through = 3
[[row]]
verdict = "allow"
who = 3
op = ["pull"]
from = 1
to = 1
"#;

/// The same rows, but that row 19 does not end, and row 20 ends at LSN 5.
const ROWS_THAT_END_LATER: &str = r#"[[row]]
verdict = "allow"
who = 3
op = ["pull"]
from = 0
to = 0
[[row]]
verdict = "deny"
who = 3
op = ["pull"]
from = 1
to = 1
through = 5
[[row]]
verdict = "allow"
who = 3
op = ["pull"]
from = 1
to = 1
"#;

/// A log of 8 blocks.
pub(crate) const EIGHT_BLOCKS: View = View {
    hard: 8,
    agrees: true,
    copies: 3,
    can_harden: false,
};

const ROW_TWENTY: Verdict = Verdict::Denied {
    section: Section::B,
    row: 20,
    value: 0,
};

const ALLOWED: Verdict = Verdict::Allowed;

/// The table of these rows after 17 others of principal 3.
pub(crate) const SOONER: Text = &[(TWO_PRINCIPALS, 1), (ROW_BEFORE, 17), (ROWS_THAT_END, 1)];

const LATER: Text = &[
    (TWO_PRINCIPALS, 1),
    (ROW_BEFORE, 17),
    (ROWS_THAT_END_LATER, 1),
];

/// Pulls of a partition from an LSN on: of each partition, on both sides of the end of its row in turn. By
/// the rows that end later, those of LSNs that are on the same side of each end.
pub(crate) const ON_BOTH_SIDES: Row = Row {
    tables: &[SOONER, LATER],
    who: 3,
    view: EIGHT_BLOCKS,
    lines: &[
        ("0 from 1", true, Step::Pulls(0, 0, 1, ALLOWED)),
        ("0 from 3", true, Step::Pulls(0, 0, 3, NO_ROW)),
        ("0 from 2", true, Step::Pulls(0, 0, 2, ALLOWED)),
        ("0 from 8", true, Step::Pulls(0, 0, 8, NO_ROW)),
        ("0 from 2 again", true, Step::Pulls(0, 0, 2, ALLOWED)),
        ("1 from 4", true, Step::Pulls(1, 1, 4, ROW_TWENTY)),
        ("1 from 3", true, Step::Pulls(1, 1, 3, ALLOWED)),
        ("1 from 8", true, Step::Pulls(1, 1, 8, ROW_TWENTY)),
        ("1 from 1", true, Step::Pulls(1, 1, 1, ALLOWED)),
        ("0 from 3 again", true, Step::Pulls(0, 0, 3, NO_ROW)),
        ("the number of cached verdicts", true, Step::Cached(2)),
        (
            "that no row matches, by the table whose row does not end",
            true,
            Step::Differs(1),
        ),
        ("the table whose rows end later", true, Step::NewTable(1)),
        ("0 from 1, later", true, Step::Pulls(0, 0, 1, ALLOWED)),
        ("0 from 8, later", true, Step::Pulls(0, 0, 8, ALLOWED)),
        ("1 from 5, later", true, Step::Pulls(1, 1, 5, ALLOWED)),
        ("1 from 1, later", true, Step::Pulls(1, 1, 1, ALLOWED)),
        (
            "what holds of all LSNs, by the table whose row ends among them",
            true,
            Step::Differs(0),
        ),
    ],
};
