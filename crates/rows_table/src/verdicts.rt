//! Verdicts of a table's rows that are asked again: by the same table, and by another. A row is played
//! once more, from its beginning, if an allocation was refused.

mod ends;
mod reaches;
mod steps;

use crate::table_faults::{kept_of, open, set_table};
use crate::verdicts::steps::{Row, Step, decides, is_right, pull_of};
use pl_core::{Db, Limits, Reply};
use pl_decide::View;
use pl_table::{Section, Verdict};
use std::alloc::Global;
use transcripts::table_text::START;
use transcripts::transcript::Stop;

/// The table of other rows, for the principals of the start table.
const OTHER_ROWS: &str = r#"[[principal]]
id = 1
token = "11111111111111111111111111111111"
[[principal]]
id = 3
token = "33333333333333333333333333333333"
[[principal]]
id = 4
token = "44444444444444444444444444444444"
[[row]]
verdict = "deny"
who = 3
op = ["pull"]
from = 5
to = 5
[[row]]
verdict = "allow"
who = 3
[[row]]
verdict = "allow"
who = 1
role = "operator"
"#;

/// An empty log.
const NO_BLOCKS: View = View {
    hard: 0,
    agrees: true,
    copies: 3,
    can_harden: false,
};

/// Denied since no row matches.
const NO_ROW: Verdict = Verdict::Denied {
    section: Section::B,
    row: 0,
    value: 0,
};

/// Denied by the first row.
const ROW_ONE: Verdict = Verdict::Denied {
    section: Section::B,
    row: 1,
    value: 0,
};

/// Denied since there is no hardened block.
const NO_BLOCK: Verdict = Verdict::Denied {
    section: Section::C,
    row: 1,
    value: 0,
};

// By the start table principal 4 may pull the partitions 0 to 3, of which none has a hardened block.
fn denial_of(partition: u16) -> Verdict {
    if partition < 4 { NO_BLOCK } else { NO_ROW }
}

fn verdict_in(reply: &Reply) -> Result<Option<Verdict>, Stop> {
    match reply {
        Reply::Denied {
            section,
            row,
            value,
        } => Ok(Some(Verdict::Denied {
            section: *section,
            row: *row,
            value: *value,
        })),
        Reply::NoMemory => Err(Stop::NoMemory),
        _ => Ok(None),
    }
}

// What the database answers principal 4 who pulls the partition.
fn answer_of(db: &mut Db, partition: u16) -> Result<Option<Verdict>, Stop> {
    match pull_of(4, partition, 1) {
        Some(request) => verdict_in(&db.step(1, request)),
        None => Ok(None),
    }
}

// Whether the pulls of 2,048 partitions are denied so by the start table.
fn are_denied(db: &mut Db) -> Result<bool, Stop> {
    for partition in 0..2048_u16 {
        if answer_of(db, partition)? != Some(denial_of(partition)) {
            return Ok(false);
        }
    }
    Ok(true)
}

// The code with which the table of other rows is denied, or 0 if it is put in force.
fn set_other(alloc: Global, db: &mut Db) -> Result<u64, Stop> {
    let text = kept_of(alloc, OTHER_ROWS.as_bytes())?;
    set_table(db, text)
}

// What is wrong with the verdicts of the database, by the start table and by the other.
fn wrong_by_both(alloc: Global, db: &mut Db) -> Result<Option<&'static str>, Stop> {
    if !are_denied(db)? {
        return Ok(Some("a pull"));
    }
    if !are_denied(db)? {
        return Ok(Some("a pull that is asked again"));
    }
    if set_other(alloc, db)? != 0 || db.audit_len() != 4_097 {
        return Ok(Some("the number of entries"));
    }
    if answer_of(db, 0)? != Some(NO_ROW) {
        return Ok(Some("a pull, by the other table"));
    }
    Ok(None)
}

const LIMITS: Limits = Limits {
    audit: 65_536,
    chunks: 16,
};

fn wrong_of_db(alloc: Global) -> Result<Option<&'static str>, Stop> {
    let mut db = open(alloc, LIMITS)?;
    wrong_by_both(alloc, &mut db)
}

#[test]
fn many_verdicts(rt: HostRuntime) {
    let mut wrong = wrong_of_db(rt.alloc());
    if wrong.is_err() {
        wrong = wrong_of_db(rt.alloc());
    }
    is_right(&rt, wrong);
}

const MANY: Row = Row {
    tables: &[&[(START, 1)]],
    who: 4,
    view: NO_BLOCKS,
    lines: &[
        ("cached at first", true, Step::Cached(0)),
        ("a pull of 0 to 3", true, Step::Pulls(0, 3, 1, NO_BLOCK)),
        ("a pull above 3", true, Step::Pulls(4, 2_047, 1, NO_ROW)),
        ("the number of cached verdicts", true, Step::Cached(1_024)),
        ("the same table, as a new one", true, Step::NewTable(0)),
        ("cached, with a new table", true, Step::Cached(0)),
    ],
};

#[test]
fn many_verdicts_of_a_decider(rt: HostRuntime) {
    decides(&rt, rt.alloc(), &MANY);
}

// No row of the start table matches a pull by principal 3 as page server; by the other rows, the pull
// of partition 5 is denied by row 1, and that of partition 6 is not. Each verdict is cached, but that on
// partition 6 if memory is refused to it: if it is refused to the one on 5, the second pull of 5
// caches it.
const BY_TWO_TABLES: Row = Row {
    tables: &[&[(START, 1)], &[(OTHER_ROWS, 1)]],
    who: 3,
    view: NO_BLOCKS,
    lines: &[
        ("a pull", true, Step::Pulls(5, 5, 1, NO_ROW)),
        (
            "a pull that is asked again",
            true,
            Step::Pulls(5, 5, 1, NO_ROW),
        ),
        ("a pull of partition 6", true, Step::Pulls(6, 6, 1, NO_ROW)),
        ("the number of cached verdicts", true, Step::CachedBefore(2)),
        ("what is cached, by the other table", true, Step::Differs(1)),
        ("the other table", true, Step::NewTable(1)),
        (
            "a pull of 5, by the other table",
            true,
            Step::Pulls(5, 5, 1, ROW_ONE),
        ),
        (
            "a pull of 6, by the other table",
            true,
            Step::Pulls(6, 6, 1, NO_BLOCK),
        ),
    ],
};

#[test]
fn asked_again_by_another_table(rt: HostRuntime) {
    decides(&rt, rt.alloc(), &BY_TWO_TABLES);
}

#[test]
fn asked_on_both_sides_of_an_end(rt: HostRuntime) {
    decides(&rt, rt.alloc(), &ends::ON_BOTH_SIDES);
}

#[test]
fn reaches_by_cached_verdicts(rt: HostRuntime) {
    decides(&rt, rt.alloc(), &reaches::BY_CACHED_VERDICTS);
}
