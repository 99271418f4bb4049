//! Deciders that are asked by tables, step by step.

use pl_decide::{Decider, Epochs, View};
use pl_table::{Act, Head, Request, Role, Table, Verdict, read_table};
use std::alloc::Global;
use std::env::Env;
use std::process::Abort;
use transcripts::transcript::Stop;

/// The text of a table, in pieces, and how many times each stands there.
pub(crate) type Text = &'static [(&'static str, u8)];

/// A pull of a partition from an LSN on that is allowed, a hardened end, and how far the pull may go.
pub(crate) type Reach = (u16, u64, u64, u64);

/// What is asked of a decider by the table in force, and what is wanted.
pub(crate) enum Step {
    /// Pulls of the partitions from one to another, each from the LSN on, and the verdict on each.
    Pulls(u16, u16, u64, Verdict),
    /// How far pulls may go.
    Reaches(&'static [Reach]),
    /// How many verdicts are cached.
    Cached(usize),
    /// How many are cached, and one less if memory was refused to the step before.
    CachedBefore(usize),
    /// What is cached is not that of the table of this place.
    Differs(usize),
    /// The table of this place comes into force.
    NewTable(usize),
}

/// What a step shows, whether it is wanted if memory was refused too, and the step.
pub(crate) type Line = (&'static str, bool, Step);

/// A row: its tables, of which the first is in force, who pulls as page server, what the log has, and
/// the steps.
pub(crate) struct Row {
    pub(crate) tables: &'static [Text],
    pub(crate) who: u8,
    pub(crate) view: View,
    pub(crate) lines: &'static [Line],
}

/// Epoch 1 of primary 2.
const EPOCHS: Epochs = Epochs {
    epoch: 1,
    primary: 2,
};

/// A page server's pull of one partition from the LSN on. The token of a principal has its digit alone.
pub(crate) fn pull_of(who: u8, partition: u16, lsn: u64) -> Option<Request> {
    let head = Head {
        principal: u32::from(who),
        token: [who.wrapping_mul(0x11); 16],
        role: Role::PageServer,
        database: 0,
        epoch: 1,
    };
    let act = Act::Pull {
        lo: partition,
        hi: partition,
        lsn,
        max: 16,
    };
    Request::new(head, act)
}

// What is decided on the pull, if each cached verdict is that of the table.
fn decided(
    decider: &mut Decider,
    table: &Table,
    row: &Row,
    partition: u16,
    lsn: u64,
) -> Option<Verdict> {
    if !decider.agrees_with(table) {
        return None;
    }
    let request = pull_of(row.who, partition, lsn)?;
    Some(decider.decide(table, &EPOCHS, &row.view, &request))
}

// Whether that is the verdict on the pull of each partition from one to another.
fn are_decided(
    decider: &mut Decider,
    table: &Table,
    row: &Row,
    partitions: (u16, u16),
    lsn: u64,
    verdict: Verdict,
) -> bool {
    let (first, last) = partitions;
    for partition in first..=last {
        if decided(decider, table, row, partition, lsn) != Some(verdict) {
            return false;
        }
    }
    true
}

// Whether the pull may go so far, by a decider that agrees with the table.
fn goes_to(decider: &Decider, table: &Table, request: &Request, hard: u64, wanted: u64) -> bool {
    if !decider.agrees_with(table) {
        return false;
    }
    match table.first_match(request) {
        Some((_, true)) => {
            decider.reach(table, hard, request) == wanted
                && decider.allows_at(table, request, hard) == (hard == wanted)
        }
        _ => false,
    }
}

fn are_reaches(decider: &Decider, table: &Table, who: u8, reaches: &[Reach]) -> bool {
    for (partition, lsn, hard, wanted) in reaches {
        let is_reach = match pull_of(who, *partition, *lsn) {
            Some(request) => goes_to(decider, table, &request, *hard, *wanted),
            None => false,
        };
        if !is_reach {
            return false;
        }
    }
    true
}

fn differs(decider: &Decider, other: Option<&Table>) -> bool {
    match other {
        Some(table) => !decider.agrees_with(table),
        None => false,
    }
}

// Whether the step shows what is wanted. `lost` says whether memory was refused to the one before.
fn holds(
    decider: &mut Decider,
    tables: &[Table],
    table: &Table,
    row: &Row,
    step: &Step,
    lost: bool,
) -> bool {
    match step {
        Step::Pulls(first, last, lsn, verdict) => {
            are_decided(decider, table, row, (*first, *last), *lsn, *verdict)
        }
        Step::Reaches(reaches) => are_reaches(decider, table, row.who, reaches),
        Step::Cached(count) => decider.cached() == *count,
        Step::CachedBefore(count) => decider.cached() == count.wrapping_sub(usize::from(lost)),
        Step::Differs(place) => differs(decider, tables.get(*place)),
        Step::NewTable(_) => true,
    }
}

// Whether an allocation was refused to this run of the test, as scripts/refuse-memory reports.
fn is_refused(rt: &impl Env) -> bool {
    let mut word = [0; 20];
    rt.var("REFUSE_MET", &mut word).is_ok() && word[0] == b'1'
}

// The first of the row's steps that does not show what is wanted.
fn first_wrong(
    rt: &impl Env,
    decider: &mut Decider,
    tables: &[Table],
    row: &Row,
) -> Option<&'static str> {
    let mut place = 0;
    let mut before = is_refused(rt);
    for (what, always, step) in row.lines {
        let refused = is_refused(rt);
        if let Step::NewTable(next) = step {
            decider.new_table();
            place = *next;
        }
        let Some(table) = tables.get(place) else {
            return Some("the table of a place");
        };
        let holds = holds(decider, tables, table, row, step, refused && !before);
        if !holds && (*always || !refused) {
            return Some(*what);
        }
        before = refused;
    }
    None
}

fn text_of(alloc: Global, pieces: Text) -> Result<String, Stop> {
    let mut text = String::new(alloc);
    for (piece, times) in pieces {
        for _ in 0..*times {
            text.push_str(piece)?;
        }
    }
    Ok(text)
}

fn table_of(alloc: Global, pieces: Text) -> Result<Table, Stop> {
    let text = text_of(alloc, pieces)?;
    Ok(read_table(alloc, text.as_bytes())?)
}

fn tables_of(alloc: Global, texts: &[Text]) -> Result<Vec<Table>, Stop> {
    let mut tables = Vec::new(alloc);
    for text in texts {
        tables.push(table_of(alloc, text)?)?;
    }
    Ok(tables)
}

// What is wrong with the row of a decider that has cached nothing.
fn wrong_of(rt: &impl Env, alloc: Global, row: &Row) -> Result<Option<&'static str>, Stop> {
    let tables = tables_of(alloc, row.tables)?;
    let mut decider = Decider::new(alloc)?;
    Ok(first_wrong(rt, &mut decider, &tables, row))
}

/// Nothing is wrong, and memory was not refused twice.
pub(crate) fn is_right(rt: &impl Abort, wrong: Result<Option<&'static str>, Stop>) {
    match wrong {
        Ok(None) => {}
        Ok(Some(what)) => assert!(rt; false, "{what}"),
        Err(_) => assert!(rt; false, "memory was refused twice, or a text is not read"),
    }
}

/// Takes the steps of the row; and once more, if an allocation failed.
pub(crate) fn decides(rt: &(impl Abort + Env), alloc: Global, row: &Row) {
    let mut wrong = wrong_of(rt, alloc, row);
    if wrong.is_err() {
        wrong = wrong_of(rt, alloc, row);
    }
    is_right(rt, wrong);
}
