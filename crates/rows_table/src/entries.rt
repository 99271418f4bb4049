//! An audit list on its own, asked line by line, and its rows.

use pl_audit::{Audit, AuditFault, Entry};
use std::alloc::Global;
use transcripts::answer::{push_numbers, push_truth, push_word};
use transcripts::line_text::{line_of, push_lines};
use transcripts::table_text::table_named;
use transcripts::transcript::{Stop, Subject, plays};

/// The audit list of a transcript.
#[derive(Drop)]
struct Listed {
    alloc: Global,
    audit: Option<Audit>,
}

fn open(alloc: Global, limit: u64) -> Result<Audit, Stop> {
    if limit < 1 {
        return Err(Stop::Unread);
    }
    Ok(Audit::new(alloc, limit))
}

// The entry of the line, with the table if one is named.
fn entry_of(alloc: Global, line: &str, table: &[&str]) -> Result<Entry, Stop> {
    let line = line_of(alloc, line)?;
    let table = match table {
        [] => None,
        [name] => Some(table_named(alloc, name)?),
        _ => return Err(Stop::Unread),
    };
    Ok(Entry { line, table })
}

// Makes the entry, and reports whether there was a place.
fn enter(audit: &mut Audit, entry: Entry, refused: &mut bool) -> Result<&'static str, Stop> {
    let mut place = audit.reserve_one();
    if matches!(place, Err(AuditFault::NoMemory)) && !*refused {
        *refused = true;
        place = audit.reserve_one();
    }
    match place {
        Ok(()) => {
            audit.push_reserved(entry);
            Ok("Ok")
        }
        Err(AuditFault::AuditFull) => Ok("AuditFull"),
        Err(AuditFault::NoMemory) => Err(Stop::NoMemory),
    }
}

fn push_list(audit: &Audit, first: u64, max: u16, out: &mut String) -> Result<(), Stop> {
    let lines = audit.list(first, max)?;
    push_lines(out, &lines)
}

// Pushes how many rows the last table has.
fn push_rows(audit: &Audit, out: &mut String) -> Result<(), Stop> {
    match audit.last_table() {
        Some(table) => push_numbers(out, &[table.rows().len() as u64]),
        None => push_word(out, "none"),
    }
}

fn push_state(audit: &Audit, words: &[&str], out: &mut String) -> Result<(), Stop> {
    match words {
        ["len"] => push_numbers(out, &[audit.len()]),
        ["full"] => push_truth(out, audit.is_full()),
        ["list", first, max] => push_list(audit, first.parse()?, max.parse()?, out),
        ["rows"] => push_rows(audit, out),
        _ => Err(Stop::Unread),
    }
}

impl Subject for Listed {
    fn new(alloc: Global) -> Listed {
        Listed { alloc, audit: None }
    }

    fn answer(&mut self, words: &[&str], out: &mut String, refused: &mut bool) -> Result<(), Stop> {
        let alloc = self.alloc;
        if let ["entries", limit] = words {
            self.audit = Some(open(alloc, limit.parse()?)?);
            return push_word(out, "Ok");
        }
        let audit = self.audit.as_mut().ok_or(Stop::Unread)?;
        match words {
            ["enter", line, table @ ..] => {
                let entry = entry_of(alloc, line, table)?;
                push_word(out, enter(audit, entry, refused)?)
            }
            _ => push_state(audit, words, out),
        }
    }
}

const ENTRIES_UP_TO_A_LIMIT: &str = "\
entries 3                                             = Ok
len                                                   = 0
full                                                  = false
list 1 10                                             =
rows                                                  = none
enter 1/1/2/primary/0/status/0/0/A2:1                 = Ok
enter 2/0/1/operator/1/set_table/661/0/allowed start  = Ok
rows                                                  = 6
full                                                  = false
enter 3/7/2/primary/1/write/1/2/allowed               = Ok
len                                                   = 3
full                                                  = true
enter 4/7/2/primary/1/status/0/0/allowed              = AuditFull
len                                                   = 3
rows                                                  = 6
list 1 10 = 1/1/2/primary/0/status/0/0/A2:1 2/0/1/operator/1/set_table/661/0/allowed \
3/7/2/primary/1/write/1/2/allowed
list 2 1                                              = 2/0/1/operator/1/set_table/661/0/allowed
list 3 1024                                           = 3/7/2/primary/1/write/1/2/allowed
list 4 1                                              =
list 18446744073709551615 65535                       =
list 1 0                                              =
";

#[test]
fn entries_up_to_a_limit(rt: HostRuntime) {
    assert!(rt; plays::<Listed>(&rt, ENTRIES_UP_TO_A_LIMIT));
}

const TABLE_OF_THE_NEWEST_ENTRY: &str = "\
entries 65536                                         = Ok
enter 1/1/1/operator/1/set_table/661/0/allowed start  = Ok
enter 2/1/1/operator/1/set_table/1/0/C7:1             = Ok
rows                                                  = 6
enter 3/1/1/operator/1/set_table/600/0/allowed other  = Ok
rows                                                  = 4
enter 4/1/1/operator/1/status/0/0/allowed             = Ok
rows                                                  = 4
len                                                   = 4
";

#[test]
fn table_of_the_newest_entry(rt: HostRuntime) {
    assert!(rt; plays::<Listed>(&rt, TABLE_OF_THE_NEWEST_ENTRY));
}
