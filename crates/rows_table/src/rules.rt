//! A table in force, and what is decided by it, asked line by line.

use crate::ends_and_zones::table_here;
use crate::table_faults::{code_kept, kept_of};
use pl_decide::{Decider, Epochs, View, known};
use pl_table::{LsnRange, Ops, PartitionRange, Request, Row, Table, TableText, Verdict};
use std::alloc::Global;
use transcripts::answer::{push_bytes, push_fault, push_numbers, push_word};
use transcripts::asking::request_of;
use transcripts::reply_text::push_verdict;
use transcripts::table_text::text_named;
use transcripts::transcript::{Stop, Subject, pushed};

/// What is decided by: at first epoch 7 of primary 2, and a log of 5 blocks.
#[derive(Drop)]
pub(crate) struct Rules {
    alloc: Global,
    /// The table in force, and the one before it.
    table: Option<Table>,
    older: Option<Table>,
    epochs: Epochs,
    view: View,
}

fn push_row(out: &mut String, row: &Row) -> Result<(), Stop> {
    push_word(out, if row.allows { "allow" } else { "deny" })?;
    if let Some(who) = row.who {
        write!(out, " who {who}")?;
    }
    if let Some(role) = row.role {
        write!(out, " role {role}")?;
    }
    if let Some(ops) = &row.op {
        push_ops(out, ops)?;
    }
    if let Some(PartitionRange { from, to }) = row.range {
        write!(out, " partitions {from} {to}")?;
    }
    if let Some(lsn) = row.through {
        write!(out, " through {lsn}")?;
    }
    Ok(())
}

fn push_ops(out: &mut String, ops: &Ops) -> Result<(), Stop> {
    push_word(out, "op")?;
    for op in ops.as_slice() {
        push_word(out, op.name())?;
    }
    Ok(())
}

fn push_token(out: &mut String, token: Option<[u8; 16]>) -> Result<(), Stop> {
    match token {
        Some(token) => push_bytes(out, &token),
        None => push_word(out, "none"),
    }
}

fn push_principals(out: &mut String, table: &Table) -> Result<(), Stop> {
    for principal in table.principals() {
        push_numbers(out, &[u64::from(principal.id)])?;
    }
    Ok(())
}

// Pushes the row of the number, from 1.
fn push_row_at(out: &mut String, table: &Table, number: usize) -> Result<(), Stop> {
    match table.rows().get(number.wrapping_sub(1)) {
        Some(row) => push_row(out, row),
        None => push_word(out, "none"),
    }
}

fn push_part(out: &mut String, table: &Table, words: &[&str]) -> Result<(), Stop> {
    match words {
        ["principals"] => push_principals(out, table),
        ["token", id] => push_token(out, table.token(id.parse()?)),
        ["rows"] => push_numbers(out, &[table.rows().len() as u64]),
        ["row", number] => push_row_at(out, table, number.parse()?),
        ["zone"] => push_numbers(out, &[u64::from(table.copies()), u64::from(table.quorum())]),
        _ => Err(Stop::Unread),
    }
}

// Pushes the number of the row that matches first, and whether it allows.
fn push_first(out: &mut String, found: Option<(u16, bool)>) -> Result<(), Stop> {
    match found {
        Some((row, true)) => pushed(write!(out, " {row} allow")),
        Some((row, false)) => pushed(write!(out, " {row} deny")),
        None => push_word(out, "none"),
    }
}

// Pushes how far the rows allow the request, up to the most.
fn push_reach(out: &mut String, table: &Table, request: &Request, most: u64) -> Result<(), Stop> {
    match table.first_match(request) {
        Some((_, true)) => push_numbers(out, &[table.reach(request, most)]),
        _ => push_word(out, "denied"),
    }
}

// Pushes the first and the last LSN at which the request finds the same row.
fn push_alike(out: &mut String, lsns: Option<LsnRange>) -> Result<(), Stop> {
    match lsns {
        Some(lsns) => push_numbers(out, &[lsns.from, lsns.to]),
        None => push_word(out, "none"),
    }
}

impl Rules {
    fn table(&self) -> Result<&Table, Stop> {
        self.table.as_ref().ok_or(Stop::Unread)
    }

    fn put(&mut self, table: Table) {
        self.older = self.table.take();
        self.table = Some(table);
    }

    // The verdict on the request. It is the same of a decider that was asked by an older table, and
    // when the principal is not looked up again.
    fn decide(&self, table: &Table, request: &Request) -> Result<Verdict, Stop> {
        let mut decider = Decider::new(self.alloc)?;
        if let Some(older) = &self.older {
            let _before = decider.decide(older, &self.epochs, &self.view, request);
        }
        decider.new_table();
        let verdict = decider.decide(table, &self.epochs, &self.view, request);
        if !known(table, request.head()) {
            return Ok(verdict);
        }
        let again = decider.decide_known(table, &self.epochs, &self.view, request);
        if again != verdict {
            return Err(Stop::Changed);
        }
        Ok(verdict)
    }

    // Pushes the answer to the question about the request, or what is decided on it. A reach is asked up to
    // the most.
    fn push_answer(
        &self,
        question: &str,
        most: u64,
        request: &Request,
        out: &mut String,
    ) -> Result<(), Stop> {
        if question == "request" {
            return push_word(out, "made");
        }
        let table = self.table()?;
        match question {
            "first" => push_first(out, table.first_match(request)),
            "candidates" => push_numbers(out, &[table.candidates(request) as u64]),
            "reach" => push_reach(out, table, request, most),
            "alike" => push_alike(out, table.lsns_alike(request)),
            _ => push_verdict(out, self.decide(table, request)?),
        }
    }

    // The same for the request of the words, if there is such a request.
    fn ask(&self, question: &str, most: u64, words: &[&str], out: &mut String) -> Result<(), Stop> {
        match request_of(self.alloc, 0, words)? {
            Some(request) => self.push_answer(question, most, &request, out),
            None => push_word(out, "out of range"),
        }
    }

    // Takes the table that the text of the bytes gives up, or pushes the code of its fault; it is the one
    // that the text keeps.
    fn take(&mut self, text: TableText, bytes: &[u8], out: &mut String) -> Result<(), Stop> {
        let kept = code_kept(&text, bytes);
        match text.into_reading() {
            Ok(table) if kept == Some(0) => {
                self.put(table);
                push_word(out, "Ok")
            }
            Err(fault) if kept == Some(fault.code()) => push_fault(out, fault.code()),
            _ => Err(Stop::Changed),
        }
    }

    fn take_text(&mut self, name: &str, out: &mut String) -> Result<(), Stop> {
        let bytes = text_named(self.alloc, name)?;
        let text = kept_of(self.alloc, &bytes)?;
        self.take(text, &bytes, out)
    }

    fn push_question(&mut self, words: &[&str], out: &mut String) -> Result<(), Stop> {
        match words {
            ["text", name] => self.take_text(name, out),
            ["reach", most, request @ ..] => self.ask("reach", most.parse()?, request, out),
            [question, request @ ..] => self.ask(question, 0, request, out),
            [] => Err(Stop::Unread),
        }
    }

    // The table of the words, which is a copy of the one in force, or has a name.
    fn table_of(&self, words: &[&str]) -> Result<Table, Stop> {
        match words {
            ["copy"] => Ok(self.table()?.clone_table()?),
            ["table", name] => table_here(self.alloc, name),
            _ => Err(Stop::Unread),
        }
    }

    // Sets what the words say.
    fn set(&mut self, words: &[&str]) -> Result<(), Stop> {
        match words {
            ["epochs", words @ ..] => self.epochs = epochs_of(words)?,
            ["view", words @ ..] => self.view = view_of(words)?,
            _ => {
                let table = self.table_of(words)?;
                self.put(table);
            }
        }
        Ok(())
    }
}

fn epochs_of(words: &[&str]) -> Result<Epochs, Stop> {
    let [epoch, primary] = words else {
        return Err(Stop::Unread);
    };
    let (epoch, primary) = (epoch.parse()?, primary.parse()?);
    Ok(Epochs { epoch, primary })
}

fn view_of(words: &[&str]) -> Result<View, Stop> {
    let [hard, agrees, copies, can_harden] = words else {
        return Err(Stop::Unread);
    };
    let (hard, copies) = (hard.parse()?, copies.parse()?);
    Ok(View {
        hard,
        agrees: *agrees == "true",
        copies,
        can_harden: *can_harden == "true",
    })
}

// The first words of what sets something, of what is read of the table, and of questions.
const SETTINGS: &[&str] = &["table", "copy", "epochs", "view"];

const PARTS: &[&str] = &["principals", "token", "rows", "row", "zone"];

const QUESTIONS: &[&str] = &["text", "reach", "first", "candidates", "alike", "request"];

impl Subject for Rules {
    fn new(alloc: Global) -> Rules {
        Rules {
            alloc,
            table: None,
            older: None,
            epochs: Epochs {
                epoch: 7,
                primary: 2,
            },
            view: View {
                hard: 5,
                agrees: true,
                copies: 3,
                can_harden: true,
            },
        }
    }

    fn answer(
        &mut self,
        words: &[&str],
        out: &mut String,
        _refused: &mut bool,
    ) -> Result<(), Stop> {
        let Some(first) = words.first() else {
            return Err(Stop::Unread);
        };
        if SETTINGS.contains(first) {
            self.set(words)?;
            push_word(out, "Ok")
        } else if PARTS.contains(first) {
            push_part(out, self.table()?, words)
        } else if QUESTIONS.contains(first) {
            self.push_question(words, out)
        } else {
            self.ask("", 0, words, out)
        }
    }
}
