//! Trails in a transcript.

use pl_core::DbFault;
use pl_table::TableText;
use pl_trail::{Finding, Given, Kept, Limits, verify};
use std::alloc::Global;
use transcripts::answer::{push_numbers, push_word};
use transcripts::block_text::block_of;
use transcripts::line_text::line_of;
use transcripts::table_text::{table_named, text_named};
use transcripts::transcript::{Stop, Subject};

/// What is asked of trails. Each question has a whole one.
#[derive(Drop)]
pub(crate) struct Trails {
    alloc: Global,
}

// The block or the text of the word: a block has a colon.
fn given_of(alloc: Global, word: &str) -> Result<Given, Stop> {
    if word.split_once(':').is_some() {
        return Ok(Given::Block(block_of(alloc, word)?));
    }
    let text = text_named(alloc, word)?;
    Ok(Given::Text(TableText::new(alloc, text)?))
}

// A line, or a line, a plus and what is kept beside it.
fn kept_of(alloc: Global, word: &str) -> Result<Kept, Stop> {
    match word.split_once('+') {
        None => Ok(Kept {
            line: line_of(alloc, word)?,
            given: Given::Nothing,
        }),
        Some((line, given)) => Ok(Kept {
            line: line_of(alloc, line)?,
            given: given_of(alloc, given)?,
        }),
    }
}

fn trail_of(alloc: Global, words: &[&str]) -> Result<Vec<Kept>, Stop> {
    let mut trail = Vec::new(alloc);
    for word in words {
        trail.push(kept_of(alloc, word)?)?;
    }
    Ok(trail)
}

fn push_finding(out: &mut String, finding: Finding) -> Result<(), Stop> {
    match finding {
        Finding::Agrees { left_out, hard } => {
            push_word(out, "Agrees")?;
            push_numbers(out, &[left_out, hard])
        }
        Finding::Differs { line } => {
            push_word(out, "Differs")?;
            push_numbers(out, &[line])
        }
    }
}

// Verifies the trail of the words, with the start table, the primary and the most entries.
fn push_verified(alloc: Global, words: &[&str], out: &mut String) -> Result<(), Stop> {
    let [table, primary, audit, lines @ ..] = words else {
        return Err(Stop::Unread);
    };
    let limits = Limits {
        audit: audit.parse()?,
        chunks: 1,
    };
    if !limits.are_valid() {
        return Err(Stop::Unread);
    }
    let table = table_named(alloc, table)?;
    let trail = trail_of(alloc, lines)?;
    match verify(alloc, table, primary.parse()?, limits, trail) {
        Ok(finding) => push_finding(out, finding),
        Err(DbFault::NotListed) => push_word(out, "NotListed"),
        Err(DbFault::NoMemory) => Err(Stop::NoMemory),
    }
}

impl Subject for Trails {
    fn new(alloc: Global) -> Trails {
        Trails { alloc }
    }

    fn answer(
        &mut self,
        words: &[&str],
        out: &mut String,
        _refused: &mut bool,
    ) -> Result<(), Stop> {
        match words {
            ["trail", words @ ..] => push_verified(self.alloc, words, out),
            _ => Err(Stop::Unread),
        }
    }
}
