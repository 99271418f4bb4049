//! The answer, and its text.

ghost use Rattle.std.specs.Prelude.{◌≡◌, ◌∷◌, [], IfOk, Some, string_bytes};
ghost use Rattle.pl_play.specs.AnswerText.{audit_text};
ghost use Rattle.pagelog_verify.specs.Answer.{left_text, report_status, report_text};

use crate::left::LeftOut;
use crate::parts::Listed;
use pl_core::{Lines, Reply};
use pl_play::answer_text;
use pl_trail::Line;
use std::alloc::{AllocError, Global};
use std::fmt;

/// What is answered of a trail.
#[derive(Clone, Copy)]
pub enum Report {
    /// It is of the audit list of a database, but for what is left out.
    Agrees {
        /// How many lines it has.
        lines: u64,
        /// How many blocks are hardened behind the last one.
        hard: u64,
        /// What is left out.
        left: LeftOut,
    },
    /// No database has an audit list with the lines up to this one.
    Differs {
        /// The number of the line, from 1.
        number: u64,
        /// The line.
        listed: Listed,
    },
}

impl fmt::Display for LeftOut {
    ghost output = { λ left. Some (left_text left) };

    fn fmt<W: fmt::Write>(&self, f: &mut fmt::Formatter<W>) -> fmt::Result {
        let LeftOut {
            denied_blocks,
            other_blocks,
            texts,
        } = *self;
        writeln!(
            f,
            "left out: {denied_blocks} blocks of denied writes and offers, {other_blocks} other blocks, {texts} texts of tables, all tokens"
        )
    }
}

// A line of the audit list as text.
fn line_text(alloc: Global, line: Line) -> Result<String, AllocError>
    ensures value { IfOk result (λ text. string_bytes text ≡ audit_text line) }
{
    let lines = Lines::new(vec![in alloc; line]?);
    answer_text(alloc, &Reply::Entries { lines })
}

fn agrees_text(alloc: Global, lines: u64, hard: u64, left: LeftOut) -> Result<String, AllocError>
    ensures value { IfOk result (λ text.
        string_bytes text ≡ report_text (Report.Agrees lines hard left)) }
{
    format!(in alloc; "agrees: {lines} lines, {hard} hardened blocks\n{left}")
}

fn differs_text(alloc: Global, number: u64, listed: Listed) -> Result<String, AllocError>
    ensures value { IfOk result (λ text.
        string_bytes text ≡ report_text (Report.Differs number listed)) }
{
    let line = line_text(alloc, listed.line)?;
    format!(in alloc; "differs: line {number}\n{line}")
}

impl Report {
    /// The text of the answer: two lines.
    pub fn text(&self, alloc: Global) -> Result<String, AllocError>
        // The text, to the byte.
        ensures value { IfOk result (λ text. string_bytes text ≡ report_text self.now) }
    {
        match self {
            Report::Agrees { lines, hard, left } => agrees_text(alloc, *lines, *hard, *left),
            Report::Differs { number, listed } => differs_text(alloc, *number, *listed),
        }
    }

    /// The exit status: 0 if the trail agrees, 1 if it differs.
    pub fn status(&self) -> u8
        // The exit status.
        ensures value { result ≡ report_status self.now }
    {
        match self {
            Report::Agrees { .. } => 0,
            Report::Differs { .. } => 1,
        }
    }
}
