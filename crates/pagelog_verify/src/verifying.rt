//! The trail of a file is verified.

ghost use Rattle.std.specs.Prelude.{◌≡◌, ◌≤◌, ◌-◌, ◌⊎◌, ℕ, List, Option, Err, None, Ok, Some, IfErr, IfOk, IfSome, length, slice_get};
ghost use Rattle.pl_table.specs.Tables.Table.{token_of};
ghost use Rattle.pl_table.specs.Tables.TableText.{table_reading};
ghost use Rattle.pl_trail.specs.Trail.{begun};
ghost use Rattle.pagelog_verify.specs.Answer.{IsFaultOf, Reports, ReportsOf, widest};

use crate::fault::{Fault, fault_of_db, fault_of_text};
use crate::left::left_out_of;
use crate::parts::{Listed, Parts};
use crate::reading::read_trail;
use crate::report::Report;
use pl_table::{Table, read_table};
use pl_trail::{Finding, Limits, verify};
use std::alloc::Global;
use std::io::BufRead;

/// As many entries as any audit list may have.
const WIDEST: Limits = Limits {
    audit: 16_777_216,
    chunks: 1,
};

// The table of a text.
fn table_of(alloc: Global, text: &[u8]) -> Result<Table, Fault>
    ensures ok { IfOk result (λ table. table_reading text.now ≡ Ok table) }
    ensures err { IfErr result (λ fault. (primary : ℕ) (known : Option (List ℕ)) →
        IsFaultOf fault text.now primary known) }
{
    match read_table(alloc, text) {
        Ok(table) => Ok(table),
        Err(fault) => Err(fault_of_text(fault)),
    }
}

// The line of this number, from 1.
fn line_at(lines: &[Listed], number: u64) -> Listed
    requires some { 1 ≤ number }
    requires within { number ≤ length lines.now }
    ensures value { slice_get lines.now (number - 1) ≡ Some result }
{
    lines[(number - 1) as usize]
}

// What is reported of what a file has, with this table and primary.
fn report_of(alloc: Global, table: Table, primary: u32, parts: &Parts) -> Result<Report, Fault>
    ensures ok { IfOk result (λ report. Reports report (begun table primary widest) parts.now) }
    ensures not_listed { result ≡ Err Fault.NotListed → token_of primary table.principals ≡ None }
    ensures err { IfErr result (λ fault. (fault ≡ Fault.NotListed) ⊎ (fault ≡ Fault.NoMemory)) }
{
    let trail = parts.trail(alloc)?;
    let lines = trail.len() as u64;
    let left = left_out_of(&trail);
    match verify(alloc, table, primary, WIDEST, trail) {
        Ok(Finding::Agrees { hard, .. }) => Ok(Report::Agrees { lines, hard, left }),
        Ok(Finding::Differs { line }) => Ok(Report::Differs {
            number: line,
            listed: line_at(parts.lines(), line),
        }),
        Err(fault) => Err(fault_of_db(fault)),
    }
}

/// What is reported of a trail's file, with the table of this text and this primary.
pub fn report_of_file<R: BufRead>(
    alloc: Global,
    text: &[u8],
    primary: u32,
    trail: &mut R,
) -> Result<Report, Fault>
    // What `verify` answers to what the text and the file's bytes are read as (`ReportsOf`).
    ensures ok { IfOk result (λ report. IfSome (R.remaining trail.old)
        (λ bytes. ReportsOf report text.now primary bytes)) }
    // The first fault of the two, or none that they show (`IsFaultOf`).
    ensures err { IfErr result (λ fault.
        IsFaultOf fault text.now primary (R.remaining trail.old)) }
{
    let table = table_of(alloc, text)?;
    let parts = read_trail(alloc, trail)?;
    report_of(alloc, table, primary, &parts)
}
