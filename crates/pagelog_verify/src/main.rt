//! `pagelog-verify`: says whether a trail, an audit list that was kept, is of a database, and else the first line up to
//! which it is of none.
//!
//! The trail is a file of lines of hexadecimal text, as `pagelogctl trail --export` writes it. What it says is what
//! `pl_trail` finds of what the file is read as; both are contracts.
#![tactic(auto)]

mod arguments;
mod fault;
mod item;
mod left;
mod parts;
mod reading;
mod report;
mod verifying;

use crate::arguments::{Asked, Unasked, read_arguments};
use crate::fault::{Fault, fault_of_file};
use crate::report::Report;
use crate::verifying::report_of_file;
use pl_play::{file_fault_of, read_text};
use std::alloc::AllocGlobal;
use std::fs;
use std::io::BufReader;
use std::process::ExitCode;
use std::rt::Files;

// The text of the table's file.
fn text_of<R: Files + Eprint + AllocGlobal>(rt: &R, file: &str) -> Result<Vec<u8>, Fault> {
    match fs::open(rt, file) {
        Ok(opened) => read_text(rt.alloc(), opened).map_err(fault_of_file),
        Err(cause) => {
            let _is_told = eprintln!(rt; "--table {file}: {cause}");
            Err(fault_of_file(file_fault_of(&cause)))
        }
    }
}

// What is reported of the trail's file.
fn answer_of<R: Files + Eprint + AllocGlobal>(
    rt: &R,
    text: &[u8],
    primary: u32,
    file: &str,
) -> Result<Report, Fault> {
    let opened = match fs::open(rt, file) {
        Ok(opened) => opened,
        Err(cause) => {
            let _is_told = eprintln!(rt; "--trail {file}: {cause}");
            return Err(Fault::TrailFile);
        }
    };
    let Ok(mut reader) = BufReader::new(rt.alloc(), opened) else {
        return Err(Fault::NoMemory);
    };
    report_of_file(rt.alloc(), text, primary, &mut reader)
}

// Verifies the trail, writes the answer, and returns its exit status.
fn verify<R: Files + Print + Eprint + AllocGlobal>(
    rt: &R,
    table: &str,
    primary: u32,
    trail: &str,
) -> Result<u8, Fault> {
    let text = text_of(rt, table)?;
    let report = answer_of(rt, text.as_slice(), primary, trail)?;
    let answer = report.text(rt.alloc())?;
    match rt.print(&answer) {
        Ok(()) => Ok(report.status()),
        Err(_) => Err(Fault::Write),
    }
}

// The exit status, after a fault was written to the standard error.
fn status_of(rt: &impl Eprint, done: Result<u8, Fault>) -> u8 {
    match done {
        Ok(status) => status,
        Err(fault) => {
            // If standard error is closed too, only the status is left to say it.
            let _is_told = eprintln!(rt; "fault: {fault}");
            fault.status()
        }
    }
}

// Does what is asked, and returns the exit status.
fn run<R: std::rt::Env + Files + Print + Eprint + AllocGlobal>(rt: &R) -> u8 {
    match read_arguments(rt) {
        Ok(
            Asked::Verify {
                table,
                primary,
                trail,
            },
        ) => status_of(rt, verify(rt, table.as_str(), primary, trail.as_str())),
        Ok(Asked::Help { text }) => match rt.print(&text) {
            Ok(()) => 0,
            Err(_) => status_of(rt, Err(Fault::Write)),
        },
        Err(Unasked::Usage(text)) => {
            let _is_told = rt.eprint(&text);
            2
        }
        Err(Unasked::NoMemory) => status_of(rt, Err(Fault::NoMemory)),
    }
}

fn main(rt: HostRuntime) -> ExitCode {
    ExitCode::from(run(&rt))
}
