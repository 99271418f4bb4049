//! The line on standard error before that of a fault: what the fault is about, and why. It is written when the fault is found. If
//! standard error is closed it is lost, and the fault stays.

use crate::complaint::Complaint;
use crate::run_fault::RunFault;
use crate::tally::Tally;
use pl_play::{FileFault, StartFault};
use std::alloc::AllocGlobal;
use std::{fmt, io};

/// Says this of an option or a word with its value, as `--table t0.toml`.
pub(crate) fn note(rt: &impl Eprint, option: &str, value: &str, what: &impl fmt::Display) {
    let _is_told = eprintln!(rt; "{option} {value}: {what}");
}

/// Says why this was not opened, if it was not.
pub(crate) fn note_unopened<T>(
    rt: &impl Eprint,
    option: &str,
    value: &str,
    opened: &io::Result<T>,
) {
    if let Err(cause) = opened {
        note(rt, option, value, cause);
    }
}

/// Says why a file that was opened has no text.
pub(crate) fn note_unread(rt: &impl Eprint, option: &str, file: &str, fault: FileFault) {
    match fault {
        FileFault::Read => note(rt, option, file, &"it cannot be read"),
        FileFault::Long => note(rt, option, file, &"it has more than 65,506 bytes"),
        FileFault::NoMemory => {}
    }
}

/// Says why no database begins with the text of this file: what is wrong with it, or who is not listed.
pub(crate) fn note_start<R: Eprint + AllocGlobal>(
    rt: &R,
    file: &str,
    text: &[u8],
    unlisted: &str,
    fault: StartFault,
) {
    match fault {
        StartFault::Table(fault) => {
            note(rt, "--table", file, &Complaint::of(rt.alloc(), text, fault));
        }
        StartFault::NotListed => {
            note(
                rt,
                "--table",
                file,
                &format_args!("it does not list {unlisted}"),
            );
        }
        StartFault::File | StartFault::NoMemory => {}
    }
}

/// Says why a service ended before all connections were accepted, if it did.
pub(crate) fn note_stopped(rt: &impl Eprint, workers: u32, tally: &Result<Tally, RunFault>) {
    let _is_told = match tally {
        Err(RunFault::Threads) => {
            eprintln!(rt;
                "--workers {workers}: none could be started: there is a limit on threads, or on descriptors"
            )
        }
        Err(RunFault::Read) => { eprintln!(rt; "--listen: no more connections can be accepted") }
        _ => Ok(()),
    };
}

/// Says what became of a request, if there is no reply to it.
pub(crate) fn note_unanswered(rt: &impl Eprint, to: &str, fault: RunFault) {
    let what = match fault {
        RunFault::Write => "the connection ended before the request was sent",
        RunFault::Read =>
            "no reply came within 30 seconds, or the connection broke: the request may have been carried out",
        RunFault::Reply => "what came back is no reply: is it a pagelog service?",
        _ => return,
    };
    note(rt, "--to", to, &what);
}
