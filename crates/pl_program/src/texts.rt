//! Texts of files, and on the standard output. If there is none, a line on the standard error says why.

use crate::causes::text_in;
use crate::notes::{note_unopened, note_unread};
use crate::run_fault::RunFault;
use pl_play::StartFault;
use std::alloc::AllocGlobal;
use std::rt::Files;
use std::{fmt, fs};

/// Writes a text to the standard output.
pub(crate) fn show(rt: &(impl Print + Eprint), text: &impl fmt::Display) -> Result<(), RunFault> {
    match rt.print(text) {
        Ok(()) => Ok(()),
        Err(cause) => {
            let _is_told = eprintln!(rt; "standard output: {cause}");
            Err(RunFault::Write)
        }
    }
}

/// The text of a table's file, which this option or word names.
pub(crate) fn text_of_file<R>(rt: &R, option: &str, file: &str) -> Result<Vec<u8>, StartFault>
where
    R: Files + Eprint + AllocGlobal,
{
    let opened = fs::open(rt, file);
    let is_opened = opened.is_ok();
    note_unopened(rt, option, file, &opened);
    match text_in(rt.alloc(), opened) {
        Ok(text) => Ok(text),
        Err(fault) => {
            if is_opened {
                note_unread(rt, option, file, fault);
            }
            Err(StartFault::from(fault))
        }
    }
}
