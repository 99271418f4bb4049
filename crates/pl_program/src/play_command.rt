//! The subcommand `play`.

use crate::causes::buffered;
use crate::ending::{Ending, Failure};
use crate::notes::note_start;
use crate::texts::text_of_file;
use pl_core::Db;
use pl_play::{PlayFault, play, start_play};
use std::alloc::AllocGlobal;
use std::io;
use std::rt::Files;

/// Answers the lines of the standard input, by a database with the table of this file.
pub(crate) fn play_with<R>(rt: &R, table: &str, primary: u32) -> Result<Ending, Failure>
where
    R: Files + Input + Print + Eprint + AllocGlobal,
{
    let text = text_of_file(rt, "--table", table)?;
    let played = play_by(rt, text.as_slice(), primary);
    if let Err(Failure::Start(fault)) = &played {
        note_start(rt, table, text.as_slice(), "--primary", *fault);
    }
    played
}

/// The same by a database with the table of this text.
fn play_by(
    rt: &(impl Input + Print + AllocGlobal),
    table: &[u8],
    primary: u32,
) -> Result<Ending, Failure> {
    match start_play(rt.alloc(), table, primary) {
        Ok(mut db) => {
            let played = play_all(rt, &mut db);
            // By a call: if it went out of scope, its drop would be steps of this function's proof.
            drop(db);
            end_of(played)
        }
        Err(fault) => Err(Failure::from(fault)),
    }
}

/// Answers the lines of the standard input on the standard output.
fn play_all(rt: &(impl Input + Print + AllocGlobal), db: &mut Db) -> Result<u64, PlayFault> {
    let alloc = rt.alloc();
    let mut reader = buffered(alloc, rt.reader())?;
    // The writer has no buffer, so that each answer is out before the next line is read.
    let mut writer = io::writer(rt);
    play(alloc, &mut reader, &mut writer, db)
}

/// How the program ends if `play` ended so.
fn end_of(played: Result<u64, PlayFault>) -> Result<Ending, Failure> {
    match played {
        Ok(_) => Ok(Ending::Done),
        Err(fault) => Err(Failure::from(fault)),
    }
}
