//! The program: what its arguments ask for is read and done. The parts are contracts; [`run`] and what it calls join them to the
//! input and output of a process.

use crate::ask_command::{ask_with, credentials_for};
use crate::ending::{Ending, Failure};
use crate::play_command::play_with;
use crate::serve_command::serve_with;
use crate::texts::show;
use pl_command::{CommandLine, arguments_of, asked};
use std::alloc::AllocGlobal;
use std::fmt;
use std::net::{Net, TcpListener, TcpStream};
use std::rt::{Env, Files};
use std::sync::Wait;
use std::thread::Threads;

/// Does what the arguments of the process ask for, and returns how the program ends. Help is written;
/// `play` answers the lines of the standard input on the standard output; `serve` writes its address,
/// answers connections until this many were accepted, and writes how many; if it has fewer workers than asked
/// for, or a connection has to wait to be accepted, it reports that on the standard error and goes on; `ask` sends one request and
/// writes the text of the reply. Of most faults a line on the standard error says what they are about: the option, its value, the
/// line of a table, the system's cause.
///
/// `Refused` comes if the reply to `ask`, which is written too, is not Done, Status or Entries. If
/// all else is done, `Done` comes.
///
/// - `Command`: the arguments name nothing to do, or memory ran out while they were read.
/// - `Start`: a file could not be read or is too long, its text is not a table, the table does not list the
///   primary or the page server, or memory ran out. Until then nothing was read from the standard input,
///   written, listened at or sent.
/// - `Play`: `play` stopped before the end of its input. The answers to the lines before stay written.
/// - `Run`: a text could not be written; an address could not be listened at or reached; a connection
///   could not be accepted, or a thread not be started; the token or the words of `ask` are none; what
///   came back is not a reply; or memory ran out. What was answered or sent until then stays so.
pub fn run<R>(rt: &R) -> Result<Ending, Failure>
where
    R: Env + Files + Input + Print + Eprint + AllocGlobal + Threads + Wait + Sync + Copy + Drop,
    R: Net<Listener = TcpListener, Stream = TcpStream>,
{
    match asked(rt.alloc(), arguments_of(rt))? {
        CommandLine::Help { text } => help(rt, &text),
        CommandLine::Play { table, primary } => play_with(rt, table.as_str(), primary),
        CommandLine::Serve {
            listen,
            table,
            numbers,
        } => serve_with(rt, listen.as_str(), table.as_str(), numbers),
        CommandLine::Ask {
            to,
            id,
            token,
            db,
            epoch,
            words,
        } => {
            let credentials = credentials_for(rt, id, token.as_str(), db, epoch)?;
            ask_with(rt, to.as_str(), credentials, words.as_slice())
        }
    }
}

/// Shows the text of `help`.
fn help(rt: &(impl Print + Eprint), text: &impl fmt::Display) -> Result<Ending, Failure> {
    show(rt, text)?;
    Ok(Ending::Done)
}
