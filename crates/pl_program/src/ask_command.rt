//! The subcommand `ask`.

use crate::causes::at_address;
use crate::ending::{Ending, Failure};
use crate::notes::{note_unanswered, note_unopened};
use crate::operator::{credentials_of, exchange, file_of};
use crate::run_fault::RunFault;
use crate::texts::{show, text_of_file};
use pl_command::OPERATOR_WORDS;
use pl_core::Reply;
use pl_play::{Credentials, admin, answer_text};
use pl_table::Request;
use std::alloc::AllocGlobal;
use std::net::{Net, TcpStream};
use std::rt::Files;
use std::time::Duration;

/// For how many seconds `ask` waits until the service takes more of the request, or sends more of the reply.
const PATIENCE: u64 = 30;

/// The credentials of `ask`. If the token is none, a line on the standard error says so.
pub(crate) fn credentials_for(
    rt: &impl Eprint,
    id: u32,
    token: &str,
    db: u32,
    epoch: u32,
) -> Result<Credentials, RunFault> {
    let credentials = credentials_of(id, token, db, epoch);
    if credentials.is_err() {
        let _is_told = eprintln!(rt; "--token: it is not 32 hexadecimal digits");
    }
    credentials
}

/// Sends the request that the words ask for, and shows the reply.
pub(crate) fn ask_with<R>(
    rt: &R,
    to: &str,
    credentials: Credentials,
    words: &[String],
) -> Result<Ending, Failure>
where
    R: Files + Print + Eprint + AllocGlobal + Net<Stream = TcpStream>,
{
    let request = request_of(rt, credentials, words)?;
    let reply = ask_at(rt, to, &request)?;
    show_reply(rt, &reply)
}

/// The request that the words ask for.
fn request_of<R>(rt: &R, credentials: Credentials, words: &[String]) -> Result<Request, Failure>
where
    R: Files + Eprint + AllocGlobal,
{
    let text = match file_of(words) {
        Some(file) => Some(text_of_file(rt, "set_table", file)?),
        None => None,
    };
    let request = admin(rt.alloc(), credentials, words, text).map_err(RunFault::from);
    if let Err(RunFault::Words) = &request {
        let _is_told = eprintln!(rt; "WORDS: they are none of {OPERATOR_WORDS}");
    }
    Ok(request?)
}

/// Sends the request to this address, and reads the reply.
fn ask_at<R>(rt: &R, to: &str, request: &Request) -> Result<Reply, RunFault>
where
    R: Eprint + AllocGlobal + Net<Stream = TcpStream>,
{
    let stream = connect_to(rt, to)?;
    let mut reader = &stream;
    let mut writer = &stream;
    let reply = exchange(rt.alloc(), &mut reader, &mut writer, request);
    if let Err(fault) = &reply {
        note_unanswered(rt, to, *fault);
    }
    reply
}

/// Connects to this address.
fn connect_to<R>(rt: &R, to: &str) -> Result<TcpStream, RunFault>
where
    R: Eprint + Net<Stream = TcpStream>,
{
    let opened = TcpStream::connect(rt, to);
    note_unopened(rt, "--to", to, &opened);
    let stream = at_address(opened)?;
    at_address(stream.set_read_timeout(Some(Duration::from_secs(PATIENCE))))?;
    at_address(stream.set_write_timeout(Some(Duration::from_secs(PATIENCE))))?;
    Ok(stream)
}

/// Shows the reply, and how the program ends by it.
fn show_reply(rt: &(impl Print + Eprint + AllocGlobal), reply: &Reply) -> Result<Ending, Failure> {
    let text = answer_text(rt.alloc(), reply).map_err(RunFault::from)?;
    show(rt, &text)?;
    Ok(Ending::of_reply(reply))
}
