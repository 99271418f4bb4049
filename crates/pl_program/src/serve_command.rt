//! The subcommand `serve`.

ghost use Rattle.std.specs.Prelude.{◌≤◌, vec_len};

use crate::causes::at_address;
use crate::ending::{Ending, Failure};
use crate::notes::{note_start, note_stopped, note_unopened};
use crate::opening::{Opening, opening_of, token_of};
use crate::run_fault::RunFault;
use crate::service::serve_databases;
use crate::tally::{Tally, tally_of};
use crate::teller::Teller;
use crate::texts::{show, text_of_file};
use pl_command::ServeNumbers;
use pl_conn::Terms;
use std::alloc::AllocGlobal;
use std::net::{Net, TcpListener, TcpStream};
use std::rt::Files;
use std::sync::Wait;
use std::thread;
use std::thread::Threads;

/// Serves databases that begin with the table of this file.
pub(crate) fn serve_with<R>(
    rt: &R,
    listen: &str,
    table: &str,
    numbers: ServeNumbers,
) -> Result<Ending, Failure>
where
    R: Files + Print + Eprint + AllocGlobal + Threads + Wait + Sync + Copy + Drop,
    R: Net<Listener = TcpListener, Stream = TcpStream>,
    requires some { 1 ≤ numbers.dbs }
    requires few { numbers.dbs ≤ 16 }
    requires workers { numbers.workers ≤ 64 }
    requires audit { 1 ≤ numbers.audit }
{
    let text = text_of_file(rt, "--table", table)?;
    match opening_of(rt.alloc(), text.as_slice(), numbers) {
        Ok(opening) => serve_all(rt, listen, opening, numbers),
        Err(fault) => {
            let primary = token_of(rt.alloc(), text.as_slice(), numbers.primary);
            let unlisted = if primary.is_ok() {
                "--pager"
            } else {
                "--primary"
            };
            note_start(rt, table, text.as_slice(), unlisted, fault);
            Err(Failure::from(fault))
        }
    }
}

/// Serves the databases at the address.
fn serve_all<R>(
    rt: &R,
    listen: &str,
    opening: Opening,
    numbers: ServeNumbers,
) -> Result<Ending, Failure>
where
    R: Print + Eprint + AllocGlobal + Threads + Wait + Sync + Copy + Drop,
    R: Net<Listener = TcpListener, Stream = TcpStream>,
    requires some { 1 ≤ vec_len opening.dbs }
    requires few { vec_len opening.dbs ≤ 16 }
    requires workers { numbers.workers ≤ 64 }
{
    match listen_at(rt, listen) {
        Ok(listener) => serve_at(rt, &listener, opening, numbers),
        Err(fault) => Err(Failure::from(fault)),
    }
}

/// Listens at the address, and writes the address that it is.
fn listen_at<R>(rt: &R, listen: &str) -> Result<TcpListener, RunFault>
where
    R: Print + Eprint + Net<Listener = TcpListener, Stream = TcpStream>,
{
    let bound = TcpListener::bind(rt, listen);
    note_unopened(rt, "--listen", listen, &bound);
    let listener = at_address(bound)?;
    let address = at_address(listener.local_addr())?;
    show(rt, &format_args!("listening {address}\n"))?;
    Ok(listener)
}

/// How often a worker polls again before it sleeps: as often as is asked for. Otherwise by the processors that the process may
/// use: a worker that polls takes one from the client that it waits for, where there are one or two.
fn idle_polls_of(rt: &impl Threads, asked: Option<u32>) -> u32 {
    if let Some(polls) = asked {
        return polls;
    }
    match thread::available_parallelism(rt) {
        Ok(processors) if processors.get() > 2 => 300,
        _ => 0,
    }
}

/// Serves the databases to this listener until as many connections were accepted as the numbers say, and writes how many
/// were.
fn serve_at<R>(
    rt: &R,
    listener: &TcpListener,
    opening: Opening,
    numbers: ServeNumbers,
) -> Result<Ending, Failure>
where
    R: Print + Eprint + AllocGlobal + Threads + Wait + Sync + Copy + Drop,
    R: Net<Listener = TcpListener, Stream = TcpStream>,
    requires some { 1 ≤ vec_len opening.dbs }
    requires few { vec_len opening.dbs ≤ 16 }
    requires workers { numbers.workers ≤ 64 }
{
    let Opening { dbs, pager } = opening;
    let terms = Terms {
        alloc: rt.alloc(),
        listener,
        connections: numbers.connections,
        idle_polls: idle_polls_of(rt, numbers.idle_polls),
        watch: &Teller { rt },
    };
    match serve_databases(rt, &terms, dbs, numbers.workers, pager) {
        Ok(served) => {
            let tally = tally_of(&served);
            note_stopped(rt, numbers.workers, &tally);
            tell(rt, tally)
        }
        Err(fault) => Err(Failure::from(fault)),
    }
}

/// Writes the last line of a service, or returns the fault of its stop.
fn tell(rt: &(impl Print + Eprint), tally: Result<Tally, RunFault>) -> Result<Ending, Failure> {
    show(rt, &tally?)?;
    Ok(Ending::Done)
}
