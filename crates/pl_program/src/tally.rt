//! What `serve` ends in: its last line, or the fault of its stop.

ghost use Rattle.std.specs.Prelude.{◌≡◌, Some};
ghost use Rattle.pl_program.specs.Service.{result_of_stop, tally_at, tally_text};

use crate::run_fault::RunFault;
use crate::service::ServedDatabases;
use pl_conn::Stop;
use std::fmt;

/// Whether a stop of the service is a fault: all is done if all connections were accepted.
pub fn result_of(stop: Stop) -> Result<(), RunFault>
    // The stop of the service as a fault: none if all connections were accepted.
    ensures value { result ≡ result_of_stop stop }
{
    match stop {
        Stop::Limit => Ok(()),
        Stop::Accept => Err(RunFault::Read),
        Stop::Start => Err(RunFault::Threads),
        Stop::NoMemory => Err(RunFault::NoMemory),
    }
}

/// The last line of `serve`.
#[derive(Clone, Copy)]
pub struct Tally {
    /// How many connections were accepted.
    pub connections: u32,
    /// How many of them ended in a fault.
    pub faults: u64,
}

/// The last line of a service that ended so, or the fault of its stop.
pub fn tally_of(served: &ServedDatabases) -> Result<Tally, RunFault>
    // The numbers of the last line if all connections were accepted, else the fault of the stop.
    ensures value { result ≡ tally_at served.now.stop served.now.accepted served.now.faults }
{
    result_of(served.stop)?;
    Ok(Tally {
        connections: served.accepted,
        faults: served.faults,
    })
}

impl fmt::Display for Tally {
    ghost output = { λ tally. Some (tally_text tally.connections tally.faults) };

    fn fmt<W: fmt::Write>(&self, f: &mut fmt::Formatter<W>) -> fmt::Result {
        let Tally {
            connections,
            faults,
        } = *self;
        writeln!(f, "connections {connections} faults {faults}")
    }
}
