//! How the program ends: its last line on standard error, and its exit status.

ghost use Rattle.std.specs.Prelude.{◌≡◌, Some};
ghost use Rattle.pl_program.specs.Endings.{ending_of, ending_of_reply, ending_status, ending_text, failure_text};

use crate::run_fault::RunFault;
use pl_command::CommandFault;
use pl_core::Reply;
use pl_play::{PlayFault, StartFault};
use std::fmt;

/// Why the program ends before all is done.
#[derive(Debug, Drop, PartialEq, Eq)]
pub enum Failure {
    /// The arguments name nothing to do, or memory ran out while they were read.
    Command(CommandFault),
    /// There is no text of a table, or no database to begin with.
    Start(StartFault),
    /// `play` stopped before the end of its input.
    Play(PlayFault),
    /// `serve` or `ask` ended before all was done.
    Run(RunFault),
}

impl fmt::Display for Failure {
    ghost output = { λ failure. Some (failure_text failure) };

    fn fmt<W: fmt::Write>(&self, f: &mut fmt::Formatter<W>) -> fmt::Result {
        match self {
            Failure::Command(CommandFault::Usage(text)) => write!(f, "{text}"),
            Failure::Command(CommandFault::NoMemory) => writeln!(f, "fault: no memory"),
            Failure::Start(fault) => writeln!(f, "fault: {fault}"),
            Failure::Play(fault) => writeln!(f, "fault: {fault}"),
            Failure::Run(fault) => writeln!(f, "fault: {fault}"),
        }
    }
}

impl From<CommandFault> for Failure {
    ghost use Rattle.pl_program.specs.declared.ending.Failure.TheVariants.{Command};

    ghost from_gives = { λ fault e. e ≡ Command fault };

    fn from(fault: CommandFault) -> Failure {
        Failure::Command(fault)
    }
}

impl From<StartFault> for Failure {
    ghost use Rattle.pl_program.specs.declared.ending.Failure.TheVariants.{Start};

    ghost from_gives = { λ fault e. e ≡ Start fault };

    fn from(fault: StartFault) -> Failure {
        Failure::Start(fault)
    }
}

impl From<PlayFault> for Failure {
    ghost use Rattle.pl_program.specs.declared.ending.Failure.TheVariants.{Play};

    ghost from_gives = { λ fault e. e ≡ Play fault };

    fn from(fault: PlayFault) -> Failure {
        Failure::Play(fault)
    }
}

impl From<RunFault> for Failure {
    ghost use Rattle.pl_program.specs.declared.ending.Failure.TheVariants.{Run};

    ghost from_gives = { λ fault e. e ≡ Run fault };

    fn from(fault: RunFault) -> Failure {
        Failure::Run(fault)
    }
}

/// How the program ends. Displayed, it is the last line on standard error, if that has one.
#[derive(Debug, Drop, PartialEq, Eq)]
pub enum Ending {
    /// All is done, which has no text.
    Done,
    /// `ask` was answered, and its reply is not Done, Status or Entries. It has no text here either.
    Refused,
    /// Something failed, and the text says what.
    Failed(Failure),
}

impl Ending {
    /// The ending of a run with this result.
    pub fn of(ended: Result<Ending, Failure>) -> Ending
        // How the program ends (`ending_of`).
        ensures value { result ≡ ending_of ended }
    {
        match ended {
            Ok(ending) => ending,
            Err(failure) => Ending::Failed(failure),
        }
    }

    /// The ending of `ask`, if this was the reply.
    pub fn of_reply(reply: &Reply) -> Ending
        // How `ask` ends at its reply.
        ensures value { result ≡ ending_of_reply reply.now }
    {
        match reply {
            Reply::Done | Reply::Entries { .. } | Reply::Status { .. } => Ending::Done,
            _ => Ending::Refused,
        }
    }

    /// The exit status: 0 if all is done, 2 for a usage error, and else 1.
    pub fn status(&self) -> u8
        // The program's exit status.
        ensures value { result ≡ ending_status self.now }
    {
        match self {
            Ending::Done => 0,
            Ending::Refused => 1,
            Ending::Failed(Failure::Command(CommandFault::Usage(_))) => 2,
            Ending::Failed(_) => 1,
        }
    }
}

impl fmt::Display for Ending {
    ghost output = { λ ending. Some (ending_text ending) };

    fn fmt<W: fmt::Write>(&self, f: &mut fmt::Formatter<W>) -> fmt::Result {
        match self {
            Ending::Done | Ending::Refused => Ok(()),
            Ending::Failed(failure) => write!(f, "{failure}"),
        }
    }
}
