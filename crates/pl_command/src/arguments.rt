//! The arguments that the program is called with.

ghost use Rattle.std.specs.Prelude.{◌≡◌, true, Err, IfErr, IfOk, IsOkAnd, map, string_bytes};
ghost use Rattle.std.specs.IoError.{error_kind};
ghost use Rattle.clap.specs.Words.{takes};
ghost use Rattle.pl_command.specs.CommandLine.{AsksFor, IsUsage, own_app};

use crate::command_line::{CommandFault, CommandLine, command};
use std::alloc::{AllocGlobal, Global};
use std::env;
use std::io::{self, ErrorKind};
use std::rt::Env;

/// The usage error for an argument that is not UTF-8, in the words of `clap`.
const NO_TEXT: &str = "error: invalid UTF-8 was detected in one or more arguments

Usage: pagelog <COMMAND>

For more information, try '--help'.
";

/// What the arguments ask for, if they could be read. An argument that is not UTF-8 is a usage
/// error.
pub fn asked(alloc: Global, arguments: io::Result<Vec<String>>) -> Result<CommandLine, CommandFault>
    // What is asked for follows from the arguments (`AsksFor`).
    ensures ok { IfOk result (λ line.
        IsOkAnd arguments (λ ws. AsksFor (map string_bytes ws.items) line)) }
    // Arguments that `clap` takes are never a usage error.
    ensures usage { IfErr result (λ fault. IsUsage fault →
        IsOkAnd arguments (λ ws. takes own_app (map string_bytes ws.items) ≡ true) → ⊥) }
    // If memory ran out while the arguments were read, the fault is `NoMemory`.
    ensures no_memory { IfErr arguments (λ error. error_kind error ≡ ErrorKind.OutOfMemory →
        result ≡ Err CommandFault.NoMemory) }
{
    match arguments {
        Ok(arguments) => command(alloc, arguments),
        Err(error) if error.kind() == ErrorKind::OutOfMemory => Err(CommandFault::NoMemory),
        Err(_) => Err(CommandFault::Usage(String::from_str(alloc, NO_TEXT)?)),
    }
}

/// The arguments of the process, the program's name first.
pub fn arguments_of(rt: &(impl Env + AllocGlobal)) -> io::Result<Vec<String>> {
    Ok(env::args(rt)?.collect(rt.alloc())?)
}
