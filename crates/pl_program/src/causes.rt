//! What the system did not give, as a fault: a lack of memory is told from any other cause.

ghost use Rattle.std.specs.Prelude.{◌≡◌, ◌≢◌, ◌⊎◌, Err, Ok, IfErr, IfOk, IsErrAnd, IsOkAnd};
ghost use Rattle.std.specs.IoError.{error_kind};
ghost use Rattle.pl_play.specs.Start.{IsTooLongText, IsWhole};

use crate::run_fault::RunFault;
use pl_play::{FileFault, PlayFault, file_fault_of, read_text};
use std::alloc::Global;
use std::io::{self, BufReader, ErrorKind, Read};

/// The text of a file that was opened, or why there is none.
pub(crate) fn text_in<R: Read + Drop>(
    alloc: Global,
    opened: io::Result<R>,
) -> Result<Vec<u8>, FileFault>
    // The whole of the file.
    ensures ok { IfOk result (λ text. IsOkAnd opened (λ reader.
        IsWhole (R.remaining reader) text.items)) }
    // If memory ran out while it was opened, the fault is `NoMemory`.
    ensures no_memory { IfErr opened (λ error. error_kind error ≡ ErrorKind.OutOfMemory →
        result ≡ Err FileFault.NoMemory) }
    // If it was not opened for any other cause, the fault is `Read`.
    ensures unopened { IfErr opened (λ error. error_kind error ≢ ErrorKind.OutOfMemory →
        result ≡ Err FileFault.Read) }
    // `Long` comes only if the file was opened and has more than 65,506 bytes.
    ensures long { result ≡ Err FileFault.Long → IsOkAnd opened (λ reader.
        IsTooLongText (R.remaining reader)) }
{
    match opened {
        Ok(reader) => read_text(alloc, reader),
        Err(error) => Err(file_fault_of(&error)),
    }
}

/// What listens at an address, or is connected to it, or why nothing is.
pub(crate) fn at_address<T: Drop>(opened: io::Result<T>) -> Result<T, RunFault>
    // What was opened.
    ensures ok { IfOk result (λ it. opened ≡ Ok it) }
    // If memory ran out, the fault is `NoMemory`.
    ensures no_memory { IfErr opened (λ error. error_kind error ≡ ErrorKind.OutOfMemory →
        result ≡ Err RunFault.NoMemory) }
    // For any other cause it is `Address`.
    ensures address { IfErr opened (λ error. error_kind error ≢ ErrorKind.OutOfMemory →
        result ≡ Err RunFault.Address) }
{
    match opened {
        Ok(it) => Ok(it),
        Err(error) if error.kind() == ErrorKind::OutOfMemory => Err(RunFault::NoMemory),
        Err(_) => Err(RunFault::Address),
    }
}

/// The input with a buffer before it.
pub(crate) fn buffered<R: Read + Drop>(alloc: Global, input: R) -> Result<BufReader<R>, PlayFault>
    // The fault is `NoMemory`.
    ensures err { IfErr result (λ fault. fault ≡ PlayFault.NoMemory) }
{
    match BufReader::new(alloc, input) {
        Ok(reader) => Ok(reader),
        Err(_) => Err(PlayFault::NoMemory),
    }
}
