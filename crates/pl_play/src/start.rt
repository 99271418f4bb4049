//! A database that `play` or `serve` begins with.

ghost use Rattle.std.specs.Prelude.{◌≡◌, ◌≢◌, ◌↔◌, ◌≤◌, ◌<◌, ◌⊎◌, Err, IfErr, IfOk, IsErrAnd, IsOk, OnOk, Some, length};
ghost use Rattle.std.specs.IoError.{error_kind};
ghost use Rattle.pl_play.specs.FaultText.{start_fault_text};
ghost use Rattle.pl_play.specs.Start.{IsTooLongText, IsWhole, audit_of_play, longest_table_text, start_of};

use pl_core::{Db, DbFault, Limits};
use pl_table::{ReadFault, TableFault, read_table};
use std::alloc::Global;
use std::fmt;
use std::io::{self, ErrorKind, Read};
use thiserror::Error;

/// How many bytes the text of a table may have.
const LONGEST_TEXT: usize = 65_506;

/// How many entries the audit list of `play` holds.
const AUDIT_OF_PLAY: u64 = 65_536;

/// The chunks of page versions.
const CHUNKS: usize = 16;

/// Why there is no database to begin with. Of several faults the first is reported.
#[derive(Clone, Copy, Debug, PartialEq, Eq, Error)]
pub enum StartFault {
    /// The file cannot be read, or has more than 65,506 bytes, whatever they are.
    File,
    /// The text is not a table.
    Table(TableFault),
    /// The table does not list the primary.
    NotListed,
    /// An allocation failed.
    NoMemory,
}

impl fmt::Display for StartFault {
    ghost output = { λ fault. Some (start_fault_text fault) };

    fn fmt<W: fmt::Write>(&self, f: &mut fmt::Formatter<W>) -> fmt::Result {
        match self {
            StartFault::File => write!(f, "file"),
            StartFault::Table(fault) => write!(f, "table {}", fault.code()),
            StartFault::NotListed => write!(f, "not listed"),
            StartFault::NoMemory => write!(f, "no memory"),
        }
    }
}

impl From<ReadFault> for StartFault {
    ghost use Rattle.pl_play.specs.Start.{start_fault_of_text};

    ghost from_gives = { λ fault e. e ≡ start_fault_of_text fault };

    fn from(fault: ReadFault) -> StartFault {
        match fault {
            ReadFault::Malformed(fault) => StartFault::Table(fault),
            ReadFault::NoMemory => StartFault::NoMemory,
        }
    }
}

impl From<DbFault> for StartFault {
    ghost use Rattle.pl_play.specs.Start.{start_fault_of_db};

    ghost from_gives = { λ fault e. e ≡ start_fault_of_db fault };

    fn from(fault: DbFault) -> StartFault {
        match fault {
            DbFault::NotListed => StartFault::NotListed,
            DbFault::NoMemory => StartFault::NoMemory,
        }
    }
}

/// Why a file gave no text.
#[derive(Clone, Copy, Debug, PartialEq, Eq)]
pub enum FileFault {
    /// The file could not be opened, or a read failed.
    Read,
    /// There are more than 65,506 bytes.
    Long,
    /// An allocation failed.
    NoMemory,
}

impl From<FileFault> for StartFault {
    ghost use Rattle.pl_play.specs.Start.{start_fault_of_file};

    ghost from_gives = { λ fault e. e ≡ start_fault_of_file fault };

    fn from(fault: FileFault) -> StartFault {
        match fault {
            FileFault::Read | FileFault::Long => StartFault::File,
            FileFault::NoMemory => StartFault::NoMemory,
        }
    }
}

/// The fault of a file that could not be opened or read.
pub fn file_fault_of(error: &io::Error) -> FileFault
    // `NoMemory` exactly for an error of that kind.
    ensures no_memory { (result ≡ FileFault.NoMemory)
        ↔ (error_kind error.now ≡ ErrorKind.OutOfMemory) }
    // It is never `Long`.
    ensures never { result ≢ FileFault.Long }
{
    if error.kind() == ErrorKind::OutOfMemory {
        return FileFault::NoMemory;
    }
    FileFault::Read
}

// What was read, or why it is not a text.
fn text_of(read: io::Result<usize>, text: Vec<u8>) -> Result<Vec<u8>, FileFault>
    ensures ok { IfOk result (λ whole. (whole ≡ text) × (length text.items ≤ longest_table_text)) }
    ensures read { OnOk result (IsOk read) }
    ensures long { result ≡ Err FileFault.Long →
        IsOk read × (longest_table_text < length text.items) }
    ensures memory { IfErr read (λ error. error_kind error ≡ ErrorKind.OutOfMemory →
        result ≡ Err FileFault.NoMemory) }
    ensures no_memory { result ≡ Err FileFault.NoMemory →
        IsErrAnd read (λ error. error_kind error ≡ ErrorKind.OutOfMemory) }
{
    match read {
        Ok(_) if text.len() > LONGEST_TEXT => Err(FileFault::Long),
        Ok(_) => Ok(text),
        Err(error) => Err(file_fault_of(&error)),
    }
}

/// All that the reader has, if that is at most 65,506 bytes. `Long` comes if it has more, of
/// which at most one byte is read.
pub fn read_text<R: Read + Drop>(alloc: Global, reader: R) -> Result<Vec<u8>, FileFault>
    // The whole of the file.
    ensures ok { IfOk result (λ text. IsWhole (R.remaining reader) text.items) }
    // It has at most 65,506 bytes.
    ensures fits { IfOk result (λ text. length text.items ≤ longest_table_text) }
    // `Long` comes only if the file has more.
    ensures long { result ≡ Err FileFault.Long → IsTooLongText (R.remaining reader) }
{
    let mut text = Vec::new(alloc);
    let read = reader.take(LONGEST_TEXT as u64 + 1).read_to_end(&mut text);
    text_of(read, text)
}

/// A database of which nothing was asked, with the table that the text writes down, this primary, and
/// an audit list of at most this many entries. Of several faults the text's comes first, then that the
/// primary is not listed.
pub fn start_db(alloc: Global, text: &[u8], primary: u32, audit: u64) -> Result<Db, StartFault>
    // The limit is at least 1.
    requires { 1 ≤ audit }
    // The database with that table, primary and limit of its audit list, of which nothing was
    // asked; or the first fault, or `NoMemory` (`start_of`).
    ensures value { (result ≡ Err StartFault.NoMemory)
        ⊎ (result ≡ start_of text.now primary audit) }
{
    let table = read_table(alloc, text)?;
    let limits = Limits {
        audit,
        chunks: CHUNKS,
    };
    Ok(Db::new(alloc, table, primary, limits)?)
}

/// The database of `play`: as [`start_db`] makes it, with an audit list of at most 65,536 entries.
pub fn start_play(alloc: Global, text: &[u8], primary: u32) -> Result<Db, StartFault>
    // The database with that table, that primary and an audit list of at most 65,536, of which
    // nothing was asked; or the first fault, or `NoMemory`.
    ensures value { (result ≡ Err StartFault.NoMemory)
        ⊎ (result ≡ start_of text.now primary audit_of_play) }
{
    start_db(alloc, text, primary, AUDIT_OF_PLAY)
}
