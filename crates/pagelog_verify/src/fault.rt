//! Why there is no answer.

ghost use Rattle.std.specs.Prelude.{◌≡◌, Some};
ghost use Rattle.pagelog_verify.specs.Texts.{fault_of_db, fault_of_input, fault_of_text, fault_status, fault_text};

use pl_core::DbFault;
use pl_play::{FileFault, InputFault};
use pl_table::{ReadFault, TableFault};
use pl_wire::WireFault;
use std::alloc::{AllocError, AllocFailed};
use std::fmt;
use thiserror::Error;

/// Why there is no answer. Of several faults those of the table's file come first, then those of the trail's, line by
/// line, and then that the primary is not listed.
#[derive(Clone, Copy, Debug, PartialEq, Eq, Error)]
pub enum Fault {
    /// The table's file could not be opened or read, or has more than 65,506 bytes.
    TableFile,
    /// The text in it is not a table.
    Table(TableFault),
    /// The table does not list the primary.
    NotListed,
    /// The trail's file could not be opened, or a read failed.
    TrailFile,
    /// Its line of this number, from 1, has more than 131,072 bytes.
    Long(u64),
    /// Its line of this number has an odd number of digits, or a byte that is not a digit.
    Text(u64),
    /// Its line of this number spells no item, by this fault.
    Item(u64, WireFault),
    /// An allocation failed.
    NoMemory,
    /// The answer could not be written.
    Write,
}

impl Fault {
    /// The exit status, of each fault its own: 3 to 11.
    pub fn status(&self) -> u8
        // The exit status, of each fault its own.
        ensures value { result ≡ fault_status self.now }
    {
        match self {
            Fault::TableFile => 3,
            Fault::Table(_) => 4,
            Fault::NotListed => 5,
            Fault::TrailFile => 6,
            Fault::Long(_) => 7,
            Fault::Text(_) => 8,
            Fault::Item(..) => 9,
            Fault::NoMemory => 10,
            Fault::Write => 11,
        }
    }
}

impl fmt::Display for Fault {
    ghost output = { λ fault. Some (fault_text fault) };

    fn fmt<W: fmt::Write>(&self, f: &mut fmt::Formatter<W>) -> fmt::Result {
        match self {
            Fault::TableFile => write!(f, "table file"),
            Fault::Table(fault) => write!(f, "table {}", fault.code()),
            Fault::NotListed => write!(f, "not listed"),
            Fault::TrailFile => write!(f, "trail file"),
            Fault::Long(line) => write!(f, "trail line {line} is too long"),
            Fault::Text(line) => write!(f, "trail line {line} is no hexadecimal text"),
            Fault::Item(line, fault) => write!(f, "trail line {line} has fault {}", fault.code()),
            Fault::NoMemory => write!(f, "no memory"),
            Fault::Write => write!(f, "write"),
        }
    }
}

impl From<AllocError> for Fault {
    ghost use Rattle.pagelog_verify.specs.declared.fault.Fault.TheVariants.{NoMemory};

    ghost from_gives = { λ _ e. e ≡ NoMemory };

    fn from(_refused: AllocError) -> Fault {
        Fault::NoMemory
    }
}

impl<T: Drop> From<AllocFailed<T>> for Fault {
    ghost use Rattle.pagelog_verify.specs.declared.fault.Fault.TheVariants.{NoMemory};

    ghost from_gives = { λ _ e. e ≡ NoMemory };

    fn from(_refused: AllocFailed<T>) -> Fault {
        Fault::NoMemory
    }
}

/// The fault of a table's text that is not read.
pub(crate) fn fault_of_text(fault: ReadFault) -> Fault
    ensures value { result ≡ fault_of_text fault }
{
    match fault {
        ReadFault::Malformed(fault) => Fault::Table(fault),
        ReadFault::NoMemory => Fault::NoMemory,
    }
}

/// The fault of a database that does not begin.
pub(crate) fn fault_of_db(fault: DbFault) -> Fault
    ensures value { result ≡ fault_of_db fault }
{
    match fault {
        DbFault::NotListed => Fault::NotListed,
        DbFault::NoMemory => Fault::NoMemory,
    }
}

/// The fault of a trail's line that is not taken, which has this number.
pub(crate) fn fault_of_input(number: u64, fault: InputFault) -> Fault
    ensures value { result ≡ fault_of_input number fault }
{
    match fault {
        InputFault::Read => Fault::TrailFile,
        InputFault::NoMemory => Fault::NoMemory,
        InputFault::Long => Fault::Long(number),
    }
}

/// The fault of a table's file that is not read.
pub(crate) fn fault_of_file(fault: FileFault) -> Fault {
    match fault {
        FileFault::Read | FileFault::Long => Fault::TableFile,
        FileFault::NoMemory => Fault::NoMemory,
    }
}
