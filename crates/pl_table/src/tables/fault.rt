//! Why a text is not a table.

ghost use Rattle.std.specs.Prelude.{◌≡◌, ◌≤◌};
ghost use Rattle.pl_block.specs.declared.fault.Failed.TheVariants.{Malformed};
ghost use Rattle.pl_table.specs.Tables.Fault.{fault_number};

use pl_block::Failed;

/// What is wrong with the text of a table. A text with several faults is reported by the one of the
/// least code, whichever principal or row it is in. The discriminant is the fault's code.
#[derive(Clone, Copy, Debug, PartialEq, Eq)]
pub enum TableFault {
    /// The text is not UTF-8, or not a TOML document.
    NoDocument = 1,
    /// There is a key besides `principal`, `row`, `copies` and `quorum`, or one of the first two is not
    /// an array of tables.
    UnknownKey = 2,
    /// There is no principal, or there are more than 64.
    PrincipalCount = 3,
    /// There are more than 256 rows.
    RowCount = 4,
    /// A principal has a key besides `id` and `token`, or lacks one of these.
    PrincipalKeys = 5,
    /// An id is not an integer from 0 to 4,294,967,295.
    PrincipalId = 6,
    /// A token is not a string of 32 hexadecimal digits.
    PrincipalToken = 7,
    /// Two principals have the same id.
    RepeatedId = 8,
    /// A row has an unknown key, lacks its verdict, or has only one of `from` and `to`.
    RowKeys = 9,
    /// A verdict, a role or an operation is none of the known words, or a row lists no operation.
    RowWord = 10,
    /// The principal of a row is not listed, its `from` or `to` is not an integer from 0 to 65,535,
    /// its `from` is above its `to`, or its `through` is not an integer from 0 to 2^48.
    RowNumber = 11,
    /// Nobody could put another table in force: for no principal does the first row that matches its
    /// set_table as operator allow it.
    NoOperator = 12,
    /// There is only one of `copies` and `quorum`, or they are neither the integers 3 and 2 nor 6 and 4.
    BadZone = 13,
}

impl TableFault {
    /// The code of the fault, 1 to 13.
    pub fn code(self) -> u8
        // The code of the fault (`fault_number`).
        ensures value { result ≡ fault_number self }
        // It is 1 to 13.
        ensures fits { (1 ≤ result) × (result ≤ 13) }
    {
        self as u8
    }
}

/// Why a text gave no table: the first of its faults, in the order of their codes, or out of memory.
pub type ReadFault = Failed<TableFault>;

impl From<TableFault> for ReadFault {
    ghost from_gives = { λ fault e. e ≡ Malformed fault };

    fn from(fault: TableFault) -> ReadFault {
        ReadFault::Malformed(fault)
    }
}
