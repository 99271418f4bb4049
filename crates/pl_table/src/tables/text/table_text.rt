//! A text, kept beside what it reads as.

ghost use Rattle.std.specs.Prelude.{◌≡◌, Err, IfOk, OnErr};
ghost use Rattle.pl_block.specs.declared.fault.Failed.TheVariants.{NoMemory};
ghost use Rattle.pl_table.specs.Tables.Fault.{returned};
ghost use Rattle.pl_table.specs.Tables.TableText.{table_reading};

use crate::tables::fault::{ReadFault, TableFault};
use crate::tables::table::Table;
use crate::tables::text::reading::read_table;
use std::alloc::{AllocError, Global};
use std::fmt;
use std::marker::Model;

// A text, and what it reads as.
#[derive(Drop)]
struct ReadText {
    text: Vec<u8>,
    reading: Result<Table, TableFault>,
}

impl Model for ReadText {
    ghost use Rattle.std.specs.Prelude.{◌≡◌, ℕ, List};
    ghost use Rattle.pl_table.specs.Tables.TableText.{table_reading};

    ghost Value = { List ℕ };

    ghost view = { λ p. p.text.items };

    ghost invariant = { λ p. p.reading ≡ table_reading p.text.items };
}

impl ReadText {
    fn of(text: Vec<u8>, reading: Result<Table, TableFault>) -> ReadText
        requires reading { reading ≡ table_reading text.items }
        ensures value { result ≡ text.items }
    {
        ReadText { text, reading }
    }
}

/// A text that was read once, with the table that it reads as, or with its first fault. A contract
/// sees the text alone, since the text determines the rest. The debug text leaves the text out, since
/// it has tokens.
///
/// Both lie in a box: every request has the size of the largest, and is moved more than once.
#[derive(Drop)]
pub struct TableText {
    read: Box<ReadText>,
}

impl fmt::Debug for TableText {
    fn fmt<W: fmt::Write>(&self, f: &mut fmt::Formatter<W>) -> fmt::Result {
        f.debug_struct("TableText")
            .field("reading", self.reading())
            .finish_non_exhaustive()
    }
}

impl Model for TableText {
    ghost use Rattle.std.specs.Prelude.{ℕ, List};

    ghost Value = { List ℕ };

    ghost view = { λ t. t.read.value };
}

// The reading that a call of the reader returned, unless an allocation failed.
fn reading_of(read: Result<Table, ReadFault>) -> Result<Result<Table, TableFault>, AllocError>
    ensures ok { IfOk result (λ reading. read ≡ returned reading) }
    ensures err { OnErr result (read ≡ Err NoMemory) }
{
    match read {
        Ok(table) => Ok(Ok(table)),
        Err(ReadFault::Malformed(fault)) => Ok(Err(fault)),
        Err(ReadFault::NoMemory) => Err(AllocError),
    }
}

impl TableText {
    /// Reads the text. `Err` if an allocation of the reader failed; the text is dropped then. A
    /// text with a fault is a `TableText` too: [`reading`](TableText::reading) has the fault.
    pub fn new(alloc: Global, text: Vec<u8>) -> Result<TableText, AllocError>
        // If no allocation fails, a text with these bytes.
        ensures ok { IfOk result (λ t. t ≡ text.items) }
    {
        let reading = reading_of(read_table(alloc, &text))?;
        let read = Box::new(alloc, ReadText::of(text, reading))?;
        Ok(TableText { read })
    }

    /// The text, byte for byte.
    pub fn text(&self) -> &[u8]
        // The bytes of the text.
        ensures value { result.now ≡ self.now }
    {
        let read: &ReadText = &self.read;
        &read.text
    }

    /// The table that the text reads as, or the first of its faults.
    pub fn reading(&self) -> &Result<Table, TableFault>
        // What the text reads as: a table, or the first fault (`table_reading`).
        ensures value { result.now ≡ table_reading self.now }
    {
        let read: &ReadText = &self.read;
        &read.reading
    }

    /// The table that the text reads as, or the first of its faults. The text is dropped.
    pub fn into_reading(self) -> Result<Table, TableFault>
        // What the text reads as: a table, or the first fault (`table_reading`).
        ensures value { result ≡ table_reading self }
    {
        let ReadText { reading, .. } = Box::into_inner(self.read);
        reading
    }
}
