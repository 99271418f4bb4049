//! What a table is, how it is read from its text, and what its rows say to what is asked.

mod fault;
mod index;
mod range;
mod reach;
mod row;
mod table;
mod text;
mod verdict;
mod zone;

pub use fault::{ReadFault, TableFault};
pub use range::PartitionRange;
pub use reach::LsnRange;
pub use row::{Ops, Row};
pub use table::{MOST_PRINCIPALS, MOST_ROWS, Principal, Table};
pub use text::{TableText, read_table};
pub use verdict::{Section, Verdict};
pub use zone::Zone;
