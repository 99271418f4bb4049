//! The text of a table: its TOML tree, the members of its principals and rows, and what the whole
//! text reads as.

mod part;
mod reading;
mod table_text;
mod tree;

pub use reading::read_table;
pub use table_text::TableText;
