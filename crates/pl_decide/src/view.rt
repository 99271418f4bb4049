//! What the decision sees of a database: its epoch, and its log.

/// The current epoch, and the principal that is its primary.
#[derive(Clone, Copy, Debug, PartialEq, Eq)]
pub struct Epochs {
    /// The epoch's number, from 1.
    pub epoch: u32,
    /// The id of the principal that may write in it.
    pub primary: u32,
}

/// What the rules of section C look at.
#[derive(Clone, Copy, Debug, PartialEq, Eq)]
pub struct View {
    /// How many blocks are hardened.
    pub hard: u64,
    /// Whether the block of a write or an offer is the content of its LSN, or the first block accepted
    /// there. It matters for one of the current epoch alone, and of an LSN in the window.
    pub agrees: bool,
    /// How many copies the landing zone has.
    pub copies: u8,
    /// Whether all that a report asks to harden is stored in a quorum of copies. It matters for a
    /// report of the current epoch alone.
    pub can_harden: bool,
}
