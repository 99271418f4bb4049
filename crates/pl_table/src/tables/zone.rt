//! The landing zone that a table asks for.

ghost use Rattle.std.specs.Prelude.{◌≡◌, ◌≤◌};
ghost use Rattle.pl_table.specs.Tables.Zone.{copies_in, quorum_in};

/// How many copies the landing zone has, and how many of them harden an LSN.
#[derive(Clone, Copy, Debug, PartialEq, Eq)]
pub enum Zone {
    /// Three copies, two of which are a quorum.
    Three,
    /// Six copies, four of which are a quorum.
    Six,
}

impl Zone {
    // How many copies the zone has.
    pub(crate) fn copies(self) -> u8
        ensures value { result ≡ copies_in self }
        ensures fits { (1 ≤ result) × (result ≤ 6) }
    {
        match self {
            Zone::Three => 3,
            Zone::Six => 6,
        }
    }

    // How many copies harden an LSN.
    pub(crate) fn quorum(self) -> u8
        ensures value { result ≡ quorum_in self }
        ensures fits { (1 ≤ result) × (result ≤ copies_in self) }
    {
        match self {
            Zone::Three => 2,
            Zone::Six => 4,
        }
    }
}
