//! The verdict on a request.

ghost use Rattle.std.specs.Prelude.{◌≡◌};
ghost use Rattle.pl_table.specs.Tables.Section.{section_number};

/// A section of the written order. The discriminant is the number of the section in a reply.
#[derive(Clone, Copy, Debug, PartialEq, Eq)]
pub enum Section {
    /// Who asks, in which epoch and role.
    A = 1,
    /// The rows of the table.
    B = 2,
    /// What the database has.
    C = 3,
}

impl Section {
    /// The number of the section in a reply, 1 to 3.
    pub fn number(self) -> u8
        // Its number.
        ensures value { result ≡ section_number self }
    {
        self as u8
    }
}

/// The verdict on a request.
#[derive(Clone, Copy, Debug, PartialEq, Eq)]
pub enum Verdict {
    /// No rule denies it.
    Allowed,
    /// Denied by the first rule that denies it. `row` is the number of the rule in its section, and
    /// `value` what the rule reports.
    Denied {
        section: Section,
        row: u16,
        value: u64,
    },
}
