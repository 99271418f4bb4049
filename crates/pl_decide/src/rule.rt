//! The rules of the written order, by name.

ghost use Rattle.std.specs.Prelude.{◌≡◌};
ghost use Rattle.pl_decide.specs.Rules.{rule_place};

use pl_table::{Section, Verdict};

/// What a request is denied for. A denial names the rule by its section and its number there.
#[derive(Clone, Copy, Debug, PartialEq, Eq)]
pub enum Rule {
    /// A1: the table does not list the principal with this token.
    UnknownPrincipal,
    /// A2: the request is of an epoch before the current one, which is reported.
    OlderEpoch,
    /// A3: the request is of an epoch after the current one, which is reported.
    NewerEpoch,
    /// A4: the principal asks as primary, and another one is the primary.
    OtherPrimary,
    /// A5: the role does not have the operation.
    RoleLacksOperation,
    /// B and the number of a row, from 1: the first row that matches denies.
    TableRow(u16),
    /// B0: no row of the table matches.
    NoRowMatches,
    /// C1: a pull begins, or a get is of, an LSN above the hardened end, which is reported.
    AboveTheEnd,
    /// C2: a write or an offer is of an LSN that is hardened; the hardened end is reported.
    HardenedAlready,
    /// C3: a write or an offer is of an LSN above the window; the hardened end is reported.
    AboveTheWindow,
    /// C4: a write or an offer brings another block than the content of its LSN.
    OtherContent,
    /// C5: a write is to a copy that the landing zone does not have.
    NoSuchCopy,
    /// C6: a report is of an LSN that cannot be hardened yet; the hardened end is reported.
    BelowQuorum,
    /// C7: the text of a set_table is not a table; the code of its first fault is reported.
    NoTable,
    /// C8: the table does not list the primary that a failover names.
    UnlistedPrimary,
    /// C9: there is no epoch after the current one to fail over to.
    LastEpoch,
}

impl Rule {
    /// The section of the rule.
    pub fn section(self) -> Section
        // The section of the rule (`rule_place`).
        ensures value { result ≡ (rule_place self).0 }
    {
        self.place().0
    }

    /// The number of the rule in its section, from 1; [`NoRowMatches`](Rule::NoRowMatches) has 0.
    pub fn number(self) -> u16
        // The number of the rule in its section (`rule_place`).
        ensures value { result ≡ (rule_place self).1 }
    {
        self.place().1
    }

    // The denial, with the value that it reports.
    pub(crate) fn denial(self, value: u64) -> Verdict
        ensures value { result ≡ Verdict.Denied (rule_place self).0 (rule_place self).1 value }
    {
        let (section, row) = self.place();
        Verdict::Denied {
            section,
            row,
            value,
        }
    }

    fn place(self) -> (Section, u16)
        ensures value { result ≡ rule_place self }
    {
        match self {
            Rule::UnknownPrincipal => (Section::A, 1),
            Rule::OlderEpoch => (Section::A, 2),
            Rule::NewerEpoch => (Section::A, 3),
            Rule::OtherPrimary => (Section::A, 4),
            Rule::RoleLacksOperation => (Section::A, 5),
            Rule::TableRow(row) => (Section::B, row),
            Rule::NoRowMatches => (Section::B, 0),
            Rule::AboveTheEnd => (Section::C, 1),
            Rule::HardenedAlready => (Section::C, 2),
            Rule::AboveTheWindow => (Section::C, 3),
            Rule::OtherContent => (Section::C, 4),
            Rule::NoSuchCopy => (Section::C, 5),
            Rule::BelowQuorum => (Section::C, 6),
            Rule::NoTable => (Section::C, 7),
            Rule::UnlistedPrimary => (Section::C, 8),
            Rule::LastEpoch => (Section::C, 9),
        }
    }
}
