//! Roles, and the operations that each has.

ghost use Rattle.std.specs.Prelude.{◌≡◌, Some};
ghost use Rattle.pl_table.specs.Requests.Ops.{all_ops, op_number, op_of_number, op_name, role_number, role_of_number, role_name, has_op};
ghost use Rattle.pl_table.specs.Requests.Ops.{role_of_name, op_of_name};

use std::fmt;

/// The role in which a principal asks. The discriminant is the number of the role in a request.
#[derive(Clone, Copy, Debug, PartialEq, Eq, Hash)]
pub enum Role {
    /// Writes the log of its database, and reports which LSN is hardened.
    Primary = 1,
    /// Follows the log, and reads pages.
    Secondary = 2,
    /// Follows the log of its partitions, and applies it.
    PageServer = 3,
    /// Names the primary, sets the table and reads the audit list.
    Operator = 4,
}

/// What a request asks for. The discriminant is the number of the operation in a request. An
/// [`Act`](crate::Act) is an operation with its arguments.
#[derive(Clone, Copy, Debug, PartialEq, Eq, Hash)]
pub enum Op {
    /// Writes a block to one copy of the landing zone.
    Write = 1,
    /// Offers a block to the pending area.
    Offer = 2,
    /// Hardens the log up to an LSN.
    Report = 3,
    /// Reads a page.
    Get = 4,
    /// Reads hardened blocks.
    Pull = 5,
    /// Applies the log to a partition.
    Advance = 6,
    /// Reports the epoch, the primary and how many blocks are hardened.
    Status = 7,
    /// Names the primary of a new epoch.
    Failover = 8,
    /// Puts another table in force.
    SetTable = 9,
    /// Reads the audit list.
    Audit = 10,
    /// Moves old blocks to long-term storage.
    Tidy = 11,
}

// What the functions of a numbered enum do, by its cases and their words.
macro_rules! cases {
    (all; $($case:path = $word:literal),*) => { [$($case),*] };
    (name $of:expr; $($case:path = $word:literal),*) => { match $of { $($case => $word),* } };
    (of_number $number:expr; $($case:path = $word:literal),*) => {
        match $number {
            $(number if number == $case as u8 => Some($case),)*
            _ => None,
        }
    };
}

// The roles, in the order of their numbers.
macro_rules! roles {
    ($($what:tt)*) => {
        cases!(
            $($what)*;
            Role::Primary = "primary",
            Role::Secondary = "secondary",
            Role::PageServer = "page_server",
            Role::Operator = "operator"
        )
    };
}

// The operations, in the order of their numbers.
macro_rules! ops {
    ($($what:tt)*) => {
        cases!(
            $($what)*;
            Op::Write = "write",
            Op::Offer = "offer",
            Op::Report = "report",
            Op::Get = "get",
            Op::Pull = "pull",
            Op::Advance = "advance",
            Op::Status = "status",
            Op::Failover = "failover",
            Op::SetTable = "set_table",
            Op::Audit = "audit",
            Op::Tidy = "tidy"
        )
    };
}

impl Role {
    /// The number of the role in a request, 1 to 4.
    pub fn number(self) -> u8
        // Its number.
        ensures value { result ≡ role_number self }
    {
        self as u8
    }

    /// The role with this number, or `None` if there is none.
    pub fn of_number(number: u8) -> Option<Role>
        // What has this number, `None` if nothing has it.
        ensures value { result ≡ role_of_number number }
    {
        roles!(of_number number)
    }

    /// The word for the role, in lower case, as tables and texts have it.
    pub fn name(self) -> &'static str
        // Its word.
        ensures value { result.now ≡ role_name self }
    {
        roles!(name self)
    }

    /// The role with this word, or `None` if there is none.
    #[tactic(auto, unfolding(crate::specs::Requests::Ops::role_of_name))]
    pub fn of_name(name: &str) -> Option<Role>
        // What has this word, `None` if nothing has it.
        ensures value { result ≡ role_of_name name.now }
    {
        roles!(all).iter().copied().find(|role| role.name() == name)
    }

    /// Whether the role has the operation at all, whatever the table allows.
    pub fn has(self, op: Op) -> bool
        // Whether the role has the operation (`has_op`).
        ensures value { result ≡ has_op self op }
    {
        match self {
            Role::Primary => matches!(
                op,
                Op::Write | Op::Offer | Op::Report | Op::Get | Op::Status
            ),
            Role::Secondary => matches!(op, Op::Pull | Op::Get | Op::Status),
            Role::PageServer => matches!(op, Op::Pull | Op::Advance | Op::Status),
            Role::Operator => matches!(
                op,
                Op::Failover | Op::SetTable | Op::Audit | Op::Tidy | Op::Status
            ),
        }
    }
}

impl Op {
    /// The number of the operation in a request, 1 to 11.
    pub fn number(self) -> u8
        // Its number.
        ensures value { result ≡ op_number self }
    {
        self as u8
    }

    /// The operation with this number, or `None` if there is none.
    pub fn of_number(number: u8) -> Option<Op>
        // What has this number, `None` if nothing has it.
        ensures value { result ≡ op_of_number number }
    {
        ops!(of_number number)
    }

    /// The word for the operation, in lower case, as tables and texts have it.
    pub fn name(self) -> &'static str
        // Its word.
        ensures value { result.now ≡ op_name self }
    {
        ops!(name self)
    }

    /// The operation with this word, or `None` if there is none.
    #[tactic(auto, unfolding(crate::specs::Requests::Ops::op_of_name))]
    pub fn of_name(name: &str) -> Option<Op>
        // What has this word, `None` if nothing has it.
        ensures value { result ≡ op_of_name name.now }
    {
        Op::all().iter().copied().find(|op| op.name() == name)
    }

    /// All operations, in the order of their numbers.
    pub(crate) fn all() -> [Op; 11]
        ensures value { result ≡ all_ops }
    {
        ops!(all)
    }
}

impl fmt::Display for Role {
    ghost output = { λ role. Some (role_name role) };

    fn fmt<W: fmt::Write>(&self, f: &mut fmt::Formatter<W>) -> fmt::Result {
        f.write_str(self.name())
    }
}

impl fmt::Display for Op {
    ghost output = { λ op. Some (op_name op) };

    fn fmt<W: fmt::Write>(&self, f: &mut fmt::Formatter<W>) -> fmt::Result {
        f.write_str(self.name())
    }
}
