//! The numbers and words of roles and operations, and who has which.

use pl_table::{Op, Ops, Role};
use std::alloc::{AllocError, Global};

const ROLES: &[(Role, u8, &str)] = &[
    (Role::Primary, 1, "primary"),
    (Role::Secondary, 2, "secondary"),
    (Role::PageServer, 3, "page_server"),
    (Role::Operator, 4, "operator"),
];

// An operation, its number and word, and whether primary, secondary, page server and operator have
// it.
const OPS: &[(Op, u8, &str, [bool; 4])] = &[
    (Op::Write, 1, "write", [true, false, false, false]),
    (Op::Offer, 2, "offer", [true, false, false, false]),
    (Op::Report, 3, "report", [true, false, false, false]),
    (Op::Get, 4, "get", [true, true, false, false]),
    (Op::Pull, 5, "pull", [false, true, true, false]),
    (Op::Advance, 6, "advance", [false, false, true, false]),
    (Op::Status, 7, "status", [true, true, true, true]),
    (Op::Failover, 8, "failover", [false, false, false, true]),
    (Op::SetTable, 9, "set_table", [false, false, false, true]),
    (Op::Audit, 10, "audit", [false, false, false, true]),
    (Op::Tidy, 11, "tidy", [false, false, false, true]),
];

// Whether the role has the number and the word, and no other has.
fn is_role(role: Role, number: u8, word: &str) -> bool {
    let some = Some(role);
    role.number() == number && Role::of_number(number) == some && Role::of_name(word) == some
}

// The first role that has another number or another word.
fn wrong_role(roles: &[(Role, u8, &'static str)]) -> Option<&'static str> {
    for (role, number, word) in roles {
        if !is_role(*role, *number, word) {
            return Some(*word);
        }
    }
    None
}

#[test]
fn numbers_of_roles(rt: HostRuntime) {
    assert_eq!(rt; wrong_role(ROLES), None);
    assert!(rt; Role::of_number(0).is_none() && Role::of_number(5).is_none());
}

// Whether the operation has the number and the word, and no other has.
fn is_op(op: Op, number: u8, word: &str) -> bool {
    let some = Some(op);
    op.number() == number && Op::of_number(number) == some && Op::of_name(word) == some
}

// The first operation that has another number or another word.
fn wrong_op(ops: &[(Op, u8, &'static str, [bool; 4])]) -> Option<&'static str> {
    for (op, number, word, _) in ops {
        if !is_op(*op, *number, word) {
            return Some(*word);
        }
    }
    None
}

#[test]
fn numbers_of_operations(rt: HostRuntime) {
    assert_eq!(rt; wrong_op(OPS), None);
    assert!(rt; Op::of_number(0).is_none() && Op::of_number(12).is_none());
}

// The words of all roles and operations, as they are printed.
fn printed(
    alloc: Global,
    roles: &[(Role, u8, &str)],
    ops: &[(Op, u8, &str, [bool; 4])],
) -> Result<String, AllocError> {
    let mut words = String::new(alloc);
    for (role, ..) in roles {
        write!(words, "{role} ")?;
    }
    for (op, ..) in ops {
        write!(words, "{op} ")?;
    }
    Ok(words)
}

const WORDS: &str = "primary secondary page_server operator write offer report get pull advance \
    status failover set_table audit tidy ";

fn prints_words(alloc: Global) -> Result<bool, AllocError> {
    Ok(printed(alloc, ROLES, OPS)?.as_str() == WORDS)
}

#[test]
fn words(rt: HostRuntime) {
    let mut prints = prints_words(rt.alloc());
    if prints.is_err() {
        prints = prints_words(rt.alloc());
    }
    assert!(rt; matches!(prints, Ok(true)));
    assert!(rt; Role::of_name("Primary").is_none() && Op::of_name("read").is_none());
}

fn which_have(op: Op) -> [bool; 4] {
    [
        Role::Primary.has(op),
        Role::Secondary.has(op),
        Role::PageServer.has(op),
        Role::Operator.has(op),
    ]
}

// The first operation that others have.
fn wrong_had(ops: &[(Op, u8, &'static str, [bool; 4])]) -> Option<&'static str> {
    for (op, _, word, have) in ops {
        if which_have(*op) != *have {
            return Some(*word);
        }
    }
    None
}

#[test]
fn operations_of_roles(rt: HostRuntime) {
    assert_eq!(rt; wrong_had(OPS), None);
}

const LISTED: &[Op] = &[Op::Pull, Op::Get, Op::Pull];

fn goes_through(alloc: Global, listed: &[Op]) -> Result<bool, AllocError> {
    let ops = Ops::new(Vec::from_slice(alloc, listed)?);
    let same = ops.as_slice() == listed;
    Ok(same && ops.into_vec().as_slice() == listed)
}

#[test]
fn operations_of_a_row(rt: HostRuntime) {
    let mut same = goes_through(rt.alloc(), LISTED);
    if same.is_err() {
        same = goes_through(rt.alloc(), LISTED);
    }
    assert!(rt; matches!(same, Ok(true)));
}
