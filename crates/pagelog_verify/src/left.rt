//! What is left out of a trail.

ghost use Rattle.std.specs.Prelude.{◌≡◌, count_by};
ghost use Rattle.pagelog_verify.specs.Answer.{AreLeftOut, is_left, is_of};

use pl_table::{Op, Verdict};
use pl_trail::Kept;

/// Of which kind it is.
#[derive(Clone, Copy)]
pub enum Kind {
    /// The block of a write or an offer that was denied.
    DeniedBlock,
    /// The block of another.
    OtherBlock,
    /// The text of a set_table.
    Text,
}

/// How much is left out.
#[derive(Clone, Copy, Debug, PartialEq, Eq)]
pub struct LeftOut {
    /// Blocks of writes and offers that were denied.
    pub denied_blocks: u64,
    /// Blocks of others.
    pub other_blocks: u64,
    /// Texts of tables.
    pub texts: u64,
}

// Whether a line of this operation and verdict is of the kind.
fn is_of(kind: Kind, op: Op, verdict: Verdict) -> bool
    ensures value { result ≡ is_of kind op verdict }
{
    let sets = op.number() == Op::SetTable.number();
    let allowed = match verdict {
        Verdict::Allowed => true,
        Verdict::Denied { .. } => false,
    };
    match kind {
        Kind::DeniedBlock => !sets && !allowed,
        Kind::OtherBlock => !sets && allowed,
        Kind::Text => sets,
    }
}

// Whether a block or a text of this kind is left out of the line.
fn is_left(kind: Kind, kept: &Kept) -> bool
    ensures value { result ≡ is_left kind kept.now }
{
    kept.is_left_out() && is_of(kind, kept.line.op, kept.line.verdict)
}

// Of how many lines.
fn count_left(kind: Kind, trail: &[Kept]) -> u64
    ensures value { result ≡ count_by (is_left kind) trail.now }
{
    let mut count = 0;
    for kept in trail {
        if is_left(kind, kept) {
            count += 1;
        }
    }
    count
}

/// How much is left out of the trail.
pub(crate) fn left_out_of(trail: &[Kept]) -> LeftOut
    ensures value { AreLeftOut result trail.now }
{
    LeftOut {
        denied_blocks: count_left(Kind::DeniedBlock, trail),
        other_blocks: count_left(Kind::OtherBlock, trail),
        texts: count_left(Kind::Text, trail),
    }
}
