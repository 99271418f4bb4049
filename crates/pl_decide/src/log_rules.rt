//! Section C of the written order: the rules that look at the log.

ghost use Rattle.std.specs.Prelude.{◌≡◌, ℕ, Some, None};
ghost use Rattle.pl_block.specs.Block.{Content};
ghost use Rattle.pl_table.specs.Tables.Table.{WrittenTable};
ghost use Rattle.pl_decide.specs.WrittenOrder.{section_c, first_denial};

use crate::rule::Rule;
use crate::view::{Epochs, View};
use pl_block::WINDOW;
use pl_table::{Act, Head, Table, Verdict};

// The verdict of section C, which does not look at who asks.
pub(crate) fn decide_by_log(table: &Table, epochs: Epochs, view: View, act: &Act) -> Verdict
    ensures value { (head : Head) → result ≡ first_denial section_c
        (record { head = head; act = act.now }) table.now epochs view }
{
    match act {
        Act::Write { copy, block } => decide_block(view, Some(*copy), block.lsn()),
        Act::Offer { block } => decide_block(view, None, block.lsn()),
        Act::Report { .. } => {
            if view.can_harden {
                Verdict::Allowed
            } else {
                Rule::BelowQuorum.denial(view.hard)
            }
        }
        Act::Get { lsn, .. } | Act::Pull { lsn, .. } => {
            if view.hard < *lsn {
                Rule::AboveTheEnd.denial(view.hard)
            } else {
                Verdict::Allowed
            }
        }
        Act::Advance { .. } | Act::Status | Act::Audit { .. } | Act::Tidy => Verdict::Allowed,
        Act::Failover { primary } => decide_failover(table, epochs, *primary),
        Act::SetTable { text } => match text.reading() {
            Ok(_) => Verdict::Allowed,
            Err(fault) => Rule::NoTable.denial(u64::from(fault.code())),
        },
    }
}

// The verdict of section C on a failover.
fn decide_failover(table: &Table, epochs: Epochs, primary: u32) -> Verdict
    ensures value { (head : Head) (v : View) → result ≡ first_denial section_c
        (record { head = head; act = Act.Failover primary }) table.now epochs v }
{
    if table.token(primary).is_none() {
        return Rule::UnlistedPrimary.denial(0);
    }
    if epochs.epoch == u32::MAX {
        return Rule::LastEpoch.denial(0);
    }
    Verdict::Allowed
}

// The verdict of section C on a block with this LSN: on a write of it, which names a copy, or on an
// offer.
fn decide_block(view: View, copy: Option<u8>, lsn: u64) -> Verdict
    ensures write { (head : Head) (t : WrittenTable) (e : Epochs) (block : Content) (to : ℕ) →
        block.lsn ≡ lsn → copy ≡ Some to → result ≡ first_denial section_c
        (record { head = head; act = Act.Write to block }) t e view }
    ensures offer { (head : Head) (t : WrittenTable) (e : Epochs) (block : Content) →
        block.lsn ≡ lsn → copy ≡ None → result ≡ first_denial section_c
        (record { head = head; act = Act.Offer block }) t e view }
{
    if lsn <= view.hard {
        return Rule::HardenedAlready.denial(view.hard);
    }
    if lsn - view.hard > WINDOW {
        return Rule::AboveTheWindow.denial(view.hard);
    }
    if !view.agrees {
        return Rule::OtherContent.denial(0);
    }
    match copy {
        Some(copy) if view.copies <= copy => Rule::NoSuchCopy.denial(0),
        _ => Verdict::Allowed,
    }
}
