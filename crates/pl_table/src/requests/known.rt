//! What is read is known. A number that a reference points to is known to be in the range of its
//! type once the body reads it, and a block to be one by its grammar once it is asked for its LSN. The
//! functions here only read, so that their callers may rest on those facts.

ghost use Rattle.pl_table.specs.Requests.Request.{IsHead, FitsActFields};

use crate::requests::act::Act;
use crate::requests::head::Head;

// Each part of a head fits its field.
pub(crate) fn head_fits(head: &Head)
    ensures fits { IsHead head.now }
{
    let _principal = head.principal;
    let _token = head.token;
    let _database = head.database;
    let _epoch = head.epoch;
}

// Each argument of an act fits its field.
pub(crate) fn act_fits(act: &Act)
    ensures fits { FitsActFields act.now }
{
    match act {
        Act::Write { copy, block } => {
            let _copy = *copy;
            let _lsn = block.lsn();
        }
        Act::Offer { block } => {
            let _lsn = block.lsn();
        }
        Act::Report { lsn } => {
            let _lsn = *lsn;
        }
        Act::Get { page, lsn, .. } => {
            let _page = *page;
            let _lsn = *lsn;
        }
        Act::Pull { lo, hi, lsn, max } => {
            let _partitions = (*lo, *hi);
            let _blocks = (*lsn, *max);
        }
        Act::Advance { partition, steps } => {
            let _partition = *partition;
            let _steps = *steps;
        }
        Act::Failover { primary } => {
            let _primary = *primary;
        }
        Act::Audit { first, max } => {
            let _entries = (*first, *max);
        }
        _ => {}
    }
}
