//! How far each partition is applied, and the LSN that a get is answered at.

ghost use Rattle.std.specs.Prelude.{◌≡◌, ◌<◌, ◌≤◌, ◌==◌, ℕ, IsOk, OnErr, OnOk, if◌then◌else◌, slice_index_or, vec_capacity};
ghost use Rattle.pl_pages.specs.State.{chosen};

use std::alloc::AllocError;

/// The LSN that a partition is applied to.
pub(crate) fn applied_in(applied: &[u64], partition: u16) -> u64
    ensures value { result ≡ slice_index_or applied.now partition 0 }
{
    match applied.get(usize::from(partition)) {
        Some(lsn) => *lsn,
        None => 0,
    }
}

/// Applies a partition up to the LSN.
pub(crate) fn raise(applied: &mut Vec<u64>, partition: u16, lsn: u64) -> Result<(), AllocError>
    ensures ok { OnOk result ((other : ℕ) → slice_index_or applied.new.items other 0 ≡
        (if other == partition then lsn else slice_index_or applied.old.items other 0)) }
    ensures err { OnErr result ((other : ℕ) →
        slice_index_or applied.new.items other 0 ≡ slice_index_or applied.old.items other 0) }
    ensures succeeds { partition < vec_capacity applied.old → IsOk result }
{
    let place = usize::from(partition);
    if applied.len() <= place {
        applied.resize(place + 1, 0)?;
    }
    applied[place] = lsn;
    Ok(())
}

/// The LSN that a get is answered at.
pub(crate) fn choose(applied: u64, lsn: u64, exact: bool) -> u64
    ensures value { result ≡ chosen applied lsn exact }
{
    if !exact && lsn <= applied {
        applied
    } else {
        lsn
    }
}
