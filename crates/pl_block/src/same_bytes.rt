//! Whether bytes are the same, looked at in runs.

ghost use Rattle.std.specs.Prelude.{◌≡◌, ◌≤◌, length, take};
ghost use Rattle.std.specs.Str.{bytes_eq};

use std::simd::prelude::*;

/// How many bytes are compared at once.
const RUN: usize = 32;

// Whether the first bytes of both are the same, a run of them.
fn is_same_run(one: &[u8], other: &[u8]) -> bool
    requires one { 32 ≤ length one.now }
    requires other { 32 ≤ length other.now }
    ensures value { result ≡ bytes_eq (take 32 one.now) (take 32 other.now) }
{
    u8x32::from_slice(one)
        .simd_eq(u8x32::from_slice(other))
        .all()
}

/// Whether the bytes are the same. The last run is looked at first, and may overlap with the one before
/// it.
pub(crate) fn same_bytes(one: &[u8], other: &[u8]) -> bool
    ensures value { result ≡ bytes_eq one.now other.now }
{
    if one.len() != other.len() || one.len() < RUN {
        return one == other;
    }
    let (_, rest) = one.split_at(one.len() - RUN);
    let (_, others) = other.split_at(one.len() - RUN);
    if !is_same_run(rest, others) {
        return false;
    }
    for run in 0..one.len() / RUN {
        let (_, rest) = one.split_at(run * RUN);
        let (_, others) = other.split_at(run * RUN);
        if !is_same_run(rest, others) {
            return false;
        }
    }
    true
}
