//! Memory that is given back, by what Linux reports of the test program.

use crate::arenas::ends;
use crate::pages::{Served, open};
use std::alloc::Global;
use std::fs::File;
use std::io::Read;
use std::rt::Files;
use std::str::SplitWhitespace;
use transcripts::transcript::Stop;

// The words of a file that the system writes.
fn system_text(files: &impl Files, alloc: Global) -> Option<Vec<u8>> {
    let mut text = Vec::new(alloc);
    let mut file = File::open(files, "/proc/self/statm").ok()?;
    file.read_to_end(&mut text).ok()?;
    Some(text)
}

// The next number of the words.
fn next_number(words: &mut SplitWhitespace) -> Result<u64, Stop> {
    Ok(words.next().ok_or(Stop::Unread)?.parse()?)
}

// How many pages of 4,096 bytes the program has, as addresses and as memory.
fn pages_in_use(files: &impl Files, alloc: Global) -> Result<(u64, u64), Stop> {
    let text = system_text(files, alloc).ok_or(Stop::NoMemory)?;
    let Ok(text) = str::from_utf8(&text) else {
        return Err(Stop::Unread);
    };
    let mut words = text.split_whitespace();
    let addresses = next_number(&mut words)?;
    Ok((addresses, next_number(&mut words)?))
}

// Whether the program runs under a checker of its memory, as `rt try` runs it: that holds terabytes of
// addresses, and keeps what is freed.
fn is_checked(addresses: u64) -> bool {
    addresses > 1 << 28
}

// By how many pages of 4,096 bytes the program grows with a hundred arenas of three chunks, one after the
// other, each with all frames but one out when it ends.
fn growth_of_arenas(files: &impl Files, alloc: Global) -> Result<u64, Stop> {
    let mut refused = false;
    ends(alloc, 192, &mut refused)?;
    let (addresses, before) = pages_in_use(files, alloc)?;
    if is_checked(addresses) {
        return Ok(0);
    }
    for _ in 0..100 {
        ends(alloc, 192, &mut refused)?;
    }
    let (_, after) = pages_in_use(files, alloc)?;
    Ok(after.saturating_sub(before))
}

/// A hundred arenas of 1.5 MB take no more than 8 MB, since the memory of each is freed at its end.
#[test]
fn arenas_free_their_memory(rt: HostRuntime) {
    let mut growth = growth_of_arenas(&rt, rt.alloc());
    if matches!(growth, Err(Stop::NoMemory)) {
        growth = growth_of_arenas(&rt, rt.alloc());
    }
    assert!(&rt; matches!(growth, Ok(0..2_048)));
}

// Gets each of the pages.
fn get_all(served: &mut Served, first: u32, end: u32) -> Result<(), Stop> {
    for page in first..end {
        if served.get(page, 0, true)? != [0; 3] {
            return Err(Stop::Changed);
        }
    }
    Ok(())
}

// By how many pages of 4,096 bytes the program grows with 500,000 versions that replace others, of these pages.
fn growth_over(files: &impl Files, alloc: Global, served: &mut Served) -> Result<u64, Stop> {
    get_all(served, 0, 1_000)?;
    let (addresses, before) = pages_in_use(files, alloc)?;
    if is_checked(addresses) {
        return Ok(0);
    }
    get_all(served, 1_000, 501_000)?;
    let (_, after) = pages_in_use(files, alloc)?;
    Ok(after.saturating_sub(before))
}

fn growth_of_versions(files: &impl Files, alloc: Global) -> Result<u64, Stop> {
    let mut served = open(alloc, 1)?;
    growth_over(files, alloc, &mut served)
}

/// Half a million versions, made in an arena of 64 frames, take no more than 4 MB: one that was
/// replaced leaves nothing behind.
#[test]
fn replaced_versions_leave_nothing(rt: HostRuntime) {
    let mut growth = growth_of_versions(&rt, rt.alloc());
    if matches!(growth, Err(Stop::NoMemory)) {
        growth = growth_of_versions(&rt, rt.alloc());
    }
    assert!(&rt; matches!(growth, Ok(0..1_024)));
}
