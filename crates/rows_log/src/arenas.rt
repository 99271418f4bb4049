//! An arena of frames on its own, asked line by line, and its rows.

use pl_arena::{FrameId, TakeFault, VersionArena};
use std::alloc::Global;
use std::thread;
use transcripts::answer::{push_numbers, push_truth, push_word};
use transcripts::transcript::{Stop, Subject, plays};

/// The arena of a transcript. A frame has the number of its place in `names`: frames are named in the
/// order in which they were first taken.
#[derive(Drop)]
struct Framed {
    arena: Option<VersionArena>,
    names: Vec<FrameId>,
    alloc: Global,
}

fn open(alloc: Global, chunks: u32) -> Result<VersionArena, Stop> {
    if chunks < 1 || 65_536 < chunks {
        return Err(Stop::Unread);
    }
    Ok(VersionArena::new(alloc, chunks))
}

// Takes a frame, if there is one. A refused allocation leaves the arena as it was: the call is made
// again.
fn taken(arena: &mut VersionArena, refused: &mut bool) -> Result<Option<FrameId>, Stop> {
    let mut frame = arena.take();
    if matches!(frame, Err(TakeFault::NoMemory)) && !*refused {
        *refused = true;
        frame = arena.take();
    }
    match frame {
        Ok(id) => Ok(Some(id)),
        Err(TakeFault::Full) => Ok(None),
        Err(TakeFault::NoMemory) => Err(Stop::NoMemory),
    }
}

// The name of a frame, which is a new one if it has none.
fn name_of(names: &mut Vec<FrameId>, id: FrameId) -> Result<u64, Stop> {
    match names.iter().position(|named| *named == id) {
        Some(place) => Ok(place as u64),
        None => {
            let place = names.len();
            names.push(id)?;
            Ok(place as u64)
        }
    }
}

// Takes this many frames, and returns how many there were.
fn take_all(
    arena: &mut VersionArena,
    names: &mut Vec<FrameId>,
    count: u64,
    refused: &mut bool,
) -> Result<u64, Stop> {
    for number in 0..count {
        match taken(arena, refused)? {
            Some(id) => name_of(names, id)?,
            None => return Ok(number),
        };
    }
    Ok(count)
}

fn give(arena: &mut VersionArena, id: FrameId) -> Result<(), Stop> {
    if !arena.is_out(id) {
        return Err(Stop::Unread);
    }
    arena.give(id);
    Ok(())
}

fn write(arena: &mut VersionArena, id: FrameId, byte: u8, offset: usize) -> Result<(), Stop> {
    if !arena.is_out(id) {
        return Err(Stop::Unread);
    }
    let place = arena.bytes_mut(id).get_mut(offset).ok_or(Stop::Unread)?;
    *place = byte;
    Ok(())
}

fn copy(arena: &mut VersionArena, from: FrameId, to: FrameId) -> Result<(), Stop> {
    if !arena.is_out(from) || !arena.is_out(to) {
        return Err(Stop::Unread);
    }
    arena.copy(from, to);
    Ok(())
}

// Pushes each byte that is not 0 with its offset, as `aa+0 ee+8191`.
fn push_frame(arena: &VersionArena, id: FrameId, out: &mut String) -> Result<(), Stop> {
    if !arena.is_out(id) {
        return Err(Stop::Unread);
    }
    for (offset, byte) in arena.bytes(id).iter().enumerate() {
        if *byte != 0 {
            write!(out, " {byte:02x}+{offset}")?;
        }
    }
    Ok(())
}

// The frame of the name.
fn named(names: &[FrameId], name: &str) -> Result<FrameId, Stop> {
    let place: usize = name.parse()?;
    Ok(*names.get(place).ok_or(Stop::Unread)?)
}

fn push_state(
    arena: &mut VersionArena,
    names: &[FrameId],
    words: &[&str],
    out: &mut String,
) -> Result<(), Stop> {
    match words {
        ["out", name] => push_truth(out, arena.is_out(named(names, name)?)),
        ["bytes", name] => push_frame(arena, named(names, name)?, out),
        ["give", name] => {
            give(arena, named(names, name)?)?;
            push_word(out, "Ok")
        }
        ["write", name, byte, offset] => {
            write(arena, named(names, name)?, byte.parse()?, offset.parse()?)?;
            push_word(out, "Ok")
        }
        ["copy", from, to] => {
            copy(arena, named(names, from)?, named(names, to)?)?;
            push_word(out, "Ok")
        }
        _ => Err(Stop::Unread),
    }
}

impl Framed {
    // Opens an arena. There is room for the name of each of its frames, so that none is taken that
    // has no name.
    fn open(&mut self, chunks: u32) -> Result<(), Stop> {
        let arena = open(self.alloc, chunks)?;
        self.names = Vec::with_capacity(self.alloc, (chunks as usize).saturating_mul(64))?;
        self.arena = Some(arena);
        Ok(())
    }
}

impl Subject for Framed {
    fn new(alloc: Global) -> Framed {
        Framed {
            arena: None,
            names: Vec::new(alloc),
            alloc,
        }
    }

    fn answer(&mut self, words: &[&str], out: &mut String, refused: &mut bool) -> Result<(), Stop> {
        if let ["arena", chunks] = words {
            self.open(chunks.parse()?)?;
            return push_word(out, "Ok");
        }
        let arena = self.arena.as_mut().ok_or(Stop::Unread)?;
        match words {
            ["take"] => match taken(arena, refused)? {
                Some(id) => push_numbers(out, &[name_of(&mut self.names, id)?]),
                None => push_word(out, "Full"),
            },
            ["takes", count] => {
                let count = take_all(arena, &mut self.names, count.parse()?, refused)?;
                push_numbers(out, &[count])
            }
            _ => push_state(arena, &self.names, words, out),
        }
    }
}

const ARENA_FILLS: &str = "\
arena 1          = Ok
takes 64         = 64
take             = Full
write 7 170 8191 = Ok
write 7 238 0    = Ok
bytes 7          = ee+0 aa+8191
give 7           = Ok
out 7            = false
out 8            = true
take             = 7
bytes 7          =
out 7            = true
take             = Full
give 3           = Ok
give 63          = Ok
give 0           = Ok
take             = 0
take             = 63
take             = 3
takes 5          = 0
";

#[test]
fn arena_fills(rt: HostRuntime) {
    assert!(rt; plays::<Framed>(&rt, ARENA_FILLS));
}

const FRAMES_ARE_APART: &str = "\
arena 3          = Ok
takes 130        = 130
write 1 17 4     = Ok
write 65 34 4    = Ok
write 129 51 4   = Ok
copy 65 1        = Ok
copy 129 129     = Ok
bytes 0          =
bytes 1          = 22+4
bytes 2          =
bytes 65         = 22+4
bytes 129        = 33+4
give 65          = Ok
bytes 1          = 22+4
bytes 64         =
takes 63         = 63
take             = Full
bytes 129        = 33+4
";

#[test]
fn frames_are_apart(rt: HostRuntime) {
    assert!(rt; plays::<Framed>(&rt, FRAMES_ARE_APART));
}

/// Takes this many frames of an arena, gives back the last, and lets the arena go.
pub(crate) fn ends(alloc: Global, frames: u32, refused: &mut bool) -> Result<(), Stop> {
    let mut arena = VersionArena::new(alloc, 3);
    let mut last = None;
    for _ in 0..frames {
        last = taken(&mut arena, refused)?;
    }
    match last {
        Some(id) => give(&mut arena, id),
        None => Ok(()),
    }
}

const FRAMES: &[u32] = &[0, 1, 64, 65, 192];

#[test]
fn arena_ends_with_frames_out(rt: HostRuntime) {
    let mut refused = false;
    for frames in FRAMES {
        assert!(rt; ends(rt.alloc(), *frames, &mut refused).is_ok());
    }
}

#[test]
fn arena_ends_on_another_thread(rt: HostRuntime) {
    let mut arena = VersionArena::new(rt.alloc(), 2);
    let mut refused = false;
    for _ in 0..100 {
        assert!(rt; matches!(taken(&mut arena, &mut refused), Ok(Some(_))));
    }
    let child = match thread::spawn(&rt, move || drop(arena)) {
        Ok(child) => child,
        // No thread could be started, and the arena is still there: once more.
        Err(none) => thread::spawn(&rt, none.value).expect(&rt, "no thread was started"),
    };
    child.join(&rt);
}
