//! Plays a transcript: each line asks something, and has the answer after its `=`.

use hex::FromHexError;
use pl_block::BlockFault;
use std::alloc::{AllocError, AllocFailed, AllocGlobal, Global};
use std::io::Eprint;
use std::num::ParseIntError;

// What an answer may have beside the text that is wanted: a space before it, and one after it.
const ROOM: usize = 2;

/// What a transcript speaks to.
pub trait Subject: Drop {
    /// One that was asked nothing.
    fn new(alloc: Global) -> Self;

    /// Writes the answer to the words in front of a line's `=`. `out` has room for a right answer.
    ///
    /// A test may meet one refused allocation. `refused` says whether it has: what meets it amid a
    /// line of several calls asks again, once, and sets it. After an error of no memory the line is
    /// asked again unchanged.
    fn answer(&mut self, words: &[&str], out: &mut String, refused: &mut bool) -> Result<(), Stop>;
}

/// Why a line is not answered.
#[derive(Debug, Drop)]
pub enum Stop {
    /// An allocation failed.
    NoMemory,
    /// The words are none of the grammar, or ask for a call whose condition does not hold.
    Unread,
    /// Two calls that answer alike did not, or one was out of memory and yet something changed.
    Changed,
    /// A step amid a run was out of memory, and those after it were taken without it.
    Amid,
}

impl From<AllocError> for Stop {
    fn from(_refused: AllocError) -> Stop {
        Stop::NoMemory
    }
}

impl<T: Drop> From<AllocFailed<T>> for Stop {
    fn from(_refused: AllocFailed<T>) -> Stop {
        Stop::NoMemory
    }
}

impl From<BlockFault> for Stop {
    fn from(fault: BlockFault) -> Stop {
        match fault {
            BlockFault::NoMemory => Stop::NoMemory,
            BlockFault::Malformed(_) => Stop::Unread,
        }
    }
}

impl From<ParseIntError> for Stop {
    fn from(_fault: ParseIntError) -> Stop {
        Stop::Unread
    }
}

impl From<FromHexError> for Stop {
    fn from(fault: FromHexError) -> Stop {
        match fault {
            FromHexError::OutOfMemory => Stop::NoMemory,
            _ => Stop::Unread,
        }
    }
}

/// What a push into a text ended with.
pub fn pushed(end: Result<(), AllocError>) -> Result<(), Stop> {
    match end {
        Ok(()) => Ok(()),
        Err(_) => Err(Stop::NoMemory),
    }
}

impl Stop {
    fn text(&self) -> &'static str {
        match self {
            Stop::NoMemory => "out of memory",
            Stop::Unread => "not read",
            Stop::Changed => "answered in two ways",
            Stop::Amid => "out of memory amid a run",
        }
    }
}

/// A transcript as it is played.
#[derive(Drop)]
struct Player<S: Subject> {
    alloc: Global,
    subject: S,
    /// The last answer, or why there is none.
    answer: Result<String, Stop>,
    /// Whether an allocation failed.
    refused: bool,
}

impl<S: Subject> Player<S> {
    fn new(alloc: Global) -> Player<S> {
        Player {
            alloc,
            subject: S::new(alloc),
            answer: Err(Stop::Unread),
            refused: false,
        }
    }

    fn shown(&self) -> &str {
        match &self.answer {
            Ok(text) => text.trim(),
            Err(stop) => stop.text(),
        }
    }

    // Asks. There is room for a right answer before the question is asked, so that no allocation of
    // the test's own fails after it.
    fn asks(&mut self, asked: &str, wanted: &str) -> Result<String, Stop> {
        let words: Vec<&str> = asked.split_whitespace().collect(self.alloc)?;
        let mut out = String::with_capacity(self.alloc, wanted.len().saturating_add(ROOM))?;
        self.subject.answer(&words, &mut out, &mut self.refused)?;
        Ok(out)
    }

    // Asks, and once more, in its place, if an allocation failed.
    fn asks_on(&mut self, asked: &str, wanted: &str) -> Result<String, Stop> {
        let answer = self.asks(asked, wanted);
        if self.refused || !matches!(answer, Err(Stop::NoMemory)) {
            return answer;
        }
        self.refused = true;
        self.asks(asked, wanted)
    }

    // Whether the line is a comment, or is answered as it says.
    fn holds(&mut self, line: &str) -> bool {
        if line.starts_with('#') {
            return true;
        }
        let Some((asked, wanted)) = line.split_once('=') else {
            self.answer = Err(Stop::Unread);
            return false;
        };
        self.answer = self.asks_on(asked, wanted);
        match &self.answer {
            Ok(text) => text.trim() == wanted.trim(),
            Err(_) => false,
        }
    }

    // The first line that does not hold.
    fn first_wrong<'a>(&mut self, row: &'a str) -> Option<&'a str> {
        for line in row.lines() {
            if !self.holds(line) {
                return Some(line);
            }
        }
        None
    }
}

/// Whether each line of the transcript holds. The first that does not is printed to standard error with its answer, and those
/// after it are not played. A print that fails is ignored.
///
/// A test may meet one refused allocation and no more. The line that meets it is asked again in its
/// place, and those after it go on from there. Only a run in which one step was refused has answers of
/// its own: after it the transcript is played from its beginning.
pub fn plays<S: Subject>(rt: &(impl AllocGlobal + Eprint), row: &str) -> bool {
    let mut player: Player<S> = Player::new(rt.alloc());
    let mut wrong = player.first_wrong(row);
    if matches!(player.answer, Err(Stop::Amid)) {
        player.subject = S::new(rt.alloc());
        wrong = player.first_wrong(row);
    }
    let Some(line) = wrong else {
        return true;
    };
    let _is_printed = eprintln!(rt; "{line}, not {}", player.shown());
    false
}
