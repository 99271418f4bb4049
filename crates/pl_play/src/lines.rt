//! The next line of what a reader gives.

ghost use Rattle.std.specs.Prelude.{◌≡◌, ◌≤◌, ◌<◌, IfOk, IfErr, IfSome, IfNone, IsTrue, Some, length, slice_get, take, vec_len};
ghost use Rattle.pl_play.specs.Lines.{longest_line, TakesLine, HasNoLine, BeginsLong, TakesPiece, HasNoFeed, input_fault_at};

use crate::fault::PlayFault;
use std::alloc::{AllocError, Global};
use std::io::BufRead;

/// How many bytes a line may have before its line feed.
pub(crate) const LONGEST_LINE: usize = 131_072;

/// Why no line was taken from the input.
#[derive(Clone, Copy, Debug, PartialEq, Eq)]
pub enum InputFault {
    /// A read failed.
    Read,
    /// An allocation failed.
    NoMemory,
    /// The line is longer than `LONGEST_LINE`. Some of it may be taken.
    Long,
}

impl InputFault {
    /// The fault of `play` at the line of this number.
    pub(crate) fn at_line(self, number: u64) -> PlayFault
        // Which fault of `play` it is, at the line of this number.
        ensures value { result ≡ input_fault_at self number }
    {
        match self {
            InputFault::Read => PlayFault::Read,
            InputFault::NoMemory => PlayFault::NoMemory,
            InputFault::Long => PlayFault::Long(number),
        }
    }
}

impl From<AllocError> for InputFault {
    ghost use Rattle.pl_play.specs.declared.lines.InputFault.TheVariants.{NoMemory};

    ghost from_gives = { λ _ e. e ≡ NoMemory };

    fn from(_error: AllocError) -> InputFault {
        InputFault::NoMemory
    }
}

/// What ended a piece of a line.
#[derive(Clone, Copy, Debug, PartialEq, Eq)]
pub(crate) enum Piece {
    /// The end of what the reader shows at once.
    Shown,
    /// A line feed, which is taken too.
    Line,
    /// The end of the input.
    Input,
}

/// Takes the next line, without its line feed: `None` at the end of the input. Only a line feed
/// ends a line, and the last line needs none. Never more than `LONGEST_LINE` bytes are held.
pub fn take_line<R: BufRead>(alloc: Global, reader: &mut R) -> Result<Option<Vec<u8>>, InputFault>
    // The next line, without its line feed.
    ensures some { IfOk result (λ taken. IfSome taken (λ line.
        TakesLine (R.remaining reader.old) (R.remaining reader.new) line.items)) }
    // It has at most 131,072 bytes.
    ensures fits { IfOk result (λ taken. IfSome taken (λ line. vec_len line ≤ longest_line)) }
    // There is no other line.
    ensures none { IfOk result (λ taken. IfNone taken (HasNoLine (R.remaining reader.old))) }
    // `Long` comes only if the line has more.
    ensures err { IfErr result (λ stop.
        stop ≡ InputFault.Long → BeginsLong (R.remaining reader.old)) }
{
    let mut line = Vec::new(alloc);
    loop {
        match take_piece(reader, &mut line)? {
            Piece::Shown => {}
            Piece::Line => return Ok(Some(line)),
            Piece::Input if line.is_empty() => return Ok(None),
            Piece::Input => return Ok(Some(line)),
        }
    }
}

/// Whether the input is known to end here: it is looked at once, and a read that fails is not an end.
pub(crate) fn is_at_end<R: BufRead>(reader: &mut R) -> bool
    // If it is true, the input has no other line.
    ensures end { IsTrue result → HasNoLine (R.remaining reader.old) }
{
    match reader.fill_buf() {
        Ok(shown) => shown.is_empty(),
        Err(_) => false,
    }
}

/// Moves what the reader shows of the line to the end of `line`.
fn take_piece<R: BufRead>(reader: &mut R, line: &mut Vec<u8>) -> Result<Piece, InputFault>
    requires { vec_len line.old ≤ longest_line }
    ensures value { TakesPiece (R.remaining reader.old) (R.remaining reader.new)
        line.old.items line.new.items result }
    ensures fits { vec_len line.new ≤ longest_line }
{
    let Ok(shown) = reader.fill_buf() else {
        return Err(InputFault::Read);
    };
    if shown.is_empty() {
        return Ok(Piece::Input);
    }
    let end = len_before_feed(shown);
    if end > LONGEST_LINE - line.len() {
        return Err(InputFault::Long);
    }
    line.extend_from_slice(&shown[..end])?;
    if end < shown.len() {
        reader.consume(end + 1);
        return Ok(Piece::Line);
    }
    reader.consume(end);
    Ok(Piece::Shown)
}

/// The place of the first line feed, or the length if there is none.
fn len_before_feed(shown: &[u8]) -> usize
    ensures fits { result ≤ length shown.now }
    ensures none { HasNoFeed (take result shown.now) }
    ensures found { result < length shown.now → slice_get shown.now result ≡ Some 10 }
{
    shown
        .iter()
        .position(|b| *b == b'\n')
        .unwrap_or(shown.len())
}
