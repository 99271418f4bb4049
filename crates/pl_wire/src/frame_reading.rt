//! Frames, read: a length in four bytes, the high one first, and a body of this many bytes.
//!
//! A contract sees what a call took from its reader, however the reader cuts its bytes. What follows
//! a frame is left unread.

ghost use Rattle.std.specs.Prelude.{◌≡◌, ◌<◌, ◌≤◌, [], IfErr, IfNone, IfOk, IfSome, length, take, vec_len};
ghost use Rattle.std.specs.Int.{w32, to_be_bytes};
ghost use Rattle.std.specs.Io.KnownBytes.{Consumes, IsAtEnd};
ghost use Rattle.pl_wire.specs.Frames.{frame};
ghost use Rattle.pl_wire.specs.FrameReading.{CutsBody, StopsFrame, StopsHead, StopsReply};
ghost use Rattle.pl_wire.specs.FrameWriting.{reply_frame};
ghost use Rattle.pl_wire.specs.Replies.{IsReply};

use crate::fault::BodyFault;
use crate::reply_reading::decode_reply;
use pl_block::seen::each_is_byte;
use pl_core::Reply;
use std::alloc::Global;
use std::io::Read;

/// The most bytes of a request's body.
pub const LONGEST_REQUEST: u32 = 65_536;

/// The most bytes of a reply's body.
pub const LONGEST_REPLY: u32 = 1_048_576;

/// The bytes of a frame's length.
pub const LENGTH_BYTES: usize = 4;

/// Why no frame was read.
#[derive(Clone, Copy, Debug, PartialEq, Eq)]
pub enum FrameFault {
    /// The input ends inside the frame: what there was of it is read.
    Short,
    /// The length is above the limit. It is read, and nothing after it.
    TooLong,
    /// A read failed inside the frame, or before it, whatever made it fail: an interruption too. What
    /// was read before is lost.
    Io,
    /// There is no memory for the body. The length is read, and nothing after it.
    NoMemory,
}

/// Why no reply was read.
#[derive(Debug, Drop)]
pub enum ReplyFault {
    /// The input ends before the first byte of a frame.
    Ended,
    /// No frame was read.
    Frame(FrameFault),
    /// A frame was read, and its body is not a reply, or there is no memory for the reply.
    Body(BodyFault),
}

// Fills the buffer from the reader. `Ok` says how many bytes came, fewer than the buffer has only
// at the end of input; `Err`, how many came before a read failed, whatever made it fail. Each read but
// the last brings a byte at least.
fn fill<R: Read>(reader: &mut R, buffer: &mut [u8]) -> Result<usize, usize>
    ensures len { length buffer.new ≡ length buffer.old }
    ensures ok { IfOk result (λ count. (count ≤ length buffer.new)
        × Consumes (R.remaining reader.old) (R.remaining reader.new) (take count buffer.new)) }
    ensures end { IfOk result (λ count. count < length buffer.new →
        IsAtEnd (R.remaining reader.new)) }
    ensures err { IfErr result (λ count. (count < length buffer.new)
        × Consumes (R.remaining reader.old) (R.remaining reader.new) (take count buffer.new)) }
{
    let mut count = 0;
    while count < buffer.len() {
        match reader.read(&mut buffer[count..]) {
            Ok(0) => return Ok(count),
            Ok(more) => count += more,
            Err(_) => return Err(count),
        }
    }
    Ok(count)
}

/// Reads the length that a frame begins with: four bytes, the high one first. `None` at the end of
/// input before the first of them.
///
/// `Short` if the input ends inside them, `TooLong` if the length is above the limit, and `Io`
/// if a read failed. No memory is asked for.
pub fn read_head<R: Read>(reader: &mut R, limit: u32) -> Result<Option<u32>, FrameFault>
    // A length within the limit, whose bytes were read and nothing after them.
    ensures some { IfOk result (λ head. IfSome head (λ len. (len ≤ limit)
        × Consumes (R.remaining reader.old) (R.remaining reader.new) (to_be_bytes w32 len))) }
    // At the end of input there is no length, and nothing was read.
    ensures none { IfOk result (λ head. IfNone head (
        Consumes (R.remaining reader.old) (R.remaining reader.new) []
        × IsAtEnd (R.remaining reader.new))) }
    // `Short`, `TooLong` or `Io`, and what was read then (`StopsHead`).
    ensures err { IfErr result (λ fault.
        StopsHead limit (R.remaining reader.old) (R.remaining reader.new) fault) }
{
    let mut head = [0; LENGTH_BYTES];
    match fill(reader, &mut head) {
        Ok(0) => Ok(None),
        Ok(count) if count < LENGTH_BYTES => Err(FrameFault::Short),
        Ok(_) => {
            // Proof only: this does nothing.
            each_is_byte(&head);
            let len = u32::from_be_bytes(head);
            if len > limit {
                return Err(FrameFault::TooLong);
            }
            Ok(Some(len))
        }
        Err(_) => Err(FrameFault::Io),
    }
}

/// Reads a body of this many bytes. Memory is asked for once, before a byte is read; a body of length 0
/// takes none.
///
/// `Short` if the input ends inside the body, `Io` if a read failed, and `NoMemory` if the
/// allocation did: then nothing is read.
pub fn read_body<R: Read>(alloc: Global, reader: &mut R, len: u32) -> Result<Vec<u8>, FrameFault>
    // This many bytes were read, and nothing after them.
    ensures ok { IfOk result (λ body. (vec_len body ≡ len)
        × Consumes (R.remaining reader.old) (R.remaining reader.new) body.items) }
    // `Short` or `Io` with a part of them read, or out of memory with none, and then of a length
    // above 0 (`CutsBody`).
    ensures err { IfErr result (λ fault.
        CutsBody len (R.remaining reader.old) (R.remaining reader.new) fault) }
{
    if len == 0 {
        return Ok(Vec::new(alloc));
    }
    let Ok(mut body) = vec![in alloc; 0; len as usize] else {
        return Err(FrameFault::NoMemory);
    };
    match fill(reader, body.as_mut_slice()) {
        Ok(count) if count < len as usize => Err(FrameFault::Short),
        Ok(_) => Ok(body),
        Err(_) => Err(FrameFault::Io),
    }
}

/// Reads a frame, and gives its body. `None` at the end of input before the frame's first byte. What
/// follows the frame is left unread.
///
/// The reader is read at most once for each byte of the frame, and once more. A length is tested
/// before any memory is asked for. `Short` if the input ends inside the frame, `TooLong` if its length is above the limit, `Io` if a read failed, and `NoMemory` if there
/// is no memory for the body: then the length is read and the body is not.
pub fn read_frame<R: Read>(
    alloc: Global,
    reader: &mut R,
    limit: u32,
) -> Result<Option<Vec<u8>>, FrameFault>
    // The body of the frame that was read, of at most as many bytes as the limit, and nothing after
    // it was read.
    ensures some { IfOk result (λ taken. IfSome taken (λ body. (vec_len body ≤ limit)
        × Consumes (R.remaining reader.old) (R.remaining reader.new) (frame body.items))) }
    // At the end of input before a frame there is no body, and nothing was read.
    ensures none { IfOk result (λ taken. IfNone taken (
        Consumes (R.remaining reader.old) (R.remaining reader.new) []
        × IsAtEnd (R.remaining reader.new))) }
    // `Short`, `TooLong`, `Io` or out of memory, and what was read then (`StopsFrame`).
    ensures err { IfErr result (λ fault.
        StopsFrame limit (R.remaining reader.old) (R.remaining reader.new) fault) }
{
    let Some(len) = read_head(reader, limit)? else {
        return Ok(None);
    };
    let body = read_body(alloc, reader, len)?;
    Ok(Some(body))
}

/// Reads a frame, and the reply that its body spells. What follows the frame is left unread.
///
/// `Ended` at the end of input before the frame's first byte, `Frame` if no frame was read, and
/// `Body` if a whole frame was read whose body is not a reply, or whose reply finds no memory. Memory
/// is asked for the body, and for what the reply keeps.
pub fn read_reply<R: Read>(alloc: Global, reader: &mut R) -> Result<Reply, ReplyFault>
    // The reply whose frame was read, and nothing after it was read.
    ensures ok { IfOk result (λ reply. IsReply reply
        × Consumes (R.remaining reader.old) (R.remaining reader.new) (reply_frame reply)) }
    // `Ended` at the end of input before a frame; `Frame` as `read_frame` with a limit of 2^20
    // bytes; `Body` if the body of a whole frame is not a reply, or its reply asks for memory
    // (`StopsReply`).
    ensures err { IfErr result (λ fault.
        StopsReply (R.remaining reader.old) (R.remaining reader.new) fault) }
{
    match read_frame(alloc, reader, LONGEST_REPLY) {
        Ok(Some(body)) => decode_reply(alloc, body.as_slice()).map_err(ReplyFault::Body),
        Ok(None) => Err(ReplyFault::Ended),
        Err(fault) => Err(ReplyFault::Frame(fault)),
    }
}
