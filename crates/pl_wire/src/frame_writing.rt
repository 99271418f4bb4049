//! Frames, written: a length in four bytes, the high one first, and a body of this many bytes.

ghost use Rattle.std.specs.Prelude.{◌≡◌, ◌+◌, ◌<◌, ◌≤◌, ◌^◌, ◌++◌, IfErr, IfOk, OnErr, OnOk, length, take};
ghost use Rattle.std.specs.Io.KnownBytes.{Appends};
ghost use Rattle.pl_block.specs.Spare.{UsesSpare};
ghost use Rattle.pl_core.specs.Reply.{FitsReply};
ghost use Rattle.pl_wire.specs.FrameWriting.{WritesText, largest_reply_frame, reply_frame, request_frame};
ghost use Rattle.pl_wire.specs.Replies.{reply_spelling};

use crate::frame_reading::LENGTH_BYTES;
use crate::reply_writing::{put_body, reply_len};
use crate::request_writing::{put_request, request_len};
use bytes::BufMut;
use pl_core::Reply;
use pl_table::Request;
use std::alloc::{AllocError, Global};
use std::io::{self, ErrorKind, Write};

/// Why a frame was not written.
#[derive(Clone, Copy, Debug, PartialEq, Eq)]
pub enum WriteFault {
    /// A write failed, or took no byte: a part of the frame is written, and not the whole.
    Io,
    /// There is no memory for the frame: nothing is written.
    NoMemory,
}

/// Why not all of some bytes are written.
#[derive(Debug, Drop)]
pub struct Unwritten {
    /// How many are, fewer than all.
    pub count: usize,
    /// What the write after them failed with, `WriteZero` if it took no byte.
    pub error: io::Error,
}

/// The most bytes of the frame of a reply: of one with 16 blocks of 32,768 bytes.
pub const LARGEST_REPLY_FRAME: usize = 524_367;

/// Writes all of the bytes, in one write if the writer takes them at once.
///
/// `Err` says how many were written, fewer than there are, before a write took none or failed,
/// whatever made it fail: an interruption too. There is at most one write for each byte.
pub fn write_bytes<W: Write>(writer: &mut W, bytes: &[u8]) -> Result<(), Unwritten>
    // All of the bytes are written.
    ensures ok { OnOk result (Appends (W.contents writer.old) (W.contents writer.new) bytes.now) }
    // The first of them are written, fewer than all, and the error says how many.
    ensures err { IfErr result (λ stop. (stop.count < length bytes.now)
        × Appends (W.contents writer.old) (W.contents writer.new) (take stop.count bytes.now)) }
{
    let mut count = 0;
    while count < bytes.len() {
        match writer.write(&bytes[count..]) {
            Ok(0) => {
                let error = io::Error::from(ErrorKind::WriteZero);
                return Err(Unwritten { count, error });
            }
            Ok(more) => count += more,
            Err(error) => return Err(Unwritten { count, error }),
        }
    }
    Ok(())
}

// A length, and the body of the reply, in the room that `out` has for them.
fn put_frame(out: &mut Vec<u8>, len: usize, reply: &Reply) -> Result<(), AllocError>
    requires fits { FitsReply reply.now }
    requires len { len ≡ length (reply_spelling reply.now) }
    requires few { len ≤ 2 ^ 20 }
    ensures ok { OnOk result (out.new.items ≡ out.old.items ++ reply_frame reply.now) }
    ensures spare { UsesSpare result out.old out.new (4 + len) }
{
    out.put_u32(len as u32)?;
    put_body(out, reply)
}

/// Appends the frame of the reply to `out`. Room is made once, for the whole of it, and each byte of
/// a block or of a page is copied once.
///
/// [`Reply::fits`] tests the condition. The only error is a failed allocation: then `out` has what it
/// had. If `out` has room for [`LARGEST_REPLY_FRAME`] bytes more, there is no allocation.
pub fn put_reply(out: &mut Vec<u8>, reply: &Reply) -> Result<(), AllocError>
    // The reply fits its format (`Reply::fits`).
    requires { FitsReply reply.now }
    // The frame of the reply is appended.
    ensures ok { OnOk result (out.new.items ≡ out.old.items ++ reply_frame reply.now) }
    // Out of memory, nothing is appended.
    ensures err { OnErr result (out.new.items ≡ out.old.items) }
    // It takes no more of the room than the frame, and fails only if the room is less.
    ensures room { UsesSpare result out.old out.new (length (reply_frame reply.now)) }
    // The frame has at most 524,367 bytes.
    ensures fits { length (reply_frame reply.now) ≤ largest_reply_frame }
{
    let len = reply_len(reply);
    out.reserve(LENGTH_BYTES + len)?;
    put_frame(out, len, reply)
}

/// Writes the frame of the reply, in one write if the writer takes it at once.
///
/// [`Reply::fits`] tests the condition. Out of memory, nothing is written; if a write fails, a
/// beginning of the frame may be.
pub fn write_reply<W: Write>(alloc: Global, writer: &mut W, reply: &Reply) -> Result<(), WriteFault>
    // The reply fits its format (`Reply::fits`).
    requires { FitsReply reply.now }
    // The frame of the reply is written; at `Io` a part of it, and not the whole; out of memory,
    // nothing.
    ensures value { WritesText (W.contents writer.old) (W.contents writer.new)
        (reply_frame reply.now) result }
{
    let mut frame = Vec::new(alloc);
    if put_reply(&mut frame, reply).is_err() {
        return Err(WriteFault::NoMemory);
    }
    write_bytes(writer, frame.as_slice()).map_err(|_| WriteFault::Io)
}

// The frame of the request, in memory of its own.
fn framed(alloc: Global, request: &Request) -> Result<Vec<u8>, AllocError>
    ensures ok { IfOk result (λ bytes. bytes.items ≡ request_frame request.now) }
{
    let len = request_len(request);
    let mut bytes = Vec::with_capacity(alloc, LENGTH_BYTES + len)?;
    bytes.put_u32(len as u32)?;
    put_request(&mut bytes, request)?;
    Ok(bytes)
}

/// Writes the frame of the request, in one write if the writer takes it at once.
///
/// Out of memory, nothing is written; if a write fails, a beginning of the frame may be.
pub fn write_request<W: Write>(
    alloc: Global,
    writer: &mut W,
    request: &Request,
) -> Result<(), WriteFault>
    // The frame of the request is written; at `Io` a part of it, and not the whole; out of memory,
    // nothing.
    ensures value { WritesText (W.contents writer.old) (W.contents writer.new)
        (request_frame request.now) result }
{
    let Ok(out) = framed(alloc, request) else {
        return Err(WriteFault::NoMemory);
    };
    write_bytes(writer, out.as_slice()).map_err(|_| WriteFault::Io)
}
