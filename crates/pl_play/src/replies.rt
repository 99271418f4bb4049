//! The reply to one body, and its line.

ghost use Rattle.std.specs.Prelude.{◌≡◌, ◌↔◌, IfOk, IsTrue, OnErr, OnOk};
ghost use Rattle.pl_core.specs.declared.reply.Reply.{Reply as ReplySeen};
ghost use Rattle.pl_core.specs.Reply.{FitsReply};
ghost use Rattle.pl_wire.specs.Answering.{AnswersAsRead};
ghost use Rattle.pl_wire.specs.Replies.{reply_spelling};
ghost use Rattle.pl_play.specs.Answering.{IsCopied, PlayCall};
ghost use Rattle.pl_play.specs.Played.{WritesReply, reply_line};
ghost use Rattle.pl_play.specs.Text.{line_text};

use crate::fault::PlayFault;
use crate::text::line_of_bytes;
use pl_core::{Db, Reply};
use pl_wire::{BodyFault, decode_request, encode_reply, refusal, write_bytes};
use std::alloc::{AllocError, Global};
use std::io::Write;

/// The pass under which each request is handed in.
const PASS: u64 = 1;

/// The line of [`Reply::NoMemory`].
const NO_MEMORY: &[u8] = b"06\n";

/// Replies to one body: by a step of the database, or by the fault that makes the body no request.
///
/// A written block keeps a copy of its bytes. A step that runs out of memory has a reply too.
/// `AllocError` comes if the records of a block or a table's text found no memory, before any step.
#[tactic(auto, using(crate::proofs::Bodies::called_as_read, crate::proofs::Bodies::refused_as_read))]
pub(crate) fn reply_to(alloc: Global, body: &[u8], db: &mut Db) -> Result<Reply, AllocError>
    // The reply of a step under pass 1, or the code of the body's fault (`AnswersAsRead`).
    ensures reply { IfOk result (λ reply. AnswersAsRead PlayCall db.old body.now reply db.new) }
    // The reply can be written.
    ensures fits { IfOk result (λ reply. FitsReply reply) }
    // `AllocError` changes nothing.
    ensures same { OnErr result (db.new ≡ db.old) }
    // `AllocError` comes only of a write, an offer or a set_table.
    ensures no_memory { OnErr result (IsCopied body.now) }
{
    match decode_request(alloc, body) {
        Ok(request) => Ok(db.step(PASS, request)),
        Err(BodyFault::NoMemory) => Err(AllocError),
        Err(fault) => Ok(refusal(fault)),
    }
}

/// A reply as a line.
fn line_of_reply(alloc: Global, reply: &Reply) -> Result<Vec<u8>, AllocError>
    requires { FitsReply reply.now }
    ensures value { IfOk result (λ line. line.items ≡ line_text (reply_spelling reply.now)) }
{
    let body = encode_reply(alloc, reply)?;
    line_of_bytes(alloc, body.as_slice())
}

/// Whether the reply is that memory ran out.
fn lacks_memory(reply: &Reply) -> bool
    ensures value { IsTrue result ↔ reply.now ≡ Reply.NoMemory }
{
    matches!(reply, Reply::NoMemory)
}

/// Writes the line of a reply. A write that fails ends it, whatever the cause, an interruption too, and is not tried again.
fn write_line<W: Write>(writer: &mut W, line: &[u8]) -> Result<(), PlayFault>
    ensures value { (reply : ReplySeen) → line.now ≡ reply_line reply →
        WritesReply reply (W.contents writer.old) (W.contents writer.new) result }
{
    match write_bytes(writer, line) {
        Ok(()) => Ok(()),
        Err(_) => Err(PlayFault::Write),
    }
}

/// Writes a reply as one line. The line of [`Reply::NoMemory`] takes no memory, so that it is never
/// lost for lack of it.
pub(crate) fn write_reply<W: Write>(
    alloc: Global,
    reply: &Reply,
    writer: &mut W,
) -> Result<(), PlayFault>
    // The reply fits its format.
    requires { FitsReply reply.now }
    // The reply's line is written whole, cut by `Write`, or lost by `NoMemory`, but the reply
    // `NoMemory` is never lost.
    ensures value { WritesReply reply.now (W.contents writer.old) (W.contents writer.new) result }
{
    if lacks_memory(reply) {
        return write_line(writer, NO_MEMORY);
    }
    let line = line_of_reply(alloc, reply)?;
    write_line(writer, line.as_slice())
}
