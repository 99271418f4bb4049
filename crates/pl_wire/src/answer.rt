//! The answer to a body: a request is answered by a gate, anything else by the code of its fault.

ghost use Rattle.std.specs.Prelude.{◌≡◌, ◌+◌, ◌<◌, ◌≤◌, ◌^◌, ◌++◌, ◌∷◌, [], Ok, drop, length, take, vec_capacity, vec_len};
ghost use Rattle.std.specs.Int.{w32, to_be_bytes};
ghost use Rattle.pl_core.specs.Reply.{FitsReply};
ghost use Rattle.pl_wire.specs.Answering.{PutsAnswer, refusal};
ghost use Rattle.pl_wire.specs.FrameWriting.{largest_reply_frame, page_head, reply_frame};
ghost use Rattle.pl_wire.specs.Replies.{kind_number, kind_of, reply_spelling};

use crate::fault::BodyFault;
use crate::frame_reading::LENGTH_BYTES;
use crate::frame_writing::put_reply;
use crate::gate::Gate;
use crate::kind::ReplyKind;
use crate::reply_writing::{put_fields, reply_len};
use pl_core::{Answer, Reply};
use pl_table::Request;

/// The bytes of a page's body: its kind, its LSN and the page.
const PAGE_BODY_BYTES: u32 = 8_201;

/// How many bytes a frame has before what is after the reply's kind: a length and the kind.
const HEAD_BYTES: usize = 5;

/// How many bytes of a page's frame come before the bytes of the page.
const PAGE_HEAD_BYTES: usize = 13;

/// The reply to a body that is not a request, or for which there was no memory.
pub fn refusal(fault: BodyFault) -> Reply
    // The code of the fault, or out of memory (`refusal`).
    ensures value { result ≡ refusal fault }
    // The reply can be written.
    ensures fits { FitsReply result }
{
    match fault {
        BodyFault::Malformed(fault) => Reply::Malformed { code: fault.code() },
        BodyFault::NoMemory => Reply::NoMemory,
    }
}

// Puts the length and the kind of a reply into the room for a head, which comes after this many bytes.
fn put_head(text: &mut [u8], before: usize, len: usize, kind: u8)
    requires within { before + 5 ≤ length text.old }
    requires few { len < 2 ^ 32 }
    ensures value { take (before + 5) text.new ≡
        take before text.old ++ (to_be_bytes w32 len ++ kind ∷ []) }
    ensures len { length text.new ≡ length text.old }
{
    let mut head = [kind; HEAD_BYTES];
    head[..LENGTH_BYTES].copy_from_slice(&(len as u32).to_be_bytes());
    text[before..before + HEAD_BYTES].copy_from_slice(&head);
}

// The same in a vector, which gives back the rest of the room. What the reply has after its kind is to follow.
fn begin_whole(out: &mut Vec<u8>, before: usize, reply: &Reply)
    requires fits { FitsReply reply.now }
    requires within { before + 13 ≤ vec_len out.old }
    ensures value { out.new.items ≡ take before out.old.items ++
        (to_be_bytes w32 (length (reply_spelling reply.now))
        ++ kind_number (kind_of reply.now) ∷ []) }
    ensures capacity { vec_capacity out.new ≡ vec_capacity out.old }
    ensures few { length (reply_spelling reply.now) ≤ 524363 }
{
    put_head(
        out.as_mut_slice(),
        before,
        reply_len(reply),
        ReplyKind::of(reply).number(),
    );
    out.truncate(before + HEAD_BYTES);
}

// Puts the frame of a reply that is no page, if there is room for its head after this many bytes.
fn put_whole(out: &mut Vec<u8>, before: usize, reply: &Reply)
    requires fits { FitsReply reply.now }
    requires within { before + 13 ≤ vec_len out.old }
    requires room { before + 524367 ≤ vec_capacity out.old }
    ensures value { out.new.items ≡ take before out.old.items ++ reply_frame reply.now }
    ensures few { length (reply_frame reply.now) ≤ largest_reply_frame }
    ensures capacity { vec_capacity out.old ≤ vec_capacity out.new }
{
    begin_whole(out, before, reply);
    put_fields(out, reply).unwrap();
}

// Puts the frame of the reply to a body that is no request.
fn put_refusal(out: &mut Vec<u8>, fault: BodyFault)
    requires room { vec_len out.old + 524367 ≤ vec_capacity out.old }
    ensures value { out.new.items ≡ out.old.items ++ reply_frame (refusal fault) }
    ensures fits { FitsReply (refusal fault) }
    ensures few { length (reply_frame (refusal fault)) ≤ largest_reply_frame }
    ensures capacity { vec_capacity out.old ≤ vec_capacity out.new }
{
    put_reply(out, &refusal(fault)).unwrap();
}

// The head of a page's frame.
fn head_of_page(at: u64) -> [u8; PAGE_HEAD_BYTES]
    ensures value { result ≡ page_head at }
{
    let mut head = [ReplyKind::Page.number(); PAGE_HEAD_BYTES];
    head[..LENGTH_BYTES].copy_from_slice(&PAGE_BODY_BYTES.to_be_bytes());
    head[HEAD_BYTES..].copy_from_slice(&at.to_be_bytes());
    head
}

// Puts the head of a page's frame into the room for it, which comes after this many bytes.
fn put_page_head(text: &mut [u8], before: usize, at: u64)
    requires within { before + 13 ≤ length text.old }
    ensures value { text.new ≡
        take before text.old ++ page_head at ++ drop (before + 13) text.old }
    ensures len { length text.new ≡ length text.old }
{
    text[before..before + PAGE_HEAD_BYTES].copy_from_slice(&head_of_page(at));
}

// The same in a vector, which keeps its memory.
fn close_page(out: &mut Vec<u8>, before: usize, at: u64)
    requires within { before + 13 ≤ vec_len out.old }
    ensures value { out.new.items ≡
        take before out.old.items ++ page_head at ++ drop (before + 13) out.old.items }
    ensures len { vec_len out.new ≡ vec_len out.old }
    ensures capacity { vec_capacity out.new ≡ vec_capacity out.old }
{
    put_page_head(out.as_mut_slice(), before, at);
}

// Calls the gate, and puts the frame of the reply. The gate is lent the place of a page: room for the head of a frame is left
// before it, of which the head of a page takes all, and that of another reply a part.
fn put_called<G: Gate>(out: &mut Vec<u8>, request: Request, gate: &G, pass: &mut G::Pass)
    requires own { G.owns gate.now pass.old }
    requires room { vec_len out.old + 524367 ≤ vec_capacity out.old }
    ensures own { G.owns gate.now pass.new }
    ensures frame { PutsAnswer (G.calls gate.now) (Ok request) pass.old out.old.items
        pass.new out.new.items }
    ensures few { vec_len out.new ≤ vec_len out.old + largest_reply_frame }
    ensures capacity { vec_capacity out.old ≤ vec_capacity out.new }
{
    let before = out.len();
    out.extend_from_slice(&[0; PAGE_HEAD_BYTES]).unwrap();
    match gate.call_onto(pass, request, out) {
        Answer::Page { at } => close_page(out, before, at),
        Answer::Whole(reply) => put_whole(out, before, &reply),
    }
}

/// Answers a body, by what was read of it, and puts the frame of the reply after what is in `out`: `decode_request` and
/// `decode_request_after` say what is read. A request is called, once; anything else has its [`refusal`], without a call.
///
/// The bytes of a page are put there by the gate, so that they are copied once. `out` has room for
/// [`LARGEST_REPLY_FRAME`](crate::LARGEST_REPLY_FRAME) bytes more, so there is no allocation here.
pub fn put_answer<G: Gate>(
    out: &mut Vec<u8>,
    read: Result<Request, BodyFault>,
    gate: &G,
    pass: &mut G::Pass,
)
    // The pass is the gate's.
    requires own { G.owns gate.now pass.old }
    // There is room for the frame of any reply.
    requires room { vec_len out.old + 524367 ≤ vec_capacity out.old }
    // The pass stays the gate's.
    ensures own { G.owns gate.now pass.new }
    // The frame of a reply that the body may have is appended (`PutsAnswer`).
    ensures frame { PutsAnswer (G.calls gate.now) read pass.old out.old.items
        pass.new out.new.items }
    // It has at most 524,367 bytes.
    ensures few { vec_len out.new ≤ vec_len out.old + largest_reply_frame }
    // There is as much memory as before, or more.
    ensures capacity { vec_capacity out.old ≤ vec_capacity out.new }
{
    match read {
        Ok(request) => put_called(out, request, gate, pass),
        Err(fault) => put_refusal(out, fault),
    }
}
