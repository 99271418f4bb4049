//! Frames of requests, read where they lie: nothing is copied.

ghost use Rattle.std.specs.Prelude.{◌≡◌, ◌+◌, ◌<◌, ◌≤◌, false, IfNone, IfSome, IsTrue, length, take};
ghost use Rattle.pl_wire.specs.FrameReading.{IsCut, IsDecided, LacksFrame};
ghost use Rattle.pl_wire.specs.Frames.{frame, longest_request};

use crate::frame_reading::{LENGTH_BYTES, LONGEST_REQUEST};
use bytes::Buf;

/// The body of the request's frame that the bytes begin with, if they hold all of it. It takes the same time whatever
/// the bytes are.
///
/// `None` if they are less than a frame, or the length is above the limit: [`is_cut`] says which.
pub fn body_in(bytes: &[u8]) -> Option<&[u8]>
    // The bytes begin with the frame of this body.
    ensures some { IfSome result (λ body. (4 + length body.now ≤ length bytes.now)
        × (take (4 + length body.now) bytes.now ≡ frame body.now)) }
    // The body has at most 65,536 bytes.
    ensures fits { IfSome result (λ body. length body.now ≤ longest_request) }
    // The bytes are less than a length, or the length is above 65,536, or its body is not all there.
    ensures none { IfNone result (LacksFrame longest_request bytes.now) }
{
    if bytes.len() < LENGTH_BYTES {
        return None;
    }
    let (mut head, rest) = bytes.split_at(LENGTH_BYTES);
    let len = head.get_u32();
    if len > LONGEST_REQUEST || rest.len() < len as usize {
        return None;
    }
    let (body, _) = rest.split_at(len as usize);
    Some(body)
}

/// Whether the bytes are less than the frame of a request, and more of them may make it whole.
pub fn is_cut(bytes: &[u8]) -> bool
    // They are the beginning of a frame within the limit.
    ensures cut { IsTrue result → IsCut longest_request bytes.now }
    // They are fewer than the longest frame has.
    ensures fits { IsTrue result → length bytes.now < 65540 }
    // Otherwise the length is there, and it is above the limit or its body is all there.
    ensures whole { result ≡ false → IsDecided longest_request bytes.now }
{
    if bytes.len() < LENGTH_BYTES {
        return true;
    }
    let (mut head, rest) = bytes.split_at(LENGTH_BYTES);
    let wanted = head.get_u32();
    wanted <= LONGEST_REQUEST && rest.len() < wanted as usize
}
