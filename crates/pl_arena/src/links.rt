//! What is written into a frame: the link of a free frame, and the zeros of one that is taken.

ghost use Rattle.std.specs.Prelude.{◌≡◌};
ghost use Rattle.pl_arena.specs.Arena.{zeros};
ghost use Rattle.pl_arena.specs.Free.{link};

use crate::FRAME_SIZE;

/// The link in the first four bytes, the low byte first.
pub(crate) fn link_of(frame: &[u8; FRAME_SIZE]) -> u32
    ensures value { result ≡ link frame.now }
{
    u32::from_le_bytes([frame[0], frame[1], frame[2], frame[3]])
}

/// Writes the link.
pub(crate) fn set_link(frame: &mut [u8; FRAME_SIZE], next: u32)
    ensures value { link frame.new ≡ next }
{
    let [a, b, c, d] = next.to_le_bytes();
    frame[0] = a;
    frame[1] = b;
    frame[2] = c;
    frame[3] = d;
}

/// Makes each byte 0.
pub(crate) fn clear(frame: &mut [u8; FRAME_SIZE])
    ensures value { frame.new ≡ zeros }
{
    *frame = [0; FRAME_SIZE];
}
