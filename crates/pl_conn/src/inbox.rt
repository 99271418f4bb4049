//! Bytes that were read of a connection, and are not yet taken.

ghost use Rattle.std.specs.Prelude.{◌≡◌, ◌+◌, ◌<◌, ◌≤◌, [], IfOk, OnErr, length, take};
ghost use Rattle.std.specs.Io.KnownBytes.{IsAtEnd};
ghost use Rattle.pl_conn.specs.Resting.{Hears};

use std::alloc::{AllocError, Global};
use std::io::{self, Read};
use std::marker::Model;

/// The bytes of the longest frame of a request.
pub(crate) const LONGEST_FRAME: usize = 65_540;

/// The bytes that come next on a connection, as far as they were read: the longest frame has room.
#[derive(Drop)]
pub(crate) struct Inbox {
    room: Vec<u8>,
    // How many of them wait.
    len: usize,
}

impl Model for Inbox {
    ghost use Rattle.std.specs.Prelude.{List, ℕ, ◌≡◌, ◌≤◌, take, vec_len};

    ghost Value = { List ℕ };

    ghost view = { λ i. take i.len i.room.items };

    // The longest frame has room.
    ghost invariant = { λ i. (i.len ≤ 65540) × (vec_len i.room ≡ 65540) };
}

// Puts the bytes at the front of the room.
#[tactic(auto, using(crate::proofs::Filling::front_put))]
fn put_front(room: &mut [u8], bytes: &[u8])
    requires few { length bytes.now ≤ length room.old }
    ensures value { take (length bytes.now) room.new ≡ bytes.now }
    ensures len { length room.new ≡ length room.old }
{
    room[..bytes.len()].copy_from_slice(bytes);
}

// Reads once, into the room after this many bytes that wait.
#[tactic(auto, using(crate::proofs::Turning::heard_after))]
fn read_after<R: Read>(from: &mut R, room: &mut [u8], count: usize) -> io::Result<usize>
    requires within { count ≤ length room.old }
    ensures few { IfOk result (λ more. count + more ≤ length room.new) }
    ensures ok { IfOk result (λ more. Hears (R.remaining from.old) (take count room.old)
        (R.remaining from.new) (take (count + more) room.new)) }
    ensures end { IfOk result (λ more. more ≡ 0 → count < length room.old
        → IsAtEnd (R.remaining from.new)) }
    ensures err { OnErr result (Hears (R.remaining from.old) (take count room.old)
        (R.remaining from.new) (take count room.new)) }
    ensures kept { (length room.new ≡ length room.old)
        × (take count room.new ≡ take count room.old) }
{
    from.read(&mut room[count..])
}

impl Inbox {
    /// No bytes, and the room of the longest frame.
    pub(crate) fn new(alloc: Global) -> Result<Inbox, AllocError>
        ensures value { IfOk result (λ inbox. inbox ≡ []) }
    {
        Ok(Inbox {
            room: vec![in alloc; 0; LONGEST_FRAME]?,
            len: 0,
        })
    }

    /// Forgets what waits, and takes these bytes in.
    pub(crate) fn load(&mut self, bytes: &[u8])
        requires few { length bytes.now ≤ 65540 }
        ensures value { self.new ≡ bytes.now }
    {
        put_front(self.room.as_mut_slice(), bytes);
        self.len = bytes.len();
    }

    /// What waits.
    pub(crate) fn as_slice(&self) -> &[u8]
        ensures value { result.now ≡ self.now }
        ensures few { length result.now ≤ 65540 }
    {
        &self.room[..self.len]
    }

    /// Whether there is no room after what waits.
    pub(crate) fn is_full(&self) -> bool {
        self.len == self.room.len()
    }

    /// Reads once, as many bytes as there is room for after those that wait, and returns how many came.
    pub(crate) fn fill<R: Read>(&mut self, from: &mut R) -> io::Result<usize>
        ensures value { Hears (R.remaining from.old) self.old (R.remaining from.new) self.new }
        ensures more { IfOk result (λ more. length self.new ≡ length self.old + more) }
        ensures kept { OnErr result (self.new ≡ self.old) }
        ensures end { IfOk result (λ more. more ≡ 0 → length self.old < 65540
            → IsAtEnd (R.remaining from.new)) }
    {
        let more = read_after(from, self.room.as_mut_slice(), self.len)?;
        self.len += more;
        Ok(more)
    }
}
