//! Who hears what a service cannot do.

use std::io;

/// Who hears what a service cannot do while it goes on. No promise rests on it.
pub trait Watch {
    /// This many workers were started, fewer than were asked for. It is reported before a connection is accepted.
    fn few_workers(&self, started: usize, asked: usize);

    /// A connection could not be accepted. The cause passes: it is waited out, and reported the first time alone.
    fn accept_rests(&self, cause: &io::Error);
}

/// Nobody hears.
#[derive(Clone, Copy, Debug)]
pub struct Unwatched;

impl Watch for Unwatched {
    fn few_workers(&self, _started: usize, _asked: usize) {}

    fn accept_rests(&self, _cause: &io::Error) {}
}
