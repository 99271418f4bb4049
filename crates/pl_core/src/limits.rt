//! How much a database may hold.

ghost use Rattle.std.specs.Prelude.{◌≤◌, ◌↔◌, IsTrue};
ghost use Rattle.pl_core.specs.Limits.{AreLimits};

/// How much a database may hold.
#[derive(Clone, Copy, Debug, PartialEq, Eq)]
pub struct Limits {
    /// The most entries of the audit list, at least 1.
    pub audit: u64,
    /// How many chunks of 64 page versions there may be, 1 to 65,536.
    pub chunks: usize,
}

impl Limits {
    /// Whether both numbers are in their ranges.
    pub fn are_valid(&self) -> bool
        // Whether the limits are in their ranges (`AreLimits`).
        ensures exact { IsTrue result ↔ AreLimits self.now.audit self.now.chunks }
    {
        1 <= self.audit && 1 <= self.chunks && self.chunks <= 65_536
    }
}
