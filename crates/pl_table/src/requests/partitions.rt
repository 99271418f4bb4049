//! The partitions that a request names, as the rows of a table look at them.

ghost use Rattle.std.specs.Prelude.{◌≡◌, ◌∷◌, [], IfSome};
ghost use Rattle.std.specs.Option.{option_map_or};
ghost use Rattle.pl_table.specs.Requests.Asking.{named_by};

/// The partitions that a request names.
#[derive(Clone, Copy)]
pub enum Partitions<'a> {
    /// None.
    Nowhere,
    /// This one.
    One(u16),
    /// All from the first to the second, both included.
    Between(u16, u16),
    /// These.
    Listed(&'a [u16]),
}

impl Partitions<'_> {
    /// The only partition, if there is one; `None` if there are several.
    pub fn at_most_one(&self) -> Option<Option<u16>>
        // The one partition or none; `None` if there are several (`named_by`).
        ensures value { IfSome result
            (λ one. option_map_or (λ p. p ∷ []) one [] ≡ named_by self.now) }
    {
        match self {
            Partitions::Nowhere => Some(None),
            Partitions::One(partition) => Some(Some(*partition)),
            Partitions::Between(lo, hi) => { if lo == hi { Some(Some(*lo)) } else { None } }
            Partitions::Listed(partitions) => match *partitions {
                [] => Some(None),
                [partition] => Some(Some(*partition)),
                _ => None,
            },
        }
    }
}
