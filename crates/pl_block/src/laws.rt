//! What the definitions say of one another, for the crates above. Each function is a law: its
//! clause holds of all blocks and bytes. It does nothing when run.

ghost use Rattle.std.specs.Prelude.{◌≡◌, ◌↔◌, IsTrue};
ghost use Rattle.pl_block.specs.Block.{Content, same_block};
ghost use Rattle.pl_block.specs.Laws.{OneSpelling};

/// The test of sameness holds of equal blocks, and of no others.
pub fn same_blocks_are_equal()
    // The test of sameness is true of equal blocks, and of no others.
    ensures law { (a b : Content) → IsTrue (same_block a b) ↔ (a ≡ b) }
{}

/// A block is read again from its spelling, what is read as a block is its spelling, and no two
/// blocks have one spelling.
pub fn one_spelling()
    // A block is read again from its spelling, what is read as a block is its spelling, and no two
    // blocks have one spelling.
    ensures law { OneSpelling }
{}
