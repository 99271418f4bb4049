//! What follows from the definitions. Each function is a law: its clause holds of all values, and
//! its body does nothing.

ghost use Rattle.pl_images.specs.Laws.{GenerationsContinue, PositionsFollow};

/// The pages of a generation, which begins with images of a log at a base and has the records after
/// it, are those of the whole log; and at each LSN that has a position, those of the log there.
pub fn generations_continue()
    // Of all blocks, and at each LSN that has a position, the pages are those of the log.
    ensures law { GenerationsContinue }
{}

/// A position less its base is its LSN less the blocks of images; each leads back to the other, and
/// both have one order.
pub fn positions_follow()
    // Positions and LSNs have one sum, lead back to one another, and have one order.
    ensures law { PositionsFollow }
{}
