//! What the definitions say of one another, for the crates above. Each function is a law: its
//! clause holds of all requests, replies and bytes. It does nothing when run.

ghost use Rattle.pl_wire.specs.Laws.{FramesEndThemselves, FramesOfOneInput, OneReplySpelling, OneRequestSpelling, RepliesAreReadBack, RequestsAreReadBack};

use pl_block::laws::one_spelling;

/// No frame is the beginning of another, so that frames in a row can be distinguished.
pub fn frames_end_themselves()
    // No frame is the beginning of another, so a frame that was written is read again, whatever
    // follows.
    ensures law { FramesEndThemselves }
{}

/// If bytes begin with the frames of this many bodies, they begin with those of no others: the
/// bodies that are read from an input, and what follows them, do not depend on how it is read.
pub fn frames_of_one_input()
    // Bytes that begin with the frames of n bodies begin with those of no other n bodies, so the
    // frames of an input do not depend on how it is read.
    ensures law { FramesOfOneInput }
{}

/// A request is read back from its spelling: what is encoded decodes to the same.
pub fn requests_are_read_back()
    // A request is read back from its spelling.
    ensures law { RequestsAreReadBack }
{
    one_spelling();
}

/// A reply that fits is read back from its spelling: what is encoded decodes to the same.
pub fn replies_are_read_back()
    // A reply is read back from its spelling.
    ensures law { RepliesAreReadBack }
{
    one_spelling();
}

/// What is read as a request is its spelling, and no two requests have one spelling.
pub fn one_request_spelling()
    // What is read as a request is its spelling, and no two requests have one spelling.
    ensures law { OneRequestSpelling }
{
    one_spelling();
}

/// What is read as a reply is its spelling, and no two replies have one spelling.
pub fn one_reply_spelling()
    // What is read as a reply is its spelling, and no two replies have one spelling.
    ensures law { OneReplySpelling }
{
    one_spelling();
}
