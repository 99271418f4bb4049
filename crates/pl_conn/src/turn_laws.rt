//! What holds of the turns of a conversation, all together.

ghost use Rattle.pl_conn.specs.Resting.{TurnsAmongOthers, TurnsAreAConversation, TurnsJoin, TurnsJoinAmongOthers};

use pl_wire::Gate;

/// Two turns of a conversation, one after the other, are as one: what both heard, and what both said. So all
/// turns together answered the frames of all that they heard, in order, however it was cut.
pub fn turns_join<G: Gate>(_gate: &G)
    // Two turns, one after the other, are as one (`TurnsJoin`).
    ensures law { TurnsJoin (G.calls _gate.now) }
{}

/// All turns of a conversation, from [`Conversation::new`](crate::Conversation::new) to its end, are a conversation as [`converse`](crate::converse)
/// has it, however its reader and its writer cut their bytes: the frames of all that was read are answered in order, and it
/// ends as `converse` would. It may answer any number of frames. Nobody else uses its pass meanwhile.
pub fn turns_are_a_conversation<G: Gate>(_gate: &G)
    // From the beginning to the end, turns are a conversation, with the same cause and the same number of replies
    // (`TurnsAreAConversation`).
    ensures law { TurnsAreAConversation (G.calls _gate.now) }
{}

/// The same of a conversation whose pass others use too: between two of its turns they call the gate with it, as the connections
/// of one worker do. Their calls come between its own.
pub fn turns_among_others_are_a_conversation<G: Gate>(_gate: &G)
    // So far, turns with others' calls between them are as one (`TurnsJoinAmongOthers`).
    ensures join { TurnsJoinAmongOthers (G.calls _gate.now) }
    // To the end, they are a conversation with others' calls between its own (`TurnsAmongOthers`).
    ensures law { TurnsAmongOthers (G.calls _gate.now) }
{}
