//! What follows from the definitions, for the crates above. The function is a law: its clauses hold
//! of all passes and histories, and its body does nothing but call a law of the crate below.

ghost use Rattle.pl_desk.specs.Laws.{CallsForgetNothing, MeetingsForgetNothing, OlderEpochsStayFenced, PassesThatMeetSawOneHistory, TablesOnlyGetNewer};

use pl_core::laws::older_epochs_are_fenced;

/// What a pass has seen binds all its later calls. What it has seen stays seen in calls and meetings,
/// and a meeting adds what the other pass had seen. So after it has met a pass that saw a failover, no
/// later request of an older epoch is served; and after it has met a pass that saw a set_table, each
/// later request is decided by that table or a later one.
pub fn meetings_bind_later_calls()
    // What a pass had seen before a call it has seen after it.
    ensures calls { CallsForgetNothing }
    // What two passes had seen before they met, the first has seen after it.
    ensures meetings { MeetingsForgetNothing }
    // A pass that has seen an epoch begin gets no request of an older one served.
    ensures epochs { OlderEpochsStayFenced }
    // A pass that has seen a table in force has each request decided by that table or a later one.
    ensures tables { TablesOnlyGetNewer }
{
    older_epochs_are_fenced();
}

/// All passes see one history: of two that meet, one had seen a beginning of what the other had seen.
pub fn passes_that_meet_saw_one_history()
    // Of two passes that meet, one had seen a beginning of what the other had seen.
    ensures law { PassesThatMeetSawOneHistory }
{}
