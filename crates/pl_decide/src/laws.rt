//! What follows from the written order. Each function is a law: its clauses hold of all requests,
//! tables, epochs and views, and its body does nothing.

ghost use Rattle.pl_decide.specs.Laws.{AllowedExactly, DeniedByTheFirst, AllowedMeetsNoRule, AllowedMayBeServed, UnknownIsDenied, KnownIsNotUnknown, OlderEpochIsDenied, ViewsDecideAlike, ReadsReachTheEnd, RowsAllowTheAllowed, RequestsAskAt, OneKeyIsMatchedAlike, OneKeyOneVerdict};

/// In any order of rules, a request is allowed exactly if no rule denies it. Otherwise
/// the verdict is the denial of the first rule that does.
pub fn the_first_rule_decides()
    // A request is allowed exactly if no rule of the order denies it, for any order of rules.
    ensures allowed { AllowedExactly }
    // If one does, the verdict is the denial of the first that does, for any order of rules.
    ensures first { DeniedByTheFirst }
{}

/// No rule denies an allowed request. So it is of a known principal and of the current
/// epoch; the block of a write or an offer is in the window and agrees, and the copy of a write is
/// there; a report can be hardened; a get is of the hardened end or below, and there a pull begins;
/// the primary of a failover is listed, and the epoch is not the last; the text of a set_table is a
/// table.
pub fn allowed_requests_meet_no_rule()
    // None of all rules denies an allowed request.
    ensures rules { AllowedMeetsNoRule }
    // An allowed request is of a known principal and of the current epoch, and may be served
    // (`MayBeServed`).
    ensures served { AllowedMayBeServed }
{}

/// An unknown principal is denied as unknown, and a known one never is.
pub fn unknown_principals_come_first()
    // An unknown principal is denied as A1.
    ensures unknown { UnknownIsDenied }
    // A known principal is never denied as A1.
    ensures known { KnownIsNotUnknown }
{}

/// A known principal's request of an older epoch is denied, whatever it asks, and the denial
/// reports the current epoch.
pub fn older_epochs_are_denied()
    // A known principal's request of an older epoch is denied as A2, with the current epoch.
    ensures law { OlderEpochIsDenied }
{}

/// Two views decide alike if they agree on what the rules look at for the request. For a request of
/// another epoch no rule looks at the view.
pub fn views_decide_alike()
    // Views that agree on what the rules look at for the request give one verdict. For a request of
    // another epoch, all views do.
    ensures law { ViewsDecideAlike }
{}

/// A pull or a get that is allowed at one LSN is allowed at each LSN up to the hardened end at which the
/// rows allow it, as they do at its own. At an LSN above the hardened end it is denied as C1, and at one
/// at which the rows do not allow it, by a row or since none matches. What rows look at in it is the same
/// at each LSN, but for the LSN.
pub fn reads_reach_the_end()
    // A pull or a get that is allowed at one LSN is, at each LSN at which the rows allow it,
    // allowed up to the hardened end and denied as C1 above it. At each other LSN it is denied in
    // section B (`ReadsTo`).
    ensures reach { ReadsReachTheEnd }
    // The rows allow each allowed request.
    ensures own { RowsAllowTheAllowed }
    // What rows look at in a request is the same at another LSN, but for the LSN.
    ensures same { RequestsAskAt }
{}

/// The same rows are about requests with one key, which have the principal, the role, the operation and
/// the partition in common. So if they name one LSN, or none, the verdict of one is that of the other.
pub fn one_key_has_one_verdict()
    // The same rows are about requests with one key.
    ensures rows { OneKeyIsMatchedAlike }
    // If requests with one key name one LSN, or none, the first row that matches is the same.
    ensures first { OneKeyOneVerdict }
{}
