//! What follows from the definitions, for the crates above. Each function is a law: its clauses
//! hold of all histories, and its body does nothing but call laws of the crates below.

ghost use Rattle.pl_core.specs.Laws.{DenialsChangeNothing, DeniedChangesNothing, LogsOnlyGrow};
ghost use Rattle.pl_core.specs.Laws.{ReadsReachAsRowsAllow, ReachesAreHardened, ReadsAboveAreDenied};
ghost use Rattle.pl_core.specs.Laws.{AppliedLsnsOnlyRise, PagesAreReplays, GetsAreRepeatable};
ghost use Rattle.pl_core.specs.Laws.{ServedBlocksAreHardened, HardenedBlocksAreNumbered, HardenedBlocksAreBlocks, PullsMissNothing, HistoryPullsJoin};
ghost use Rattle.pl_core.specs.Laws.{OlderEpochsAreFenced, HistoriesStayLegal};
ghost use Rattle.pl_core.specs.Laws.{NothingIsAboveTheWindow, RunsEndInTheWindow};
ghost use Rattle.pl_core.specs.Laws.{FullListsAreReported, UnknownPrincipalsAreReported, NoMemoryChangesNothing, StepsReplyTheirOwn};

use crate::lower::order_laws;

/// After a denial the hardened log, its marks and their counts, each LSN's content, the copies it
/// is in and whether it was offered, the LSN that each partition is applied to, the epoch, its
/// primary and the table in force are what they were.
pub fn denials_change_nothing()
    // The entry of a denial leaves the log, its marks and their counts, contents, copies, offers,
    // applied LSNs, epoch, primary and table.
    ensures entry { DenialsChangeNothing }
    // A request that is answered by a denial leaves them too.
    ensures reply { DeniedChangesNothing }
{}

/// No entry takes a hardened block away, and an LSN that has a content keeps it to the end of the
/// epoch.
pub fn logs_only_grow()
    // No entry takes a hardened block away, and a content stays to the end of its epoch.
    ensures law { LogsOnlyGrow }
{}

/// A known principal's request of an older epoch is denied by row A2 with the present epoch: what it
/// asks and what it would write make no difference.
pub fn older_epochs_are_fenced()
    // A known principal's request of an older epoch is denied by row A2.
    ensures law { OlderEpochsAreFenced }
{
    pl_decide::laws::older_epochs_are_denied();
}

/// An allowed pull or get goes as far as the rows of the table in force allow it, up to the hardened
/// end: asked at each LSN up to its reach, it is allowed, and at each LSN above it is denied. If no
/// row ends at an LSN, the reach is the hardened end.
pub fn reads_reach_as_rows_allow()
    // The reach of an allowed pull or get is the greatest LSN up to the hardened end at which the
    // rows allow it.
    ensures exact { ReadsReachAsRowsAllow }
    // Each reach is hardened.
    ensures within { ReachesAreHardened }
    // Asked at an LSN above its reach, the request is denied.
    ensures only { ReadsAboveAreDenied }
{
    order_laws();
    pl_table::laws::lower_lsns_are_allowed();
}

/// No partition is applied above the hardened end, and no entry takes back what was applied.
pub fn applied_lsns_only_rise()
    // No partition is applied above the hardened end, and no entry takes back what was applied.
    ensures law { AppliedLsnsOnlyRise }
{}

/// Each page that is served is its database's hardened log, replayed to the answered LSN. That LSN is
/// at least the one requested, and just that if the get is exact; it is at most the hardened end.
pub fn pages_are_replays()
    // A served page is the hardened log replayed to the answered LSN, at least the one asked for
    // and at most the hardened end.
    ensures law { PagesAreReplays }
{
    order_laws();
}

/// Two gets of a page that are answered at the same LSN give the same bytes, whatever was
/// written, reported or failed over in between.
pub fn gets_are_repeatable()
    // Two gets of a page answered at one LSN give the same bytes, whatever was entered in between.
    ensures law { GetsAreRepeatable }
{
    order_laws();
    pl_pages::laws::pages_stay();
}

/// Each block that a pull of a legal history is answered is hardened, touches a partition that was
/// asked for, and has an LSN from the one asked to the hardened end. The hardened blocks have the LSNs
/// from 1 on, and each is a block by the grammar of blocks.
pub fn served_blocks_are_hardened()
    // Each served block is hardened and was asked for.
    ensures members { ServedBlocksAreHardened }
    // Hardened blocks have the LSNs from 1 on.
    ensures rising { HardenedBlocksAreNumbered }
    // Each hardened block is one by the grammar.
    ensures blocks { HardenedBlocksAreBlocks }
{
    order_laws();
}

/// Of one pull of a legal history: whatever was asked for below the LSN to go on from was served,
/// each served block is below it, and it is above the LSN that was asked, so that each pull gets
/// further.
pub fn pulls_miss_nothing()
    // What was asked for below the LSN to go on from was served.
    ensures law { PullsMissNothing }
{
    order_laws();
}

/// Two pulls in a row, the second asked where the first said to go on, serve what one pull would, up to
/// the reach of the second, even if the history has grown in between and another table is in force.
/// So whoever goes on pulling where the last reply says gets each hardened block of the partitions once,
/// in order, as far as the last pull goes.
pub fn pulls_join()
    // Two pulls in a row serve what one would up to the reach of the second, also of a log that has
    // grown in between, and by another table.
    ensures law { HistoryPullsJoin }
{
    order_laws();
    pl_log::laws::pulls_join();
}

/// A legal history stays legal with a request in its ranges, and a reply that it may have.
pub fn histories_stay_legal()
    // A request in range and a reply that it may get lead from a legal history to a legal one.
    ensures law { HistoriesStayLegal }
{}

/// In a legal history no LSN more than 64 above the hardened ones is in a copy, so that the run
/// that a failover hardens is the same however far one looks.
pub fn runs_end_in_the_window()
    // No LSN more than 64 above the hardened ones is in a copy.
    ensures above { NothingIsAboveTheWindow }
    // The run of a failover is the same however far one looks.
    ensures same { RunsEndInTheWindow }
{
    order_laws();
}

/// What a reply says of the step that gave it: `AuditFull` comes exactly if the audit list is full,
/// the denial of an unknown principal exactly if there is room and the principal is not known, and
/// `NoMemory` enters nothing. `Spent`, `NoDatabase` and `Malformed` never come.
pub fn replies_tell_their_cause()
    // `AuditFull` comes exactly if the audit list is full.
    ensures full { FullListsAreReported }
    // The denial of an unknown principal comes exactly if the list has room and the principal is
    // unknown.
    ensures unknown { UnknownPrincipalsAreReported }
    // `NoMemory` enters nothing.
    ensures no_memory { NoMemoryChangesNothing }
    // No step answers `Spent`, `NoDatabase` or `Malformed`.
    ensures never { StepsReplyTheirOwn }
{
    pl_decide::laws::unknown_principals_come_first();
}
