//! The state of a database, and how a request changes it.

ghost use Rattle.std.specs.Prelude.{◌≡◌, ◌≢◌, ◌+◌, ◌<◌, ◌≤◌, ◌^◌, ◌-◌, [], IsOk, IfOk, MatchResult, OnOk, OnErr, count_by, length, min, take, None};
ghost use Rattle.pl_log.specs.State.{IsLog, is_pending, is_landing};
ghost use Rattle.pl_log.specs.Change.{ArePast, reported, written};
ghost use Rattle.pl_log.specs.Window.{HasRoomToReport};
ghost use Rattle.pl_core.specs.History.{advanced, failed_over, hardened, wrote, effect_of_act};
ghost use Rattle.pl_core.specs.Epoch.{table_set};
ghost use Rattle.pl_pages.specs.State.{FitsLog, applied_at};
ghost use Rattle.pl_audit.specs.Audit.{lines_of};
ghost use Rattle.pl_core.specs.Transition.{CanApply, IsApplied, IsRefused, NeedsNoMemory, NeedsNone};
ghost use Rattle.pl_core.specs.Transition.{MayApply, state_after, with_unseen, PagesFollow, applied_then, reply_to};
ghost use Rattle.pl_log.specs.Pull.{pulled};
ghost use Rattle.pl_core.specs.Appending.{AppendsTo, reply_in};

use crate::reply::{Answer, Blocks, Lines, Reply};
use pl_audit::Audit;
use pl_block::{Block, PAGE_SIZE, PAGES_PER_PARTITION};
use pl_decide::Epochs;
use pl_log::DbLog;
use pl_pages::Pages;
use pl_table::{Act, Table, TableText, Verdict};
use std::alloc::{AllocError, Global};

/// The state of a database: what its history comes to.
#[derive(Debug, Drop)]
pub(crate) struct State {
    pub(crate) alloc: Global,
    pub(crate) log: DbLog,
    /// How far each partition is applied, and pages as they were given.
    pub(crate) pages: Pages,
    /// The current epoch, and its primary.
    pub(crate) epochs: Epochs,
}

/// What the table in force says to a request.
#[derive(Clone, Copy, Debug)]
pub(crate) struct ByTable {
    /// The greatest LSN up to the hardened end at which its rows allow a get or a pull. To any other
    /// request they set none, and it is the hardened end.
    pub(crate) reach: u64,
    /// How many copies its landing zone has: that of the epoch that a failover begins.
    pub(crate) copies: u8,
    /// How many of these copies harden an LSN.
    pub(crate) quorum: u8,
}

/// What a request came to: its answer, and the table that it set.
#[derive(Debug, Drop)]
pub(crate) struct Outcome {
    pub(crate) answer: Answer,
    pub(crate) table: Option<Table>,
}

impl Outcome {
    /// An answer, if no table was set.
    pub(crate) fn given(answer: Answer) -> Outcome
        ensures value { result ≡ record { answer = answer; table = None } }
    {
        Outcome {
            answer,
            table: None,
        }
    }

    /// A reply that is no page, if no table was set.
    pub(crate) fn plain(reply: Reply) -> Outcome
        ensures value { result ≡ record { answer = Answer.Whole reply; table = None } }
    {
        Outcome {
            answer: Answer::Whole(reply),
            table: None,
        }
    }

    /// `Done`, once a change was made that sets no table.
    pub(crate) fn done(_change: ()) -> Outcome
        ensures value { result ≡ record { answer = Answer.Whole Reply.Done; table = None } }
    {
        Outcome {
            answer: Answer::Whole(Reply::Done),
            table: None,
        }
    }
}

// The table that a text reads as, which the request sets.
#[tactic(auto, using(crate::proofs::Reading::read_sets))]
fn set_table(text: TableText) -> Outcome
    ensures answer { result.answer ≡ Answer.Whole Reply.Done }
    ensures table { result.table ≡ table_set (effect_of_act (Act.SetTable text)) }
{
    Outcome {
        answer: Answer::Whole(Reply::Done),
        table: text.into_reading().ok(),
    }
}

impl State {
    /// Applies what was decided, by a request that comes after those of the audit list. A denial
    /// changes nothing. What needs no memory never fails (`NeedsNone`). The state of pages, and where
    /// the hardened blocks lie, may change too, even if it fails. The bytes of a page are put
    /// after those in `page`.
    pub(crate) fn apply(
        &mut self,
        verdict: Verdict,
        act: Act,
        by: ByTable,
        audit: &Audit,
        page: &mut Vec<u8>,
    ) -> Result<Outcome, AllocError>
        requires can { CanApply verdict act self.old by }
        ensures ok { IfOk result (λ done. IsApplied verdict act self.old by
            (lines_of audit.now.entries) done page.old page.new self.new) }
        ensures err { OnErr result (IsRefused self.old page.old page.new self.new) }
        ensures succeeds { NeedsNone verdict act self.old by page.old → IsOk result }
    {
        match verdict {
            Verdict::Allowed => self.apply_allowed(act, by, audit, page),
            Verdict::Denied {
                section,
                row,
                value,
            } => {
                Ok(Outcome::plain(Reply::Denied {
                    section,
                    row,
                    value,
                }))
            }
        }
    }

    // Applies an act that no row denies. The state of pages, and where the hardened blocks lie,
    // may change too, even if it fails; the applied LSNs do so by an advance alone.
    #[tactic(auto, using(crate::proofs::Seen::seen_same, crate::proofs::Reading::read_changes_nothing, crate::proofs::Reading::read_follows))]
    fn apply_allowed(
        &mut self,
        act: Act,
        by: ByTable,
        audit: &Audit,
        page: &mut Vec<u8>,
    ) -> Result<Outcome, AllocError>
        requires can { CanApply Verdict.Allowed act self.old by }
        ensures ok { IfOk result (λ done. IsApplied Verdict.Allowed act self.old by
            (lines_of audit.now.entries) done page.old page.new self.new) }
        ensures err { OnErr result (IsRefused self.old page.old page.new self.new) }
        ensures succeeds { NeedsNoMemory act self.old by page.old → IsOk result }
    {
        match act {
            Act::Write { copy, block } => Ok(Outcome::done(self.write(copy, block))),
            Act::Offer { block } => Ok(Outcome::done(self.log.offer(block)?)),
            Act::Report { lsn } => Ok(Outcome::done(self.report(lsn)?.unwrap_or(()))),
            Act::Get {
                page: number,
                lsn,
                exact,
            } => Ok(Outcome::given(self.get(number, lsn, exact, by, page)?)),
            Act::Pull { lo, hi, lsn, max } => Ok(Outcome::plain(self.pull(lo, hi, lsn, max, by)?)),
            Act::Advance { partition, steps } => Ok(Outcome::done(self.advance(partition, steps)?)),
            Act::Status => Ok(Outcome::plain(self.status())),
            Act::Failover { primary } => Ok(Outcome::done(self.fail_over(primary, by)?)),
            Act::SetTable { text } => Ok(set_table(text)),
            Act::Audit { first, max } => {
                let lines = Lines::new(audit.list(first, max)?);
                Ok(Outcome::plain(Reply::Entries { lines }))
            }
            Act::Tidy => Ok(Outcome::done(self.log.tidy()?)),
        }
    }

    // Writes a block to a copy.
    #[tactic(auto, using(crate::proofs::Seen::seen_same))]
    fn write(&mut self, copy: u8, block: Block)
        requires may { MayApply (wrote copy block) self.old }
        requires fits { FitsLog self.old.pages self.old.log.hardened }
        ensures rest { self.new ≡ with_unseen
            (record self.old { log = written self.old.log copy block })
            self.new.pages self.new.log.in_broker }
        ensures pages { PagesFollow self.old (λ p. applied_at self.old.pages p) self.new.pages }
    {
        self.log.write(copy, block);
    }

    // Hardens the blocks up to an LSN. Before that the index of pages follows the log. Returns whether it
    // did, or an allocation failed.
    #[tactic(auto, using(crate::proofs::Seen::seen_same))]
    fn report(&mut self, lsn: u64) -> Result<Result<(), AllocError>, AllocError>
        requires may { MayApply (hardened lsn) self.old ×
            FitsLog self.old.pages self.old.log.hardened }
        ensures ok { OnOk result (self.new ≡ with_unseen
            (record self.old { log = reported self.old.log lsn })
            self.new.pages self.new.log.in_broker) }
        ensures err { OnErr result
            (self.new ≡ with_unseen self.old self.new.pages self.new.log.in_broker) }
        ensures pages { PagesFollow self.old (λ p. applied_at self.old.pages p) self.new.pages }
        ensures follows { IfOk result (λ followed. OnOk followed (self.new.pages.indexed ≡
            min (length self.old.log.hardened) (self.old.pages.indexed + 64))) }
        ensures succeeds { HasRoomToReport self.old.log lsn → IsOk result }
    {
        let followed = self.follow();
        self.log.report(lsn)?;
        Ok(followed)
    }

    // The blocks that touch the partitions, up to the reach.
    fn pull(
        &mut self,
        lo: u16,
        hi: u16,
        lsn: u64,
        max: u16,
        by: ByTable,
    ) -> Result<Reply, AllocError>
        requires reach { by.reach ≤ length self.old.log.hardened }
        ensures same { self.new ≡ self.old }
        ensures reply { IfOk result (λ reply.
            reply ≡ reply_to (Act.Pull lo hi lsn max) self.old by []) }
        ensures succeeds { pulled lo hi lsn max (take by.reach self.old.log.hardened) ≡ [] →
            IsOk result }
    {
        let (next, blocks) = self.log.pull(lo, hi, lsn, max, by.reach)?;
        let blocks = Blocks::new(blocks);
        Ok(Reply::Blocks { next, blocks })
    }

    // Lets the index of pages follow the log, so that no get finds many blocks that are not in it. What
    // finds no memory here is entered by a get.
    fn follow(&mut self) -> Result<(), AllocError>
        requires fits { FitsLog self.old.pages self.old.log.hardened }
        ensures rest { self.new ≡ with_unseen self.old self.new.pages self.old.log.in_broker }
        ensures pages { PagesFollow self.old (λ p. applied_at self.old.pages p) self.new.pages }
        ensures ok { OnOk result (self.new.pages.indexed ≡
            min (length self.old.log.hardened) (self.old.pages.indexed + 64)) }
    {
        self.pages.follow(&mut self.log)
    }

    // The page at the LSN that is chosen: not the applied one if that is above the reach. Memory for
    // its bytes is asked for once, before anything changes, and they are copied once, after those in `page`.
    fn get(
        &mut self,
        number: u32,
        lsn: u64,
        exact: bool,
        by: ByTable,
        page: &mut Vec<u8>,
    ) -> Result<Answer, AllocError>
        requires fits { FitsLog self.old.pages self.old.log.hardened ×
            (lsn ≤ length self.old.log.hardened) }
        ensures rest { self.new ≡ with_unseen self.old self.new.pages self.old.log.in_broker }
        ensures pages { PagesFollow self.old (λ p. applied_at self.old.pages p) self.new.pages }
        ensures reply { IfOk result (λ answer. reply_in answer page.old.items page.new.items ≡
            reply_to (Act.Get number lsn exact) self.old by []) }
        ensures page { MatchResult result (λ answer. AppendsTo answer page.old page.new)
            (λ _. AppendsTo (Answer.Whole Reply.NoMemory) page.old page.new) }
        ensures succeeds { NeedsNoMemory (Act.Get number lsn exact) self.old by page.old →
            IsOk result }
    {
        page.reserve(PAGE_SIZE)?;
        let applied = self.pages.applied((number / PAGES_PER_PARTITION) as u16);
        let exact = exact || by.reach < applied;
        let (at, lent) = self.pages.get(&mut self.log, number, lsn, exact)?;
        page.extend_from_slice(lent).unwrap();
        Ok(Answer::Page { at })
    }

    // Applies the log to a partition.
    fn advance(&mut self, partition: u16, steps: u16) -> Result<(), AllocError>
        requires fits { FitsLog self.old.pages self.old.log.hardened }
        ensures rest { self.new ≡ with_unseen self.old self.new.pages self.old.log.in_broker }
        ensures ok { OnOk result (PagesFollow self.old
            (λ p. applied_then (advanced partition steps) self.old p) self.new.pages) }
        ensures err { OnErr result
            (PagesFollow self.old (λ p. applied_at self.old.pages p) self.new.pages) }
        ensures succeeds { partition < length self.old.pages.applied → IsOk result }
    {
        self.pages
            .advance(&mut self.log, partition, u64::from(steps))
    }

    // The epoch, its primary, and how many blocks are hardened.
    fn status(&self) -> Reply
        ensures value { result ≡ Reply.Status self.now.epochs.epoch self.now.epochs.primary
            (length self.now.log.hardened)
            (count_by is_pending self.now.log.marks) (count_by is_landing self.now.log.marks) }
    {
        let Epochs { epoch, primary } = self.epochs;
        let (pending, landing) = self.log.counts();
        Reply::Status {
            epoch,
            primary,
            hard: self.log.hard(),
            pending,
            landing,
        }
    }

    // Hardens what is in a quorum of copies, annuls the rest of the window, and begins the next
    // epoch with its primary, and with the landing zone of the table in force.
    #[tactic(auto, using(crate::proofs::Seen::seen_same))]
    fn fail_over(&mut self, primary: u32, by: ByTable) -> Result<(), AllocError>
        requires past { ArePast self.old.epochs.epoch self.old.log.annulled }
        requires next { self.old.epochs.epoch ≢ 2 ^ 32 - 1 }
        requires zone { (1 ≤ by.quorum) × (by.quorum ≤ by.copies) × (by.copies ≤ 6) }
        ensures ok { OnOk result (self.new ≡
            with_unseen (state_after (failed_over primary) self.old by)
            self.old.pages self.new.log.in_broker) }
        ensures err { OnErr result
            (self.new ≡ with_unseen self.old self.old.pages self.new.log.in_broker) }
    {
        self.log.recover(self.epochs.epoch, by.copies, by.quorum)?;
        self.epochs = Epochs {
            epoch: self.epochs.epoch + 1,
            primary,
        };
        Ok(())
    }
}
