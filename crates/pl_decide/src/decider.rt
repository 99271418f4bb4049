//! The decision: the first rule of the written order that denies a request.

ghost use Rattle.std.specs.Prelude.{◌≡◌, ◌==◌, ◌≤◌, ◌&&◌, ◌↔◌, ◌++◌, nat_le, not, true, [], length, ℕ, IfOk, IfSome, IsTrue, Contains};
ghost use Rattle.std.specs.Str.{bytes_eq};
ghost use Rattle.pl_table.specs.Requests.Ops.{same_role};
ghost use Rattle.pl_table.specs.Tables.Table.{WrittenTable};
ghost use Rattle.pl_table.specs.Requests.Asking.{asked_at, asked_in};
ghost use Rattle.pl_table.specs.Tables.FirstMatch.{first_match_from, rows_allow};
ghost use Rattle.pl_decide.specs.Asked.{is_known};
ghost use Rattle.pl_decide.specs.WrittenOrder.{decision, section_b, section_c, first_denial, AllowsExactly, DeniesByTheFirst};
ghost use Rattle.pl_decide.specs.Keys.{IsKeyOf};
ghost use Rattle.pl_decide.specs.Agreement.{AgreesWith, IsAllowedThrough, most_cached};

use crate::cache::{are_of_rows, find, keep, look_at};
use crate::key::VerdictKey;
use crate::log_rules::decide_by_log;
use crate::row_verdict::{Found, RowVerdict};
use crate::rule::Rule;
use crate::through::{ends, lsn_read, verdict_of};
use crate::view::{Epochs, View};
use lru::LruCache;
use pl_table::{Head, Request, Role, Table, Verdict};
use std::alloc::{AllocError, Global};
use std::marker::Model;
use std::num::NonZeroUsize;

/// Whether the table lists the principal with this token, which is what the first rule asks. The
/// principals, at most 64, are looked at one by one, without memory.
pub fn known(table: &Table, head: &Head) -> bool
    // Whether the table lists the principal with the request's token (`is_known`).
    ensures value { result ≡ is_known table.now head.now }
{
    match table.token(head.principal) {
        Some(token) => is_same_token(&token, &head.token),
        None => false,
    }
}

// Whether the tokens are the same. All bytes are looked at, wherever the first difference is.
fn is_same_token(one: &[u8; 16], other: &[u8; 16]) -> bool
    ensures value { result ≡ bytes_eq one.now other.now }
{
    let mut is_same = true;
    for place in 0..one.len() {
        is_same &= one[place] == other[place];
    }
    is_same
}

/// The most verdicts that a decider keeps.
const MOST_CACHED: usize = 1024;

// The verdict of a row that is found among as few is not cached: to look it up costs as much as some 8
// rows, and to cache it costs more.
const FEW_ROWS: usize = 16;

/// Decides on requests, one after the other. What was asked before makes no difference.
///
/// It keeps what the rows of the table said of up to 1,024 keys, those used last, if many rows were
/// looked at or none matched, and of each key at which LSNs they say so; and of a get or a pull that they
/// allow, how far.
#[derive(Debug, Drop)]
pub struct Decider {
    verdicts: LruCache<VerdictKey, RowVerdict>,
}

impl Model for Decider {
    ghost use Rattle.std.specs.Prelude.{List};
    ghost use Rattle.pl_decide.specs.Keys.{CachedVerdict};
    ghost use Rattle.pl_decide.specs.Keys.{IsKeyOf};
    ghost use Rattle.pl_decide.specs.Agreement.{IsCache};

    ghost Value = { List CachedVerdict };

    ghost view = { λ d. d.verdicts.entries };

    ghost invariant = { λ d. IsCache d.verdicts };
}

impl Decider {
    /// A decider that was asked nothing, for any table. `Err` if an allocation failed.
    ///
    /// It allocates two entries of its cache; the others are allocated as verdicts are cached.
    pub fn new(alloc: Global) -> Result<Decider, AllocError>
        // No verdict is cached.
        ensures empty { IfOk result (λ d. d ≡ []) }
        // It agrees with each table (`AgreesWith`).
        ensures agrees { IfOk result (λ d. (table : WrittenTable) → AgreesWith d table) }
    {
        let most = NonZeroUsize::new(MOST_CACHED).unwrap();
        Ok(Decider {
            verdicts: LruCache::sparse(alloc, most)?,
        })
    }

    /// To be called when another table comes into force. Nothing of an older one is kept.
    pub fn new_table(&mut self)
        // No verdict is cached.
        ensures empty { self.new ≡ [] }
        // It agrees with each table (`AgreesWith`).
        ensures agrees { (table : WrittenTable) → AgreesWith self.new table }
    {
        self.verdicts.clear();
    }

    /// How many verdicts are cached, at most 1,024. Nothing is allocated.
    pub fn cached(&self) -> usize
        // How many verdicts are cached.
        ensures value { result ≡ length self.now }
        // At most 1,024.
        ensures most { result ≤ most_cached }
    {
        self.verdicts.len()
    }

    /// Whether each cached verdict is that of the table's rows, for all requests of its key at its LSNs, and
    /// ends where they do. The rows that can match are looked at, for the first and for the last of these
    /// LSNs, and for the end. Nothing is allocated.
    pub fn agrees_with(&self, table: &Table) -> bool
        // Whether each cached verdict is that of the table's rows, whatever is asked with its key at
        // its LSNs, and how far they allow that (`AgreesWith`).
        ensures exact { IsTrue result ↔ AgreesWith self.now table.now }
    {
        are_of_rows(&self.verdicts, table)
    }

    /// The verdict on any request: the denial of the first rule of the written order that denies it, or
    /// `Allowed` if none does. The service calls [`decide_known`](Decider::decide_known), since it has looked the
    /// principal up.
    ///
    /// The rows of the table that can match are looked at, up to the first that does, or what they said
    /// of the same key is looked up, at LSNs of which the request's is one. If it is to be cached and an
    /// allocation fails, it is not.
    pub fn decide(
        &mut self,
        table: &Table,
        epochs: &Epochs,
        view: &View,
        request: &Request,
    ) -> Verdict
        // The decider agrees with the table (`AgreesWith`).
        requires agrees { AgreesWith self.old table.now }
        // The verdict is that of the written order (`decision`), whatever was asked before.
        ensures value { result ≡ decision request.now table.now epochs.now view.now }
        // It is Allowed exactly if no rule of the order denies the request (`AllowsExactly`).
        ensures allowed { AllowsExactly result request.now table.now epochs.now view.now }
        // A denial is that of a rule that denies, with its section, number and value, and no rule
        // before it in the order does (`DeniesByTheFirst`).
        ensures first { DeniesByTheFirst result request.now table.now epochs.now view.now }
        // The decider still agrees with the table.
        ensures agrees { AgreesWith self.new table.now }
    {
        if known(table, request.head()) {
            self.decide_known(table, epochs, view, request)
        } else {
            Rule::UnknownPrincipal.denial(0)
        }
    }

    /// The verdict on the request of a principal that the table lists with this token ([`known`]),
    /// which is not looked up again. In all else it is [`decide`](Decider::decide).
    pub fn decide_known(
        &mut self,
        table: &Table,
        epochs: &Epochs,
        view: &View,
        request: &Request,
    ) -> Verdict
        // The decider agrees with the table (`AgreesWith`).
        requires agrees { AgreesWith self.old table.now }
        // The table lists the principal with this token (`known`).
        requires known { is_known table.now request.now.head ≡ true }
        // As for `decide`.
        ensures value { result ≡ decision request.now table.now epochs.now view.now }
        // As for `decide`.
        ensures allowed { AllowsExactly result request.now table.now epochs.now view.now }
        // As for `decide`.
        ensures first { DeniesByTheFirst result request.now table.now epochs.now view.now }
        // As for `decide`.
        ensures agrees { AgreesWith self.new table.now }
    {
        self.decide_by_head(table, *epochs, *view, request)
    }

    /// How far the rows of the table allow a request that they allow, which is what [`decide`] asks them
    /// of an allowed one: the greatest LSN up to `hard` at which they do. A request that names no LSN they
    /// allow at each.
    ///
    /// If that is cached no row is looked at, else those that can match are, once. Nothing is allocated,
    /// and what is cached stays as it is.
    ///
    /// [`decide`]: Decider::decide
    pub fn reach(&self, table: &Table, hard: u64, request: &Request) -> u64
        // The decider agrees with the table (`AgreesWith`).
        requires agrees { AgreesWith self.now table.now }
        // The rows allow the request, as `Table::first_match` reports.
        requires allowed { rows_allow table.now.rows (asked_in request.now) ≡ true }
        // An LSN up to `hard`.
        ensures within { result ≤ hard }
        // Of the LSNs up to `hard`, the rows allow the request at those up to this one, and at no
        // other (`rows_allow`).
        ensures exact { (lsn : ℕ) → lsn ≤ hard →
            rows_allow table.now.rows (asked_at (asked_in request.now) lsn) ≡ nat_le lsn result }
    {
        match self.allowed_through(table, request) {
            Some(end) => end.min(hard),
            None => table.reach(request, hard),
        }
    }

    /// Whether the rows of the table allow at this LSN a request that they allow at its own.
    ///
    /// Rows are looked at as by [`reach`](Decider::reach), which is what the service asks.
    pub fn allows_at(&self, table: &Table, request: &Request, lsn: u64) -> bool
        // The decider agrees with the table (`AgreesWith`).
        requires agrees { AgreesWith self.now table.now }
        // The rows allow the request, as `Table::first_match` reports.
        requires allowed { rows_allow table.now.rows (asked_in request.now) ≡ true }
        // Whether the rows allow the request at this LSN.
        ensures value { result ≡ rows_allow table.now.rows (asked_at (asked_in request.now) lsn) }
    {
        lsn <= self.reach(table, lsn, request)
    }

    // How far the rows allow a get or a pull, if that is cached. It never is if few rows can match,
    // and if no row ends it is not needed.
    fn allowed_through(&self, table: &Table, request: &Request) -> Option<u64>
        requires agrees { AgreesWith self.now table.now }
        ensures exact { IfSome result (IsAllowedThrough table.now.rows (asked_in request.now)) }
    {
        lsn_read(request.act())?;
        if !table.has_ends() || table.candidates(request) <= FEW_ROWS {
            return None;
        }
        let key = VerdictKey::of(&request.asking())?;
        look_at(&self.verdicts, key)?.allowed_through
    }

    // The verdict on a known principal's request.
    fn decide_by_head(
        &mut self,
        table: &Table,
        epochs: Epochs,
        view: View,
        request: &Request,
    ) -> Verdict
        requires agrees { AgreesWith self.old table.now }
        requires known { is_known table.now request.now.head ≡ true }
        ensures value { result ≡ decision request.now table.now epochs view }
        ensures agrees { AgreesWith self.new table.now }
    {
        let head = request.head();
        if head.epoch < epochs.epoch {
            return Rule::OlderEpoch.denial(u64::from(epochs.epoch));
        }
        if epochs.epoch < head.epoch {
            return Rule::NewerEpoch.denial(u64::from(epochs.epoch));
        }
        if is_other_primary(head, epochs.primary) {
            return Rule::OtherPrimary.denial(0);
        }
        if !head.role.has(request.act().op()) {
            return Rule::RoleLacksOperation.denial(0);
        }
        let found = self.first_match(table, request);
        decide_by_table(found, table, epochs, view, request)
    }

    // The first row of the table that matches, as `Table::first_match` finds it.
    fn first_match(&mut self, table: &Table, request: &Request) -> Found
        requires agrees { AgreesWith self.old table.now }
        ensures value { result ≡ first_match_from 1 table.now.rows (asked_in request.now) }
        ensures agrees { AgreesWith self.new table.now }
    {
        let asking = request.asking();
        let Some(key) = VerdictKey::of(&asking) else {
            return table.first_match_of(&asking);
        };
        match self.look_up(key) {
            Some(verdict) if verdict.is_at(asking.lsn) => return verdict.found,
            _ => {}
        }
        let found = table.first_match_of(&asking);
        if is_far(table, request, found) {
            self.cache(table, request, key, found);
        }
        found
    }

    // What is cached under the key.
    fn look_up(&mut self, key: VerdictKey) -> Option<RowVerdict>
        ensures found { IfSome result (λ verdict. Contains self.old (key, verdict)) }
        ensures agrees { (table : WrittenTable) →
            AgreesWith self.old table → AgreesWith self.new table }
    {
        find(&mut self.verdicts, key)
    }

    // Caches what was found for the request, which has this key, with the LSNs at which it is the same.
    fn cache(&mut self, table: &Table, request: &Request, key: VerdictKey, found: Found)
        requires agrees { AgreesWith self.old table.now }
        requires key { IsKeyOf key (asked_in request.now) }
        requires found { found ≡ first_match_from 1 table.now.rows (asked_in request.now) }
        ensures agrees { AgreesWith self.new table.now }
    {
        let verdict = verdict_of(table, request, key, found);
        keep(&mut self.verdicts, key, verdict);
    }
}

// Whether it is to be cached: if no row matches; and, if many rows can, if the one that does comes
// after many rows, or ends and allows a get or a pull, whose reach has to look at those after it.
fn is_far(table: &Table, request: &Request, found: Found) -> bool {
    match found {
        Some((row, allows)) => {
            let walks = usize::from(row) > FEW_ROWS
                || (allows && lsn_read(request.act()).is_some() && ends(table, row));
            walks && table.candidates(request) > FEW_ROWS
        }
        None => true,
    }
}

// Whether it asks as primary, and another one is the primary.
fn is_other_primary(head: &Head, primary: u32) -> bool
    ensures value { result ≡
        (same_role head.now.role Role.Primary && not (head.now.principal == primary)) }
{
    matches!(head.role, Role::Primary) && head.principal != primary
}

// The verdict of sections B and C, if this is the first row of the table that matches.
fn decide_by_table(
    found: Found,
    table: &Table,
    epochs: Epochs,
    view: View,
    request: &Request,
) -> Verdict
    requires found { found ≡ first_match_from 1 table.now.rows (asked_in request.now) }
    ensures value { result ≡ first_denial (section_b (length table.now.rows) ++ section_c)
        request.now table.now epochs view }
{
    match found {
        None => Rule::NoRowMatches.denial(0),
        Some((row, allows)) => {
            if allows {
                decide_by_log(table, epochs, view, request.act())
            } else {
                Rule::TableRow(row).denial(0)
            }
        }
    }
}
