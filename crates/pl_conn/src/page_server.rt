//! Materialising a partition: the rounds of a page server that applies the log before anybody reads.

ghost use Rattle.std.specs.Prelude.{◌≡◌, ◌+◌, ◌-◌, ◌^◌, ◌<◌, unwrap_or, if◌then◌else◌};
ghost use Rattle.pl_conn.specs.Materialising.{advance_at, is_done, is_older_epoch, reported_epoch, goes_on, Round, Works};

use pl_core::Reply;
use pl_decide::Rule;
use pl_table::{Act, Head, Request, Role, Section};
use pl_wire::Gate;

/// By how many blocks a round advances the partition.
const STEPS: u16 = 16;

/// What materialising a partition did.
#[derive(Clone, Copy, Debug, PartialEq, Eq)]
pub struct Worked {
    /// How many rounds were answered `Done`.
    pub done: u32,
    /// The epoch that was reported last; 1 if none was.
    pub epoch: u32,
}

// Whether a denial by this row is that of an older epoch.
fn denies_older_epoch(section: Section, row: u16) -> bool
    ensures value { result ≡ is_older_epoch section row }
{
    section == Rule::OlderEpoch.section() && row == Rule::OlderEpoch.number()
}

impl Worked {
    // Takes in the reply to a round, and returns whether another round may follow.
    fn learn(&mut self, reply: &Reply) -> bool
        requires { self.old.done < 2 ^ 32 - 1 }
        ensures done { self.new.done ≡ self.old.done + (if is_done reply.now then 1 else 0) }
        ensures epoch { self.new.epoch ≡ unwrap_or (reported_epoch reply.now) self.old.epoch }
        ensures value { result ≡ goes_on reply.now }
    {
        match reply {
            Reply::Done => {
                self.done += 1;
                true
            }
            Reply::Denied {
                section,
                row,
                value,
            } if denies_older_epoch(*section, *row) && *value <= u64::from(u32::MAX) => {
                self.epoch = *value as u32;
                true
            }
            _ => false,
        }
    }
}

/// A page server: what it says of itself, and how it applies the log.
#[derive(Clone, Copy)]
pub struct PageServer {
    /// Its id.
    pub principal: u32,
    /// Its token.
    pub token: [u8; 16],
    /// The partition to which it applies the log.
    pub partition: u16,
    /// How many rounds it makes at a database.
    pub rounds: u32,
}

impl PageServer {
    // The request of a round at this database and epoch.
    fn advance(&self, database: u32, epoch: u32) -> Request
        ensures { result ≡ advance_at self.now.principal self.now.token database
            self.now.partition epoch }
    {
        let head = Head {
            principal: self.principal,
            token: self.token,
            role: Role::PageServer,
            database,
            epoch,
        };
        let act = Act::Advance {
            partition: self.partition,
            steps: STEPS,
        };
        let Some(request) = Request::new(head, act) else {
            unreachable!();
        };
        request
    }

    // One round. It returns whether another may follow.
    fn round<G: Gate>(
        &self,
        gate: &G,
        pass: &mut G::Pass,
        database: u32,
        worked: &mut Worked,
    ) -> bool
        requires own { G.owns gate.now pass.old }
        requires few { worked.old.done < 2 ^ 32 - 1 }
        ensures own { G.owns gate.now pass.new }
        ensures value { Round (G.calls gate.now)
            (advance_at self.now.principal self.now.token database self.now.partition)
            pass.old worked.old worked.new result pass.new }
    {
        let reply = gate.call(pass, self.advance(database, worked.epoch));
        worked.learn(&reply)
    }

    /// Advances its partition of this database by 16 blocks in each of its rounds, first at epoch 1. If a
    /// round is denied for its older epoch, the next one asks at the epoch that the denial reports. Any
    /// other reply than `Done` and such a denial ends it.
    ///
    /// It makes one call of the gate a round, and no allocation of its own.
    pub fn advance_rounds<G: Gate>(&self, gate: &G, pass: &mut G::Pass, database: u32) -> Worked
        // The pass is the gate's.
        requires own { G.owns gate.now pass.old }
        // The pass stays the gate's.
        ensures own { G.owns gate.now pass.new }
        // At most the given number of calls, each the advance of the partition by 16 as page server, at
        // the epoch that was reported last, 1 at first. Only the last reply may be other than Done and a
        // denial that reports the current epoch, and fewer calls are made only after such a reply. `done`
        // counts the replies of Done, and `epoch` is the one reported last (`Works`).
        ensures value { Works (G.calls gate.now)
            (advance_at self.now.principal self.now.token database self.now.partition)
            self.now.rounds pass.old result pass.new }
    {
        let mut worked = Worked { done: 0, epoch: 1 };
        for _round in 0..self.rounds {
            if !self.round(gate, pass, database, &mut worked) {
                break;
            }
        }
        worked
    }
}

/// Materialises the partition of a page server at this database, as [`PageServer::advance_rounds`] does.
pub fn materialise<G: Gate>(
    gate: &G,
    pass: &mut G::Pass,
    server: &PageServer,
    database: u32,
) -> Worked
    // The pass is the gate's.
    requires own { G.owns gate.now pass.old }
    // The pass stays the gate's.
    ensures own { G.owns gate.now pass.new }
    // At most the given number of calls, each the advance of the partition by 16 as page server, at
    // the epoch that was reported last, 1 at first. Only the last reply may be other than Done and a
    // denial that reports the current epoch, and fewer calls are made only after such a reply. `done`
    // counts the replies of Done, and `epoch` is the one reported last (`Works`).
    ensures value { Works (G.calls gate.now)
        (advance_at server.now.principal server.now.token database server.now.partition)
        server.now.rounds pass.old result pass.new }
{
    server.advance_rounds(gate, pass, database)
}
