//! A database, asked line by line.

use pl_core::{Db, DbFault, Epochs, Limits, Reply};
use pl_log::DbLog;
use pl_table::{Act, Head, Request, Section};
use pl_wire::{BodyFault, decode_request, encode_reply};
use std::alloc::Global;
use transcripts::answer::{push_bytes, push_numbers, push_word};
use transcripts::asking::request_of;
use transcripts::block_text::push_block;
use transcripts::codec::bytes_of;
use transcripts::reply_text::push_reply;
use transcripts::table_text::table_named;
use transcripts::transcript::{Stop, Subject, pushed};

// The numbers of databases and of passes decide nothing: each request has the next of them.
const DATABASES: [u32; 4] = [0, 1, 4_294_967_295, 7];

const PASSES: [u64; 3] = [1, 0, 18_446_744_073_709_551_615];

/// A database, and what is asked of it.
#[derive(Drop)]
pub(crate) struct Database {
    pub(crate) alloc: Global,
    db: Option<Db>,
    /// The words that it was opened with.
    opened: String,
    /// The words of the requests of the runs, each with how many requests were made before it.
    queue: Vec<(usize, String)>,
    /// How many of these were in a run. The others are for the next one.
    ran: usize,
    /// How many requests were made, each once.
    asked: usize,
}

/// What a request is made from, and made again if memory was refused.
#[derive(Clone, Copy, Drop)]
pub(crate) enum Asked<'a> {
    Words(&'a [&'a str]),
    Body(&'a [u8]),
    Status(Head),
}

// The request that the bytes spell.
fn decoded(alloc: Global, body: &[u8]) -> Result<Request, Stop> {
    match decode_request(alloc, body) {
        Ok(request) => Ok(request),
        Err(BodyFault::Malformed(_)) => Err(Stop::Unread),
        Err(BodyFault::NoMemory) => Err(Stop::NoMemory),
    }
}

// What is read of a database in short.
fn short_of(db: &Db) -> (u64, (u64, u64), Epochs) {
    (db.audit_len(), db.log().counts(), db.epochs())
}

fn limits_of(audit: &str, chunks: &[&str]) -> Result<Limits, Stop> {
    let audit = audit.parse()?;
    match chunks {
        [] => Ok(Limits { audit, chunks: 16 }),
        [chunks] => Ok(Limits {
            audit,
            chunks: chunks.parse()?,
        }),
        _ => Err(Stop::Unread),
    }
}

impl Database {
    fn open(&mut self, table: &str, primary: u32, limits: Limits) -> Result<&'static str, Stop> {
        if !limits.are_valid() {
            return Err(Stop::Unread);
        }
        let table = table_named(self.alloc, table)?;
        match Db::new(self.alloc, table, primary, limits) {
            Ok(db) => {
                self.db = Some(db);
                Ok("Ok")
            }
            Err(DbFault::NotListed) => Ok("NotListed"),
            Err(DbFault::NoMemory) => Err(Stop::NoMemory),
        }
    }

    // Opens the database of the words, and pushes whether there is one.
    fn push_open(&mut self, words: &[&str], out: &mut String) -> Result<(), Stop> {
        let [table, primary, audit, chunks @ ..] = words else {
            return Err(Stop::Unread);
        };
        let limits = limits_of(audit, chunks)?;
        let opened = text_of(self.alloc, words)?;
        push_word(out, self.open(table, primary.parse()?, limits)?)?;
        self.opened = opened;
        Ok(())
    }

    fn db(&self) -> Result<&Db, Stop> {
        self.db.as_ref().ok_or(Stop::Unread)
    }

    fn request(&self, asked: Asked) -> Result<Request, Stop> {
        match asked {
            Asked::Words(words) => self.request_of(words),
            Asked::Body(body) => decoded(self.alloc, body),
            Asked::Status(head) => Request::new(head, Act::Status).ok_or(Stop::Unread),
        }
    }

    fn request_of(&self, words: &[&str]) -> Result<Request, Stop> {
        request_of(self.alloc, DATABASES[self.asked % 4], words)?.ok_or(Stop::Unread)
    }

    // The reply to a request. One of no memory has changed nothing.
    fn step(&mut self, asked: Asked) -> Result<Reply, Stop> {
        let request = self.request(asked)?;
        let pass = PASSES[self.asked % 3];
        let db = self.db.as_mut().ok_or(Stop::Unread)?;
        let before = short_of(db);
        let reply = db.step(pass, request);
        if !matches!(reply, Reply::NoMemory) {
            self.asked = self.asked.wrapping_add(1);
        } else if short_of(db) != before {
            return Err(Stop::Changed);
        }
        Ok(reply)
    }

    // The reply to a request, which is made again, in its place, if memory was refused.
    pub(crate) fn ask(&mut self, asked: Asked, refused: &mut bool) -> Result<Reply, Stop> {
        let reply = self.step(asked);
        if *refused || !matches!(reply, Ok(Reply::NoMemory) | Err(Stop::NoMemory)) {
            return reply;
        }
        *refused = true;
        self.step(asked)
    }

    // Puts the words of a request into the queue, and pushes how many the next run has.
    fn queue(&mut self, words: &[&str], out: &mut String) -> Result<(), Stop> {
        let text = text_of(self.alloc, words)?;
        self.queue.push((self.asked, text))?;
        self.asked = self.asked.wrapping_add(1);
        let (_, waiting) = self.queues();
        push_numbers(out, &[waiting.len() as u64])
    }

    // The requests of the runs before, and those of the next run.
    fn queues(&self) -> (&[(usize, String)], &[(usize, String)]) {
        self.queue.split_at(self.ran.min(self.queue.len()))
    }

    // The requests of the next run, each with its pass.
    fn queued(&self) -> Result<Vec<(u64, Request)>, Stop> {
        let (_, waiting) = self.queues();
        let mut requests = Vec::new(self.alloc);
        for (asked, text) in waiting {
            requests.push(queued_of(self.alloc, *asked, text)?)?;
        }
        Ok(requests)
    }

    // Pushes the replies to the requests of the queue, in one run. If memory is refused to the run,
    // no step was taken, and the queue is as it was. One step of it may be refused memory.
    fn run(&mut self, out: &mut String, refused: &mut bool) -> Result<(), Stop> {
        let requests = self.queued()?;
        let db = self.db.as_mut().ok_or(Stop::Unread)?;
        let before = short_of(db);
        let Ok(replies) = db.run(requests) else {
            let same = short_of(db) == before;
            return Err(if same { Stop::NoMemory } else { Stop::Changed });
        };
        let (entries, _, _) = before;
        let entered = db.audit_len().wrapping_sub(entries);
        self.push_run(&replies, entered, out, refused)
    }

    // Pushes the replies of a run that made this many entries.
    fn push_run(
        &mut self,
        replies: &[Reply],
        entered: u64,
        out: &mut String,
        refused: &mut bool,
    ) -> Result<(), Stop> {
        if entered != entered_by(replies) {
            return Err(Stop::Changed);
        }
        if !*refused && replies.iter().any(is_refused) {
            *refused = true;
            return Err(self.amid(replies)?);
        }
        self.ran = self.queue.len();
        push_replies(out, replies)
    }

    // What it is that a step of the run was refused memory: the others have to be as if it had not been asked. That is
    // seen if all that was asked was in runs.
    fn amid(&self, replies: &[Reply]) -> Result<Stop, Stop> {
        if self.asked != self.queue.len() {
            return Ok(Stop::Amid);
        }
        let mut twin: Database = Subject::new(self.alloc);
        self.beside(&mut twin, replies)
    }

    // The same, if the twin is asked, step by step, what this database was asked in runs.
    fn beside(&self, twin: &mut Database, replies: &[Reply]) -> Result<Stop, Stop> {
        let (ran, waiting) = self.queues();
        twin.open_as(&self.opened)?;
        twin.steps(ran)?;
        let is_same = twin.steps_as(waiting, replies)? && self.is_as(twin)?;
        Ok(if is_same { Stop::Amid } else { Stop::Changed })
    }

    // Whether both have the same entries, hardened blocks and epochs.
    fn is_as(&self, other: &Database) -> Result<bool, Stop> {
        Ok(short_of(self.db()?) == short_of(other.db()?))
    }

    // Opens it with the words with which another one was opened.
    fn open_as(&mut self, opened: &str) -> Result<(), Stop> {
        let words: Vec<&str> = opened.split_whitespace().collect(self.alloc)?;
        self.push_open(&words, &mut String::new(self.alloc))
    }

    // Takes each of the requests as a step of its own.
    fn steps(&mut self, queued: &[(usize, String)]) -> Result<(), Stop> {
        for request in queued {
            self.step_queued(request)?;
        }
        Ok(())
    }

    // Takes a request of the queue as a step of its own.
    fn step_queued(&mut self, queued: &(usize, String)) -> Result<Reply, Stop> {
        let (asked, text) = queued;
        let (pass, request) = queued_of(self.alloc, *asked, text)?;
        let db = self.db.as_mut().ok_or(Stop::Unread)?;
        Ok(db.step(pass, request))
    }

    // Takes those of the requests that were not refused memory, each as a step of its own. Whether they are replied so.
    fn steps_as(&mut self, queued: &[(usize, String)], replies: &[Reply]) -> Result<bool, Stop> {
        for (queued, reply) in queued.iter().zip(replies) {
            if !is_refused(reply) && !is_reported(self.alloc, &self.step_queued(queued)?, reply)? {
                return Ok(false);
            }
        }
        Ok(true)
    }

    // Pushes the bytes of the reply to the request that the bytes spell.
    fn bytes(&mut self, words: &[&str], out: &mut String, refused: &mut bool) -> Result<(), Stop> {
        let body = bytes_of(self.alloc, words)?;
        let reply = self.ask(Asked::Body(&body), refused)?;
        push_bytes(out, &encoded_on(self.alloc, &reply, refused)?)
    }

    fn annulled(&self, epoch: &str, lsn: &str, out: &mut String) -> Result<(), Stop> {
        match self.db()?.log().annulled(epoch.parse()?, lsn.parse()?) {
            Some(block) => push_block(out, block),
            None => push_word(out, "none"),
        }
    }

    // Pushes what is read of the database and of its log.
    fn state(&self, words: &[&str], out: &mut String) -> Result<(), Stop> {
        let db = self.db()?;
        match words {
            ["audit"] => push_numbers(out, &[db.audit_len()]),
            ["hard"] => push_numbers(out, &[db.hard()]),
            ["epochs"] => push_epochs(out, db.epochs()),
            ["log"] => push_log(out, db.log()),
            ["in_broker"] => push_numbers(out, &[db.log().in_broker() as u64]),
            ["applied", partition] => {
                push_numbers(out, &[db.pages().applied(partition.parse()?)])
            }
            ["annulled", epoch, lsn] => self.annulled(epoch, lsn, out),
            _ => Err(Stop::Unread),
        }
    }

    // The reply to the request of the words, or to the last of those that they mean.
    fn reply(
        &mut self,
        head: [&str; 4],
        act: &[&str],
        words: &[&str],
        refused: &mut bool,
    ) -> Result<Reply, Stop> {
        match act {
            ["fill", first, last, copy] => self.fill(head, [first, last, copy], refused),
            ["offers", first, last] => self.fill(head, [first, last, ""], refused),
            ["windows", count] => self.harden(head, count.parse()?, refused),
            _ => self.ask(Asked::Words(words), refused),
        }
    }

    // Pushes the answer to a line that begins with the head of a request.
    fn push_answer(
        &mut self,
        words: &[&str],
        out: &mut String,
        refused: &mut bool,
    ) -> Result<(), Stop> {
        let [principal, token, role, epoch, act @ ..] = words else {
            return Err(Stop::Unread);
        };
        let head = [*principal, *token, *role, *epoch];
        match act {
            ["statuses", count] => self.push_statuses(head, count, out, refused),
            ["lines", first, max] => self.push_served(head, [first, max], out, refused),
            _ => push_reply(out, &self.reply(head, act, words, refused)?),
        }
    }
}

// The words, as one text.
fn text_of(alloc: Global, words: &[&str]) -> Result<String, Stop> {
    let mut text = String::new(alloc);
    for word in words {
        push_word(&mut text, word)?;
    }
    Ok(text)
}

// The request of the words that were put into the queue after this many requests, and its pass.
fn queued_of(alloc: Global, asked: usize, text: &str) -> Result<(u64, Request), Stop> {
    let words: Vec<&str> = text.split_whitespace().collect(alloc)?;
    let request = request_of(alloc, DATABASES[asked % 4], &words)?.ok_or(Stop::Unread)?;
    Ok((PASSES[asked % 3], request))
}

// The bytes of the reply.
fn encoded(alloc: Global, reply: &Reply) -> Result<Vec<u8>, Stop> {
    if !reply.fits() {
        return Err(Stop::Unread);
    }
    Ok(encode_reply(alloc, reply)?)
}

// The same, and once more if memory is refused.
fn encoded_on(alloc: Global, reply: &Reply, refused: &mut bool) -> Result<Vec<u8>, Stop> {
    let bytes = encoded(alloc, reply);
    if *refused || !matches!(bytes, Err(Stop::NoMemory)) {
        return bytes;
    }
    *refused = true;
    encoded(alloc, reply)
}

// Whether the request has an entry, by its reply: that of an unknown principal has none.
fn is_entered(reply: &Reply) -> bool {
    !matches!(
        reply,
        Reply::NoMemory
            | Reply::Denied {
                section: Section::A,
                row: 1,
                ..
            }
    )
}

// Whether the reply is that memory was refused.
fn is_refused(reply: &Reply) -> bool {
    matches!(reply, Reply::NoMemory)
}

// Whether both replies have the same bytes.
fn is_reported(alloc: Global, told: &Reply, wanted: &Reply) -> Result<bool, Stop> {
    Ok(encoded(alloc, told)? == encoded(alloc, wanted)?)
}

// How many entries the requests made that were replied so.
fn entered_by(replies: &[Reply]) -> u64 {
    let mut entered: u64 = 0;
    for reply in replies {
        if is_entered(reply) {
            entered = entered.wrapping_add(1);
        }
    }
    entered
}

// Pushes the replies of a run.
fn push_replies(out: &mut String, replies: &[Reply]) -> Result<(), Stop> {
    for reply in replies {
        push_reply(out, reply)?;
        pushed(out.push(';'))?;
    }
    Ok(())
}

fn push_epochs(out: &mut String, epochs: Epochs) -> Result<(), Stop> {
    let Epochs { epoch, primary } = epochs;
    push_numbers(out, &[u64::from(epoch), u64::from(primary)])
}

// Pushes the hardened end, the copies, and how many blocks came from where.
fn push_log(out: &mut String, log: &DbLog) -> Result<(), Stop> {
    let (pending, landing) = log.counts();
    push_numbers(
        out,
        &[log.hard(), u64::from(log.copies()), pending, landing],
    )
}

impl Subject for Database {
    fn new(alloc: Global) -> Database {
        Database {
            alloc,
            db: None,
            opened: String::new(alloc),
            queue: Vec::new(alloc),
            ran: 0,
            asked: 0,
        }
    }

    fn answer(&mut self, words: &[&str], out: &mut String, refused: &mut bool) -> Result<(), Stop> {
        match words {
            ["open", words @ ..] => self.push_open(words, out),
            ["queue", request @ ..] => self.queue(request, out),
            ["run"] => self.run(out, refused),
            ["bytes", body @ ..] => self.bytes(body, out, refused),
            [_, _, _, _, _, ..] => self.push_answer(words, out, refused),
            _ => self.state(words, out),
        }
    }
}
