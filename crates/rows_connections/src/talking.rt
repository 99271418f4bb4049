//! Conversations of which each line has a request and its reply: over one caller's gate and over a
//! desk, in any pieces.

ghost use Rattle.std.specs.Prelude.{IfOk};
ghost use Rattle.std.specs.List.{All};
ghost use Rattle.pl_conn.specs.Desks.{ArePassesOf};

use crate::conversations::{dbs_of, one_pass};
use crate::memory::{Input, Output, check, ended_in_refusal, is_refused};
use pl_conn::{Desks, Gate, Passes, Solo, converse};
use pl_core::Reply;
use pl_wire::{ReplyFault, encode_request, put_reply, read_reply};
use std::alloc::{AllocGlobal, Global};
use std::io::Eprint;
use std::sync::Wait;
use transcripts::asking::request_of;
use transcripts::codec::bytes_of;
use transcripts::reply_text::reply_of;
use transcripts::transcript::Stop;

/// As many turns as a desk may have.
pub(crate) const TURNS: u64 = 1 << 62;

/// How many bytes come at once, and are written at once.
pub(crate) const PIECES: [usize; 4] = [1, 61, 4_096, usize::MAX];

/// The frames of the requests of a text, and of their replies.
#[derive(Drop)]
pub(crate) struct Told {
    pub(crate) requests: Vec<u8>,
    pub(crate) replies: Vec<u8>,
    pub(crate) count: u64,
}

// The line for the number: `BLOCK` is the block of the number with a Put of one byte, the number too,
// and `LARGE` the block of 32,768 bytes with nothing but that byte.
fn line_for(alloc: Global, line: &str, number: u64) -> Result<String, Stop> {
    let byte = number % 256;
    let block = format!(in alloc; "{number}:{byte:02x}")?;
    let large = format!(in alloc;
        "{number}:8192*{byte:02x},8192*{byte:02x},8192*{byte:02x},8142*{byte:02x}"
    )?;
    let line = line.replace(alloc, "BLOCK", &block)?;
    Ok(line.replace(alloc, "LARGE", &large)?)
}

// The numbers that a line is for, and the line after them. `FIRST..LAST | LINE` is for one
// line of each number.
fn numbers_of(line: &str) -> Result<(u64, u64, &str), Stop> {
    let Some((numbers, line)) = line.split_once('|') else {
        return Ok((0, 0, line));
    };
    let (first, last) = numbers.trim().split_once("..").ok_or(Stop::Unread)?;
    Ok((first.parse()?, last.parse()?, line))
}

/// The body of the words, `body BYTES` or a request, or `database NUMBER` and a request.
pub(crate) fn body_of(alloc: Global, words: &[&str]) -> Result<Vec<u8>, Stop> {
    let (database, words) = match words {
        ["body", bytes @ ..] => return bytes_of(alloc, bytes),
        ["database", number, words @ ..] => (number.parse()?, words),
        words => (0, words),
    };
    let request = request_of(alloc, database, words)?.ok_or(Stop::Unread)?;
    Ok(encode_request(alloc, &request)?)
}

// Puts the frame of the body after the others.
pub(crate) fn push_frame(frames: &mut Vec<u8>, body: &[u8]) -> Result<(), Stop> {
    let Ok(len) = u32::try_from(body.len()) else {
        return Err(Stop::Unread);
    };
    frames.extend_from_slice(&len.to_be_bytes())?;
    Ok(frames.extend_from_slice(body)?)
}

// The words of the lines of this many statuses of principal 2, the first of a database.
fn statuses(alloc: Global, count: u64) -> Result<String, Stop> {
    let mut text = String::new(alloc);
    text.push_str("Entries")?;
    for number in 1..=count {
        write!(text, " {number}/1/2/primary/1/status/0/0/allowed")?;
    }
    Ok(text)
}

// The reply of the words.
fn wanted_of(alloc: Global, words: &[&str]) -> Result<Reply, Stop> {
    if let ["Statuses", count] = words {
        let text = statuses(alloc, count.parse()?)?;
        let words: Vec<&str> = text.split_whitespace().collect(alloc)?;
        return reply_of(alloc, &words);
    }
    reply_of(alloc, words)
}

impl Told {
    fn new(alloc: Global) -> Told {
        Told {
            requests: Vec::new(alloc),
            replies: Vec::new(alloc),
            count: 0,
        }
    }

    fn push_request(&mut self, alloc: Global, asked: &str) -> Result<(), Stop> {
        let words: Vec<&str> = asked.split_whitespace().collect(alloc)?;
        let body = body_of(alloc, &words)?;
        self.count = self.count.saturating_add(1);
        push_frame(&mut self.requests, &body)
    }

    fn push_wanted(&mut self, alloc: Global, wanted: &str) -> Result<(), Stop> {
        let words: Vec<&str> = wanted.split_whitespace().collect(alloc)?;
        let reply = wanted_of(alloc, &words)?;
        self.push_reply(&reply)
    }

    // Puts the frames of a line after the others.
    fn push(&mut self, alloc: Global, line: &str) -> Result<(), Stop> {
        let (asked, wanted) = line.split_once('=').ok_or(Stop::Unread)?;
        self.push_request(alloc, asked)?;
        self.push_wanted(alloc, wanted)
    }

    fn push_reply(&mut self, reply: &Reply) -> Result<(), Stop> {
        if !reply.fits() {
            return Err(Stop::Unread);
        }
        Ok(put_reply(&mut self.replies, reply)?)
    }

    // Puts the frames of a line for each of its numbers after the others.
    fn push_each(&mut self, alloc: Global, line: &str) -> Result<(), Stop> {
        let (first, last, line) = numbers_of(line)?;
        for number in first..=last {
            self.push(alloc, &line_for(alloc, line, number)?)?;
        }
        Ok(())
    }
}

/// What a text says.
pub(crate) fn told_by(alloc: Global, text: &str) -> Result<Told, Stop> {
    let mut told = Told::new(alloc);
    for line in text.lines() {
        if !line.starts_with('#') {
            told.push_each(alloc, line)?;
        }
    }
    Ok(told)
}

/// Whether the reply is written as those bytes.
pub(crate) fn is_spelled(alloc: Global, reply: &Reply, bytes: &[u8]) -> Result<bool, Stop> {
    if !reply.fits() {
        return Ok(false);
    }
    let mut again = Vec::new(alloc);
    put_reply(&mut again, reply)?;
    Ok(again.as_slice() == bytes)
}

/// What comes of a reply that is not read.
pub(crate) fn wrong_or_refused(fault: ReplyFault) -> Result<bool, Stop> {
    if is_refused(fault) {
        Err(Stop::NoMemory)
    } else {
        Ok(false)
    }
}

// Reads the next reply, and whether it is the next of those wanted.
fn is_next(alloc: Global, output: &mut &[u8], wanted: &mut &[u8]) -> Result<bool, Stop> {
    let (before, hoped) = (*output, *wanted);
    let reply = match read_reply(alloc, output) {
        Ok(Reply::NoMemory) => return Err(Stop::NoMemory),
        Ok(reply) => reply,
        Err(fault) => return wrong_or_refused(fault),
    };
    let len = before.len().saturating_sub(output.len()).min(hoped.len());
    let (frame, rest) = hoped.split_at(len);
    *wanted = rest;
    Ok(before.starts_with(frame) && is_spelled(alloc, &reply, frame)?)
}

// The number of the first reply that is not the one wanted.
fn first_wrong(alloc: Global, output: &[u8], told: &Told) -> Result<Option<u64>, Stop> {
    let (mut output, mut wanted) = (output, told.replies.as_slice());
    for number in 1..=told.count {
        if !is_next(alloc, &mut output, &mut wanted)? {
            return Ok(Some(number));
        }
    }
    check(output.is_empty() && wanted.is_empty())?;
    Ok(None)
}

// Holds the conversation in pieces of this many bytes, and gives the number of the first wrong reply.
fn converses<G: Gate>(
    alloc: Global,
    told: &Told,
    at_once: usize,
    gate: &G,
    pass: &mut G::Pass,
) -> Result<Option<u64>, Stop>
    requires own { G.owns gate.now pass.old }
    ensures own { G.owns gate.now pass.new }
{
    let mut reader = Input {
        left: &told.requests,
        at_once,
        fails: false,
    };
    let mut output = Output::new(alloc, at_once, usize::MAX);
    let end = converse(alloc, &mut reader, &mut output, gate, pass);
    if ended_in_refusal(&end) || output.tells_refusal(alloc) {
        return Err(Stop::NoMemory);
    }
    let wrong = first_wrong(alloc, output.taken(), told)?;
    if wrong.is_none() {
        check(matches!(end, Ok(count) if count == told.count))?;
    }
    Ok(wrong)
}

fn converses_alone(alloc: Global, told: &Told, at_once: usize) -> Result<Option<u64>, Stop> {
    let mut pass = one_pass(alloc)?;
    converses(alloc, told, at_once, &Solo, &mut pass)
}

/// The last of the passes.
pub(crate) fn last_of<R>(desks: &Desks<R>, passes: &mut Vec<Passes>) -> Result<Passes, Stop>
    requires of { All (ArePassesOf desks.now) passes.old.items }
    ensures last { IfOk result (λ pass. ArePassesOf desks.now pass) }
    ensures of { All (ArePassesOf desks.now) passes.new.items }
{
    passes.pop().ok_or(Stop::Unread)
}

fn converses_with_last<R: Wait>(
    alloc: Global,
    told: &Told,
    at_once: usize,
    desks: &Desks<R>,
    mut passes: Vec<Passes>,
) -> Result<Option<u64>, Stop>
    requires of { All (ArePassesOf desks.now) passes.items }
{
    let mut pass = last_of(desks, &mut passes)?;
    converses(alloc, told, at_once, desks, &mut pass)
}

fn converses_at_desk<R: Wait + Drop>(
    rt: R,
    alloc: Global,
    told: &Told,
    at_once: usize,
) -> Result<Option<u64>, Stop> {
    let (desks, passes) = Desks::new(alloc, rt, dbs_of(alloc, 1)?, 1, TURNS)?;
    converses_with_last(alloc, told, at_once, &desks, passes)
}

// Both conversations in pieces of this many bytes.
fn converses_twice<R: Wait + Drop>(
    rt: R,
    alloc: Global,
    told: &Told,
    at_once: usize,
) -> Result<Option<u64>, Stop> {
    let alone = converses_alone(alloc, told, at_once)?;
    if alone.is_some() {
        return Ok(alone);
    }
    converses_at_desk(rt, alloc, told, at_once)
}

fn first_wrong_of<R: Wait + Drop + Copy>(
    rt: R,
    alloc: Global,
    text: &str,
    pieces: &[usize],
) -> Result<Option<u64>, Stop> {
    let told = told_by(alloc, text)?;
    for at_once in pieces {
        let wrong = converses_twice(rt, alloc, &told, *at_once)?;
        if wrong.is_some() {
            return Ok(wrong);
        }
    }
    Ok(None)
}

/// Whether each request of the text is answered as it says, in a conversation with a fresh database,
/// over one caller's gate and over a desk, in each of these pieces. What is wrong is printed to standard
/// error. The conversation is held from the beginning, once, if memory was refused.
pub(crate) fn converses_as<R: AllocGlobal + Eprint + Wait + Drop + Copy>(
    rt: R,
    text: &str,
    pieces: &[usize],
) -> bool {
    let mut wrong = first_wrong_of(rt, rt.alloc(), text, pieces);
    if matches!(wrong, Err(Stop::NoMemory)) {
        wrong = first_wrong_of(rt, rt.alloc(), text, pieces);
    }
    let _is_printed = match wrong {
        Ok(None) => return true,
        Ok(Some(number)) => eprintln!(rt; "the reply to frame {number}"),
        Err(Stop::NoMemory) => eprintln!(rt; "out of memory twice"),
        Err(_) => eprintln!(rt; "the conversation ended otherwise, or the text is not read"),
    };
    false
}
