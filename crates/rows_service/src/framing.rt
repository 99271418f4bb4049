//! Frames, asked line by line.

use crate::pieces::{Feed, Full, Sink, Trouble};
use pl_core::Reply;
use pl_wire::{
    BodyFault, FrameFault, ReplyFault, WriteFault, put_reply, read_body, read_frame, read_head,
    read_reply, write_reply, write_request,
};
use std::alloc::Global;
use transcripts::answer::{push_bytes, push_fault, push_numbers, push_word};
use transcripts::asking::request_of;
use transcripts::codec::bytes_of;
use transcripts::reply_text::{push_reply, reply_of};
use transcripts::transcript::{Stop, Subject};

/// How many bytes a reader gives at once.
const PIECES: [usize; 4] = [1, 2, 3, 5];

/// How many bytes a writer takes at once, and what comes when its room is full.
const WAYS: [(usize, Full); 6] = [
    (1, Full::TakesNone),
    (2, Full::Fails),
    (3, Full::IsInterrupted),
    (5, Full::Fails),
    (usize::MAX, Full::TakesNone),
    (usize::MAX, Full::IsInterrupted),
];

/// How many frames of an input are read at most.
const MOST_FRAMES: u32 = 100;

/// The most bytes that a row writes.
const ROOM: usize = 10_000;

fn push_frame_fault(out: &mut String, fault: FrameFault) -> Result<(), Stop> {
    match fault {
        FrameFault::Short => push_word(out, "Short"),
        FrameFault::TooLong => push_word(out, "TooLong"),
        FrameFault::Io => push_word(out, "Io"),
        FrameFault::NoMemory => Err(Stop::NoMemory),
    }
}

fn push_reply_fault(out: &mut String, fault: ReplyFault) -> Result<(), Stop> {
    match fault {
        ReplyFault::Ended => push_word(out, "Ended"),
        ReplyFault::Frame(fault) => push_frame_fault(out, fault),
        ReplyFault::Body(BodyFault::Malformed(fault)) => push_fault(out, fault.code()),
        ReplyFault::Body(BodyFault::NoMemory) => Err(Stop::NoMemory),
    }
}

// Whether the whole frame was written.
fn is_whole(written: Result<(), WriteFault>) -> Result<bool, Stop> {
    match written {
        Ok(()) => Ok(true),
        Err(WriteFault::Io) => Ok(false),
        Err(WriteFault::NoMemory) => Err(Stop::NoMemory),
    }
}

fn push_body(out: &mut String, body: &[u8]) -> Result<(), Stop> {
    if body.is_empty() {
        return push_word(out, "empty");
    }
    push_bytes(out, body)
}

/// What is read of an input.
#[derive(Drop)]
enum Asked {
    Head(u32),
    Body(u32),
    Frames(u32),
    Replies,
}

/// Reads and writes, each on its own, and the bytes that `send` has put one after the other.
#[derive(Drop)]
pub(crate) struct Frames {
    alloc: Global,
    sent: Vec<u8>,
}

impl Frames {
    fn push_head(&self, limit: u32, feed: &mut Feed, out: &mut String) -> Result<(), Stop> {
        match read_head(feed, limit) {
            Ok(Some(len)) => push_numbers(out, &[u64::from(len)]),
            Ok(None) => push_word(out, "end"),
            Err(fault) => push_frame_fault(out, fault),
        }
    }

    fn push_body_of(&self, len: u32, feed: &mut Feed, out: &mut String) -> Result<(), Stop> {
        match read_body(self.alloc, feed, len) {
            Ok(body) => push_body(out, &body),
            Err(fault) => push_frame_fault(out, fault),
        }
    }

    // Pushes the bodies of the frames, and why there are no more.
    fn push_frames(&self, limit: u32, feed: &mut Feed, out: &mut String) -> Result<(), Stop> {
        for _ in 0..MOST_FRAMES {
            match read_frame(self.alloc, feed, limit) {
                Ok(Some(body)) => push_body(out, &body)?,
                Ok(None) => return push_word(out, "end"),
                Err(fault) => return push_frame_fault(out, fault),
            }
        }
        Err(Stop::Unread)
    }

    // Pushes the replies, and why there are no more.
    fn push_replies(&self, feed: &mut Feed, out: &mut String) -> Result<(), Stop> {
        for _ in 0..MOST_FRAMES {
            match read_reply(self.alloc, feed) {
                Ok(reply) => push_reply(out, &reply)?,
                Err(fault) => return push_reply_fault(out, fault),
            }
        }
        Err(Stop::Unread)
    }

    fn push_asked(&self, asked: &Asked, feed: &mut Feed, out: &mut String) -> Result<(), Stop> {
        match asked {
            Asked::Head(limit) => self.push_head(*limit, feed, out),
            Asked::Body(len) => self.push_body_of(*len, feed, out),
            Asked::Frames(limit) => self.push_frames(*limit, feed, out),
            Asked::Replies => self.push_replies(feed, out),
        }
    }

    // Pushes what is read, and how many bytes are left unread.
    fn push_fed(&self, asked: &Asked, feed: &mut Feed, out: &mut String) -> Result<(), Stop> {
        self.push_asked(asked, feed, out)?;
        push_numbers(out, &[feed.left.len() as u64])?;
        if feed.has_few_reads() {
            Ok(())
        } else {
            Err(Stop::Changed)
        }
    }

    // Whether the same is read of this input, and as many bytes are left unread.
    fn is_read(&self, asked: &Asked, mut feed: Feed, whole: &str) -> Result<bool, Stop> {
        let mut text = String::new(self.alloc);
        self.push_fed(asked, &mut feed, &mut text)?;
        Ok(text.as_str() == whole)
    }

    // Pushes what is read, which is the same in any pieces.
    fn push_read(
        &self,
        asked: &Asked,
        bytes: &[u8],
        trouble: &Trouble,
        out: &mut String,
    ) -> Result<(), Stop> {
        self.push_fed(asked, &mut Feed::new(bytes, usize::MAX, trouble), out)?;
        for piece in PIECES {
            if !self.is_read(asked, Feed::new(bytes, piece, trouble), out.as_str())? {
                return Err(Stop::Changed);
            }
        }
        Ok(())
    }

    fn write_request(&self, words: &[&str], sink: &mut Sink) -> Result<bool, Stop> {
        let request = request_of(self.alloc, 7, words)?.ok_or(Stop::Unread)?;
        is_whole(write_request(self.alloc, sink, &request))
    }

    fn write_reply(&self, words: &[&str], sink: &mut Sink) -> Result<bool, Stop> {
        let reply = reply_of(self.alloc, words)?;
        if !reply.fits() {
            return Err(Stop::Unread);
        }
        is_whole(write_reply(self.alloc, sink, &reply))
    }

    // Whether the whole frame was written.
    fn write(&self, what: &[&str], sink: &mut Sink) -> Result<bool, Stop> {
        match what {
            ["request", words @ ..] => self.write_request(words, sink),
            ["reply", words @ ..] => self.write_reply(words, sink),
            _ => Err(Stop::Unread),
        }
    }

    // A writer with this much room: how many bytes it takes at once, and what comes when the room is full.
    fn sink(&self, room: usize, way: (usize, Full)) -> Result<Sink, Stop> {
        let (at_once, full) = way;
        Ok(Sink {
            held: Vec::with_capacity(self.alloc, ROOM)?,
            at_once,
            room,
            full,
        })
    }

    // Whether this writer holds these bytes in the end, and as much of the frame was written.
    fn holds(&self, what: &[&str], mut sink: Sink, held: &[u8], whole: bool) -> Result<bool, Stop> {
        let as_whole = self.write(what, &mut sink)?;
        Ok(as_whole == whole && sink.held.as_slice() == held)
    }

    // Writes to the sink, and whether the whole frame was written: the same in any pieces, and however a
    // writer stops.
    fn write_on_all(&self, what: &[&str], room: usize, sink: &mut Sink) -> Result<bool, Stop> {
        let whole = self.write(what, sink)?;
        for way in WAYS {
            if !self.holds(what, self.sink(room, way)?, &sink.held, whole)? {
                return Err(Stop::Changed);
            }
        }
        Ok(whole)
    }

    // What a writer with this much room holds in the end, and whether the whole frame was written.
    fn held(&self, what: &[&str], room: usize) -> Result<(Vec<u8>, bool), Stop> {
        let mut sink = self.sink(room, (usize::MAX, Full::Fails))?;
        let whole = self.write_on_all(what, room, &mut sink)?;
        Ok((sink.held, whole))
    }

    // Puts the frame of the reply after what was sent, as it was written elsewhere.
    fn send_reply(&mut self, reply: &Reply, frame: &[u8]) -> Result<(), Stop> {
        if !reply.fits() {
            return Err(Stop::Unread);
        }
        let mut sent = Vec::from_slice(self.alloc, &self.sent)?;
        put_reply(&mut sent, reply)?;
        self.sent.extend_from_slice(frame)?;
        let same = sent.as_slice() == self.sent.as_slice();
        if same { Ok(()) } else { Err(Stop::Changed) }
    }

    // Sends a frame, and pushes how many bytes it has.
    fn send(&mut self, what: &[&str], out: &mut String) -> Result<(), Stop> {
        let (frame, whole) = self.held(what, ROOM)?;
        if !whole {
            return Err(Stop::Changed);
        }
        match what {
            ["reply", words @ ..] => {
                let reply = reply_of(self.alloc, words)?;
                self.send_reply(&reply, &frame)?;
            }
            _ => self.sent.extend_from_slice(&frame)?,
        }
        push_numbers(out, &[frame.len() as u64])
    }

    // Pushes what a writer with this much room holds, and whether that is the whole.
    fn push_stopped(&self, room: usize, what: &[&str], out: &mut String) -> Result<(), Stop> {
        let (held, whole) = self.held(what, room)?;
        push_body(out, &held)?;
        push_word(out, if whole { "whole" } else { "Io" })
    }
}

impl Frames {
    // Pushes what is read of the input that the words spell.
    fn push_input(&self, words: &[&str], trouble: &Trouble, out: &mut String) -> Result<(), Stop> {
        if let ["sent", words @ ..] = words {
            return self.push_sent(words, trouble, out);
        }
        let (asked, bytes) = asked_in(words)?;
        let bytes = bytes_of(self.alloc, bytes)?;
        self.push_read(&asked, &bytes, trouble, out)
    }

    // Pushes what is read of the bytes that were sent.
    fn push_sent(&self, words: &[&str], trouble: &Trouble, out: &mut String) -> Result<(), Stop> {
        let (asked, bytes) = asked_in(words)?;
        if !bytes.is_empty() {
            return Err(Stop::Unread);
        }
        self.push_read(&asked, &self.sent, trouble, out)
    }

    // Pushes how many reads the input takes that gives one byte at once.
    fn push_reads(&self, words: &[&str], out: &mut String) -> Result<(), Stop> {
        let (asked, bytes) = asked_in(words)?;
        let bytes = bytes_of(self.alloc, bytes)?;
        let mut feed = Feed::new(&bytes, 1, &Trouble::Nothing);
        self.push_fed(&asked, &mut feed, &mut String::new(self.alloc))?;
        push_numbers(out, &[feed.reads])
    }
}

// What the words ask to be read, and the words of the input.
fn asked_in<'a, 'b>(words: &'a [&'b str]) -> Result<(Asked, &'a [&'b str]), Stop> {
    match words {
        ["head", limit, bytes @ ..] => Ok((Asked::Head(limit.parse()?), bytes)),
        ["body", len, bytes @ ..] => Ok((Asked::Body(len.parse()?), bytes)),
        ["frames", limit, bytes @ ..] => Ok((Asked::Frames(limit.parse()?), bytes)),
        ["replies", bytes @ ..] => Ok((Asked::Replies, bytes)),
        _ => Err(Stop::Unread),
    }
}

impl Subject for Frames {
    fn new(alloc: Global) -> Frames {
        Frames {
            alloc,
            sent: Vec::new(alloc),
        }
    }

    fn answer(
        &mut self,
        words: &[&str],
        out: &mut String,
        _refused: &mut bool,
    ) -> Result<(), Stop> {
        match words {
            ["send", what @ ..] => self.send(what, out),
            ["room", room, what @ ..] => self.push_stopped(room.parse()?, what, out),
            ["failing", words @ ..] => self.push_input(words, &Trouble::Failure, out),
            ["interrupted", given, words @ ..] => {
                self.push_input(words, &Trouble::Interruption(given.parse()?), out)
            }
            ["reads", words @ ..] => self.push_reads(words, out),
            _ => self.push_input(words, &Trouble::Nothing, out),
        }
    }
}
