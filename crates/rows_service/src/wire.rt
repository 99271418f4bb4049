//! Requests and replies as bytes, asked line by line.

use pl_core::Reply;
use pl_table::{Act, Head, Request, TableText};
use pl_wire::{BodyFault, decode_reply, decode_request, encode_reply, encode_request};
use std::alloc::Global;
use transcripts::answer::{push_bytes, push_fault, push_numbers, push_word};
use transcripts::asking::request_of;
use transcripts::block_text::push_block;
use transcripts::codec::bytes_of;
use transcripts::reply_text::{push_reply, reply_of};
use transcripts::table_text::text_named;
use transcripts::transcript::{Stop, Subject};

/// The calls on bodies, each on its own.
#[derive(Drop)]
pub(crate) struct Wire {
    alloc: Global,
}

// Pushes a text's length, and how many rows it reads as or its fault's code.
fn push_text(out: &mut String, text: &TableText) -> Result<(), Stop> {
    push_word(out, "set_table")?;
    push_numbers(out, &[text.text().len() as u64])?;
    match text.reading() {
        Ok(table) => {
            push_word(out, "rows")?;
            push_numbers(out, &[table.rows().len() as u64])
        }
        Err(fault) => push_fault(out, fault.code()),
    }
}

// Pushes the act as a line of a transcript has it.
fn push_act(out: &mut String, act: &Act) -> Result<(), Stop> {
    if let Act::SetTable { text } = act {
        return push_text(out, text);
    }
    push_word(out, act.op().name())?;
    match act {
        Act::Write { copy, block } => {
            push_block(out, block)?;
            push_numbers(out, &[u64::from(*copy)])
        }
        Act::Offer { block } => push_block(out, block),
        Act::Report { lsn } => push_numbers(out, &[*lsn]),
        Act::Get { page, lsn, exact } => {
            push_numbers(out, &[u64::from(*page), *lsn])?;
            if *exact {
                push_word(out, "exact")?;
            }
            Ok(())
        }
        Act::Pull { lo, hi, lsn, max } => {
            let partitions = [u64::from(*lo), u64::from(*hi)];
            push_numbers(out, &partitions)?;
            push_numbers(out, &[*lsn, u64::from(*max)])
        }
        Act::Advance { partition, steps } => {
            push_numbers(out, &[u64::from(*partition), u64::from(*steps)])
        }
        Act::Failover { primary } => push_numbers(out, &[u64::from(*primary)]),
        Act::Audit { first, max } => push_numbers(out, &[*first, u64::from(*max)]),
        _ => Ok(()),
    }
}

// Pushes the head, with its database in front of its epoch.
fn push_head(out: &mut String, head: &Head) -> Result<(), Stop> {
    push_numbers(out, &[u64::from(head.principal)])?;
    push_bytes(out, &head.token)?;
    push_word(out, head.role.name())?;
    push_numbers(out, &[u64::from(head.database), u64::from(head.epoch)])
}

// The bytes of an act's arguments.
fn arguments_of(alloc: Global, words: &[&str]) -> Result<Vec<u8>, Stop> {
    match words {
        ["text", name] => text_named(alloc, name),
        _ => bytes_of(alloc, words),
    }
}

// Puts the bytes of an act's arguments after the others.
fn push_arguments(alloc: Global, body: &mut Vec<u8>, words: &[&str]) -> Result<(), Stop> {
    let arguments = arguments_of(alloc, words)?;
    Ok(body.extend_from_slice(&arguments)?)
}

impl Wire {
    // The body of 2, of database 0 and epoch 1, with the role, the operation and the arguments.
    fn body_of(&self, words: &[&str]) -> Result<Vec<u8>, Stop> {
        let [role, op, arguments @ ..] = words else {
            return Err(Stop::Unread);
        };
        let fixed = [role.parse()?, 0, 0, 0, 0, 0, 0, 0, 1, op.parse()?];
        let mut body = bytes_of(self.alloc, &["00000002", "16*22"])?;
        body.extend_from_slice(&fixed)?;
        push_arguments(self.alloc, &mut body, arguments)?;
        Ok(body)
    }

    // Whether the request is written as these bytes.
    fn is_written_as(&self, request: &Request, body: &[u8]) -> Result<bool, Stop> {
        let again = encode_request(self.alloc, request)?;
        Ok(again.as_slice() == body)
    }

    // Pushes the request that the bytes spelled, all of it or its act, and it is written as these bytes again.
    fn push_asked(
        &self,
        request: Request,
        body: &[u8],
        out: &mut String,
        whole: bool,
    ) -> Result<(), Stop> {
        if !self.is_written_as(&request, body)? {
            return Err(Stop::Changed);
        }
        if whole {
            push_request(out, request)
        } else {
            push_act(out, request.act())
        }
    }

    // Pushes the request that the bytes spell, all of it or its act, or their fault's code.
    fn push_request_in(&self, body: &[u8], out: &mut String, whole: bool) -> Result<(), Stop> {
        match decode_request(self.alloc, body) {
            Ok(request) => self.push_asked(request, body, out, whole),
            Err(BodyFault::Malformed(fault)) => push_fault(out, fault.code()),
            Err(BodyFault::NoMemory) => Err(Stop::NoMemory),
        }
    }

    // Pushes the bytes of the request.
    fn push_spelling(&self, request: &Request, out: &mut String) -> Result<(), Stop> {
        let body = encode_request(self.alloc, request)?;
        push_bytes(out, &body)
    }

    // Pushes the bytes of the request of the words, which is of database 7.
    fn push_body_of(&self, words: &[&str], out: &mut String) -> Result<(), Stop> {
        match request_of(self.alloc, 7, words)? {
            Some(request) => self.push_spelling(&request, out),
            None => Err(Stop::Unread),
        }
    }

    // Whether the reply, which was read, is written as these bytes.
    fn is_spelled(&self, reply: &Reply, bytes: &[u8]) -> Result<bool, Stop> {
        if !reply.fits() {
            return Ok(false);
        }
        let again = encode_reply(self.alloc, reply)?;
        Ok(again.as_slice() == bytes)
    }

    // Whether the bytes are read as a reply that is written as they are.
    fn goes_round(&self, bytes: &[u8]) -> Result<bool, Stop> {
        match decode_reply(self.alloc, bytes) {
            Ok(reply) => self.is_spelled(&reply, bytes),
            Err(BodyFault::NoMemory) => Err(Stop::NoMemory),
            Err(BodyFault::Malformed(_)) => Ok(false),
        }
    }

    // Pushes the bytes of the reply, or how many these are. They are read as it again.
    fn push_spelled(&self, reply: &Reply, out: &mut String, whole: bool) -> Result<(), Stop> {
        if !reply.fits() {
            return push_word(out, "does not fit");
        }
        let bytes = encode_reply(self.alloc, reply)?;
        if !self.goes_round(&bytes)? {
            return Err(Stop::Changed);
        }
        if whole {
            push_bytes(out, &bytes)
        } else {
            push_numbers(out, &[bytes.len() as u64])
        }
    }

    // The same of the reply of the words.
    fn push_reply_of(&self, words: &[&str], out: &mut String, whole: bool) -> Result<(), Stop> {
        let reply = reply_of(self.alloc, words)?;
        self.push_spelled(&reply, out, whole)
    }

    // Pushes the reply that the bytes spell, or their fault's code.
    fn push_reply_in(&self, body: &[u8], out: &mut String) -> Result<(), Stop> {
        match decode_reply(self.alloc, body) {
            Ok(reply) => push_reply(out, &reply),
            Err(BodyFault::Malformed(fault)) => push_fault(out, fault.code()),
            Err(BodyFault::NoMemory) => Err(Stop::NoMemory),
        }
    }
}

// Pushes the parts of a request.
fn push_parts(out: &mut String, head: &Head, act: &Act) -> Result<(), Stop> {
    push_head(out, head)?;
    push_act(out, act)
}

// Pushes the parts of a request, of which the head is the one that it lends.
fn push_request(out: &mut String, request: Request) -> Result<(), Stop> {
    let asks = *request.head();
    let (head, act) = request.into_parts();
    if asks != head {
        return Err(Stop::Changed);
    }
    push_parts(out, &head, &act)
}

impl Subject for Wire {
    fn new(alloc: Global) -> Wire {
        Wire { alloc }
    }

    fn answer(
        &mut self,
        words: &[&str],
        out: &mut String,
        _refused: &mut bool,
    ) -> Result<(), Stop> {
        let [name, words @ ..] = words else {
            return Err(Stop::Unread);
        };
        match *name {
            "act" => self.push_request_in(&self.body_of(words)?, out, false),
            "body" => self.push_request_in(&bytes_of(self.alloc, words)?, out, true),
            "request" => self.push_body_of(words, out),
            "reply" => self.push_reply_of(words, out, true),
            "size" => self.push_reply_of(words, out, false),
            "answer" => self.push_reply_in(&bytes_of(self.alloc, words)?, out),
            _ => Err(Stop::Unread),
        }
    }
}
