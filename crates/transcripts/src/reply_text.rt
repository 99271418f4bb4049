//! Replies and verdicts as words, and replies the other way round.

use crate::answer::{push_numbers, push_word};
use crate::block_text::{block_of, push_blocks};
use crate::line_text::{line_of, push_lines, section_of};
use crate::transcript::{Stop, pushed};
use pl_core::{Blocks, Lines, PageBytes, Reply};
use pl_table::{Section, Verdict};
use std::alloc::Global;

/// The letter of a section.
pub(crate) fn letter(section: Section) -> char {
    match section {
        Section::A => 'A',
        Section::B => 'B',
        Section::C => 'C',
    }
}

// Pushes a denial, as `Denied C1 0`.
fn push_denial(out: &mut String, section: Section, row: u16, value: u64) -> Result<(), Stop> {
    let letter = letter(section);
    pushed(write!(out, " Denied {letter}{row} {value}"))
}

/// Pushes the verdict.
pub fn push_verdict(out: &mut String, verdict: Verdict) -> Result<(), Stop> {
    match verdict {
        Verdict::Allowed => push_word(out, "Allowed"),
        Verdict::Denied {
            section,
            row,
            value,
        } => push_denial(out, section, row, value),
    }
}

// Pushes the LSN of the page, and each byte that is not 0 with its offset, as `Page 2 aa+0 ee+8191`.
fn push_page(out: &mut String, at: u64, bytes: &[u8]) -> Result<(), Stop> {
    pushed(write!(out, " Page {at}"))?;
    for (offset, byte) in bytes.iter().enumerate() {
        if *byte != 0 {
            write!(out, " {byte:02x}+{offset}")?;
        }
    }
    Ok(())
}

/// Pushes the reply, as `Done` or `Blocks 2 1:aa`.
pub fn push_reply(out: &mut String, reply: &Reply) -> Result<(), Stop> {
    match reply {
        Reply::Done => push_word(out, "Done"),
        Reply::Blocks { next, blocks } => {
            pushed(write!(out, " Blocks {next}"))?;
            push_blocks(out, blocks.as_slice())
        }
        Reply::Page { at, bytes } => push_page(out, *at, bytes.as_slice()),
        Reply::Entries { lines } => {
            push_word(out, "Entries")?;
            push_lines(out, lines.as_slice())
        }
        Reply::Status {
            epoch,
            primary,
            hard,
            pending,
            landing,
        } => {
            push_word(out, "Status")?;
            let (epoch, primary) = (u64::from(*epoch), u64::from(*primary));
            push_numbers(out, &[epoch, primary, *hard, *pending, *landing])
        }
        Reply::Denied {
            section,
            row,
            value,
        } => push_denial(out, *section, *row, *value),
        Reply::NoMemory => push_word(out, "NoMemory"),
        Reply::AuditFull => push_word(out, "AuditFull"),
        Reply::Spent => push_word(out, "Spent"),
        Reply::NoDatabase => push_word(out, "NoDatabase"),
        Reply::Malformed { code } => { pushed(write!(out, " Malformed {code}")) }
    }
}

// The blocks of the words.
fn blocks_of(alloc: Global, words: &[&str]) -> Result<Blocks, Stop> {
    let mut blocks = Vec::new(alloc);
    for word in words {
        blocks.push(block_of(alloc, word)?)?;
    }
    Ok(Blocks::new(blocks))
}

// A page of this many bytes, which are 0 but for those of the words, `BYTE+OFFSET`.
fn page_of(alloc: Global, len: usize, words: &[&str]) -> Result<PageBytes, Stop> {
    let mut bytes = vec![in alloc; 0; len]?;
    for word in words {
        let (byte, offset) = word.split_once('+').ok_or(Stop::Unread)?;
        let offset: usize = offset.parse()?;
        let place = bytes.get_mut(offset).ok_or(Stop::Unread)?;
        *place = u8::from_str_radix(byte, 16)?;
    }
    Ok(PageBytes::new(bytes))
}

// The lines of the words, all of them this many times over.
fn lines_of(alloc: Global, times: usize, words: &[&str]) -> Result<Lines, Stop> {
    let mut lines = Vec::new(alloc);
    for _ in 0..times {
        for word in words {
            lines.push(line_of(alloc, word)?)?;
        }
    }
    Ok(Lines::new(lines))
}

fn denied_of(words: &[&str]) -> Result<Reply, Stop> {
    let [place, value] = words else {
        return Err(Stop::Unread);
    };
    let (section, row) = section_of(place).ok_or(Stop::Unread)?;
    Ok(Reply::Denied {
        section,
        row: row.parse()?,
        value: value.parse()?,
    })
}

fn status_of(words: &[&str]) -> Result<Reply, Stop> {
    let [epoch, primary, hard, pending, landing] = words else {
        return Err(Stop::Unread);
    };
    Ok(Reply::Status {
        epoch: epoch.parse()?,
        primary: primary.parse()?,
        hard: hard.parse()?,
        pending: pending.parse()?,
        landing: landing.parse()?,
    })
}

fn served_of(alloc: Global, words: &[&str]) -> Result<Reply, Stop> {
    let [next, blocks @ ..] = words else {
        return Err(Stop::Unread);
    };
    let next = next.parse()?;
    let blocks = blocks_of(alloc, blocks)?;
    Ok(Reply::Blocks { next, blocks })
}

fn page_reply_of(alloc: Global, words: &[&str]) -> Result<Reply, Stop> {
    let [at, bytes @ ..] = words else {
        return Err(Stop::Unread);
    };
    let at = at.parse()?;
    let bytes = match bytes {
        ["of", len] => page_of(alloc, len.parse()?, &[])?,
        _ => page_of(alloc, 8_192, bytes)?,
    };
    Ok(Reply::Page { at, bytes })
}

fn entries_of(alloc: Global, words: &[&str]) -> Result<Reply, Stop> {
    let lines = match words {
        ["times", times, lines @ ..] => lines_of(alloc, times.parse()?, lines)?,
        _ => lines_of(alloc, 1, words)?,
    };
    Ok(Reply::Entries { lines })
}

// The reply that is one word, or has one number.
fn short_reply_of(name: &str, words: &[&str]) -> Result<Reply, Stop> {
    match words {
        [] => plain_reply(name).ok_or(Stop::Unread),
        [code] if name == "Malformed" => Ok(Reply::Malformed {
            code: code.parse()?,
        }),
        _ => Err(Stop::Unread),
    }
}

/// The reply of the words.
pub fn reply_of(alloc: Global, words: &[&str]) -> Result<Reply, Stop> {
    let [name, words @ ..] = words else {
        return Err(Stop::Unread);
    };
    match *name {
        "Blocks" => served_of(alloc, words),
        "Page" => page_reply_of(alloc, words),
        "Entries" => entries_of(alloc, words),
        "Status" => status_of(words),
        "Denied" => denied_of(words),
        name => short_reply_of(name, words),
    }
}

fn plain_reply(word: &str) -> Option<Reply> {
    match word {
        "Done" => Some(Reply::Done),
        "NoMemory" => Some(Reply::NoMemory),
        "AuditFull" => Some(Reply::AuditFull),
        "Spent" => Some(Reply::Spent),
        "NoDatabase" => Some(Reply::NoDatabase),
        _ => None,
    }
}
