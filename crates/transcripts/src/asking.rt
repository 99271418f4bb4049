//! The request of a line: `PRINCIPAL TOKEN ROLE EPOCH`, and the act with its arguments.

use crate::block_text::block_of;
use crate::table_text::text_named;
use crate::transcript::Stop;
use pl_table::{Act, Head, Op, Request, Role, TableText};
use std::alloc::Global;

// The 16 bytes of 32 hexadecimal digits, or of one byte that is repeated.
fn token_of(word: &str) -> Result<[u8; 16], Stop> {
    if word.len() == 2 {
        return Ok([u8::from_str_radix(word, 16)?; 16]);
    }
    let mut token = [0; 16];
    hex::decode_to_slice(word, &mut token)?;
    Ok(token)
}

/// The head of the words, for the database of this number.
pub fn head_of(database: u32, words: [&str; 4]) -> Result<Head, Stop> {
    let [principal, token, role, epoch] = words;
    Ok(Head {
        principal: principal.parse()?,
        token: token_of(token)?,
        role: Role::of_name(role).ok_or(Stop::Unread)?,
        database,
        epoch: epoch.parse()?,
    })
}

// The act of the words.
fn act_of(alloc: Global, words: &[&str]) -> Result<Act, Stop> {
    let [name, arguments @ ..] = words else {
        return Err(Stop::Unread);
    };
    match Op::of_name(name).ok_or(Stop::Unread)? {
        Op::Write => write_of(alloc, arguments),
        Op::Offer => offer_of(alloc, arguments),
        Op::Report => report_of(arguments),
        Op::Get => get_of(arguments),
        Op::Pull => pull_of(arguments),
        Op::Advance => advance_of(arguments),
        Op::Failover => failover_of(arguments),
        Op::SetTable => set_table_of(alloc, arguments),
        Op::Audit => audit_of(arguments),
        Op::Status if arguments.is_empty() => Ok(Act::Status),
        Op::Tidy if arguments.is_empty() => Ok(Act::Tidy),
        Op::Status | Op::Tidy => Err(Stop::Unread),
    }
}

fn write_of(alloc: Global, words: &[&str]) -> Result<Act, Stop> {
    let [block, copy] = words else {
        return Err(Stop::Unread);
    };
    let copy = copy.parse()?;
    let block = block_of(alloc, block)?;
    Ok(Act::Write { copy, block })
}

fn offer_of(alloc: Global, words: &[&str]) -> Result<Act, Stop> {
    let [block] = words else {
        return Err(Stop::Unread);
    };
    let block = block_of(alloc, block)?;
    Ok(Act::Offer { block })
}

fn report_of(words: &[&str]) -> Result<Act, Stop> {
    let [lsn] = words else {
        return Err(Stop::Unread);
    };
    Ok(Act::Report { lsn: lsn.parse()? })
}

fn get_of(words: &[&str]) -> Result<Act, Stop> {
    let [page, lsn, exact @ ..] = words else {
        return Err(Stop::Unread);
    };
    let is_exact = match exact {
        [] => false,
        ["exact"] => true,
        _ => return Err(Stop::Unread),
    };
    Ok(Act::Get {
        page: page.parse()?,
        lsn: lsn.parse()?,
        exact: is_exact,
    })
}

fn pull_of(words: &[&str]) -> Result<Act, Stop> {
    let [lo, hi, lsn, max] = words else {
        return Err(Stop::Unread);
    };
    Ok(Act::Pull {
        lo: lo.parse()?,
        hi: hi.parse()?,
        lsn: lsn.parse()?,
        max: max.parse()?,
    })
}

fn advance_of(words: &[&str]) -> Result<Act, Stop> {
    let [partition, steps] = words else {
        return Err(Stop::Unread);
    };
    Ok(Act::Advance {
        partition: partition.parse()?,
        steps: steps.parse()?,
    })
}

fn failover_of(words: &[&str]) -> Result<Act, Stop> {
    let [primary] = words else {
        return Err(Stop::Unread);
    };
    Ok(Act::Failover {
        primary: primary.parse()?,
    })
}

// The text of a name, or of this many spaces.
fn text_of(alloc: Global, words: &[&str]) -> Result<Vec<u8>, Stop> {
    match words {
        [name] => text_named(alloc, name),
        ["spaces", count] => Ok(vec![in alloc; b' '; count.parse()?]?),
        _ => Err(Stop::Unread),
    }
}

fn set_table_of(alloc: Global, words: &[&str]) -> Result<Act, Stop> {
    let text = TableText::new(alloc, text_of(alloc, words)?)?;
    Ok(Act::SetTable { text })
}

fn audit_of(words: &[&str]) -> Result<Act, Stop> {
    let [first, max] = words else {
        return Err(Stop::Unread);
    };
    Ok(Act::Audit {
        first: first.parse()?,
        max: max.parse()?,
    })
}

/// The request of the words, or `None` if a number of the act is out of its range.
pub fn request_of(alloc: Global, database: u32, words: &[&str]) -> Result<Option<Request>, Stop> {
    let [principal, token, role, epoch, act @ ..] = words else {
        return Err(Stop::Unread);
    };
    let head = head_of(database, [principal, token, role, epoch])?;
    Ok(Request::new(head, act_of(alloc, act)?))
}
