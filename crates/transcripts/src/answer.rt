//! Answers: words, each with a space in front of it.

use crate::transcript::{Stop, pushed};

/// The least run of equal bytes that is one word.
const LONG_RUN: usize = 64;

/// Pushes the word.
pub fn push_word(out: &mut String, word: &str) -> Result<(), Stop> {
    pushed(write!(out, " {word}"))
}

/// Pushes each number.
pub fn push_numbers(out: &mut String, numbers: &[u64]) -> Result<(), Stop> {
    for number in numbers {
        write!(out, " {number}")?;
    }
    Ok(())
}

/// Pushes `true` or `false`.
pub fn push_truth(out: &mut String, truth: bool) -> Result<(), Stop> {
    push_word(out, if truth { "true" } else { "false" })
}

/// Pushes a fault's code, as `fault 1`.
pub fn push_fault(out: &mut String, code: u8) -> Result<(), Stop> {
    pushed(write!(out, " fault {code}"))
}

// Pushes this many equal bytes.
fn push_run(out: &mut String, byte: u8, count: usize) -> Result<(), Stop> {
    if LONG_RUN <= count {
        return pushed(write!(out, " {count}*{byte:02x} "));
    }
    for _ in 0..count {
        write!(out, "{byte:02x}")?;
    }
    Ok(())
}

/// Pushes the bytes as one word of hexadecimal digits, with a word `COUNT*BYTE` in its midst where 64
/// or more equal bytes follow one another.
pub fn push_bytes(out: &mut String, bytes: &[u8]) -> Result<(), Stop> {
    out.push(' ')?;
    let (mut last, mut count) = (0, 0);
    for byte in bytes {
        if *byte != last {
            push_run(out, last, count)?;
            (last, count) = (*byte, 0);
        }
        count = count.wrapping_add(1);
    }
    push_run(out, last, count)
}
