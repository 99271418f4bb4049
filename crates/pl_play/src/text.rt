//! Lines as hexadecimal text of bodies.

ghost use Rattle.std.specs.Prelude.{◌≡◌, IfOk, IsErr, IfErr, Ok};
ghost use Rattle.hex.specs.Hex.{decode_of};
ghost use Rattle.pl_play.specs.Text.{hex_fault_at, line_text};

use crate::fault::PlayFault;
use hex::FromHexError;
use std::alloc::{AllocError, Global};

/// Why a line gives no body.
#[derive(Clone, Copy, Debug, PartialEq, Eq)]
pub enum HexFault {
    /// An odd number of digits, or a byte that is not a digit.
    Text,
    /// An allocation failed.
    NoMemory,
}

impl HexFault {
    /// The fault of `play` at the line of this number.
    pub(crate) fn at_line(self, number: u64) -> PlayFault
        // Which fault of `play` it is, at the line of this number.
        ensures value { result ≡ hex_fault_at self number }
    {
        match self {
            HexFault::Text => PlayFault::Text(number),
            HexFault::NoMemory => PlayFault::NoMemory,
        }
    }
}

/// The bytes that a line spells, two digits a byte, in either case.
pub fn bytes_of_line(alloc: Global, line: &[u8]) -> Result<Vec<u8>, HexFault>
    // The bytes that the digits spell.
    ensures ok { IfOk result (λ body. decode_of line.now ≡ Ok body.items) }
    // `Text` comes only if they spell none.
    ensures err { IfErr result (λ fault. fault ≡ HexFault.Text → IsErr (decode_of line.now)) }
{
    match hex::decode(alloc, line) {
        Ok(body) => Ok(body),
        Err(FromHexError::OutOfMemory) => Err(HexFault::NoMemory),
        Err(_) => Err(HexFault::Text),
    }
}

/// The line that a body is written as: digits in lower case, and a line feed. One
/// allocation, of as many bytes as the line has.
pub(crate) fn line_of_bytes(alloc: Global, body: &[u8]) -> Result<Vec<u8>, AllocError>
    ensures value { IfOk result (λ line. line.items ≡ line_text body.now) }
{
    let count = 2 * body.len();
    let mut line = vec![in alloc; b'\n'; count + 1]?;
    let (digits, _feed) = line.split_at_mut(count);
    hex::encode_to_slice(body, digits).unwrap();
    Ok(line)
}
