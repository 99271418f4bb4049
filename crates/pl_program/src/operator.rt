//! One request of an operator, asked of a service.

ghost use Rattle.std.specs.Prelude.{◌≡◌, ◌∷◌, [], codes, Ok, IfErr, IfOk, IfSome, IsErr, IsNone, map, string_bytes};
ghost use Rattle.hex.specs.Hex.{decode_sized};
ghost use Rattle.pl_program.specs.Operator.{ends, Exchanged, StopsExchange};

use crate::run_fault::RunFault;
use pl_core::Reply;
use pl_play::Credentials;
use pl_table::Request;
use pl_wire::{read_reply, write_request};
use std::alloc::Global;
use std::io::{Read, Write};

/// The bytes of a token.
const TOKEN_BYTES: usize = 16;

/// The credentials with the token that a text spells, two hexadecimal digits a byte, in either case.
/// `Words` if it does not have 32 digits.
pub fn credentials_of(
    principal: u32,
    token: &str,
    database: u32,
    epoch: u32,
) -> Result<Credentials, RunFault>
    // The token is the one that 32 hexadecimal digits spell.
    ensures token { IfOk result (λ c. decode_sized token.now 16 ≡ Ok c.token) }
    // The id, database and epoch are those given.
    ensures others { IfOk result (λ c.
        (c.principal ≡ principal) × (c.database ≡ database) × (c.epoch ≡ epoch)) }
    // The fault is `Words`, and the token is not 32 hexadecimal digits.
    ensures err { IfErr result (λ fault. (fault ≡ RunFault.Words)
        × IsErr (decode_sized token.now 16)) }
{
    let mut bytes = [0; TOKEN_BYTES];
    if hex::decode_to_slice(token.as_bytes(), &mut bytes).is_err() {
        return Err(RunFault::Words);
    }
    Ok(Credentials {
        principal,
        token: bytes,
        database,
        epoch,
    })
}

// The second of two words, if the first is `set_table`.
fn file_after<'a>(word: &str, file: &'a str) -> Option<&'a str>
    ensures some { IfSome result (λ found.
        word.now ∷ file.entry.now ∷ [] ≡ codes "set_table" ∷ found.now ∷ []) }
    ensures none { IsNone result → (found : _) →
        word.now ∷ file.entry.now ∷ [] ≡ codes "set_table" ∷ found ∷ [] → ⊥ }
{
    if word == "set_table" {
        Some(file)
    } else {
        None
    }
}

/// The file whose text the words need: that of `set_table FILE`.
pub fn file_of(words: &[String]) -> Option<&str>
    // The file of `set_table FILE`.
    ensures some { IfSome result (λ file.
        map string_bytes words.now ≡ codes "set_table" ∷ file.now ∷ []) }
    // The words are not `set_table FILE`.
    ensures none { IsNone result → (file : _) →
        map string_bytes words.now ≡ codes "set_table" ∷ file ∷ [] → ⊥ }
{
    match words {
        [word, file] => file_after(word.as_str(), file.as_str()),
        _ => None,
    }
}

/// Writes the request, and reads the reply to it.
///
/// An error says which of the two failed, and how: see [`RunFault`].
pub fn exchange<R: Read, W: Write>(
    alloc: Global,
    reader: &mut R,
    writer: &mut W,
    request: &Request,
) -> Result<Reply, RunFault>
    // The request's frame is written, and then the reply's is read.
    ensures ok { IfOk result (Exchanged request.now
        (ends (R.remaining reader.old) (W.contents writer.old))
        (ends (R.remaining reader.new) (W.contents writer.new))) }
    // The error says which of them failed, and what was written and read by then.
    ensures err { IfErr result (StopsExchange request.now
        (ends (R.remaining reader.old) (W.contents writer.old))
        (ends (R.remaining reader.new) (W.contents writer.new))) }
{
    write_request(alloc, writer, request)?;
    Ok(read_reply(alloc, reader)?)
}
