//! The requests of an operator, named by words.

ghost use Rattle.std.specs.Prelude.{◌≡◌, ℕ, List, [], ◌∷◌, Option, Err, IfOk, IfSome, IfNone, codes, map, string_bytes};
ghost use Rattle.pl_table.specs.declared.requests.act.Act.{Act as ActSeen};
ghost use Rattle.pl_table.specs.Requests.Request.{InRange};
ghost use Rattle.pl_play.specs.Admin.{AskFor, ReadAs, bytes_of, operator_head};

use pl_table::{Act, Head, Request, Role, TableText};
use std::alloc::{AllocError, Global};
use thiserror::Error;

/// Who asks, of which database, and in which epoch.
#[derive(Clone, Copy)]
pub struct Credentials {
    /// The id under which the table lists the operator.
    pub principal: u32,
    /// The operator's secret.
    pub token: [u8; 16],
    /// The number of the database, from 0.
    pub database: u32,
    /// The epoch that the operator takes to be the current one.
    pub epoch: u32,
}

/// Why words give no request.
#[derive(Clone, Copy, Debug, PartialEq, Eq, Error)]
pub enum AdminFault {
    /// The words name no request of an operator, or a number of theirs is out of its range.
    #[error("words")]
    Words,
    /// An allocation failed.
    #[error("no memory")]
    NoMemory,
}

impl From<AllocError> for AdminFault {
    ghost use Rattle.pl_play.specs.declared.operator_words.AdminFault.TheVariants.{NoMemory};

    ghost from_gives = { λ _ e. e ≡ NoMemory };

    fn from(_refused: AllocError) -> AdminFault {
        AdminFault::NoMemory
    }
}

// The act that one word asks for.
fn act_of_one(word: &str) -> Option<Act>
    ensures exact { (text : Option (List ℕ)) → ReadAs (word.now ∷ []) text result }
{
    match word {
        "status" => Some(Act::Status),
        "tidy" => Some(Act::Tidy),
        _ => None,
    }
}

// A failover to the principal of this id.
fn failover_to(id: &str) -> Option<Act>
    ensures exact { (word : List ℕ) (text : Option (List ℕ)) → word ≡ codes "failover" →
        ReadAs (word ∷ id.now ∷ []) text result }
{
    let primary = id.parse().ok()?;
    Some(Act::Failover { primary })
}

// The audit of this many entries from the first on.
fn audit_of(first: &str, max: &str) -> Option<Act>
    ensures exact { (word : List ℕ) (text : Option (List ℕ)) → word ≡ codes "audit" →
        ReadAs (word ∷ first.now ∷ max.now ∷ []) text result }
{
    let first = first.parse().ok()?;
    let max = max.parse().ok()?;
    Some(Act::Audit { first, max })
}

// The act that three words ask for.
fn act_of_three(word: &str, first: &str, max: &str) -> Option<Act>
    ensures exact { (text : Option (List ℕ)) →
        ReadAs (word.now ∷ first.now ∷ max.now ∷ []) text result }
{
    match word {
        "audit" => audit_of(first, max),
        _ => None,
    }
}

// The set_table of this text.
fn table_of(alloc: Global, text: Option<Vec<u8>>) -> Result<Option<Act>, AllocError>
    ensures exact { IfOk result (λ act. (file : List ℕ) →
        ReadAs (codes "set_table" ∷ file ∷ []) (bytes_of text) act) }
{
    let Some(text) = text else {
        return Ok(None);
    };
    let text = TableText::new(alloc, text)?;
    Ok(Some(Act::SetTable { text }))
}

// The act that two words ask for.
fn act_of_two(
    alloc: Global,
    word: &str,
    argument: &str,
    text: Option<Vec<u8>>,
) -> Result<Option<Act>, AllocError>
    ensures exact { IfOk result (ReadAs (word.now ∷ argument.now ∷ []) (bytes_of text)) }
{
    match word {
        "failover" => Ok(failover_to(argument)),
        "set_table" => table_of(alloc, text),
        _ => Ok(None),
    }
}

// The act that the words ask for.
fn act_of(alloc: Global, words: &[String], text: Option<Vec<u8>>) -> Result<Option<Act>, AllocError>
    ensures exact { IfOk result (ReadAs (map string_bytes words.now) (bytes_of text)) }
{
    match words {
        [word] => Ok(act_of_one(word.as_str())),
        [word, argument] => act_of_two(alloc, word.as_str(), argument.as_str(), text),
        [word, first, max] => Ok(act_of_three(word.as_str(), first.as_str(), max.as_str())),
        _ => Ok(None),
    }
}

/// The request that an operator's words ask for: `status`, `tidy`, `audit FIRST MAX`, `failover ID`
/// or `set_table FILE`, where `text` is what the file has.
///
/// `Words` comes if the words are none of these, a number is not a decimal number of its width or is
/// out of its range, the text of `set_table` is missing or has more than 65,506 bytes. A text that
/// is not a table is asked for all the same: the database denies it.
pub fn admin(
    alloc: Global,
    credentials: Credentials,
    words: &[String],
    text: Option<Vec<u8>>,
) -> Result<Request, AdminFault>
    // The request has the credentials, as operator.
    ensures head { IfOk result (λ q. q.head ≡ operator_head credentials) }
    // The act is the one that the words ask for (`AskFor`).
    ensures act { IfOk result (λ q. AskFor (map string_bytes words.now) (bytes_of text) q.act) }
    // `Words` comes only if no act in its ranges is asked for.
    ensures words { result ≡ Err AdminFault.Words → (act : ActSeen) → InRange act →
        AskFor (map string_bytes words.now) (bytes_of text) act → ⊥ }
{
    let act = act_of(alloc, words, text)?.ok_or(AdminFault::Words)?;
    let Credentials {
        principal,
        token,
        database,
        epoch,
    } = credentials;
    let head = Head {
        principal,
        token,
        role: Role::Operator,
        database,
        epoch,
    };
    Request::new(head, act).ok_or(AdminFault::Words)
}
