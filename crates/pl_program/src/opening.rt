//! What `serve` begins with: its databases, and its page server.

ghost use Rattle.std.specs.Prelude.{◌≡◌, ◌≤◌, ◌⊎◌, Err, Ok, IfErr, IfOk, vec_len};
ghost use Rattle.std.specs.List.{All};
ghost use Rattle.pl_play.specs.Start.{start_of};
ghost use Rattle.pl_program.specs.Service.{pager_in, token_for};

use pl_command::ServeNumbers;
use pl_conn::PageServer;
use pl_core::Db;
use pl_play::{StartFault, start_db};
use pl_table::read_table;
use std::alloc::Global;

// A database with the table that the text writes down.
fn begin(alloc: Global, text: &[u8], primary: u32, audit: u32) -> Result<Db, StartFault>
    requires { 1 ≤ audit }
    ensures ok { IfOk result (λ db. start_of text.now primary audit ≡ Ok db) }
    ensures err { IfErr result (λ fault. (fault ≡ StartFault.NoMemory)
        ⊎ (start_of text.now primary audit ≡ Err fault)) }
{
    start_db(alloc, text, primary, u64::from(audit))
}

/// This many databases, each with the table that the text writes down and this primary, and with an
/// audit list of at most this many entries. Of several faults the text's comes first.
pub fn databases_of(
    alloc: Global,
    text: &[u8],
    primary: u32,
    audit: u32,
    count: u32,
) -> Result<Vec<Db>, StartFault>
    // The limit is at least 1.
    requires { 1 ≤ audit }
    // This many databases.
    ensures count { IfOk result (λ dbs. vec_len dbs ≡ count) }
    // Each has the table of the text, that primary and that limit of its audit list.
    ensures each { IfOk result (λ dbs. All (λ db. start_of text.now primary audit ≡ Ok db)
        dbs.items) }
    // The first fault of these, or `NoMemory`.
    ensures err { IfErr result (λ fault. (fault ≡ StartFault.NoMemory)
        ⊎ (start_of text.now primary audit ≡ Err fault)) }
{
    let mut dbs = Vec::new(alloc);
    for _ in 0..count {
        let db = begin(alloc, text, primary, audit)?;
        match dbs.push(db) {
            Ok(()) => {}
            Err(_) => return Err(StartFault::NoMemory),
        }
    }
    Ok(dbs)
}

/// The token that the table of this text lists for the principal. `NotListed` if it lists none.
pub fn token_of(alloc: Global, text: &[u8], principal: u32) -> Result<[u8; 16], StartFault>
    // The token that the table of the text lists for the principal, or the first fault, or
    // `NoMemory`.
    ensures value { (result ≡ Err StartFault.NoMemory) ⊎ (result ≡ token_for text.now principal) }
{
    read_table(alloc, text)?
        .token(principal)
        .ok_or(StartFault::NotListed)
}

/// The page server of a service with the table of this text: `None` of no rounds, else one with the token
/// that the table lists for the pager.
pub fn pager_of(
    alloc: Global,
    text: &[u8],
    numbers: ServeNumbers,
) -> Result<Option<PageServer>, StartFault>
    // The page server of these numbers, with the token that the table lists for it; `None` of no
    // rounds; or the first fault, or `NoMemory`.
    ensures value { (result ≡ Err StartFault.NoMemory) ⊎ (result ≡ pager_in text.now numbers) }
{
    if numbers.rounds == 0 {
        return Ok(None);
    }
    Ok(Some(PageServer {
        principal: numbers.pager,
        token: token_of(alloc, text, numbers.pager)?,
        partition: numbers.partition,
        rounds: numbers.rounds,
    }))
}

/// What a service begins with.
#[derive(Drop)]
pub struct Opening {
    /// Its databases, by their numbers from 0 on.
    pub dbs: Vec<Db>,
    /// Its page server, if it has one.
    pub pager: Option<PageServer>,
}

/// What a service with the table of this text begins with: this many databases as the numbers say, each with
/// their primary and an audit list of at most as many entries as they say, and their page server.
pub fn opening_of(alloc: Global, text: &[u8], numbers: ServeNumbers) -> Result<Opening, StartFault>
    // The limit is at least 1.
    requires { 1 ≤ numbers.audit }
    // This many databases.
    ensures count { IfOk result (λ o. vec_len o.dbs ≡ numbers.dbs) }
    // Each has the table of the text, and the primary and the limit of its audit list that the
    // numbers say.
    ensures each { IfOk result (λ o. All (λ db.
        start_of text.now numbers.primary numbers.audit ≡ Ok db) o.dbs.items) }
    // Their page server, if the numbers ask for one.
    ensures pager { IfOk result (λ o. pager_in text.now numbers ≡ Ok o.pager) }
    // A fault of these, or `NoMemory`.
    ensures err { IfErr result (λ fault. (fault ≡ StartFault.NoMemory)
        ⊎ ((start_of text.now numbers.primary numbers.audit ≡ Err fault)
        ⊎ (pager_in text.now numbers ≡ Err fault))) }
{
    let ServeNumbers {
        primary,
        audit,
        dbs,
        ..
    } = numbers;
    let dbs = databases_of(alloc, text, primary, audit, dbs)?;
    let pager = pager_of(alloc, text, numbers)?;
    Ok(Opening { dbs, pager })
}
