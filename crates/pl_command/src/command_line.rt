//! What the arguments of the program ask for, read with `clap`.

ghost use Rattle.std.specs.Prelude.{◌≡◌, ◌≢◌, ◌⊎◌, true, Some, None, codes, IfErr, IfOk, IfSome, IsErr, IsNone, map, string_bytes};
ghost use Rattle.clap.specs.Words.{IsAmong, app_of, fault_of, found_of, kind_of, rows_of, subcommand_of, subcommand_rows_of, takes};
ghost use Rattle.pl_command.specs.CommandLine.{AsksFor, GivesAsk, GivesNumber, GivesPlay, GivesServe, GivesWords, Has, HasNumber, HasNumbers, HasWords, IsWholeCommand, IsHelp, IsUsage, MayGiveNumber, MayHaveNumber, Names, own_app};

use crate::options::program;
use clap::error::ErrorKind;
use clap::{ArgMatches, Command};
use std::alloc::{AllocError, Global};
use thiserror::Error;

/// What the arguments ask for.
#[derive(Debug, Drop, PartialEq, Eq)]
pub enum CommandLine {
    /// `help`, `--help` or `-h` where an option may be given, or `--version` or `-V`: show this text.
    Help {
        text: String,
    },
    /// `play`: answer the lines of the standard input.
    Play {
        /// The file with the text of the table.
        table: String,
        /// The id of the first primary.
        primary: u32,
    },
    /// `serve`: answer the requests of connections.
    Serve {
        /// The address at which connections are accepted.
        listen: String,
        /// The file with the text of the table, which each database begins with.
        table: String,
        /// Its numbers.
        numbers: ServeNumbers,
    },
    /// `ask`: send one request of an operator, and show the reply.
    Ask {
        /// The address that is asked.
        to: String,
        /// The operator's id.
        id: u32,
        /// The operator's token, which is yet to be read.
        token: String,
        /// The number of the database.
        db: u32,
        /// The epoch that the operator takes to be the current one.
        epoch: u32,
        /// What is asked for, at least one word.
        words: Vec<String>,
    },
}

/// The numbers among the options of `serve`.
#[derive(Clone, Copy, Debug, PartialEq, Eq)]
pub struct ServeNumbers {
    /// The id of the first primary.
    pub primary: u32,
    /// How many databases there are, 1 to 16.
    pub dbs: u32,
    /// How many threads answer connections, 1 to 64.
    pub workers: u32,
    /// How many connections are accepted before the end, at least 1.
    pub connections: u32,
    /// How many entries the audit list of a database holds, 1 to 16,777,216.
    pub audit: u32,
    /// The principal that advances a partition as page server, if `rounds` is not 0.
    pub pager: u32,
    /// The partition that it advances.
    pub partition: u16,
    /// How often it advances the partition of each database.
    pub rounds: u32,
    /// How often one worker at a time polls its sockets again before it sleeps, 0 to 10,000. `None` leaves it to the program.
    pub idle_polls: Option<u32>,
}

/// Why the arguments ask for nothing.
#[derive(Debug, Drop, PartialEq, Eq, Error)]
pub enum CommandFault {
    /// A usage error: no subcommand, an option that is missing or unknown, a value that an option
    /// does not take, or an argument that is not UTF-8. The text says which, and ends in a line feed.
    #[error("{0}")]
    Usage(String),
    /// An allocation failed.
    #[error("no memory")]
    NoMemory,
}

impl From<AllocError> for CommandFault {
    ghost use Rattle.pl_command.specs.declared.command_line.CommandFault.TheVariants.{NoMemory};

    ghost from_gives = { λ _ e. e ≡ NoMemory };

    fn from(_refused: AllocError) -> CommandFault {
        CommandFault::NoMemory
    }
}

// The number that was found for this option, if it is in the range.
fn number_of(found: &ArgMatches<'_>, name: &str, least: u32, most: u32) -> Option<u32>
    ensures some { IfSome result (HasNumber (rows_of (found_of found.now)) name.now least most) }
    ensures none { IsNone result →
        GivesNumber (rows_of (found_of found.now)) name.now least most → ⊥ }
{
    let number = found.get_one::<u32>(name)?;
    if number < least || most < number {
        return None;
    }
    Some(number)
}

// The number that was found for this option, if it is in the range, or `Some(None)` if the option was left out.
fn number_if_given(found: &ArgMatches<'_>, name: &str, least: u32, most: u32) -> Option<Option<u32>>
    ensures some { IfSome result
        (MayHaveNumber (rows_of (found_of found.now)) name.now least most) }
    ensures none { IsNone result →
        MayGiveNumber (rows_of (found_of found.now)) name.now least most → ⊥ }
{
    match found.get_str(name) {
        Some(_) => Some(Some(number_of(found, name, least, most)?)),
        None => Some(None),
    }
}

// The words that were found.
fn words_of(alloc: Global, found: &ArgMatches<'_>) -> Result<Option<Vec<String>>, AllocError>
    ensures ok { IfOk result (λ words. IfSome words (λ words.
        HasWords (rows_of (found_of found.now)) (map string_bytes words.items))) }
    ensures none { IfOk result (λ words. IsNone words →
        GivesWords (rows_of (found_of found.now)) → ⊥) }
{
    let Some(given) = found.get_strs("words") else {
        return Ok(None);
    };
    let mut words = Vec::new(alloc);
    for word in given {
        words.push(String::from_str(alloc, word)?)?;
    }
    Ok(Some(words))
}

fn play_of(alloc: Global, found: &ArgMatches<'_>) -> Result<Option<CommandLine>, AllocError>
    ensures ok { IfOk result (λ line. IfSome line
        (Has (codes "play") (rows_of (found_of found.now)))) }
    ensures none { IfOk result (λ line. IsNone line →
        GivesPlay (rows_of (found_of found.now)) → ⊥) }
{
    let Some(table) = found.get_str("table") else {
        return Ok(None);
    };
    let Some(primary) = number_of(found, "primary", 0, u32::MAX) else {
        return Ok(None);
    };
    let table = String::from_str(alloc, table)?;
    Ok(Some(CommandLine::Play { table, primary }))
}

// The numbers of `serve`, if each is in its range.
fn serve_numbers(found: &ArgMatches<'_>) -> Option<ServeNumbers>
    ensures some { IfSome result (HasNumbers (rows_of (found_of found.now))) }
    ensures none { IsNone result → GivesServe (rows_of (found_of found.now)) → ⊥ }
{
    Some(ServeNumbers {
        primary: number_of(found, "primary", 0, u32::MAX)?,
        dbs: number_of(found, "dbs", 1, 16)?,
        workers: number_of(found, "workers", 1, 64)?,
        connections: number_of(found, "connections", 1, u32::MAX)?,
        audit: number_of(found, "audit", 1, 16_777_216)?,
        pager: number_of(found, "pager", 0, u32::MAX)?,
        partition: number_of(found, "partition", 0, 65_535)? as u16,
        rounds: number_of(found, "rounds", 0, u32::MAX)?,
        idle_polls: number_if_given(found, "idle-polls", 0, 10_000)?,
    })
}

fn serve_of(alloc: Global, found: &ArgMatches<'_>) -> Result<Option<CommandLine>, AllocError>
    ensures ok { IfOk result (λ line. IfSome line
        (Has (codes "serve") (rows_of (found_of found.now)))) }
    ensures none { IfOk result (λ line. IsNone line →
        GivesServe (rows_of (found_of found.now)) → ⊥) }
{
    let (Some(listen), Some(table)) = (found.get_str("listen"), found.get_str("table")) else {
        return Ok(None);
    };
    let Some(numbers) = serve_numbers(found) else {
        return Ok(None);
    };
    Ok(Some(CommandLine::Serve {
        listen: String::from_str(alloc, listen)?,
        table: String::from_str(alloc, table)?,
        numbers,
    }))
}

fn ask_of(alloc: Global, found: &ArgMatches<'_>) -> Result<Option<CommandLine>, AllocError>
    ensures ok { IfOk result (λ line. IfSome line
        (Has (codes "ask") (rows_of (found_of found.now)))) }
    ensures none { IfOk result (λ line. IsNone line →
        GivesAsk (rows_of (found_of found.now)) → ⊥) }
{
    let (Some(to), Some(token)) = (found.get_str("to"), found.get_str("token")) else {
        return Ok(None);
    };
    let Some(id) = number_of(found, "id", 0, u32::MAX) else {
        return Ok(None);
    };
    let Some(db) = number_of(found, "db", 0, u32::MAX) else {
        return Ok(None);
    };
    let Some(epoch) = number_of(found, "epoch", 0, u32::MAX) else {
        return Ok(None);
    };
    let Some(words) = words_of(alloc, found)? else {
        return Ok(None);
    };
    let to = String::from_str(alloc, to)?;
    let token = String::from_str(alloc, token)?;
    Ok(Some(CommandLine::Ask {
        to,
        id,
        token,
        db,
        epoch,
        words,
    }))
}

// The subcommand that was matched, with its options.
fn line_of(alloc: Global, matches: &ArgMatches<'_>) -> Result<Option<CommandLine>, AllocError>
    ensures ok { IfOk result (λ line. IfSome line (Names (subcommand_rows_of matches.now))) }
    ensures none { IfOk result (λ line. IsNone line →
        IsWholeCommand (subcommand_rows_of matches.now) → ⊥) }
{
    if let Some(play) = matches.subcommand_matches("play") {
        return play_of(alloc, play);
    }
    if let Some(serve) = matches.subcommand_matches("serve") {
        return serve_of(alloc, serve);
    }
    if let Some(ask) = matches.subcommand_matches("ask") {
        return ask_of(alloc, ask);
    }
    Ok(None)
}

// What the arguments ask for, if `clap` matches them.
fn match_arguments<'a>(
    alloc: Global,
    program: &mut Command<'a>,
    arguments: &'a [String],
) -> Result<Option<CommandLine>, clap::Error>
    requires { app_of program.old ≡ own_app }
    ensures ok { IfOk result (λ line. IfSome line
        (Names (subcommand_of own_app (map string_bytes arguments.entry.now)))) }
    ensures none { IfOk result (λ line. IsNone line →
        takes own_app (map string_bytes arguments.entry.now) ≢ true) }
    ensures usage { IfErr result (λ error.
        takes own_app (map string_bytes arguments.entry.now) ≡ true →
        kind_of error ≡ ErrorKind.OutOfMemory) }
    ensures help { IfErr result (λ error. kind_of error ≡ ErrorKind.DisplayHelp →
        IsAmong ErrorKind.DisplayHelp
        (fault_of own_app (map string_bytes arguments.entry.now))) }
    ensures version { IfErr result (λ error. kind_of error ≡ ErrorKind.DisplayVersion →
        IsAmong ErrorKind.DisplayVersion
        (fault_of own_app (map string_bytes arguments.entry.now))) }
{
    let matches = program.try_get_matches_from_mut(arguments)?;
    Ok(line_of(alloc, &matches)?)
}

// What arguments that were not matched ask for: `clap` reports a request for help or for the version as an error.
fn outcome_of(alloc: Global, error: &clap::Error) -> Result<CommandLine, CommandFault>
    ensures help { IfOk result (λ line. IsHelp line × ((kind_of error.now ≡ ErrorKind.DisplayHelp)
        ⊎ (kind_of error.now ≡ ErrorKind.DisplayVersion))) }
    ensures usage { IfErr result (λ fault. IsUsage fault →
        (kind_of error.now ≢ ErrorKind.DisplayHelp)
        × (kind_of error.now ≢ ErrorKind.DisplayVersion)
        × (kind_of error.now ≢ ErrorKind.OutOfMemory)) }
{
    if error.kind() == ErrorKind::OutOfMemory {
        return Err(CommandFault::NoMemory);
    }
    let text = error.to_string(alloc)?;
    if !error.use_stderr() {
        return Ok(CommandLine::Help { text });
    }
    Err(CommandFault::Usage(text))
}

// The fault of arguments that `clap` took and that have not all options. It refuses such itself.
fn missing(alloc: Global, program: &mut Command<'_>) -> Result<CommandLine, CommandFault>
    ensures err { IsErr result }
{
    let error = program.error(ErrorKind::MissingRequiredArgument, "an option is missing")?;
    outcome_of(alloc, &error)
}

// What the arguments ask of the program.
fn asked_of<'a>(
    alloc: Global,
    program: &mut Command<'a>,
    arguments: &'a [String],
) -> Result<CommandLine, CommandFault>
    requires { app_of program.old ≡ own_app }
    ensures ok { IfOk result (AsksFor (map string_bytes arguments.entry.now)) }
    ensures usage { IfErr result (λ fault. IsUsage fault →
        takes own_app (map string_bytes arguments.entry.now) ≢ true) }
{
    match match_arguments(alloc, program, arguments) {
        Ok(Some(line)) => Ok(line),
        Ok(None) => missing(alloc, program),
        Err(error) => outcome_of(alloc, &error),
    }
}

/// What the arguments ask for, the first of which is the program's name.
///
/// `Usage` comes if `clap` does not take them, and `NoMemory` if an allocation failed.
pub fn command(alloc: Global, arguments: Vec<String>) -> Result<CommandLine, CommandFault>
    // What is asked for follows from the arguments (`AsksFor`), and each number is in its range.
    ensures ok { IfOk result (AsksFor (map string_bytes arguments.items)) }
    // Arguments that `clap` takes are never a usage error.
    ensures usage { IfErr result (λ fault. IsUsage fault →
        takes own_app (map string_bytes arguments.items) ≢ true) }
{
    let mut program = program(alloc)?;
    let asked = asked_of(alloc, &mut program, arguments.as_slice());
    // By a call: if it went out of scope, its drop would be steps of this function's proof.
    drop(program);
    asked
}
