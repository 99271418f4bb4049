//! The arguments of the program.

use clap::builder::ValueParser;
use clap::{Arg, ArgMatches, Command};
use std::alloc::{AllocError, AllocGlobal, Global};
use std::rt::Env;
use std::{env, io};

/// What `--version` prints after the program's name.
const VERSION: &str = "0.2.0";

const ABOUT: &str = "Says whether a trail is of the audit list of a database";

/// What the arguments ask for.
#[derive(Drop)]
pub(crate) enum Asked {
    /// To show this text.
    Help {
        text: String,
    },
    /// To verify a trail.
    Verify {
        /// The file of the table that the database began with.
        table: String,
        /// The first primary.
        primary: u32,
        /// The file of the trail.
        trail: String,
    },
}

/// Why the arguments ask for nothing.
#[derive(Drop)]
pub(crate) enum Unasked {
    /// A usage error, of this text.
    Usage(String),
    /// An allocation failed, or the arguments could not be read.
    NoMemory,
}

impl From<AllocError> for Unasked {
    fn from(_refused: AllocError) -> Unasked {
        Unasked::NoMemory
    }
}

impl From<io::Error> for Unasked {
    fn from(_error: io::Error) -> Unasked {
        Unasked::NoMemory
    }
}

// The option `--name VALUE`.
fn option<'a>(alloc: Global, name: &'a str, value: &'a str, help: &'a str) -> Arg<'a> {
    Arg::new(alloc, name)
        .long(name)
        .value_name(value)
        .help(help)
        .required(true)
}

// The program, as `clap` reads it.
fn program<'a>(alloc: Global) -> Result<Command<'a>, AllocError> {
    let table = "The file with the text of the table that the database began with";
    let primary = "The id of the first primary";
    let trail = "The file of the trail, which pagelogctl trail --export writes";
    let number = ValueParser::Signed(0, i64::from(u32::MAX));
    Command::new(alloc, "pagelog-verify")
        .about(ABOUT)
        .version(VERSION)
        .arg(option(alloc, "table", "FILE", table))?
        .arg(option(alloc, "primary", "N", primary).value_parser(number))?
        .arg(option(alloc, "trail", "FILE", trail))
}

// What was found of the options.
fn found(alloc: Global, matches: &ArgMatches<'_>) -> Result<Option<Asked>, AllocError> {
    let (Some(table), Some(trail)) = (matches.get_str("table"), matches.get_str("trail")) else {
        return Ok(None);
    };
    let Some(primary) = matches.get_one::<u32>("primary") else {
        return Ok(None);
    };
    Ok(Some(Asked::Verify {
        table: String::from_str(alloc, table)?,
        primary,
        trail: String::from_str(alloc, trail)?,
    }))
}

// What the words ask for.
fn asked_by(alloc: Global, words: &[String]) -> Result<Asked, Unasked> {
    let mut program = program(alloc)?;
    let matched = program.try_get_matches_from_mut(words);
    match matched {
        Ok(matches) => found(alloc, &matches)?.ok_or(Unasked::NoMemory),
        Err(error) => {
            let text = error.to_string(alloc)?;
            if error.use_stderr() {
                return Err(Unasked::Usage(text));
            }
            Ok(Asked::Help { text })
        }
    }
}

/// What the arguments of the process ask for.
pub(crate) fn read_arguments(rt: &(impl Env + AllocGlobal)) -> Result<Asked, Unasked> {
    let words: Vec<String> = env::args(rt)?.collect(rt.alloc())?;
    asked_by(rt.alloc(), words.as_slice())
}
