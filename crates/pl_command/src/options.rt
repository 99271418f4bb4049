//! The subcommands and options of the program, as `clap` reads them.

ghost use Rattle.std.specs.Prelude.{◌≡◌, false, true, IfOk};
ghost use Rattle.clap.specs.Words.{App, app_of, new_app, rule_of, with_rule, with_subcommand};
ghost use Rattle.pl_command.specs.CommandLine.{ask_app, number_option, number_or, optional_number, own_app, play_app, rule_that, serve_app, text_option, words_option};

use clap::builder::ValueParser;
use clap::{Arg, Command};
use std::alloc::{AllocError, Global};

// The option `--name VALUE`, which is always given.
fn text<'a>(alloc: Global, name: &'a str, value: &'a str, help: &'a str) -> Arg<'a>
    ensures rule { rule_of result ≡ text_option name.entry.now }
    ensures local { result.global ≡ false }
{
    Arg::new(alloc, name)
        .long(name)
        .value_name(value)
        .help(help)
        .required(true)
}

// The option `--name N`, which is always given, with a number of this range.
fn number<'a>(alloc: Global, name: &'a str, least: u32, most: u32, help: &'a str) -> Arg<'a>
    ensures rule { rule_of result ≡ number_option name.entry.now least most }
    ensures local { result.global ≡ false }
{
    let range = ValueParser::Signed(i64::from(least), i64::from(most));
    text(alloc, name, "N", help).value_parser(range)
}

// The option `--name N`, with a number from 0 on, which is this one if it is not given.
fn number_or<'a>(
    alloc: Global,
    default: &'a str,
    name: &'a str,
    most: u32,
    help: &'a str,
) -> Arg<'a>
    ensures rule { rule_of result ≡ number_or default.entry.now name.entry.now most }
    ensures local { result.global ≡ false }
{
    number(alloc, name, 0, most, help)
        .required(false)
        .default_value(default)
}

// The option `--name N`, with a number from 0 on, which may be left out.
fn optional_number<'a>(alloc: Global, name: &'a str, most: u32, help: &'a str) -> Arg<'a>
    ensures rule { rule_of result ≡ optional_number name.entry.now most }
    ensures local { result.global ≡ false }
{
    number(alloc, name, 0, most, help).required(false)
}

// Words after the options, at least one.
fn words<'a>(alloc: Global, name: &'a str, help: &'a str) -> Arg<'a>
    ensures rule { rule_of result ≡ words_option name.entry.now }
    ensures local { result.global ≡ false }
{
    Arg::new(alloc, name)
        .value_name("WORDS")
        .help(help)
        .required(true)
        .num_args(1..)
}

// What an option takes.
#[derive(Clone, Copy)]
enum Takes<'a> {
    // A text, which help calls so.
    Text(&'a str),
    // A number of this range.
    Number(u32, u32),
    // A number from 0 to this one, and the text if the option is not given.
    NumberOr(&'a str, u32),
    // A number from 0 to this one, if the option is given.
    OptionalNumber(u32),
    // The words after all options.
    Words,
}

// The option of this name.
fn option_of<'a>(alloc: Global, name: &'a str, takes: Takes<'a>, help: &'a str) -> Arg<'a>
    ensures rule { rule_of result ≡ rule_that name.entry.now takes.entry }
    ensures local { result.global ≡ false }
{
    match takes {
        Takes::Text(value) => text(alloc, name, value, help),
        Takes::Number(least, most) => number(alloc, name, least, most, help),
        Takes::NumberOr(default, most) => number_or(alloc, default, name, most, help),
        Takes::OptionalNumber(most) => optional_number(alloc, name, most, help),
        Takes::Words => words(alloc, name, help),
    }
}

// A subcommand that is being made. If an allocation failed, it stays so.
#[derive(Drop)]
struct Making<'a> {
    alloc: Global,
    command: Result<Command<'a>, AllocError>,
}

impl<'a> Making<'a> {
    fn new(alloc: Global, name: &'a str, about: &'a str) -> Making<'a>
        ensures app { IfOk result.command (λ c. app_of c ≡ new_app name.entry.now) }
    {
        Making {
            alloc,
            command: Ok(Command::new(alloc, name).about(about)),
        }
    }

    // An option more.
    fn option(self, name: &'a str, takes: Takes<'a>, help: &'a str) -> Making<'a>
        ensures app { (app : App) → IfOk self.entry.command (λ c. app_of c ≡ app) →
            IfOk result.command (λ c.
            app_of c ≡ with_rule app (rule_that name.entry.now takes.entry)) }
    {
        let Making { alloc, command } = self;
        Making {
            alloc,
            command: match command {
                Ok(command) => command.arg(option_of(alloc, name, takes, help)),
                Err(refused) => Err(refused),
            },
        }
    }
}

// What the words of `ask` may be, with this word before the last.
macro_rules! operator_words {
    ($joint:literal) => {
        concat!(
            "status, tidy, audit FIRST MAX, failover ID ",
            $joint,
            " set_table FILE"
        )
    };
}

/// What the words of `ask` may be.
pub const OPERATOR_WORDS: &str = operator_words!("and");

const TABLE: &str = "The file with the text of the table of who may do what";

const PRIMARY: &str = "The id of the first primary";

fn play_command<'a>(alloc: Global) -> Making<'a>
    ensures ok { IfOk result.command (λ c. app_of c ≡ play_app) }
{
    let about = "Answers request bodies, each a line of hexadecimal digits of the standard input";
    Making::new(alloc, "play", about)
        .option("table", Takes::Text("FILE"), TABLE)
        .option("primary", Takes::Number(0, u32::MAX), PRIMARY)
}

fn serve_command<'a>(alloc: Global) -> Making<'a>
    ensures ok { IfOk result.command (λ c. app_of c ≡ serve_app) }
{
    let listen = "The address at which connections are accepted";
    let dbs = "How many databases there are, 1 to 16";
    let workers = "How many threads answer connections, 1 to 64";
    let connections = "How many connections are accepted before the end";
    let audit = "How many entries each audit list holds";
    let pager = "The id of the page server that advances a partition";
    let partition = "The partition that it advances";
    let rounds = "How often it advances the partition of each database";
    let idle_polls = concat!(
        "How often one worker at a time polls again before it sleeps, 0 to 10,000 ",
        "[default: 300, or 0 below three processors]"
    );
    Making::new(alloc, "serve", "Answers the requests of connections")
        .option("listen", Takes::Text("ADDRESS"), listen)
        .option("table", Takes::Text("FILE"), TABLE)
        .option("primary", Takes::Number(0, u32::MAX), PRIMARY)
        .option("dbs", Takes::Number(1, 16), dbs)
        .option("workers", Takes::Number(1, 64), workers)
        .option("connections", Takes::Number(1, u32::MAX), connections)
        .option("audit", Takes::Number(1, 16_777_216), audit)
        .option("pager", Takes::NumberOr("0", u32::MAX), pager)
        .option("partition", Takes::NumberOr("0", 65_535), partition)
        .option("rounds", Takes::NumberOr("0", u32::MAX), rounds)
        .option("idle-polls", Takes::OptionalNumber(10_000), idle_polls)
}

fn ask_command<'a>(alloc: Global) -> Making<'a>
    ensures ok { IfOk result.command (λ c. app_of c ≡ ask_app) }
{
    let about = "Sends one request of an operator, and shows the reply";
    let token = "The operator's token, 32 hexadecimal digits";
    let db = "The number of the database, from 0";
    Making::new(alloc, "ask", about)
        .option("to", Takes::Text("ADDRESS"), "The address of the service")
        .option("id", Takes::Number(0, u32::MAX), "The operator's id")
        .option("token", Takes::Text("HEX"), token)
        .option("db", Takes::Number(0, u32::MAX), db)
        .option("epoch", Takes::Number(0, u32::MAX), "The current epoch")
        .option("words", Takes::Words, operator_words!("or"))
}

// The command with this subcommand.
fn with_sub<'a>(command: Command<'a>, subcommand: Making<'a>) -> Result<Command<'a>, AllocError>
    ensures app { (app sub : App) → app_of command.entry ≡ app →
        IfOk subcommand.entry.command (λ c. app_of c ≡ sub) → sub.top.is_plain ≡ true →
        IfOk result (λ c. app_of c ≡ with_subcommand app sub.top) }
{
    let Making { command: made, .. } = subcommand;
    match made {
        Ok(made) => command.subcommand(made),
        Err(refused) => {
            // By a call: if it went out of scope, its drop would be steps of this function's proof.
            drop(command);
            Err(refused)
        }
    }
}

/// What `--version` prints after the program's name. The version has its one place here.
const VERSION: &str = "0.2.0";

// The program and its subcommands.
pub(crate) fn program<'a>(alloc: Global) -> Result<Command<'a>, AllocError>
    ensures ok { IfOk result (λ c. app_of c ≡ own_app) }
{
    let top = Command::new(alloc, "pagelog")
        .about("A log service for databases")
        .version(VERSION)
        .subcommand_required(true)
        .arg_required_else_help(true);
    let top = with_sub(top, play_command(alloc))?;
    let top = with_sub(top, serve_command(alloc))?;
    with_sub(top, ask_command(alloc))
}
