ghost use Rattle.std.specs.Prelude.{◌≡◌, IfOk, map, option_map, string_bytes};
ghost use Rattle.clap.specs.Words.{first_of, found_of, rows_of, subcommand_rows_of};
ghost use Rattle.wd_command.specs.Command.{asked_in, asked_of, command, given, is_on, is_one, is_serve, run, verb_of};
ghost use Rattle.wd_command.specs.Command.{wish, wish_of};

use crate::notice::Notice;
use crate::program::program;
use clap::ArgMatches;
use clap::error::ErrorKind;
use std::alloc::Global;
use wd_base::NoMemory;

/// What a command does.
#[derive(Clone, Copy, Debug, PartialEq, Eq)]
pub enum Verb {
    /// Serves the sockets of a configuration.
    Serve,
    /// Reads and links a configuration and starts its scripts, and serves nothing.
    Check,
}

/// A command line, without the program's own name.
#[derive(Clone, Copy, Debug)]
pub struct CommandLine<'a> {
    pub verb: Verb,
    /// The path of the configuration.
    pub config: &'a str,
    /// The name of the constant that is the configuration, where one is named.
    pub constant: Option<&'a str>,
}

/// What the words of a command line ask for.
#[derive(Clone, Copy, Debug)]
pub enum Asks<'a> {
    /// A command.
    Run(CommandLine<'a>),
    /// No command: a text is shown.
    Show(Notice),
}

/// What the words ask for, without the program's own name: `serve <config> [<const>] [--threads 1]`,
/// `check <config> [<const>]`, `--help` alone or with a command, or `--version`. Options may stand
/// anywhere behind the command; a word behind `--` is no option.
#[tactic(auto, unfolding(crate::specs::Command::wish))]
pub fn asks_of<'a>(alloc: Global, words: &'a [String]) -> Result<Asks<'a>, NoMemory>
    ensures { IfOk result (λ asks. wish_of asks ≡ wish (map string_bytes words.entry.now)) }
{
    let program = program(alloc)?;
    match program.try_get_matches_from(words) {
        Ok(matches) => Ok(asked_in(&matches)),
        Err(error) => match error.kind() {
            ErrorKind::OutOfMemory => Err(NoMemory),
            _ => Ok(Asks::Show(Notice::Fault)),
        },
    }
}

/// Whether the words ask to serve.
pub fn serves(alloc: Global, words: &[String]) -> Result<bool, NoMemory>
    ensures { IfOk result (λ yes. yes ≡ is_serve (command (map string_bytes words.entry.now))) }
{
    match asks_of(alloc, words)? {
        Asks::Run(asked) => Ok(asked.verb == Verb::Serve),
        _ => Ok(false),
    }
}

/// What a parse without a fault asks for.
fn asked_in<'a>(matches: &ArgMatches<'a>) -> Asks<'a>
    ensures { wish_of result ≡ asked_in (rows_of (found_of matches.now)) (subcommand_rows_of matches.now) }
{
    if is_on(matches, "help") {
        Asks::Show(Notice::Help)
    } else if is_on(matches, "version") {
        Asks::Show(Notice::Version)
    } else {
        match matches.subcommand() {
            Some((name, command)) => given(verb_of(name), command),
            None => Asks::Show(Notice::Fault),
        }
    }
}

/// What the words behind a verb ask for.
fn given<'a>(verb: Option<Verb>, matches: &ArgMatches<'a>) -> Asks<'a>
    ensures { wish_of result ≡ given verb (rows_of (found_of matches.now)) }
{
    if is_on(matches, "help") {
        Asks::Show(Notice::Help)
    } else if is_one(value_of(matches, "threads")) {
        run(
            verb,
            value_of(matches, "config"),
            value_of(matches, "const"),
        )
    } else {
        Asks::Show(Notice::Fault)
    }
}

/// The value of this name.
fn value_of<'a>(matches: &ArgMatches<'a>, name: &str) -> Option<&'a str>
    ensures { option_map (λ value. value.now) result ≡ first_of name.now (rows_of (found_of matches.now)) }
{
    matches.get_str(name)
}

/// Whether the option without a value was given.
fn is_on(matches: &ArgMatches<'_>, name: &str) -> bool
    ensures { result ≡ is_on name.now (rows_of (found_of matches.now)) }
{
    match value_of(matches, name) {
        Some(value) => value == "true",
        None => false,
    }
}

/// Whether the number of threads, where one is given, is 1.
fn is_one(given: Option<&str>) -> bool
    ensures { result ≡ is_one (option_map (λ value. value.now) given.entry) }
{
    match given {
        Some(value) => value == "1",
        None => true,
    }
}

fn verb_of(word: &str) -> Option<Verb>
    ensures { result ≡ verb_of word.now }
{
    if word == "serve" {
        Some(Verb::Serve)
    } else if word == "check" {
        Some(Verb::Check)
    } else {
        None
    }
}

/// The command of a verb with its words.
fn run<'a>(verb: Option<Verb>, config: Option<&'a str>, constant: Option<&'a str>) -> Asks<'a>
    ensures { wish_of result ≡ run verb (option_map (λ text. text.now) config.entry)
        (option_map (λ text. text.now) constant.entry) }
{
    match (verb, config) {
        (Some(verb), Some(config)) => Asks::Run(CommandLine {
            verb,
            config,
            constant,
        }),
        _ => Asks::Show(Notice::Fault),
    }
}
