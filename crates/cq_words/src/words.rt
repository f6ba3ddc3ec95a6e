// Words of the command line, by the kit's reader of command lines.

ghost use Rattle.std.specs.Prelude.{◌≡◌, IfOk, IsErrOf, None, Some, [], codes, false, map, option_map, unwrap_or};
ghost use Rattle.clap.specs.Words.{found_of, app_of, kind_of};
ghost use Rattle.clap.specs.Walk.{all_of, first_of, rows_of, rule_of};
ghost use Rattle.cq_words.specs.Asked.{as_asked, as_task};
ghost use Rattle.cq_words.specs.Language.{asked_by, asked_in, command, gen, gen_in, numbered, numeral, number_in, number_or, number_to, run, task_in};

use crate::run::{ANSWERS, GREATEST, MOST, PIVOTS, Run, STEPS, Task};
use clap::builder::ValueParser;
use clap::error::ErrorKind;
use clap::{Arg, ArgAction, ArgMatches, Command, Error};
use std::alloc::{AllocError, Global};

/// Why nothing is asked for.
#[derive(Clone, Copy, PartialEq, Eq)]
pub enum WordsFault {
    /// The words are not in the command's language. A call for help is none.
    BadWords,
    /// Memory was wanting.
    NoMemory,
}

impl From<AllocError> for WordsFault {
    ghost use Rattle.cq_words.specs.declared.words.WordsFault.TheVariants.{NoMemory};

    ghost from_gives = { λ _ e. e ≡ NoMemory };

    fn from(_: AllocError) -> Self {
        WordsFault::NoMemory
    }
}

/// An option with a number.
fn numbered<'a>(alloc: Global, name: &'a str) -> Arg<'a>
    ensures rule { rule_of result ≡ numbered name.entry.now }
    ensures local { result.global ≡ false }
{
    let option = Arg::new(alloc, name).long(name).action(ArgAction::Set);
    let parser = ValueParser::unsigned(1, MOST);
    option.value_parser(parser)
}

/// The subcommand `run`.
fn run_command<'a>(alloc: Global) -> Result<Command<'a>, AllocError>
    ensures { IfOk result (λ c. app_of c ≡ run) }
{
    let steps = numbered(alloc, "steps");
    let pivots = numbered(alloc, "pivots");
    let answers = numbered(alloc, "answers");
    let file = Arg::new(alloc, "FILE");
    let files = file.action(ArgAction::Append);
    let bare = Command::new(alloc, "run");
    let one = bare.arg(steps)?;
    let two = one.arg(pivots)?;
    let three = two.arg(answers)?;
    let run = three.arg(files)?;
    Ok(run)
}

/// The number of `gen`.
fn numeral<'a>(alloc: Global) -> Arg<'a>
    ensures rule { rule_of result ≡ numeral }
    ensures local { result.global ≡ false }
{
    let bare = Arg::new(alloc, "N");
    let wanted = bare.required(true).action(ArgAction::Set);
    let parser = ValueParser::unsigned(1, GREATEST);
    wanted.value_parser(parser)
}

/// The subcommand `gen`.
fn gen_command<'a>(alloc: Global) -> Result<Command<'a>, AllocError>
    ensures { IfOk result (λ c. app_of c ≡ gen) }
{
    let number = numeral(alloc);
    let bare = Command::new(alloc, "gen");
    let whole = bare.arg(number)?;
    Ok(whole)
}

/// The whole command.
fn command<'a>(alloc: Global) -> Result<Command<'a>, AllocError>
    ensures { IfOk result (λ c. app_of c ≡ command) }
{
    let run = run_command(alloc)?;
    let other = gen_command(alloc)?;
    let bare = Command::new(alloc, "clpq");
    let wanting = bare.subcommand_required(true);
    let one = wanting.subcommand(run)?;
    let whole = one.subcommand(other)?;
    Ok(whole)
}

/// The number that a text is; None where it is none, 0, or above the greatest.
fn number_to(greatest: u64, text: &str) -> Option<u64>
    ensures { result ≡ number_to greatest text.now }
{
    let Ok(n) = text.parse::<u64>() else {
        return None;
    };
    if 1 <= n && n <= greatest {
        Some(n)
    } else {
        None
    }
}

/// The number of an option that is there.
fn number_in(text: &str) -> Option<u64>
    ensures { result ≡ number_in text.now }
{
    number_to(MOST, text)
}

/// The number of an option, or its default; None where it is out of range.
fn number(matches: &ArgMatches<'_>, name: &str, default: u64) -> Option<u64>
    ensures { result ≡ number_or default (first_of name.now (rows_of (found_of matches.now))) }
{
    match matches.get_str(name) {
        Some(text) => number_in(text),
        None => Some(default),
    }
}

/// The names of the files.
fn names<'a>(alloc: Global, matches: &ArgMatches<'a>) -> Result<Vec<&'a str>, AllocError>
    ensures { IfOk result (λ v. map (λ s. s.now) v.items ≡ unwrap_or (all_of (codes "FILE") (rows_of (found_of matches.now))) []) }
{
    let Some(given) = matches.get_strs("FILE") else {
        return Ok(Vec::new(alloc));
    };
    let names = given.to_vec(alloc)?;
    Ok(names)
}

/// What the arguments of `run` ask for.
fn asked<'a>(alloc: Global, matches: &ArgMatches<'a>) -> Result<Option<Run<'a>>, AllocError>
    ensures { IfOk result (λ o. option_map as_asked o ≡ asked_in (rows_of (found_of matches.now))) }
{
    let files = names(alloc, matches)?;
    let Some(steps) = number(matches, "steps", STEPS) else {
        return Ok(None);
    };
    let Some(pivots) = number(matches, "pivots", PIVOTS) else {
        return Ok(None);
    };
    let Some(answers) = number(matches, "answers", ANSWERS) else {
        return Ok(None);
    };
    Ok(Some(Run {
        steps,
        pivots,
        answers,
        files,
    }))
}

/// What the argument of `gen` asks for.
fn number_of_gen(matches: &ArgMatches<'_>) -> Option<u64>
    ensures { result ≡ gen_in (rows_of (found_of matches.now)) }
{
    match matches.get_str("N") {
        Some(text) => number_to(GREATEST, text),
        None => None,
    }
}

/// What the arguments of a subcommand ask for.
fn task<'a>(
    alloc: Global,
    name: &str,
    matches: &ArgMatches<'a>,
) -> Result<Option<Task<'a>>, AllocError>
    ensures { IfOk result (λ o. option_map as_task o ≡ task_in name.now (rows_of (found_of matches.now))) }
{
    if name == "run" {
        let wanted = asked(alloc, matches)?;
        return match wanted {
            Some(run) => Ok(Some(Task::Run(run))),
            None => Ok(None),
        };
    }
    if name == "gen" {
        return match number_of_gen(matches) {
            Some(number) => Ok(Some(Task::Gen(number))),
            None => Ok(None),
        };
    }
    Ok(None)
}

/// Why a parse fails.
fn fault_of(error: &Error) -> WordsFault
    ensures { kind_of error.now ≡ ErrorKind.OutOfMemory → result ≡ WordsFault.NoMemory }
{
    match error.kind() {
        ErrorKind::OutOfMemory => WordsFault::NoMemory,
        _ => WordsFault::BadWords,
    }
}

/// What the words ask for, the program's name first.
pub fn read_words<'a>(alloc: Global, words: &'a [String]) -> Result<Task<'a>, WordsFault>
    ensures asked { IfOk result (λ t. asked_by words.now ≡ Some (as_task t)) }
    ensures refused { IsErrOf result WordsFault.BadWords → asked_by words.now ≡ None }
{
    let command = command(alloc)?;
    let matches = match command.try_get_matches_from(words) {
        Ok(matches) => matches,
        Err(error) => return Err(fault_of(&error)),
    };
    let Some((name, found)) = matches.subcommand() else {
        return Err(WordsFault::BadWords);
    };
    let wanted = task(alloc, name, found)?;
    match wanted {
        Some(task) => Ok(task),
        None => Err(WordsFault::BadWords),
    }
}
