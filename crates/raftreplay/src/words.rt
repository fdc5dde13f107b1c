ghost use Rattle.std.specs.Prelude.{◌≡◌, true, is_some, IfOk, OnErr};
ghost use Rattle.raftreplay.specs.Words.{bytes_of, command_of, command_named, alone, with_key, with_options, with_number, with_number_and_options};

use crate::key_word::key_word;
use crate::options::{number_word, options_of};
use rs_engine::Options;
use rs_key::{Key, NoMemory};
use std::alloc::Global;

/// A command of the program.
#[derive(Debug, Drop)]
pub enum Command {
    /// `check`: whether the logs are lawful.
    Check,
    /// `fold`: what comes of the logs.
    Fold,
    /// `history KEY`: the writes of one key.
    History(Key),
    /// `run` and options: what comes of the logs, made by pollers.
    Run(Options),
    /// `gen N`: the logs that a number makes.
    Gen(u64),
    /// `selftest N` and options: a run on the logs that a number makes.
    SelfTest(u64, Options),
    /// `pack`: the binary form of the logs.
    Pack,
    /// `unpack`: the text of the logs of a binary file.
    Unpack,
}

/// Returns the command that the words are. Words that are none of the forms are none, and then no memory is taken.
pub fn command_of(alloc: Global, words: &[String]) -> Result<Option<Command>, NoMemory>
    ensures ok { IfOk result (λ command. command ≡ command_of (bytes_of words.now)) }
    ensures err { OnErr result (is_some (command_of (bytes_of words.now)) ≡ true) }
{
    match words {
        [] => Ok(None),
        [name, rest @ ..] => command_named(alloc, name.as_str(), rest),
    }
}

/// Returns the command of this name with the words behind it.
fn command_named(alloc: Global, name: &str, words: &[String]) -> Result<Option<Command>, NoMemory>
    ensures ok { IfOk result (λ command. command ≡ command_named name.now (bytes_of words.now)) }
    ensures err { OnErr result (is_some (command_named name.now (bytes_of words.now)) ≡ true) }
{
    if name == "check" {
        Ok(alone(Command::Check, words))
    } else if name == "fold" {
        Ok(alone(Command::Fold, words))
    } else if name == "history" {
        with_key(alloc, words)
    } else if name == "run" {
        Ok(with_options(words))
    } else if name == "gen" {
        Ok(with_number(words))
    } else if name == "selftest" {
        Ok(with_number_and_options(words))
    } else if name == "pack" {
        Ok(alone(Command::Pack, words))
    } else if name == "unpack" {
        Ok(alone(Command::Unpack, words))
    } else {
        Ok(None)
    }
}

/// Returns the command, where no word is left.
fn alone(command: Command, words: &[String]) -> Option<Command>
    ensures { result ≡ alone command (bytes_of words.now) }
{
    match words {
        [] => Some(command),
        _ => None,
    }
}

/// Returns the command whose one word is `KEY`.
fn with_key(alloc: Global, words: &[String]) -> Result<Option<Command>, NoMemory>
    ensures ok { IfOk result (λ command. command ≡ with_key (bytes_of words.now)) }
    ensures err { OnErr result (is_some (with_key (bytes_of words.now)) ≡ true) }
{
    let [key] = words else {
        return Ok(None);
    };
    match key_word(alloc, key.as_str())? {
        None => Ok(None),
        Some(key) => Ok(Some(Command::History(key))),
    }
}

/// Returns the command whose words are options.
fn with_options(words: &[String]) -> Option<Command>
    ensures { result ≡ with_options (bytes_of words.now) }
{
    Some(Command::Run(options_of(words)?))
}

/// Returns the command whose one word is `N`.
fn with_number(words: &[String]) -> Option<Command>
    ensures { result ≡ with_number (bytes_of words.now) }
{
    match words {
        [number] => Some(Command::Gen(number_word(number.as_str())?)),
        _ => None,
    }
}

/// Returns the command whose words are `N` and options.
fn with_number_and_options(words: &[String]) -> Option<Command>
    ensures { result ≡ with_number_and_options (bytes_of words.now) }
{
    match words {
        [number, rest @ ..] => {
            let n = number_word(number.as_str())?;
            Some(Command::SelfTest(n, options_of(rest)?))
        }
        _ => None,
    }
}
