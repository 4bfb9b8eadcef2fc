//! The words of the command line.

ghost use Rattle.std.specs.Prelude.{◌≡◌, ◌↔◌, IsSome};
ghost use Rattle.mrpc_view.specs.CommandLine.{IsProgramOption, IsLoneProgramOption};

use std::env;
use std::env::Env;
use std::io::ErrorKind;

// What a command line asks of the program itself.
#[derive(Clone, Copy)]
pub(crate) enum ProgramOption {
    // The usage text.
    Help,
    // The version.
    Version,
}

// Why the words couldn't be read.
#[derive(Clone, Copy)]
pub(crate) enum WordsFault {
    // A word isn't UTF-8.
    NotText,
    // Out of memory.
    Memory,
}

// The words after the program's name.
pub(crate) fn words<R: Env + AllocGlobal>(rt: &R) -> Result<Vec<String>, WordsFault> {
    let mut args = match env::args(rt) {
        Ok(args) => args,
        Err(error) if error.kind() == ErrorKind::InvalidData => return Err(WordsFault::NotText),
        Err(_) => return Err(WordsFault::Memory),
    };
    let _name = args.next();
    let mut words = Vec::new(rt.alloc());
    for word in args {
        if words.push(word).is_err() {
            return Err(WordsFault::Memory);
        }
    }
    Ok(words)
}

// What a command line with only `--help` or `--version` asks for; `None` for any other.
pub(crate) fn lone_option(words: &[String]) -> Option<ProgramOption>
    ensures asked { IsSome result ↔ IsLoneProgramOption words.now }
{
    match words {
        [word] => option_of(word.as_str()),
        _ => None,
    }
}

// What the word asks for.
fn option_of(word: &str) -> Option<ProgramOption>
    ensures { IsSome result ↔ IsProgramOption word.now }
{
    if word == "--help" {
        Some(ProgramOption::Help)
    } else if word == "--version" {
        Some(ProgramOption::Version)
    } else {
        None
    }
}
