//! The help as a command.

use crate::{LineFault, command};
use clap::error::ErrorKind;
use std::alloc::{AllocError, Global};

/// Returns the help that the words `help` or `help COMMAND` ask for, the program's name before them: the text that
/// `--help` of the program, or of the command, shows. Returns None for all other words.
///
/// # Errors
///
/// That of a COMMAND that isn't one; `NoMemory`.
pub fn help(alloc: Global, words: &[String]) -> Result<Option<String>, LineFault> {
    if !asks_help(words) {
        return Ok(None);
    }
    let asked = asking_help(alloc, words)?;
    match command(alloc, asked.as_slice()) {
        Ok(_) => Ok(None),
        Err(fault) => help_in(alloc, fault),
    }
}

/// Whether the words are `help` or `help COMMAND`, behind the program's name.
fn asks_help(words: &[String]) -> bool {
    (words.len() == 2 || words.len() == 3) && words[1].as_str() == "help"
}

/// Returns the words that ask for the same help by `--help`.
fn asking_help(alloc: Global, words: &[String]) -> Result<Vec<String>, AllocError> {
    let mut asked = Vec::new(alloc);
    for (index, word) in words.iter().enumerate() {
        if index != 1 {
            asked.push(String::from_str(alloc, word.as_str())?)?;
        }
    }
    asked.push(String::from_str(alloc, "--help")?)?;
    Ok(asked)
}

/// Returns the text of a fault that shows the help.
///
/// # Errors
///
/// The fault itself, where it shows no help; `NoMemory`.
fn help_in(alloc: Global, fault: LineFault) -> Result<Option<String>, LineFault> {
    match &fault {
        LineFault::Refused(error) if error.kind() == ErrorKind::DisplayHelp => {
            Ok(Some(format!(in alloc; "{error}")?))
        }
        _ => Err(fault),
    }
}
