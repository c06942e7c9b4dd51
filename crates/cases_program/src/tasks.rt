//! Lines of words as command lines: the task of each, or why it is refused.

use cases_words::{Actor, Case};
use command_line::{LineFault, Task, command};
use std::alloc::{AllocError, Global};

/// Returns the words of a line, which are separated by single spaces. `''` is the empty word.
pub(crate) fn words_of(alloc: Global, line: &str) -> Result<Vec<String>, AllocError> {
    let mut words = Vec::new(alloc);
    for word in line.split(' ') {
        let text = if word == "''" { "" } else { word };
        words.push(String::from_str(alloc, text)?)?;
    }
    Ok(words)
}

/// Returns the task that words ask for. The function has no contract, which keeps the proofs of its
/// callers small.
fn asked(alloc: Global, words: &[String]) -> Result<Task, LineFault> {
    command(alloc, words)
}

/// Prints the task that words ask for, or why they are refused.
fn say(words: &[String], case: &mut Case) {
    match asked(case.alloc, words) {
        Ok(task) => {
            case.show("  task ", &task);
            drop(task);
        }
        Err(fault) => {
            case.say("  status ", fault.status());
            case.put(": ");
            say_reason(&fault, case);
            drop(fault);
        }
    }
    case.end();
}

/// Prints why a line is refused: the kind of `clap`'s error, or the fault's own text.
fn say_reason(fault: &LineFault, case: &mut Case) {
    match fault {
        LineFault::Refused(error) => case.show("", error.kind()),
        fault => case.put(fault),
    }
}

/// Prints what a user is told of words that are refused.
fn tell(words: &[String], case: &mut Case) {
    match asked(case.alloc, words) {
        Ok(task) => {
            drop(task);
            case.put("  taken");
        }
        Err(fault) => {
            let status = fault.report(case.alloc, &mut case.out);
            case.say("  status ", status);
        }
    }
    case.end();
}

/// The cases of command lines.
#[derive(Drop)]
pub(crate) struct Tasks;

impl Actor for Tasks {
    /// A line is words, or `? ` and words: then the whole text that a user is told is printed.
    fn act(&mut self, case: &mut Case) {
        case.title("", "\n");
        let is_whole = case.word() == "?";
        if !is_whole {
            case.back();
        }
        let line = case.rest();
        match words_of(case.alloc, line.as_str()) {
            Ok(words) if is_whole => tell(words.as_slice(), case),
            Ok(words) => say(words.as_slice(), case),
            Err(_) => case.fault(),
        }
    }
}
