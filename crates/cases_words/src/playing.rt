//! Does what the lines of a case file say.

use crate::Case;
use anyhow::{Result, bail};
use std::fs;
use std::rt::Files;

/// Returns `held` together with what was made, or the fault where that couldn't be made. `held` is then dropped. A
/// function that knows the type of `held` would have to prove of each of its parts that it is dropped.
pub fn beside<A: Drop, B, E>(held: A, made: Result<B, E>) -> Result<(A, B), E> {
    match made {
        Ok(made) => Ok((held, made)),
        Err(fault) => Err(fault),
    }
}

/// Something that does what a line says.
pub trait Actor {
    fn act(&mut self, case: &mut Case);
}

impl<A: Actor> Actor for &mut A {
    fn act(&mut self, case: &mut Case) {
        (**self).act(case);
    }
}

/// Does what each line of a file says, but for empty lines and comments, and drops the actor.
///
/// # Errors
/// The file can't be read, or a line is wrong: the error has the first such line.
pub fn play<R: Files + AllocGlobal, A: Actor + Drop>(
    rt: &R,
    name: &str,
    actor: A,
    case: &mut Case,
) -> Result<()> {
    let text = fs::read_to_string(rt, name)?;
    let mut actor = actor;
    play_lines(text.as_str(), &mut actor, case)
}

fn play_lines<A: Actor>(text: &str, actor: &mut A, case: &mut Case) -> Result<()> {
    for line in text.lines() {
        if is_silent(line) {
            continue;
        }
        case.begin(line);
        actor.act(case);
        if case.is_wrong() {
            bail!("wrong: {line}");
        }
    }
    Ok(())
}

/// Whether a line is empty or a comment.
fn is_silent(line: &str) -> bool {
    line.is_empty() || line.starts_with("#")
}
