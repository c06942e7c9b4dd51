//! Cases with other lists of neighbours.
use crate::reading;
use anyhow::{Context, Result};
use cases_words::{Actor, Case};
use std::alloc::Global;

const NEIGHBOUR: &str =
    "[[neighbour]]\nside = \"inside\"\nip = \"192.168.1.77\"\nmac = \"02-00-00-00-00-4D\"\n";

/// Returns the sample's text up to its neighbours, with `first` as a line before it and `count`
/// neighbours after it.
fn listed(alloc: Global, sample: &str, count: usize, first: &str) -> Result<String> {
    let (head, _) = sample
        .split_once("[[neighbour]]")
        .context("the sample has neighbours")?;
    let mut text = format!(in alloc; "{first}\n{head}")?;
    for _ in 0..count {
        text.push_str(NEIGHBOUR)?;
    }
    Ok(text)
}

/// The cases of lists of neighbours.
#[derive(Drop)]
pub(crate) struct Lists<'a> {
    pub(crate) sample: &'a str,
}

impl Actor for Lists<'_> {
    /// A line is `NAME;COUNT;LINE`: the sample with COUNT neighbours, after the line LINE. Prints
    /// whether it is read, or why it isn't.
    fn act(&mut self, case: &mut Case) {
        case.echo(": ");
        let count = case.count();
        let listed = listed(case.alloc, self.sample, count, case.word());
        let text = case.or_empty(listed);
        reading::say(text.as_str(), case);
    }
}
