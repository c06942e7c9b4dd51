//! The lines of a run's events, in order.
ghost use Rattle.std.specs.Prelude.{◌≡◌, OnOk};
ghost use Rattle.simulation.specs.Lines.{answer_text, counts_after, event_line, lost_line, no_counts, one_more, sent_by, step_lines, with_event, with_sent};
ghost use Rattle.simulation.specs.Printed.{Prints};

use crate::cutting::FrameCutter;
use crate::step_output::print_output;
use crate::texts::gateway_of;
use frame_sim::{Step, WorldFault};
use nat_types::{GatewayId, WorldEvent};
use spec_step::Outcome;
use std::io::{self, Write};

/// The number of a run's events that are printed, and of the datagrams that each gateway has sent.
#[derive(Drop)]
pub(crate) struct Counts {
    events: usize,
    zero: usize,
    one: usize,
}

impl Counts {
    pub(crate) fn new() -> Counts
        ensures { result ≡ no_counts }
    {
        Counts {
            events: 0,
            zero: 0,
            one: 0,
        }
    }

    fn sent_by(&self, id: GatewayId) -> usize
        ensures { result ≡ sent_by id self.now }
    {
        match id {
            GatewayId::Zero => self.zero,
            GatewayId::One => self.one,
        }
    }

    fn set_sent(&mut self, id: GatewayId, sent: usize)
        ensures { self.new ≡ with_sent id sent self.old }
    {
        match id {
            GatewayId::Zero => self.zero = sent,
            GatewayId::One => self.one = sent,
        }
    }

    /// Counts one more event, and returns its number.
    fn next_event(&mut self) -> usize
        ensures number { result ≡ one_more self.old.events }
        ensures counted { self.new ≡ with_event self.old }
    {
        self.events = self.events.saturating_add(1);
        self.events
    }
}

/// Prints what the gateway of the next event sent, and the event's outcome, or why the event was refused.
pub(crate) fn print_step<W: Write>(
    output: &mut W,
    counts: &mut Counts,
    cutter: &FrameCutter,
    event: &WorldEvent,
    step: &Step,
) -> io::Result<()>
    ensures printed { Prints (W.contents output.old) result (W.contents output.new)
        (step_lines cutter.now counts.old event.now step.now) }
    ensures counted { OnOk result (counts.new ≡ counts_after counts.old event.now step.now) }
{
    let id = gateway_of(event);
    let mut sent = counts.sent_by(id);
    print_output(output, id, &mut sent, cutter, &step.out)?;
    counts.set_sent(id, sent);
    let number = counts.next_event();
    print_answer(output, number, &step.answer)
}

/// Prints that the next event's bytes are lost.
pub(crate) fn print_lost<W: Write>(output: &mut W, counts: &mut Counts) -> io::Result<()>
    ensures printed { Prints (W.contents output.old) result (W.contents output.new)
        (lost_line counts.old) }
    ensures counted { counts.new ≡ with_event counts.old }
{
    let number = counts.next_event();
    writeln!(output, "event {number} lost")
}

/// Prints the outcome of the event of this number, or why the event was refused.
fn print_answer<W: Write>(
    output: &mut W,
    number: usize,
    answer: &Result<Outcome, WorldFault>,
) -> io::Result<()>
    ensures { Prints (W.contents output.old) result (W.contents output.new)
        (event_line number (answer_text answer.now)) }
{
    match answer {
        Ok(Outcome::Sent) => writeln!(output, "event {number} sent"),
        Ok(Outcome::Waiting) => writeln!(output, "event {number} waiting"),
        Ok(Outcome::Done) => writeln!(output, "event {number} done"),
        Ok(Outcome::Dropped(reason)) => {
            let reason = reason.number();
            writeln!(output, "event {number} dropped {reason}")
        }
        Err(fault) => writeln!(output, "event {number} refused {fault}"),
    }
}
