//! A gateway whose steps are tried again where memory is refused.

use crate::any_gateway::AnyGateway;
use crate::shown::{Shown, observe};
use anyhow::{Context, Result, bail};
use gateway::{Event, NoMemory, Out, Outcome, Secrets};
use nat_types::{GatewayId, Side};
use settings::Settings;
use std::alloc::Global;
use std::io::{self, Write};

/// "hi" by UDP from 192.168.1.10 to 198.51.100.7:53, without a checksum, so that it is valid from each source port.
const PACKET: &str =
    "00005e00010b02000000000a08004500001e0001000040118ee1c0a8010ac633640727100035000a00006869";

/// The offset of the source port in that frame.
const SOURCE_PORT: usize = 34;

/// The first source port of the line `pairs`.
const FIRST_PORT: u16 = 10_000;

/// A gateway, and its output. They are dropped by `end`.
pub(crate) struct Retrier<G> {
    alloc: Global,
    gateway: G,
    out: Out,
}

impl<G: AnyGateway> Retrier<G> {
    /// Returns gateway 0 of the sample settings, founded in boot 1.
    pub(crate) fn new(alloc: Global, secrets: Secrets) -> Result<Retrier<G>> {
        let settings = sample(alloc)?;
        let started = started(alloc, &settings, secrets);
        drop(settings);
        Ok(Retrier {
            alloc,
            gateway: started.context("no gateway")?,
            out: Out::new(alloc),
        })
    }

    /// Drops the gateway, and frees its memory.
    pub(crate) fn end(self) {
        let Retrier {
            alloc: _,
            gateway,
            out,
        } = self;
        gateway.end();
        drop(out);
    }

    /// Does what a line says, and prints what comes of a step.
    ///
    /// - `tick MOMENT`, `frame SIDE HEX`, `datagram HEX`, `peer-off BOOT`: a step
    /// - `plain SIDE HEX`: a frame, without a comparison of what shows before and after
    /// - `pairs COUNT`: a packet from each of COUNT ports of one host; prints how many pairs there are
    /// - `page`: the output is dropped, with its memory
    /// - `frames`: prints the frames of the output
    pub(crate) fn act<O: Write>(&mut self, line: &str, output: &mut O) -> Result<()> {
        let (verb, rest) = line.split_once(' ').unwrap_or((line, ""));
        match verb {
            "tick" => self.tick(rest, output),
            "frame" => self.frame(rest, output),
            "datagram" => self.datagram(rest, output),
            "peer-off" => self.peer_off(rest, output),
            "plain" => self.plain(rest, output),
            "pairs" => self.pairs(rest, output),
            "page" => self.page(),
            "frames" => tell_frames(output, &self.out),
            _ => bail!("no line of the cases: {line}"),
        }
    }

    fn tick<O: Write>(&mut self, moment: &str, output: &mut O) -> Result<()> {
        let event = Event::Tick(moment.parse::<u64>()?);
        step(self.alloc, &mut self.gateway, event, &mut self.out, output)
    }

    fn frame<O: Write>(&mut self, rest: &str, output: &mut O) -> Result<()> {
        let (side, bytes) = frame_in(self.alloc, rest)?;
        let event = Event::Frame(side, bytes.as_slice());
        step(self.alloc, &mut self.gateway, event, &mut self.out, output)
    }

    fn datagram<O: Write>(&mut self, digits: &str, output: &mut O) -> Result<()> {
        let bytes = bytes_of(self.alloc, digits)?;
        let event = Event::Datagram(bytes.as_slice());
        step(self.alloc, &mut self.gateway, event, &mut self.out, output)
    }

    fn peer_off<O: Write>(&mut self, boot: &str, output: &mut O) -> Result<()> {
        let event = Event::PeerOff(boot.parse::<u64>()?);
        step(self.alloc, &mut self.gateway, event, &mut self.out, output)
    }

    fn plain<O: Write>(&mut self, rest: &str, output: &mut O) -> Result<()> {
        let (side, bytes) = frame_in(self.alloc, rest)?;
        let event = Event::Frame(side, bytes.as_slice());
        let outcome = again(&mut self.gateway, event, &mut self.out);
        drop(bytes);
        tell_outcome(output, outcome?)
    }

    fn pairs<O: Write>(&mut self, count: &str, output: &mut O) -> Result<()> {
        let count = count.parse::<u16>()?;
        let mut frame = bytes_of(self.alloc, PACKET)?;
        let opened = self.open(frame.as_mut_slice(), count);
        drop(frame);
        opened?;
        let found = match self.gateway.pair_count() {
            Ok(found) => found,
            Err(_refused) => self.gateway.pair_count()?,
        };
        writeln!(output, "  {found} pairs")?;
        Ok(())
    }

    /// Lets the frame come from each of `count` ports.
    fn open(&mut self, frame: &mut [u8], count: u16) -> Result<(), NoMemory> {
        for number in 0..count {
            set_source_port(frame, FIRST_PORT.wrapping_add(number));
            self.out = Out::new(self.alloc);
            let event = Event::Frame(Side::Inside, frame);
            again(&mut self.gateway, event, &mut self.out)?;
        }
        Ok(())
    }

    fn page(&mut self) -> Result<()> {
        self.out = Out::new(self.alloc);
        Ok(())
    }
}

fn set_source_port(frame: &mut [u8], port: u16) {
    let place = SOURCE_PORT..SOURCE_PORT + 2;
    if let Some(bytes) = frame.get_mut(place) {
        bytes.copy_from_slice(&port.to_be_bytes());
    }
}

fn side_named(word: &str) -> Result<Side> {
    match word {
        "inside" => Ok(Side::Inside),
        "outside" => Ok(Side::Outside),
        _ => bail!("no side {word}"),
    }
}

/// Reads a side and a frame, as in `inside 00005e..`.
fn frame_in(alloc: Global, rest: &str) -> Result<(Side, Vec<u8>)> {
    let (side, digits) = rest.split_once(' ').context("no side")?;
    let side = side_named(side)?;
    Ok((side, bytes_of(alloc, digits)?))
}

/// Returns the bytes of hexadecimal digits; asks once more where memory is refused.
fn bytes_of(alloc: Global, digits: &str) -> Result<Vec<u8>> {
    match hex::decode(alloc, digits) {
        Ok(bytes) => Ok(bytes),
        Err(_refused) => Ok(hex::decode(alloc, digits)?),
    }
}

/// Returns the sample settings; asks once more where memory is refused.
fn sample(alloc: Global) -> Result<Settings> {
    match Settings::sample(alloc) {
        Ok(settings) => Ok(settings),
        Err(_refused) => Ok(Settings::sample(alloc)?),
    }
}

/// Returns a founded gateway; asks once more where memory is refused.
fn started<G: AnyGateway>(alloc: Global, settings: &Settings, secrets: Secrets) -> Option<G> {
    match G::begun(alloc, settings, secrets, GatewayId::Zero, 1, true) {
        Some(gateway) => Some(gateway),
        None => G::begun(alloc, settings, secrets, GatewayId::Zero, 1, true),
    }
}

/// Takes one step; tries once more where memory is refused.
fn again<G: AnyGateway>(
    gateway: &mut G,
    event: Event<'_>,
    out: &mut Out,
) -> Result<Outcome, NoMemory> {
    match gateway.once(event, out) {
        Ok(outcome) => Ok(outcome),
        Err(NoMemory) => gateway.once(event, out),
    }
}

/// Takes an event, and prints the outcome. Where memory is refused, prints `refused`, checks that nothing has changed,
/// and tries again.
fn step<G: AnyGateway, O: Write>(
    alloc: Global,
    gateway: &mut G,
    event: Event<'_>,
    out: &mut Out,
    output: &mut O,
) -> Result<()> {
    let before = observe(alloc, gateway, out)?;
    let stepped = step_from(&before, alloc, gateway, event, out, output);
    drop(before);
    stepped
}

/// Takes an event as `step` does, given what shows before.
fn step_from<G: AnyGateway, O: Write>(
    before: &Shown,
    alloc: Global,
    gateway: &mut G,
    event: Event<'_>,
    out: &mut Out,
    output: &mut O,
) -> Result<()> {
    match gateway.once(event, out) {
        Ok(outcome) => tell_outcome(output, outcome),
        Err(NoMemory) => {
            writeln!(output, "  refused")?;
            let after = observe(alloc, gateway, out)?;
            let is_same = before.is_same(&after);
            drop(after);
            tell_change(output, is_same)?;
            tell_outcome(output, gateway.once(event, out)?)
        }
    }
}

fn tell_change<O: Write>(output: &mut O, is_same: bool) -> Result<()> {
    if !is_same {
        writeln!(output, "  something changed")?;
    }
    Ok(())
}

fn tell_outcome<O: Write>(output: &mut O, outcome: Outcome) -> Result<()> {
    Ok(write_outcome(output, outcome)?)
}

fn write_outcome<O: Write>(output: &mut O, outcome: Outcome) -> io::Result<()> {
    match outcome {
        Outcome::Sent => writeln!(output, "  sent"),
        Outcome::Waiting => writeln!(output, "  waiting"),
        Outcome::Done => writeln!(output, "  done"),
        Outcome::Dropped(reason) => writeln!(output, "  dropped {}", reason.number()),
    }
}

fn tell_frames<O: Write>(output: &mut O, out: &Out) -> Result<()> {
    for frame in out.frames() {
        write!(output, "  {} ", frame.side)?;
        tell_bytes(output, frame.bytes)?;
    }
    Ok(())
}

fn tell_bytes<O: Write>(output: &mut O, bytes: &[u8]) -> Result<()> {
    for byte in bytes {
        write!(output, "{byte:02x}")?;
    }
    writeln!(output)?;
    Ok(())
}
