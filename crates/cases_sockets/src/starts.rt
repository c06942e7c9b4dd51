//! Starts of a gateway that draws its outside ports.

use anyhow::{Context, Result};
use cases_words::Case;
use gate::draw_secrets;
use gateway::{Event, Gateway, Out, Secrets};
use nat_types::{GatewayId, Side};
use settings::{Choice, Settings};
use std::alloc::Global;

/// A UDP packet of 192.168.1.10, port 5000, to a host beyond the router.
const PACKET: &str =
    "00005e00010b02000000000a08004500001e0001000040118ee1c0a8010ac633640713880035000a97c66869";

/// How many starts are compared. No port is likelier than one in 5,000, so four starts draw the same one once in 10^11
/// runs.
const STARTS: usize = 4;

/// When the gateway is Active at both sides, in centiseconds.
const ACTIVE: u64 = 400;

/// The calls of a gateway that are used, without contracts. A function that knew the gateway's type would have to show
/// for each of its parts where that is in memory.
trait Started: Sized {
    /// Begins gateway 0, founded, or returns None where there is no memory.
    fn begun(alloc: Global, settings: &Settings, secrets: Secrets) -> Option<Self>;

    /// Takes one step, and returns whether there was memory for it.
    fn step(&mut self, event: Event<'_>, out: &mut Out) -> bool;

    /// Returns the outside port of the first pair, if there is one.
    fn first_port(&self) -> Option<u16>;

    /// Frees the gateway's memory.
    fn end(self);
}

impl Started for Gateway {
    fn begun(alloc: Global, settings: &Settings, secrets: Secrets) -> Option<Gateway> {
        Gateway::new(alloc, settings, GatewayId::Zero, 1, true, secrets).ok()
    }

    fn step(&mut self, event: Event<'_>, out: &mut Out) -> bool {
        out.clear();
        Gateway::step(self, event, &mut out.page).is_ok()
    }

    fn first_port(&self) -> Option<u16> {
        let pairs = self.pairs().ok()?;
        let pair = pairs.first()?;
        Some(pair.key.port.0)
    }

    fn end(self) {
        Gateway::end(self);
    }
}

/// Returns the outside port that a packet's endpoint gets at a gateway that has just started.
fn port_at<G: Started>(gateway: &mut G, packet: &[u8], out: &mut Out) -> Option<u16> {
    let is_active = gateway.step(Event::Tick(ACTIVE), out);
    let is_taken = gateway.step(Event::Frame(Side::Inside, packet), out);
    if is_active && is_taken {
        gateway.first_port()
    } else {
        None
    }
}

/// Starts a gateway that draws its ports, and returns the one that the packet's endpoint gets.
fn port_of_start<G: Started>(rt: &HostRuntime) -> Result<u16> {
    let alloc = rt.alloc();
    let packet = hex::decode(alloc, PACKET)?;
    let secrets = draw_secrets(rt)?;
    let mut settings = Settings::sample(alloc)?;
    settings.choice = Choice::Drawn;
    let mut gateway = G::begun(alloc, &settings, secrets).context("no gateway")?;
    let mut out = Out::new(alloc);
    let port = port_at(&mut gateway, packet.as_slice(), &mut out);
    gateway.end();
    port.context("the packet has no pair")
}

/// Says whether all starts give the packet's endpoint the same port.
pub(crate) fn compare_starts(rt: &HostRuntime, case: &mut Case) -> Result<()> {
    let first = port_of_start::<Gateway>(rt)?;
    let mut same = true;
    for _ in 1..STARTS {
        same = port_of_start::<Gateway>(rt)? == first && same;
    }
    let text = if same { "yes" } else { "no" };
    case.say("== the same drawn port at each start: ", text);
    case.end();
    Ok(())
}
