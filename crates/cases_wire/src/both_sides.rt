//! The two interfaces of gateway 0, which the cases of the packet path use.
ghost use Rattle.vrrp_states.specs.Table.{IsMoment};

use cases_words::{Case, beside};
use interfaces::Interface;
use nat_types::{GatewayId, Side};
use packet_rules::Networks;
use settings::Settings;
use std::alloc::{AllocError, Global};
use vrrp_states::Action;

/// The greatest time of a clock, in centiseconds.
const LAST_MOMENT: u64 = 4_000_000_000_000;

/// Reads a time of a clock, in centiseconds.
pub fn moment(case: &mut Case) -> u64
    ensures { IsMoment result }
{
    case.within(0, LAST_MOMENT)
}

#[derive(Drop)]
pub struct Interfaces {
    pub networks: Networks,
    inside: Interface,
    outside: Interface,
}

impl Interfaces {
    /// Returns both interfaces before their first event, or an `AllocError` when out of memory.
    pub fn new(alloc: Global, settings: &Settings) -> Result<Interfaces, AllocError> {
        let inside = begun(alloc, settings, Side::Inside)?;
        let (inside, outside) = beside(inside, begun(alloc, settings, Side::Outside))?;
        Ok(Interfaces {
            networks: Networks::of_gateway(settings, GatewayId::Zero),
            inside,
            outside,
        })
    }

    pub fn at(&self, side: Side) -> &Interface {
        match side {
            Side::Inside => &self.inside,
            Side::Outside => &self.outside,
        }
    }

    pub fn at_mut(&mut self, side: Side) -> &mut Interface {
        match side {
            Side::Inside => &mut self.inside,
            Side::Outside => &mut self.outside,
        }
    }

    pub fn start(&mut self, case: &mut Case) {
        let now = moment(case);
        self.inside.start(now);
        self.outside.start(now);
        self.tell(case, Action::Nothing, Action::Nothing);
    }

    pub fn tick(&mut self, case: &mut Case) {
        let now = moment(case);
        let inside = self.inside.tick(now);
        let outside = self.outside.tick(now);
        self.tell(case, inside, outside);
    }

    pub fn stop(&mut self, case: &mut Case) {
        let inside = self.inside.stop();
        let outside = self.outside.stop();
        self.tell(case, inside, outside);
    }

    /// Prints what both interfaces send, the inside one first.
    fn tell(&self, case: &mut Case, inside: Action, outside: Action) {
        tell_sent(case, "inside [", &self.inside, inside);
        tell_sent(case, " outside [", &self.outside, outside);
    }
}

/// Returns an interface before its first event. No clause says anything of it.
fn begun(alloc: Global, settings: &Settings, side: Side) -> Result<Interface, AllocError> {
    Interface::new(alloc, settings, GatewayId::Zero, side)
}

/// Prints the frames that an action sends, end to end, after a text that ends with an open bracket.
pub fn tell_sent(case: &mut Case, text: &str, station: &Interface, action: Action) {
    let frames = frames_of(case.alloc, station, action);
    case.hex_made(text, frames);
    case.put("]");
}

fn frames_of(alloc: Global, station: &Interface, action: Action) -> Result<Vec<u8>, AllocError> {
    let mut bytes = Vec::with_capacity(alloc, vrrp_packet::ADVERT_FRAME + arp::ARP_FRAME)?;
    match action {
        Action::Nothing => {}
        Action::Advertise(priority) => station.append_advert(&mut bytes, priority),
        Action::AdvertiseAndArp(priority) => {
            station.append_advert(&mut bytes, priority);
            station.append_gratuitous(&mut bytes);
        }
    }
    Ok(bytes)
}
