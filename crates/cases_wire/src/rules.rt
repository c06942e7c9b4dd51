//! The calls of the packet path, by the name that a case gives.
use crate::both_sides::Interfaces;
use crate::{passing, saying};
use cases_words::{Actor, Case, beside};
use settings::Settings;
use std::alloc::{AllocError, Global};
use std::mem;

/// Prints a case's name, and what the call after it answers at the two interfaces of a gateway with these settings.
#[derive(Drop)]
pub(crate) struct Rules {
    settings: Settings,
    interfaces: Interfaces,
}

impl Rules {
    /// Returns the sample settings and interfaces before their first event, or an `AllocError` when out of memory.
    pub(crate) fn new(alloc: Global) -> Result<Rules, AllocError> {
        let settings = Settings::sample(alloc)?;
        let interfaces = Interfaces::new(alloc, &settings);
        let (settings, interfaces) = beside(settings, interfaces)?;
        Ok(Rules {
            settings,
            interfaces,
        })
    }

    /// Makes both interfaces anew.
    fn renew(&mut self, case: &mut Case) {
        match Interfaces::new(case.alloc, &self.settings) {
            Ok(interfaces) => drop(mem::replace(&mut self.interfaces, interfaces)),
            Err(_) => case.fault(),
        }
        case.put("ready");
    }

    /// Prints what the call answers that the next word names.
    ///
    /// - `fresh` makes both interfaces anew, before their first event
    /// - `speak MTU MTU`: from here on the box answers Echos and complains, with these longest packets inside and
    ///   outside; and both interfaces anew
    /// - `peer-only`: from here on the other gateway's advertisements alone count; and both interfaces anew
    /// - `start NOW`, `tick NOW`, `stop`: the frames that both send, the inside one first
    /// - `reply SIDE HEX MAC`: the frame that answers an Echo to the box
    /// - `complain SIDE HEX MAC`: the frame that is sent where a packet's hops are used up, or else where it
    ///   is too long for the side at which it would leave
    /// - `count SIDE reply|error TIMES NOW`: how often in that many tries one more may be sent
    fn answer(&mut self, case: &mut Case) {
        match case.word() {
            "fresh" => self.renew(case),
            "speak" => {
                saying::speak(&mut self.settings, case);
                self.renew(case);
            }
            "peer-only" => {
                self.settings.vrrp.peer_only = true;
                self.renew(case);
            }
            "start" => self.interfaces.start(case),
            "tick" => self.interfaces.tick(case),
            "stop" => self.interfaces.stop(case),
            "reply" => saying::reply(&self.interfaces, case),
            "complain" => saying::complain(&self.interfaces, case),
            "count" => saying::count(&mut self.interfaces, case),
            _ => answer_packets(&mut self.interfaces, case),
        }
    }
}

impl Actor for Rules {
    fn act(&mut self, case: &mut Case) {
        case.echo(": ");
        self.answer(case);
        case.end();
    }
}

/// Prints what the call answers that the last word names, with these calls of the packet path:
///
/// - `read SIDE up|down HEX`: what a frame is read as, or why it is dropped
/// - `padded SIDE LENGTH HEX`: the same of a frame with zeros after it up to a length
/// - `advert SIDE HEX NOW`: what an interface sends when it receives this frame
/// - `arp SIDE HEX NOW`: whether the sender of this frame is learnt, and the answer; `waited`, where a packet waits for it
/// - `mac SIDE ADDRESS NOW`: a neighbour's Ethernet address
/// - `ask SIDE ADDRESS NOW`: whether a request for a neighbour is due after a packet to it
/// - `request SIDE ADDRESS`: the frame that requests a neighbour's address
/// - `send SIDE HEX MAC PORT ADDRESS PORT ..`: the frame by which a packet is sent on to a next hop,
///   by one pair, or for a hairpin two
fn answer_packets(interfaces: &mut Interfaces, case: &mut Case) {
    case.back();
    match case.word() {
        "read" => passing::read(interfaces, case),
        "padded" => passing::read_padded(interfaces, case),
        "advert" => passing::hear_advert(interfaces, case),
        "arp" => passing::hear_arp(interfaces, case, false),
        "waited" => passing::hear_arp(interfaces, case, true),
        "mac" => passing::find_mac(interfaces, case),
        "ask" => passing::ask(interfaces, case),
        "request" => passing::request(interfaces, case),
        "send" => passing::send(interfaces, case),
        _ => case.fault(),
    }
}
