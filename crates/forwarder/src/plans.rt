//! The plan of a packet: what is to happen to it, found before anything changes.
ghost use Rattle.std.specs.Prelude.{◌≡◌, Err, Ok, false, if◌then◌else◌};
ghost use Rattle.waiting.specs.declared.waits.WaitsFor.TheVariants.{Pair as PairOf};
ghost use Rattle.waiting.specs.Packets.{has_place};
ghost use Rattle.spec_binding.specs.Rows.{new_pair};
ghost use Rattle.packet_rules.specs.Flows.{source_of};
ghost use Rattle.packet_rules.specs.Networks.{direction_of};
ghost use Rattle.packet_rules.specs.declared.reasons.Reason.TheVariants.{CannotWait};
ghost use Rattle.packet_rules.specs.Steps.{and_then};
ghost use Rattle.spec_step.specs.declared.plans.Plan.TheVariants.{Wait as WaitFor};
ghost use Rattle.spec_step.specs.Verdict.{fits_at, if_fits, look_for, plan_from, plan_of, plan_via};
ghost use Rattle.spec_step.specs.Verdict.{pair_at, plan_on, target_pair};
ghost use Rattle.forwarder.specs.Forwarder.{shown_of};
ghost use Rattle.forwarder.specs.Plans.{leaving_by};

use crate::Forwarder;
use addresses::{Ip, Port};
use bindings::Entry;
use ipv4::{Flow, Packet, Size};
use nat_types::{Endpoint, EntryState, Key, Pair, Side};
use packet_rules::{
    Direction, Reason, Translation, direction_taken, mtu_at, source_endpoint, target_key,
};
use spec_binding::Want;
use spec_step::Plan;
use waiting::WaitsFor;

/// Returns the pair that a packet's endpoint has, or is to have, with this outside port.
fn own_pair(flow: Flow, port: Port) -> Pair
    ensures { result ≡ new_pair (source_of flow) port }
{
    let key = Key {
        protocol: flow.protocol,
        port,
    };
    Pair::new(key, flow.source, flow.source_port)
}

/// Returns the pair of an entry that translates, as a marked one does. The Err is `NoBinding` where
/// there is no entry or its proposal was given up, and `CannotWait` where the pair isn't agreed or is
/// being closed.
#[inline(always)]
pub(crate) fn pair_of(entry: Option<Entry>) -> Result<Pair, Reason>
    ensures { result ≡ pair_at entry }
{
    match entry {
        None => Err(Reason::NoBinding),
        Some(entry) => match entry.state {
            EntryState::Pending { marked: false } | EntryState::Closing { marked: false } => {
                Err(Reason::CannotWait)
            }
            EntryState::Doomed => Err(Reason::NoBinding),
            _ => Ok(entry.pair),
        },
    }
}

/// Returns how a packet from the inside leaves: by its own pair, and of a hairpin to the endpoint
/// of the other pair.
fn leaving(own: Pair, other: Option<Pair>) -> Translation
    ensures { result ≡ leaving_by other own }
{
    match other {
        None => Translation::Outward(own),
        Some(other) => Translation::Hairpin(own, other),
    }
}

/// Returns the plan, or the Err `TooLong` where a packet that would go on or wait is too long for
/// the side at which it leaves.
#[inline(always)]
pub(crate) fn if_fits(fits: bool, plan: Plan) -> Result<Plan, Reason>
    ensures { result ≡ if_fits fits plan }
{
    match plan {
        Plan::AskAgain { .. } => Ok(plan),
        Plan::Send { .. } | Plan::Ask { .. } | Plan::Wait(_) => {
            if fits { Ok(plan) } else { Err(Reason::TooLong) }
        }
    }
}

impl Forwarder {
    /// Returns the plan of a packet, or why it is dropped. Nothing changes.
    #[inline(always)]
    pub(crate) fn plan(&self, side: Side, packet: Packet) -> Result<Plan, Reason>
        ensures { result ≡ plan_of (shown_of self.now) side packet.flow packet.size }
    {
        let way = self.way_of(side, packet.flow)?;
        if !self.fits_at(way.exit(), packet.size) {
            return self.plan_long(packet.flow, way);
        }
        self.plan_on(packet.flow, way)
    }

    /// Returns the direction of a packet that came in on a side, or why it is dropped.
    #[inline(always)]
    pub(crate) fn way_of(&self, side: Side, flow: Flow) -> Result<Direction, Reason>
        ensures { result ≡ direction_of self.now.networks side flow.protocol flow.source.0
            flow.destination.0 }
    {
        direction_taken(
            &self.networks,
            side,
            flow.protocol,
            flow.source,
            flow.destination,
        )
    }

    /// Whether a packet of this size may be sent at the side at which it leaves: it isn't too long
    /// there, or it may be cut.
    #[inline(always)]
    pub(crate) fn fits_at(&self, exit: Side, size: Size) -> bool
        ensures { result ≡ fits_at (shown_of self.now) exit size }
    {
        size.length <= mtu_at(&self.networks, exit) || (self.networks.pass && !size.unbroken)
    }

    /// Returns the plan of a packet that is too long for the side at which it leaves.
    #[cold]
    fn plan_long(&self, flow: Flow, way: Direction) -> Result<Plan, Reason>
        ensures { result
            ≡ and_then (plan_on (shown_of self.now) flow way) (if_fits false) }
    {
        match self.plan_on(flow, way) {
            Ok(plan) => if_fits(false, plan),
            Err(reason) => Err(reason),
        }
    }

    #[inline(always)]
    fn plan_on(&self, flow: Flow, way: Direction) -> Result<Plan, Reason>
        ensures { result ≡ plan_on (shown_of self.now) flow way }
    {
        match way {
            Direction::Outward => self.plan_from(flow, None, self.look_for(flow)),
            Direction::Inward => {
                let pair = self.target_pair(flow)?;
                self.plan_to(flow.destination, Translation::Inward(pair))
            }
            Direction::Hairpin => {
                let pair = self.target_pair(flow)?;
                self.plan_from(flow, Some(pair), self.look_for(flow))
            }
        }
    }

    /// Returns what the endpoint of a packet's source would be given now; nothing changes.
    #[inline(always)]
    fn look_for(&self, flow: Flow) -> Want
        ensures { result ≡ look_for (shown_of self.now) flow }
    {
        self.core
            .look(&self.link, source_endpoint(flow), self.moment)
    }

    /// Returns the pair of the outside port to which a packet goes, or why there is none.
    #[inline(always)]
    fn target_pair(&self, flow: Flow) -> Result<Pair, Reason>
        ensures { result ≡ target_pair (shown_of self.now) flow }
    {
        pair_of(self.core.table().pair_of_port(target_key(flow)))
    }

    /// Returns the plan of a packet that has to wait for the pair of its endpoint.
    #[cold]
    fn plan_wait(&self, endpoint: Endpoint) -> Result<Plan, Reason>
        ensures { result ≡ (if has_place (shown_of self.now).kept (PairOf endpoint)
            then Ok (WaitFor endpoint) else Err CannotWait) }
    {
        if self.kept.has_place(WaitsFor::Pair(endpoint)) {
            Ok(Plan::Wait(endpoint))
        } else {
            Err(Reason::CannotWait)
        }
    }

    /// Returns the plan of a packet from the inside, by what its endpoint would be given.
    #[inline(always)]
    fn plan_from(&self, flow: Flow, other: Option<Pair>, given: Want) -> Result<Plan, Reason>
        ensures { result ≡ plan_from (shown_of self.now) flow (leaving_by other) given }
    {
        match given {
            Want::Port(port) => self.plan_to(
                flow.destination,
                leaving(own_pair(flow, port), other),
            ),
            Want::Wait => self.plan_wait(source_endpoint(flow)),
            Want::NoPort => Err(Reason::NoPort),
            Want::NotNow => Err(Reason::CannotWait),
            Want::HostLimit => Err(Reason::HostLimit),
        }
    }

    /// Returns the plan of a packet to this address whose pairs are known: to go on, or to wait for
    /// its next hop.
    #[inline(always)]
    pub(crate) fn plan_to(&self, to: Ip, by: Translation) -> Result<Plan, Reason>
        ensures { result ≡ plan_via (shown_of self.now) by to }
    {
        let hop = by.next_hop(&self.networks, to);
        let exit = by.direction().exit();
        match self.station(exit).mac_of(hop, self.moment) {
            Some(next) => Ok(Plan::Send { by, next }),
            None => {
                if self.kept.has_place(WaitsFor::Hop(exit, hop)) {
                    Ok(Plan::Ask { by, hop })
                } else {
                    Ok(Plan::AskAgain { by, hop })
                }
            }
        }
    }
}
