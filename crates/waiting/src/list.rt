//! Packets that wait, and the list of them.
ghost use Rattle.std.specs.Prelude.{◌≡◌, ◌≤◌, ◌+◌, ◌*◌, ◌++◌, ◌∷◌, [], ◌==◌, ◌-◌, ◌&&◌, length, IfOk, IsTrue, not, nat_le, if◌then◌else◌};
ghost use Rattle.std.specs.Prelude.{vec_len, vec_capacity, position};
ghost use Rattle.std.specs.List.{filter, list_any, AllPass};
ghost use Rattle.waiting.specs.Waits.{is_for_pair, same_wait, ends};
ghost use Rattle.waiting.specs.declared.waits.Ended.TheVariants.{One, AllPairs};
ghost use Rattle.waiting.specs.Packets.{is_young, has_place, has_room, pair_count, host_count, hop_count, ended_by, left_by, IsKept};
ghost use Rattle.waiting.specs.Packets.{beyond, octets_in};
ghost use Rattle.waiting.specs.Packets.{without_first_hop, with_room, asks_again, with_asked};
ghost use Rattle.waiting.specs.Packets.{AreApart, listed};
ghost use Rattle.std.specs.Prelude.{OnErr};
ghost use Rattle.waiting.specs.Memory.{LacksCopy, LacksPackets};

use crate::buffers::{LONGEST_FRAME, SpareBuffers};
use crate::{Ended, WaitsFor};
use addresses::Ip;
use nat_types::Side;
use std::alloc::{AllocError, Global};
use std::marker::Model;

/// The most packets that may wait for pairs, and the most that may wait for next hops.
const PLACES: usize = 64;

/// The most packets of one inside address that may wait for pairs.
const SHARE: usize = 16;

/// The time after which a next hop is asked for again, in centiseconds.
const ASKED_AFTER: u64 = 100;

/// The longest time that a packet waits, in centiseconds.
const LONGEST_WAIT: u64 = 300;

/// A packet that waits, as the frame in which it came.
#[derive(Debug, Drop)]
pub struct HeldPacket {
    /// The side on which the frame came in.
    pub side: Side,
    /// The bytes of the frame, unchanged: at most 65,549, an Ethernet header and the longest IPv4
    /// packet.
    pub bytes: Vec<u8>,
    /// The time since which the packet waits, in centiseconds.
    pub since: u64,
    pub wait: WaitsFor,
    /// The time at which the packet's next hop was last asked for, in centiseconds; for a packet
    /// that waits for a pair, the time since which it waits.
    pub asked: u64,
}

impl Model for HeldPacket {
    ghost use Rattle.std.specs.Prelude.{◌≤◌, length};
    ghost use Rattle.waiting.specs.Packets.{HeldPacket as Packet};

    ghost Value = { Packet };

    ghost view = { λ w. record {
      side = w.side;
      bytes = w.bytes.items;
      since = w.since;
      wait = w.wait;
      asked = w.asked;
    } };

    ghost invariant = { λ w. length w.bytes.items ≤ 65549 };
}

impl HeldPacket {
    /// Returns the same packet, waiting from `since` on for something else; a next hop counts as
    /// asked for at `since`.
    pub fn again(self, since: u64, wait: WaitsFor) -> HeldPacket
        ensures { result ≡ record self { since = since; wait = wait; asked = since } }
    {
        let HeldPacket {
            side,
            bytes,
            since: _,
            wait: _,
            asked: _,
        } = self;
        HeldPacket {
            side,
            bytes,
            since,
            wait,
            asked: since,
        }
    }

    /// Returns how many bytes the frame has beyond 1,514, the most of one that comes in.
    fn octets(&self) -> usize
        ensures count { result ≡ beyond (length self.now.bytes) }
        ensures few { result ≤ 64035 }
    {
        self.bytes.len().saturating_sub(LONGEST_FRAME)
    }

    fn is_young(&self, now: u64) -> bool
        ensures { result ≡ is_young now self.now }
    {
        now.saturating_sub(self.since) < LONGEST_WAIT
    }

    /// Whether the packet waits for this, and its next hop was last asked for 100 centiseconds ago
    /// or more.
    fn asks_again(&self, wait: WaitsFor, now: u64) -> bool
        ensures { result
            ≡ (same_wait wait self.now.wait && nat_le 100 (now - self.now.asked)) }
    {
        wait.is_same(self.wait) && now.saturating_sub(self.asked) >= ASKED_AFTER
    }
}

/// The packets that wait, in the order in which they were kept: at most 64 for pairs, one for each
/// endpoint and 16 of one inside address, and at most 64 for next hops, one for each side and address. The buffers of packets
/// that no longer wait are used again.
#[derive(Debug, Drop)]
pub struct WaitingPackets {
    packets: Vec<HeldPacket>,
    spare: SpareBuffers,
}

impl Model for WaitingPackets {
    ghost use Rattle.std.specs.Prelude.{List, ◌≤◌, vec_capacity};
    ghost use Rattle.waiting.specs.Packets.{HeldPacket as Packet, IsKept};

    ghost Value = { List Packet };

    ghost view = { λ k. k.packets.items };

    ghost invariant = { λ k. IsKept k.packets.items × (128 ≤ vec_capacity k.packets) };
}

/// Returns how many packets wait for pairs.
fn pair_count(packets: &[HeldPacket]) -> usize
    ensures { result ≡ pair_count packets.now }
{
    packets
        .iter()
        .filter(|packet| packet.wait.is_for_pair())
        .count()
}

/// Returns how many packets of an inside address wait for pairs.
fn host_count(packets: &[HeldPacket], address: Ip) -> usize
    ensures { result ≡ host_count address.0 packets.now }
{
    packets
        .iter()
        .filter(|packet| packet.wait.is_for_host(address))
        .count()
}

/// Returns how many packets wait for next hops.
fn hop_count(packets: &[HeldPacket]) -> usize
    ensures { result ≡ hop_count packets.now }
{
    packets
        .iter()
        .filter(|packet| !packet.wait.is_for_pair())
        .count()
}

/// Returns how many bytes the frames of packets have beyond 1,514 each.
fn octets_of(packets: &[HeldPacket]) -> usize
    requires few { length packets.now ≤ 128 }
    ensures count { result ≡ octets_in packets.now }
    ensures few { result ≤ 64035 * length packets.now }
{
    let mut total = 0;
    for packet in packets {
        total += packet.octets();
    }
    total
}

/// Whether one more packet may wait for this: for a pair where fewer than 64 do, and fewer than 16
/// of its inside address; for a next hop always.
fn has_room(packets: &[HeldPacket], wait: WaitsFor) -> bool
    ensures { result ≡ has_room wait packets.now }
{
    match wait {
        WaitsFor::Pair(endpoint) => {
            pair_count(packets) < PLACES && host_count(packets, endpoint.address) < SHARE
        }
        WaitsFor::Hop(..) => true,
    }
}

fn is_awaited(packets: &[HeldPacket], wait: WaitsFor) -> bool
    ensures { result ≡ list_any (λ packet. same_wait packet.wait wait) packets.now }
{
    packets.iter().any(|packet| packet.wait.is_same(wait))
}

/// Returns the index of the first packet that waits for this.
fn place_for(packets: &[HeldPacket], wait: WaitsFor) -> Option<usize>
    ensures { result ≡ position (λ packet. same_wait wait packet.wait) packets.now }
{
    packets.iter().position(|packet| wait.is_same(packet.wait))
}

/// Returns the index of the first packet that waits for a next hop.
fn first_hop(packets: &[HeldPacket]) -> Option<usize>
    ensures { result ≡ position (λ packet. not (is_for_pair packet.wait)) packets.now }
{
    packets.iter().position(|packet| !packet.wait.is_for_pair())
}

fn drop_first_hop(packets: &mut Vec<HeldPacket>)
    ensures items { packets.new.items ≡ without_first_hop packets.old.items }
    ensures capacity { vec_capacity packets.new ≡ vec_capacity packets.old }
{
    match first_hop(packets) {
        Some(place) => {
            let _ = packets.remove(place);
        }
        None => {}
    }
}

/// Drops the first packet that waits for a next hop, where a packet is to wait for a next hop and
/// 64 do already.
fn make_room(packets: &mut Vec<HeldPacket>, wait: WaitsFor)
    ensures items { packets.new.items ≡ with_room wait packets.old.items }
    ensures capacity { vec_capacity packets.new ≡ vec_capacity packets.old }
{
    match wait {
        WaitsFor::Pair(_) => {}
        WaitsFor::Hop(..) => {
            if hop_count(packets) >= PLACES {
                drop_first_hop(packets);
            }
        }
    }
}

/// Whether a packet waits for this whose next hop is to be asked for again.
fn asks_again(packets: &[HeldPacket], wait: WaitsFor, now: u64) -> bool
    ensures { result ≡ asks_again now wait packets.now }
{
    packets.iter().any(|packet| packet.asks_again(wait, now))
}

/// Notes that the next hop of the packet that waits for this was asked for at `now`.
fn note_asked(packets: &mut Vec<HeldPacket>, wait: WaitsFor, now: u64)
    requires once { AreApart packets.old.items }
    ensures items { packets.new.items ≡ with_asked now wait packets.old.items }
    ensures capacity { vec_capacity packets.new ≡ vec_capacity packets.old }
{
    match place_for(packets, wait) {
        Some(place) => packets[place].asked = now,
        None => {}
    }
}

/// Moves the packets whose wait is over to the end of another list, which has capacity for them.
fn move_ended(packets: &mut Vec<HeldPacket>, ended: Ended, list: &mut Vec<HeldPacket>)
    requires room { vec_len list.old + vec_len packets.old ≤ vec_capacity list.old }
    ensures left { packets.new.items ≡ left_by ended packets.old.items }
    ensures taken { list.new.items ≡ list.old.items ++ ended_by ended packets.old.items }
    ensures capacity { vec_capacity packets.new ≡ vec_capacity packets.old }
    ensures room { vec_capacity list.new ≡ vec_capacity list.old }
{
    let mut at = 0;
    while at < packets.len() {
        if ended.ends(packets[at].wait) {
            let packet = packets.remove(at);
            list.push_reserved(packet);
        } else {
            at += 1;
        }
    }
}

/// Takes the packet that waits for this off a list in which no two wait for the same.
fn remove_one(packets: &mut Vec<HeldPacket>, wait: WaitsFor) -> Option<HeldPacket>
    requires once { AreApart packets.old.items }
    ensures left { packets.new.items ≡ left_by (One wait) packets.old.items }
    ensures taken { listed result ≡ ended_by (One wait) packets.old.items }
    ensures capacity { vec_capacity packets.new ≡ vec_capacity packets.old }
{
    match place_for(packets, wait) {
        Some(place) => Some(packets.remove(place)),
        None => None,
    }
}

fn retain_young(packets: &mut Vec<HeldPacket>, now: u64)
    ensures items { packets.new.items ≡ filter (is_young now) packets.old.items }
    ensures capacity { vec_capacity packets.new ≡ vec_capacity packets.old }
{
    packets.retain(|packet| packet.is_young(now));
}

impl WaitingPackets {
    /// Returns an empty list. Takes the memory of all its places, and fails where there isn't
    /// enough.
    pub fn new(alloc: Global) -> Result<WaitingPackets, AllocError>
        ensures none { IfOk result (λ k. k ≡ []) }
        ensures refused { OnErr result LacksPackets }
    {
        let packets = memory::with_room(alloc, 2 * PLACES)?;
        let spare = SpareBuffers::new(alloc)?;
        Ok(WaitingPackets { packets, spare })
    }

    /// Returns a packet that waits from `since` on; a next hop counts as asked for at `since`. The
    /// bytes are copied into the buffer of a packet that no longer waits, or else into a new one.
    /// Fails where there isn't enough memory.
    pub fn copy(
        &mut self,
        alloc: Global,
        side: Side,
        bytes: &[u8],
        since: u64,
        wait: WaitsFor,
    ) -> Result<HeldPacket, AllocError>
        requires short { length bytes.now ≤ 65549 }
        ensures packet { IfOk result (λ w. w
            ≡ record {
              side = side;
              bytes = bytes.now;
              since = since;
              wait = wait;
              asked = since;
            }) }
        ensures same { self.new ≡ self.old }
        ensures refused { OnErr result (LacksCopy (length bytes.now)) }
    {
        let bytes = self.spare.copy_of(alloc, bytes)?;
        Ok(HeldPacket {
            side,
            bytes,
            since,
            wait,
            asked: since,
        })
    }

    /// Keeps the buffer of a packet that no longer waits for a packet to come.
    pub fn reuse(&mut self, packet: HeldPacket)
        ensures same { self.new ≡ self.old }
    {
        let HeldPacket {
            side: _,
            bytes,
            since: _,
            wait: _,
            asked: _,
        } = packet;
        self.spare.put(bytes);
    }

    /// Returns the packets in the order in which they were kept.
    pub fn packets(&self) -> &[HeldPacket]
        ensures { result.now ≡ self.now }
    {
        self.packets.as_slice()
    }

    /// Returns how many packets wait.
    pub fn len(&self) -> usize
        ensures count { result ≡ length self.now }
        ensures most { result ≤ 128 }
    {
        self.packets.len()
    }

    /// Returns how many bytes the frames of the packets have beyond 1,514 each. They are 0 unless a
    /// packet waits whose frame was put together of fragments.
    pub fn octets(&self) -> usize
        ensures count { result ≡ octets_in self.now }
        ensures few { result ≤ 8196480 }
    {
        let _few = self.len();
        octets_of(&self.packets)
    }

    /// Whether no packet waits.
    pub fn is_empty(&self) -> bool
        ensures { result ≡ (length self.now == 0) }
    {
        self.packets.is_empty()
    }

    /// Whether a packet that waits for this can be kept: none waits for the same, and of those for
    /// pairs there are fewer than 64, and fewer than 16 of its inside address.
    pub fn has_place(&self, wait: WaitsFor) -> bool
        ensures { result ≡ has_place self.now wait }
    {
        has_room(&self.packets, wait) && !is_awaited(&self.packets, wait)
    }

    /// Appends a packet. Where the packet is the 65th that waits for a next hop, the oldest of
    /// these is dropped.
    pub fn keep(&mut self, packet: HeldPacket)
        requires { IsTrue (has_place self.old packet.wait) }
        ensures kept { self.new ≡ with_room packet.wait self.old ++ packet ∷ [] }
        ensures octets { octets_in self.new ≤ octets_in self.old + beyond (length packet.bytes) }
    {
        make_room(&mut self.packets, packet.wait);
        self.packets.push_reserved(packet);
    }

    /// Whether the next hop for which a packet waits is to be asked for again at `now`
    /// (centiseconds): it was last asked for 100 cs ago or more. If so, it counts as asked for now.
    pub fn ask_again(&mut self, wait: WaitsFor, now: u64) -> bool
        ensures asks { result ≡ asks_again now wait self.old }
        ensures after { self.new ≡ (if result then with_asked now wait self.old else self.old) }
        ensures octets { octets_in self.new ≡ octets_in self.old }
    {
        let asks = asks_again(&self.packets, wait, now);
        if asks {
            note_asked(&mut self.packets, wait, now);
        }
        asks
    }

    /// Moves the packets whose wait is over to the end of `list`, in the order in which they were
    /// kept. `list` must have capacity for all that wait.
    pub fn take_ended(&mut self, ended: Ended, list: &mut Vec<HeldPacket>)
        requires room { vec_len list.old + length self.old ≤ vec_capacity list.old }
        ensures left { self.new ≡ left_by ended self.old }
        ensures taken { list.new.items ≡ list.old.items ++ ended_by ended self.old }
        ensures gone { AllPass (λ packet. not (ends ended packet.wait)) self.new }
        ensures count { vec_len list.new + length self.new ≡ vec_len list.old + length self.old }
        ensures capacity { vec_capacity list.new ≡ vec_capacity list.old }
        ensures octets { octets_in self.new + octets_in (ended_by ended self.old)
            ≡ octets_in self.old }
        // At most 64 packets wait for pairs.
        ensures pairs { length (ended_by AllPairs self.old) ≤ 64 }
    {
        move_ended(&mut self.packets, ended, list);
    }

    /// Takes off the packet that waits for this, if there is one.
    pub fn take_one(&mut self, wait: WaitsFor) -> Option<HeldPacket>
        ensures left { self.new ≡ left_by (One wait) self.old }
        ensures taken { listed result ≡ ended_by (One wait) self.old }
        ensures octets { octets_in self.new + octets_in (listed result) ≡ octets_in self.old }
    {
        remove_one(&mut self.packets, wait)
    }

    /// Drops the packets that have waited for 300 centiseconds or more.
    pub fn drop_old(&mut self, now: u64)
        ensures young { self.new ≡ filter (is_young now) self.old }
        ensures octets { octets_in self.new ≤ octets_in self.old }
    {
        retain_young(&mut self.packets, now);
    }

    /// Reminds the prover of what the list keeps; it does nothing when it runs.
    pub fn recall(&self)
        ensures { IsKept self.now }
    {
        let _ = &self.packets;
    }
}
