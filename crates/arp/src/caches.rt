//! The cache of neighbours that an interface knows by their hardware addresses.
ghost use Rattle.std.specs.Prelude.{◌≡◌, [], ◌↔◌, length, ◌||◌, IfOk, IfSome, OnErr, IsTrue};
ghost use Rattle.arp.specs.Macs.{AllSix, KnowsMacs};
ghost use Rattle.arp.specs.Neighbours.{asks_at, fixed_mac, has_entry, IsLearnable, learner_of, mac_at, sent_at, taught};
ghost use Rattle.arp.specs.Memory.{LacksCache};
ghost use Rattle.memory.specs.Memory.{WasRefused};

use crate::learnt::{Learnt, ask_in, learn, mac_in};
use crate::packets::octets_of;
use addresses::{Ip, Mac, Prefix};
use std::alloc::{AllocError, Global};
use std::marker::Model;

/// The most neighbours that a cache learns.
pub(crate) const ENTRIES: usize = 1024;

/// The age in centiseconds at which an entry stops being valid.
pub(crate) const VALID_FOR: u64 = 120_000;

/// The age in centiseconds from which an entry in use is requested again, so that the answer renews
/// it.
pub(crate) const RENEWED_AFTER: u64 = 3_000;

/// The time in centiseconds after which a request for an entry is repeated where no answer came.
pub(crate) const ASKED_AFTER: u64 = 100;

/// A neighbour from the settings, which doesn't change.
#[derive(Clone, Copy, Debug, PartialEq, Eq)]
pub struct Neighbour {
    pub address: Ip,
    pub mac: Mac,
}

/// A neighbour that was learnt or renewed at the time `at`, in centiseconds.
#[derive(Clone, Copy, Debug, PartialEq, Eq)]
pub struct CacheEntry {
    pub address: Ip,
    pub mac: Mac,
    pub at: u64,
    /// The time, in centiseconds, of the last request for the neighbour behind a packet sent to it,
    /// or of learning it where there was none since.
    pub asked: u64,
    /// Whether a packet was sent by the entry since it was learnt.
    pub sent: bool,
    /// Whether the last renewal gave the entry another hardware address.
    pub changed: bool,
}

/// What decides whom an interface learns: its network, its primary address and its virtual address.
#[derive(Clone, Copy, Debug, PartialEq, Eq)]
pub struct Interface {
    pub network: Prefix,
    pub primary_ip: Ip,
    pub virtual_ip: Ip,
}

/// The neighbours that an interface knows: those of the settings, and up to 1,024 that it has
/// learnt.
#[derive(Drop)]
pub struct Cache {
    fixed: Vec<Neighbour>,
    learnt: Learnt,
}

impl Model for Cache {
    ghost use Rattle.arp.specs.Log.{kept, IsLearnt};
    ghost use Rattle.arp.specs.Macs.{KnowsMacs};
    ghost use Rattle.arp.specs.Neighbours.{Neighbours};

    ghost Value = { Neighbours };

    ghost view = { λ c. record { fixed = c.fixed.items; learnt = kept c.learnt.log.items } };

    ghost invariant = { λ c. IsLearnt c.learnt
        × KnowsMacs (record { fixed = c.fixed.items; learnt = kept c.learnt.log.items }) };
}

impl Cache {
    /// Returns a cache of these fixed neighbours, which has learnt none, or an `AllocError` when
    /// out of memory. Of two fixed neighbours with the same address the first counts.
    pub fn new(alloc: Global, fixed: &[Neighbour]) -> Result<Self, AllocError>
        ensures fixed { IfOk result (λ c. c.fixed ≡ fixed.now) }
        ensures learnt { IfOk result (λ c. c.learnt ≡ []) }
        ensures refused { OnErr result (LacksCache (length fixed.now)) }
    {
        let learnt = Learnt::new(alloc)?;
        let fixed = whole_neighbours(alloc, fixed)?;
        Ok(Cache { fixed, learnt })
    }

    /// Renews a neighbour at the time `now`, in centiseconds, by an ARP packet that it sent. Where
    /// its address has no entry, learns it if the packet is for the interface (`for_us`): if it asks
    /// for the interface or answers it, or if a packet waits for its sender. Returns whether the
    /// address has an entry now. Of 1,024 entries of other addresses the oldest by which no packet
    /// was sent leaves, or the oldest where there is none, valid or not.
    pub fn learn(&mut self, address: Ip, mac: Mac, for_us: bool, now: u64) -> bool
        ensures after { self.new ≡ taught address mac for_us now self.old }
        ensures teaches { result ≡ (has_entry address.0 self.old.learnt || for_us) }
        ensures has { result ≡ has_entry address.0 self.new.learnt }
    {
        let mac = Mac(octets_of(mac));
        learn(&mut self.learnt, address, mac, for_us, now)
    }

    /// Returns the hardware address of a neighbour that is fixed, or that is valid at the time
    /// `now` in centiseconds; None where there is no such neighbour.
    #[inline(always)]
    pub fn mac_of(&self, address: Ip, now: u64) -> Option<Mac>
        ensures mac { result ≡ mac_at address.0 now self.now }
        ensures six { IfSome result (λ m. length m.0 ≡ 6) }
    {
        match fixed_mac(&self.fixed, address) {
            Some(mac) => Some(mac),
            None => mac_in(&self.learnt, address, now),
        }
    }

    /// Notes that a packet was sent to a neighbour at the time `now`, in centiseconds, and returns
    /// whether a request for its address is due behind the packet. It is due where the neighbour
    /// isn't fixed, was learnt or renewed 3,000 ago or more or got another hardware address by its
    /// last renewal, and was learnt, and last requested by this call, 100 ago or more.
    #[inline(always)]
    pub fn ask(&mut self, address: Ip, now: u64) -> bool
        ensures asks { result ≡ asks_at address.0 now self.old }
        ensures after { self.new ≡ sent_at address.0 now self.old }
    {
        match fixed_mac(&self.fixed, address) {
            Some(_) => false,
            None => ask_in(&mut self.learnt, address, now),
        }
    }

    /// Reminds the prover that every known hardware address has six bytes; does nothing at run
    /// time.
    pub fn recall(&self)
        ensures { KnowsMacs self.now }
    {
        let _ = &self.fixed;
    }
}

/// Returns a copy of these neighbours, whose hardware addresses the prover knows to have six bytes.
fn whole_neighbours(alloc: Global, neighbours: &[Neighbour]) -> Result<Vec<Neighbour>, AllocError>
    ensures same { IfOk result (λ v. v.items ≡ neighbours.now) }
    ensures six { IfOk result (λ v. AllSix (λ n. n.mac) v.items) }
    ensures refused { OnErr result (WasRefused (length neighbours.now)) }
{
    let mut whole = memory::with_room(alloc, neighbours.len())?;
    for neighbour in neighbours {
        whole.push_reserved(whole_neighbour(neighbour));
    }
    Ok(whole)
}

fn whole_neighbour(neighbour: &Neighbour) -> Neighbour
    ensures same { result ≡ neighbour.now }
    ensures six { length result.mac.0 ≡ 6 }
{
    Neighbour {
        address: neighbour.address,
        mac: Mac(octets_of(neighbour.mac)),
    }
}

fn fixed_mac(neighbours: &[Neighbour], address: Ip) -> Option<Mac>
    ensures { result ≡ fixed_mac address.0 neighbours.now }
{
    for neighbour in neighbours {
        if neighbour.address == address {
            return Some(neighbour.mac);
        }
    }
    None
}

/// Whether an interface learns a sender (RFC 826): one of its network, other than itself and the
/// virtual router, with the hardware address of one station.
pub fn is_learnable(interface: &Interface, sender: &Neighbour) -> bool
    ensures { IsTrue result ↔ IsLearnable (learner_of interface.now) sender.now }
{
    interface.network.contains(sender.address)
        && sender.address != interface.primary_ip
        && sender.address != interface.virtual_ip
        && sender.mac.0 != [0; 6]
        && sender.mac.0[0] % 2 == 0
}
