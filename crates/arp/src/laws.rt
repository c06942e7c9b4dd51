//! Facts about the definitions of packets and of the cache.
ghost use Rattle.std.specs.Prelude.{◌≡◌, ◌≢◌, ◌<◌, ◌≤◌, ◌+◌, ◌↔◌, ℕ, true, List, Some, None, slice_index};
ghost use Rattle.addresses.specs.declared.ethernet.Mac.{Mac};
ghost use Rattle.arp.specs.declared.caches.TheConstants.{ENTRIES, VALID_FOR, RENEWED_AFTER, ASKED_AFTER};
ghost use Rattle.arp.specs.declared.caches.CacheEntry.{CacheEntry};
ghost use Rattle.arp.specs.declared.packets.ArpPacket.{ArpPacket};
ghost use Rattle.arp.specs.declared.packets.TheConstants.{ARP_FRAME};
ghost use Rattle.arp.specs.declared.packets.field.TheConstants.{PACKET};
ghost use Rattle.arp.specs.Healing.{IsAfterPacket};
ghost use Rattle.arp.specs.Neighbours.{Neighbours, asks_at, mac_at};
ghost use Rattle.arp.specs.Packet.{arp_refusal, IsArp, packet_of, IsPacket, Spells, IsReadAs};

/// The bytes that [`parse`](crate::parse) accepts are exactly those of the grammar `IsArp`.
pub fn arp_grammar()
    ensures { (bytes : List ℕ) → (arp_refusal bytes ≡ None) ↔ IsArp bytes }
{}

/// A packet that is written, with any padding after it, is read as the same packet.
pub fn written_is_read()
    ensures { (bytes : List ℕ) (p : ArpPacket) → IsPacket p → Spells bytes p
        → IsReadAs bytes p }
{}

/// Bytes that are read begin with the packet that they are read as.
pub fn read_is_spelled()
    ensures { (bytes : List ℕ) → ((i : ℕ) → slice_index bytes i < 256) → IsArp bytes
        → Spells bytes (packet_of bytes) }
{}

/// A forged ARP packet does harm until the true owner's answer comes. Behind the next packet sent by
/// an entry whose hardware address an ARP packet changed, a request is due, where the entry was
/// learnt and last requested 100 centiseconds ago or more. After an ARP packet of the owner its
/// hardware address is found, for 120,000 centiseconds.
pub fn true_owner_heals()
    ensures asked { (known later : Neighbours) (e : CacheEntry) (mac : Mac) (at now : ℕ)
        → IsAfterPacket known e mac at later → mac ≢ e.mac → e.asked + ASKED_AFTER ≤ now
        → asks_at e.address.0 now later ≡ true }
    ensures owner { (known later : Neighbours) (e : CacheEntry) (mac : Mac) (at now : ℕ)
        → IsAfterPacket known e mac at later → now < at + VALID_FOR
        → mac_at e.address.0 now later ≡ Some mac }
{}

/// The numbers that the definitions take from the code: the bytes of a packet and of a frame, the
/// most entries of a cache, and in centiseconds how long an entry is valid, when one in use is
/// requested again, and when that request is repeated.
pub fn limits_law()
    ensures packet { PACKET ≡ 28 }
    ensures frame { ARP_FRAME ≡ 42 }
    ensures entries { ENTRIES ≡ 1024 }
    ensures valid_for { VALID_FOR ≡ 120000 }
    ensures renewed_after { RENEWED_AFTER ≡ 3000 }
    ensures asked_after { ASKED_AFTER ≡ 100 }
{}
