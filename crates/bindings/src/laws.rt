//! Laws of the table.
ghost use Rattle.std.specs.Prelude.{◌≡◌, ℕ, ◌<◌, ◌≤◌, List, ◌∷◌, length, replicate, Bool, true, Some, None, if◌then◌else◌};
ghost use Rattle.nat_types.specs.declared.pairs.Key.{Key as OutsidePort};
ghost use Rattle.bindings.specs.Entries.{slot_of};
ghost use Rattle.bindings.specs.Numbers.{example, numbers_of};
ghost use Rattle.bindings.specs.Ports.{in_either};
ghost use Rattle.bindings.specs.Table.{Table as Seen, IsTable, AreInRanges, IsPast, Accounts, idle_keys_of};
ghost use Rattle.bindings.specs.Lives.{rests_at, is_unused_at, use_counts_at, is_among};
ghost use Rattle.bindings.specs.declared.entries.Entry.{Entry as Row};
ghost use Rattle.activity.specs.Lives.{History, came, with_packet, renewed};
ghost use Rattle.activity.specs.Rests.{HaveRested};
ghost use Rattle.activity.specs.Lives.{least_rest};
ghost use Rattle.activity.specs.declared.packets.Packet.{Packet as Carried};

/// States that the table is never Full for a key of the ranges without an entry, where all entries are in the ranges.
pub fn room_law()
    ensures { (t : Seen) → IsTable t → AreInRanges t → (key : OutsidePort)
        → in_either t.zero t.one key.port.0 ≡ true → slot_of t.entries key ≡ None
        → length t.entries < t.capacity }
{}

/// States what a key's entry knows of the uses of its pair. A list of uses has the times at which the gateway used a
/// key's pair in its present life, of the uses that count. `Accounts` says that the key's entry knows of all of them.
/// That begins where they have rested and the entry comes in (`begins`) or is renewed (`renewed`), and goes on with a
/// carried packet, whose use is one more where it counts (`carried`), where the entry's life begins anew while its pair
/// is in use (`anew`), and with any change that leaves the entry its pasts (`kept`). Where the entry is idle, or unused,
/// all the uses have rested (`idle`, `listed`, `unused`): `HaveRested` of `activity` says what that means for a trace.
pub fn uses_law()
    ensures begins { (t : Seen) → (key : OutsidePort) → (by_install : Bool) → (now : ℕ)
        → (uses : List ℕ) → IsPast t key (came by_install now)
        → HaveRested (least_rest key.protocol) now uses → Accounts t key now uses }
    ensures carried { (t u : Seen) → (key : OutsidePort) → (since : ℕ) → (uses : List ℕ)
        → (packet : Carried)
        → ((past : History) → IsPast t key past → IsPast u key (with_packet packet past))
        → since ≤ packet.at → Accounts t key since uses
        → Accounts u key packet.at (if use_counts_at t.entries t.lives key packet
        then packet.at ∷ uses else uses) }
    ensures renewed { (t u : Seen) → (key : OutsidePort) → (since now : ℕ)
        → (uses : List ℕ)
        → ((past : History) → IsPast t key past → IsPast u key (renewed now past))
        → HaveRested (least_rest key.protocol) now uses → Accounts t key since uses
        → Accounts u key now uses }
    ensures anew { (t u : Seen) → (key : OutsidePort) → (now : ℕ) → (uses : List ℕ)
        → ((past : History) → IsPast t key past → IsPast u key (renewed now past))
        → Accounts t key now uses → Accounts u key now uses }
    ensures kept { (t u : Seen) → (key : OutsidePort) → (since now : ℕ) → (uses : List ℕ)
        → ((past : History) → IsPast t key past → IsPast u key past) → since ≤ now
        → Accounts t key since uses → Accounts u key now uses }
    ensures idle { (t : Seen) → (key : OutsidePort) → (now : ℕ) → (uses : List ℕ)
        → Accounts t key now uses → rests_at t.entries t.lives key now ≡ true
        → HaveRested (least_rest key.protocol) now uses }
    ensures listed { (t : Seen) → (key : OutsidePort) → (entry : Row) → (lone : Bool) → (now : ℕ)
        → (uses : List ℕ) → IsTable t → slot_of t.entries key ≡ Some entry
        → Accounts t key now uses → is_among key (idle_keys_of t lone now) ≡ true
        → HaveRested (least_rest key.protocol) now uses }
    ensures unused { (t : Seen) → (key : OutsidePort) → (now : ℕ) → (uses : List ℕ)
        → Accounts t key now uses → is_unused_at t.entries t.lives key ≡ true
        → HaveRested (least_rest key.protocol) now uses }
{}

/// States that the definition of an endpoint's numbers gives those of an example that any SHA-256 gives: of
/// 192.168.1.10:5000 over UDP, behind keys of 32 bytes that are all 0 or all 1.
pub fn numbers_law()
    ensures zeros { numbers_of (replicate 32 0) example ≡ (0x6C9D2865, 0x392B9567) }
    ensures ones { numbers_of (replicate 32 1) example ≡ (0x4B3649BC, 0x3AA02976) }
{}
