//! The packets that a pair carries.
ghost use Rattle.std.specs.Prelude.{◌≡◌, ◌+◌, ◌<◌, ◌≤◌, ◌++◌, ℕ, Bool, [], true, is_some, vec_len};
ghost use Rattle.std.specs.Prelude.{vec_capacity, List};
ghost use Rattle.activity.specs.Lives.{History, with_packet};
ghost use Rattle.bindings.specs.Lives.{KeepsOthers};
ghost use Rattle.bindings.specs.Table.{IsPast};
ghost use Rattle.link.specs.Link.{Link as End};
ghost use Rattle.nat_types.specs.declared.records.Record.{Record as Rec};
ghost use Rattle.spec_binding.specs.Machine.{Stands, Works};
ghost use Rattle.spec_binding.specs.Books.{is_synced as is_synced_at};
ghost use Rattle.spec_binding.specs.Rows.{wish_of, carry_row, quiet as quiet_row};
ghost use Rattle.spec_binding.specs.Rows.{wish as wish_with};
ghost use Rattle.spec_binding.specs.declared.changes.Want.TheVariants.{Port as PortOf};
ghost use Rattle.bindings.specs.Entries.{entry_of, slot_of};
ghost use Rattle.spec_binding.specs.Ledgers.{carried_ledger};
ghost use Rattle.spec_binding.specs.Uses.{carried_notes};
ghost use Rattle.bind_core.specs.Cores.{book_of, carries_pair, ledger_of, packet_at};

use crate::Core;
use crate::deeds::{carry_by, is_carried, note};
use crate::rows::{carry, is_synced, quiet};
use activity::{Packet, Remote, Way};
use addresses::TcpFlags;
use nat_types::{Key, Note, Pair};
use spec_binding::{Transition, carry_works};

impl Core {
    /// Whether the table has exactly this pair, and translates with it. Looks at the pair's key
    /// alone. `want` changes nothing for the endpoint of such a pair, and answers its port at a
    /// gateway that is synced, where it is the endpoint's pair.
    #[inline(always)]
    pub fn carries(&self, pair: Pair) -> bool
        ensures exact { result ≡ carries_pair (book_of self.now) pair }
        ensures quiet { result ≡ true → (apart full : Bool)
            → (wish_of (book_of self.now) apart full pair.endpoint).row ≡ quiet_row }
        ensures port { result ≡ true → is_synced_at self.now.stage ≡ true
            → entry_of self.now.table.entries pair.endpoint
            ≡ slot_of self.now.table.entries pair.key → (apart full : Bool)
            → wish_of (book_of self.now) apart full pair.endpoint
            ≡ wish_with (PortOf pair.key.port) quiet_row }
    {
        self.table.recall();
        is_carried(self.table.pair_of_port(pair.key), pair)
    }

    #[inline(always)]
    fn carry_row_of(&self, key: Key) -> Transition
        ensures { result ≡ carry_row (book_of self.now) key }
    {
        if is_synced(self.stage) {
            carry(self.table.pair_of_port(key))
        } else {
            quiet()
        }
    }

    /// Adds a packet to or from a remote host to what the pair of a key carried, and notes that the
    /// pair is used, and whether the use counts. Nothing changes where the pair doesn't translate.
    pub fn carried(
        &mut self,
        key: Key,
        remote: Remote,
        way: Way,
        flags: TcpFlags,
        now: u64,
        notes: &mut Vec<Note>,
    )
        requires reserved { vec_len notes.old < vec_capacity notes.old }
        ensures same { self.new ≡ record self.old {
          table = record self.old.table {
            lives = self.new.table.lives;
          };
        } }
        ensures ledger { let packet = packet_at self.old remote way flags now in
            ledger_of self.new ≡ carried_ledger key packet (ledger_of self.old) }
        ensures longer { let packet = packet_at self.old remote way flags now in
            is_some (carry_row (book_of self.old) key).what ≡ true → (past : History)
            → IsPast self.old.table key past
            → IsPast self.new.table key (with_packet packet past) }
        ensures others { KeepsOthers key self.old.table.entries self.old.table.lives
            self.new.table.entries self.new.table.lives }
        ensures notes { let packet = packet_at self.old remote way flags now in
            notes.new.items ≡ notes.old.items ++ carried_notes (ledger_of self.old) key packet }
        ensures len { vec_len notes.new ≤ vec_len notes.old + 1 }
        ensures capacity { vec_capacity notes.new ≡ vec_capacity notes.old }
        // For any end of the link: nothing is pushed.
        ensures works { let packet = packet_at self.old remote way flags now in
            (e : End) (h : List Rec) (n : ℕ) → Stands (book_of self.old) e h
            → Works now [] [] (book_of self.old) e n (book_of self.new) e n
            (carried_notes (ledger_of self.old) key packet) h }
    {
        carry_works();
        let row = self.carry_row_of(key);
        let packet = Packet {
            remote,
            way,
            flags,
            inward_refresh: self.rules.inward_refresh,
            at: now,
        };
        let counts = carry_by(&mut self.table, row.what.is_some(), key, packet);
        note(notes, self.id, now, counts, row.what);
    }
}
