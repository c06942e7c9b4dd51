//! Laws of the batch and of its loading.
ghost use Rattle.std.specs.Prelude.{◌≡◌, ◌≤◌, ◌+◌, ◌*◌, ◌&&◌, ◌++◌, ℕ, Some, List, [], true, false};
ghost use Rattle.std.specs.Prelude.{length, not};
ghost use Rattle.nat_types.specs.declared.pairs.EntryState.{EntryState as State};
ghost use Rattle.nat_types.specs.declared.pairs.Key.{Key as OutsidePort};
ghost use Rattle.nat_types.specs.declared.records.Record.{Record as Rec};
ghost use Rattle.port_range.specs.Ports.{is_listed};
ghost use Rattle.bindings.specs.declared.entries.Entry.{Entry as Row};
ghost use Rattle.bindings.specs.Entries.{slot_of, pairs_in, HasDistinctKeys};
ghost use Rattle.bindings.specs.Lists.{put_in, with_state, without};
ghost use Rattle.bindings.specs.Ports.{in_either};
ghost use Rattle.bindings.specs.Table.{Table as Seen, IsTable, AreInRanges};
ghost use Rattle.resync.specs.Batch.{is_settled, batch_of, HasNoDoomed, AreHeldElsewhere, CanBeSent};
ghost use Rattle.resync.specs.Cursor.{to_come};
ghost use Rattle.resync.specs.Loading.{Load};
ghost use Rattle.resync.specs.Whole.{drawn, undrawn, until_done, load_of_table, ports_left};
ghost use Rattle.resync.specs.declared.cursor.Cursor.{Cursor as Place};

/// What a gateway has loaded at Done is exactly what the peer drew. A table's batch is drawn in any
/// parts, is taken at any load, and may be followed by any records: at its Done the load has the
/// settled pairs, each once and in order, Held on ports that the sender owns, else Live, and is to
/// own all other ports of the ranges. Both pairs of an endpoint that has two are among them.
pub fn whole_table_law()
    ensures loaded { (t : Seen) → IsTable t → AreInRanges t → HasNoDoomed t.entries
        → AreHeldElsewhere t.owned t.entries → CanBeSent t
        → (l : Load)
        → l.zero ≡ t.zero → l.one ≡ t.one → (sizes : List ℕ) (later : List Rec)
        → undrawn sizes (batch_of t.owned t.entries) ≡ []
        → until_done l (drawn sizes (batch_of t.owned t.entries) ++ later)
        ≡ Some (record { load = load_of_table t; behind = later }) }
    ensures drawn { (sizes : List ℕ) (batch : List Rec)
        → drawn sizes batch ++ undrawn sizes batch
        ≡ batch }
    ensures ports { (t : Seen) → (port : ℕ) → is_listed port (ports_left t.zero t.one t.owned)
        ≡ (not (is_listed port t.owned) && in_either t.zero t.one port) }
{}

/// What is still to be drawn depends on the owned ports and the settled pairs alone: it stays as
/// proposals and pairs made alone come and go, and as an entry goes from one settled state into
/// another, or from one that isn't settled into another such.
pub fn steady_batch_law()
    ensures settled { (c : Place) (owned : List ℕ) (es fs : List Row) → pairs_in is_settled es
        ≡ pairs_in is_settled fs → to_come c owned es ≡ to_come c owned fs }
    ensures proposed { (c : Place) (owned : List ℕ) (es : List Row) (e : Row)
        → is_settled e.state ≡ false → to_come c owned (put_in e es) ≡ to_come c owned es }
    ensures turned { (c : Place) (owned : List ℕ) (es : List Row) (key : OutsidePort) (s : State)
        → HasDistinctKeys es
        → ((x : Row) → slot_of es key ≡ Some x → is_settled x.state ≡ is_settled s)
        → to_come c owned (with_state key s es) ≡ to_come c owned es }
    ensures dropped { (c : Place) (owned : List ℕ) (es : List Row) (key : OutsidePort)
        → HasDistinctKeys es
        → ((x : Row) → slot_of es key ≡ Some x → is_settled x.state ≡ false)
        → to_come c owned (without key es) ≡ to_come c owned es }
{}

/// A batch has at most two records for each entry that the table can have, and two more.
pub fn batch_room_law()
    ensures { (t : Seen) → IsTable t
        → length (batch_of t.owned t.entries) ≤ 2 * t.capacity + 2 }
{}
