//! The changes of all entries of a table when the peer begins anew, or is off for good.
ghost use Rattle.std.specs.Prelude.{◌≡◌, ◌≤◌, Some, map, if◌then◌else◌};
ghost use Rattle.std.specs.List.{filter};
ghost use Rattle.bindings.specs.Entries.{is_pair, entry_in, slot_of};
ghost use Rattle.bindings.specs.Lists.{without};
ghost use Rattle.bindings.specs.Lives.{lives_without};
ghost use Rattle.activity.specs.Lives.{life_renewed};
ghost use Rattle.bindings.specs.Ports.{AreAlike, AreFree, SameBounds, SameOwned};
ghost use Rattle.bindings.specs.Revivals.{woken_entry, lives_of_pairs};

use crate::Entry;
use crate::entries::{is_pair_state, key_of, woken_state};
use crate::ports::Ports;
use crate::store::Store;
use nat_types::{EntryState, Pair};

/// Removes an entry where it is Doomed, and makes its key free.
fn drop_if_doomed(store: &mut Store, ports: &mut Ports, pair: Pair, state: EntryState)
    requires held { slot_of store.old.entries pair.key ≡ Some (entry_in state pair) }
    requires same { AreAlike ports.old.tcp.lowest ports.old.tcp.highest ports.old }
    requires free { AreFree ports.old.tcp.lowest ports.old.tcp.highest store.old.entries ports.old }
    ensures entries { store.new.entries ≡ (if is_pair state then store.old.entries
        else without pair.key store.old.entries) }
    ensures lives { store.new.lives ≡ (if is_pair state then store.old.lives
        else lives_without pair.key store.old.entries store.old.lives) }
    ensures room { store.new.room ≡ store.old.room }
    ensures spare { store.old.spare ≤ store.new.spare }
    ensures hashers { store.new.hashers ≡ store.old.hashers }
    ensures free { AreFree ports.old.tcp.lowest ports.old.tcp.highest store.new.entries ports.new }
    ensures owned { SameOwned ports.old ports.new }
    ensures bounds { SameBounds ports.old ports.new }
{
    if !is_pair_state(state) {
        let key = key_of(pair);
        store.take_out(key);
        ports.put_back(key);
    }
}

/// Removes the Doomed entries and their lives, and makes their keys free.
pub(crate) fn drop_doomed(store: &mut Store, ports: &mut Ports)
    requires same { AreAlike ports.old.tcp.lowest ports.old.tcp.highest ports.old }
    requires free { AreFree ports.old.tcp.lowest ports.old.tcp.highest store.old.entries ports.old }
    ensures entries { store.new.entries ≡ filter (λ e. is_pair e.state) store.old.entries }
    ensures lives { store.new.lives ≡ lives_of_pairs store.old.entries store.old.lives }
    ensures room { store.new.room ≡ store.old.room }
    ensures spare { store.old.spare ≤ store.new.spare }
    ensures hashers { store.new.hashers ≡ store.old.hashers }
    ensures free { AreFree ports.old.tcp.lowest ports.old.tcp.highest store.new.entries ports.new }
    ensures owned { SameOwned ports.old ports.new }
    ensures bounds { SameBounds ports.old ports.new }
{
    let mut last = None;
    while let Some(entry) = store.entry_after(last) {
        store.recall();
        let Entry { pair, state } = entry;
        drop_if_doomed(store, ports, pair, state);
        last = Some(key_of(pair));
    }
    store.recall();
}

/// Makes each pair of which the peer hadn't agreed, or that it was asked to close, Live.
pub(crate) fn wake(store: &mut Store)
    ensures entries { store.new.entries ≡ map woken_entry store.old.entries }
    ensures lives { store.new.lives ≡ store.old.lives }
    ensures room { store.new.room ≡ store.old.room }
    ensures spare { store.old.spare ≤ store.new.spare }
    ensures hashers { store.new.hashers ≡ store.old.hashers }
{
    let mut last = None;
    while let Some(entry) = store.entry_after(last) {
        store.recall();
        let Entry { pair, state } = entry;
        let key = key_of(pair);
        store.turn(key, woken_state(state));
        last = Some(key);
    }
}

/// Begins the life of each pair anew at `now`, with an empty list of packets.
pub(crate) fn renew_all(store: &mut Store, now: u64)
    ensures { store.new ≡ record store.old {
      lives = map (life_renewed now) store.old.lives;
    } }
{
    store.recall();
    let mut last = None;
    while let Some(entry) = store.entry_after(last) {
        store.recall();
        let key = key_of(entry.pair);
        store.renew(key, now);
        last = Some(key);
    }
}
