//! Passes over the entries of a store, and questions about them.
ghost use Rattle.std.specs.Prelude.{◌≡◌, ◌+◌, ◌≤◌, ◌++◌, [], ◌∷◌, if◌then◌else◌, count_by, vec_len, vec_capacity, IfOk, OnOk, OnErr};
ghost use Rattle.memory.specs.Memory.{WasRefused};
ghost use Rattle.bindings.specs.Entries.{is_listed, is_sought, entry_in, refusal_of, pairs_in};
ghost use Rattle.bindings.specs.Lists.{first_after};
ghost use Rattle.bindings.specs.Dues.{idle_among, is_idle_key};
ghost use Rattle.bindings.specs.Ports.{is_free_in, is_vacant};

use crate::entries::{endpoint_of, is_pair_state, is_translating, key_of, rank_of_state};
use crate::store::Store;
use crate::tallies::{Sought, is_sought_state};
use crate::watches::Watch;
use crate::{Entry, TableFault};
use addresses::{Port, Protocol};
use memory::push;
use nat_types::{EntryState, Key, Pair};
use std::alloc::{AllocError, Global};

/// Returns the first reason that holds for which an entry can't come in, or None where it can.
pub(crate) fn refusal(
    store: &Store,
    capacity: usize,
    pair: Pair,
    state: EntryState,
) -> Option<TableFault>
    ensures { result ≡ refusal_of capacity store.now.entries (entry_in state pair) }
{
    if store.len() >= capacity {
        return Some(TableFault::Full);
    }
    if store.entry(key_of(pair)).is_some() {
        return Some(TableFault::PortTaken);
    }
    if let Some(rank) = rank_of_state(state)
        && store.entry_on(rank, endpoint_of(pair)).is_some()
    {
        return Some(TableFault::EndpointTaken);
    }
    None
}

/// Whether no entry of a protocol has the port.
fn is_free_port(store: &Store, protocol: Protocol, port: Port) -> bool
    ensures { result ≡ is_free_in store.now.entries protocol port.0 }
{
    store.entry(Key { protocol, port }).is_none()
}

/// Whether no entry of any protocol has the port.
pub(crate) fn is_vacant_port(store: &Store, port: Port) -> bool
    ensures { result ≡ is_vacant store.now.entries port.0 }
{
    is_free_port(store, Protocol::Icmp, port)
        && is_free_port(store, Protocol::Tcp, port)
        && is_free_port(store, Protocol::Udp, port)
}

fn push_if(pairs: &mut Vec<Pair>, passes: bool, pair: Pair) -> Result<(), AllocError>
    ensures items { OnOk result (pairs.new.items
        ≡ pairs.old.items ++ (if passes then pair ∷ [] else [])) }
    ensures refused { OnErr result (WasRefused 1) }
{
    if passes {
        push(pairs, pair)?;
    }
    Ok(())
}

fn is_listed_state(translating: bool, state: EntryState) -> bool
    ensures { result ≡ is_listed translating state }
{
    if translating {
        is_translating(state)
    } else {
        is_pair_state(state)
    }
}

/// Returns the pairs that translate, or all but Doomed ones, in order.
pub(crate) fn list_pairs(
    alloc: Global,
    store: &Store,
    translating: bool,
) -> Result<Vec<Pair>, AllocError>
    ensures items { IfOk result (λ v. v.items
        ≡ pairs_in (is_listed translating) store.now.entries) }
    ensures refused { OnErr result (WasRefused 1) }
{
    store.recall();
    let mut pairs = Vec::new(alloc);
    let mut last = None;
    while let Some(entry) = store.entry_after(last) {
        let Entry { pair, state } = entry;
        push_if(&mut pairs, is_listed_state(translating, state), pair)?;
        last = Some(key_of(pair));
    }
    Ok(pairs)
}

/// Returns the first entry after a key in the order of those that are sought, or the first of all for None. Where there
/// is none in the store, no entry is looked at.
pub(crate) fn next_sought(store: &Store, sought: Sought, from: Option<Key>) -> Option<Entry>
    ensures { result ≡ first_after (is_sought sought) from store.now.entries }
{
    if store.count(sought) == 0 {
        return None;
    }
    store.recall();
    let mut last = from;
    while let Some(entry) = store.entry_after(last) {
        if is_sought_state(sought, entry.state) {
            return Some(entry);
        }
        last = Some(key_of(entry.pair));
    }
    None
}

/// Whether a key's entry is looked at, and is idle.
fn is_idle_entry(store: &Store, key: Key, watch: Watch, now: u64) -> bool
    ensures { result ≡ is_idle_key watch now store.now.entries store.now.lives key }
{
    match store.entry(key) {
        Some(entry) => watch.sees(entry.state) && store.is_idle(key, now),
        None => false,
    }
}

/// Returns how many of the keys have idle entries that are looked at.
pub(crate) fn count_idle(store: &Store, keys: &[Key], watch: Watch, now: u64) -> usize
    ensures { result
        ≡ count_by (is_idle_key watch now store.now.entries store.now.lives) keys.now }
{
    let mut count = 0;
    for key in keys.iter() {
        if is_idle_entry(store, *key, watch, now) {
            count += 1;
        }
    }
    count
}

/// Appends those of the keys whose entries are looked at and are idle to a list with capacity for them.
pub(crate) fn list_idle(store: &Store, keys: &[Key], watch: Watch, now: u64, out: &mut Vec<Key>)
    requires { vec_len out.old + count_by (is_idle_key watch now store.now.entries store.now.lives)
        keys.now ≤ vec_capacity out.old }
    ensures items { out.new.items
        ≡ out.old.items ++ idle_among watch now store.now.entries store.now.lives keys.now }
    ensures capacity { vec_capacity out.new ≡ vec_capacity out.old }
{
    for key in keys.iter() {
        if is_idle_entry(store, *key, watch, now) {
            out.push_reserved(*key);
        }
    }
}
