//! The neighbours that a cache has learnt: a log of them in order, and an index of the log by
//! address.
ghost use Rattle.std.specs.Prelude.{◌≡◌, ◌≤◌, ◌++◌, ◌∷◌, [], ◌<◌, ◌||◌, ℕ, Some, true, false, take, length, vec_len, vec_capacity, IfOk, IfErr, IfSome, OnErr, MatchOption};
ghost use Rattle.std.specs.List.{insert, remove};
ghost use Rattle.arp.specs.Neighbours.{all_sent, entries_of, entries_taught, has_entry, is_old, learnt_asks, learnt_mac, learnt_sent, new_entry, renewed_entry, sent_entry, wants_asking, with_newcomer, with_renewal, without, after_one_left};
ghost use Rattle.arp.specs.Log.{kept, is_of, valid_mac, entry_addresses, spot_addresses, tally, IsRising, IsAt, IsGapFor, IsPlaceOf, IsFirst, IsFirstUnsent, IsLeaving, IsLearnt, place_without, place_asks, place_sent};
ghost use Rattle.arp.specs.Macs.{AllSix};
ghost use Rattle.arp.specs.Memory.{LacksLearnt};

use crate::caches::{ASKED_AFTER, CacheEntry, ENTRIES, RENEWED_AFTER, VALID_FOR};
use addresses::{Ip, Mac};
use std::alloc::{AllocError, Global};

/// The most places of the log. Once they are used up, the empty ones are removed.
pub(crate) const PLACES: usize = 2048;

/// Where the entry of an address is in the log. The place is a hint, which a search tries first.
#[derive(Clone, Copy, Debug, PartialEq, Eq)]
pub struct Spot {
    pub address: Ip,
    pub place: u32,
}

/// Up to 1,024 entries of different addresses, without another allocation than that of `new`.
#[derive(Drop)]
pub struct Learnt {
    /// The entries in the order in which they were learnt or renewed. A place is empty where its
    /// entry was renewed later, or dropped.
    pub log: Vec<Option<CacheEntry>>,
    /// All places of the log before this one are empty.
    pub start: usize,
    /// A spot for each entry, by rising address.
    pub index: Vec<Spot>,
}

impl Learnt {
    /// Returns an empty log and index with capacity for all that may be learnt, or an `AllocError`
    /// when out of memory.
    pub fn new(alloc: Global) -> Result<Self, AllocError>
        ensures none { IfOk result (λ l. kept l.log.items ≡ []) }
        ensures holds { IfOk result (λ l. IsLearnt l) }
        ensures refused { OnErr result LacksLearnt }
    {
        let log = memory::with_room(alloc, PLACES)?;
        let index = memory::with_room(alloc, ENTRIES)?;
        Ok(Learnt {
            log,
            start: 0,
            index,
        })
    }
}

/// Renews the entry of an address, or adds one where the address has none and `for_us` is true.
/// Returns whether the address has an entry now.
pub fn learn(learnt: &mut Learnt, address: Ip, mac: Mac, for_us: bool, now: u64) -> bool
    requires { IsLearnt learnt.old }
    ensures entries { kept learnt.new.log.items
        ≡ entries_taught address mac for_us now (kept learnt.old.log.items) }
    ensures teaches { result ≡ (has_entry address.0 (kept learnt.old.log.items) || for_us) }
    ensures has { result ≡ has_entry address.0 (kept learnt.new.log.items) }
    ensures six { length mac.0 ≡ 6 → AllSix (λ e. e.mac) (kept learnt.old.log.items)
        → AllSix (λ e. e.mac) (kept learnt.new.log.items) }
    ensures holds { IsLearnt learnt.new }
{
    make_room(learnt);
    match find(&learnt.index, address) {
        Ok(at) => {
            renew(learnt, at, address, mac, now);
            true
        }
        Err(at) if for_us => {
            add(learnt, at, new_entry(address, mac, now));
            true
        }
        Err(_) => false,
    }
}

fn new_entry(address: Ip, mac: Mac, now: u64) -> CacheEntry
    ensures { result ≡ new_entry address mac now }
{
    CacheEntry {
        address,
        mac,
        at: now,
        asked: now,
        sent: false,
        changed: false,
    }
}

fn renewed_entry(entry: &CacheEntry, mac: Mac, now: u64) -> CacheEntry
    ensures { result ≡ renewed_entry mac now entry.now }
{
    CacheEntry {
        address: entry.address,
        mac,
        at: now,
        asked: entry.asked,
        sent: entry.sent,
        changed: entry.mac != mac,
    }
}

/// Returns the hardware address of the entry of that address, or None where there is none that is
/// valid at `now`.
pub fn mac_in(learnt: &Learnt, address: Ip, now: u64) -> Option<Mac>
    requires { IsLearnt learnt.now }
    ensures { result ≡ learnt_mac address.0 now (kept learnt.now.log.items) }
{
    match find(&learnt.index, address) {
        Ok(at) => mac_in_log(&learnt.log, address, learnt.index[at].place, now),
        Err(_) => None,
    }
}

fn mac_in_log(log: &[Option<CacheEntry>], address: Ip, hint: u32, now: u64) -> Option<Mac>
    requires { tally address.0 (entry_addresses (kept log.now)) ≤ 1 }
    ensures { result ≡ learnt_mac address.0 now (kept log.now) }
{
    match place_of(log, address, hint) {
        Some(place) => valid_mac(log[place], now),
        None => None,
    }
}

fn valid_mac(place: Option<CacheEntry>, now: u64) -> Option<Mac>
    ensures { result ≡ valid_mac now place }
{
    match place {
        Some(entry) if now.saturating_sub(entry.at) < VALID_FOR => Some(entry.mac),
        _ => None,
    }
}

/// Notes that a packet was sent to that address at `now`. Returns whether a request for the address
/// is due behind the packet, and notes the time of the request where one is due.
pub fn ask_in(learnt: &mut Learnt, address: Ip, now: u64) -> bool
    requires { IsLearnt learnt.old }
    ensures asks { result ≡ learnt_asks address.0 now (kept learnt.old.log.items) }
    ensures entries { kept learnt.new.log.items
        ≡ learnt_sent address.0 now (kept learnt.old.log.items) }
    ensures holds { IsLearnt learnt.new }
{
    match find(&learnt.index, address) {
        Ok(at) => ask_in_log(&mut learnt.log, address, learnt.index[at].place, now),
        Err(_) => false,
    }
}

fn ask_in_log(log: &mut Vec<Option<CacheEntry>>, address: Ip, hint: u32, now: u64) -> bool
    requires { tally address.0 (entry_addresses (kept log.old.items)) ≤ 1 }
    ensures asks { result ≡ learnt_asks address.0 now (kept log.old.items) }
    ensures entries { kept log.new.items ≡ learnt_sent address.0 now (kept log.old.items) }
    ensures len { length log.new.items ≡ length log.old.items }
    ensures capacity { vec_capacity log.new ≡ vec_capacity log.old }
    ensures front { (n : ℕ) → kept (take n log.old.items) ≡ []
        → kept (take n log.new.items) ≡ [] }
{
    match place_of(log, address, hint) {
        Some(place) => ask_at(log, address, place, now),
        None => false,
    }
}

/// Notes that a packet was sent by the entry at this place, which has that address. Returns whether
/// a request is due for it, and notes the time of the request where one is due.
fn ask_at(log: &mut Vec<Option<CacheEntry>>, address: Ip, place: usize, now: u64) -> bool
    requires once { tally address.0 (entry_addresses (kept log.old.items)) ≤ 1 }
    requires at { IsPlaceOf address.0 log.old.items place }
    ensures asks { result ≡ learnt_asks address.0 now (kept log.old.items) }
    ensures entries { kept log.new.items ≡ learnt_sent address.0 now (kept log.old.items) }
    ensures len { length log.new.items ≡ length log.old.items }
    ensures capacity { vec_capacity log.new ≡ vec_capacity log.old }
    ensures front { (n : ℕ) → kept (take n log.old.items) ≡ []
        → kept (take n log.new.items) ≡ [] }
{
    let asks = place_asks(log[place], now);
    log[place] = place_sent(log[place], now);
    asks
}

fn is_old(entry: &CacheEntry, now: u64) -> bool
    ensures { result ≡ is_old now entry.now }
{
    entry.changed || now.saturating_sub(entry.at) >= RENEWED_AFTER
}

fn wants_asking(entry: &CacheEntry, now: u64) -> bool
    ensures { result ≡ wants_asking now entry.now }
{
    is_old(entry, now) && now.saturating_sub(entry.asked) >= ASKED_AFTER
}

fn place_asks(place: Option<CacheEntry>, now: u64) -> bool
    ensures { result ≡ place_asks now place }
{
    match place {
        Some(entry) => wants_asking(&entry, now),
        None => false,
    }
}

fn sent_entry(entry: &CacheEntry, now: u64) -> CacheEntry
    ensures { result ≡ sent_entry now entry.now }
{
    let asked = if wants_asking(entry, now) {
        now
    } else {
        entry.asked
    };
    CacheEntry {
        address: entry.address,
        mac: entry.mac,
        at: entry.at,
        asked,
        sent: true,
        changed: entry.changed,
    }
}

fn place_sent(place: Option<CacheEntry>, now: u64) -> Option<CacheEntry>
    ensures { result ≡ place_sent now place }
{
    match place {
        Some(entry) => Some(sent_entry(&entry, now)),
        None => None,
    }
}

/// Returns the place of an address in the index, or as an Err the place where it would be inserted.
fn find(index: &[Spot], address: Ip) -> Result<usize, usize>
    requires { IsRising (spot_addresses index.now) }
    ensures found { IfOk result (IsAt (spot_addresses index.now) address.0) }
    ensures absent { IfErr result (IsGapFor (spot_addresses index.now) address.0) }
{
    index.binary_search_by_key(&address.0, |spot| spot.address.0)
}

/// Returns the place, in the index, of an address that has one there.
fn spot_of(index: &[Spot], address: Ip) -> usize
    requires rising { IsRising (spot_addresses index.now) }
    requires known { 1 ≤ tally address.0 (spot_addresses index.now) }
    ensures { IsAt (spot_addresses index.now) address.0 result }
{
    match find(index, address) {
        Ok(at) | Err(at) => at,
    }
}

fn is_of(place: &Option<CacheEntry>, address: Ip) -> bool
    ensures { result ≡ is_of address.0 place.now }
{
    match place {
        Some(entry) => entry.address.0 == address.0,
        None => false,
    }
}

/// Returns the place of an address in the log: the hint where it is right, else the first, and None
/// where the address has no entry.
fn place_of(log: &[Option<CacheEntry>], address: Ip, hint: u32) -> Option<usize>
    ensures { MatchOption result (tally address.0 (entry_addresses (kept log.now)) ≡ 0)
        (IsPlaceOf address.0 log.now) }
{
    let hint = hint as usize;
    if hint < log.len() && is_of(&log[hint], address) {
        Some(hint)
    } else {
        first_place_of(log, address)
    }
}

fn first_place_of(log: &[Option<CacheEntry>], address: Ip) -> Option<usize>
    ensures { MatchOption result (tally address.0 (entry_addresses (kept log.now)) ≡ 0)
        (IsPlaceOf address.0 log.now) }
{
    for (place, entry) in log.iter().enumerate() {
        if is_of(entry, address) {
            return Some(place);
        }
    }
    None
}

/// Renews the entry of an address, whose spot is at `at`.
fn renew(learnt: &mut Learnt, at: usize, address: Ip, mac: Mac, now: u64)
    requires holds { IsLearnt learnt.old }
    requires room { length learnt.old.log.items < PLACES }
    requires at { IsAt (spot_addresses learnt.old.index.items) address.0 at }
    ensures entries { kept learnt.new.log.items
        ≡ with_renewal address.0 mac now (kept learnt.old.log.items) }
    ensures holds { IsLearnt learnt.new }
{
    if let Some(entry) = take_out(&mut learnt.log, address, learnt.index[at].place) {
        let place = learnt.log.len() as u32;
        push(&mut learnt.log, renewed_entry(&entry, mac, now));
        learnt.index[at] = Spot { address, place };
    }
}

/// Adds an entry of a new address, whose spot is inserted at `at`. Where there are 1,024, one of
/// them leaves.
fn add(learnt: &mut Learnt, at: usize, entry: CacheEntry)
    requires holds { IsLearnt learnt.old }
    requires room { length learnt.old.log.items < PLACES }
    requires at { IsGapFor (spot_addresses learnt.old.index.items) entry.address.0 at }
    ensures entries { kept learnt.new.log.items ≡ with_newcomer entry (kept learnt.old.log.items) }
    ensures holds { IsLearnt learnt.new }
{
    if learnt.index.len() < ENTRIES {
        append(learnt, at, entry);
    } else {
        supplant(learnt, at, entry);
    }
}

/// Adds an entry of a new address where there are fewer than 1,024.
fn append(learnt: &mut Learnt, at: usize, entry: CacheEntry)
    requires holds { IsLearnt learnt.old }
    requires room { length learnt.old.log.items < PLACES }
    requires fewer { length learnt.old.index.items < ENTRIES }
    requires at { IsGapFor (spot_addresses learnt.old.index.items) entry.address.0 at }
    ensures entries { kept learnt.new.log.items ≡ kept learnt.old.log.items ++ entry ∷ [] }
    ensures holds { IsLearnt learnt.new }
{
    let place = learnt.log.len() as u32;
    push(&mut learnt.log, entry);
    let spot = Spot {
        address: entry.address,
        place,
    };
    let _ = learnt.index.insert(at, spot);
}

/// Adds an entry of a new address in place of the one that leaves.
fn supplant(learnt: &mut Learnt, at: usize, entry: CacheEntry)
    requires holds { IsLearnt learnt.old }
    requires room { length learnt.old.log.items < PLACES }
    requires some { 0 < length learnt.old.index.items }
    requires at { IsGapFor (spot_addresses learnt.old.index.items) entry.address.0 at }
    ensures entries { kept learnt.new.log.items
        ≡ after_one_left (kept learnt.old.log.items) ++ entry ∷ [] }
    ensures holds { IsLearnt learnt.new }
{
    if let Some((first, oldest)) = first_entry(&learnt.log, learnt.start) {
        let (leaving, gone) = leaving_entry(&learnt.log, first, oldest);
        let out = spot_of(&learnt.index, gone.address);
        let place = learnt.log.len() as u32;
        let spot = Spot {
            address: entry.address,
            place,
        };
        put_for(&mut learnt.index, out, at, spot);
        learnt.log[leaving] = None;
        learnt.start = first;
        push(&mut learnt.log, entry);
    }
}

/// Returns the place of the entry that leaves a full cache, and the entry: the first by which no
/// packet was sent, else the first of all, which is `oldest` at the place `first`.
fn leaving_entry(
    log: &[Option<CacheEntry>],
    first: usize,
    oldest: CacheEntry,
) -> (usize, CacheEntry)
    requires { IsFirst log.now first oldest }
    ensures { IsLeaving log.now result.0 result.1 }
{
    match first_unsent(log, first) {
        Some(found) => found,
        None => (first, oldest),
    }
}

/// Returns the place of the first entry by which no packet was sent, and the entry, or None where
/// a packet was sent by each. No place before `first` has an entry.
fn first_unsent(log: &[Option<CacheEntry>], first: usize) -> Option<(usize, CacheEntry)>
    requires within { first ≤ length log.now }
    requires front { kept (take first log.now) ≡ [] }
    ensures { MatchOption result (all_sent (kept log.now) ≡ true)
        (λ r. IsFirstUnsent log.now r.0 r.1) }
{
    let mut place = first;
    while place < log.len() {
        if let Some(entry) = unsent_in(log[place]) {
            return Some((place, entry));
        }
        place += 1;
    }
    None
}

/// Returns the entry of a place, if no packet was sent by it.
fn unsent_in(place: Option<CacheEntry>) -> Option<CacheEntry>
    ensures { MatchOption result (all_sent (kept (place ∷ [])) ≡ true)
        (λ e. (place ≡ Some e) × (e.sent ≡ false)) }
{
    match place {
        Some(entry) if !entry.sent => Some(entry),
        _ => None,
    }
}

/// Inserts a spot, whose place is `at`, and removes the spot at `out`. The spots between them move
/// by one place.
fn put_for(index: &mut Vec<Spot>, out: usize, at: usize, spot: Spot)
    requires out { out < length index.old.items }
    requires at { at ≤ length index.old.items }
    ensures items { index.new.items
        ≡ insert (remove index.old.items out) (place_without out at) spot }
    ensures capacity { vec_capacity index.new ≡ vec_capacity index.old }
{
    if out < at {
        index.copy_within(out + 1..at, out);
        index[at - 1] = spot;
    } else {
        index.copy_within(at..out, at + 1);
        index[at] = spot;
    }
}

/// Empties the place of an address in the log, and returns its entry, or None where it has none.
fn take_out(log: &mut Vec<Option<CacheEntry>>, address: Ip, hint: u32) -> Option<CacheEntry>
    requires { tally address.0 (entry_addresses (kept log.old.items)) ≤ 1 }
    ensures entry { MatchOption result (tally address.0 (entry_addresses (kept log.old.items)) ≡ 0)
        (λ e. entries_of address.0 (kept log.old.items) ≡ e ∷ []) }
    ensures address { IfSome result (λ e. e.address.0 ≡ address.0) }
    ensures entries { kept log.new.items ≡ without address.0 (kept log.old.items) }
    ensures len { length log.new.items ≡ length log.old.items }
    ensures capacity { vec_capacity log.new ≡ vec_capacity log.old }
    ensures front { (n : ℕ) → kept (take n log.old.items) ≡ []
        → kept (take n log.new.items) ≡ [] }
{
    match place_of(log, address, hint) {
        Some(place) => {
            let entry = log[place];
            log[place] = None;
            entry
        }
        None => None,
    }
}

fn push(log: &mut Vec<Option<CacheEntry>>, entry: CacheEntry)
    requires { vec_len log.old < vec_capacity log.old }
    ensures items { log.new.items ≡ log.old.items ++ Some entry ∷ [] }
    ensures capacity { vec_capacity log.new ≡ vec_capacity log.old }
{
    log.push_reserved(Some(entry));
}

/// Returns the first entry, at `start` or after it, and its place, or None where there is none.
fn first_entry(log: &[Option<CacheEntry>], start: usize) -> Option<(usize, CacheEntry)>
    requires within { start ≤ length log.now }
    requires front { kept (take start log.now) ≡ [] }
    ensures { MatchOption result (kept log.now ≡ []) (λ r. IsFirst log.now r.0 r.1) }
{
    let mut place = start;
    while place < log.len() {
        if let Some(entry) = log[place] {
            return Some((place, entry));
        }
        place += 1;
    }
    None
}

/// Removes the empty places once all places are used.
fn make_room(learnt: &mut Learnt)
    requires { IsLearnt learnt.old }
    ensures entries { kept learnt.new.log.items ≡ kept learnt.old.log.items }
    ensures room { length learnt.new.log.items < PLACES }
    ensures holds { IsLearnt learnt.new }
{
    if learnt.log.len() == PLACES {
        throw_out(&mut learnt.log);
        learnt.start = 0;
        renumber(&learnt.log, &mut learnt.index);
    }
}

fn throw_out(log: &mut Vec<Option<CacheEntry>>)
    ensures entries { kept log.new.items ≡ kept log.old.items }
    ensures full { length log.new.items ≡ length (kept log.old.items) }
    ensures capacity { vec_capacity log.new ≡ vec_capacity log.old }
{
    log.retain(|place| place.is_some());
}

/// Notes the places of the log's entries in the index.
fn renumber(log: &[Option<CacheEntry>], index: &mut [Spot])
    requires places { length log.now ≤ PLACES }
    requires rising { IsRising (spot_addresses index.old) }
    ensures { spot_addresses index.new ≡ spot_addresses index.old }
{
    for (place, entry) in log.iter().enumerate() {
        if let Some(entry) = entry {
            note(index, entry.address, place as u32);
        }
    }
}

fn note(index: &mut [Spot], address: Ip, place: u32)
    requires { IsRising (spot_addresses index.old) }
    ensures { spot_addresses index.new ≡ spot_addresses index.old }
{
    if let Ok(at) = find(index, address) {
        index[at] = Spot { address, place };
    }
}
