//! The cost of a renewal, a stranger and a look-up in a full cache.

use crate::clocks::{each, now};
use addresses::{Ip, Mac};
use arp::Cache;
use cases_words::Case;

/// The number of entries for which a cache has capacity.
const FULL: u32 = 1024;

/// The hardware address of all hosts.
const MAC: Mac = Mac([2, 0, 0, 0, 0, 1]);

/// Returns the address of one of the hosts that fill the cache, in turn.
fn host(number: u32) -> Ip {
    Ip(0xc0a8_0000 + number % FULL)
}

/// Returns the address of a stranger, scattered over a network. Each stranger drops the oldest
/// entry by which no packet was sent.
fn stranger(number: u32) -> Ip {
    Ip(0x0a00_0000 + number.wrapping_mul(0x9e37_79b1) % 0x0100_0000)
}

/// Learns strangers or hosts, and returns the nanoseconds for each.
fn learn(
    rt: &HostRuntime,
    cache: &mut Cache,
    is_strange: bool,
    count: u32,
    case: &mut Case,
) -> u128 {
    let start = now(rt, case);
    for number in 0..count {
        let address = if is_strange {
            stranger(number)
        } else {
            host(number)
        };
        let _has_entry = cache.learn(address, MAC, true, u64::from(number));
    }
    each(rt, start, count, case)
}

/// Looks the hosts up, and prints the cost and how many were known.
fn tell_known(rt: &HostRuntime, cache: &Cache, count: u32, case: &mut Case) {
    let mut known = 0u32;
    let start = now(rt, case);
    for number in 0..count {
        if cache.mac_of(host(number), u64::from(count)).is_some() {
            known = known.saturating_add(1);
        }
    }
    let look_up = each(rt, start, count, case);
    case.put(look_up);
    case.say(" ns a look-up, ", known);
    case.say(" of ", count);
    case.put(" known\n");
}

/// Sends a packet to each host, so that each entry stays before strangers.
fn use_all(cache: &mut Cache) {
    for number in 0..FULL {
        let _asks = cache.ask(host(number), 0);
    }
}

fn measure_in(rt: &HostRuntime, cache: &mut Cache, case: &mut Case) {
    let count = case.times();
    let strangers = learn(rt, cache, true, count, case);
    learn(rt, cache, false, FULL, case);
    let renewal = learn(rt, cache, false, count, case);
    case.put(renewal);
    case.say(" ns a renewal, ", strangers);
    case.put(" ns a stranger, ");
    tell_known(rt, cache, count, case);
    use_all(cache);
    let last = learn(rt, cache, true, count, case);
    case.put(last);
    case.put(" ns a stranger where packets were sent by all others\n");
}

/// Prints the cost of each of these calls, over as many as the next word says.
pub(crate) fn measure(rt: &HostRuntime, case: &mut Case) {
    match Cache::new(case.alloc, &[]) {
        Ok(mut cache) => {
            measure_in(rt, &mut cache, case);
            drop(cache);
        }
        Err(_) => case.fault(),
    }
}
