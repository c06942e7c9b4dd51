//! Times by the clocks of the machine. Without a clock the line is wrong.

use cases_words::Case;
use std::time::{CpuClock, Instant};

/// Returns the present time, or None where there is no clock.
pub(crate) fn now(rt: &HostRuntime, case: &mut Case) -> Option<Instant> {
    let now = Instant::now(rt).ok();
    if now.is_none() {
        case.fault();
    }
    now
}

/// Returns the nanoseconds since a time.
pub(crate) fn since(rt: &HostRuntime, start: Option<Instant>, case: &mut Case) -> u128 {
    match start {
        Some(start) => match start.elapsed(rt) {
            Ok(spent) => spent.as_nanos(),
            Err(_) => {
                case.fault();
                0
            }
        },
        None => 0,
    }
}

/// Returns the nanoseconds since a time for each of `count` calls, rounded down.
pub(crate) fn each(rt: &HostRuntime, start: Option<Instant>, count: u32, case: &mut Case) -> u128 {
    since(rt, start, case) / u128::from(count.max(1))
}

/// Returns the processor's time of this thread, in nanoseconds.
pub(crate) fn computed(rt: &HostRuntime, case: &mut Case) -> u128 {
    match rt.thread_cpu_time() {
        Ok(spent) => spent.as_nanos(),
        Err(_) => {
            case.fault();
            0
        }
    }
}

/// Prints the nanoseconds for each of `count` packets, rounded down, and how many of them were sent on.
pub(crate) fn tell_sent(spent: u128, count: u32, sent: u32, case: &mut Case) {
    case.put(spent / u128::from(count.max(1)));
    case.say(" ns, ", sent);
    case.say(" of ", count);
    case.put(" sent\n");
}

/// Prints the nanoseconds for each of `count` calls, rounded down, and how many pairs there are then.
pub(crate) fn tell_held(spent: u128, count: u32, held: usize, case: &mut Case) {
    case.put(spent / u128::from(count.max(1)));
    case.say(" ns, ", held);
    case.put(" pairs held\n");
}
