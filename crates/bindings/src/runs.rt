//! The owned ports of a range, in order, and their unbroken runs.
ghost use Rattle.std.specs.Prelude.{◌≡◌, ◌+◌, [], ◌∷◌, true, Some, map, IfOk, OnErr, IfSome, IfNone};
ghost use Rattle.memory.specs.Memory.{WasRefused};
ghost use Rattle.port_range.specs.Ports.{is_owned};
ghost use Rattle.bindings.specs.Runs.{port_at, run_of, runs_on, first_of, ports_from_on, first_run};

use crate::PortBounds;
use addresses::Port;
use memory::push;
use port_range::Range;
use std::alloc::{AllocError, Global};

/// Returns the first owned port that is at least `from`, or None where there is none.
fn first_owned(range: &Range, from: Port) -> Option<Port>
    ensures owned { IfSome result (λ p. is_owned range.now p.0 ≡ true) }
    ensures some { IfSome result (λ p. ports_from_on from.0 range.now.owned
        ≡ p.0 ∷ ports_from_on (p.0 + 1) range.now.owned) }
    ensures none { IfNone result (ports_from_on from.0 range.now.owned ≡ []) }
{
    range.recall();
    range.next_owned(from)
}

/// Returns the last port of the unbroken run of owned ports that begins with `first`.
fn end_of_run(range: &Range, first: Port, highest: Port) -> Port
    requires highest { range.now.highest ≡ highest.0 }
    requires owned { is_owned range.now first.0 ≡ true }
    ensures { first_of (runs_on first.0 first.0 (ports_from_on (first.0 + 1) range.now.owned))
        ≡ Some (run_of first.0 result.0) }
{
    range.recall();
    match range.next_unowned(first) {
        Some(port) => Port(port.0 - 1),
        None => highest,
    }
}

/// Returns the first unbroken run of the owned ports from `from` on, or None where no such port is
/// owned.
pub(crate) fn find_run(range: &Range, from: Port, highest: Port) -> Option<PortBounds>
    requires { range.now.highest ≡ highest.0 }
    ensures { result ≡ first_run from.0 range.now.owned }
{
    match first_owned(range, from) {
        Some(first) => Some(PortBounds {
            lowest: first,
            highest: end_of_run(range, first, highest),
        }),
        None => None,
    }
}

/// Returns the owned ports, rising.
pub(crate) fn list_owned(
    alloc: Global,
    range: &Range,
    lowest: Port,
    highest: Port,
) -> Result<Vec<Port>, AllocError>
    requires lowest { range.now.lowest ≡ lowest.0 }
    requires highest { range.now.highest ≡ highest.0 }
    ensures items { IfOk result (λ v. v.items ≡ map port_at range.now.owned) }
    ensures refused { OnErr result (WasRefused 1) }
{
    range.recall();
    let mut ports = Vec::new(alloc);
    for port in lowest.0..=highest.0 {
        if range.owns(Port(port)) {
            push(&mut ports, Port(port))?;
        }
    }
    Ok(ports)
}
