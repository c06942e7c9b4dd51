//! The choice of ports that a gateway grants to its peer.
ghost use Rattle.std.specs.Prelude.{◌≡◌, ◌+◌, ◌-◌, ◌<◌, ◌≤◌, ◌∷◌, [], length, min, take};
ghost use Rattle.std.specs.Prelude.{IfSome, IfNone, if◌then◌else◌, nat_lt};
ghost use Rattle.std.specs.List.{filter};
ghost use Rattle.bindings.specs.Ports.{is_spare};
ghost use Rattle.bind_core.specs.Grants.{spares_between};
ghost use Rattle.spec_binding.specs.Rows.{falling, as_ports, share as share_of};

use addresses::Port;
use bindings::Table;
use nat_types::Granted;

/// Returns how many ports are granted where `spare` ports are spare: half of them, at most 16.
fn share(spare: usize) -> usize
    ensures exact { result ≡ share_of spare }
    ensures most { result ≤ 16 }
{
    (spare / 2).min(16)
}

/// Returns the greatest spare port from `lowest` on and below `end`, or None.
fn spare_between(table: &Table, lowest: Port, end: usize) -> Option<Port>
    requires { end ≤ 65536 }
    ensures first { IfSome result (λ p. spares_between table.now.entries table.now.owned lowest.0
        end ≡ p.0 ∷ spares_between table.now.entries table.now.owned lowest.0 p.0) }
    ensures from { IfSome result (λ p. lowest.0 ≤ p.0) }
    ensures none { IfNone result (spares_between table.now.entries table.now.owned lowest.0 end
        ≡ []) }
{
    let port = table.spare_below(end)?;
    if lowest.0 <= port.0 { Some(port) } else { None }
}

/// Returns how many ports from `lowest` on and below `end` are spare, but at most `most`.
fn count_spare(table: &Table, lowest: Port, end: usize, most: usize) -> usize
    requires { end ≤ 65536 }
    ensures { result ≡ min most (length (spares_between table.now.entries table.now.owned lowest.0
        end)) }
{
    let mut below = end;
    for count in 0..most {
        match spare_between(table, lowest, below) {
            Some(port) => below = usize::from(port.0),
            None => return count,
        }
    }
    most
}

/// Returns the greatest spare ports from `lowest` on and below `end`, at most `most`.
fn greatest(table: &Table, lowest: Port, end: usize, most: usize) -> Granted
    requires low { 0 < lowest.0 }
    requires end { end ≤ 65536 }
    requires most { most ≤ 16 }
    ensures { result ≡ as_ports (take most (spares_between table.now.entries table.now.owned
        lowest.0 end)) }
{
    let mut granted = Granted::new();
    let mut below = end;
    for _taken in 0..most {
        match spare_between(table, lowest, below) {
            Some(port) => {
                granted.push(port);
                below = usize::from(port.0);
            }
            None => return granted,
        }
    }
    granted
}

/// Returns the ports to grant of those from `lowest` to `highest`: the greatest spare ones, at most
/// 16, and at most half of those beyond the number that the gateway keeps. More than 32 beyond it
/// don't change the choice, so no more are counted.
pub(crate) fn choose_granted(table: &Table, lowest: Port, highest: Port, kept: u16) -> Granted
    requires low { 0 < lowest.0 }
    requires order { lowest.0 ≤ highest.0 }
    ensures { let spares = filter (is_spare table.now.entries table.now.owned)
        (falling highest.0 (highest.0 + 1 - lowest.0))
        in result ≡ as_ports (take (share_of (length spares - kept)) spares) }
{
    let end = usize::from(highest.0) + 1;
    let kept = usize::from(kept);
    let spare = count_spare(table, lowest, end, kept + 32);
    let most = share(spare.saturating_sub(kept));
    greatest(table, lowest, end, most)
}

/// Returns the lower of two ports.
pub(crate) fn lower(a: Port, b: Port) -> Port
    ensures { result ≡ (if nat_lt a.0 b.0 then a else b) }
{
    if a.0 < b.0 { a } else { b }
}

/// Returns the higher of two ports.
pub(crate) fn higher(a: Port, b: Port) -> Port
    ensures { result ≡ (if nat_lt a.0 b.0 then b else a) }
{
    if a.0 < b.0 { b } else { a }
}
