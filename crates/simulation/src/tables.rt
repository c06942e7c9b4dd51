//! The lines of both gateways at the end of a run: state, ports owned and pairs held.
ghost use Rattle.std.specs.Prelude.{◌≡◌, flat_map};
ghost use Rattle.frame_sim.specs.World.{gateway_at};
ghost use Rattle.simulation.specs.Lines.{begins, ended, follows, gateway_lines, held_line, owned_line, owned_lines, state_line, state_text, world_lines};
ghost use Rattle.simulation.specs.Printed.{Prints};

use crate::texts::{PairText, id_text};
use addresses::Port;
use faults::Fault;
use frame_sim::World;
use nat_types::{GatewayId, Pair};
use std::io::{self, Write};

/// Prints the state of both gateways, the ports that they own and the pairs that they hold, and flushes the output.
///
/// # Errors
///
/// `NotWritten`, `NoMemory`.
pub(crate) fn print_world<W: Write>(output: &mut W, world: &World<'_>) -> Result<(), Fault>
    ensures { Prints (W.contents output.old) result (W.contents output.new)
        (world_lines world.now) }
{
    print_gateway(output, world, GatewayId::Zero)?;
    print_gateway(output, world, GatewayId::One)?;
    output.flush()?;
    Ok(())
}

fn print_gateway<W: Write>(output: &mut W, world: &World<'_>, id: GatewayId) -> Result<(), Fault>
    ensures { Prints (W.contents output.old) result (W.contents output.new)
        (gateway_lines world.now id) }
{
    let ports = world.owned(id)?;
    let pairs = world.table(id)?;
    print_state(output, world, id)?;
    print_owned(output, id, ports.as_slice())?;
    print_held(output, id, pairs.as_slice())?;
    Ok(())
}

fn print_state<W: Write>(output: &mut W, world: &World<'_>, id: GatewayId) -> io::Result<()>
    ensures { Prints (W.contents output.old) result (W.contents output.new)
        (state_line id (gateway_at world.now id)) }
{
    let (word, state) = (id_text(id), state_text(world, id));
    writeln!(output, "state {word} {state}")
}

fn state_text(world: &World<'_>, id: GatewayId) -> &'static str
    ensures { result.now ≡ state_text (gateway_at world.now id) }
{
    if !world.up(id) {
        "down"
    } else if world.synced(id) {
        "synced"
    } else {
        "unsynced"
    }
}

fn print_held<W: Write>(output: &mut W, id: GatewayId, pairs: &[Pair]) -> io::Result<()>
    ensures { Prints (W.contents output.old) result (W.contents output.new)
        (flat_map (held_line id) pairs.now) }
{
    for pair in pairs {
        print_held_pair(output, id, pair)?;
    }
    Ok(())
}

fn print_held_pair<W: Write>(output: &mut W, id: GatewayId, pair: &Pair) -> io::Result<()>
    ensures { Prints (W.contents output.old) result (W.contents output.new)
        (held_line id pair.now) }
{
    let (id, pair) = (id_text(id), PairText(pair));
    writeln!(output, "held {id} {pair}")
}

/// Prints a line for each range of consecutive ports.
fn print_owned<W: Write>(output: &mut W, id: GatewayId, ports: &[Port]) -> io::Result<()>
    ensures { Prints (W.contents output.old) result (W.contents output.new)
        (owned_lines id ports.now) }
{
    let Some((first, others)) = ports.split_first() else {
        return Ok(());
    };
    let (mut first, mut last) = (*first, *first);
    for port in others {
        print_ended(output, id, first, last, *port)?;
        first = begins(first, last, *port);
        last = *port;
    }
    print_range(output, id, first, last)
}

/// Prints the range from `first` to `last` where `port` isn't the next one of the range.
fn print_ended<W: Write>(
    output: &mut W,
    id: GatewayId,
    first: Port,
    last: Port,
    port: Port,
) -> io::Result<()>
    ensures { Prints (W.contents output.old) result (W.contents output.new)
        (ended id first last port) }
{
    if follows(last, port) {
        return Ok(());
    }
    print_range(output, id, first, last)
}

/// Returns the first port of the range that `port` is in, where the last range is from `first` to `last`.
fn begins(first: Port, last: Port, port: Port) -> Port
    ensures { result ≡ begins first last port }
{
    if follows(last, port) { first } else { port }
}

fn follows(last: Port, port: Port) -> bool
    ensures { result ≡ follows last port }
{
    u32::from(last.0) + 1 == u32::from(port.0)
}

fn print_range<W: Write>(output: &mut W, id: GatewayId, first: Port, last: Port) -> io::Result<()>
    ensures { Prints (W.contents output.old) result (W.contents output.new)
        (owned_line id first last) }
{
    let (id, first, last) = (id_text(id), first.0, last.0);
    writeln!(output, "owned {id} {first} {last}")
}
