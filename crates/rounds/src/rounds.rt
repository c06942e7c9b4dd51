//! The rounds of a box.
ghost use Rattle.std.specs.Prelude.{◌≡◌, OnErr, OnOk};
ghost use Rattle.memory.specs.Memory.{WasRefused};
ghost use Rattle.rounds.specs.Runs.{HasTurned, IsTurn, RunsTo};

use crate::gateway_reports::{sides_of, update_sides};
use crate::messages::Request;
use crate::missing_tables::MissingTable;
use crate::other_settings::OtherSettings;
use crate::outages::Outages;
use crate::replies::answer_request;
use crate::steps::{take_event, take_message};
use fragments::Cutter;
use gateway::{Event, Gateway, NoMemory, Out};
use journal::{EventLog, Journal};
use nat_types::GatewayId;
use platform::CentisecondClock;
use reports::{ApartReport, Counters, Sides};
use settings::Values;
use sockets::{MAX_DATAGRAM, Wire, WireFault};
use std::alloc::Global;
use std::time::Duration;

/// The most messages that a round takes, so that a flood doesn't delay its tick. The next round takes the others.
const MAX_MESSAGES_PER_ROUND: usize = 256;

/// For how many milliseconds a round waits for its first message.
const FIRST_MESSAGE_TIMEOUT: u64 = 10;

/// What a report says of the box itself.
#[derive(Clone, Copy, Debug, PartialEq, Eq)]
pub struct Identity {
    pub id: GatewayId,
    /// The number of the box's start.
    pub boot: u64,
    /// The values of the settings that both boxes have to run on, and a digest of them.
    pub values: Values,
    pub digest: u64,
}

/// How a box is run.
#[derive(Clone, Copy, Debug)]
pub struct Options {
    pub identity: Identity,
    /// The most rounds; without a number the box runs until it is told to end.
    pub rounds: Option<u32>,
    /// Whether a carrier's word, that a side is up or down, counts.
    pub track: bool,
}

/// What ends a box, beside the word at its control socket.
pub trait EndSignal {
    /// Whether the signal has come. Called before each round; never waits.
    fn has_come(&mut self) -> bool;
}

/// A service manager, which is notified of a box's run.
pub trait Manager {
    /// The box has begun, with this boot number.
    fn ready(&mut self, boot: u64);

    /// The box goes on: called once a second.
    fn alive(&mut self);

    /// The box ends.
    fn ending(&mut self);
}

/// Without a service manager nobody is notified.
impl<M: Manager> Manager for Option<M> {
    fn ready(&mut self, boot: u64) {
        if let Some(manager) = self {
            manager.ready(boot);
        }
    }

    fn alive(&mut self) {
        if let Some(manager) = self {
            manager.alive();
        }
    }

    fn ending(&mut self) {
        if let Some(manager) = self {
            manager.ending();
        }
    }
}

/// What a box keeps beside its gateway from one round to the next.
#[derive(Drop)]
pub(crate) struct RoundState {
    /// What the gateway's last step told.
    pub(crate) out: Out,
    /// Cuts the frames of a step that are too long for their side.
    pub(crate) cutter: Cutter,
    pub(crate) counters: Counters,
    pub(crate) sides: Sides,
    pub(crate) apart: ApartReport,
    pub(crate) settings: OtherSettings,
    outages: Outages,
    missing_table: MissingTable,
    /// The request that is answered at the round's end.
    pub(crate) request: Option<Request>,
    /// Whether this round is the last one.
    pub(crate) is_ending: bool,
}

impl RoundState {
    fn new(alloc: Global, gateway: &Gateway, identity: Identity) -> Result<RoundState, NoMemory>
        ensures refused { OnErr result (WasRefused 1514) }
    {
        let cutter = Cutter::new(alloc)?;
        Ok(RoundState {
            out: Out::new(alloc),
            cutter,
            counters: Counters::new(),
            sides: sides_of(gateway),
            apart: ApartReport::new(),
            settings: OtherSettings::new(identity),
            outages: Outages::none(),
            missing_table: MissingTable::new(),
            request: None,
            is_ending: false,
        })
    }
}

/// Runs a box until it is told to end, or has had its rounds, and then stops its gateway. A round takes what comes on the
/// wire, and then one tick; what the gateway tells is sent at once. The log gets each event that is dropped, and each change
/// that an operator watches for. The manager is notified after each round in which a second began, and before the gateway is
/// stopped.
///
/// A send that fails is a lost datagram. An event that runs out of memory changes nothing.
///
/// # Errors
///
/// Where there is no memory for a fragment as it is sent: nothing is run then.
pub fn serve<W: Wire, C: CentisecondClock, U: EndSignal, M: Manager, L: Journal>(
    alloc: Global,
    gateway: &mut Gateway,
    wire: &mut W,
    clock: &mut C,
    until: &mut U,
    manager: &mut M,
    log: &mut EventLog<L>,
    options: &Options,
) -> Result<(), NoMemory>
    ensures run { OnOk result (RunsTo W.passes gateway.old wire.old gateway.new wire.new) }
    ensures err { OnErr result (gateway.new ≡ gateway.old) }
    ensures unsent { OnErr result (wire.new ≡ wire.old) }
    ensures refused { OnErr result (WasRefused 1514) }
{
    let mut state = RoundState::new(alloc, gateway, options.identity)?;
    all_rounds(
        gateway, wire, clock, until, manager, &mut state, log, options,
    );
    manager.ending();
    take_event(gateway, Event::Stop, wire, &mut state, log);
    log.finish(gateway.moment());
    Ok(())
}

/// Runs the rounds of [`serve`] alone: the gateway isn't stopped, and can go on.
///
/// # Errors
///
/// Those of [`serve`].
pub fn run_rounds<W: Wire, C: CentisecondClock, U: EndSignal, M: Manager, L: Journal>(
    alloc: Global,
    gateway: &mut Gateway,
    wire: &mut W,
    clock: &mut C,
    until: &mut U,
    manager: &mut M,
    log: &mut EventLog<L>,
    options: &Options,
) -> Result<(), NoMemory>
    ensures rounds { OnOk result (HasTurned W.passes gateway.old wire.old gateway.new wire.new) }
    ensures err { OnErr result (gateway.new ≡ gateway.old) }
    ensures unsent { OnErr result (wire.new ≡ wire.old) }
    ensures refused { OnErr result (WasRefused 1514) }
{
    let mut state = RoundState::new(alloc, gateway, options.identity)?;
    all_rounds(
        gateway, wire, clock, until, manager, &mut state, log, options,
    );
    log.finish(gateway.moment());
    Ok(())
}

fn all_rounds<W: Wire, C: CentisecondClock, U: EndSignal, M: Manager, L: Journal>(
    gateway: &mut Gateway,
    wire: &mut W,
    clock: &mut C,
    until: &mut U,
    manager: &mut M,
    state: &mut RoundState,
    log: &mut EventLog<L>,
    options: &Options,
)
    ensures rounds { HasTurned W.passes gateway.old wire.old gateway.new wire.new }
{
    let mut buffer = [0; MAX_DATAGRAM];
    let mut last = 0;
    for _ in 0..options.rounds.map_or(u64::MAX, u64::from) {
        if state.is_ending || until.has_come() {
            return;
        }
        round(gateway, wire, clock, &mut buffer, state, log, options);
        let now = gateway.moment();
        if last / 100 < now / 100 {
            manager.alive();
        }
        last = now;
    }
}

fn round<W: Wire, C: CentisecondClock, L: Journal>(
    gateway: &mut Gateway,
    wire: &mut W,
    clock: &mut C,
    buffer: &mut [u8; MAX_DATAGRAM],
    state: &mut RoundState,
    log: &mut EventLog<L>,
    options: &Options,
)
    ensures round { HasTurned W.passes gateway.old wire.old gateway.new wire.new }
{
    take_what_comes(gateway, wire, buffer, state, log, options.track);
    take_event(gateway, Event::Tick(clock.now()), wire, state, log);
    update_sides(&mut state.sides, gateway);
    state.apart.update(gateway.is_apart(), gateway.moment());
    answer_request(gateway, wire, options.identity, buffer, state, log);
    let now = gateway.moment();
    state.outages.log(wire, now, log);
    let is_other = state.settings.report.other.is_some();
    state.missing_table.log(gateway, is_other, log);
    log.advance_to(now);
}

/// Takes the messages that have come, at most [`MAX_MESSAGES_PER_ROUND`]. Waits for the first one.
fn take_what_comes<W: Wire, L: Journal>(
    gateway: &mut Gateway,
    wire: &mut W,
    buffer: &mut [u8; MAX_DATAGRAM],
    state: &mut RoundState,
    log: &mut EventLog<L>,
    track: bool,
)
    ensures messages { HasTurned W.passes gateway.old wire.old gateway.new wire.new }
{
    let mut limit = Duration::from_millis(FIRST_MESSAGE_TIMEOUT);
    for _ in 0..MAX_MESSAGES_PER_ROUND {
        if !take_next(gateway, wire, limit, buffer, state, log, track) {
            return;
        }
        limit = Duration::ZERO;
    }
}

/// Takes the next message. Returns whether there may be more: true also where one was lost.
fn take_next<W: Wire, L: Journal>(
    gateway: &mut Gateway,
    wire: &mut W,
    limit: Duration,
    buffer: &mut [u8; MAX_DATAGRAM],
    state: &mut RoundState,
    log: &mut EventLog<L>,
    track: bool,
) -> bool
    ensures turn { IsTurn W.passes gateway.old wire.old gateway.new wire.new }
{
    match wire.receive(limit, buffer) {
        Ok(Some((place, count))) => {
            take_message(gateway, place, &buffer[..count], wire, track, state, log);
            true
        }
        Ok(None) => false,
        Err(WireFault) => true,
    }
}
