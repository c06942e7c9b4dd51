//! A virtual router, whose calls are lines of the state table.
ghost use Rattle.std.specs.Prelude.{◌≡◌, ℕ, ◌+◌, ◌<◌, ◌≤◌, ◌↔◌, ◌⊎◌, IsTrue, false};
ghost use Rattle.vrrp_states.specs.declared.State.TheVariants as states;
ghost use Rattle.vrrp_states.specs.declared.Action.TheVariants as actions;
ghost use Rattle.vrrp_states.specs.Table.{IsPriority, IsInterval, IsMoment, skew_time, active_down_interval, Start, Stop, Heard, Tick, IsStep, new_router};
ghost use Rattle.vrrp_states.specs.Fields.{router_of};

use crate::{Action, State};
use addresses::Ip;
use std::marker::Model;
use vrrp_packet::Advert;

/// A router's own values (RFC 9568, section 6.1).
#[derive(Clone, Copy)]
struct Own {
    priority: u8,
    interval: u16,
    preempt: bool,
    address: Ip,
}

#[derive(Clone, Copy)]
struct Status {
    state: State,
    /// The interval at which the Active router advertises, in centiseconds.
    active_interval: u16,
    /// The time, in centiseconds, at which the timer of the state is due: Active_Down_Timer in Backup, Adver_Timer in
    /// Active.
    due: u64,
}

/// Returns Skew_Time in centiseconds, rounded down (RFC 9568, section 6.1).
fn skew_time(own: Own, interval: u16) -> u32
    ensures { result ≡ skew_time own.priority interval }
{
    (256 - u32::from(own.priority)) * u32::from(interval) / 256
}

/// Returns Active_Down_Interval in centiseconds (RFC 9568, section 6.1).
fn active_down_interval(own: Own, interval: u16) -> u32
    ensures { result ≡ active_down_interval own.priority interval }
{
    3 * u32::from(interval) + skew_time(own, interval)
}

/// Returns the status of a router in Backup that follows a router with this interval.
fn behind(own: Own, interval: u16, now: u64) -> Status
    requires { IsMoment now }
    ensures { result ≡ record {
      state = states.Backup;
      active_interval = interval;
      due = now + active_down_interval own.priority interval;
    } }
{
    Status {
        state: State::Backup,
        active_interval: interval,
        due: now + u64::from(active_down_interval(own, interval)),
    }
}

/// Returns the status of an Active router that has advertised at `now`.
fn ahead(own: Own, status: Status, now: u64) -> Status
    requires { IsMoment now }
    ensures { result ≡ record {
      state = states.Active;
      active_interval = status.active_interval;
      due = now + own.interval;
    } }
{
    Status {
        state: State::Active,
        active_interval: status.active_interval,
        due: now + u64::from(own.interval),
    }
}

/// Whether a router in Backup follows the router that sent the advertisement, and so stays in Backup (RFC 9568, section
/// 6.4.2).
fn is_followed(advert: Advert, own: Own) -> bool
    ensures { IsTrue result ↔ (own.preempt ≡ false) ⊎ (own.priority ≤ advert.priority) }
{
    !own.preempt || advert.priority >= own.priority
}

/// Whether an advertisement is of higher priority, or of equal priority from a greater address (RFC 9568, section 6.4.3).
fn outranks(advert: Advert, from: Ip, own: Own) -> bool
    ensures { IsTrue result ↔ (own.priority < advert.priority)
        ⊎ ((advert.priority ≡ own.priority) × (own.address.0 < from.0)) }
{
    advert.priority > own.priority || advert.priority == own.priority && from > own.address
}

fn started(own: Own, status: Status, now: u64) -> (Status, Action)
    requires { IsMoment now }
    ensures { IsStep (router_of own status) Start now result.1 (router_of own result.0) }
{
    match status.state {
        State::Initialize => (behind(own, own.interval, now), Action::Nothing),
        _ => (status, Action::Nothing),
    }
}

fn stopped(own: Own, status: Status) -> (Status, Action)
    ensures { (now : ℕ) → IsStep (router_of own status) Stop now result.1
        (router_of own result.0) }
{
    let initial = Status {
        state: State::Initialize,
        ..status
    };
    match status.state {
        State::Initialize => (status, Action::Nothing),
        State::Backup => (initial, Action::Nothing),
        State::Active => (initial, Action::Advertise(0)),
    }
}

fn ticked(own: Own, status: Status, now: u64) -> (Status, Action)
    requires { IsMoment now }
    ensures { IsStep (router_of own status) Tick now result.1 (router_of own result.0) }
{
    if now < status.due {
        return (status, Action::Nothing);
    }
    match status.state {
        State::Initialize => (status, Action::Nothing),
        State::Backup => (
            ahead(own, status, now),
            Action::AdvertiseAndArp(own.priority),
        ),
        State::Active => (ahead(own, status, now), Action::Advertise(own.priority)),
    }
}

fn heard_in_backup(own: Own, status: Status, advert: Advert, now: u64) -> Status
    requires moment { IsMoment now }
    requires state { status.state ≡ states.Backup }
    ensures { (source : ℕ)
        → IsStep (router_of own status) (Heard advert.priority advert.interval source) now
        actions.Nothing (router_of own result) }
{
    if advert.priority == 0 {
        let skew_time = u64::from(skew_time(own, status.active_interval));
        Status {
            due: now + skew_time,
            ..status
        }
    } else if is_followed(advert, own) {
        behind(own, advert.interval, now)
    } else {
        status
    }
}

fn heard_in_active(own: Own, status: Status, advert: Advert, from: Ip, now: u64) -> (Status, Action)
    requires moment { IsMoment now }
    requires state { status.state ≡ states.Active }
    ensures { IsStep (router_of own status) (Heard advert.priority advert.interval from.0) now
        result.1 (router_of own result.0) }
{
    if advert.priority > 0 && outranks(advert, from, own) {
        (behind(own, advert.interval, now), Action::Nothing)
    } else {
        (ahead(own, status, now), Action::Advertise(own.priority))
    }
}

fn heard(own: Own, status: Status, advert: Advert, from: Ip, now: u64) -> (Status, Action)
    requires { IsMoment now }
    ensures { IsStep (router_of own status) (Heard advert.priority advert.interval from.0) now
        result.1 (router_of own result.0) }
{
    match status.state {
        State::Initialize => (status, Action::Nothing),
        State::Backup => (heard_in_backup(own, status, advert, now), Action::Nothing),
        State::Active => heard_in_active(own, status, advert, from, now),
    }
}

/// A router that doesn't own the virtual address, on one interface (RFC 9568). All times are of one clock, in
/// centiseconds.
#[derive(Drop)]
pub struct Router {
    own: Own,
    status: Status,
}

impl Model for Router {
    ghost use Rattle.vrrp_states.specs.Table.{Router as Seen};
    ghost use Rattle.vrrp_states.specs.Fields.{router_of};

    ghost Value = { Seen };

    ghost view = { λ r. router_of r.own r.status };
}

impl Router {
    /// Returns a router in Initialize. The interval is in centiseconds; the address is the interface's primary one.
    pub fn new(priority: u8, interval: u16, preempt: bool, address: Ip) -> Router
        requires priority { IsPriority priority }
        requires interval { IsInterval interval }
        ensures { result ≡ new_router priority interval preempt address.0 }
    {
        Router {
            own: Own {
                priority,
                interval,
                preempt,
                address,
            },
            status: Status {
                state: State::Initialize,
                active_interval: interval,
                due: 0,
            },
        }
    }

    /// Starts the router at the time `now`, in centiseconds (RFC 9568, section 6.4.1). Returns what the interface has
    /// to send.
    pub fn start(&mut self, now: u64) -> Action
        requires { IsMoment now }
        ensures { IsStep self.old Start now result self.new }
    {
        let (status, action) = started(self.own, self.status, now);
        self.status = status;
        action
    }

    /// Stops the router, by the shutdown event of RFC 9568, sections 6.4.2 and 6.4.3. Returns what the interface has to
    /// send.
    pub fn stop(&mut self) -> Action
        ensures { (now : ℕ) → IsStep self.old Stop now result self.new }
    {
        let (status, action) = stopped(self.own, self.status);
        self.status = status;
        action
    }

    /// Receives an advertisement for this virtual router, from another router's primary address, at the time `now`.
    /// Returns what the interface has to send.
    pub fn heard(&mut self, advert: &Advert, from: Ip, now: u64) -> Action
        requires { IsMoment now }
        ensures { IsStep self.old (Heard advert.now.priority advert.now.interval from.0) now
            result self.new }
    {
        let (status, action) = heard(self.own, self.status, *advert, from, now);
        self.status = status;
        action
    }

    /// Moves the router by one line of the table where the timer of its state is due at the time `now`. Returns what
    /// the interface has to send.
    pub fn tick(&mut self, now: u64) -> Action
        requires { IsMoment now }
        ensures { IsStep self.old Tick now result self.new }
    {
        let (status, action) = ticked(self.own, self.status, now);
        self.status = status;
        action
    }

    pub fn state(&self) -> State
        ensures { result ≡ self.now.state }
    {
        self.status.state
    }
}
