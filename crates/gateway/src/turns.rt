//! Giving way: the turn with which a tick begins, and the cables of a gateway.
ghost use Rattle.std.specs.Prelude.{◌≡◌};
ghost use Rattle.vrrp_states.specs.Table.{IsMoment};
ghost use Rattle.interfaces.specs.Stations.{with_plug};
ghost use Rattle.spec_step.specs.GivingWay.{GivingWay, TakesTurn, returned};
ghost use Rattle.spec_step.specs.declared.turns.Turn.TheVariants.{Leaves};
ghost use Rattle.spec_step.specs.Shown.{station_on, with_station};
ghost use Rattle.forwarder.specs.Forwarder.{scene_on, shown_of};
ghost use Rattle.forwarder.specs.Room.{HasRoomFor, Spends};
ghost use Rattle.gateway.specs.Rooms.{both_routers};

use crate::routers::{Cue, cue_both, start_routers};
use forwarder::Forwarder;
use nat_types::Side;
use output::OutputBuffer;
use spec_step::Turn;

/// Gives way: stops both routers.
fn leave(forwarder: &mut Forwarder, page: &mut OutputBuffer)
    requires moment { IsMoment forwarder.old.moment }
    requires room { HasRoomFor both_routers forwarder.old page.old }
    ensures turn { TakesTurn (scene_on forwarder.old page.old) Leaves
        (scene_on forwarder.new page.new) }
    ensures rest { forwarder.new ≡ record forwarder.old {
      away = forwarder.new.away;
      inside = forwarder.new.inside;
      outside = forwarder.new.outside;
    } }
    ensures spends { Spends both_routers forwarder.old page.old forwarder.new page.new }
{
    cue_both(forwarder, page, Cue::Stop);
    forwarder.away = true;
}

/// Comes back: starts both routers, where the gateway is up.
fn come_back(forwarder: &mut Forwarder)
    requires { IsMoment forwarder.old.moment }
    ensures turn { shown_of forwarder.new ≡ returned (shown_of forwarder.old) }
    ensures rest { forwarder.new ≡ record forwarder.old {
      away = forwarder.new.away;
      inside = forwarder.new.inside;
      outside = forwarder.new.outside;
    } }
{
    forwarder.away = false;
    if forwarder.is_up() {
        start_routers(forwarder);
    }
}

/// Takes the turn with which a tick begins.
pub(crate) fn take_turn(forwarder: &mut Forwarder, page: &mut OutputBuffer)
    requires moment { IsMoment forwarder.old.moment }
    requires room { HasRoomFor both_routers forwarder.old page.old }
    ensures turn { GivingWay (scene_on forwarder.old page.old) (scene_on forwarder.new page.new) }
    ensures rest { forwarder.new ≡ record forwarder.old {
      away = forwarder.new.away;
      inside = forwarder.new.inside;
      outside = forwarder.new.outside;
    } }
    ensures spends { Spends both_routers forwarder.old page.old forwarder.new page.new }
{
    match forwarder.turn() {
        Turn::Leaves => leave(forwarder, page),
        Turn::Returns => come_back(forwarder),
        Turn::Stays => {}
    }
}

/// Notes that the cable of a side is in (`up`) or out, and sends nothing.
#[cold]
pub(crate) fn plug(forwarder: &mut Forwarder, side: Side, up: bool)
    ensures { let g = shown_of forwarder.old in let station = station_on g side in
        shown_of forwarder.new ≡ with_station g side (with_plug station up g.moment) }
{
    let now = forwarder.moment;
    match side {
        Side::Inside => forwarder.inside.plug(up, now),
        Side::Outside => forwarder.outside.plug(up, now),
    }
}
