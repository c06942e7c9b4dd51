//! A VRRP router (RFC 9568, section 6), one event a line.

use crate::both_sides::moment;
use addresses::Ip;
use cases_words::{Actor, Case};
use vrrp_packet::Advert;
use vrrp_states::{Action, Router};

/// The router that the last `router` line made.
#[derive(Drop)]
pub struct Routers {
    router: Option<Router>,
}

impl Routers {
    pub fn new() -> Routers {
        Routers { router: None }
    }

    /// Prints the router's action, where the line is an event, and its state.
    ///
    /// - `router PRIORITY INTERVAL PREEMPT ADDRESS` makes a new one
    /// - `start NOW`, `stop`, `tick NOW`
    /// - `heard PRIORITY INTERVAL ADDRESS NOW` receives an advertisement from an address
    fn answer(&mut self, case: &mut Case) {
        if case.word() == "router" {
            let router = made(case);
            case.show("", router.state());
            self.router = Some(router);
            return;
        }
        match self.router.as_mut() {
            Some(router) => happen(router, case),
            None => case.fault(),
        }
    }
}

impl Actor for Routers {
    fn act(&mut self, case: &mut Case) {
        case.title("", ": ");
        self.answer(case);
        case.end();
    }
}

/// Gives an event to the router, and prints its action and its state.
fn happen(router: &mut Router, case: &mut Case) {
    case.back();
    let action = match case.word() {
        "start" => router.start(moment(case)),
        "stop" => router.stop(),
        "tick" => router.tick(moment(case)),
        _ => hear(router, case),
    };
    case.show("", action);
    case.show(", ", router.state());
}

fn hear(router: &mut Router, case: &mut Case) -> Action {
    let priority = case.byte();
    let interval = case.within(0, 65_535) as u16;
    let from = case.hex_ip();
    let advert = Advert {
        router: 10,
        priority,
        interval,
        address: Ip(0xc000_0201),
    };
    router.heard(&advert, from, moment(case))
}

/// Reads a router whose own values are within their limits.
fn made(case: &mut Case) -> Router {
    let priority = case.within(1, 254) as u8;
    let interval = case.within(1, 4095) as u16;
    let preempts = case.word() == "preempts";
    Router::new(priority, interval, preempts, case.hex_ip())
}
