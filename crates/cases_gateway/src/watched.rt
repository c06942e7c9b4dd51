//! A gateway whose report and pages are printed.

use crate::any_gateway::AnyGateway;
use crate::values::blank;
use crate::words::state_of;
use cases_words::{Actor, Case};
use gateway::{Event, Out, Secrets};
use nat_types::{GatewayId, Key, Side};
use reports::{GatewayReport, Page, PairFilter, PairLines, PlainText, Sides};
use settings::Settings;
use std::alloc::Global;

/// A packet from 192.168.1.10 to 198.51.100.7 port 53, `hi`; its source port is at offset 34.
const FRAME: [u8; 44] = [
    0x00, 0x00, 0x5e, 0x00, 0x01, 0x0b, 0x02, 0x00, 0x00, 0x00, 0x00, 0x0a, 0x08, 0x00, 0x45, 0x00,
    0x00, 0x1e, 0x00, 0x01, 0x00, 0x00, 0x40, 0x11, 0x8e, 0xe1, 0xc0, 0xa8, 0x01, 0x0a, 0xc6, 0x33,
    0x64, 0x07, 0x00, 0x00, 0x00, 0x35, 0x00, 0x0a, 0x00, 0x00, 0x68, 0x69,
];

/// Gateway 0 of the sample settings, founded in boot 1, and its sides as they were seen. They are dropped by `end`.
pub(crate) struct Watched<G> {
    sides: Sides,
    out: Out,
    gateway: G,
}

/// Returns the page after a key, once it was written as bytes and read back.
fn page_behind<G: AnyGateway>(gateway: &G, last: Option<Key>) -> Option<Page> {
    let bytes = gateway.page_behind(last).bytes();
    Page::read(bytes.as_slice()).ok()
}

impl<G: AnyGateway> Watched<G> {
    /// Returns such a gateway, or None where there is no memory.
    pub(crate) fn new(alloc: Global) -> Option<Watched<G>> {
        let settings = Settings::sample(alloc).ok()?;
        let begun = G::begun(alloc, &settings, Secrets::fixed(), GatewayId::Zero, 1, true);
        drop(settings);
        let gateway = begun?;
        Some(Watched {
            sides: gateway.sides(),
            out: Out::new(alloc),
            gateway,
        })
    }

    /// Drops the gateway, and frees its memory.
    pub(crate) fn end(self) {
        let Watched {
            sides: _,
            out,
            gateway,
        } = self;
        gateway.end();
        drop(out);
    }

    fn step(&mut self, event: Event<'_>, case: &mut Case) {
        self.gateway.step(event, &mut self.out, case);
        self.gateway.update(&mut self.sides);
    }

    fn take(&mut self, case: &mut Case) {
        let bytes = case.bytes();
        self.step(Event::Datagram(bytes.as_slice()), case);
    }

    fn see(&mut self, case: &mut Case) {
        let side = case.side();
        let up = case.is_first("up", "down");
        self.step(Event::Side(side, up), case);
    }

    fn send(&mut self, case: &mut Case) {
        let first = case.number();
        for more in 0..case.number() {
            let frame = frame_from((first.saturating_add(more) % 65_536) as u16);
            self.step(Event::Frame(Side::Inside, &frame), case);
        }
    }

    fn tell(&self, case: &mut Case) {
        match self.gateway.report() {
            Some(state) => self.tell_state(state, case),
            None => case.fault(),
        }
    }

    fn tell_state(&self, state: GatewayReport, case: &mut Case) {
        let mut report = blank();
        report.gateway = state;
        report.sides = self.sides;
        case.put(PlainText(&report));
    }

    /// Reads all pages, each once it was written as bytes, and prints the entries that are wanted.
    fn list(&self, case: &mut Case) {
        let filter = filter_of(case);
        let mut last = None;
        for _ in 0..10 {
            let Some(page) = page_behind(&self.gateway, last) else {
                return case.fault();
            };
            tell_page(&page, &filter, case);
            last = page.next();
            if last.is_none() {
                break;
            }
        }
    }
}

impl<G: AnyGateway> Actor for Watched<G> {
    /// Does what a line says.
    ///
    /// - `tick MOMENT`, `side SIDE up|down`, `datagram HEX`: a step, after which the sides are looked at
    /// - `udp PORT COUNT`: COUNT packets of 192.168.1.10, from PORT and the ports after it
    /// - `people`: prints the report's text
    /// - `list PROTOCOL ADDRESS PORT STATE`: reads all pages, and prints the entries that are wanted; `any` wants all
    fn act(&mut self, case: &mut Case) {
        case.title("> ", "\n");
        match case.word() {
            "tick" => self.step(Event::Tick(case.number()), case),
            "side" => self.see(case),
            "datagram" => self.take(case),
            "udp" => self.send(case),
            "people" => self.tell(case),
            "list" => self.list(case),
            _ => case.fault(),
        }
    }
}

/// Returns the packet from a port.
fn frame_from(port: u16) -> [u8; 44] {
    let mut frame = FRAME;
    let [high, low] = port.to_be_bytes();
    frame[34] = high;
    frame[35] = low;
    frame
}

fn tell_page(page: &Page, filter: &PairFilter, case: &mut Case) {
    case.say("page ", page.entries.len());
    case.say(" ", page.more);
    case.end();
    case.put(PairLines(page, filter));
}

/// Whether the next word is `any`. Any other word is read again.
fn is_any(case: &mut Case) -> bool {
    let is_any = case.word() == "any";
    if !is_any {
        case.back();
    }
    is_any
}

/// Reads which entries are wanted: a protocol, an address, a port and a state, each of them or `any`.
pub(crate) fn filter_of(case: &mut Case) -> PairFilter {
    let mut filter = PairFilter::ALL;
    if !is_any(case) {
        filter.protocol = Some(case.protocol());
    }
    if !is_any(case) {
        filter.address = Some(case.ip());
    }
    if !is_any(case) {
        filter.port = Some(case.port());
    }
    if !is_any(case) {
        filter.state = Some(state_of(case));
    }
    filter
}
