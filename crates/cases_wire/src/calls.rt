//! The calls of the packet crates, by the name that a case gives.
use crate::{datagrams, errors, neighbours, own, packets, queries};
use cases_words::{Actor, Case};
use rewrite::RewriteFault;
use std::fmt::Display;

/// The direction in which a packet is rewritten.
#[derive(Clone, Copy)]
pub(crate) enum Way {
    Outward,
    Inward,
    Hairpin,
}

/// Returns what was read. Where nothing was, prints why and returns None.
pub(crate) fn or_refuse<T, E: Display + Drop>(case: &mut Case, read: Result<T, E>) -> Option<T> {
    match read {
        Ok(value) => Some(value),
        Err(fault) => {
            case.refused(fault);
            None
        }
    }
}

/// Prints the bytes of a packet that was rewritten, after the refusal where there is one.
pub(crate) fn tell_rewritten(case: &mut Case, done: Result<(), RewriteFault>, bytes: &[u8]) {
    if let Err(fault) = done {
        case.refused(fault);
        case.put(": ");
    }
    case.hex("", bytes);
}

/// Prints a case's name, and what the call after it answers.
#[derive(Drop)]
pub(crate) struct Calls;

impl Actor for Calls {
    fn act(&mut self, case: &mut Case) {
        case.echo(": ");
        answer(case);
        case.end();
    }
}

/// Prints what the call answers that the next word names.
fn answer(case: &mut Case) {
    match case.word() {
        "add" => add(case),
        "update" => update(case),
        "sum" => sum(case),
        "is-right" => is_right(case),
        "frame" => packets::frame(case),
        "write-frame" => packets::write_frame(case),
        "write-body" => packets::write_body(case),
        "ipv4" => packets::ipv4(case),
        "write-ipv4" => packets::write_ipv4(case),
        "carried" => packets::carried(case),
        "write-udp" => packets::write_udp(case),
        "write-tcp" => packets::write_tcp(case),
        "outward" => packets::rewritten(case, Way::Outward),
        "inward" => packets::rewritten(case, Way::Inward),
        "hairpin" => packets::rewritten(case, Way::Hairpin),
        _ => answer_icmp(case),
    }
}

fn answer_icmp(case: &mut Case) {
    case.back();
    match case.word() {
        "error" => errors::error(case),
        "write-error" => errors::write_error(case),
        "error-outward" => errors::passed_on(case, Way::Outward),
        "error-inward" => errors::passed_on(case, Way::Inward),
        "error-hairpin" => errors::passed_on(case, Way::Hairpin),
        "query" => queries::query(case),
        "write-query" => queries::write_query(case),
        "ask" => own::ask(case),
        "reply" => own::reply(case, false),
        "cuttable" => own::reply(case, true),
        "exceeded" => own::complain(case, false),
        "too-long" => own::complain(case, true),
        _ => answer_others(case),
    }
}

fn answer_others(case: &mut Case) {
    case.back();
    match case.word() {
        "arp" => neighbours::arp(case),
        "arp-request" => neighbours::request(case),
        "arp-reply" => neighbours::reply(case),
        "gratuitous" => neighbours::gratuitous(case),
        "is-learnable" => neighbours::is_learnt(case),
        "cache" => neighbours::found(case),
        "advert" => neighbours::advert(case),
        "write-advert" => neighbours::write_advert(case),
        "wrong-sums" => neighbours::wrong_sums(case),
        "parse" => datagrams::parsed(case),
        "take" => datagrams::taken(case),
        _ => case.fault(),
    }
}

fn add(case: &mut Case) {
    let sum = sums::add(case.short(), case.short());
    case.hex_short("", sum);
}

fn update(case: &mut Case) {
    let sum = sums::update(case.short(), case.short(), case.short());
    case.hex_short("", sum);
}

fn sum(case: &mut Case) {
    let bytes = case.bytes();
    case.hex_short("", sums::sum(bytes.as_slice()));
}

fn is_right(case: &mut Case) {
    let bytes = case.bytes();
    case.put(sums::is_right(bytes.as_slice()));
}
