//! Parsers of addresses in the texts of settings.
ghost use Rattle.std.specs.Prelude.{◌≡◌, ◌<◌, ◌∷◌, [], None, map, option_map, IfSome};
ghost use Rattle.settings_file.specs.Texts.{digit_of, nibble_of, two_digits_of, three_digits_of, number_of, joined, octet_of, pair_of, parts_at, address_in, address_of, mac_in, mac_of};

use addresses::{Ip, Mac};

/// Returns the value of a decimal digit.
fn digit(byte: u8) -> Option<u16>
    ensures value { result ≡ digit_of byte }
    ensures small { IfSome result (λ n. n < 10) }
{
    match byte {
        b'0'..=b'9' => Some(u16::from(byte - b'0')),
        _ => None,
    }
}

/// Returns the number of two decimal digits, of which the first isn't 0.
fn two_digits(first: u8, second: u8) -> Option<u16>
    ensures value { result ≡ two_digits_of first second }
    ensures small { IfSome result (λ n. n < 100) }
{
    match (digit(first), digit(second)) {
        (Some(first), Some(second)) if first != 0 => Some(10 * first + second),
        _ => None,
    }
}

/// Returns the number of three decimal digits, of which the first isn't 0.
fn three_digits(first: u8, second: u8, third: u8) -> Option<u16>
    ensures value { result ≡ three_digits_of first second third }
    ensures small { IfSome result (λ n. n < 1000) }
{
    match (two_digits(first, second), digit(third)) {
        (Some(tens), Some(ones)) => Some(10 * tens + ones),
        _ => None,
    }
}

/// Returns the number of one to three decimal digits without leading zeros.
fn number_of(digits: &[u8]) -> Option<u16>
    ensures { result ≡ number_of digits.now }
{
    match digits {
        [a] => digit(*a),
        [a, b] => two_digits(*a, *b),
        [a, b, c] => three_digits(*a, *b, *c),
        _ => None,
    }
}

/// Returns the number of a text from `0` to `255` without leading zeros.
#[tactic(auto, unfolding(crate::specs::Texts::octet_of))]
fn octet(word: &str) -> Option<u8>
    ensures { result ≡ octet_of word.now }
{
    match number_of(word.as_bytes()) {
        Some(value) if value < 256 => Some(value as u8),
        _ => None,
    }
}

/// Returns the value of a hexadecimal digit.
fn nibble(byte: u8) -> Option<u8>
    ensures value { result ≡ nibble_of byte }
    ensures small { IfSome result (λ n. n < 16) }
{
    match byte {
        b'0'..=b'9' => Some(byte - b'0'),
        b'A'..=b'F' => Some(byte - b'A' + 10),
        b'a'..=b'f' => Some(byte - b'a' + 10),
        _ => None,
    }
}

/// Returns the byte of the values of two hexadecimal digits.
fn joined(high: Option<u8>, low: Option<u8>) -> Option<u8>
    requires high { IfSome high (λ n. n < 16) }
    requires low { IfSome low (λ n. n < 16) }
    ensures { result ≡ joined 16 high low }
{
    match (high, low) {
        (Some(high), Some(low)) => Some(16 * high + low),
        _ => None,
    }
}

/// Returns the byte of a text of two hexadecimal digits.
#[tactic(auto, unfolding(crate::specs::Texts::pair_of))]
fn pair(word: &str) -> Option<u8>
    ensures { result ≡ pair_of word.now }
{
    match word.as_bytes() {
        [high, low] => joined(nibble(*high), nibble(*low)),
        _ => None,
    }
}

/// Splits a text at its first separator, or returns None where it has none.
fn cut(text: &str, separator: char) -> Option<(&str, &str)>
    requires { separator < 128 }
    ensures some { IfSome result
        (λ r. parts_at separator text.now ≡ r.0.now ∷ parts_at separator r.1.now) }
    ensures none { result ≡ None → parts_at separator text.now ≡ text.now ∷ [] }
{
    text.split_once(separator)
}

/// Returns the address of four decimal numbers.
fn address_in(a: &str, b: &str, c: &str, d: &str) -> Option<Ip>
    ensures { option_map (λ ip. ip.0) result
        ≡ address_in (a.now ∷ b.now ∷ c.now ∷ d.now ∷ []) }
{
    let Some(a) = octet(a) else { return None };
    let Some(b) = octet(b) else { return None };
    let Some(c) = octet(c) else { return None };
    let Some(d) = octet(d) else { return None };
    Some(Ip::new([a, b, c, d]))
}

/// Returns the address of a text as `192.0.2.1`.
#[tactic(auto, using(crate::proofs::Cuts::five_parts), unfolding(crate::specs::Texts::address_of))]
pub(crate) fn address_of(text: &str) -> Option<Ip>
    ensures { option_map (λ ip. ip.0) result ≡ address_of text.now }
{
    let Some((a, rest)) = cut(text, '.') else {
        return None
    };
    let Some((b, rest)) = cut(rest, '.') else {
        return None
    };
    let Some((c, rest)) = cut(rest, '.') else {
        return None
    };
    match cut(rest, '.') {
        Some(_) => None,
        None => address_in(a, b, c, rest),
    }
}

/// Returns the Ethernet address of six pairs of hexadecimal digits.
fn mac_in(pairs: [&str; 6]) -> Option<Mac>
    ensures { option_map (λ mac. mac.0) result ≡ mac_in (map (λ p. p.now) pairs.entry) }
{
    let [a, b, c, d, e, f] = pairs;
    let Some(a) = pair(a) else { return None };
    let Some(b) = pair(b) else { return None };
    let Some(c) = pair(c) else { return None };
    let Some(d) = pair(d) else { return None };
    let Some(e) = pair(e) else { return None };
    let Some(f) = pair(f) else { return None };
    Some(Mac([a, b, c, d, e, f]))
}

/// Returns the Ethernet address of a text that has this separator between each two pairs of digits.
#[tactic(auto, using(crate::proofs::Cuts::seven_parts))]
fn mac_with(text: &str, separator: char) -> Option<Mac>
    requires { separator < 128 }
    ensures { option_map (λ mac. mac.0) result ≡ mac_in (parts_at separator text.now) }
{
    let Some((a, rest)) = cut(text, separator) else {
        return None
    };
    let Some((b, rest)) = cut(rest, separator) else {
        return None
    };
    let Some((c, rest)) = cut(rest, separator) else {
        return None
    };
    let Some((d, rest)) = cut(rest, separator) else {
        return None
    };
    let Some((e, rest)) = cut(rest, separator) else {
        return None
    };
    match cut(rest, separator) {
        Some(_) => None,
        None => mac_in([a, b, c, d, e, rest]),
    }
}

/// Returns the Ethernet address of a text as `02-00-00-00-01-00` or `02:00:00:00:01:00`.
#[tactic(auto, unfolding(crate::specs::Texts::mac_of))]
pub(crate) fn mac_of(text: &str) -> Option<Mac>
    ensures { option_map (λ mac. mac.0) result ≡ mac_of text.now }
{
    mac_with(text, '-').or(mac_with(text, ':'))
}
