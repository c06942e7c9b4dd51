//! Rewriting an IPv4 header: other addresses, a TTL lower by one, and the checksum.
ghost use Rattle.std.specs.Prelude.{◌≡◌, ℕ, ◌<◌, ◌≤◌, length, slice_index};
ghost use Rattle.sums.specs.Sum.{checksum_of, IsRight};
ghost use Rattle.rewrite.specs.Translated.{header_unsummed, header_with};

use crate::flows::address_words;
use ipv4::{Flow, Ipv4ViewMut};
use sums::update_words;

/// How much the word of TTL and protocol is less after the TTL is lowered by one.
const ONE_HOP: u32 = 0x0100;

/// Returns the checksum that a header has after its TTL is lowered by one and its addresses are
/// those of `new`.
fn header_checksum(header: &Ipv4ViewMut<'_>, new: Flow) -> u16
    requires octets { (i : ℕ) → slice_index header.now.bytes.now i < 256 }
    requires right { IsRight header.now.bytes.now }
    requires version { 0 < slice_index header.now.bytes.now 0 }
    requires ttl { 0 < slice_index header.now.bytes.now 8 }
    ensures { result ≡ checksum_of (header_unsummed new header.now.bytes.now) }
{
    let old = address_words(header.source()) + address_words(header.destination());
    let now = address_words(new.source) + address_words(new.destination);
    update_words(header.checksum(), old + ONE_HOP, now)
}

/// Gives a header the addresses of `new`, a TTL lower by one, and its checksum.
pub fn rewrite_header(header: &mut [u8], new: Flow)
    requires long { 20 ≤ length header.old }
    requires right { IsRight header.old }
    requires version { 0 < slice_index header.old 0 }
    requires ttl { 0 < slice_index header.old 8 }
    ensures { header.new ≡ header_with new header.old }
{
    let mut view = Ipv4ViewMut::new(header);
    let checksum = header_checksum(&view, new);
    let ttl = view.ttl();
    view.set_ttl(ttl - 1);
    view.set_checksum(checksum);
    view.set_source(new.source);
    view.set_destination(new.destination);
}
