//! The options of an IPv4 header (RFC 791, section 3.1).
//!
//! A No Operation (1), a Loose Source Route (131) by 198.51.100.7, and an End (0), which ends them:
//!
//! ```text
//! 01   83 07 04 c6336407   00 00 00 00
//! ```
ghost use Rattle.std.specs.Prelude.{◌≡◌, ◌≤◌, ◌∷◌, length};
ghost use Rattle.ipv4.specs.Options.{has_source_route, is_source_route, option_size};

/// End of Option List.
const END: u8 = 0;

/// No Operation, an option of one byte.
const NO_OPERATION: u8 = 1;

/// Loose Source and Record Route.
const LOOSE_SOURCE_ROUTE: u8 = 0x83;

/// Strict Source and Record Route.
const STRICT_SOURCE_ROUTE: u8 = 0x89;

/// Returns the bytes of the option that begins here, or 0 where the options end.
pub fn option_size(options: &[u8]) -> usize
    ensures value { result ≡ option_size options.now }
    ensures within { result ≤ length options.now }
{
    match options {
        [] => 0,
        [kind, rest @ ..] => size_of(*kind, rest),
    }
}

/// Returns the bytes of the option that begins with this byte and goes on with these.
fn size_of(kind: u8, rest: &[u8]) -> usize
    ensures value { result ≡ option_size (kind ∷ rest.now) }
    ensures within { result ≤ length (kind ∷ rest.now) }
{
    if kind == END {
        return 0;
    }
    if kind == NO_OPERATION {
        return 1;
    }
    match rest {
        [] => 0,
        [size, ..] => {
            let size = usize::from(*size);
            if size >= 2 && size <= rest.len() + 1 {
                size
            } else {
                0
            }
        }
    }
}

fn is_source_route(kind: u8) -> bool
    ensures { result ≡ is_source_route kind }
{
    kind == LOOSE_SOURCE_ROUTE || kind == STRICT_SOURCE_ROUTE
}

/// Whether one of these options is a source route. One that is cut off by the header's end is one.
#[cold]
pub(crate) fn has_source_route(options: &[u8]) -> bool
    ensures { result ≡ has_source_route options.now }
{
    let mut rest = options;
    while let [kind, ..] = rest {
        if is_source_route(*kind) {
            return true;
        }
        let size = option_size(rest);
        if size == 0 {
            return false;
        }
        rest = &rest[size..];
    }
    false
}
