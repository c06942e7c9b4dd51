//! The options of all fragments of a packet but the first (RFC 791, section 3.1).
//!
//! Record Route (7) isn't copied, Router Alert (148) is, an End (0) ends them:
//!
//! ```text
//! 07 03 04   94 04 00 00   00
//! 01 01 01   94 04 00 00   00
//! ```
ghost use Rattle.std.specs.Prelude.{◌≡◌, ◌≤◌, ◌<◌, length, take};
ghost use Rattle.fragments.specs.Options.{later_options, option_later};

use ipv4::option_size;

/// The most bytes of options.
const LONGEST: usize = 40;

/// No Operation, an option of one byte.
const NO_OPERATION: u8 = 1;

/// The least first byte of an option that is copied into all fragments.
const COPIED: u8 = 128;

/// Writes No Operation over each byte of an option that isn't copied.
fn blank_option(option: &mut [u8])
    requires { 0 < length option.old }
    ensures { option.new ≡ option_later (length option.old) option.old }
{
    if option[0] < COPIED {
        option.fill(NO_OPERATION);
    }
}

/// Writes No Operation over each byte of the options that aren't copied.
fn blank(options: &mut [u8])
    ensures { options.new ≡ later_options options.old }
{
    let mut at = 0;
    while at < options.len() {
        let size = option_size(&options[at..]);
        if size == 0 {
            break;
        }
        blank_option(&mut options[at..at + size]);
        at += size;
    }
}

/// Returns the options of later fragments, and zeros behind them.
pub(crate) fn later(options: &[u8]) -> [u8; LONGEST]
    requires { length options.now ≤ 40 }
    ensures { take (length options.now) result ≡ later_options options.now }
{
    let count = options.len();
    let mut later = [0; LONGEST];
    later[..count].copy_from_slice(options);
    blank(&mut later[..count]);
    later
}
