//! The 18 bytes of a header that say on which values its sender runs.
ghost use Rattle.std.specs.Prelude.{◌≡◌, ◌+◌, ◌≤◌, ◌++◌, drop, length};
ghost use Rattle.byteorder.specs.Endian.{big_bytes};
ghost use Rattle.link.specs.Grammar.{values_bytes};
ghost use Rattle.link.specs.Reading.{values_at};

use crate::writing::{LONGEST_PART, Part, put, put_port};
use addresses::{Ip, Port};
use byteorder::{BigEndian, ByteOrder};
use settings::Values;

/// Returns the values from the first 18 bytes. Any bytes are values.
fn values_of(bytes: &[u8]) -> Values
    requires { 18 ≤ length bytes.now }
    ensures { result ≡ values_at bytes.now }
{
    Values {
        zero_lowest: Port(BigEndian::read_u16(bytes)),
        zero_highest: Port(BigEndian::read_u16(&bytes[2..])),
        one_lowest: Port(BigEndian::read_u16(&bytes[4..])),
        one_highest: Port(BigEndian::read_u16(&bytes[6..])),
        inside_virtual: Ip(BigEndian::read_u32(&bytes[8..])),
        outside_virtual: Ip(BigEndian::read_u32(&bytes[12..])),
        inside_prefix: bytes[16],
        outside_prefix: bytes[17],
    }
}

/// Returns the values from the 18 bytes at an offset.
pub(crate) fn values_from(bytes: &[u8], start: usize) -> Values
    requires { start + 18 ≤ length bytes.now }
    ensures { result ≡ values_at (drop start bytes.now) }
{
    values_of(&bytes[start..])
}

fn put_address(out: &mut Part, address: Ip)
    requires { length out.old.items + 4 ≤ LONGEST_PART }
    ensures { out.new.items ≡ out.old.items ++ big_bytes 4 address.0 }
{
    put(out, &address.0.to_be_bytes());
}

/// Appends the bytes of values to a part.
pub(crate) fn put_values(out: &mut Part, values: &Values)
    requires { length out.old.items + 18 ≤ LONGEST_PART }
    ensures { out.new.items ≡ out.old.items ++ values_bytes values.now }
{
    put_port(out, values.zero_lowest);
    put_port(out, values.zero_highest);
    put_port(out, values.one_lowest);
    put_port(out, values.one_highest);
    put_address(out, values.inside_virtual);
    put_address(out, values.outside_virtual);
    put(out, &[values.inside_prefix, values.outside_prefix]);
}
