//! Which ICMP queries pass at which side (RFC 5508, section 3).
ghost use Rattle.std.specs.Prelude.{◌≡◌};
ghost use Rattle.packet_rules.specs.Queries.{kind_entering, kind_leaving};

use icmp::Kind;
use nat_types::Side;

/// Returns the kind of query that is taken at a side: an Echo, which goes out, inside, and a Reply,
/// which comes in, outside.
pub(crate) fn kind_entering(side: Side) -> Kind
    ensures { result ≡ kind_entering side }
{
    match side {
        Side::Inside => Kind::Echo,
        Side::Outside => Kind::Reply,
    }
}

/// Returns the kind of query that leaves at a side: a Reply inside, an Echo outside.
pub(crate) fn kind_leaving(side: Side) -> Kind
    ensures { result ≡ kind_leaving side }
{
    match side {
        Side::Inside => Kind::Reply,
        Side::Outside => Kind::Echo,
    }
}
