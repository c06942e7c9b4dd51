//! Facts about the definitions of a translation: that checksums stay as right as they were, and which addresses an
//! error shows.
ghost use Rattle.std.specs.Prelude.{◌≡◌, ℕ, ◌+◌, ◌%◌, ◌^◌, ◌<◌, ◌≤◌, List, length, slice_index};
ghost use Rattle.sums.specs.Sum.{word_sum, IsRight};
ghost use Rattle.ipv4.specs.declared.flows.Flow.{Flow as FlowValue};
ghost use Rattle.addresses.specs.declared.internet.Ip.{Ip as IpValue};
ghost use Rattle.addresses.specs.declared.transport.Port.{Port as PortValue};
ghost use Rattle.ipv4.specs.Header.{word_at, header_of, payload_of, IsIpv4};
ghost use Rattle.icmp.specs.Error.{inside_of};
ghost use Rattle.icmp.specs.Packet.{IsErrorPacket, error_flow};
ghost use Rattle.icmp.specs.Query.{query_of};
ghost use Rattle.icmp.specs.declared.packets.ErrorFlow.{ErrorFlow as ErrorFlowValue};
ghost use Rattle.rewrite.specs.PassedOn.{error_outward_of, inside_header, message_with, passed_on};
ghost use Rattle.rewrite.specs.Translated.{header_with, moved_sum, query_with, summed, udp_with, tcp_with};

/// A checksum that is moved from a whole sum `s` to `s2` is a number below 65535, and is as right as it was.
pub fn moved_sum_law()
    ensures small { (t s s2 : ℕ) → moved_sum t s s2 < 65535 }
    ensures same { (t s s2 : ℕ) → (moved_sum t s s2 + s2) % 65535 ≡ (t + s) % 65535 }
{}

/// A translated header, whose checksum is the complement of the whole sum, has a right checksum.
pub fn header_law()
    ensures { (flow : FlowValue) (header : List ℕ) → 20 ≤ length header
        → 0 < slice_index header 0 → IsRight (header_with flow header) }
{}

/// A UDP checksum that is absent stays absent, and one that is present stays present. A right one stays right, and a
/// wrong one stays wrong by as much.
pub fn udp_law()
    ensures absent { (old new : FlowValue) (segment : List ℕ) → 8 ≤ length segment
        → word_at 6 segment ≡ 0 → word_at 6 (udp_with old new segment) ≡ 0 }
    ensures present { (old new : FlowValue) (segment : List ℕ) → 8 ≤ length segment
        → 0 < word_at 6 segment → 0 < word_at 6 (udp_with old new segment) }
    ensures same { (old new : FlowValue) (segment : List ℕ) → 8 ≤ length segment
        → 0 < word_at 6 segment
        → word_sum (summed new 17 (udp_with old new segment)) % 65535
        ≡ word_sum (summed old 17 segment) % 65535 }
    ensures right { (old new : FlowValue) (segment : List ℕ) → 8 ≤ length segment
        → 0 < word_at 6 segment → IsRight (summed old 17 segment)
        → IsRight (summed new 17 (udp_with old new segment)) }
{}

/// A right TCP checksum stays right, and a wrong one stays wrong by as much.
pub fn tcp_law()
    ensures same { (old new : FlowValue) (segment : List ℕ) → 20 ≤ length segment
        → word_sum (summed new 6 (tcp_with old new segment)) % 65535
        ≡ word_sum (summed old 6 segment) % 65535 }
    ensures right { (old new : FlowValue) (segment : List ℕ) → 20 ≤ length segment
        → IsRight (summed old 6 segment)
        → IsRight (summed new 6 (tcp_with old new segment)) }
{}

/// A right checksum of a query stays right, and a wrong one stays wrong by as much. Such a checksum covers nothing but
/// the message.
pub fn query_law()
    ensures same { (old new : FlowValue) (message : List ℕ) → 8 ≤ length message
        → word_sum (query_with old new message) % 65535 ≡ word_sum message % 65535 }
    ensures right { (old new : FlowValue) (message : List ℕ) → 8 ≤ length message
        → 0 < (query_of (query_with old new message)).identifier → IsRight message
        → IsRight (query_with old new message) }
{}

/// An error that is passed on has a right checksum over its message, and the packet inside has a right header checksum.
/// The error's own header has one by [`header_law`].
pub fn error_law()
    ensures payload { (new : ErrorFlowValue) (packet : List ℕ) → IsIpv4 packet
        → IsErrorPacket packet → payload_of (passed_on new packet)
        ≡ message_with (error_flow packet).inside new.inside (payload_of packet) }
    ensures message { (new : ErrorFlowValue) (packet : List ℕ) → IsIpv4 packet
        → IsErrorPacket packet → IsRight (payload_of (passed_on new packet)) }
    ensures inside { (new : FlowValue) (header : List ℕ) → 20 ≤ length header
        → 0 < slice_index header 0 → IsRight (inside_header new header) }
{}

/// An error that is passed on outward comes from the outside address, and the packet inside went to that address. The
/// options of the headers and the bytes after the packet inside stay.
pub fn hides_inside()
    ensures source { (packet : List ℕ) (from : IpValue) (port : PortValue) → IsIpv4 packet
        → from.0 < 2 ^ 32
        → (header_of (error_outward_of from port packet)).source ≡ from.0 }
    ensures destination_inside { (packet : List ℕ) (from : IpValue) (port : PortValue)
        → IsIpv4 packet → IsErrorPacket packet → from.0 < 2 ^ 32
        → let passed = error_outward_of from port packet in
        (header_of (inside_of (payload_of passed))).destination ≡ from.0 }
{}
