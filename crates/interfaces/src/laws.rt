//! How long the frames of a virtual router are, and when a side is whole.
ghost use Rattle.std.specs.Prelude.{◌≡◌, ◌≢◌, ℕ, true, length};
ghost use Rattle.arp.specs.declared.packets.TheConstants.{ARP_FRAME};
ghost use Rattle.vrrp_packet.specs.declared.TheConstants.{ADVERT_FRAME};
ghost use Rattle.packet_rules.specs.declared.networks.Network.{Network};
ghost use Rattle.packet_rules.specs.Adverts.{advert_frame};
ghost use Rattle.packet_rules.specs.Arping.{gratuitous_frame};
ghost use Rattle.interfaces.specs.Tallies.{IsWithin, at_moment, complained, may_complain, may_reply, none_in, replied, second_of};
ghost use Rattle.interfaces.specs.declared.cables.TheConstants.{WHOLE_AFTER};
ghost use Rattle.interfaces.specs.declared.tallies.Tally.{Tally};
ghost use Rattle.interfaces.specs.declared.tallies.TheConstants.{MOST_ERRORS, MOST_REPLIES};

/// States that the frame of an advertisement has `ADVERT_FRAME` bytes, and that of a gratuitous ARP `ARP_FRAME`.
pub fn sizes_law()
    ensures advert { (network : Network) (priority interval : ℕ)
        → length (advert_frame network priority interval) ≡ ADVERT_FRAME }
    ensures gratuitous { (network : Network) → length (gratuitous_frame network) ≡ ARP_FRAME }
{}

/// States the numbers that the definitions take from the code: how many centiseconds after its cable came in a side is
/// whole, and how many answers and errors of its own the gateway sends there in one second.
pub fn limits_law()
    ensures whole_after { WHOLE_AFTER ≡ 300 }
    ensures most_replies { MOST_REPLIES ≡ 100 }
    ensures most_errors { MOST_ERRORS ≡ 10 }
{}

/// States that a tally stays within its limits where no more is counted than may be sent. A tally goes on within one
/// second, and begins anew in another.
pub fn tallies_law()
    ensures none { (second : ℕ) → IsWithin (none_in second) }
    ensures replied { (now : ℕ) (tally : Tally) → IsWithin tally → may_reply now tally ≡ true
        → IsWithin (replied now tally) }
    ensures complained { (now : ℕ) (tally : Tally) → IsWithin tally
        → may_complain now tally ≡ true → IsWithin (complained now tally) }
    ensures same_second { (now : ℕ) (tally : Tally) → tally.second ≡ second_of now
        → at_moment now tally ≡ tally }
    ensures other_second { (now : ℕ) (tally : Tally) → tally.second ≢ second_of now
        → at_moment now tally ≡ none_in (second_of now) }
    ensures second { (now : ℕ) (tally : Tally)
        → (at_moment now tally).second ≡ second_of now }
{}
