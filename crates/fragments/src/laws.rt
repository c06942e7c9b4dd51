//! Facts about the definitions: which fragments make a whole, that what was cut makes the packet again, and what stays
//! within its bounds.
ghost use Rattle.std.specs.Prelude.{◌≡◌, ◌≤◌, ◌<◌, ◌↔◌, ◌+◌, ℕ, List, Some, false, length, true};
ghost use Rattle.std.specs.List.{AllByRecursion, Contains};
ghost use Rattle.std.specs.Option.{IfSome};
ghost use Rattle.nat_types.specs.declared.gateways.Side.{Side};
ghost use Rattle.ipv4.specs.Header.{header_of, ipv4_refusal, is_fragment, options_of};
ghost use Rattle.ipv4.specs.Options.{has_source_route};
ghost use Rattle.ipv4.specs.declared.faults.Ipv4Fault.TheVariants.{Fragment};
ghost use Rattle.fragments.specs.Fragment.{HasHeader, IsFragment, ipv4_in, is_broken, trimmed};
ghost use Rattle.fragments.specs.Whole.{IsComplete, is_whole, reassembled};
ghost use Rattle.fragments.specs.Gathered.{AreApart, AreKept, Gathered, IsKept, MakesWhole, Datagram as Partial};
ghost use Rattle.fragments.specs.Gathered.{after, is_young, none_there, of_side, taken, without_old};
ghost use Rattle.fragments.specs.declared.gatherings.Came.TheVariants.{Whole};
ghost use Rattle.fragments.specs.Bytes.{AreBytes};
ghost use Rattle.fragments.specs.Options.{later_options};
ghost use Rattle.fragments.specs.Cut.{IsCut, IsMtu, IsPiece, cut, identified, is_long, piece_count, pieces};

/// A packet is refused as a fragment exactly where it has a right header without a source route and is one.
pub fn fragment_grammar()
    ensures { (packet : List ℕ) → (ipv4_refusal packet ≡ Some Fragment)
        ↔ (HasHeader packet × (is_fragment (header_of packet) ≡ true)) }
{}

/// Of fragments that don't contradict each other none is missing exactly where one has offset 0, one has More Fragments
/// clear, and each byte up to the end of that one is carried by exactly one.
pub fn complete_law()
    ensures { (fragments : List (List ℕ)) → AreApart fragments
        → AllByRecursion (λ f. is_broken f ≡ false) fragments
        → (is_whole fragments ≡ true) ↔ IsComplete fragments }
{}

/// Fragments make the same whole in whatever order they stand, and however often each.
pub fn order_law()
    ensures { (fragments others : List (List ℕ)) → IsComplete fragments
        → ((f : List ℕ) → Contains fragments f ↔ Contains others f)
        → reassembled others ≡ reassembled fragments }
{}

/// At a side at most 64 datagrams are there, of one source at most 16, no two of one name, each of at most 64 fragments
/// of that name, and none of them whole: so it begins, and so it stays, whatever fragments come. After a tick none of them
/// began 300 centiseconds ago or earlier.
pub fn bounded()
    ensures none { IsKept none_there }
    ensures taken { (side : Side) (now : ℕ) (frame : List ℕ) (g : Gathered) → IsFragment frame
        → IsKept g → IsKept (after side (taken now frame (of_side side g)) g) }
    ensures dropped { (now : ℕ) (g : Gathered) → IsKept g → IsKept (without_old now g) }
    ensures young { (side : Side) (now : ℕ) (g : Gathered)
        → AllByRecursion (λ d. is_young now d ≡ true) (of_side side (without_old now g)) }
{}

/// What a fragment makes whole is made of it and the fragments of its name that are there, which are complete then and are
/// gone afterwards.
pub fn whole_law()
    ensures { (now : ℕ) (frame : List ℕ) (datagrams : List Partial) → IsFragment frame
        → AreKept datagrams → (taken now frame datagrams).came ≡ Whole
        → (there : Partial)
        × MakesWhole (trimmed frame) datagrams (taken now frame datagrams) there }
{}

/// What a packet is cut into is complete, and makes the packet again, with the identification of the cut, in whatever order
/// it comes and however often each.
pub fn whole_again()
    ensures complete { (mtu identification : ℕ) (frame : List ℕ)
        → IsCut mtu identification frame → IsComplete (cut mtu identification frame) }
    ensures whole { (mtu identification : ℕ) (frame : List ℕ) (others : List (List ℕ))
        → IsCut mtu identification frame
        → ((f : List ℕ) → Contains (cut mtu identification frame) f ↔ Contains others f)
        → reassembled others ≡ identified identification frame }
{}

/// A packet is cut into at most 128 fragments with right headers without a source route, of at most `mtu` bytes of IPv4.
/// Each but the last carries as many bytes as a multiple of 8 allows.
pub fn cut_law()
    ensures few { (mtu identification : ℕ) (frame : List ℕ)
        → IsCut mtu identification frame → piece_count mtu (ipv4_in frame) ≤ 128 }
    ensures pieces { (mtu identification : ℕ) (frame : List ℕ) (k : ℕ)
        → IsCut mtu identification frame → k < piece_count mtu (ipv4_in frame)
        → IsPiece mtu identification frame k }
{}

/// Where a frame has to be cut, its pieces are complete and make the packet again, under its identification, in whatever order
/// they come and however often each. Each is a frame of at most `mtu` bytes of IPv4, and there are at most 128.
pub fn pieces_law()
    ensures complete { (mtu : ℕ) (frame : List ℕ) → IsMtu mtu → AreBytes frame
        → is_long mtu frame ≡ true → IsComplete (pieces mtu frame) }
    ensures whole { (mtu : ℕ) (frame : List ℕ) (others : List (List ℕ)) → IsMtu mtu
        → AreBytes frame → is_long mtu frame ≡ true
        → ((f : List ℕ) → Contains (pieces mtu frame) f ↔ Contains others f)
        → reassembled others ≡ identified (header_of (ipv4_in frame)).identification frame }
    ensures short { (mtu : ℕ) (frame : List ℕ) → IsMtu mtu → AreBytes frame
        → is_long mtu frame ≡ true
        → AllByRecursion (λ f. length f ≤ 14 + mtu) (pieces mtu frame) }
    ensures few { (mtu : ℕ) (frame : List ℕ) → IsMtu mtu → AreBytes frame
        → is_long mtu frame ≡ true → length (pieces mtu frame) ≤ 128 }
{}

/// A whole has no source route, since its options are those of the fragment with offset 0. The options of later fragments
/// have one exactly where those of the packet have one; so no piece of a packet has one.
pub fn route_law()
    ensures whole { (now : ℕ) (frame : List ℕ) (datagrams : List Partial) → IsFragment frame
        → AreKept datagrams → IfSome (taken now frame datagrams).made
        (λ whole. has_source_route (options_of (ipv4_in whole)) ≡ false) }
    ensures later { (options : List ℕ)
        → has_source_route (later_options options) ≡ has_source_route options }
{}
