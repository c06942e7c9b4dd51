//! What is known of a gateway's step beside the laws of its step on whole frames. Each law is the contract of a function
//! that does nothing.
ghost use Rattle.std.specs.Prelude.{◌≡◌, ◌≢◌, ◌⊎◌, ℕ, None, List, false, map, true};
ghost use Rattle.std.specs.Borrow.{Bor};
ghost use Rattle.std.specs.List.{AllByRecursion};
ghost use Rattle.nat_types.specs.declared.gateways.Side.{Side};
ghost use Rattle.output.specs.Output.{Output, Sent};
ghost use Rattle.link.specs.Link.{wanted};
ghost use Rattle.link.specs.Strays.{IsStray};
ghost use Rattle.packet_rules.specs.declared.networks.Networks.{Networks};
ghost use Rattle.packet_rules.specs.declared.reasons.Reason.TheVariants.{BadDatagram};
ghost use Rattle.nat_types.specs.declared.gateways.GatewayId.{GatewayId};
ghost use Rattle.nat_types.specs.declared.gateways.GatewayId.TheVariants.{Zero, One};
ghost use Rattle.packet_rules.specs.Networks.{mtu_of};
ghost use Rattle.fragments.specs.Bytes.{AreBytes};
ghost use Rattle.fragments.specs.Cut.{cut, identified};
ghost use Rattle.fragments.specs.Gathered.{IsKept, is_young, of_side};
ghost use Rattle.spec_binding.specs.Books.{IsBook};
ghost use Rattle.spec_step.specs.declared.events.Event.{Event};
ghost use Rattle.spec_step.specs.declared.events.Event.TheVariants.{Datagram, Frame, Tick};
ghost use Rattle.spec_step.specs.declared.events.Outcome.TheVariants.{Dropped};
ghost use Rattle.spec_step.specs.Machine.{HasBytes, KeepsBytes};
ghost use Rattle.spec_step.specs.OwnAnswers.{SaysJust};
ghost use Rattle.spec_step.specs.PassedOn.{TellsAll};
ghost use Rattle.spec_step.specs.Shown.{Shown, scene};
ghost use Rattle.spec_step.specs.Steps.{clock_after};
ghost use Rattle.spec_step.specs.Truly.{IsSetUp, Tells};
ghost use Rattle.spec_gateway.specs.State.{GatewayState, KeepsParts, beginning};
ghost use Rattle.spec_gateway.specs.Arrivals.{arrival};
ghost use Rattle.spec_gateway.specs.Sendings.{all_pieces, is_cut, is_numbered, number_after, number_of, numbered, pieces_of};
ghost use Rattle.spec_gateway.specs.Steps.{IsGatewayStep, hand_at, outcome_of, whole_event};
ghost use Rattle.spec_gateway.specs.Inner.{AreOwnAt, TakesNothing, TakesWhole};
ghost use Rattle.spec_gateway.specs.Without.{IsUncut, without};

use fragments::{bounded, fragment_grammar};
use ipv4::ipv4_grammar;
use packet_rules::readings_law;
use spec_step::{steps_pass_on, steps_say, steps_tell, strays_are_dropped};

/// A frame that brings nothing whole changes the fragments that are there, and nothing else. It tells nothing.
pub fn part_is_nothing()
    ensures { (s : GatewayState) (told : Output) (side : Side) (bytes : Bor (List ℕ))
        (s2 : GatewayState) (told2 : Output)
        → IsGatewayStep s told (Frame side bytes) s2 told2
        → (arrival s side bytes.now).frame ≡ None
        → (s2 ≡ record s { gathered = (arrival s side bytes.now).gathered })
        × (told2 ≡ told) }
{}

/// A stray, which is no datagram or one with other values than the link's, is dropped and changes nothing, where the link
/// owes no datagram and has the records that it was promised, as it does between steps: the gateway is as it was, and sends
/// and notes nothing.
pub fn strays_change_nothing()
    ensures step { (s : GatewayState) (told : Output) (bytes : Bor (List ℕ))
        (s2 : GatewayState) (told2 : Output)
        → IsGatewayStep s told (Datagram bytes) s2 told2 → IsStray s.shown.link.values bytes.now
        → s.shown.link.due ≡ false → wanted s.shown.link ≡ 0 → (s2 ≡ s) × (told2 ≡ told) }
    ensures outcome { (s : GatewayState) (bytes : Bor (List ℕ))
        → IsStray s.shown.link.values bytes.now
        → outcome_of s (Datagram bytes) ≡ Dropped BadDatagram }
{
    strays_are_dropped();
}

/// Of each side at most 64 datagrams are there of which fragments are missing, of one source at most 16, and of each at most
/// 64 fragments: that stays so. After a tick none of them began 300 centiseconds ago or earlier.
pub fn fragments_stay_few()
    ensures few { (s : GatewayState) (told : Output) (event : Event) (s2 : GatewayState)
        (told2 : Output) → IsGatewayStep s told event s2 told2 → IsKept s.gathered
        → IsKept s2.gathered }
    ensures young { (s : GatewayState) (told : Output) (now : ℕ) (s2 : GatewayState)
        (told2 : Output) (side : Side) → IsGatewayStep s told (Tick now) s2 told2
        → AllByRecursion (λ d. is_young (clock_after s.shown.moment now) d ≡ true)
        (of_side side s2.gathered) }
{
    fragment_grammar();
    bounded();
}

/// Where no frame is too long, none gets an identification, and each goes out as it is.
pub fn short_frames_stay()
    ensures { (networks : Networks) (id : GatewayId) (n : ℕ) (frames : List Sent)
        → AllByRecursion (λ f. is_cut networks f ≡ false) frames
        → (numbered networks id n frames ≡ frames) × (number_after networks n frames ≡ n)
        × (all_pieces networks frames ≡ frames) }
{}

/// A frame that is too long, with an identification of the gateway's, goes out in what its packet is cut into under that
/// identification. No identification is of both gateways.
pub fn pieces_are_numbered()
    ensures pieces { (networks : Networks) (id : GatewayId) (n : ℕ) (f : Sent) → AreBytes f.bytes
        → is_numbered networks f ≡ true
        → pieces_of networks (record f { bytes = identified (number_of id n) f.bytes })
        ≡ map (λ bytes. record { side = f.side; bytes = bytes })
        (cut (mtu_of networks f.side) (number_of id n) f.bytes) }
    ensures apart { (m n : ℕ) → number_of Zero m ≢ number_of One n }
{
    ipv4_grammar();
}

/// To all but the fragments that are there a step does nothing, or what a step on a whole event does: the event that came, or
/// where that is a frame a frame of the same side. Notes and datagrams are those of that step, and frames differ in their
/// identification alone.
pub fn inner_steps()
    ensures either { (s : GatewayState) (told : Output) (event : Event) (s2 : GatewayState)
        (told2 : Output) (step : IsGatewayStep s told event s2 told2)
        → TakesNothing s told s2 told2 ⊎ TakesWhole s told event s2 step.whole }
    ensures notes { (s : GatewayState) (told : Output) (event : Event) (s2 : GatewayState)
        (told2 : Output) (step : IsGatewayStep s told event s2 told2)
        → told2.notes ≡ step.whole.notes }
    ensures datagrams { (s : GatewayState) (told : Output) (event : Event) (s2 : GatewayState)
        (told2 : Output) (step : IsGatewayStep s told event s2 told2)
        → told2.datagrams ≡ step.whole.datagrams }
{}

/// The fragments that a gateway has are bytes: so it begins, and so it stays.
pub fn parts_stay_bytes()
    ensures begun { (g : Shown) → KeepsParts (beginning g) }
    ensures step { (s : GatewayState) (told : Output) (event : Event) (s2 : GatewayState)
        (told2 : Output) → IsGatewayStep s told event s2 told2 → HasBytes event
        → KeepsParts s → KeepsParts s2 }
{}

/// A step tells truly, with the whole frame that comes as the packet at hand, and of the whole frames that it sends.
pub fn gateway_tells()
    ensures truly { (s : GatewayState) (told : Output) (event : Event) (s2 : GatewayState)
        (told2 : Output) (step : IsGatewayStep s told event s2 told2)
        → HasBytes event → KeepsParts s → IsBook s.shown.ledger.book → KeepsBytes s.shown
        → IsSetUp s.shown
        → Tells (hand_at s event) (scene s.shown told) (scene s2.shown step.whole) }
    ensures set_up { (s : GatewayState) (told : Output) (event : Event) (s2 : GatewayState)
        (told2 : Output) → IsGatewayStep s told event s2 told2
        → HasBytes event → KeepsParts s → IsBook s.shown.ledger.book → KeepsBytes s.shown
        → IsSetUp s.shown → IsSetUp s2.shown }
{
    steps_tell();
}

/// A step passes errors on, and says what is its own, with the whole frame that comes as the packet at hand, and of the whole
/// frames that it sends.
pub fn gateway_passes_on()
    ensures { (s : GatewayState) (told : Output) (event : Event) (s2 : GatewayState)
        (told2 : Output) (step : IsGatewayStep s told event s2 told2)
        → HasBytes event → KeepsParts s → IsBook s.shown.ledger.book → KeepsBytes s.shown
        → IsSetUp s.shown
        → TellsAll (hand_at s event) (scene s.shown told) (scene s2.shown step.whole) }
{
    steps_pass_on();
}

/// The own frames among the whole frames of a step are exactly those of its takings: of the whole frame that comes, and of the
/// packets whose wait it ended.
pub fn gateway_says()
    ensures { (s : GatewayState) (told : Output) (event : Event) (s2 : GatewayState)
        (told2 : Output) (step : IsGatewayStep s told event s2 told2)
        → HasBytes event → KeepsParts s → IsBook s.shown.ledger.book → KeepsBytes s.shown
        → IsSetUp s.shown
        → (own : List Sent) × (AreOwnAt (scene s.shown told) (whole_event s event) own
        × SaysJust (scene s.shown told) (scene s2.shown step.whole) own) }
{
    steps_say();
}

/// With `pass` a frame that is no fragment, and has Don't Fragment or fits both sides, does what it does without: the same
/// outcome, the same frames, datagrams and notes, and the same gateway afterwards. A frame with an ARP packet is left out,
/// since it may end the wait of a packet that is cut.
pub fn as_without()
    ensures step { (s : GatewayState) (told : Output) (side : Side) (bytes : Bor (List ℕ))
        (s2 : GatewayState) (told2 : Output) → IsUncut s.shown side bytes.now
        → IsGatewayStep s told (Frame side bytes) s2 told2
        → IsGatewayStep (without s) told (Frame side bytes) (without s2) told2 }
    ensures outcome { (s : GatewayState) (side : Side) (bytes : Bor (List ℕ))
        → IsUncut s.shown side bytes.now
        → outcome_of (without s) (Frame side bytes) ≡ outcome_of s (Frame side bytes) }
{
    readings_law();
}
