//! Laws of the rule of idle pairs, for callers that see uses and releases alone.
ghost use Rattle.std.specs.Prelude.{◌≡◌, ◌≢◌, ℕ, ◌≤◌, nat_le, true, false, Bool, List, ◌∷◌, ◌++◌, map};
ghost use Rattle.addresses.specs.declared.transport.Protocol.{Protocol};
ghost use Rattle.activity.specs.declared.packets.Packet.{Packet as Carried};
ghost use Rattle.activity.specs.declared.TheConstants.{MAX_SESSIONS, QUERY_REST, UDP_REST, TRANSITORY_REST, ESTABLISHED_REST};
ghost use Rattle.activity.specs.Dues.{due_moment};
ghost use Rattle.addresses.specs.declared.transport.Protocol.TheVariants.{Tcp};
ghost use Rattle.activity.specs.declared.packets.Way.TheVariants.{Inward};
ghost use Rattle.activity.specs.Packets.{is_passive};
ghost use Rattle.activity.specs.Lives.{History, Activity as Seen, Agrees, came, with_packet, renewed, has_course, courses, is_crowded, is_loose, looks_idle, is_idle, is_unused, is_loose_at, life_carried, counts, counts_at, least_rest};
ghost use Rattle.activity.specs.Rests.{CameBy, AllRested, AllBefore, HaveRested, AccountsFor, counted, with_use};

/// States that an idle pair has rested since each use that counts: all but those of loose segments and, where
/// `inward_refresh` is false, of packets of UDP and ICMP inward. The uses of a pair in a gateway's life are those of
/// this list of packets, and earlier ones, which had rested when the list began. So each use that counts is at least
/// the protocol's rest before a release of a pair that is idle, or unused, and the next list begins with all of them
/// rested. The last five clauses give the limits in centiseconds.
pub fn idle_rests_law()
    ensures idle { (protocol : Protocol) → (past : History) → (now : ℕ)
        → CameBy now past.packets
        → is_idle protocol past now ≡ true → AllRested (least_rest protocol) now
        (counted protocol past.packets) }
    ensures unused { (past : History) → (rest now : ℕ) → is_unused past ≡ true
        → AllRested rest now past.packets }
    ensures earlier { (rest since now : ℕ) → (uses : List ℕ) → since ≤ now
        → AllBefore rest since uses → AllBefore rest now uses }
    ensures together { (rest now : ℕ) → (packets : List Carried) → (uses : List ℕ)
        → AllRested rest now packets → AllBefore rest now uses → AllBefore rest now (map
        (λ p. p.at) packets ++ uses) }
    ensures query_rest { QUERY_REST ≡ 6000 }
    ensures udp_rest { UDP_REST ≡ 30000 }
    ensures transitory_rest { TRANSITORY_REST ≡ 24000 }
    ensures established_rest { ESTABLISHED_REST ≡ 744000 }
    ensures max_sessions { MAX_SESSIONS ≡ 4 }
{}

/// States the law of idle pairs by a list of uses, for callers that see a trace: the times at which a gateway used a
/// pair in its present life, of the uses that count. A past that accounts for the uses begins where all have rested
/// (`comes`, `renewed`), or anew while its pair is in use (`anew`), and goes on with each packet (`carried`) and with
/// time (`later`). Where the past is idle, or unused, all uses have rested (`idle`, `unused`), and that remains so
/// (`rested`). So a caller keeps of each entry a past with which the entry agrees and which accounts for the uses so
/// far, and of each pair without an entry, or released, that its uses have rested.
///
/// `HaveRested (least_rest protocol) now uses` is what a release needs to be idle by the trace: each use of the pair by
/// that gateway in the same life that counts is at least 30,000 (UDP), 24,000 (TCP) or 6,000 (ICMP) centiseconds before
/// the release. The trace says so where `uses` has each use in the present life that counts: such a use is put in front
/// (`with_use`), a boot of the gateway empties the list, and nothing else changes it.
pub fn uses_rest_law()
    ensures comes { (protocol : Protocol) → (by_install : Bool) → (now : ℕ)
        → (uses : List ℕ)
        → HaveRested (least_rest protocol) now uses
        → AccountsFor protocol now (came by_install now) uses }
    ensures carried { (protocol : Protocol) → (since : ℕ) → (past : History)
        → (uses : List ℕ)
        → (packet : Carried) → since ≤ packet.at → AccountsFor protocol since past uses
        → AccountsFor protocol packet.at (with_packet packet past)
        (with_use protocol packet past uses) }
    ensures renewed { (protocol : Protocol) → (past : History) → (now : ℕ) → (uses : List ℕ)
        → HaveRested (least_rest protocol) now uses
        → AccountsFor protocol now (renewed now past) uses }
    ensures anew { (protocol : Protocol) → (past : History) → (now : ℕ) → (uses : List ℕ)
        → AccountsFor protocol now past uses → AccountsFor protocol now (renewed now past) uses }
    ensures later { (protocol : Protocol) → (past : History) → (since now : ℕ)
        → (uses : List ℕ)
        → since ≤ now → AccountsFor protocol since past uses → AccountsFor protocol now past uses }
    ensures idle { (protocol : Protocol) → (past : History) → (now : ℕ) → (uses : List ℕ)
        → AccountsFor protocol now past uses → is_idle protocol past now ≡ true
        → HaveRested (least_rest protocol) now uses }
    ensures unused { (protocol : Protocol) → (past : History) → (now : ℕ) → (uses : List ℕ)
        → AccountsFor protocol now past uses → is_unused past ≡ true
        → HaveRested (least_rest protocol) now uses }
    ensures rested { (rest since now : ℕ) → (uses : List ℕ) → since ≤ now
        → HaveRested rest since uses → HaveRested rest now uses }
{}

/// States that a pair that carries nothing more is idle exactly from one time on, which is known from its life.
pub fn due_law()
    ensures { (protocol : Protocol) → (life : Seen) → (now : ℕ)
        → looks_idle protocol life now
        ≡ nat_le (due_moment protocol life) now }
{}

/// States what a stranger's packet leaves as it was. A segment inward whose remote host has no session is loose
/// (`loose`); where `inward_refresh` is false it changes the answer of `idle` at no time (`segment`), nor does a packet
/// inward of UDP or ICMP (`datagram`). Whatever `inward_refresh` is, a loose segment changes no session (`sessions`),
/// and doesn't make the pair crowded (`crowded`). The next two clauses say the same of what an entry keeps, and the
/// last one that this tells whether the use that a packet makes counts.
pub fn stranger_keeps_nothing()
    ensures loose { (past : History) → (packet : Carried)
        → packet.way ≡ Inward → has_course packet.remote (courses past.packets) ≡ false
        → is_loose past.packets packet ≡ true }
    ensures segment { (past : History) → (packet : Carried) → (now : ℕ)
        → packet.inward_refresh ≡ false → is_loose past.packets packet ≡ true
        → is_idle Tcp (with_packet packet past) now ≡ is_idle Tcp past now }
    ensures datagram { (protocol : Protocol) → (past : History) → (packet : Carried) → (now : ℕ)
        → protocol ≢ Tcp → packet.way ≡ Inward → packet.inward_refresh ≡ false
        → is_idle protocol (with_packet packet past) now ≡ is_idle protocol past now }
    ensures sessions { (past : History) → (packet : Carried) → is_loose past.packets packet ≡ true
        → courses (with_packet packet past).packets ≡ courses past.packets }
    ensures crowded { (past : History) → (packet : Carried) → is_loose past.packets packet ≡ true
        → is_crowded (with_packet packet past).packets ≡ is_crowded past.packets }
    ensures kept_idle { (protocol : Protocol) → (life : Seen) → (packet : Carried) → (now : ℕ)
        → packet.inward_refresh ≡ false
        → is_passive protocol (is_loose_at life packet) packet ≡ true
        → looks_idle protocol (life_carried protocol packet life) now
        ≡ looks_idle protocol life now }
    ensures kept_sessions { (life : Seen) → (packet : Carried) → is_loose_at life packet ≡ true
        → (life_carried Tcp packet life).sessions ≡ life.sessions }
    ensures kept_counts { (protocol : Protocol) → (past : History) → (life : Seen)
        → (packet : Carried)
        → Agrees protocol past life
        → counts_at protocol life packet ≡ counts protocol past.packets packet }
{}
