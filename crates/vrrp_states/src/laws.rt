//! Facts about the state table. Each law is the contract of a function that does nothing.

ghost use Rattle.std.specs.Prelude.{◌≡◌, ℕ, ◌<◌, List, All};
ghost use Rattle.vrrp_states.specs.declared.State.TheVariants as states;
ghost use Rattle.vrrp_states.specs.declared.Action.{Action};
ghost use Rattle.vrrp_states.specs.declared.Action.TheVariants as actions;
ghost use Rattle.vrrp_states.specs.Table.{Router, Event, Start, Stop, Line, Says, IsStep};
ghost use Rattle.vrrp_states.specs.Run.{RouterInput, Runs, hears};

/// For each router, event and time exactly one line of the table holds, and that line determines what is sent and what
/// the router is afterwards.
pub fn exactly_one_line()
    ensures some { (r : Router) (e : Event) (now : ℕ)
        → (a : Action) × (s : Router) × IsStep r e now a s }
    ensures line { (r : Router) (e : Event) (now : ℕ) (a b : Action) (s t : Router) (l m : Line)
        → Says l r e now a s → Says m r e now b t → l ≡ m }
    ensures outcome { (r : Router) (e : Event) (now : ℕ) (a b : Action) (s t : Router)
        → IsStep r e now a s → IsStep r e now b t → (a ≡ b) × (s ≡ t) }
{}

/// Of two Active routers that hear each other's advertisements, the one of higher priority stays Active and advertises; the other yields.
pub fn higher_priority_stays()
    ensures stays { (r other s : Router) (now : ℕ) (a : Action) → r.state ≡ states.Active
        → other.priority < r.priority → IsStep r (hears other) now a s
        → (s.state ≡ states.Active) × (a ≡ actions.Advertise r.priority) }
    ensures yields { (r other s : Router) (now : ℕ) (a : Action) → r.state ≡ states.Active
        → r.priority < other.priority → IsStep r (hears other) now a s
        → (s.state ≡ states.Backup) × (a ≡ actions.Nothing) }
{}

/// Of two Active routers with the same priority, the one of the greater address stays Active, and the other yields.
pub fn greater_address_stays()
    ensures stays { (r other s : Router) (now : ℕ) (a : Action) → r.state ≡ states.Active
        → other.priority ≡ r.priority → other.address < r.address → IsStep r (hears other) now a s
        → (s.state ≡ states.Active) × (a ≡ actions.Advertise r.priority) }
    ensures yields { (r other s : Router) (now : ℕ) (a : Action) → r.state ≡ states.Active
        → 0 < r.priority → other.priority ≡ r.priority → r.address < other.address
        → IsStep r (hears other) now a s → (s.state ≡ states.Backup) × (a ≡ actions.Nothing) }
{}

/// A router that is stopped is in Initialize, stays there and sends nothing until it is started.
pub fn stopped_stays()
    ensures stopped { (r s : Router) (now : ℕ) (a : Action) → IsStep r Stop now a s
        → s.state ≡ states.Initialize }
    ensures stays { (r s : Router) (told : List RouterInput) → r.state ≡ states.Initialize
        → All (λ x. x.event ≡ Start → ⊥) told → Runs r told s → s ≡ r }
    ensures silent { (r s : Router) (told : List RouterInput) → r.state ≡ states.Initialize
        → All (λ x. x.event ≡ Start → ⊥) told → Runs r told s
        → All (λ x. x.action ≡ actions.Nothing) told }
{}

/// A router keeps its own values (priority, interval, preempt, address) in every step.
pub fn own_values_stay()
    ensures priority { (r s : Router) (e : Event) (now : ℕ) (a : Action) → IsStep r e now a s
        → s.priority ≡ r.priority }
    ensures interval { (r s : Router) (e : Event) (now : ℕ) (a : Action) → IsStep r e now a s
        → s.interval ≡ r.interval }
    ensures preempt { (r s : Router) (e : Event) (now : ℕ) (a : Action) → IsStep r e now a s
        → s.preempt ≡ r.preempt }
    ensures address { (r s : Router) (e : Event) (now : ℕ) (a : Action) → IsStep r e now a s
        → s.address ≡ r.address }
{}
