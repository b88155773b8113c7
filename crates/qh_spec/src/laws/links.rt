//! Laws of links and of their events.

ghost use Rattle.std.specs.Prelude.{◌≡◌, ◌<◌, ◌≤◌, ◌-◌, ◌^◌, ◌++◌, ℕ, List, [], ◌∷◌, length, Some, None};
ghost use Rattle.qh_spec.specs.declared.link.Event.{Event};
ghost use Rattle.qh_spec.specs.declared.link.Event.TheVariants.{Sent, Dry, Round, Fault};
ghost use Rattle.qh_spec.specs.declared.link.Select.TheVariants.{One, All, Each};
ghost use Rattle.qh_spec.specs.declared.link.Upset.TheVariants.{Lose, Twice, Late, Fail, Forge};
ghost use Rattle.qh_spec.specs.declared.link.Upset.{Upset};
ghost use Rattle.qh_spec.specs.declared.sides.Side.TheVariants.{Client, Server};
ghost use Rattle.qh_spec.specs.declared.sides.Side.{Side};
ghost use Rattle.qh_spec.specs.EventRows.{prompt_events, scheduled_events, early_events, echoed_events, turn_events, turned_events};
ghost use Rattle.qh_spec.specs.Honest.{IsHonest};
ghost use Rattle.qh_spec.specs.Link.{other, sent_by, given_to, moments_of};
ghost use Rattle.qh_spec.specs.Lists.{In};
ghost use Rattle.qh_spec.specs.Schedule.{flights_of_send, flights, due_in, delay_of, next_for, moment_of, Happens, IsScheduled, IsUnforged};
ghost use Rattle.qh_spec.specs.Turns.{IsWholeTurn, AreWholeTurns, IsPrompt};

/// A link that gives all in time is honest, and over an honest link each datagram was sent by the other end.
pub fn honesty()
    ensures prompt { (es : List Event) → IsPrompt es → IsHonest es }
    ensures sent { (s : Side) (d : List ℕ) (es : List Event) → IsHonest es → In d (given_to s es) → In d (sent_by (other s) es) }
{}

/// A link with a schedule that forges nothing is honest. One with an empty schedule and a step of 1 to 10 milliseconds is
/// prompt, if each datagram that is sent has at most 2,048 bytes and each round begins before 2^62 - 1 nanoseconds, the
/// moment at which the moments saturate.
pub fn schedules()
    ensures honest { (step : ℕ) (schedule : List Upset) (es : List Event) → IsScheduled step schedule es → IsUnforged schedule → IsHonest es }
    ensures prompt { (step : ℕ) (es : List Event) → 1 ≤ step → step ≤ 10 → IsScheduled step [] es
        → ((s : Side) (d : List ℕ) → In d (sent_by s es) → length d ≤ 2048) → ((n : ℕ) → In n (moments_of es) → n < 2 ^ 62 - 1) → IsPrompt es }
{}

/// Sends are numbered from 1, whichever end sends. A send that is lost doesn't come, even if it is doubled and delayed too,
/// and one that is doubled comes twice, one right after the other, delayed or not. What comes in one round comes in the order
/// of sending. Of two delays the last counts. A send that fails counts as a send, so the next one has the next number. Forged
/// bytes come after the datagrams of their round, to their side alone. If the schedule is empty, a datagram of 2,048 bytes
/// comes, and a longer one doesn't, whatever the schedule is.
pub fn schedule_rows()
    ensures lost { flights (Twice All ∷ Lose (One 1) ∷ Late All 3 ∷ []) (Round 1000000 ∷ Sent Client (7 ∷ []) ∷ []) ≡ [] }
    ensures doubled { due_in (Twice (One 1) ∷ []) (Round 1000000 ∷ Sent Client (7 ∷ []) ∷ Sent Client (8 ∷ []) ∷ []) 2 Server ≡ (7 ∷ []) ∷ (7 ∷ []) ∷ (8 ∷ []) ∷ [] }
    ensures either_end { flights (Lose (One 2) ∷ []) (Round 1000000 ∷ Sent Client (7 ∷ []) ∷ Sent Server (8 ∷ []) ∷ Sent Client (9 ∷ []) ∷ [])
        ≡ record { round = 2; to = Server; datagram = 7 ∷ [] } ∷ record { round = 2; to = Server; datagram = 9 ∷ [] } ∷ [] }
    ensures delayed { flights (Late (One 1) 3 ∷ []) (Round 1000000 ∷ Sent Client (7 ∷ []) ∷ []) ≡ record { round = 5; to = Server; datagram = 7 ∷ [] } ∷ [] }
    ensures delayed_twice { flights (Late All 3 ∷ Twice All ∷ []) (Round 1000000 ∷ Sent Client (7 ∷ []) ∷ [])
        ≡ record { round = 5; to = Server; datagram = 7 ∷ [] } ∷ record { round = 5; to = Server; datagram = 7 ∷ [] } ∷ [] }
    ensures in_order { due_in (Late (One 1) 1 ∷ []) (Round 1000000 ∷ Sent Client (7 ∷ []) ∷ Round 2000000 ∷ Sent Client (8 ∷ []) ∷ []) 3 Server ≡ (7 ∷ []) ∷ (8 ∷ []) ∷ [] }
    ensures last_delay { (delay_of (Late All 3 ∷ Late (Each 2) 5 ∷ []) 1 ≡ 3) × (delay_of (Late All 3 ∷ Late (Each 2) 5 ∷ []) 2 ≡ 5) × (delay_of (Late (Each 2) 5 ∷ Late All 3 ∷ []) 2 ≡ 3) }
    ensures failed { (step : ℕ) → Happens step (Fail 1 ∷ []) (Round 1000000 ∷ []) Fault × (Happens step (Fail 1 ∷ []) (Round 1000000 ∷ []) (Sent Client (7 ∷ [])) → ⊥) }
    ensures next_sent { (step : ℕ) → Happens step (Fail 1 ∷ []) (Round 1000000 ∷ Fault ∷ []) (Sent Client (7 ∷ [])) × (Happens step (Fail 1 ∷ []) (Round 1000000 ∷ Fault ∷ []) Fault → ⊥) }
    ensures next_lost { flights (Fail 1 ∷ Lose (One 2) ∷ []) (Round 1000000 ∷ Fault ∷ Sent Client (7 ∷ []) ∷ []) ≡ [] }
    ensures forged { due_in (Forge 2 Server (9 ∷ []) ∷ []) (Round 1000000 ∷ Sent Client (7 ∷ []) ∷ []) 2 Server ≡ (7 ∷ []) ∷ (9 ∷ []) ∷ [] }
    ensures not_forged { (due_in (Forge 2 Server (9 ∷ []) ∷ []) (Round 1000000 ∷ []) 2 Client ≡ []) × (due_in (Forge 2 Server (9 ∷ []) ∷ []) (Round 1000000 ∷ []) 3 Server ≡ []) }
    ensures longest { (d : List ℕ) → length d ≡ 2048 → next_for [] (Round 1000000 ∷ Sent Client d ∷ Round 2000000 ∷ []) Server ≡ Some d }
    ensures too_long { (schedule : List Upset) (round number : ℕ) (s : Side) (d : List ℕ) → 2048 < length d → flights_of_send schedule round number s d ≡ [] }
{}

/// Over a link with an empty schedule a datagram comes in the round after that in which it is sent, and in the first if it
/// is sent before any. It doesn't come earlier, nor is it found missing then. The first round begins one step after 0, and the
/// moments saturate at 2^62 - 1 nanoseconds.
pub fn empty_schedule_rows()
    ensures row { IsScheduled 1 [] scheduled_events }
    ensures before_rounds { next_for [] (Sent Client (7 ∷ []) ∷ Round 1000000 ∷ []) Server ≡ Some (7 ∷ []) }
    ensures early { next_for [] (Round 1000000 ∷ Sent Client (7 ∷ []) ∷ []) Server ≡ None }
    ensures missing { IsScheduled 1 [] (Round 1000000 ∷ Sent Client (7 ∷ []) ∷ Round 2000000 ∷ Dry Server ∷ []) → ⊥ }
    ensures first { IsScheduled 1 [] (Round 0 ∷ []) → ⊥ }
    ensures moments { (moment_of 10 1 ≡ 10000000) × (moment_of 10 2 ≡ 20000000) × (moment_of 10000 (2 ^ 48) ≡ 2 ^ 62 - 1) }
{}

/// Whole turns have one round each.
pub fn rounds()
    ensures { (n : ℕ) (es : List Event) → AreWholeTurns n es → length (moments_of es) ≡ n }
{}

/// What is seen of two lists of events, one after the other, is what is seen of each.
pub fn views()
    ensures sent { (s : Side) (es fs : List Event) → sent_by s (es ++ fs) ≡ sent_by s es ++ sent_by s fs }
    ensures given { (s : Side) (es fs : List Event) → given_to s (es ++ fs) ≡ given_to s es ++ given_to s fs }
    ensures moments { (es fs : List Event) → moments_of (es ++ fs) ≡ moments_of es ++ moments_of fs }
{}

/// Events that are prompt or a whole turn, and events that aren't, or aren't honest.
pub fn rows()
    ensures prompt { IsPrompt prompt_events }
    ensures early { IsPrompt early_events → ⊥ }
    ensures echoed { IsHonest echoed_events → ⊥ }
    ensures turn { IsWholeTurn turn_events }
    ensures turned { IsWholeTurn turned_events → ⊥ }
{}
