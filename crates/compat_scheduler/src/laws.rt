//! Laws of the machine, over every run from its beginning.

ghost use Rattle.std.specs.Prelude.{◌≡◌, if◌then◌else◌, ℕ, ◌*◌, ◌<◌, ◌≤◌, false, ◌++◌, ◌∷◌, [], ◌⊎◌, IsTrue};
ghost use Rattle.std.specs.Prelude.{List, length, map, ◌+◌, Contains, slice_get, true, ◌↔◌};
ghost use Rattle.std.specs.List.{list_any, range_with_len};
ghost use Rattle.seuss_base.specs.declared.level.Level.{Level};
ghost use Rattle.seuss_base.specs.declared.level.Level.TheVariants.{Loose, Firm};
ghost use Rattle.compat_scheduler.specs.declared.slot.Slot.{Slot};
ghost use Rattle.seuss_base.specs.declared.outcome.PassEnd.{PassEnd};
ghost use Rattle.compat_scheduler.specs.declared.ticket.Ticket.{Ticket};
ghost use Rattle.compat_scheduler.specs.declared.ticket.FinishVerdict.TheVariants.{Kept, Void};
ghost use Rattle.seuss_base.specs.declared.outcome.PassEnd.TheVariants.{PlainRejected};
ghost use Rattle.compat_scheduler.specs.Settings.{Setting, action_of, copies, level};
ghost use Rattle.compat_scheduler.specs.Machines.{Machine, running_count, slot_at, slot_of};
ghost use Rattle.compat_scheduler.specs.Machines.{IsAllDone, IsRunning};
ghost use Rattle.compat_scheduler.specs.Soundness.{IsSoundMachine};
ghost use Rattle.compat_scheduler.specs.Runs.{Leads, Runs};
ghost use Rattle.compat_scheduler.specs.declared.ticket.FinishVerdict.{FinishVerdict};
ghost use Rattle.compat_scheduler.specs.Starts.{IsAllowedBeside, IsNext};
ghost use Rattle.compat_scheduler.specs.Bars.{is_barred_beside, barring_count};
ghost use Rattle.compat_scheduler.specs.Runs.{Event, IsRun, started, RoundsRise, round_of, stops_it, IsOpen};
ghost use Rattle.compat_scheduler.specs.Runs.{times_kept, has_ended, finishes_in};
ghost use Rattle.seuss_base.specs.Levels.{IsAtLeast};
ghost use Rattle.compat_scheduler.specs.Runs.Event.{Start, Finish};

/// Passes are numbered by their starts.
pub fn passes_are_numbered()
    ensures { (s : Setting) (events : List Event) (m : Machine) → IsRun s events m →
        map (λ (t : Ticket). t.pass) (started events) ≡ range_with_len 0 m.starts }
{}

/// A mode is loose or firm, and a firm pass is never void.
pub fn modes_are_lawful()
    ensures loose_or_firm { (s : Setting) (events : List Event) (m : Machine) (t : Ticket) →
        IsRun s events m →
        Contains events (Start t) → (t.mode ≡ Loose) ⊎ (t.mode ≡ Firm) }
    ensures void_is_loose { (s : Setting) (events : List Event) (m : Machine) (t : Ticket) (end : PassEnd) →
        IsRun s events m → Contains events (Finish t end Void) → t.mode ≡ Loose }
{}

/// Rounds don't interleave: the rounds of the events never fall.
pub fn rounds_dont_interleave()
    ensures { (s : Setting) (events : List Event) (m : Machine) → IsRun s events m → RoundsRise s 0 events }
{}

/// The machine stops exactly at a trapped or spent end. After one nothing starts, and its round is the last.
pub fn stops_for_good()
    ensures stopped { (s : Setting) (events : List Event) (m : Machine) → IsRun s events m →
        m.stopped ≡ list_any stops_it events }
    ensures nothing_starts { (s : Setting) (front rest : List Event) (m : Machine) →
        IsRun s (front ++ rest) m → IsTrue (list_any stops_it front) → started rest ≡ [] }
    ensures last_round { (s : Setting) (events : List Event) (m : Machine) (event : Event) →
        IsRun s events m →
        Contains events event → IsTrue (stops_it event) → round_of s event ≡ m.round }
{}

/// A pass that starts while another one runs: each was allowed beside the other in its mode, and
/// where either is kept as plainly rejected it is firm-safe beside the other.
pub fn overlaps_are_allowed()
    ensures newcomer { (s : Setting) (front rest : List Event) (m : Machine) (p q : Ticket) →
        IsRun s (front ++ Start q ∷ rest) m → IsOpen front p →
        IsAtLeast (level s q.action p.action) q.mode }
    ensures other { (s : Setting) (front rest : List Event) (m : Machine) (p q : Ticket) →
        IsRun s (front ++ Start q ∷ rest) m → IsOpen front p →
        IsAtLeast (level s p.action q.action) p.mode }
    ensures newcomer_kept { (s : Setting) (front rest : List Event) (m : Machine) (p q : Ticket) →
        IsRun s (front ++ Start q ∷ rest) m → IsOpen front p →
        Contains rest (Finish q PlainRejected Kept) → level s q.action p.action ≡ Firm }
    ensures other_kept { (s : Setting) (front rest : List Event) (m : Machine) (p q : Ticket) →
        IsRun s (front ++ Start q ∷ rest) m → IsOpen front p →
        Contains rest (Finish p PlainRejected Kept) → level s p.action q.action ≡ Firm }
{}

/// A slot isn't barred beside another one exactly where it is allowed beside it. No slot is counted to bar
/// it exactly where it is allowed beside each.
pub fn bars_are_conflicts()
    ensures one { (s : Setting) (i j : ℕ) (x : Level) (slot : Slot) →
        (is_barred_beside s i x j slot ≡ false) ↔ IsAllowedBeside s i x j slot }
    ensures none { (s : Setting) (slots : List Slot) (i : ℕ) (x : Level) →
        (barring_count s slots i x ≡ 0) ↔ ((j : ℕ) → IsAllowedBeside s i x j (slot_at slots j)) }
{}

/// Where nothing runs, the machine hasn't stopped and a round is left, something may start.
pub fn something_may_start()
    ensures { (s : Setting) (events : List Event) (m : Machine) → IsRun s events m → running_count m ≡ 0 →
        m.stopped ≡ false → m.round < s.rounds → (t : Ticket) × IsNext s m t }
{}

/// The machine is determined: the next ticket is one, and so is the machine after a run.
pub fn machine_is_determined()
    ensures next { (s : Setting) (m : Machine) (t u : Ticket) → IsNext s m t → IsNext s m u → t ≡ u }
    ensures run { (s : Setting) (events : List Event) (m n : Machine) → IsRun s events m → IsRun s events n →
        m ≡ n }
{}

/// Every attempt that has ended was kept once, and any other never. So none is kept twice.
pub fn attempts_are_kept_once()
    ensures { (s : Setting) (events : List Event) (m : Machine) (attempt : ℕ) → IsRun s events m →
        times_kept events attempt ≡ (if has_ended s m attempt then 1 else 0) }
{}

/// There are at most two passes for each attempt.
pub fn passes_are_few()
    ensures { (s : Setting) (events : List Event) (m : Machine) → IsRun s events m →
        m.starts ≤ 2 * (s.rounds * copies s) }
{}

/// Each pass that starts is of one of the attempts, and its action is that of the attempt's slot.
pub fn tickets_are_lawful()
    ensures attempt { (s : Setting) (events : List Event) (m : Machine) (t : Ticket) → IsRun s events m →
        Contains events (Start t) → t.attempt < s.rounds * copies s }
    ensures action { (s : Setting) (events : List Event) (m : Machine) (t : Ticket) → IsRun s events m →
        Contains events (Start t) → t.action ≡ action_of s (slot_of s t) }
{}

/// A ticket starts at most once: two starts with one pass number stand at one place of the events.
pub fn tickets_start_once()
    ensures { (s : Setting) (events : List Event) (m : Machine) (i j : ℕ) (t u : Ticket) →
        IsRun s events m → slice_get events i ≡ Some (Start t) → slice_get events j ≡ Some (Start u) →
        t.pass ≡ u.pass → i ≡ j }
{}

/// What runs is just what was started and hasn't finished, and a pass finishes once, after its start.
pub fn open_passes_run()
    ensures runs { (s : Setting) (events : List Event) (m : Machine) (t : Ticket) → IsRun s events m →
        IsOpen events t → IsRunning s m t }
    ensures opened { (s : Setting) (events : List Event) (m : Machine) (t : Ticket) → IsRun s events m →
        IsRunning s m t → IsOpen events t }
    ensures finishes { (s : Setting) (front rest : List Event) (m : Machine) (t : Ticket) (end : PassEnd)
        (verdict : FinishVerdict) → IsRun s (front ++ Finish t end verdict ∷ rest) m → IsOpen front t }
{}

/// A void pass was plainly rejected.
pub fn void_passes_are_plain()
    ensures { (s : Setting) (events : List Event) (m : Machine) (t : Ticket) (end : PassEnd) →
        IsRun s events m → Contains events (Finish t end Void) → end ≡ PlainRejected }
{}

/// A run with one event more is a run, and the beginning of a run is one.
pub fn runs_go_on()
    ensures more { (s : Setting) (events : List Event) (m n : Machine) (event : Event) → IsRun s events m →
        Leads s m event n → IsRun s (events ++ event ∷ []) n }
    ensures beginning { (s : Setting) (front rest : List Event) (m : Machine) → IsRun s (front ++ rest) m →
        (mid : Machine) × IsRun s front mid × Runs s mid rest m }
{}

/// Each machine of a run is sound.
pub fn machines_are_sound()
    ensures { (s : Setting) (events : List Event) (m : Machine) → IsRun s events m → IsSoundMachine s m }
{}

/// Where all rounds are done nothing runs. Once they are, or the machine has stopped and nothing runs,
/// nothing happens any more.
pub fn an_ended_run_stays()
    ensures quiet { (s : Setting) (events : List Event) (m : Machine) → IsRun s events m → IsAllDone s m →
        running_count m ≡ 0 }
    ensures last { (s : Setting) (front rest : List Event) (m n : Machine) → IsRun s front m →
        Runs s m rest n → IsAllDone s m ⊎ ((m.stopped ≡ true) × (running_count m ≡ 0)) → rest ≡ [] }
{}

/// As many passes were started as have finished or run. Where none runs, each that was started has finished.
pub fn passes_finish_or_run()
    ensures count { (s : Setting) (events : List Event) (m : Machine) → IsRun s events m →
        length (started events) ≡ finishes_in events + running_count m }
    ensures all { (s : Setting) (events : List Event) (m : Machine) (t : Ticket) → IsRun s events m →
        running_count m ≡ 0 → Contains events (Start t) →
        (end : PassEnd) × (verdict : FinishVerdict) × Contains events (Finish t end verdict) }
{}
