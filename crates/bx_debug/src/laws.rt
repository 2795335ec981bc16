//! Laws of the definitions: the functions do nothing, and their clauses are the laws.

ghost use Rattle.std.specs.Prelude.{◌≡◌, ◌≢◌, ◌↔◌, ◌<◌, ◌≤◌, ◌++◌, ◌∷◌, ℕ, List, [], length, replicate, true, IsSome, None, Ok};
ghost use Rattle.bx_load.specs.Image.{Loaded};
ghost use Rattle.bx_terms.specs.declared.atom_table.AtomId.{AtomId};
ghost use Rattle.bx_world.specs.declared.choices.Choice.{Choice};
ghost use Rattle.bx_world.specs.declared.choices.Choice.TheVariants.{Run};
ghost use Rattle.bx_world.specs.World.{State};
ghost use Rattle.bx_debug.specs.Calls.{Call, after_calls};
ghost use Rattle.bx_debug.specs.Exchanging.{may_swap};
ghost use Rattle.bx_debug.specs.Going.{stop_behind, walked};
ghost use Rattle.bx_debug.specs.Leading.{led, all_enabled};
ghost use Rattle.bx_debug.specs.Pausing.{pause_at, run_of, runs_to};
ghost use Rattle.bx_debug.specs.Places.{PlaceSet};
ghost use Rattle.bx_debug.specs.declared.pauses.Bound.{Bound};
ghost use Rattle.bx_debug.specs.Sessions.{History, back, forward, opened, stepped, with_made, world_of};
ghost use Rattle.bx_debug.specs.Stopping.{IsRunOf, TellsWhy};
ghost use Rattle.bx_debug.specs.Swapping.{MaySwap};
ghost use Rattle.bx_debug.specs.Tidying.{tidy_of, undone};

/// Whatever the calls on a session were, the world that it shows is the run of the choices before its position, from the start
/// at which it was opened, and that run applied each of them.
pub fn every_world_shown_is_a_run()
    ensures { (image : Loaded) (m f : AtomId) (first : History) (calls : List Call) → opened image m
        f ≡ Ok first → IsRunOf image first.start (after_calls calls first) }
{}

/// Stepping back over a choice that was made shows the world of before it.
pub fn stepping_back_shows_the_world_before()
    ensures { (choice : Choice) (s t u : History) → s.at ≤ length s.choices → stepped choice s ≡ Ok
        (t, tt) → back 1 t ≡ Ok (u, tt) → world_of u ≡ world_of s }
{}

/// Stepping forward as far as was stepped back leaves the session as it was.
pub fn forward_undoes_back()
    ensures { (n : ℕ) (s t : History) → s.at ≤ length s.choices → back n s ≡ Ok (t, tt) → forward n
        t ≡ Ok (s, tt) }
{}

/// What is applied is a prefix of the choices, each of which was enabled.
pub fn a_prefix_is_applied()
    ensures prefix { (image : Loaded) (places : PlaceSet) (choices : List Choice) (w : State)
        → (rest : List Choice) × (choices ≡ (walked image places choices w).0 ++ rest) }
    ensures enabled { (image : Loaded) (places : PlaceSet) (choices : List Choice) (w : State)
        → all_enabled image (walked image places choices w).0 w ≡ true }
{}

/// No choice but the last that is applied traps, or is a run that leaves its process at a breakpoint.
pub fn nothing_stops_it_earlier()
    ensures { (image : Loaded) (places : PlaceSet) (choices : List Choice) (w : State) (before : List Choice) (choice : Choice) (after : List Choice)
        → (walked image places choices w).0 ≡ before ++ choice ∷ after → after ≢ [] → stop_behind places choice (led image (before ++ choice ∷ []) w) ≡ None }
{}

/// Why it stopped is so.
pub fn it_tells_why_it_stopped()
    ensures { (image : Loaded) (places : PlaceSet) (choices : List Choice) (w : State) → TellsWhy
        image places choices w (walked image places choices w) }
{}

/// A process runs by itself as long as there is no reason to stop, and 100,000 times at most: there is none behind fewer runs, and one
/// behind the last, unless that is the 100,000th.
pub fn a_process_runs_up_to_the_first_reason()
    ensures before { (bound : Bound) (image : Loaded) (places : PlaceSet) (p : ℕ) (w : State) (k : ℕ) → k < runs_to bound image places p w
        → pause_at bound image places p w k ≡ None }
    ensures most { (bound : Bound) (image : Loaded) (places : PlaceSet) (p : ℕ) (w : State) → runs_to bound image places p w ≤ 100000 }
    ensures there { (bound : Bound) (image : Loaded) (places : PlaceSet) (p : ℕ) (w : State) → runs_to bound image places p w < 100000
        → IsSome (pause_at bound image places p w (runs_to bound image places p w)) }
{}

/// Of a process that runs by itself each run is made: none is refused, and nothing stops them before the last.
pub fn each_of_its_runs_is_made()
    ensures { (bound : Bound) (p : ℕ) (s : History) → (run_of bound p s).0
        ≡ with_made (replicate (runs_to bound s.image s.places p (world_of s)) (Run p)) s }
{}

/// The test that an exchange is told by tells exactly whether two choices stand before the position and are independent.
pub fn swaps_are_told_by_a_test()
    ensures { (k : ℕ) (s : History) → (may_swap k s ≡ true) ↔ MaySwap k s }
{}

/// Tidying leaves the world that is shown, and so does taking a choice back, once what was taken back is made again.
pub fn exchanges_leave_the_world_shown()
    ensures tidied { (s : History) → world_of (tidy_of s) ≡ world_of s }
    ensures undone { (k : ℕ) (s : History) → 0 < k → k ≤ s.at → world_of (record (undone k s) { at = s.at }) ≡ world_of s }
{}
