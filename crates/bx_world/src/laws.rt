//! Laws of the definitions: the functions do nothing, and their clauses are the laws.

ghost use Rattle.std.specs.Prelude.{◌≡◌, ◌≢◌, ◌↔◌, ◌⊎◌, ◌+◌, ◌<◌, ◌≤◌, ◌++◌, ℕ, List, [], length, slice_get, true, false, None, Some, IsTrue, IsSome, Contains};
ghost use Rattle.bx_load.specs.Image.{Loaded};
ghost use Rattle.bx_terms.specs.declared.kinds.Trap.{Trap};
ghost use Rattle.bx_world.specs.declared.choices.Choice.{Choice};
ghost use Rattle.bx_world.specs.World.{State, Exited, begun};
ghost use Rattle.bx_terms.specs.Tree.{Tree};
ghost use Rattle.bx_world.specs.declared.choices.Choice.TheVariants.{Run, Expire};
ghost use Rattle.bx_world.specs.Enabled.{enabled, can, actor};
ghost use Rattle.bx_world.specs.Choosing.{chosen};
ghost use Rattle.bx_world.specs.Running.{Ended, advanced, ran};
ghost use Rattle.bx_signals.specs.Channels.{waiting};
ghost use Rattle.bx_terms.specs.declared.places.Place.{Place};
ghost use Rattle.bx_world.specs.Posting.{all_put, all_taken, all_behind};
ghost use Rattle.bx_world.specs.Independent.{AreIndependent, IsNoRun, IsLocal};
ghost use Rattle.bx_world.specs.Entering.{is_linked, Enters, Entered};

/// What is looked up of a choice is whether it is among those that are enabled.
#[tactic(auto, using(crate::proofs::Members::can_is_enabled))]
pub fn a_choice_can_be_made_where_it_is_enabled()
    ensures { (w : State) (choice : Choice) → IsTrue (can w choice) ↔ Contains (enabled w) choice }
{}

/// After a trap no choice is enabled.
#[tactic(auto, using(crate::proofs::Lawful::nothing_enabled))]
pub fn nothing_is_enabled_after_a_trap()
    ensures { (w : State) → IsSome w.trap → enabled w ≡ [] }
{}

/// A choice that traps leaves all but the trap as it was.
#[tactic(auto, using(crate::proofs::Lawful::trap_alone))]
pub fn a_trap_changes_nothing_else()
    ensures { (image : Loaded) (choice : Choice) (w : State) (trap : Trap × ℕ) → w.trap ≡ None →
        (chosen image choice w).trap ≡ Some trap → chosen image choice w ≡ record w
        { trap = Some trap } }
{}

/// A choice that is not enabled changes nothing of the world, and is not counted.
#[tactic(auto, using(crate::proofs::Lawful::refused_keeps))]
pub fn a_refused_choice_changes_nothing()
    ensures { (image : Loaded) (choice : Choice) (end : Ended) → can end.world choice ≡ false →
        ((advanced image choice end).world ≡ end.world) ×
        ((advanced image choice end).applied ≡ end.applied) }
{}

/// After a refused choice, and after a trap, nothing happens any more.
#[tactic(auto, using(crate::proofs::Lawful::after_refusal, crate::proofs::Lawful::after_trap))]
pub fn nothing_happens_after_the_end()
    ensures refused { (image : Loaded) (choices : List Choice) (end : Ended) → IsSome end.refused →
        ran image choices end ≡ end }
    ensures trapped { (image : Loaded) (choices : List Choice) (end : Ended) → IsSome end.world.trap
        → ran image choices end ≡ end }
{}

/// The run of choices that are followed by others is the run of those others from where the first led.
#[tactic(auto, using(crate::proofs::Lawful::ran_on))]
pub fn runs_go_on_where_they_stopped()
    ensures { (image : Loaded) (first more : List Choice) (end : Ended) → ran image (first ++ more)
        end ≡ ran image more (ran image first end) }
{}

/// No more choices are applied than there are.
#[tactic(auto, using(crate::proofs::Lawful::few_applied))]
pub fn each_choice_is_applied_once_at_most()
    ensures { (image : Loaded) (choices : List Choice) (end : Ended) →
        (ran image choices end).applied ≤ end.applied + length choices }
{}

/// Over every list of choices, what waited in a channel and was put into it is what was taken out of it, followed by what still
/// waits. So from the start on, what was delivered from one process to another is a prefix of what was sent, in that order.
#[tactic(auto, using(crate::proofs::Arriving::arriving, crate::proofs::Arriving::arriving_from_start))]
pub fn signals_arrive_in_the_order_in_which_they_were_sent()
    ensures from_anywhere { (image : Loaded) (choices : List Choice) (w : State) (pair : ℕ × ℕ) →
        waiting w.lanes.channels pair ++ all_put image choices w pair ≡ all_taken image choices w
        pair ++ waiting (all_behind image choices w).lanes.channels pair }
    ensures from_the_start { (image : Loaded) (choices : List Choice) (place : Place) (pair : ℕ × ℕ)
        → all_put image choices (begun place) pair ≡ all_taken image choices (begun place) pair ++
        waiting (all_behind image choices (begun place)).lanes.channels pair }
{}

/// A choice leaves each process but the one that it concerns as it was, and adds one process at most, behind the others.
#[tactic(auto, using(crate::proofs::Confined::others_stay, crate::proofs::Confined::chosen_confined))]
pub fn a_choice_changes_its_own_process_alone()
    ensures others { (image : Loaded) (choice : Choice) (w : State) (p : ℕ) → p ≢ actor choice → p <
        length w.processes → slice_get (chosen image choice w).processes p ≡ slice_get w.processes
        p }
    ensures none_less { (image : Loaded) (choice : Choice) (w : State) → length w.processes ≤ length
        (chosen image choice w).processes }
    ensures one_more { (image : Loaded) (choice : Choice) (w : State) → length
        (chosen image choice w).processes ≤ length w.processes + 1 }
{}

/// A process that has ended keeps its reason whatever is chosen from then on, so its pid is not used again; and it does not run.
#[tactic(auto, using(crate::proofs::Confined::exited_for_ever, crate::proofs::Confined::exited_cannot))]
pub fn an_ended_process_keeps_its_reason()
    ensures kept { (image : Loaded) (choices : List Choice) (w : State) (p : ℕ) (reason : Tree) →
        slice_get w.processes p ≡ Some (Exited reason) → slice_get
        (all_behind image choices w).processes p ≡ Some (Exited reason) }
    ensures idle { (w : State) (p : ℕ) (reason : Tree) → slice_get w.processes p ≡ Some
        (Exited reason) → (can w (Run p) ≡ false) × (can w (Expire p) ≡ false) }
{}

/// A process enters another's set of links only by that one's own `link`, by a `spawn_link` of either, or by a link signal of its
/// own that is delivered there: by one choice, and over every list of choices. At the start no process is linked.
#[tactic(auto, using(crate::proofs::Entering::chosen_gains, crate::proofs::Entering::all_enter, crate::proofs::Entering::all_enter_from_start))]
pub fn a_link_comes_by_link_by_spawn_link_or_by_a_signal()
    ensures one { (image : Loaded) (choice : Choice) (w : State) (p q : ℕ) → is_linked
        (chosen image choice w).processes p q ≡ true → (is_linked w.processes p q ≡ true) ⊎ Enters
        image w choice p q }
    ensures all { (image : Loaded) (choices : List Choice) (w : State) (p q : ℕ) → is_linked
        (all_behind image choices w).processes p q ≡ true → (is_linked w.processes p q ≡ true) ⊎
        Entered image choices w p q }
    ensures from_the_start { (image : Loaded) (choices : List Choice) (place : Place) (p q : ℕ) →
        is_linked (all_behind image choices (begun place)).processes p q ≡ true → Entered image
        choices (begun place) p q }
{}

/// Two choices of which none is a run, both enabled, of different actors, of which neither traps where the second is made behind the first,
/// are independent: that both orders lead to the same world follows.
#[tactic(auto, using(crate::proofs::Commuting::independent))]
pub fn choices_that_are_no_runs_may_be_exchanged()
    ensures { (image : Loaded) (first second : Choice) (w : State) → IsNoRun first → IsNoRun second
        → actor first ≢ actor second → can w first ≡ true → can w second ≡ true →
        (chosen image first w).trap ≡ None →
        (chosen image second (chosen image first w)).trap ≡ None → AreIndependent image w first
        second }
{}

/// A choice that concerns its own process alone (a delivery or an expiration of a process that is there, or a run of a local item) and any choice
/// of another actor, both enabled, of which neither traps where the second is made behind the first, are independent: that both orders lead to the
/// same world follows, whichever is first.
#[tactic(auto, using(crate::proofs::Commuting::beside_any, crate::proofs::Orders::any_beside))]
pub fn a_local_choice_may_be_exchanged_with_any()
    ensures first { (image : Loaded) (first second : Choice) (w : State) → IsLocal image w first →
        actor first < length w.processes → actor first ≢ actor second → can w first ≡ true → can w
        second ≡ true → (chosen image first w).trap ≡ None →
        (chosen image second (chosen image first w)).trap ≡ None → AreIndependent image w first
        second }
    ensures second { (image : Loaded) (first second : Choice) (w : State) → IsLocal image w second →
        actor second < length w.processes → actor first ≢ actor second → can w first ≡ true → can w
        second ≡ true → (chosen image first w).trap ≡ None →
        (chosen image second (chosen image first w)).trap ≡ None → AreIndependent image w first
        second }
{}

/// A choice that concerns its own process alone and any choice of another actor, both enabled, of which neither order traps and both leave that
/// process the same, are independent: that all else is the same follows. Where a signal goes to a pid that no process has, it may be the process
/// that the other choice spawns.
#[tactic(auto, using(crate::proofs::Children::left_alike))]
pub fn two_orders_differ_in_the_local_process_alone()
    ensures { (image : Loaded) (first second : Choice) (w : State) → IsLocal image w first → actor first
        ≢ actor second → can w first ≡ true → can w second ≡ true → (chosen image first w).trap ≡
        None → (chosen image second (chosen image first w)).trap ≡ None →
        (chosen image first (chosen image second w)).trap ≡ None → slice_get
        (chosen image second (chosen image first w)).processes (actor first) ≡ slice_get
        (chosen image first (chosen image second w)).processes (actor first) → AreIndependent image
        w first second }
{}

/// Choices that are independent in one order are so in the other, so both are applied in that order too, without a trap.
#[tactic(auto, using(crate::proofs::Orders::either_way))]
pub fn independence_is_mutual()
    ensures { (image : Loaded) (w : State) (first second : Choice) → AreIndependent image w first
        second → AreIndependent image w second first }
{}
