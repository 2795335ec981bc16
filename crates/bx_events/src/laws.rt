//! Laws of stories: the functions do nothing, and their clauses are the laws.

ghost use Rattle.std.specs.Prelude.{◌≡◌, ◌+◌, ◌<◌, ◌≤◌, ◌++◌, ℕ, List, Ok, Some, length, slice_get, take};
ghost use Rattle.bx_terms.specs.declared.atom_table.AtomId.{AtomId};
ghost use Rattle.bx_load.specs.Image.{Loaded};
ghost use Rattle.bx_world.specs.declared.choices.Choice.{Choice};
ghost use Rattle.bx_events.specs.declared.events.Effect.{Effect};
ghost use Rattle.bx_events.specs.declared.events.Event.{Event};
ghost use Rattle.bx_events.specs.declared.events.Lane.{Lane};
ghost use Rattle.bx_events.specs.declared.events.Sent.{Sent};
ghost use Rattle.bx_events.specs.declared.events.What.TheVariants.{Arrived};
ghost use Rattle.bx_events.specs.declared.stories.Story.{Story as Told};
ghost use Rattle.bx_events.specs.Births.{HasPlace, IsBorn};
ghost use Rattle.bx_events.specs.Flows.{IsFirst, IsPut, arrived_out, only_in, put_into};
ghost use Rattle.bx_events.specs.Stories.{story};
ghost use Rattle.bx_events.specs.Ordered.{RunOn, times_told};

/// The choices that were applied are told in order: each event begins with the choice behind the last one of the event before it, the first
/// event with the first choice, and the last one ends with the last that was applied. So each of them is in exactly one event.
#[tactic(auto, using(crate::proofs::Ordered::run_on, crate::proofs::Ordered::told_once))]
pub fn each_applied_choice_is_in_exactly_one_event()
    ensures in_order { (image : Loaded) (m f : AtomId) (choices : List Choice) (told : Told) → story image m f choices ≡ Ok told → RunOn 0 told.events told.applied }
    ensures one { (image : Loaded) (m f : AtomId) (choices : List Choice) (told : Told) (n : ℕ) → story image m f choices ≡ Ok told → 0 < n → n ≤ told.applied → times_told n told.events ≡ 1 }
{}

/// The arrow of a signal begins at the event that put it: the n-th signal that is taken out of a channel is the n-th that was put into it. Where
/// one arrives, it arrives at its receiver; an event before this one, in the row that it names, put it; and what had been put into its channel by
/// then is what had arrived out of it, then this signal, and then others. At the end what was put is what has arrived, and then what waits. The
/// numbers of what was put into a channel run on from 1.
#[tactic(auto, using(crate::proofs::Matched::all_are_left, crate::proofs::Matched::all_are_counted))]
pub fn an_arrow_begins_at_the_event_that_put_its_signal()
    ensures arrives { (image : Loaded) (m f : AtomId) (choices : List Choice) (told : Told) (row : ℕ) (event : Event) (sent : Sent) (effect : Effect)
        → story image m f choices ≡ Ok told → slice_get told.events row ≡ Some event → event.what ≡ Arrived sent effect
        → (sent.to ≡ event.actor) × IsPut (take row told.events) sent × IsFirst (sent.from, sent.to) (take row told.events) sent }
    ensures waits { (image : Loaded) (m f : AtomId) (choices : List Choice) (told : Told) (pair : ℕ × ℕ) → story image m f choices ≡ Ok told
        → put_into pair told.events ≡ arrived_out pair told.events ++ only_in pair told.waiting }
    ensures counted { (image : Loaded) (m f : AtomId) (choices : List Choice) (told : Told) (pair : ℕ × ℕ) (n : ℕ) (sent : Sent)
        → story image m f choices ≡ Ok told → slice_get (put_into pair told.events) n ≡ Some sent → sent.number ≡ n + 1 }
{}

/// A line begins at the event that spawned its process, and that of process 0 at the start; there is one for each process. Nothing stands on it
/// above that event, nor beside it: each event stands below the beginning of its process's line. Only a signal that came to a pid that no process
/// had stands on none, and it was lost.
#[tactic(auto, using(crate::proofs::Matched::begins_at_birth, crate::proofs::Matched::each_has_place, crate::proofs::Matched::one_for_each))]
pub fn a_line_begins_at_the_spawn_and_nothing_stands_above_it()
    ensures begins { (image : Loaded) (m f : AtomId) (choices : List Choice) (told : Told) (p : ℕ) (lane : Lane) → story image m f choices ≡ Ok told
        → slice_get told.lanes p ≡ Some lane → IsBorn told.events p lane.born }
    ensures below { (image : Loaded) (m f : AtomId) (choices : List Choice) (told : Told) (row : ℕ) (event : Event) → story image m f choices ≡ Ok told
        → slice_get told.events row ≡ Some event → HasPlace told.lanes row event }
    ensures each { (image : Loaded) (m f : AtomId) (choices : List Choice) (told : Told) → story image m f choices ≡ Ok told
        → length told.lanes ≡ length told.outcome.statuses }
{}
