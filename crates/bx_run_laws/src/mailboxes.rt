//! What a mailbox holds over every list of choices, and which message a process takes out of it.

ghost use Rattle.std.specs.Prelude.{◌≡◌, ◌++◌, ℕ, List, Some, MatchOption, slice_get};
ghost use Rattle.bx_terms.specs.Tree.{Tree};
ghost use Rattle.bx_terms.specs.declared.places.Place.{Place};
ghost use Rattle.bx_load.specs.Image.{Loaded};
ghost use Rattle.bx_mail.specs.Mail.{empty, current};
ghost use Rattle.bx_mail.specs.History.{all_done, history, Waits};
ghost use Rattle.bx_proc.specs.Process.{Process};
ghost use Rattle.bx_world.specs.declared.choices.Choice.{Choice};
ghost use Rattle.bx_world.specs.declared.choices.Choice.TheVariants.{Run};
ghost use Rattle.bx_world.specs.World.{Live, State, begun};
ghost use Rattle.bx_world.specs.Choosing.{chosen};
ghost use Rattle.bx_world.specs.Posting.{all_behind};
ghost use Rattle.bx_run_laws.specs.Earliest.{IsEarliest, AreLeft, Removes, TakesOut};
ghost use Rattle.bx_run_laws.specs.Mailings.{all_mailed};

/// Over every list of choices the mailbox of a process that lives is what the messages that came to it, and its own runs of
/// `remove_message`, `loop_rec_end` and `timeout`, make of it in that order. A message comes where it is delivered, or sent by
/// the process to itself; and so does an exit signal where the process traps exits. At the start, and at its birth, a process
/// has no message.
#[tactic(auto, using(crate::proofs::Mailed::over_all, crate::proofs::Mailed::from_start))]
pub fn a_mailbox_is_what_came_and_was_received()
    ensures from_anywhere { (image : Loaded) (choices : List Choice) (w : State) (p : ℕ) (x y : Process) → slice_get
        w.processes p ≡ Some (Live x) → slice_get (all_behind image choices w).processes p ≡ Some (Live y) → y.mailbox ≡
        all_done x.mailbox (all_mailed image choices w p) }
    ensures from_the_start { (image : Loaded) (choices : List Choice) (place : Place) (p : ℕ) (x : Process) → slice_get
        (all_behind image choices (begun place)).processes p ≡ Some (Live x) → x.mailbox ≡ all_done empty
        (all_mailed image choices (begun place) p) }
{}

/// The messages of a process that lives are those that came to it and that it did not take, in order of arrival.
#[tactic(auto, using(crate::proofs::Mailed::left_in_order))]
pub fn messages_stand_in_order_of_arrival()
    ensures { (image : Loaded) (choices : List Choice) (place : Place) (p : ℕ) (x : Process) → slice_get
        (all_behind image choices (begun place)).processes p ≡ Some (Live x) → AreLeft
        (all_mailed image choices (begun place) p) (x.mailbox.passed ++ x.mailbox.rest) }
{}

/// The current message of a process is the earliest, in order of arrival, of those that were not taken, nor passed over since the
/// last reset or the last message that was taken; where there is none, none of them waits. A `remove_message` that is run, and is
/// no trap, takes it, and leaves the others in their order, of which none is passed over any more.
#[tactic(auto, using(crate::proofs::Mailed::current_earliest, crate::proofs::Removed::takes_earliest))]
pub fn remove_message_takes_the_earliest_that_was_not_passed_over()
    ensures current { (image : Loaded) (choices : List Choice) (place : Place) (p : ℕ) (x : Process) → slice_get
        (all_behind image choices (begun place)).processes p ≡ Some (Live x) → MatchOption (current x.mailbox)
        ((n : ℕ) → Waits (history (all_mailed image choices (begun place) p)) n → ⊥)
        (λ m. (n : ℕ) × IsEarliest (all_mailed image choices (begun place) p) n m) }
    ensures taken { (image : Loaded) (choices : List Choice) (place : Place) (p : ℕ) (x : Process) → Removes image
        (all_behind image choices (begun place)) p x → (n : ℕ) × (message : Tree) × IsEarliest
        (all_mailed image choices (begun place) p) n message × (y : Process) × (slice_get
        (chosen image (Run p) (all_behind image choices (begun place))).processes p ≡ Some (Live y)) × TakesOut message
        x.mailbox y.mailbox }
{}
