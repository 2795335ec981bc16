//! Laws of the definitions: the functions do nothing, and their clauses are the laws.

ghost use Rattle.std.specs.Prelude.{◌≡◌, ℕ, Ok, Err, None, Some, true, false};
ghost use Rattle.bx_bifs.specs.declared.natives.Native.{Native};
ghost use Rattle.bx_listing.specs.Items.{Item};
ghost use Rattle.bx_load.specs.Image.{Loaded, instruction_at, item_at};
ghost use Rattle.bx_terms.specs.Tree.{Tree};
ghost use Rattle.bx_terms.specs.declared.kinds.Trap.TheVariants.{BadPlace, NoTag, WrongShape};
ghost use Rattle.bx_terms.specs.declared.places.Place.{Place};
ghost use Rattle.bx_proc.specs.declared.parts.Answer.{Answer};
ghost use Rattle.bx_proc.specs.declared.parts.Effect.{Effect};
ghost use Rattle.bx_proc.specs.declared.parts.Effect.TheVariants as effects;
ghost use Rattle.bx_proc.specs.declared.parts.Pending.{Pending};
ghost use Rattle.bx_proc.specs.declared.parts.Status.TheVariants.{Ready, Ended};
ghost use Rattle.bx_proc.specs.Process.{Process};
ghost use Rattle.bx_proc.specs.Families.{parts_of, KeepsBut, MayBe, mailed_by};
ghost use Rattle.bx_proc.specs.Stepping.{attempted, settled, settled_with, takes_memory, stepped, answered, unasked, resumed, ResumedTakes, SettlingTakes, Whole};
ghost use Rattle.bx_proc.specs.Telling.{Tells, Resumes, unfaulted};
ghost use Rattle.bx_proc.specs.declared.stops.Why.TheVariants.{Asks, Ends};
ghost use Rattle.bx_proc.specs.Table.{row, looks_at_faults};

/// An instruction changes only the parts of its process that its family may change, and sends or asks only where its family
/// may.
pub fn an_instruction_changes_only_what_its_family_may()
    ensures parts { (pid : ℕ) (image : Loaded) (here : Place) (i : Item) (p q : Process)
        (effect : Effect) → row pid image here i p ≡ Ok (q, effect) → KeepsBut (parts_of i.op) p q }
    ensures effect { (pid : ℕ) (image : Loaded) (here : Place) (i : Item) (p q : Process)
        (effect : Effect) → row pid image here i p ≡ Ok (q, effect) → MayBe (parts_of i.op) effect }
{}

/// `remove_message` takes the current message, `loop_rec_end` passes it over, and behind `timeout` none is passed over any
/// more. Every other instruction leaves the mailbox as it was.
pub fn a_mailbox_is_left_passed_over_taken_from_or_reset()
    ensures { (pid : ℕ) (image : Loaded) (here : Place) (i : Item) (p q : Process)
        (effect : Effect) → row pid image here i p ≡ Ok (q, effect) → q.mailbox ≡
        mailed_by i.op p.mailbox }
{}

/// A run of one instruction that concerns nobody else does not end its process and keeps its links. Any other run, and a
/// trap, changes nothing.
pub fn a_run_is_done_whole_or_changes_nothing()
    ensures attempt { (image : Loaded) (pid : ℕ) (p q : Process) (effect : Effect) → attempted image
        pid p ≡ (q, effect) → Whole p q effect }
    ensures answer { (image : Loaded) (answer : Answer) (p q : Process) (effect : Effect) → settled
        image answer p ≡ (q, effect) → Whole p q effect }
    ensures noted { (image : Loaded) (answer : Answer) (message : Tree) (p q : Process)
        (effect : Effect) → settled_with image answer message p ≡ (q, effect) → Whole p q effect }
{}

/// A process that stands where no instruction is has nothing to run: the trap `BadPlace`. That goes before a fault that is
/// pending.
pub fn there_is_nothing_to_run_without_an_instruction()
    ensures item { (image : Loaded) (pid : ℕ) (here : Place) (p : Process) → p.status ≡ Ready →
        p.asked ≡ None → p.place ≡ Some here → item_at image here ≡ None → attempted image pid p ≡
        (p, effects.Trap BadPlace) }
    ensures instruction { (image : Loaded) (pid : ℕ) (here : Place) (p : Process) → p.status ≡ Ready
        → p.asked ≡ None → p.place ≡ Some here → p.fault ≡ None → instruction_at image here ≡ None →
        attempted image pid p ≡ (p, effects.Trap BadPlace) }
{}

/// A process whose run, or whose answer, ended it is as it was before once the reason is taken out; one whose run asked for
/// something, once that is withdrawn.
pub fn what_waits_in_a_process_is_taken_out_again()
    ensures ended { (image : Loaded) (pid : ℕ) (old new : Process) → Tells (takes_memory image pid old)
        old new (Err Ends) (attempted image pid old) → unfaulted new ≡ old }
    ensures asked { (image : Loaded) (pid : ℕ) (native : Native) (old new : Process) → Tells
        (takes_memory image pid old) old new (Err (Asks native)) (attempted image pid old) →
        unasked new ≡ old }
    ensures answered { (image : Loaded) (answer : Answer) (old new : Process) → Resumes
        (ResumedTakes (SettlingTakes image answer (unasked old)) old.asked) old new (Err Ends)
        (resumed image answer old.asked (unasked old)) → unfaulted new ≡ old }
{}

/// While a fault is pending, an instruction that does not look at it is the trap `NoTag`.
pub fn a_pending_fault_is_looked_at_first()
    ensures { (image : Loaded) (pid : ℕ) (here : Place) (i : Item) (fault : Pending) (p : Process)
        → p.status ≡ Ready → p.asked ≡ None → p.place ≡ Some here → p.fault ≡ Some fault →
        instruction_at image here ≡ Some i → looks_at_faults i.op ≡ false → attempted image pid p ≡
        (p, effects.Trap NoTag) }
{}

/// A process that has ended, and one that was not answered yet, does not run: the trap `WrongShape`. One that asks for nothing
/// is not answered, and so none that a run or an answer ended.
pub fn nothing_runs_after_the_end_or_before_an_answer()
    ensures ended { (image : Loaded) (pid : ℕ) (reason : Tree) (p : Process) → p.status ≡ Ended
        reason → attempted image pid p ≡ (p, effects.Trap WrongShape) }
    ensures asked { (image : Loaded) (pid : ℕ) (native : Native) (p : Process) → p.asked ≡ Some
        native → attempted image pid p ≡ (p, effects.Trap WrongShape) }
    ensures unasked { (image : Loaded) (answer : Answer) (p : Process) → p.asked ≡ None → answered
        image answer p ≡ (p, effects.Trap WrongShape) }
    ensures stepped { (image : Loaded) (pid : ℕ) (answer : Answer) (reason : Tree) (p q : Process) →
        stepped image pid p ≡ (q, effects.Ended reason) → answered image answer q ≡ (
          q,
          effects.Trap
              WrongShape,
        ) }
    ensures answered { (image : Loaded) (answer more : Answer) (reason : Tree) (p q : Process) →
        answered image answer p ≡ (q, effects.Ended reason) → answered image more q ≡ (
          q,
          effects.Trap WrongShape,
        ) }
{}
