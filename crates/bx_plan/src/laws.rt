//! Laws of the definitions: the functions do nothing, and their clauses are the laws.

ghost use Rattle.std.specs.Prelude.{◌≡◌, ◌↔◌, ℕ, ◌<◌, ◌≤◌, ◌^◌, List, None, Some, Ok, Err};
ghost use Rattle.std.specs.Fmt.{decimal};
ghost use Rattle.bx_terms.specs.declared.faults.Fault.{Fault};
ghost use Rattle.bx_world.specs.declared.choices.Choice.{Choice};
ghost use Rattle.bx_plan.specs.Entry.{Entry};
ghost use Rattle.bx_plan.specs.Grammar.{AreEntries, IsEntry, IsNothing, IsSchedule};
ghost use Rattle.bx_plan.specs.Nodes.{nodes_of, AreNodes};
ghost use Rattle.bx_plan.specs.Plans.{Named, plan_of};
ghost use Rattle.bx_plan.specs.Reading.{entry_of, line_of, number_of, tail_of};
ghost use Rattle.bx_plan.specs.Texts.{IsFirstFault, IsPlan};

/// A number is read where it is spelled in decimal without leading zeros and is not over the limit, and nowhere else.
pub fn numbers_are_decimals()
    ensures { (most n : ℕ) (text : List ℕ) → most < 2 ^ 64 → (number_of most text ≡ Some n) ↔ ((n ≤ most) × (text ≡ decimal n)) }
{}

/// An entry is read where the text spells it, and nowhere else.
pub fn entries_are_spelled()
    ensures { (text : List ℕ) (entry : Entry) → (entry_of text ≡ Some entry) ↔ IsEntry text entry }
{}

/// Entries are read behind a colon where each stands behind one space, and nowhere else.
#[tactic(auto, using(crate::proofs::Spellings::tail_law))]
pub fn entries_are_spaced()
    ensures { (text : List ℕ) (entries : List Entry) → (tail_of text ≡ Some entries) ↔ AreEntries text entries }
{}

/// A line stands for nothing where it is empty or a comment, and nowhere else.
#[tactic(auto, using(crate::proofs::Headings::nothing_law))]
pub fn empty_lines_and_comments_are_nothing()
    ensures { (text : List ℕ) → (line_of text ≡ Some None) ↔ IsNothing text }
{}

/// A line names a schedule where the grammar has it so, and nowhere else.
pub fn schedules_are_spelled()
    ensures { (text : List ℕ) (line : List ℕ × List Entry) → (line_of text ≡ Some (Some line)) ↔ IsSchedule text line }
{}

/// A text is read as a plan where it is that plan's text, and nowhere else.
pub fn plans_are_spelled()
    ensures { (text : List ℕ) (plan : List Named) → (plan_of text ≡ Ok plan) ↔ IsPlan text plan }
{}

/// A text is refused by the fault of its first line at fault, and by no other.
pub fn the_first_line_at_fault_is_named()
    ensures { (text : List ℕ) (fault : Fault) → (plan_of text ≡ Err fault) ↔ IsFirstFault text fault }
{}

/// The nodes of a plan's tree are the prefixes of its schedules, each once.
pub fn nodes_are_the_distinct_prefixes()
    ensures { (schedules : List (List Choice)) → AreNodes schedules (nodes_of schedules) }
{}
