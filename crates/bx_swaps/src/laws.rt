//! Laws of the definitions: the functions do nothing, and their clauses are the laws.

ghost use Rattle.std.specs.Prelude.{◌≡◌, ℕ, ◌<◌, ◌≤◌, List, length, drop};
ghost use Rattle.bx_load.specs.Image.{Loaded};
ghost use Rattle.bx_world.specs.declared.choices.Choice.{Choice};
ghost use Rattle.bx_world.specs.World.{State};
ghost use Rattle.bx_world.specs.Running.{ran, unchosen};
ghost use Rattle.bx_replay.specs.Courses.{Course, reached};
ghost use Rattle.bx_replay.specs.Moving.{exchanged, AllMay, IsExchanged};
ghost use Rattle.bx_swaps.specs.Exchanges.{from_start};
ghost use Rattle.bx_swaps.specs.Tidying.{tidied_of, undone_of, IsTidied, IsUndone};

/// Where each exchange may be made, the list with all of them made leads to an equal world, output included, and as many of its choices
/// are applied.
pub fn exchanges_lead_to_an_equal_world()
    ensures { (image : Loaded) (start : State) (positions : List ℕ) (choices : List Choice)
        → AllMay positions (from_start image start choices)
        → ran image (exchanged positions choices) (unchosen start) ≡ ran image choices (unchosen start) }
{}

/// Exchanges among the first choices leave where each longer prefix leads as it was, and the choices behind them.
pub fn exchanges_among_the_first_lead_where_they_led()
    ensures ends { (count n : ℕ) (old new : Course) → IsExchanged count old new → count ≤ n → reached n new ≡ reached n old }
    ensures behind { (count : ℕ) (old new : Course) → IsExchanged count old new → drop count new.choices ≡ drop count old.choices }
    ensures long { (count : ℕ) (old new : Course) → IsExchanged count old new → length new.choices ≡ length old.choices }
{}

/// A tidied schedule, and one of which a choice is undone, lead to a world that is equal to the one to which the given schedule led: as many
/// of its choices are applied, and the same one is refused or traps.
pub fn a_tidied_schedule_leads_to_an_equal_world()
    ensures tidied { (image : Loaded) (start : State) (count : ℕ) (choices new : List Choice)
        → IsTidied count (from_start image start choices) (from_start image start new)
        → ran image new (unchosen start) ≡ ran image choices (unchosen start) }
    ensures undone { (image : Loaded) (start : State) (count k before : ℕ) (choices new : List Choice)
        → IsUndone count k (from_start image start choices) (from_start image start new) before
        → ran image new (unchosen start) ≡ ran image choices (unchosen start) }
{}

/// Whatever stands in a row, its first choices are tidied, and one of them is set aside, by exchanges that may be made where they are made.
pub fn each_exchange_may_be_made()
    ensures tidied { (count : ℕ) (course : Course) → IsTidied count course (tidied_of count course) }
    ensures aside { (count k : ℕ) (course : Course) → k < count → IsExchanged count course (undone_of count k course).0 }
    ensures back { (count k : ℕ) (course : Course) → k < count → k ≤ (undone_of count k course).1 }
    ensures within { (count k : ℕ) (course : Course) → k < count → (undone_of count k course).1 < count }
{}
