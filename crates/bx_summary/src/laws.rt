//! Laws of the definitions: the functions do nothing, and their clauses are the laws.

ghost use Rattle.std.specs.Prelude.{◌≡◌, ℕ, List, length};
ghost use Rattle.bx_board.specs.declared.reports.Scheduled.{Scheduled};
ghost use Rattle.bx_summary.specs.Counted.{AreDistinct, counted, counted_at, how_many, total};

/// A summary counts each schedule once, at the outcome that is its own: whatever the lines of an outcome, as many schedules are
/// counted there as ended with these lines; no two outcomes have the same lines; and in all there are as many as schedules.
pub fn every_schedule_is_counted_once()
    ensures own { (texts : List (List ℕ)) (ending : List ℕ) (schedules : List Scheduled) → counted_at texts ending (counted texts schedules) ≡ how_many texts ending schedules }
    ensures distinct { (texts : List (List ℕ)) (schedules : List Scheduled) → AreDistinct texts (counted texts schedules) }
    ensures once { (texts : List (List ℕ)) (schedules : List Scheduled) → total (counted texts schedules) ≡ length schedules }
{}
