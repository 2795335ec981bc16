//! Laws of the definitions: the functions do nothing, and their clauses are the laws.

ghost use Rattle.std.specs.Prelude.{◌≡◌, ◌++◌, ℕ, List};
ghost use Rattle.bx_board.specs.declared.reports.Scheduled.{Scheduled};
ghost use Rattle.bx_board.specs.Histories.{EveryHistoryIsSound};
ghost use Rattle.bx_board.specs.Texts.{report_lines};

/// The text of schedules followed by others is the text of the first, and then that of the others: none is left out.
pub fn every_schedule_is_reported()
    ensures { (texts : List (List ℕ)) (first more : List Scheduled) → report_lines texts
        (first ++ more) ≡ report_lines texts first ++ report_lines texts more }
{}

/// Workers share a campaign's chains soundly, whatever they do: after every list of events that may happen one after
/// another, the end of each chain that is done is that of its path's run, alone from the start; no worker holds two chains
/// and no two hold one; and of each chain as many pieces were accepted as it is done, in all as many as chains are done,
/// the root aside.
pub fn every_history_is_sound()
    ensures { EveryHistoryIsSound }
{}
