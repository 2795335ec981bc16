//! A plan's lines in parts, which may be given to several machines.

ghost use Rattle.std.specs.Prelude.{◌≡◌, ◌≤◌, ℕ, List, map};
ghost use Rattle.std.specs.List.{AllByRecursion};
ghost use Rattle.bx_engine.specs.Campaigns.{campaign_as, campaign_of};
ghost use Rattle.bx_engine.specs.Runs.{run_as, run_of};
ghost use Rattle.bx_engine.specs.declared.forms.Form.{Form};
ghost use Rattle.bx_run_laws.specs.Parted.{IsCutInto, IsReadable, joined};

/// Wherever the lines of a plan are cut, each part is a plan, and what `run` writes of the parts, one behind another, is what it
/// writes of the plan, byte for byte. Listings or a start that are refused with the plan are refused alike with each part.
pub fn every_cut_reports_the_same()
    ensures plans { (planned : List ℕ) (parts : List (List ℕ)) → IsReadable planned → IsCutInto planned parts → AllByRecursion IsReadable parts }
    ensures reports { (start : List ℕ) (given : List (List ℕ)) (planned : List ℕ) (parts : List (List ℕ)) → IsReadable planned → IsCutInto planned parts
        → run_of start given planned ≡ joined (map (run_of start given) parts) }
{}

/// What `campaign` writes by 1 to 64 workers is what `run` writes: so each part may be given to as many as its machine has. Their
/// summaries are the same too.
pub fn a_campaign_reports_what_a_run_does()
    ensures report { (workers : ℕ) (start : List ℕ) (given : List (List ℕ)) (planned : List ℕ) → 1 ≤ workers → workers ≤ 64
        → campaign_of workers start given planned ≡ run_of start given planned }
    ensures any_form { (form : Form) (workers : ℕ) (start : List ℕ) (given : List (List ℕ)) (planned : List ℕ) → 1 ≤ workers → workers ≤ 64
        → campaign_as form workers start given planned ≡ run_as form start given planned }
{}
