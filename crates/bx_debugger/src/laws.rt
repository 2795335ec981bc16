//! Laws of the definitions: the functions do nothing, and their clauses are the laws.

ghost use Rattle.std.specs.Prelude.{◌≡◌, ◌++◌, ◌∷◌, ℕ, ◌≤◌, List, [], Ok, codes, length};
ghost use Rattle.std.specs.List.{AllByRecursion};
ghost use Rattle.bx_world.specs.declared.choices.Choice.{Choice};
ghost use Rattle.bx_plan.specs.Grammar.{HasPids, IsName};
ghost use Rattle.bx_plan.specs.Plans.{plan_of};
ghost use Rattle.bx_engine.specs.PlanLines.{plan_line};

/// The line that `plan` answers is read back as a schedule of this name with just these choices.
pub fn a_plan_is_read_back()
    ensures { (name : List ℕ) (choices : List Choice) → IsName name → AllByRecursion HasPids choices → length choices ≤ 100000
        → plan_of (plan_line name choices ++ codes "\n") ≡ Ok ((name, choices) ∷ []) }
{}
