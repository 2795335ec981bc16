//! What the engines' definitions come to. Each function has an empty body; its clause is the law.
ghost use Rattle.std.specs.Prelude.{◌≡◌, ◌<◌, ◌≤◌, ℕ, List, Option, IfSome, Some, length, true};
ghost use Rattle.std.specs.List.{list_all};
ghost use Rattle.bx_engine.specs.FaultLines.{line_of};
ghost use Rattle.bx_engine.specs.Inputs.{IsUnread, IsWhole, input_limit};
ghost use Rattle.bx_engine.specs.Lines.{IsLine, is_unbroken};
ghost use Rattle.bx_engine.specs.Runs.{Names, run_of};
ghost use Rattle.bx_engine.specs.Starts.{start_in};
ghost use Rattle.bx_engine.specs.Tidying.{IsTidyOf};
ghost use Rattle.bx_terms.specs.Refusals.{refusal};
ghost use Rattle.bx_engine.specs.declared.failures.Failure.{Failure};
ghost use Rattle.bx_engine.specs.declared.inputs.Unread.TheVariants.{TooLarge};
ghost use Rattle.bx_terms.specs.declared.faults.Fault.{Fault};

/// A failure is told in one line, whatever it names, where no file's name has a line feed.
pub fn a_failure_is_one_line()
    ensures { (failure : Failure) → (names : List (List ℕ)) → list_all is_unbroken names ≡ true
        → IsLine (line_of failure names) }
{}

/// A refusal's number is one of 1 to 34.
pub fn refusals_are_numbered()
    ensures { (fault : Fault) → IfSome (refusal fault) (λ title. (1 ≤ title.0) × (title.0 ≤ 34)) }
{}

/// An input that was read is all that there was, and one that is too large is past the limit.
pub fn an_input_is_its_bytes()
    ensures whole { (given bytes : List ℕ) → (left : Option (List ℕ))
        → IsWhole (Some given) left bytes → bytes ≡ given }
    ensures large { (given : List ℕ) → (left : Option (List ℕ))
        → IsUnread (Some given) left TooLarge → input_limit < length given }
{}

/// The report of a plan that `tidy` writes is, byte for byte, the report of the plan that it was given.
pub fn a_tidied_plan_has_the_same_report()
    ensures { (start : List ℕ) → (names : Names) → (given : List (List ℕ)) → (planned : List ℕ) → (text : List ℕ) → start_in start ≡ Some names
        → IsTidyOf names given planned text → run_of start given text ≡ run_of start given planned }
{}
