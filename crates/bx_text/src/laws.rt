//! Laws over the definitions of this crate: each function's clause is one, and its body is empty.

ghost use Rattle.std.specs.Prelude.{◌≡◌, ◌↔◌, ℕ, Ok, Some, None};
ghost use Rattle.bx_text.specs.Place.{Place};
ghost use Rattle.bx_text.specs.Token.{Lexeme};
ghost use Rattle.bx_text.specs.Tree.{Tree};
ghost use Rattle.bx_text.specs.Terms.{term_at};
ghost use Rattle.bx_text.specs.Forms.{form_at};
ghost use Rattle.bx_text.specs.Grammar.{Spells, Form, OnlyBlank};

/// What is read as a term is what the grammar spells, at each depth: all of it and nothing else.
#[tactic(auto, using(crate::proofs::Grammatical::terms_are))]
pub fn terms_are_the_grammar()
    ensures { (d : ℕ) (l : Lexeme) (t : Tree) (q : Place) → (term_at d l ≡ Ok (t, q)) ↔ Spells d l t q }
{}

/// What is read as a form is a term of the grammar and its full stop: all of it and nothing else.
#[tactic(auto, using(crate::proofs::Grammatical::forms_are))]
pub fn forms_are_the_grammar()
    ensures { (p : Place) (t : Tree) (q : Place) → (form_at p ≡ Ok (Some (t, q))) ↔ Form 256 p t q }
{}

/// No form is read exactly where only space and comments follow.
#[tactic(auto, using(crate::proofs::Grammatical::none_are))]
pub fn none_is_blank()
    ensures { (p : Place) → (form_at p ≡ Ok None) ↔ OnlyBlank p }
{}
