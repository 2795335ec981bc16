//! Laws over the definitions of the reader: each function's clause is one, and its body is empty.

ghost use Rattle.std.specs.Prelude.{◌≡◌, ◌↔◌, List, ℕ, Ok, Err, Some, None};
ghost use Rattle.bx_terms.specs.declared.faults.Fault.{Fault};
ghost use Rattle.bx_terms.specs.declared.faults.Fault.TheVariants.{NotUtf8};
ghost use Rattle.bx_text.specs.declared.node.Sort.{Sort};
ghost use Rattle.bx_text.specs.Place.{Place};
ghost use Rattle.bx_text.specs.Blank.{skip};
ghost use Rattle.bx_text.specs.Forms.{form_at};
ghost use Rattle.bx_text.specs.Token.{Token};
ghost use Rattle.bx_text.specs.Lexing.{token_at, lexeme_at};
ghost use Rattle.bx_text.specs.Grammar.{SpelledAs};
ghost use Rattle.bx_text_laws.specs.Blanks.{Passes, Spoilt};
ghost use Rattle.bx_text_laws.specs.Faults.{FormFails};
ghost use Rattle.bx_text_laws.specs.Lexemes.{Finds, NoNext, NextFails};
ghost use Rattle.bx_text_laws.specs.Refusals.{Fails};
ghost use Rattle.bx_text_laws.specs.Spelling.{NoToken};
ghost use Rattle.bx_text.specs.Tree.{Tree};
ghost use Rattle.bx_text_laws.specs.Shown.{Shown, IsStanding, IsReadBack};
ghost use Rattle.bx_text_laws.specs.Terms.{Sentence, OnlyBlanks};
ghost use Rattle.bx_text_laws.specs.Tokens.{Takes, Longest};

/// What the reader takes as a token at a place is the longest spelling that begins there, and it takes one exactly where
/// one begins.
pub fn tokens_are_the_longest_spellings()
    ensures { (p : Place) (t : Token) (q : Place) → Takes p t q ↔ Longest p t q }
{}

/// What the reader skips is the spaces and comments that stand there, all of them and nothing else.
pub fn blanks_are_skipped()
    ensures { (p q : Place) → (skip p ≡ Ok q) ↔ Passes p q }
{}

/// Blanks are refused exactly at a comment that is no text in UTF-8, as that and with the comment's line.
pub fn comments_are_refused_by_their_bytes()
    ensures { (p : Place) (f : Fault) → (skip p ≡ Err f)
        ↔ ((q : Place) × Spoilt p q × (f ≡ NotUtf8 q.line)) }
{}

/// What the reader finds as the next token is the longest spelling behind the blanks, and it finds one exactly where one
/// begins there.
pub fn the_next_token_is_the_longest()
    ensures { (p q : Place) (t : Token) (r : Place) → Finds p q t r ↔ (Passes p q × Longest q t r) }
{}

/// A token is refused at a place exactly where no token's spelling begins there.
pub fn what_is_no_token_is_refused_by_its_bytes()
    ensures { (p : Place) → ((f : Fault) × (token_at p ≡ Err f)) ↔ NoToken p.rest }
{}

/// A token is refused exactly where none is spelled, with the fault and the line that the bytes say.
pub fn faults_are_by_the_bytes()
    ensures { (p : Place) (f : Fault) → (token_at p ≡ Err f)
        ↔ (NoToken p.rest × Fails p.rest p.line f) }
{}

/// The next token is refused exactly where no token's spelling begins behind the blanks.
pub fn the_next_token_is_refused_by_its_bytes()
    ensures { (p : Place) → ((f : Fault) × (lexeme_at p ≡ Err f)) ↔ NoNext p }
{}

/// The next token's refusal and its line are those that the bytes say.
pub fn the_next_fault_is_by_the_bytes()
    ensures { (p : Place) (f : Fault) → (lexeme_at p ≡ Err f) ↔ NextFails p f }
{}

/// The texts that nodes keep are those that stand in some text as a term of their sort, by their bytes.
pub fn kept_texts_are_terms_by_their_bytes()
    ensures { (k : Sort) (w : List ℕ) → SpelledAs k w ↔ IsStanding k w }
{}

/// What is read as a form is a term and its full stop, by the bytes of their tokens: all of it and nothing else.
pub fn forms_are_terms_by_their_bytes()
    ensures { (p : Place) (t : Tree) (q : Place) → (form_at p ≡ Ok (Some (t, q)))
        ↔ Sentence 256 p t q }
{}

/// No form is read exactly where only spaces and comments follow.
pub fn none_is_blank_by_its_bytes()
    ensures { (p : Place) → (form_at p ≡ Ok None) ↔ OnlyBlanks p }
{}

/// A form is refused with the first fault in reading order: of the first token that is none, the text's end in the midst of
/// the form included, or that may not stand where it does, or that would nest brackets deeper than 256, with its line.
pub fn forms_are_refused_by_their_first_fault()
    ensures { (p : Place) (f : Fault) → (form_at p ≡ Err f) ↔ FormFails p f }
{}

/// What is printed of a term, and a full stop behind it, is read as the same term, spans aside: integers of any size,
/// atoms, floats, maps, binaries and funs, tuples, and lists with and without tails, nested at most as deep as is read.
pub fn what_is_printed_is_read_back()
    ensures { (t : Tree) → Shown 256 t → IsReadBack t }
{}

/// What was read is printed and read back as the same term, spans aside.
pub fn what_was_read_is_printed_and_read_back()
    ensures { (p : Place) (t : Tree) (q : Place) → form_at p ≡ Ok (Some (t, q)) → IsReadBack t }
{}
