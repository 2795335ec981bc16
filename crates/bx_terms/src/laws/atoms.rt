//! Laws of the table of atoms.

ghost use Rattle.std.specs.Prelude.{◌≡◌, true, ◌↔◌, ◌++◌, ℕ, List, Some, Ok, codes, filter, slice_get};
ghost use Rattle.std.specs.Str.{is_utf8};
ghost use Rattle.bx_terms.specs.declared.atom_table.AtomId.{AtomId};
ghost use Rattle.bx_terms.specs.AtomTable.{IsAtomTable, number_of, is_new, first_uses};
ghost use Rattle.bx_terms.specs.FixedAtoms.{fixed_atoms, Spells};
ghost use Rattle.bx_terms.specs.Naming.{naming, naming_all};

use crate::fixed::{
    ABS, AND, APPEND, BADARG, BADARITH, BADMATCH, BAND, BANG, BNOT, BOR, BSL, BSR, BXOR,
    CASE_CLAUSE, DISPLAY, DIV, ELEMENT, EQUAL, ERLANG, ERROR, EXACTLY_EQUAL, EXACTLY_NOT_EQUAL,
    EXIT, EXIT_TAG, FALSE, FUNCTION_CLAUSE, GREATER, GREATER_OR_EQUAL, HD, IF_CLAUSE, INFINITY,
    IS_ATOM, IS_BINARY, IS_BOOLEAN, IS_FLOAT, IS_INTEGER, IS_LIST, IS_NUMBER, IS_PID, IS_PORT,
    IS_REFERENCE, IS_TUPLE, KILL, KILLED, LENGTH, LESS, LESS_OR_EQUAL, LINK, LIST_TO_TUPLE, MAX,
    MIN, MINUS, NOCATCH, NOPROC, NORMAL, NOT, NOT_EQUAL, OR, PLUS, PROCESS_FLAG, REM, SELF, SEND,
    SETELEMENT, SIZE, SPAWN, SPAWN_LINK, SYSTEM_LIMIT, THROW, TIMEOUT_VALUE, TIMES, TL, TRAP_EXIT,
    TRUE, TRY_CLAUSE, TUPLE_SIZE, TUPLE_TO_LIST, UNDEF, UNLINK, XOR,
};

/// Texts and numbers are each other's inverse.
pub fn text_and_number()
    ensures { (texts : List (List ℕ)) (text : List ℕ) (number : ℕ) → IsAtomTable texts → (number_of texts text ≡ Some number) ↔ (slice_get texts number ≡ Some text) }
{}

/// No text stands twice.
pub fn texts_are_distinct()
    ensures { (texts : List (List ℕ)) (text : List ℕ) (one other : ℕ) → IsAtomTable texts → slice_get texts one ≡ Some text → slice_get texts other ≡ Some text → one ≡ other }
{}

/// A text that was named is found, and its number gives the text back.
pub fn named_text_is_found()
    ensures { (texts after : List (List ℕ)) (text : List ℕ) (atom : AtomId) → IsAtomTable texts → naming texts text ≡ Ok (after, atom) → (number_of after text ≡ Some atom.0) × (slice_get after atom.0 ≡ Some text) }
{}

/// Naming a text again gives the same number, and changes nothing.
pub fn naming_again()
    ensures { (texts after : List (List ℕ)) (text : List ℕ) (atom : AtomId) → IsAtomTable texts → naming texts text ≡ Ok (after, atom) → naming after text ≡ Ok (after, atom) }
{}

/// Naming a text leaves a table, in which every atom keeps its number.
pub fn numbers_stay()
    ensures table { (texts after : List (List ℕ)) (text : List ℕ) (atom : AtomId) → IsAtomTable texts → is_utf8 text ≡ true → naming texts text ≡ Ok (after, atom) → IsAtomTable after }
    ensures numbers { (texts after : List (List ℕ)) (text old : List ℕ) (atom : AtomId) (number : ℕ) → naming texts text ≡ Ok (after, atom) → slice_get texts number ≡ Some old → slice_get after number ≡ Some old }
{}

/// Naming the texts of a list one after another puts the new ones last, each once, in the order of first use.
pub fn order_of_first_use()
    ensures { (texts after given : List (List ℕ)) → naming_all texts given ≡ Ok after → after ≡ texts ++ filter (is_new texts) (first_uses given) }
{}

/// The fixed atoms have the same numbers in every table.
pub fn fixed_numbers()
    ensures { (texts : List (List ℕ)) (atom : AtomId) (text : List ℕ) → IsAtomTable texts → Spells atom text → (slice_get texts atom.0 ≡ Some text) × (number_of texts text ≡ Some atom.0) }
{}

/// Each constant is the number of its text.
#[tactic(auto, unfolding(crate::specs::FixedAtoms::fixed_atoms))]
pub fn fixed_names()
    ensures reserved { Spells TRUE (codes "true") × Spells FALSE (codes "false") × Spells NORMAL (codes "normal") × Spells KILL (codes "kill") × Spells KILLED (codes "killed") × Spells NOPROC (codes "noproc") × Spells ERROR (codes "error") × Spells EXIT (codes "exit") × Spells THROW (codes "throw") × Spells NOCATCH (codes "nocatch") × Spells FUNCTION_CLAUSE (codes "function_clause") × Spells BADMATCH (codes "badmatch") × Spells CASE_CLAUSE (codes "case_clause") × Spells IF_CLAUSE (codes "if_clause") × Spells TRY_CLAUSE (codes "try_clause") × Spells UNDEF (codes "undef") × Spells BADARITH (codes "badarith") × Spells BADARG (codes "badarg") × Spells SYSTEM_LIMIT (codes "system_limit") × Spells TIMEOUT_VALUE (codes "timeout_value") × Spells INFINITY (codes "infinity") × Spells TRAP_EXIT (codes "trap_exit") × Spells ERLANG (codes "erlang") × Spells EXIT_TAG (codes "EXIT") }
    ensures guards { Spells SELF (codes "self") × Spells PLUS (codes "+") × Spells MINUS (codes "-") × Spells TIMES (codes "*") × Spells DIV (codes "div") × Spells REM (codes "rem") × Spells BAND (codes "band") × Spells BOR (codes "bor") × Spells BXOR (codes "bxor") × Spells BSL (codes "bsl") × Spells BSR (codes "bsr") × Spells BNOT (codes "bnot") × Spells ABS (codes "abs") × Spells EQUAL (codes "==") × Spells NOT_EQUAL (codes "/=") × Spells EXACTLY_EQUAL (codes "=:=") × Spells EXACTLY_NOT_EQUAL (codes "=/=") × Spells LESS (codes "<") × Spells GREATER (codes ">") × Spells LESS_OR_EQUAL (codes "=<") × Spells GREATER_OR_EQUAL (codes ">=") × Spells MIN (codes "min") × Spells MAX (codes "max") × Spells NOT (codes "not") × Spells AND (codes "and") × Spells OR (codes "or") × Spells XOR (codes "xor") × Spells HD (codes "hd") × Spells TL (codes "tl") × Spells LENGTH (codes "length") × Spells TUPLE_SIZE (codes "tuple_size") × Spells SIZE (codes "size") × Spells ELEMENT (codes "element") × Spells IS_ATOM (codes "is_atom") × Spells IS_BOOLEAN (codes "is_boolean") × Spells IS_INTEGER (codes "is_integer") × Spells IS_LIST (codes "is_list") × Spells IS_NUMBER (codes "is_number") × Spells IS_PID (codes "is_pid") × Spells IS_TUPLE (codes "is_tuple") × Spells IS_FLOAT (codes "is_float") × Spells IS_BINARY (codes "is_binary") × Spells IS_REFERENCE (codes "is_reference") × Spells IS_PORT (codes "is_port") }
    ensures natives { Spells SPAWN (codes "spawn") × Spells SPAWN_LINK (codes "spawn_link") × Spells LINK (codes "link") × Spells UNLINK (codes "unlink") × Spells PROCESS_FLAG (codes "process_flag") × Spells SEND (codes "send") × Spells BANG (codes "!") × Spells DISPLAY (codes "display") × Spells APPEND (codes "++") × Spells SETELEMENT (codes "setelement") × Spells LIST_TO_TUPLE (codes "list_to_tuple") × Spells TUPLE_TO_LIST (codes "tuple_to_list") }
{}
