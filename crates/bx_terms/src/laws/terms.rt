//! Laws of heights, of the order of terms and of their text.

ghost use Rattle.std.specs.Prelude.{◌≡◌, true, ◌+◌, ◌<◌, ◌↔◌, ◌++◌, max, ℕ, ℤ, List, Some, None, length, map, fold, slice_get, codes, chars};
ghost use Rattle.std.specs.declared.cmp.Ordering.TheVariants.{Less, Equal};
ghost use Rattle.std.specs.Ordering.{ordering_reverse, nat_cmp};
ghost use Rattle.std.specs.Cmp.Lexicographic.{slice_cmp};
ghost use Rattle.std.specs.List.{join_by};
ghost use Rattle.std.specs.Str.{IsUtf8};
ghost use Rattle.bx_terms.specs.AtomTable.{IsAtomTable};
ghost use Rattle.bx_terms.specs.Tree.{Tree, int, atom, pid, tuple, nil, cons, listed, height};
ghost use Rattle.bx_terms.specs.Order.{order_of, kind_order};
ghost use Rattle.bx_terms.specs.Printed.{printed};
ghost use Rattle.bx_terms.specs.Same.{same_tree};

/// A list cell is 1 higher than the higher of its head and its tail, a tuple 1 higher than its highest element (1 high
/// where it has none).
pub fn heights()
    ensures cells { (head tail : Tree) → height (cons head tail) ≡ 1 + max (height head) (height tail) }
    ensures tuples { (elements : List Tree) → height (tuple (listed elements)) ≡ 1 + fold max 0 (map height elements) }
{}

/// What `==` computes on terms holds exactly where they are equal.
pub fn same_terms_are_equal()
    ensures { (t u : Tree) → (same_tree t u ≡ true) ↔ (t ≡ u) }
{}

/// Of any two terms the second stands to the first as the first to the second, turned round; what comes before a term comes
/// before all that come after it; and terms that are equal in the order stand alike to every term.
pub fn order_is_total()
    ensures turned { (texts : List (List ℕ)) (t u : Tree) → order_of texts t u ≡ ordering_reverse (order_of texts u t) }
    ensures chained { (texts : List (List ℕ)) (t u v : Tree) → order_of texts t u ≡ Less → order_of texts u v ≡ Less → order_of texts t v ≡ Less }
    ensures alike { (texts : List (List ℕ)) (t u v : Tree) → order_of texts t u ≡ Equal → order_of texts t v ≡ order_of texts u v }
{}

/// Only equal terms are equal in the order, under every table of atoms.
pub fn equal_in_order_is_equal()
    ensures { (texts : List (List ℕ)) → IsAtomTable texts → (t u : Tree) → (order_of texts t u ≡ Equal) ↔ (t ≡ u) }
{}

/// Integers come before atoms, these before pids, tuples, the empty list and list cells, in this order.
pub fn kinds_stand_in_order()
    ensures integers { (texts : List (List ℕ)) (n : ℤ) (a : ℕ) → order_of texts (int n) (atom a) ≡ Less }
    ensures atoms { (texts : List (List ℕ)) (a p : ℕ) → order_of texts (atom a) (pid p) ≡ Less }
    ensures pids { (texts : List (List ℕ)) (p : ℕ) (t : Tree) → order_of texts (pid p) (tuple t) ≡ Less }
    ensures tuples { (texts : List (List ℕ)) (t : Tree) → order_of texts (tuple t) nil ≡ Less }
    ensures empty_list { (texts : List (List ℕ)) (t u : Tree) → order_of texts nil (cons t u) ≡ Less }
{}

/// A tuple of fewer elements comes first; of as many, the first elements that differ decide.
pub fn tuples_compare_by_size_then_elements()
    ensures size { (texts : List (List ℕ)) (ts us : List Tree) → length ts < length us → order_of texts (tuple (listed ts)) (tuple (listed us)) ≡ Less }
    ensures elements { (texts : List (List ℕ)) (ts us : List Tree) → length ts ≡ length us → order_of texts (tuple (listed ts)) (tuple (listed us)) ≡ slice_cmp (order_of texts) ts us }
{}

/// The first elements that differ decide, and else the shorter list comes first.
pub fn lists_compare_by_elements()
    ensures { (texts : List (List ℕ)) (ts us : List Tree) → order_of texts (listed ts) (listed us) ≡ slice_cmp (order_of texts) ts us }
{}

/// The first character codes that differ decide, and else the shorter text comes first; an atom that the table lacks comes
/// after all that it holds, and two such go by number.
pub fn atoms_compare_by_character_codes()
    ensures held { (texts : List (List ℕ)) (a b : ℕ) (s t : List ℕ) → slice_get texts a ≡ Some s → slice_get texts b ≡ Some t → order_of texts (atom a) (atom b) ≡ slice_cmp nat_cmp (chars s) (chars t) }
    ensures lacking { (texts : List (List ℕ)) (a b : ℕ) (s : List ℕ) → slice_get texts a ≡ Some s → slice_get texts b ≡ None → order_of texts (atom a) (atom b) ≡ Less }
    ensures by_number { (texts : List (List ℕ)) (a b : ℕ) → slice_get texts a ≡ None → slice_get texts b ≡ None → order_of texts (atom a) (atom b) ≡ nat_cmp a b }
{}

/// Texts in UTF-8 stand to each other, byte by byte, as their characters do, code by code.
pub fn utf8_keeps_order()
    ensures { (s t : List ℕ) → IsUtf8 s → IsUtf8 t → slice_cmp nat_cmp s t ≡ slice_cmp nat_cmp (chars s) (chars t) }
{}

/// A tuple's elements stand between braces, with commas between them.
pub fn printed_tuples()
    ensures { (texts : List (List ℕ)) (ts : List Tree) → printed texts (tuple (listed ts)) ≡ codes "{" ++ join_by (printed texts) (codes ",") ts ++ codes "}" }
{}

/// A list's elements stand between brackets, with commas between them; a tail that is no list follows its head after a bar.
pub fn printed_lists()
    ensures proper { (texts : List (List ℕ)) (ts : List Tree) → printed texts (listed ts) ≡ codes "[" ++ join_by (printed texts) (codes ",") ts ++ codes "]" }
    ensures improper { (texts : List (List ℕ)) (t u : Tree) → kind_order u < kind_order nil → printed texts (cons t u) ≡ codes "[" ++ printed texts t ++ codes "|" ++ printed texts u ++ codes "]" }
{}
