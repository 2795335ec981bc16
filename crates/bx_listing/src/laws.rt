//! Laws over the definitions of this crate: each function's clause is one, and its body is empty.

ghost use Rattle.std.specs.Prelude.{◌≡◌, ◌↔◌, ℕ, List, true};
ghost use Rattle.bx_terms.specs.declared.faults.Fault.{Fault};
ghost use Rattle.bx_terms.specs.AtomTable.{IsAtomTable};
ghost use Rattle.bx_text.specs.Place.{Place, place_in};
ghost use Rattle.bx_listing.specs.Reading.{Table, read, refused};
ghost use Rattle.bx_listing.specs.Forms.{Forms, forms, last_line};
ghost use Rattle.bx_listing.specs.FormsOf.{AreForms};
ghost use Rattle.bx_listing.specs.ListedCode.{ListedModule};
ghost use Rattle.bx_listing.specs.Listing.{listing};
ghost use Rattle.bx_listing.specs.Listed.{IsListing};
ghost use Rattle.bx_listing.specs.ListedItems.{IsItem};
ghost use Rattle.bx_listing.specs.Items.{Item};
ghost use Rattle.bx_listing.specs.Fits.{fits};
ghost use Rattle.bx_text.specs.Tree.{Tree};
ghost use Rattle.bx_listing.specs.Refused.{IsFirstFault};

/// The forms from a place on are those of the grammar, up to the first fault of the text, and no others.
#[tactic(auto, using(crate::proofs::FormsOf::forms_are_those))]
pub fn forms_are_the_grammar()
    ensures { (p : Place) (fs : Forms) → (forms p ≡ fs) ↔ AreForms p fs }
{}

/// The forms of a text are read as code where they are a listing of it, and nowhere else.
#[tactic(auto, using(crate::proofs::Listed::listings_are))]
pub fn a_listing_is_read_exactly()
    ensures { (text : List ℕ) (code : ListedModule) (before behind : Table) →
        ((listing (last_line text) (forms (place_in text 0))).run before ≡ read behind code) ↔
        IsListing before (forms (place_in text 0)) code behind }
{}

/// Forms that are no listing are refused at the first one with which they are none, with its line.
#[tactic(auto, using(crate::proofs::FirstFaults::first_faults_are))]
pub fn the_first_form_at_fault_is_refused()
    ensures { (text : List ℕ) (before behind : Table) (fault : Fault) → IsAtomTable before →
        (listing (last_line text) (forms (place_in text 0))).run before ≡ refused behind fault →
        IsFirstFault before (last_line text) (forms (place_in text 0)) fault }
{}

/// What is listed as an item has the operands that its opcode's row of the table wants.
#[tactic(auto, using(crate::proofs::Fitting::item_fits))]
pub fn a_listed_item_fits_its_opcode()
    ensures { (before behind : Table) (t : Tree) (i : Item) → IsItem before t i behind → fits i ≡
        true }
{}
