//! Laws over the definitions of the crates below: each function's clause is one, and its body is empty.

ghost use Rattle.std.specs.Prelude.{◌≡◌, ◌↔◌, ℕ, List, not};
ghost use Rattle.bx_terms.specs.AtomTable.{IsAtomTable};
ghost use Rattle.bx_text.specs.Place.{place_in};
ghost use Rattle.bx_text.specs.Tree.{Tree};
ghost use Rattle.bx_listing.specs.Reading.{Table, read};
ghost use Rattle.bx_listing.specs.Forms.{forms, last_line};
ghost use Rattle.bx_listing.specs.Listing.{listing};
ghost use Rattle.bx_listing.specs.ListedCode.{ListedModule};
ghost use Rattle.bx_listing.specs.Items.{Item};
ghost use Rattle.bx_listing.specs.ListedItems.{IsItem};
ghost use Rattle.bx_listing.specs.Code.{Code, code};
ghost use Rattle.bx_asm.specs.Marks.{is_mark, is_instruction};
ghost use Rattle.bx_listing_laws.specs.ReadBack.{IsRead, IsReadBack};
ghost use Rattle.bx_listing_laws.specs.Writable.{IsWritable};

/// What is listed as an item is an instruction, unless it is a label or a line, which are none.
pub fn a_listed_item_is_an_instruction_or_a_mark()
    ensures { (before behind : Table) (t : Tree) (i : Item) → IsItem before t i behind → is_instruction i ≡ not (is_mark i) }
{}

/// What is written of a code form is read as a listing with that code form, and names no atom that the table lacks, where the
/// code form is one that a listing can say: its operands are those of the table of opcodes, and each can be spelled and read.
pub fn a_written_code_is_read_back()
    ensures { (names : Table) (c : Code) → IsAtomTable names → IsWritable names c → IsReadBack names c }
{}

/// A listing can say just the code forms that are read from some text: the condition leaves none of them out.
pub fn a_listing_can_say_what_is_read()
    ensures { (names : Table) (c : Code) → IsAtomTable names → IsWritable names c ↔ IsRead names c }
{}

/// A code form that was read is written and read back as the same code form.
pub fn a_read_code_is_written_and_read_back()
    ensures { (text : List ℕ) (m : ListedModule) (before behind : Table) → IsAtomTable behind
        → (listing (last_line text) (forms (place_in text 0))).run before ≡ read behind m → IsReadBack behind (code m) }
{}
