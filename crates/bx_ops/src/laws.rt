//! What holds of the tables: each law is the clause of a function that does nothing.
ghost use Rattle.std.specs.Prelude.{◌≡◌, ◌↔◌, ℕ, List, [], ◌∷◌, not, ◌||◌, Some, codes, bytes_eq, map, filter, take};
ghost use Rattle.bx_ops.specs.declared.guard_bif.Bif.{Bif};
ghost use Rattle.bx_ops.specs.declared.opcode.Op.{Op};
ghost use Rattle.bx_ops.specs.GuardBifs.{guard_bif, guard_bif_with};
ghost use Rattle.bx_ops.specs.Opcodes.{opcode, every_op, with_number, with_name};
ghost use Rattle.bx_ops.specs.Classes.{is_local};
ghost use Rattle.bx_ops.specs.Table.{way, arity, is_test, with_name_and_arity};

/// No two opcodes have the same number.
pub fn numbers_are_distinct()
    ensures { (a b : Op) → (opcode a).number ≡ (opcode b).number → a ≡ b }
{}

/// No two opcodes have the same name, so none have the same name and arity.
pub fn names_are_distinct()
    ensures { (a b : Op) → (opcode a).name ≡ (opcode b).name → a ≡ b }
{}

/// A look-up by number finds an opcode exactly where that is the opcode's number.
pub fn numbers_look_up()
    ensures { (number : ℕ) (op : Op) → (with_number number ≡ Some op) ↔ ((opcode op).number ≡ number) }
{}

/// A look-up by name finds an opcode exactly where that is the opcode's name.
pub fn names_look_up()
    ensures { (name : List ℕ) (op : Op) → (with_name name ≡ Some op) ↔ ((opcode op).name ≡ name) }
{}

/// A look-up by name and arity finds an opcode exactly where the opcode has both.
pub fn names_with_arities_look_up()
    ensures { (name : List ℕ) (count : ℕ) (op : Op) → (with_name_and_arity name count ≡ Some op)
        ↔ (((opcode op).name ≡ name) × (arity op ≡ count)) }
{}

/// Exactly four opcodes are not local.
pub fn four_are_not_local()
    ensures { map (λ op. (opcode op).name) (filter (λ op. not (is_local op)) every_op)
        ≡ codes "call_ext" ∷ codes "call_ext_last" ∷ codes "send" ∷ codes "call_ext_only" ∷ [] }
{}

/// The opcodes that listings write as `{test,NAME,LABEL,OPERANDS}` are those whose name begins with `is_`, and `test_arity`.
pub fn tests_are_named_so()
    ensures { (op : Op) → is_test (way op)
        ≡ (bytes_eq (take 3 (opcode op).name) (codes "is_") || bytes_eq (opcode op).name (codes "test_arity")) }
{}

/// No two guard BIFs have the same name and the same arity.
pub fn guard_bifs_are_distinct()
    ensures { (a b : Bif) → (guard_bif a).name ≡ (guard_bif b).name → (guard_bif a).arity ≡ (guard_bif b).arity → a ≡ b }
{}

/// A look-up of a guard BIF finds one exactly where it has the name and the arity.
pub fn guard_bifs_look_up()
    ensures { (name : List ℕ) (arity : ℕ) (bif : Bif) → (guard_bif_with name arity ≡ Some bif)
        ↔ (((guard_bif bif).name ≡ name) × ((guard_bif bif).arity ≡ arity)) }
{}
