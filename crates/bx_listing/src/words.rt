//! The words with which forms and operands begin.

ghost use Rattle.std.specs.Prelude.{◌≡◌};
ghost use Rattle.bx_listing.specs.Words.{form_word, operand_word};

/// The word with which a form begins.
#[derive(Clone, Copy)]
pub(crate) enum FormWord {
    Module,
    Exports,
    Attributes,
    Labels,
    Function,
    Annotation,
    Test,
    Bif,
    GcBif,
    Raise,
    /// Any other word, as the names of opcodes are.
    Named,
}

/// The word with which an operand begins.
#[derive(Clone, Copy)]
pub(crate) enum OperandWord {
    X,
    Y,
    /// A register with what is known of its type.
    Typed,
    Label,
    Integer,
    Float,
    Atom,
    Nil,
    Literal,
    External,
    List,
    /// `alloc`, of a heap's parts.
    Amounts,
    /// Any other word.
    Unknown,
}

pub(crate) fn form_word(text: &str) -> FormWord
    ensures { result ≡ form_word text.now }
{
    match text {
        "module" => FormWord::Module,
        "exports" => FormWord::Exports,
        "attributes" => FormWord::Attributes,
        "labels" => FormWord::Labels,
        "function" => FormWord::Function,
        "%" => FormWord::Annotation,
        "test" => FormWord::Test,
        "bif" => FormWord::Bif,
        "gc_bif" => FormWord::GcBif,
        "raise" => FormWord::Raise,
        _ => FormWord::Named,
    }
}

pub(crate) fn operand_word(text: &str) -> OperandWord
    ensures { result ≡ operand_word text.now }
{
    match text {
        "x" => OperandWord::X,
        "y" => OperandWord::Y,
        "tr" => OperandWord::Typed,
        "f" => OperandWord::Label,
        "integer" => OperandWord::Integer,
        "float" => OperandWord::Float,
        "atom" => OperandWord::Atom,
        "nil" => OperandWord::Nil,
        "literal" => OperandWord::Literal,
        "extfunc" => OperandWord::External,
        "list" => OperandWord::List,
        "alloc" => OperandWord::Amounts,
        _ => OperandWord::Unknown,
    }
}
