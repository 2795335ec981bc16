//! The guard BIFs, by name and arity.
ghost use Rattle.std.specs.Prelude.{◌≡◌, ◌==◌, ◌&&◌, bytes_eq};
ghost use Rattle.bx_ops.specs.GuardBifs.{guard_bif, guard_bif_with};
ghost use Rattle.bx_ops.specs.Rows.{first_with, bif_in, said_of_bif};

/// A guard BIF: a function or an operator of module `erlang` that `bif` and `gc_bif` instructions name. Where a name
/// has two arities, as `+`, each is a variant.
///
/// The names are those of the Erlang Reference Manual, chapter Expressions.
#[derive(Clone, Copy, Debug, PartialEq, Eq)]
pub enum Bif {
    SelfPid,
    Add,
    Subtract,
    Multiply,
    Div,
    Rem,
    Band,
    Bor,
    Bxor,
    Bsl,
    Bsr,
    UnaryPlus,
    UnaryMinus,
    Bnot,
    Abs,
    Equal,
    NotEqual,
    ExactlyEqual,
    ExactlyNotEqual,
    Less,
    Greater,
    LessOrEqual,
    GreaterOrEqual,
    Min,
    Max,
    Not,
    And,
    Or,
    Xor,
    Hd,
    Tl,
    Length,
    TupleSize,
    Size,
    Element,
    IsAtom,
    IsBoolean,
    IsInteger,
    IsList,
    IsNumber,
    IsPid,
    IsTuple,
    IsFloat,
    IsBinary,
    IsReference,
    IsPort,
}

/// A row: the BIF, its name, which of an operator is its text, and the number of its arguments.
type Row = (Bif, &'static str, usize);

static BIFS: &[Row] = &[
    (Bif::SelfPid, "self", 0),
    (Bif::Add, "+", 2),
    (Bif::Subtract, "-", 2),
    (Bif::Multiply, "*", 2),
    (Bif::Div, "div", 2),
    (Bif::Rem, "rem", 2),
    (Bif::Band, "band", 2),
    (Bif::Bor, "bor", 2),
    (Bif::Bxor, "bxor", 2),
    (Bif::Bsl, "bsl", 2),
    (Bif::Bsr, "bsr", 2),
    (Bif::UnaryPlus, "+", 1),
    (Bif::UnaryMinus, "-", 1),
    (Bif::Bnot, "bnot", 1),
    (Bif::Abs, "abs", 1),
    (Bif::Equal, "==", 2),
    (Bif::NotEqual, "/=", 2),
    (Bif::ExactlyEqual, "=:=", 2),
    (Bif::ExactlyNotEqual, "=/=", 2),
    (Bif::Less, "<", 2),
    (Bif::Greater, ">", 2),
    (Bif::LessOrEqual, "=<", 2),
    (Bif::GreaterOrEqual, ">=", 2),
    (Bif::Min, "min", 2),
    (Bif::Max, "max", 2),
    (Bif::Not, "not", 1),
    (Bif::And, "and", 2),
    (Bif::Or, "or", 2),
    (Bif::Xor, "xor", 2),
    (Bif::Hd, "hd", 1),
    (Bif::Tl, "tl", 1),
    (Bif::Length, "length", 1),
    (Bif::TupleSize, "tuple_size", 1),
    (Bif::Size, "size", 1),
    (Bif::Element, "element", 2),
    (Bif::IsAtom, "is_atom", 1),
    (Bif::IsBoolean, "is_boolean", 1),
    (Bif::IsInteger, "is_integer", 1),
    (Bif::IsList, "is_list", 1),
    (Bif::IsNumber, "is_number", 1),
    (Bif::IsPid, "is_pid", 1),
    (Bif::IsTuple, "is_tuple", 1),
    (Bif::IsFloat, "is_float", 1),
    (Bif::IsBinary, "is_binary", 1),
    (Bif::IsReference, "is_reference", 1),
    (Bif::IsPort, "is_port", 1),
];

/// The BIF's name, which of an operator is its text.
pub fn bif_name(bif: Bif) -> &'static str
    ensures { result.now ≡ (guard_bif bif).name }
{
    BIFS[bif as usize].1
}

/// The guard BIF with the name and the number of arguments; `None` where there is none.
pub fn bif_by_name(name: &str, arity: usize) -> Option<Bif>
    ensures { result ≡ guard_bif_with name.now arity }
{
    named(BIFS, name, arity)
}

#[tactic(auto, unfolding(crate::specs::Rows::first_with))]
fn named(bifs: &[Row], name: &str, arity: usize) -> Option<Bif>
    ensures { result ≡ first_with bif_in said_of_bif
        (λ row. (row.arity == arity) && bytes_eq row.name name.now) bifs.now }
{
    let row = bifs.iter().find(|row| row.2 == arity && row.1 == name)?;
    Some(row.0)
}
