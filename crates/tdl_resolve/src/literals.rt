ghost use Rattle.std.specs.Prelude.{◌≡◌};
ghost use Rattle.tdl_base.specs.Numbers.{truth};
ghost use Rattle.tdl_program.specs.Literals as literals;

use tdl_base::{Kind, UnOp, narrow, un};
use tdl_tree::{Lit, LitValue};

/// A number of the source as one of 64 bits.
pub(crate) fn number_of(value: u64) -> i64
    ensures { result ≡ literals.number_of value }
{
    value.cast_signed()
}

/// A number of the source, with a minus before it or without.
fn signed_number(minus: bool, value: u64) -> i64
    ensures { result ≡ literals.signed_number minus value }
{
    if minus {
        un(UnOp::Neg, number_of(value))
    } else {
        number_of(value)
    }
}

/// A truth as a number.
pub(crate) fn truth_of(holds: bool) -> i64
    ensures { result ≡ truth holds }
{
    i64::from(holds)
}

/// The number that a literal says.
fn literal_number(value: LitValue) -> i64
    ensures { result ≡ literals.literal_number value }
{
    match value {
        LitValue::Truth(holds) => truth_of(holds),
        LitValue::Number { minus, number } => signed_number(minus, number.value),
    }
}

/// A literal as a number of a kind.
pub fn literal_of(kind: Kind, literal: &Lit) -> i64
    ensures { result ≡ literals.literal_of kind literal.now }
{
    narrow(kind, literal_number(literal.value))
}

/// An initial literal as a number of a kind; 0 where there is none.
pub fn initial_of(kind: Kind, literal: &Option<Lit>) -> i64
    ensures { result ≡ literals.initial_number kind literal.now }
{
    match literal {
        None => 0,
        Some(literal) => literal_of(kind, literal),
    }
}
