ghost use Rattle.std.specs.Prelude.{◌≡◌};
ghost use Rattle.tdl_scenario.specs.KindRanges.{range_of, value_in};

use tdl_base::Kind;

/// The least and the greatest value of a kind.
fn range_of(kind: Kind) -> (i64, i64)
    ensures { result ≡ range_of kind }
{
    match kind {
        Kind::Boolean => (0, 1),
        Kind::Byte => (-128, 127),
        Kind::Short => (-32_768, 32_767),
        Kind::Int => (-2_147_483_648, 2_147_483_647),
        Kind::Long => (i64::MIN, i64::MAX),
    }
}

/// A value, where the kind has it.
pub(crate) fn value_in(kind: Kind, value: i128) -> Option<i64>
    ensures { result ≡ value_in kind value }
{
    let (least, greatest) = range_of(kind);
    if value < i128::from(least) || value > i128::from(greatest) {
        return None;
    }
    Some(value as i64)
}
