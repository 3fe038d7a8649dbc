ghost use Rattle.std.specs.Prelude.{◌≡◌};
ghost use Rattle.std.specs.Int.{int_wrap, w8, w16, w32};
ghost use Rattle.tdl_base.specs.Numbers.{narrowed, truth, is_true, width_of};

/// The kind of a port: its numbers are signed two's complement of so many bits, and those of
/// `Boolean` are 0 and 1.
#[derive(Clone, Copy, Debug, PartialEq, Eq)]
pub enum Kind {
    Boolean,
    Byte,
    Short,
    Int,
    Long,
}

/// Keeps the low bits of `v` that the kind has, with their sign. A `Boolean` is 1 where `v` is not
/// 0.
pub fn narrow(kind: Kind, v: i64) -> i64
    ensures { result ≡ narrowed kind v }
{
    match kind {
        Kind::Boolean => truth_of(v),
        Kind::Byte => low_byte(v),
        Kind::Short => low_short(v),
        Kind::Int => low_int(v),
        Kind::Long => v,
    }
}

/// How many bytes a number of the kind takes: 1, 1, 2, 4 and 8.
pub fn width(kind: Kind) -> u16
    ensures { result ≡ width_of kind }
{
    match kind {
        Kind::Boolean | Kind::Byte => 1,
        Kind::Short => 2,
        Kind::Int => 4,
        Kind::Long => 8,
    }
}

fn truth_of(v: i64) -> i64
    ensures { result ≡ truth (is_true v) }
{
    i64::from(v != 0)
}

fn low_byte(v: i64) -> i64
    ensures { result ≡ int_wrap w8 v }
{
    i64::from(((v.cast_unsigned() % 0x100) as u8).cast_signed())
}

fn low_short(v: i64) -> i64
    ensures { result ≡ int_wrap w16 v }
{
    i64::from(((v.cast_unsigned() % 0x1_0000) as u16).cast_signed())
}

fn low_int(v: i64) -> i64
    ensures { result ≡ int_wrap w32 v }
{
    i64::from(((v.cast_unsigned() % 0x1_0000_0000) as u32).cast_signed())
}

#[cfg(test)]
mod tests {
    use super::*;

    #[test]
    fn ends_of_kinds(rt: HostRuntime) {
        let rows = [
            (Kind::Boolean, 0, 0),
            (Kind::Boolean, 1, 1),
            (Kind::Boolean, 2, 1),
            (Kind::Boolean, -1, 1),
            (Kind::Boolean, i64::MIN, 1),
            (Kind::Byte, 127, 127),
            (Kind::Byte, 128, -128),
            (Kind::Byte, -128, -128),
            (Kind::Byte, -129, 127),
            (Kind::Byte, 300, 44),
            (Kind::Short, 32_767, 32_767),
            (Kind::Short, 32_768, -32_768),
            (Kind::Short, -32_768, -32_768),
            (Kind::Short, -32_769, 32_767),
            (Kind::Int, 2_147_483_647, 2_147_483_647),
            (Kind::Int, 2_147_483_648, -2_147_483_648),
            (Kind::Int, -2_147_483_648, -2_147_483_648),
            (Kind::Int, -2_147_483_649, 2_147_483_647),
            (Kind::Long, i64::MAX, i64::MAX),
            (Kind::Long, i64::MIN, i64::MIN),
        ];
        for (kind, v, want) in rows {
            assert_eq!(rt; narrow(kind, v), want, "{v} as {kind:?}");
        }
    }

    #[test]
    fn widths(rt: HostRuntime) {
        let rows = [
            (Kind::Boolean, 1),
            (Kind::Byte, 1),
            (Kind::Short, 2),
            (Kind::Int, 4),
            (Kind::Long, 8),
        ];
        for (kind, want) in rows {
            assert_eq!(rt; width(kind), want, "{kind:?}");
        }
    }
}
