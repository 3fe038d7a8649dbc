ghost use Rattle.std.specs.Prelude.{◌≡◌};
ghost use Rattle.tdl_base.specs.Numbers.{unary, binary, wrapped, truth, quotient, remainder};

/// An operator with one operand.
#[derive(Clone, Copy, Debug, PartialEq, Eq)]
pub enum UnOp {
    Neg,
    Not,
}

/// An operator with two operands, in the order of their numbers in stack code.
#[derive(Clone, Copy, Debug, PartialEq, Eq)]
pub enum BinOp {
    Add,
    Sub,
    Mul,
    Div,
    Rem,
    Less,
    LessEq,
    Greater,
    GreaterEq,
    Equal,
    NotEqual,
    And,
    Or,
}

/// The operator's answer, wrapped to 64 bits. `Not` gives 1 at 0, and 0 elsewhere.
pub fn un(op: UnOp, a: i64) -> i64
    ensures { result ≡ unary op a }
{
    match op {
        UnOp::Neg => a.wrapping_neg(),
        UnOp::Not => truth(a == 0),
    }
}

/// The operator's answer, wrapped to 64 bits. Division rounds toward 0; by 0 it gives 0 and leaves
/// 0. Comparisons, `And` and `Or` give 1 or 0, and the operands of these two are true where they
/// are not 0.
pub fn bin(op: BinOp, a: i64, b: i64) -> i64
    ensures { result ≡ binary op a b }
{
    match op {
        BinOp::Add => a.wrapping_add(b),
        BinOp::Sub => a.wrapping_sub(b),
        BinOp::Mul => a.wrapping_mul(b),
        BinOp::Div => quotient(a, b),
        BinOp::Rem => remainder(a, b),
        BinOp::Less => truth(a < b),
        BinOp::LessEq => truth(a <= b),
        BinOp::Greater => truth(a > b),
        BinOp::GreaterEq => truth(a >= b),
        BinOp::Equal => truth(a == b),
        BinOp::NotEqual => truth(a != b),
        BinOp::And => truth(a != 0 && b != 0),
        BinOp::Or => truth(a != 0 || b != 0),
    }
}

fn quotient(a: i64, b: i64) -> i64
    ensures { result ≡ wrapped (quotient a b) }
{
    if b == 0 {
        return 0;
    }
    a.wrapping_div(b)
}

fn remainder(a: i64, b: i64) -> i64
    ensures { result ≡ wrapped (remainder a b) }
{
    if b == 0 {
        return 0;
    }
    a.wrapping_rem(b)
}

fn truth(holds: bool) -> i64
    ensures { result ≡ wrapped (truth holds) }
{
    i64::from(holds)
}

#[cfg(test)]
mod tests {
    use super::*;

    #[test]
    fn one_operand(rt: HostRuntime) {
        let rows = [
            (UnOp::Neg, 5, -5),
            (UnOp::Neg, i64::MIN, i64::MIN),
            (UnOp::Not, 0, 1),
            (UnOp::Not, -3, 0),
        ];
        for (op, a, want) in rows {
            assert_eq!(rt; un(op, a), want, "{op:?} {a}");
        }
    }

    #[test]
    fn two_operands(rt: HostRuntime) {
        let rows = [
            (BinOp::Add, i64::MAX, 1, i64::MIN),
            (BinOp::Sub, i64::MIN, 1, i64::MAX),
            (BinOp::Mul, i64::MAX, 2, -2),
            (BinOp::Less, -1, 0, 1),
            (BinOp::Less, 4, 4, 0),
            (BinOp::LessEq, 4, 4, 1),
            (BinOp::Greater, 4, 4, 0),
            (BinOp::Greater, 5, 4, 1),
            (BinOp::GreaterEq, 4, 4, 1),
            (BinOp::Equal, -7, -7, 1),
            (BinOp::NotEqual, -7, -7, 0),
            (BinOp::And, 2, 4, 1),
            (BinOp::And, 2, 0, 0),
            (BinOp::Or, 0, -4, 1),
            (BinOp::Or, 0, 0, 0),
        ];
        for (op, a, b, want) in rows {
            assert_eq!(rt; bin(op, a, b), want, "{a} {op:?} {b}");
        }
    }

    #[test]
    fn corners_of_division(rt: HostRuntime) {
        let rows = [
            (7, 2, 3, 1),
            (-7, 2, -3, -1),
            (7, -2, -3, 1),
            (-7, -2, 3, -1),
            (7, 0, 0, 0),
            (0, 0, 0, 0),
            (i64::MIN, 0, 0, 0),
            (i64::MIN, -1, i64::MIN, 0),
            (i64::MIN, 1, i64::MIN, 0),
            (i64::MAX, -1, -i64::MAX, 0),
            (i64::MIN, i64::MAX, -1, -1),
            (i64::MAX, i64::MIN, 0, i64::MAX),
        ];
        for (a, b, whole, rest) in rows {
            assert_eq!(rt; bin(BinOp::Div, a, b), whole, "{a} / {b}");
            assert_eq!(rt; bin(BinOp::Rem, a, b), rest, "{a} % {b}");
        }
    }
}
