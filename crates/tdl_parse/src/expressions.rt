//! Expressions over one operand: signs and what they make of their operands.

ghost use Rattle.std.specs.Prelude.{◌≡◌, IfOk};
ghost use Rattle.tdl_tree.specs.Expressions as tree;

use sqlite_items::Boxed;
use std::alloc::{AllocError, Global};
use tdl_base::{BinOp, UnOp};
use tdl_tree::{ExprNode, ExprTree, Word, WordKind};

/// The operator of two operands that a sign writes.
fn bin_of(kind: WordKind) -> BinOp
    ensures { result ≡ tree.bin_of kind }
{
    match kind {
        WordKind::Plus => BinOp::Add,
        WordKind::Minus => BinOp::Sub,
        WordKind::Star => BinOp::Mul,
        WordKind::Slash => BinOp::Div,
        WordKind::Percent => BinOp::Rem,
        WordKind::Less => BinOp::Less,
        WordKind::LessEqual => BinOp::LessEq,
        WordKind::Greater => BinOp::Greater,
        WordKind::GreaterEqual => BinOp::GreaterEq,
        WordKind::EqualEqual => BinOp::Equal,
        WordKind::NotEqual => BinOp::NotEqual,
        WordKind::AndAnd => BinOp::And,
        _ => BinOp::Or,
    }
}

/// The operator of one operand that a sign writes.
fn un_of(kind: WordKind) -> UnOp
    ensures { result ≡ tree.un_of kind }
{
    match kind {
        WordKind::Minus => UnOp::Neg,
        _ => UnOp::Not,
    }
}

#[tactic(auto, unfolding(tdl_tree::specs::Expressions::is_comparison))]
pub fn is_comparison(word: &Word) -> bool
    ensures { result ≡ tree.is_comparison word.now }
{
    word.is(WordKind::EqualEqual)
        || word.is(WordKind::NotEqual)
        || word.is(WordKind::Less)
        || word.is(WordKind::LessEqual)
        || word.is(WordKind::Greater)
        || word.is(WordKind::GreaterEqual)
}

#[tactic(auto, unfolding(tdl_tree::specs::Expressions::is_sum_sign))]
pub fn is_sum_sign(word: &Word) -> bool
    ensures { result ≡ tree.is_sum_sign word.now }
{
    word.is(WordKind::Plus) || word.is(WordKind::Minus)
}

#[tactic(auto, unfolding(tdl_tree::specs::Expressions::is_product_sign))]
pub fn is_product_sign(word: &Word) -> bool
    ensures { result ≡ tree.is_product_sign word.now }
{
    word.is(WordKind::Star) || word.is(WordKind::Slash) || word.is(WordKind::Percent)
}

#[tactic(auto, unfolding(tdl_tree::specs::Expressions::is_unary_sign))]
pub fn is_unary_sign(word: &Word) -> bool
    ensures { result ≡ tree.is_unary_sign word.now }
{
    word.is(WordKind::Minus) || word.is(WordKind::Bang)
}

/// Two operands with the sign between them.
pub fn join(
    alloc: Global,
    left: ExprTree,
    sign: &Word,
    right: ExprTree,
) -> Result<ExprTree, AllocError>
    ensures { IfOk result (λ joined. joined ≡ tree.joins left sign.now right) }
{
    Ok(ExprTree {
        line: left.line,
        col: left.col,
        node: ExprNode::Bin(
            bin_of(sign.kind),
            Boxed::new(alloc, left)?,
            Boxed::new(alloc, right)?,
        ),
    })
}

/// An operand with a sign before it.
pub fn signed(alloc: Global, sign: &Word, operand: ExprTree) -> Result<ExprTree, AllocError>
    ensures { IfOk result (λ signed. signed ≡ tree.signed_of (sign.now, operand)) }
{
    Ok(ExprTree {
        line: sign.line,
        col: sign.col,
        node: ExprNode::Un(un_of(sign.kind), Boxed::new(alloc, operand)?),
    })
}
