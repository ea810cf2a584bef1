//! Which operator a sign is, and what a word of a mapping says.

ghost use Rattle.std.specs.Prelude.{◌≡◌};
ghost use Rattle.c_grammar.specs.Effects as spec;

use crate::kind::Kind;
use c_tree::{BinOp, PlaceKind, UnOp};

/// The prefix operator that a sign is (ISO C11, 6.5.3.3).
pub fn unary_of(kind: Kind) -> UnOp
    ensures { result ≡ spec.unary_of kind }
{
    match kind {
        Kind::Bang => UnOp::Not,
        Kind::Tilde => UnOp::Flip,
        _ => UnOp::Neg,
    }
}

/// The operator between two operands that a sign is (ISO C11, 6.5.5 to 6.5.14).
pub fn binary_of(kind: Kind) -> BinOp
    ensures { result ≡ spec.binary_of kind }
{
    match kind {
        Kind::Slash => BinOp::Div,
        Kind::Percent => BinOp::Rem,
        Kind::Plus => BinOp::Add,
        Kind::Minus => BinOp::Sub,
        Kind::ShiftLeft => BinOp::Shl,
        Kind::ShiftRight => BinOp::Shr,
        Kind::Less => BinOp::Lt,
        Kind::LessEqual => BinOp::Le,
        Kind::Greater => BinOp::Gt,
        Kind::GreaterEqual => BinOp::Ge,
        Kind::EqualEqual => BinOp::Eq,
        Kind::NotEqual => BinOp::Ne,
        Kind::And => BinOp::BitAnd,
        Kind::Xor => BinOp::BitXor,
        Kind::Or => BinOp::BitOr,
        Kind::AndAnd => BinOp::And,
        Kind::OrOr => BinOp::Or,
        _ => BinOp::Mul,
    }
}

/// The operator of an assignment, where it has one (ISO C11, 6.5.16.2).
pub fn assigned_of(kind: Kind) -> Option<BinOp>
    ensures { result ≡ spec.assigned_of kind }
{
    match kind {
        Kind::PlusEqual => Some(BinOp::Add),
        Kind::MinusEqual => Some(BinOp::Sub),
        Kind::StarEqual => Some(BinOp::Mul),
        Kind::SlashEqual => Some(BinOp::Div),
        Kind::PercentEqual => Some(BinOp::Rem),
        Kind::AndEqual => Some(BinOp::BitAnd),
        Kind::XorEqual => Some(BinOp::BitXor),
        Kind::OrEqual => Some(BinOp::BitOr),
        Kind::ShiftLeftEqual => Some(BinOp::Shl),
        Kind::ShiftRightEqual => Some(BinOp::Shr),
        _ => None,
    }
}

/// The operator by which `++` or `--` changes a place (ISO C11, 6.5.2.4 and 6.5.3.1).
pub fn stepped_of(kind: Kind) -> BinOp
    ensures { result ≡ spec.stepped_of kind }
{
    match kind {
        Kind::MinusMinus => BinOp::Sub,
        _ => BinOp::Add,
    }
}

/// Which side a match is of: 0 for functions, 1 for structs, 2 for globals, 3 for mutexes.
pub fn side_of(kind: Kind) -> u8
    ensures { result ≡ spec.side_of kind }
{
    match kind {
        Kind::Struct => 1,
        Kind::GlobalWord => 2,
        Kind::MutexWord => 3,
        _ => 0,
    }
}

/// Which kind of place a point with a number is.
pub fn place_of(kind: Kind) -> PlaceKind
    ensures { result ≡ spec.place_of kind }
{
    match kind {
        Kind::LoopWord => PlaceKind::LoopEnd,
        Kind::CallWord => PlaceKind::Call,
        _ => PlaceKind::Block,
    }
}
