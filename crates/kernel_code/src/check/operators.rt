//! What operator a token is, and whether it joins two sides.

ghost use Rattle.std.specs.Prelude.{◌≡◌};
ghost use Rattle.kernel_code.specs.Trees.{is_minus, operator_of, joins};

use frame_ast::kernel::Operator;
use frame_grammar::TokenKind;

/// Whether a unary operator is `-`; else it is `!`.
pub fn is_minus(kind: TokenKind) -> bool
    ensures { result ≡ is_minus kind }
{
    matches!(kind, TokenKind::Minus)
}

/// The operator that a token is, if it is one that evaluates both sides.
pub fn operator_of(kind: TokenKind) -> Option<Operator>
    ensures { result ≡ operator_of kind }
{
    match kind {
        TokenKind::Equal => Some(Operator::Equal),
        TokenKind::NotEqual => Some(Operator::NotEqual),
        TokenKind::Less => Some(Operator::Less),
        TokenKind::LessEqual => Some(Operator::LessEqual),
        TokenKind::Greater => Some(Operator::Greater),
        TokenKind::GreaterEqual => Some(Operator::GreaterEqual),
        TokenKind::Plus => Some(Operator::Plus),
        TokenKind::Minus => Some(Operator::Minus),
        TokenKind::Star => Some(Operator::Times),
        TokenKind::Slash => Some(Operator::Divide),
        TokenKind::Percent => Some(Operator::Remainder),
        _ => None,
    }
}

/// Whether a token joins two sides: `&&`, `||`, or an operator that evaluates both.
pub fn joins(kind: TokenKind) -> bool
    ensures { result ≡ joins kind }
{
    matches!(kind, TokenKind::AndAnd | TokenKind::OrOr) || operator_of(kind).is_some()
}
