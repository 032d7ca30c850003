// Sets of raw kinds. Each is one `matches!`.
#![tactic(auto, using(base::proofs::Laws::tests), unfolding(crate::specs::TokenSet::is_first, crate::specs::TokenSet::is_closing, crate::specs::TokenSet::ends_arguments, crate::specs::TokenSet::is_prefix, crate::specs::TokenSet::is_field_name, crate::specs::TokenSet::outside_atom, crate::specs::TokenSet::outside_type))]

ghost use Rattle.std.specs.Prelude.{◌≡◌};
ghost use Rattle.operators.specs.TokenSet.{is_first, is_closing, ends_arguments, is_prefix, is_field_name, outside_atom, outside_type};

use input::syntax_kind::{
    AMP, BANG, COLON, DOT, EOF, FALSE_KW, FLOAT_NUMBER, IDENT, INT_NUMBER, L_ANGLE, L_BRACK,
    L_PAREN, MINUS, PIPE, R_BRACK, R_PAREN, STAR, STRING, TRUE_KW,
};

// The first tokens of an expression.
pub fn is_first(kind: u8) -> bool
    ensures { result ≡ is_first kind }
{
    matches!(
        kind,
        IDENT
            | INT_NUMBER
            | FLOAT_NUMBER
            | STRING
            | TRUE_KW
            | FALSE_KW
            | L_PAREN
            | L_BRACK
            | COLON
            | AMP
            | PIPE
            | STAR
            | BANG
            | DOT
            | MINUS
            | L_ANGLE
    )
}

// Where error 1 takes nothing.
pub fn is_closing(kind: u8) -> bool
    ensures { result ≡ is_closing kind }
{
    matches!(kind, R_PAREN | R_BRACK)
}

// Where no argument is read.
pub fn ends_arguments(kind: u8) -> bool
    ensures { result ≡ ends_arguments kind }
{
    matches!(kind, R_PAREN | EOF)
}

pub fn is_prefix(kind: u8) -> bool
    ensures { result ≡ is_prefix kind }
{
    matches!(kind, STAR | BANG | MINUS)
}

pub fn is_field_name(kind: u8) -> bool
    ensures { result ≡ is_field_name kind }
{
    matches!(kind, IDENT | INT_NUMBER)
}

// Atoms that the cut leaves out.
pub fn outside_atom(kind: u8) -> bool
    ensures { result ≡ outside_atom kind }
{
    matches!(kind, PIPE | L_ANGLE | COLON | L_BRACK)
}

// Types that the cut leaves out.
pub fn outside_type(kind: u8) -> bool
    ensures { result ≡ outside_type kind }
{
    matches!(
        kind,
        AMP | L_PAREN | L_BRACK | STAR | BANG | L_ANGLE | COLON
    )
}
