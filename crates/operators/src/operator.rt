// The operator at hand: strength, kind and side, longest glued form first.
#![tactic(auto, using(base::proofs::Laws::tests, crate::proofs::Stands::dot_stands), unfolding(crate::specs::Strength::or_op, crate::specs::Strength::arith_op, crate::specs::Strength::eq_op, crate::specs::Strength::dot_op, crate::specs::Strength::bang_op, crate::specs::Strength::current_op, crate::specs::Strength::on_side, crate::specs::Strength::right_of, crate::specs::Strength::is_range, crate::specs::Strength::operand_follows))]

ghost use Rattle.std.specs.Prelude.{◌≡◌};
ghost use Rattle.operators.specs.Strength.{left_op, assign_op, not_an_op, doubled_op, angle_op, eq_op, dot_op, bang_op, arith_op, op_of, current_op, right_of, is_range, operand_follows};

use crate::token_set::is_first;
use crate::{Op, Side};
use input::Tokens;
use input::syntax_kind::{
    AMP, AMP2, AMPEQ, AS_KW, BANG, CARET, CARETEQ, DOT, DOT2, DOT2EQ, EOF, EQ, EQ2, FAT_ARROW,
    GTEQ, IDENT, L_ANGLE, LTEQ, MINUS, MINUSEQ, NEQ, PERCENT, PERCENTEQ, PIPE, PIPE2, PIPEEQ, PLUS,
    PLUSEQ, R_ANGLE, SHL, SHLEQ, SHR, SHREQ, SLASH, SLASHEQ, STAR, STAREQ,
};

// Of a strength, to the left.
fn left(kind: u8, strength: u8) -> Op
    ensures { result ≡ left_op kind strength }
{
    Op {
        strength,
        kind,
        side: Side::Left,
    }
}

// Assignments have strength 1 and group to the right.
fn assignment(kind: u8) -> Op
    ensures { result ≡ assign_op kind }
{
    Op {
        strength: 1,
        kind,
        side: Side::Right,
    }
}

fn not_an_op() -> Op
    ensures { result ≡ not_an_op }
{
    left(EOF, 0)
}

// `|` or `&`: doubled, assigned, or alone.
fn doubled_op(
    tokens: &Tokens,
    at: usize,
    twice: u8,
    twice_strength: u8,
    assigned: u8,
    kind: u8,
    strength: u8,
) -> Op
    ensures { result ≡ doubled_op tokens.now at twice twice_strength assigned kind strength }
{
    if tokens.nth_at(at, twice) {
        return left(twice, twice_strength);
    }
    arith_op(tokens, at, assigned, kind, strength)
}

// `<` or `>`: a shift assigned, a shift, a comparison with equality, or alone.
fn angle_op(tokens: &Tokens, at: usize, assigned: u8, shift: u8, or_equal: u8, kind: u8) -> Op
    ensures { result ≡ angle_op tokens.now at assigned shift or_equal kind }
{
    if tokens.nth_at(at, assigned) {
        return assignment(assigned);
    }
    if tokens.nth_at(at, shift) {
        return left(shift, 9);
    }
    if tokens.nth_at(at, or_equal) {
        return left(or_equal, 5);
    }
    left(kind, 5)
}

// `=>` is no operator. This function and the next two differ in shape, and not in numbers alone.
fn eq_op(tokens: &Tokens, at: usize) -> Op
    ensures { result ≡ eq_op tokens.now at }
{
    if tokens.nth_at(at, EQ2) {
        return left(EQ2, 5);
    }
    if tokens.nth_at(at, FAT_ARROW) {
        return not_an_op();
    }
    assignment(EQ)
}

// `...` reads as `..`.
fn dot_op(tokens: &Tokens, at: usize) -> Op
    ensures { result ≡ dot_op tokens.now at }
{
    if tokens.nth_at(at, DOT2EQ) {
        return left(DOT2EQ, 2);
    }
    if tokens.nth_at(at, DOT2) {
        return left(DOT2, 2);
    }
    not_an_op()
}

fn bang_op(tokens: &Tokens, at: usize) -> Op
    ensures { result ≡ bang_op tokens.now at }
{
    if tokens.nth_at(at, NEQ) {
        return left(NEQ, 5);
    }
    not_an_op()
}

// An operator that has an assignment of its own.
fn arith_op(tokens: &Tokens, at: usize, assigned: u8, kind: u8, strength: u8) -> Op
    ensures { result ≡ arith_op tokens.now at assigned kind strength }
{
    if tokens.nth_at(at, assigned) {
        return assignment(assigned);
    }
    left(kind, strength)
}

// By the raw kind at hand, then the glued forms. `->` reads as `-`.
#[tactic(auto, unfolding(crate::specs::Strength::op_of, crate::specs::Strength::pipe_op, crate::specs::Strength::amp_op, crate::specs::Strength::r_angle_op, crate::specs::Strength::l_angle_op, base::specs::Base::whether))]
fn op_of(tokens: &Tokens, at: usize, kind: u8) -> Op
    ensures { result ≡ op_of tokens.now at kind }
{
    match kind {
        PIPE => doubled_op(tokens, at, PIPE2, 3, PIPEEQ, PIPE, 6),
        R_ANGLE => angle_op(tokens, at, SHREQ, SHR, GTEQ, R_ANGLE),
        EQ => eq_op(tokens, at),
        L_ANGLE => angle_op(tokens, at, SHLEQ, SHL, LTEQ, L_ANGLE),
        PLUS => arith_op(tokens, at, PLUSEQ, PLUS, 10),
        CARET => arith_op(tokens, at, CARETEQ, CARET, 7),
        PERCENT => arith_op(tokens, at, PERCENTEQ, PERCENT, 11),
        AMP => doubled_op(tokens, at, AMP2, 4, AMPEQ, AMP, 8),
        SLASH => arith_op(tokens, at, SLASHEQ, SLASH, 11),
        STAR => arith_op(tokens, at, STAREQ, STAR, 11),
        DOT => dot_op(tokens, at),
        BANG => bang_op(tokens, at),
        MINUS => arith_op(tokens, at, MINUSEQ, MINUS, 10),
        AS_KW => left(AS_KW, 12),
        _ => not_an_op(),
    }
}

// The operator at a position.
pub fn current_op(tokens: &Tokens, at: usize) -> Op
    ensures { result ≡ current_op tokens.now at }
{
    op_of(tokens, at, tokens.kind_at(at))
}

// The strength at which the right operand is read.
pub fn right_of(op: Op) -> u16
    ensures { result ≡ right_of op }
{
    match op.side {
        Side::Left => u16::from(op.strength) + 1,
        Side::Right => u16::from(op.strength),
    }
}

pub fn is_range(op: Op) -> bool
    ensures { result ≡ is_range op }
{
    matches!(op.kind, DOT2 | DOT2EQ)
}

// A range has a right operand unless no first token follows, or `.` and a name. `stands` also says that a next position can be counted.
pub fn operand_follows(tokens: &Tokens, at: usize) -> bool
    ensures { result ≡ operand_follows tokens.now at }
{
    let first = is_first(tokens.kind_at(at));
    if first && tokens.stands(at, DOT) {
        return tokens.kind_at(at + 1) != IDENT;
    }
    first
}
