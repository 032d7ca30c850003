// The lent tokens: kinds and joint bytes, glued tokens, and the checks of a token list.
#![tactic(auto)]

pub mod syntax_kind;

ghost use Rattle.std.specs.Prelude.{◌≡◌, ℕ, true, ◌+◌, ◌-◌, ◌^◌, ◌<◌, ◌≤◌, length, get_or};
ghost use Rattle.input.specs.SyntaxKind.{EOF, MINUSEQ, SHREQ};
ghost use Rattle.input.specs.Input.{lent, stands, within, is_raw, is_glued, is_kind, is_node, is_code, row_of, row_parts, stands_joint, follow, present, width_of, width_limit, first_off, refusal, lengths_of, bytes_of, tokens_of, ahead};

use std::marker::Model;
use syntax_kind::*;

// A raw position in a token list. Position, Depth and Width are three types with a constructor each, and no one generic type: each limit is
// named beside the kind of number that it limits.
#[derive(Clone, Copy, Debug, PartialEq, Eq)]
pub struct Position(pub usize);

impl Position {
    // The most tokens that a list has.
    pub const LIMIT: usize = 4096;

    pub fn new(at: usize) -> Position
        ensures { result.0 ≡ at }
    {
        Position(at)
    }
}

// How many readings of an expression may still be opened.
#[derive(Clone, Copy, Debug, PartialEq, Eq)]
pub struct Depth(pub usize);

impl Depth {
    pub const LIMIT: usize = 128;

    pub fn new(left: usize) -> Depth
        ensures { result.0 ≡ left }
    {
        Depth(left)
    }
}

// How many raw tokens a token is made of.
#[derive(Clone, Copy, Debug, PartialEq, Eq)]
pub struct Width(pub u8);

impl Width {
    pub const LIMIT: u8 = 3;

    pub fn new(parts: u8) -> Width
        ensures { result.0 ≡ parts }
    {
        Width(parts)
    }
}

// A row of the table of glued tokens; the third part of a row of width 2 is EOF, and no Option: a row of kind, width and raw parts is the
// form that the project names for this table.
#[derive(Clone, Copy, Debug, PartialEq, Eq)]
pub struct Glued {
    pub kind: u8,
    pub width: Width,
    pub first: u8,
    pub second: u8,
    pub third: u8,
}

// A number of the table of refusals, and its place. The number is a byte and no enum, since `answers::put_refusal` and the calls
// above it promise the text of every number.
#[derive(Clone, Copy, Debug, PartialEq, Eq)]
pub struct Refusal {
    pub number: u8,
    pub place: usize,
}

impl Refusal {
    pub fn new(number: u8, place: usize) -> Refusal
        ensures { result ≡ refusal number place }
    {
        Refusal { number, place }
    }
}

// A row of two parts, and of three.
macro_rules! row {
    ($kind:ident: $first:ident $second:ident) => {
        Glued {
            kind: $kind,
            width: Width(2),
            first: $first,
            second: $second,
            third: EOF,
        }
    };
    ($kind:ident: $first:ident $second:ident $third:ident) => {
        Glued {
            kind: $kind,
            width: Width(3),
            first: $first,
            second: $second,
            third: $third,
        }
    };
}

// "40 to 63 in order `-=` `->` `::` `!=` `..` `*=` `/=` `&&` `&=` `%=` `^=` `+=` `<<` `<=` `==` `=>` `>=` `>>` `|=` `||` `...` `..=` `<<=` `>>=`."
const GLUED: [Glued; 24] = [
    row!(MINUSEQ: MINUS EQ),
    row!(THIN_ARROW: MINUS R_ANGLE),
    row!(COLON2: COLON COLON),
    row!(NEQ: BANG EQ),
    row!(DOT2: DOT DOT),
    row!(STAREQ: STAR EQ),
    row!(SLASHEQ: SLASH EQ),
    row!(AMP2: AMP AMP),
    row!(AMPEQ: AMP EQ),
    row!(PERCENTEQ: PERCENT EQ),
    row!(CARETEQ: CARET EQ),
    row!(PLUSEQ: PLUS EQ),
    row!(SHL: L_ANGLE L_ANGLE),
    row!(LTEQ: L_ANGLE EQ),
    row!(EQ2: EQ EQ),
    row!(FAT_ARROW: EQ R_ANGLE),
    row!(GTEQ: R_ANGLE EQ),
    row!(SHR: R_ANGLE R_ANGLE),
    row!(PIPEEQ: PIPE EQ),
    row!(PIPE2: PIPE PIPE),
    row!(DOT3: DOT DOT DOT),
    row!(DOT2EQ: DOT DOT EQ),
    row!(SHLEQ: L_ANGLE L_ANGLE EQ),
    row!(SHREQ: R_ANGLE R_ANGLE EQ),
];

// Both bounds by hand: with `contains` goals about the library's order of bytes stayed open.
fn within(low: u8, high: u8, byte: u8) -> bool
    ensures { result ≡ within low high byte }
{
    low <= byte && byte <= high
}

pub fn is_raw(kind: u8) -> bool
    ensures { result ≡ is_raw kind }
{
    within(IDENT, QUESTION, kind)
}

pub fn is_glued(kind: u8) -> bool
    ensures { result ≡ is_glued kind }
{
    within(MINUSEQ, SHREQ, kind)
}

// "take kind, 1..29 or 40..63"
pub fn is_kind(kind: u8) -> bool
    ensures { result ≡ is_kind kind }
{
    is_raw(kind) || is_glued(kind)
}

pub fn is_node(node: u8) -> bool
    ensures { result ≡ is_node node }
{
    within(ERROR, PATH_TYPE, node)
}

pub fn is_code(code: u8) -> bool
    ensures { result ≡ is_code code }
{
    within(EXPECTED_EXPRESSION, EXPECTED_COMMA, code)
}

// The row of a glued kind.
fn row_of(kind: u8) -> Glued
    requires { (MINUSEQ ≤ kind) × (kind ≤ SHREQ) }
    ensures { result ≡ row_of kind }
{
    GLUED[usize::from(kind - MINUSEQ)]
}

// How many raw tokens a kind is made of.
pub fn width_of(kind: u8) -> u8
    ensures value { result ≡ width_of kind }
    ensures lower_bound { (1 ≤ result) × (result ≤ width_limit) }
{
    if is_glued(kind) {
        row_of(kind).width.0
    } else {
        1
    }
}

// The byte at a position of a list, 0 past its end: one call of the library, under a name, as `event::event_at` and `operand::step_at` are.
fn byte_at(list: &[u8], at: usize) -> u8
    ensures { result ≡ get_or list.now at 0 }
{
    list.get(at).copied().unwrap_or(0)
}

// The "first such index": the first byte from a position on that is not low..high; the end where there is none.
fn first_outside(list: &[u8], low: u8, high: u8, at: usize, end: usize) -> usize
    requires { at ≤ end }
    ensures { result ≡ first_off (within low high) list.now at (end - at) }
{
    for i in at..end {
        if !within(low, high, byte_at(list, i)) {
            return i;
        }
    }
    end
}

// The tokens lent: a list of raw kinds, and a list of bytes that say which tokens touch the next.
#[derive(Drop)]
pub struct Tokens<'a> {
    kinds: &'a [u8],
    joints: &'a [u8],
}

impl<'a> Model for Tokens<'a> {
    ghost use Rattle.input.specs.Lent.{Tokens};

    ghost Value = { Tokens };

    ghost view = { λ ts. record { kinds = ts.kinds.now; joints = ts.joints.now } };
}

impl<'a> Tokens<'a> {
    pub fn new(kinds: &'a [u8], joints: &'a [u8]) -> Tokens<'a>
        ensures { result ≡ lent kinds.now joints.now }
    {
        Tokens { kinds, joints }
    }

    // The list of kinds, and the list of joint bytes, as they are lent.
    pub fn kinds(&self) -> &'a [u8]
        ensures { result.now ≡ self.now.kinds }
    {
        &self.kinds[..]
    }

    pub fn joints(&self) -> &'a [u8]
        ensures { result.now ≡ self.now.joints }
    {
        &self.joints[..]
    }

    // How many there are.
    pub fn len(&self) -> usize
        ensures value { result ≡ length self.now.kinds }
        ensures upper_bound { result < 2 ^ 63 }
    {
        self.kinds.len()
    }

    // "Past the end the kind is 0 (EOF)."
    pub fn kind_at(&self, at: usize) -> u8
        ensures { result ≡ get_or self.now.kinds at EOF }
    {
        byte_at(self.kinds, at)
    }

    pub fn joint_at(&self, at: usize) -> u8
        ensures { result ≡ get_or self.now.joints at 0 }
    {
        byte_at(self.joints, at)
    }

    // Whether a raw kind stands at a position of the list.
    pub fn stands(&self, at: usize, kind: u8) -> bool
        ensures value { result ≡ stands self.now at kind }
        ensures at_bound { result ≡ true → at < 2 ^ 63 }
    {
        at < self.len() && self.kind_at(at) == kind
    }

    // A raw kind that stands at a position, and that the next token touches.
    fn stands_joint(&self, at: usize, kind: u8) -> bool
        ensures value { result ≡ stands_joint self.now at kind }
        ensures at_bound { result ≡ true → at < 2 ^ 63 }
    {
        self.stands(at, kind) && self.joint_at(at) == 1
    }

    // "A glued token is present when its parts follow one another, all but the last joint."
    fn parts_at(&self, at: usize, row: Glued) -> bool
        ensures value { result ≡ follow self.now at (row_parts row) }
        ensures at_bound { result ≡ true → at < 2 ^ 63 }
    {
        if !self.stands_joint(at, row.first) {
            return false;
        }
        if row.width.0 == 2 {
            return self.stands(at + 1, row.second);
        }
        self.stands_joint(at + 1, row.second) && self.stands(at + 2, row.third)
    }

    // Whether a kind, raw or glued, is present at a position.
    pub fn nth_at(&self, at: usize, kind: u8) -> bool
        ensures value { result ≡ present self.now at kind }
        ensures at_bound { result ≡ true → at < 2 ^ 63 }
    {
        if is_glued(kind) {
            return self.parts_at(at, row_of(kind));
        }
        self.stands(at, kind)
    }

    // 3: "lists of unequal length, or n above 4,096"
    pub fn lengths(&self) -> Result<(), Refusal>
        ensures { result ≡ lengths_of self.now }
    {
        if self.kinds.len() != self.joints.len() || Position::LIMIT < self.kinds.len() {
            return Err(Refusal::new(BAD_LENGTH, 0));
        }
        Ok(())
    }

    // 1, then 2, for the tokens from a position to an end.
    fn check_bytes(&self, at: usize, end: usize) -> Result<(), Refusal>
        requires { at ≤ end }
        ensures { result ≡ bytes_of self.now at (end - at) }
    {
        let kind = first_outside(self.kinds, IDENT, QUESTION, at, end);
        if kind < end {
            return Err(Refusal::new(BAD_KIND, kind));
        }
        let joint = first_outside(self.joints, 0, 1, at, end);
        if joint < end {
            return Err(Refusal::new(BAD_JOINT, joint));
        }
        Ok(())
    }

    // The checks of a whole list, in the order 3, 1, 2.
    pub fn check(&self) -> Result<(), Refusal>
        ensures { result ≡ tokens_of self.now }
    {
        self.lengths()?;
        self.check_bytes(0, self.len())
    }

    // 1, then 2, "looking only at the (up to three) tokens from the position on".
    pub fn check_ahead(&self, at: usize) -> Result<(), Refusal>
        ensures { result ≡ bytes_of self.now at (ahead self.now at) }
    {
        if self.len() <= at {
            return Ok(());
        }
        let left = self.len() - at;
        self.check_bytes(at, at + left.min(usize::from(Width::LIMIT)))
    }
}
