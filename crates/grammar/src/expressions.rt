// Expressions: operators by strength, prefixes, postfix forms, arguments. A contract speaks of the tokens and of the events, so a function is
// lent both where its body needs one.
ghost use Rattle.std.specs.Prelude.{◌≡◌};
ghost use Rattle.parser.specs.Prog.{run};
ghost use Rattle.atoms.specs.Views.{moved_reply, turn_reply};
ghost use Rattle.grammar.specs.Views.{postfix_reply, args_reply, postfix_of};
ghost use Rattle.grammar.specs.Forms.{dot_form_at, form_at, dots_at, call_head, any_call};
ghost use Rattle.grammar.specs.Expressions.{after_argument, argument, arguments, arg_list, index_expr, try_expr, dotted, await_expr, no_generics, method_name, method_head, float_field, named_field, no_field, field, field_expr, begin_ref, paren_tail, is_method, is_dots, name_at, postfix_turn, postfix_expr, paren_expr, atom_expr, ref_expr, prefix_expr, leading_range, lhs, bin_expr, range_expr, operator_turn, operators, extended, expression, no_expression, expr_bp, plain_atom, given_up, lone_comma, lone_dot, no_comma, atom_postfix};

use crate::{Args, Postfix};
use atoms::Turn;
use atoms::atom::{begin, bump, closing, err_and_bump, err_recover, lead, leaf, turn_of};
use atoms::paths::path_node;
use atoms::types::cast_expr;
use event::State;
use input::syntax_kind::{
    AMP, ARG_LIST, AS_KW, AWAIT_EXPR, AWAIT_KW, BIN_EXPR, CALL_EXPR, COLON2, COMMA, DOT, DOT2,
    DOT2EQ, EXPECTED_COMMA, EXPECTED_FIELD, EXPECTED_METHOD_NAME, EXPECTED_R_BRACK,
    EXPECTED_R_PAREN, FIELD_EXPR, FLOAT_NUMBER, IDENT, INDEX_EXPR, L_BRACK, L_PAREN, LITERAL,
    METHOD_CALL_EXPR, MUT_KW, NAME_REF, OUTSIDE_CUT, PAREN_EXPR, PATH_EXPR, PREFIX_EXPR, QUESTION,
    R_BRACK, R_PAREN, RANGE_EXPR, REF_EXPR, TOO_DEEP, TRY_EXPR, UNFIT,
};
use input::{Depth, Refusal, Tokens};
use operators::Op;
use operators::operator::{current_op, is_range, operand_follows, right_of};
use operators::token_set::{ends_arguments, is_field_name, is_first, is_prefix, outside_atom};
use parser::inner::{abandon, complete, eat, error, extend_to, precede, split_float, start};
use parser::{CompletedMarker, Marker};

// The strength of the whole, of the operand of a leading range, and of a prefix operand.
const TOP: u16 = 1;

const RANGE_OPERAND: u16 = 2;

const OPERAND: u16 = 255;

// Reads an expression whose operators have at least strength b. e.g. 1 + 2 * 3
#[cycle(readers)]
pub fn expr_bp(
    tokens: &Tokens,
    events: &mut [u64],
    state: State,
    b: u16,
    depth: Depth,
) -> Result<(State, Option<CompletedMarker>), Refusal>
    ensures { (result, events.new) ≡ run tokens.now (expr_bp depth.0 tokens.now b) state events.old }
{
    if depth.0 == 0 {
        return Err(Refusal::new(TOO_DEEP, state.pos.0));
    }
    let inner = Depth(depth.0 - 1);
    let (state, m) = start(events, state)?;
    if is_first(tokens.kind_at(state.pos.0)) {
        return expr(tokens, events, state, m, b, inner);
    }
    no_expression(tokens, events, state, m)
}

// The left part and the operators that follow it.
#[cycle(readers)]
fn expr(
    tokens: &Tokens,
    events: &mut [u64],
    state: State,
    m: Marker,
    b: u16,
    inner: Depth,
) -> Result<(State, Option<CompletedMarker>), Refusal>
    ensures { (result, events.new) ≡ run tokens.now (expression tokens.now (expr_bp inner.0 tokens.now) b m) state events.old }
{
    let (state, read) = begun(tokens, events, state, m, inner)?;
    let Some(lhs) = read else {
        return Ok((state, None));
    };
    let (state, m) = ops(tokens, events, state, lhs, b, inner)?;
    Ok((state, Some(m)))
}

// Error 1 instead of an expression.
fn no_expression(
    tokens: &Tokens,
    events: &mut [u64],
    state: State,
    m: Marker,
) -> Result<(State, Option<CompletedMarker>), Refusal>
    ensures { (result, events.new) ≡ run tokens.now (no_expression tokens.now m) state events.old }
{
    let state = err_recover(tokens, events, state)?;
    given_up(tokens, events, state, m)
}

// The marker of a reading that yields no expression.
fn given_up(
    tokens: &Tokens,
    events: &mut [u64],
    state: State,
    m: Marker,
) -> Result<(State, Option<CompletedMarker>), Refusal>
    ensures { (result, events.new) ≡ run tokens.now (given_up m) state events.old }
{
    let state = abandon(events, state, m)?;
    Ok((state, None))
}

// The left part, extended to the reading's marker. Where it yields no expression, the marker is abandoned.
#[cycle(readers)]
fn begun(
    tokens: &Tokens,
    events: &mut [u64],
    state: State,
    m: Marker,
    inner: Depth,
) -> Result<(State, Option<CompletedMarker>), Refusal>
    ensures { (result, events.new) ≡ run tokens.now (extended tokens.now (expr_bp inner.0 tokens.now) m) state events.old }
{
    let (state, read) = lhs(tokens, events, state, inner)?;
    let Some(c) = read else {
        return given_up(tokens, events, state, m);
    };
    let (state, c) = extend_to(events, state, c, m)?;
    Ok((state, Some(c)))
}

// The operators of at least strength b that follow an expression. This loop, those of `postfix_expr` and `args`, and that of
// a path's names stay four: one loop for all would be handed its turn as a closure over the lent events, and is no plainer.
#[cycle(readers)]
fn ops(
    tokens: &Tokens,
    events: &mut [u64],
    state: State,
    first: CompletedMarker,
    b: u16,
    inner: Depth,
) -> Result<(State, CompletedMarker), Refusal>
    ensures { (result, events.new) ≡ run tokens.now (operators tokens.now (expr_bp inner.0 tokens.now) b first) state events.old }
{
    let mut s = state;
    let mut m = first;
    loop {
        match oper(tokens, events, s, m, b, inner)? {
            Turn::Again(s1, m1) => {
                s = s1;
                m = m1;
            }
            Turn::Done(s1, m1) => return Ok((s1, m1)),
        }
    }
}

// One operator, or the end.
#[cycle(readers)]
fn oper(
    tokens: &Tokens,
    events: &mut [u64],
    state: State,
    m: CompletedMarker,
    b: u16,
    inner: Depth,
) -> Result<Turn, Refusal>
    ensures { (turn_reply result, events.new) ≡ run tokens.now (operator_turn tokens.now (expr_bp inner.0 tokens.now) b m) state events.old }
{
    let op = current_op(tokens, state.pos.0);
    if u16::from(op.strength) < b {
        return Ok(Turn::Done(state, m));
    }
    if op.kind == AS_KW {
        return turn_of(cast_expr(tokens, events, state, m));
    }
    if is_range(op) {
        return range(tokens, events, state, op, m, inner);
    }
    turn_of(infixed(tokens, events, state, op, m, inner))
}

// e.g. a * b
#[cycle(readers)]
fn infixed(
    tokens: &Tokens,
    events: &mut [u64],
    state: State,
    op: Op,
    m: CompletedMarker,
    inner: Depth,
) -> Result<(State, CompletedMarker), Refusal>
    ensures { (result, events.new) ≡ run tokens.now (bin_expr tokens.now (expr_bp inner.0 tokens.now) op m) state events.old }
{
    let (state, o) = lead(tokens, events, state, m, op.kind)?;
    let (state, _) = expr_bp(tokens, events, state, right_of(op), inner)?;
    complete(events, state, o, BIN_EXPR)
}

// e.g. 1..2, 1..
#[cycle(readers)]
fn range(
    tokens: &Tokens,
    events: &mut [u64],
    state: State,
    op: Op,
    m: CompletedMarker,
    inner: Depth,
) -> Result<Turn, Refusal>
    ensures { (turn_reply result, events.new) ≡ run tokens.now (range_expr tokens.now (expr_bp inner.0 tokens.now) op m) state events.old }
{
    let (state, o) = lead(tokens, events, state, m, op.kind)?;
    if !operand_follows(tokens, state.pos.0) {
        let (state, m) = complete(events, state, o, RANGE_EXPR)?;
        return Ok(Turn::Done(state, m));
    }
    let (state, _) = expr_bp(tokens, events, state, right_of(op), inner)?;
    turn_of(complete(events, state, o, RANGE_EXPR))
}

// The left part: a prefix, a leading range, or an atom with its postfix forms.
#[cycle(readers)]
fn lhs(
    tokens: &Tokens,
    events: &mut [u64],
    state: State,
    inner: Depth,
) -> Result<(State, Option<CompletedMarker>), Refusal>
    ensures { (result, events.new) ≡ run tokens.now (lhs tokens.now (expr_bp inner.0 tokens.now)) state events.old }
{
    let at = state.pos.0;
    let kind = tokens.kind_at(at);
    if kind == AMP {
        let (state, m) = refer(tokens, events, state, inner)?;
        return Ok((state, Some(m)));
    }
    if is_prefix(kind) {
        let (state, m) = unary(tokens, events, state, kind, inner)?;
        return Ok((state, Some(m)));
    }
    let Some(dots) = dots_at(tokens, at) else {
        return atoms(tokens, events, state, inner);
    };
    let (state, m) = leading(tokens, events, state, dots, inner)?;
    Ok((state, Some(m)))
}

// `..=` or `..` at a position.
fn dots_at(tokens: &Tokens, at: usize) -> Option<u8>
    ensures { result ≡ dots_at tokens.now at }
{
    if tokens.nth_at(at, DOT2EQ) {
        return Some(DOT2EQ);
    }
    if tokens.nth_at(at, DOT2) {
        return Some(DOT2);
    }
    None
}

#[cycle(readers)]
fn atoms(
    tokens: &Tokens,
    events: &mut [u64],
    state: State,
    inner: Depth,
) -> Result<(State, Option<CompletedMarker>), Refusal>
    ensures { (result, events.new) ≡ run tokens.now (atom_postfix tokens.now (expr_bp inner.0 tokens.now)) state events.old }
{
    let (state, read) = atom_expr(tokens, events, state, inner)?;
    let Some(m) = read else {
        return Ok((state, None));
    };
    let (state, m) = postfix_expr(tokens, events, state, m, inner)?;
    Ok((state, Some(m)))
}

fn begin_ref(tokens: &Tokens, events: &mut [u64], state: State) -> Result<(State, Marker), Refusal>
    ensures { (result, events.new) ≡ run tokens.now (begin_ref) state events.old }
{
    let (state, m) = begin(tokens, events, state, AMP)?;
    let state = eat(tokens, events, state, MUT_KW)?.unwrap_or(state);
    Ok((state, m))
}

// e.g. &1, &mut a
#[cycle(readers)]
fn refer(
    tokens: &Tokens,
    events: &mut [u64],
    state: State,
    inner: Depth,
) -> Result<(State, CompletedMarker), Refusal>
    ensures { (result, events.new) ≡ run tokens.now (ref_expr tokens.now (expr_bp inner.0 tokens.now)) state events.old }
{
    let (state, m) = begin_ref(tokens, events, state)?;
    let (state, _) = expr_bp(tokens, events, state, OPERAND, inner)?;
    complete(events, state, m, REF_EXPR)
}

// e.g. **&1, !!true, --1
#[cycle(readers)]
fn unary(
    tokens: &Tokens,
    events: &mut [u64],
    state: State,
    kind: u8,
    inner: Depth,
) -> Result<(State, CompletedMarker), Refusal>
    ensures { (result, events.new) ≡ run tokens.now (prefix_expr tokens.now (expr_bp inner.0 tokens.now) kind) state events.old }
{
    let (state, m) = begin(tokens, events, state, kind)?;
    let (state, _operand) = expr_bp(tokens, events, state, OPERAND, inner)?;
    complete(events, state, m, PREFIX_EXPR)
}

// e.g. .., ..=1
#[cycle(readers)]
fn leading(
    tokens: &Tokens,
    events: &mut [u64],
    state: State,
    kind: u8,
    inner: Depth,
) -> Result<(State, CompletedMarker), Refusal>
    ensures { (result, events.new) ≡ run tokens.now (leading_range tokens.now (expr_bp inner.0 tokens.now) kind) state events.old }
{
    let (state, m) = begin(tokens, events, state, kind)?;
    if !operand_follows(tokens, state.pos.0) {
        return complete(events, state, m, RANGE_EXPR);
    }
    let (state, _) = expr_bp(tokens, events, state, RANGE_OPERAND, inner)?;
    complete(events, state, m, RANGE_EXPR)
}

// The postfix forms that follow an expression. e.g. a(1)[2].b?
// A turn gives the next state, as in `ops`.
#[cycle(readers)]
fn postfix_expr(
    tokens: &Tokens,
    events: &mut [u64],
    state: State,
    first: CompletedMarker,
    inner: Depth,
) -> Result<(State, CompletedMarker), Refusal>
    ensures { (result, events.new) ≡ run tokens.now (postfix_expr tokens.now (expr_bp inner.0 tokens.now) first) state events.old }
{
    let mut s = state;
    let mut m = first;
    let mut recovery = false;
    loop {
        match tail(tokens, events, s, m, recovery, inner)? {
            Postfix::Again(s1, m1, next) => {
                s = s1;
                m = m1;
                recovery = next;
            }
            Postfix::Done(s1, m1) => return Ok((s1, m1)),
        }
    }
}

// One postfix form, or the end.
#[cycle(readers)]
fn tail(
    tokens: &Tokens,
    events: &mut [u64],
    state: State,
    m: CompletedMarker,
    recovery: bool,
    inner: Depth,
) -> Result<Postfix, Refusal>
    ensures { (postfix_reply result, events.new) ≡ run tokens.now (postfix_turn tokens.now (expr_bp inner.0 tokens.now) (m, recovery)) state events.old }
{
    let Some(node) = form_at(tokens, recovery, state.pos.0) else {
        return Ok(Postfix::Done(state, m));
    };
    match node {
        INDEX_EXPR => postfix_of(index_expr(tokens, events, state, m, inner)),
        TRY_EXPR => postfix_of(try_expr(tokens, events, state, m)),
        AWAIT_EXPR => postfix_of(await_expr(tokens, events, state, m, recovery)),
        FIELD_EXPR => field_expr(tokens, events, state, m, recovery),
        _ => postfix_of(call_expr(tokens, events, state, m, node, recovery, inner)),
    }
}

// A node after which the postfix forms go on, with their dot still to be read.
fn postfix_of(node: Result<(State, CompletedMarker), Refusal>) -> Result<Postfix, Refusal>
    ensures { result ≡ postfix_of node }
{
    let (state, m) = node?;
    Ok(Postfix::Again(state, m, false))
}

// The node that the postfix form at a position makes; behind a float's dot only a method call, `.await` or a field.
fn form_at(tokens: &Tokens, recovery: bool, at: usize) -> Option<u8>
    ensures { result ≡ form_at tokens.now recovery at }
{
    if recovery {
        return dot_form_at(tokens, recovery, at);
    }
    match tokens.kind_at(at) {
        L_PAREN => Some(CALL_EXPR),
        L_BRACK => Some(INDEX_EXPR),
        DOT => dot_form_at(tokens, recovery, at),
        QUESTION => Some(TRY_EXPR),
        _ => None,
    }
}

// A method call, `.await` or a field; the postfix forms end before `..` and `..=`.
fn dot_form_at(tokens: &Tokens, recovery: bool, at: usize) -> Option<u8>
    ensures { result ≡ dot_form_at tokens.now recovery at }
{
    let name = name_at(tokens, recovery, at);
    if is_method(tokens, name) {
        return Some(METHOD_CALL_EXPR);
    }
    if tokens.kind_at(name) == AWAIT_KW {
        return Some(AWAIT_EXPR);
    }
    if is_dots(tokens, at) {
        return None;
    }
    Some(FIELD_EXPR)
}

// Where the name after a dot stands; past the end there is none.
fn name_at(tokens: &Tokens, recovery: bool, at: usize) -> usize
    ensures { result ≡ name_at tokens.now recovery at }
{
    if recovery {
        return at;
    }
    if at < tokens.len() {
        return at + 1;
    }
    at
}

// A name with `(` or `::` behind it, or `(` itself.
fn is_method(tokens: &Tokens, at: usize) -> bool
    ensures { result ≡ is_method tokens.now at }
{
    let kind = tokens.kind_at(at);
    if kind == L_PAREN {
        return true;
    }
    if !tokens.stands(at, IDENT) {
        return false;
    }
    tokens.kind_at(at + 1) == L_PAREN || tokens.nth_at(at + 1, COLON2)
}

fn is_dots(tokens: &Tokens, at: usize) -> bool
    ensures { result ≡ is_dots tokens.now at }
{
    tokens.nth_at(at, DOT2EQ) || tokens.nth_at(at, DOT2)
}

// A call or a method call. e.g. f(1, 2,), x.foo(), x.0. call()
#[cycle(readers)]
fn call_expr(
    tokens: &Tokens,
    events: &mut [u64],
    state: State,
    m: CompletedMarker,
    node: u8,
    recovery: bool,
    inner: Depth,
) -> Result<(State, CompletedMarker), Refusal>
    ensures { (result, events.new) ≡ run tokens.now (any_call tokens.now (expr_bp inner.0 tokens.now) node recovery m) state events.old }
{
    let (state, o) = call_head(tokens, events, state, m, node, recovery)?;
    let (state, _) = arg_list(tokens, events, state, inner)?;
    complete(events, state, o, node)
}

// What stands before the arguments.
fn call_head(
    tokens: &Tokens,
    events: &mut [u64],
    state: State,
    m: CompletedMarker,
    node: u8,
    recovery: bool,
) -> Result<(State, Marker), Refusal>
    ensures { (result, events.new) ≡ run tokens.now (call_head tokens.now node recovery m) state events.old }
{
    if node == CALL_EXPR {
        return precede(events, state, m);
    }
    method_head(tokens, events, state, m, recovery)
}

// e.g. x[1][2]
#[cycle(readers)]
fn index_expr(
    tokens: &Tokens,
    events: &mut [u64],
    state: State,
    m: CompletedMarker,
    inner: Depth,
) -> Result<(State, CompletedMarker), Refusal>
    ensures { (result, events.new) ≡ run tokens.now (index_expr tokens.now (expr_bp inner.0 tokens.now) m) state events.old }
{
    let (state, o) = lead(tokens, events, state, m, L_BRACK)?;
    let (state, _) = expr_bp(tokens, events, state, TOP, inner)?;
    closing(
        tokens,
        events,
        state,
        R_BRACK,
        EXPECTED_R_BRACK,
        o,
        INDEX_EXPR,
    )
}

// A start before a node, and its dot unless a float's was read.
fn dotted(
    tokens: &Tokens,
    events: &mut [u64],
    state: State,
    m: CompletedMarker,
    recovery: bool,
) -> Result<(State, Marker), Refusal>
    ensures { (result, events.new) ≡ run tokens.now (dotted recovery m) state events.old }
{
    if recovery {
        return precede(events, state, m);
    }
    lead(tokens, events, state, m, DOT)
}

fn method_head(
    tokens: &Tokens,
    events: &mut [u64],
    state: State,
    m: CompletedMarker,
    recovery: bool,
) -> Result<(State, Marker), Refusal>
    ensures { (result, events.new) ≡ run tokens.now (method_head tokens.now recovery m) state events.old }
{
    let (state, o) = dotted(tokens, events, state, m, recovery)?;
    let state = method_name(tokens, events, state)?;
    Ok((state, o))
}

fn method_name(tokens: &Tokens, events: &mut [u64], state: State) -> Result<State, Refusal>
    ensures { (moved_reply result, events.new) ≡ run tokens.now (method_name tokens.now) state events.old }
{
    if tokens.kind_at(state.pos.0) != IDENT {
        return error(events, state, EXPECTED_METHOD_NAME);
    }
    let (state, _) = leaf(tokens, events, state, NAME_REF)?;
    no_generics(tokens, events, state)
}

// Generic arguments are outside the cut.
fn no_generics(tokens: &Tokens, events: &mut [u64], state: State) -> Result<State, Refusal>
    ensures { (moved_reply result, events.new) ≡ run tokens.now (no_generics tokens.now) state events.old }
{
    let at = state.pos.0;
    if tokens.nth_at(at, COLON2) {
        return Err(Refusal::new(OUTSIDE_CUT, at));
    }
    Ok(state)
}

// e.g. x.await, x.0. await
fn await_expr(
    tokens: &Tokens,
    events: &mut [u64],
    state: State,
    m: CompletedMarker,
    recovery: bool,
) -> Result<(State, CompletedMarker), Refusal>
    ensures { (result, events.new) ≡ run tokens.now (await_expr recovery m) state events.old }
{
    let (state, o) = dotted(tokens, events, state, m, recovery)?;
    let state = bump(tokens, events, state, AWAIT_KW)?;
    complete(events, state, o, AWAIT_EXPR)
}

// e.g. x.foo, x.0, x.0.1, x.0. bar
fn field_expr(
    tokens: &Tokens,
    events: &mut [u64],
    state: State,
    m: CompletedMarker,
    recovery: bool,
) -> Result<Postfix, Refusal>
    ensures { (postfix_reply result, events.new) ≡ run tokens.now (field_expr tokens.now recovery m) state events.old }
{
    let (state, o) = dotted(tokens, events, state, m, recovery)?;
    field(tokens, events, state, o)
}

fn field(tokens: &Tokens, events: &mut [u64], state: State, m: Marker) -> Result<Postfix, Refusal>
    ensures { (postfix_reply result, events.new) ≡ run tokens.now (field tokens.now m) state events.old }
{
    let kind = tokens.kind_at(state.pos.0);
    if is_field_name(kind) {
        return postfix_of(named_field(tokens, events, state, m));
    }
    if kind == FLOAT_NUMBER {
        return float_field(tokens, events, state, m);
    }
    postfix_of(no_field(tokens, events, state, m))
}

fn named_field(
    tokens: &Tokens,
    events: &mut [u64],
    state: State,
    m: Marker,
) -> Result<(State, CompletedMarker), Refusal>
    ensures { (result, events.new) ≡ run tokens.now (named_field m) state events.old }
{
    let (state, _) = leaf(tokens, events, state, NAME_REF)?;
    complete(events, state, m, FIELD_EXPR)
}

fn no_field(
    tokens: &Tokens,
    events: &mut [u64],
    state: State,
    m: Marker,
) -> Result<(State, CompletedMarker), Refusal>
    ensures { (result, events.new) ≡ run tokens.now (no_field m) state events.old }
{
    let state = error(events, state, EXPECTED_FIELD)?;
    complete(events, state, m, FIELD_EXPR)
}

// A float in field place is split; one that ends in a dot has the next name's dot read already.
fn float_field(
    tokens: &Tokens,
    events: &mut [u64],
    state: State,
    m: Marker,
) -> Result<Postfix, Refusal>
    ensures { (postfix_reply result, events.new) ≡ run tokens.now (float_field tokens.now m) state events.old }
{
    let joint = tokens.joint_at(state.pos.0);
    match split_float(tokens, events, state, m)? {
        Some((state, c)) => Ok(Postfix::Again(state, c, joint == 0)),
        None => Err(Refusal::new(UNFIT, 0)),
    }
}

// e.g. x?
fn try_expr(
    tokens: &Tokens,
    events: &mut [u64],
    state: State,
    m: CompletedMarker,
) -> Result<(State, CompletedMarker), Refusal>
    ensures { (result, events.new) ≡ run tokens.now (try_expr m) state events.old }
{
    let (state, o) = lead(tokens, events, state, m, QUESTION)?;
    complete(events, state, o, TRY_EXPR)
}

// e.g. (1, 2,)
#[cycle(readers)]
fn arg_list(
    tokens: &Tokens,
    events: &mut [u64],
    state: State,
    inner: Depth,
) -> Result<(State, CompletedMarker), Refusal>
    ensures { (result, events.new) ≡ run tokens.now (arg_list tokens.now (expr_bp inner.0 tokens.now)) state events.old }
{
    let (state, m) = begin(tokens, events, state, L_PAREN)?;
    let state = args(tokens, events, state, inner)?;
    closing(
        tokens,
        events,
        state,
        R_PAREN,
        EXPECTED_R_PAREN,
        m,
        ARG_LIST,
    )
}

// The arguments, a turn each. A turn gives the next state, as in `ops`.
#[cycle(readers)]
fn args(tokens: &Tokens, events: &mut [u64], state: State, inner: Depth) -> Result<State, Refusal>
    ensures { (moved_reply result, events.new) ≡ run tokens.now (arguments tokens.now (expr_bp inner.0 tokens.now)) state events.old }
{
    let mut s = state;
    loop {
        match arg(tokens, events, s, inner)? {
            Args::More(s1) => s = s1,
            Args::End(s1) => return Ok(s1),
        }
    }
}

// One argument and the comma after it, or the end. A reading that yields no expression ends the arguments.
#[cycle(readers)]
fn arg(tokens: &Tokens, events: &mut [u64], state: State, inner: Depth) -> Result<Args, Refusal>
    ensures { (args_reply result, events.new) ≡ run tokens.now (argument tokens.now (expr_bp inner.0 tokens.now)) state events.old }
{
    let kind = tokens.kind_at(state.pos.0);
    if ends_arguments(kind) {
        return Ok(Args::End(state));
    }
    if kind == COMMA {
        return lone_comma(tokens, events, state);
    }
    let (state, read) = expr_bp(tokens, events, state, TOP, inner)?;
    let Some(_) = read else {
        return Ok(Args::End(state));
    };
    after_argument(tokens, events, state)
}

// A comma where an expression should be.
fn lone_comma(tokens: &Tokens, events: &mut [u64], state: State) -> Result<Args, Refusal>
    ensures { (args_reply result, events.new) ≡ run tokens.now (lone_comma) state events.old }
{
    let state = err_and_bump(tokens, events, state)?;
    Ok(Args::More(state))
}

fn after_argument(tokens: &Tokens, events: &mut [u64], state: State) -> Result<Args, Refusal>
    ensures { (args_reply result, events.new) ≡ run tokens.now (after_argument tokens.now) state events.old }
{
    match eat(tokens, events, state, COMMA)? {
        Some(state) => Ok(Args::More(state)),
        None => no_comma(tokens, events, state),
    }
}

// Before a first token the comma is missing; otherwise the arguments end.
fn no_comma(tokens: &Tokens, events: &mut [u64], state: State) -> Result<Args, Refusal>
    ensures { (args_reply result, events.new) ≡ run tokens.now (no_comma tokens.now) state events.old }
{
    if !is_first(tokens.kind_at(state.pos.0)) {
        return Ok(Args::End(state));
    }
    let state = error(events, state, EXPECTED_COMMA)?;
    Ok(Args::More(state))
}

// A literal, a path or a parenthesis.
#[cycle(readers)]
fn atom_expr(
    tokens: &Tokens,
    events: &mut [u64],
    state: State,
    inner: Depth,
) -> Result<(State, Option<CompletedMarker>), Refusal>
    ensures { (result, events.new) ≡ run tokens.now (atom_expr tokens.now (expr_bp inner.0 tokens.now)) state events.old }
{
    let kind = tokens.kind_at(state.pos.0);
    if kind == IDENT {
        let (state, m) = path_node(tokens, events, state, PATH_EXPR)?;
        return Ok((state, Some(m)));
    }
    if kind == L_PAREN {
        let (state, m) = paren(tokens, events, state, inner)?;
        return Ok((state, Some(m)));
    }
    plain_atom(tokens, events, state)
}

// A literal; a `.` that is no range; what the cut leaves out.
fn plain_atom(
    tokens: &Tokens,
    events: &mut [u64],
    state: State,
) -> Result<(State, Option<CompletedMarker>), Refusal>
    ensures { (result, events.new) ≡ run tokens.now (plain_atom tokens.now) state events.old }
{
    let at = state.pos.0;
    let kind = tokens.kind_at(at);
    if outside_atom(kind) {
        return Err(Refusal::new(OUTSIDE_CUT, at));
    }
    if kind == DOT {
        return lone_dot(tokens, events, state);
    }
    let (state, m) = leaf(tokens, events, state, LITERAL)?;
    Ok((state, Some(m)))
}

// A `.` that is no range.
fn lone_dot(
    tokens: &Tokens,
    events: &mut [u64],
    state: State,
) -> Result<(State, Option<CompletedMarker>), Refusal>
    ensures { (result, events.new) ≡ run tokens.now (lone_dot tokens.now) state events.old }
{
    let state = err_recover(tokens, events, state)?;
    Ok((state, None))
}

// e.g. (1 + 2)
#[cycle(readers)]
fn paren(
    tokens: &Tokens,
    events: &mut [u64],
    state: State,
    inner: Depth,
) -> Result<(State, CompletedMarker), Refusal>
    ensures { (result, events.new) ≡ run tokens.now (paren_expr tokens.now (expr_bp inner.0 tokens.now)) state events.old }
{
    let (state, m) = begin(tokens, events, state, L_PAREN)?;
    let at = state.pos.0;
    if tokens.kind_at(at) == R_PAREN {
        return Err(Refusal::new(OUTSIDE_CUT, at));
    }
    let (state, read) = expr_bp(tokens, events, state, TOP, inner)?;
    let Some(_) = read else {
        return closing(
            tokens,
            events,
            state,
            R_PAREN,
            EXPECTED_R_PAREN,
            m,
            PAREN_EXPR,
        );
    };
    paren_tail(tokens, events, state, m)
}

// A tuple is outside the cut.
fn paren_tail(
    tokens: &Tokens,
    events: &mut [u64],
    state: State,
    m: Marker,
) -> Result<(State, CompletedMarker), Refusal>
    ensures { (result, events.new) ≡ run tokens.now (paren_tail tokens.now m) state events.old }
{
    let at = state.pos.0;
    if tokens.kind_at(at) == COMMA {
        return Err(Refusal::new(OUTSIDE_CUT, at));
    }
    closing(
        tokens,
        events,
        state,
        R_PAREN,
        EXPECTED_R_PAREN,
        m,
        PAREN_EXPR,
    )
}
