// Paths: names joined by `::`, nested to the left.
ghost use Rattle.std.specs.Prelude.{◌≡◌};
ghost use Rattle.parser.specs.Prog.{run};
ghost use Rattle.atoms.specs.Views.{moved_reply, turn_reply};
ghost use Rattle.atoms.specs.Atom.{segment, first_path, qualified, path_turn, path_rest, path, no_macro, plain_path, path_node};

use crate::Turn;
use crate::atom::{lead, leaf, turn_of};
use event::State;
use input::syntax_kind::{BANG, COLON2, IDENT, NAME_REF, NEQ, OUTSIDE_CUT, PATH, PATH_SEGMENT};
use input::{Refusal, Tokens};
use parser::CompletedMarker;
use parser::inner::{complete, start};

// A path under a node of its own, PATH_EXPR or PATH_TYPE. e.g. a::b
pub fn path_node(
    tokens: &Tokens,
    events: &mut [u64],
    state: State,
    node: u8,
) -> Result<(State, CompletedMarker), Refusal>
    ensures { (result, events.new) ≡ run tokens.now (path_node tokens.now node) state events.old }
{
    let (state, m) = start(events, state)?;
    let state = plain_path(tokens, events, state)?;
    complete(events, state, m, node)
}

// A path that no `!` follows.
fn plain_path(tokens: &Tokens, events: &mut [u64], state: State) -> Result<State, Refusal>
    ensures { (moved_reply result, events.new) ≡ run tokens.now (plain_path tokens.now) state events.old }
{
    let (state, _) = path(tokens, events, state)?;
    no_macro(tokens, events, state)
}

fn path(
    tokens: &Tokens,
    events: &mut [u64],
    state: State,
) -> Result<(State, CompletedMarker), Refusal>
    ensures { (result, events.new) ≡ run tokens.now (path tokens.now) state events.old }
{
    let (state, first) = first_path(tokens, events, state)?;
    path_rest(tokens, events, state, first)
}

fn first_path(
    tokens: &Tokens,
    events: &mut [u64],
    state: State,
) -> Result<(State, CompletedMarker), Refusal>
    ensures { (result, events.new) ≡ run tokens.now (first_path) state events.old }
{
    let (state, m) = start(events, state)?;
    let (state, _) = segment(tokens, events, state)?;
    complete(events, state, m, PATH)
}

// The `::` and names that follow a path. A turn gives the next state, and no index is counted.
fn path_rest(
    tokens: &Tokens,
    events: &mut [u64],
    state: State,
    first: CompletedMarker,
) -> Result<(State, CompletedMarker), Refusal>
    ensures { (result, events.new) ≡ run tokens.now (path_rest tokens.now first) state events.old }
{
    let mut s = state;
    let mut m = first;
    loop {
        match path_turn(tokens, events, s, m)? {
            Turn::Again(s1, m1) => {
                s = s1;
                m = m1;
            }
            Turn::Done(s1, m1) => return Ok((s1, m1)),
        }
    }
}

fn path_turn(
    tokens: &Tokens,
    events: &mut [u64],
    state: State,
    m: CompletedMarker,
) -> Result<Turn, Refusal>
    ensures { (turn_reply result, events.new) ≡ run tokens.now (path_turn tokens.now m) state events.old }
{
    let at = state.pos.0;
    if !tokens.nth_at(at, COLON2) {
        return Ok(Turn::Done(state, m));
    }
    if tokens.kind_at(at + 2) != IDENT {
        return Err(Refusal::new(OUTSIDE_CUT, at));
    }
    turn_of(qualified(tokens, events, state, m))
}

// e.g. ::b
fn qualified(
    tokens: &Tokens,
    events: &mut [u64],
    state: State,
    m: CompletedMarker,
) -> Result<(State, CompletedMarker), Refusal>
    ensures { (result, events.new) ≡ run tokens.now (qualified m) state events.old }
{
    let (state, o) = lead(tokens, events, state, m, COLON2)?;
    let (state, _) = segment(tokens, events, state)?;
    complete(events, state, o, PATH)
}

fn segment(
    tokens: &Tokens,
    events: &mut [u64],
    state: State,
) -> Result<(State, CompletedMarker), Refusal>
    ensures { (result, events.new) ≡ run tokens.now (segment) state events.old }
{
    let (state, m) = start(events, state)?;
    let (state, _) = leaf(tokens, events, state, NAME_REF)?;
    complete(events, state, m, PATH_SEGMENT)
}

// A macro call is outside the cut; `!=` is an operator.
fn no_macro(tokens: &Tokens, events: &mut [u64], state: State) -> Result<State, Refusal>
    ensures { (moved_reply result, events.new) ≡ run tokens.now (no_macro tokens.now) state events.old }
{
    let at = state.pos.0;
    if tokens.kind_at(at) != BANG {
        return Ok(state);
    }
    if tokens.nth_at(at, NEQ) {
        return Ok(state);
    }
    Err(Refusal::new(OUTSIDE_CUT, at))
}
