// What every production is made of: taking, expecting, errors, and a token as a node.
ghost use Rattle.std.specs.Prelude.{◌≡◌};
ghost use Rattle.parser.specs.Prog.{run};
ghost use Rattle.atoms.specs.Views.{moved_reply, ended_of, turn_of};
ghost use Rattle.atoms.specs.Atom.{bump, begin, lead, expect, closing, leaf, begin_error, err_and_bump, err_recover};

use crate::Turn;
use event::State;
use input::syntax_kind::{ERROR, EXPECTED_EXPRESSION, UNFIT};
use input::{Refusal, Tokens};
use operators::token_set::is_closing;
use parser::inner::{bump_any, complete, eat, error, precede, start};
use parser::{CompletedMarker, Marker};

// Takes a kind that is at hand.
pub fn bump(tokens: &Tokens, events: &mut [u64], state: State, kind: u8) -> Result<State, Refusal>
    ensures { (moved_reply result, events.new) ≡ run tokens.now (bump kind) state events.old }
{
    match eat(tokens, events, state, kind)? {
        Some(state) => Ok(state),
        None => Err(Refusal::new(UNFIT, 0)),
    }
}

// A start and the kind at hand.
pub fn begin(
    tokens: &Tokens,
    events: &mut [u64],
    state: State,
    kind: u8,
) -> Result<(State, Marker), Refusal>
    ensures { (result, events.new) ≡ run tokens.now (begin kind) state events.old }
{
    let (state, open) = start(events, state)?;
    let state = bump(tokens, events, state, kind)?;
    Ok((state, open))
}

// A start before a closed node, and the kind at hand.
pub fn lead(
    tokens: &Tokens,
    events: &mut [u64],
    state: State,
    m: CompletedMarker,
    kind: u8,
) -> Result<(State, Marker), Refusal>
    ensures { (result, events.new) ≡ run tokens.now (lead m kind) state events.old }
{
    let (state, o) = precede(events, state, m)?;
    let state = bump(tokens, events, state, kind)?;
    Ok((state, o))
}

// Takes a kind, or gives an error where it is missing.
pub fn expect(
    tokens: &Tokens,
    events: &mut [u64],
    state: State,
    kind: u8,
    code: u8,
) -> Result<State, Refusal>
    ensures { (moved_reply result, events.new) ≡ run tokens.now (expect kind code) state events.old }
{
    match eat(tokens, events, state, kind)? {
        Some(state) => Ok(state),
        None => error(events, state, code),
    }
}

// An expected kind, and the node's end.
pub fn closing(
    tokens: &Tokens,
    events: &mut [u64],
    state: State,
    kind: u8,
    code: u8,
    m: Marker,
    node: u8,
) -> Result<(State, CompletedMarker), Refusal>
    ensures { (result, events.new) ≡ run tokens.now (closing kind code m node) state events.old }
{
    let state = expect(tokens, events, state, kind, code)?;
    complete(events, state, m, node)
}

// One token as a node. e.g. 92
pub fn leaf(
    tokens: &Tokens,
    events: &mut [u64],
    state: State,
    node: u8,
) -> Result<(State, CompletedMarker), Refusal>
    ensures { (result, events.new) ≡ run tokens.now (leaf node) state events.old }
{
    let (state, m) = start(events, state)?;
    match bump_any(tokens, events, state)? {
        Some(state) => complete(events, state, m, node),
        None => Err(Refusal::new(UNFIT, 0)),
    }
}

fn begin_error(
    tokens: &Tokens,
    events: &mut [u64],
    state: State,
) -> Result<(State, Marker), Refusal>
    ensures { (result, events.new) ≡ run tokens.now (begin_error) state events.old }
{
    let (state, m) = start(events, state)?;
    let state = error(events, state, EXPECTED_EXPRESSION)?;
    Ok((state, m))
}

// An ERROR node with the error and one token, none at the end.
pub fn err_and_bump(tokens: &Tokens, events: &mut [u64], state: State) -> Result<State, Refusal>
    ensures { (moved_reply result, events.new) ≡ run tokens.now (err_and_bump) state events.old }
{
    let (state, m) = begin_error(tokens, events, state)?;
    let state = bump_any(tokens, events, state)?.unwrap_or(state);
    ended(complete(events, state, m, ERROR))
}

// Error 1: alone at `)` and `]`, otherwise with a token.
pub fn err_recover(tokens: &Tokens, events: &mut [u64], state: State) -> Result<State, Refusal>
    ensures { (moved_reply result, events.new) ≡ run tokens.now (err_recover tokens.now) state events.old }
{
    if is_closing(tokens.kind_at(state.pos.0)) {
        return error(events, state, EXPECTED_EXPRESSION);
    }
    err_and_bump(tokens, events, state)
}

// A node that is ended, where only the state matters.
pub fn ended(node: Result<(State, CompletedMarker), Refusal>) -> Result<State, Refusal>
    ensures { result ≡ ended_of node }
{
    let (state, _) = node?;
    Ok(state)
}

// A node after which the operators go on.
pub fn turn_of(node: Result<(State, CompletedMarker), Refusal>) -> Result<Turn, Refusal>
    ensures { result ≡ turn_of node }
{
    let (state, m) = node?;
    Ok(Turn::Again(state, m))
}
