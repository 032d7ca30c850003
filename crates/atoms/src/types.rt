// Types of casts: paths.
ghost use Rattle.std.specs.Prelude.{◌≡◌};
ghost use Rattle.parser.specs.Prog.{run};
ghost use Rattle.atoms.specs.Views.{moved_reply};
ghost use Rattle.atoms.specs.Atom.{after_type, path_type, cast_type, cast_expr};

use crate::atom::lead;
use crate::paths::path_node;
use event::State;
use input::syntax_kind::{
    AS_KW, CAST_EXPR, EXPECTED_TYPE, IDENT, L_ANGLE, L_PAREN, LTEQ, OUTSIDE_CUT, PATH_TYPE,
};
use input::{Refusal, Tokens};
use operators::token_set::outside_type;
use parser::CompletedMarker;
use parser::inner::{complete, error};

// e.g. 82 as i32
pub fn cast_expr(
    tokens: &Tokens,
    events: &mut [u64],
    state: State,
    m: CompletedMarker,
) -> Result<(State, CompletedMarker), Refusal>
    ensures { (result, events.new) ≡ run tokens.now (cast_expr tokens.now m) state events.old }
{
    let (state, o) = lead(tokens, events, state, m, AS_KW)?;
    let state = cast_type(tokens, events, state)?;
    complete(events, state, o, CAST_EXPR)
}

fn cast_type(tokens: &Tokens, events: &mut [u64], state: State) -> Result<State, Refusal>
    ensures { (moved_reply result, events.new) ≡ run tokens.now (cast_type tokens.now) state events.old }
{
    let at = state.pos.0;
    let kind = tokens.kind_at(at);
    if kind == IDENT {
        return path_type(tokens, events, state);
    }
    if outside_type(kind) {
        return Err(Refusal::new(OUTSIDE_CUT, at));
    }
    error(events, state, EXPECTED_TYPE)
}

fn path_type(tokens: &Tokens, events: &mut [u64], state: State) -> Result<State, Refusal>
    ensures { (moved_reply result, events.new) ≡ run tokens.now (path_type tokens.now) state events.old }
{
    let (state, _) = path_node(tokens, events, state, PATH_TYPE)?;
    after_type(tokens, events, state)
}

// Arguments of a type are outside the cut; `<=` is an operator.
fn after_type(tokens: &Tokens, events: &mut [u64], state: State) -> Result<State, Refusal>
    ensures { (moved_reply result, events.new) ≡ run tokens.now (after_type tokens.now) state events.old }
{
    let at = state.pos.0;
    let kind = tokens.kind_at(at);
    if kind == L_PAREN {
        return Err(Refusal::new(OUTSIDE_CUT, at));
    }
    if kind != L_ANGLE {
        return Ok(state);
    }
    if tokens.nth_at(at, LTEQ) {
        return Ok(state);
    }
    Err(Refusal::new(OUTSIDE_CUT, at))
}
