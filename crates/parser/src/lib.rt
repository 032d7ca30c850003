// The event machine: each call on a state by value and a lent list of events. A call here checks what it is lent, and then does its work in `inner`. The nine calls
// stay beside the nine of `inner`: two lines each, and what they check differs.
#![tactic(auto)]

pub mod inner;

ghost use Rattle.std.specs.Prelude.{◌≡◌};
ghost use Rattle.parser.specs.Calls.{marker, completed};
ghost use Rattle.parser.specs.Public.{range_of, looked_of, start_call, complete_call, abandon_call, precede_call, extend_call, eat_call, bump_any_call, error_call, split_call};

use event::State;
use input::syntax_kind::UNSOUND;
use input::{Position, Refusal, Tokens};

// An open marker: the number of a start event that is neither completed nor spent. It and the closed one are two types, so that neither is taken
// for the other.
#[derive(Clone, Copy, Debug, PartialEq, Eq)]
pub struct Marker(pub usize);

impl Marker {
    pub fn new(at: usize) -> Marker
        ensures { result ≡ marker at }
    {
        Marker(at)
    }
}

// A closed marker: the number of a start event that has its name.
#[derive(Clone, Copy, Debug, PartialEq, Eq)]
pub struct CompletedMarker(pub usize);

impl CompletedMarker {
    pub fn new(at: usize) -> CompletedMarker
        ensures { result ≡ completed at }
    {
        CompletedMarker(at)
    }
}

// "Machine calls refuse 9 for a count or position out of range"
fn range(events: &[u64], state: State, n: usize) -> Result<(), Refusal>
    ensures { result ≡ range_of n state events.now }
{
    if !event::in_range(events, state, n) {
        return Err(Refusal::new(UNSOUND, 0));
    }
    Ok(())
}

// "Calls that read tokens also refuse 3, and 1 and 2": 3, 9, 1, 2.
fn looked(tokens: &Tokens, events: &[u64], state: State) -> Result<(), Refusal>
    ensures { result ≡ looked_of tokens.now state events.now }
{
    tokens.lengths()?;
    range(events, state, tokens.len())?;
    tokens.check_ahead(state.pos.0)
}

// Takes a kind, if it is present.
pub fn eat(
    tokens: &Tokens,
    events: &mut [u64],
    state: State,
    kind: u8,
) -> Result<Option<State>, Refusal>
    ensures { (result, events.new) ≡ eat_call tokens.now state kind events.old }
{
    looked(tokens, events, state)?;
    inner::eat(tokens, events, state, kind)
}

// Opens a node.
pub fn start(events: &mut [u64], state: State) -> Result<(State, Marker), Refusal>
    ensures { (result, events.new) ≡ start_call state events.old }
{
    range(events, state, Position::LIMIT)?;
    inner::start(events, state)
}

// Takes one raw token, whatever it is.
pub fn bump_any(tokens: &Tokens, events: &mut [u64], state: State) -> Result<Option<State>, Refusal>
    ensures { (result, events.new) ≡ bump_any_call tokens.now state events.old }
{
    looked(tokens, events, state)?;
    inner::bump_any(tokens, events, state)
}

// Splits a float into a field's number, a dot and perhaps a second number.
pub fn split_float(
    tokens: &Tokens,
    events: &mut [u64],
    state: State,
    m: Marker,
) -> Result<Option<(State, CompletedMarker)>, Refusal>
    ensures { (result, events.new) ≡ split_call tokens.now state m events.old }
{
    looked(tokens, events, state)?;
    inner::split_float(tokens, events, state, m)
}

// Notes an error.
pub fn error(events: &mut [u64], state: State, code: u8) -> Result<State, Refusal>
    ensures { (result, events.new) ≡ error_call state code events.old }
{
    range(events, state, Position::LIMIT)?;
    inner::error(events, state, code)
}

// Names a node and closes it.
pub fn complete(
    events: &mut [u64],
    state: State,
    m: Marker,
    node: u8,
) -> Result<(State, CompletedMarker), Refusal>
    ensures { (result, events.new) ≡ complete_call state m node events.old }
{
    range(events, state, Position::LIMIT)?;
    inner::complete(events, state, m, node)
}

// Gives a node up: what stands in it goes to the node around it.
pub fn abandon(events: &mut [u64], state: State, m: Marker) -> Result<State, Refusal>
    ensures { (result, events.new) ≡ abandon_call state m events.old }
{
    range(events, state, Position::LIMIT)?;
    inner::abandon(events, state, m)
}

// Opens a node around a closed one.
pub fn precede(
    events: &mut [u64],
    state: State,
    m: CompletedMarker,
) -> Result<(State, Marker), Refusal>
    ensures { (result, events.new) ≡ precede_call state m events.old }
{
    range(events, state, Position::LIMIT)?;
    inner::precede(events, state, m)
}

// Extends a closed node to the left, up to an open one.
pub fn extend_to(
    events: &mut [u64],
    state: State,
    c: CompletedMarker,
    m: Marker,
) -> Result<(State, CompletedMarker), Refusal>
    ensures { (result, events.new) ≡ extend_call state c m events.old }
{
    range(events, state, Position::LIMIT)?;
    inner::extend_to(events, state, c, m)
}
