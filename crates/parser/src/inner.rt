// The work of each call, without the checks of what is lent: for a reader that has checked its lists once. Each is total and safe by itself.
ghost use Rattle.std.specs.Prelude.{◌≡◌, ◌+◌, ◌<◌, get_or, set, eqb};
ghost use Rattle.event.specs.Event.{node_of, offset_of, named_entry, spent_entry, extended_entry, parented_entry};
ghost use Rattle.parser.specs.Calls.{full, unfit, is_open, is_closed, is_last, start_of, complete_of, abandon_of, precede_of, extend_of, eat_of, bump_any_of, error_of, split_dot_of, split_two_of, split_of};

use super::{CompletedMarker, Marker};
use event::State;
use input::syntax_kind::{EVENTS_FULL, FIELD_EXPR, FLOAT_NUMBER, UNFIT};
use input::{Position, Refusal, Tokens};

// 4: "the rules push onto a full event list", "raw position at that call"
fn full(state: State) -> Refusal
    ensures { result ≡ full state }
{
    Refusal::new(EVENTS_FULL, state.pos.0)
}

// 8: "machine call with an unfit marker, kind or code", "the marker's number (extend: the open one's), 0 if none"
fn unfit(place: usize) -> Refusal
    ensures { result ≡ unfit place }
{
    Refusal::new(UNFIT, place)
}

// "A marker is open until completed, abandoned, extended or split"
fn is_open(events: &[u64], state: State, m: usize) -> bool
    ensures { result ≡ is_open state m events.now }
{
    m < state.count && event::is_live(event::event_at(events, m))
}

// "and closed once named"
fn is_closed(events: &[u64], state: State, m: usize) -> bool
    ensures { result ≡ is_closed state m events.now }
{
    m < state.count && event::is_named(event::event_at(events, m))
}

// This function and the next three, and `lead_start` below, put one entry each, and their clauses say which: one function over an entry's maker
// would say less. `as u32` and `as u8` narrow what is proved to fit.
// A start gets its name.
fn name_start(events: &mut [u64], at: usize, node: u8)
    ensures { events.new ≡ set events.old at (named_entry (get_or events.old at 0) node) }
{
    let x = event::event_at(events, at);
    event::put(events, at, event::named_entry(x, node));
}

// A start is spent, and skipped.
fn spend_start(events: &mut [u64], at: usize)
    ensures { events.new ≡ set events.old at (spent_entry (get_or events.old at 0)) }
{
    let x = event::event_at(events, at);
    event::put(events, at, event::spent_entry(x));
}

// A start is spent on its forward parent.
fn extend_start(events: &mut [u64], at: usize, offset: u32)
    ensures { events.new ≡ set events.old at (extended_entry (get_or events.old at 0) offset) }
{
    let x = event::event_at(events, at);
    event::put(events, at, event::extended_entry(x, offset));
}

// A start gets its name and its forward parent.
fn parent_start(events: &mut [u64], at: usize, node: u8, offset: u32)
    ensures { events.new ≡ set events.old at (parented_entry (get_or events.old at 0) node offset) }
{
    let x = event::event_at(events, at);
    event::put(events, at, event::parented_entry(x, node, offset));
}

// "take kind, 1..29 or 40..63: if it is present, pushes one token event of its width; otherwise answers no."
pub fn eat(
    tokens: &Tokens,
    events: &mut [u64],
    state: State,
    kind: u8,
) -> Result<Option<State>, Refusal>
    ensures { (result, events.new) ≡ eat_of tokens.now state kind events.old }
{
    let at = state.pos.0;
    let n = state.count;
    if !input::is_kind(kind) {
        return Err(unfit(0));
    }
    if !tokens.nth_at(at, kind) {
        return Ok(None);
    }
    if !event::room_for(events, state, 1) {
        return Err(full(state));
    }
    let width = input::width_of(kind);
    event::put(events, n, event::token_entry(kind, width));
    Ok(Some(State {
        pos: Position(at + usize::from(width)),
        count: n + 1,
    }))
}

// "start: pushes a nameless start, open."
pub fn start(events: &mut [u64], state: State) -> Result<(State, Marker), Refusal>
    ensures { (result, events.new) ≡ start_of state events.old }
{
    let pos = state.pos;
    let n = state.count;
    if !event::room_for(events, state, 1) {
        return Err(full(state));
    }
    event::put(events, n, event::start_entry());
    Ok((State { pos, count: n + 1 }, Marker(n)))
}

// "Take any: one raw token; no at EOF."
pub fn bump_any(tokens: &Tokens, events: &mut [u64], state: State) -> Result<Option<State>, Refusal>
    ensures { (result, events.new) ≡ bump_any_of tokens.now state events.old }
{
    let at = state.pos.0;
    let n = state.count;
    if tokens.len() <= at {
        return Ok(None);
    }
    if !event::room_for(events, state, 1) {
        return Err(full(state));
    }
    let kind = tokens.kind_at(at);
    event::put(events, n, event::token_entry(kind, 1));
    Ok(Some(State {
        pos: Position(at + 1),
        count: n + 1,
    }))
}

// "error: code 1..7."
pub fn error(events: &mut [u64], state: State, code: u8) -> Result<State, Refusal>
    ensures { (result, events.new) ≡ error_of state code events.old }
{
    let pos = state.pos;
    let n = state.count;
    if !input::is_code(code) {
        return Err(unfit(0));
    }
    if !event::room_for(events, state, 1) {
        return Err(full(state));
    }
    event::put(events, n, event::error_entry(code));
    Ok(State { pos, count: n + 1 })
}

// "complete: open marker, node 80..99: names it, pushes a finish, gives a closed marker."
pub fn complete(
    events: &mut [u64],
    state: State,
    m: Marker,
    node: u8,
) -> Result<(State, CompletedMarker), Refusal>
    ensures { (result, events.new) ≡ complete_of state m node events.old }
{
    let pos = state.pos;
    let at = m.0;
    let n = state.count;
    if !is_open(events, state, at) {
        return Err(unfit(at));
    }
    if !input::is_node(node) {
        return Err(unfit(at));
    }
    if !event::room_for(events, state, 1) {
        return Err(full(state));
    }
    name_start(events, at, node);
    event::put(events, n, event::finish_entry());
    Ok((State { pos, count: n + 1 }, CompletedMarker(at)))
}

// "Popped if it is the last event and wasn't made by precede"
fn is_last(events: &[u64], state: State, m: usize) -> bool
    ensures { result ≡ is_last state m events.now }
{
    let n = state.count;
    if m < n {
        if m + 1 == n {
            return event::flag_of(event::event_at(events, m)) == 0;
        }
    }
    false
}

// "abandon: open marker. Popped if it is the last event and wasn't made by precede; otherwise it stays nameless and is skipped."
pub fn abandon(events: &mut [u64], state: State, m: Marker) -> Result<State, Refusal>
    ensures { (result, events.new) ≡ abandon_of state m events.old }
{
    let pos = state.pos;
    let at = m.0;
    if !is_open(events, state, at) {
        return Err(unfit(at));
    }
    if is_last(events, state, at) {
        event::put(events, at, 0);
        return Ok(State { pos, count: at });
    }
    spend_start(events, at);
    Ok(state)
}

// "without forward parent"
fn is_parentless(events: &[u64], m: usize) -> bool
    ensures { result ≡ eqb (offset_of (get_or events.now m 0)) 0 }
{
    event::offset_of(event::event_at(events, m)) == 0
}

// A start that has its name gets a forward parent.
fn lead_start(events: &mut [u64], at: usize, offset: u32)
    ensures { events.new ≡ set events.old at (parented_entry (get_or events.old at 0) (node_of (get_or events.old at 0)) offset) }
{
    let x = event::event_at(events, at);
    let node = event::node_of(x) as u8;
    event::put(events, at, event::parented_entry(x, node, offset));
}

// "precede: closed marker without forward parent. Pushes a start and makes it the forward parent."
pub fn precede(
    events: &mut [u64],
    state: State,
    m: CompletedMarker,
) -> Result<(State, Marker), Refusal>
    ensures { (result, events.new) ≡ precede_of state m events.old }
{
    let pos = state.pos;
    let at = m.0;
    let n = state.count;
    if !is_closed(events, state, at) {
        return Err(unfit(at));
    }
    if !is_parentless(events, at) {
        return Err(unfit(at));
    }
    if !event::room_for(events, state, 1) {
        return Err(full(state));
    }
    lead_start(events, at, (n - at) as u32);
    event::put(events, n, event::preceding_entry());
    Ok((State { pos, count: n + 1 }, Marker(n)))
}

// "extend: a closed marker after an open one; the open one gets it as forward parent and is spent."
pub fn extend_to(
    events: &mut [u64],
    state: State,
    c: CompletedMarker,
    m: Marker,
) -> Result<(State, CompletedMarker), Refusal>
    ensures { (result, events.new) ≡ extend_of state c m events.old }
{
    let to = c.0;
    let at = m.0;
    if !is_open(events, state, at) {
        return Err(unfit(at));
    }
    if !is_closed(events, state, to) {
        return Err(unfit(at));
    }
    if to <= at {
        return Err(unfit(at));
    }
    if State::LIMIT <= to {
        return Err(unfit(at));
    }
    extend_start(events, at, (to - at) as u32);
    Ok((state, c))
}

// "Ends in dot: names the marker FIELD_EXPR, pushes split and finish and gives the marker back closed."
fn split_dot(
    events: &mut [u64],
    state: State,
    m: Marker,
    next: Position,
) -> Result<Option<(State, CompletedMarker)>, Refusal>
    requires { next.0 ≡ state.pos.0 + 1 }
    ensures { (result, events.new) ≡ split_dot_of state m events.old }
{
    let at = m.0;
    let n = state.count;
    if !event::room_for(events, state, 2) {
        return Err(full(state));
    }
    name_start(events, at, FIELD_EXPR);
    event::put(events, n, event::split_entry(true));
    event::put(events, n + 1, event::finish_entry());
    Ok(Some((
        State {
            pos: next,
            count: n + 2,
        },
        CompletedMarker(at),
    )))
}

// "Otherwise the marker becomes FIELD_EXPR with a new start, a FIELD_EXPR too, as forward parent, then split and finish; the new start is the closed marker given back."
fn split_two(
    events: &mut [u64],
    state: State,
    m: Marker,
    next: Position,
) -> Result<Option<(State, CompletedMarker)>, Refusal>
    requires { (next.0 ≡ state.pos.0 + 1) × (m.0 < state.count) }
    ensures { (result, events.new) ≡ split_two_of state m events.old }
{
    let at = m.0;
    let n = state.count;
    if !event::room_for(events, state, 3) {
        return Err(full(state));
    }
    parent_start(events, at, FIELD_EXPR, (n - at) as u32);
    event::put(events, n, event::field_entry(FIELD_EXPR));
    event::put(events, n + 1, event::split_entry(false));
    event::put(events, n + 2, event::finish_entry());
    Ok(Some((
        State {
            pos: next,
            count: n + 3,
        },
        CompletedMarker(n),
    )))
}

// "split: at FLOAT_NUMBER with an open marker. One call does the split and the completion. At another token the answer is no. One token is taken."
pub fn split_float(
    tokens: &Tokens,
    events: &mut [u64],
    state: State,
    m: Marker,
) -> Result<Option<(State, CompletedMarker)>, Refusal>
    ensures { (result, events.new) ≡ split_of tokens.now state m events.old }
{
    let pos = state.pos.0;
    let at = m.0;
    if !is_open(events, state, at) {
        return Err(unfit(at));
    }
    if !tokens.stands(pos, FLOAT_NUMBER) {
        return Ok(None);
    }
    if tokens.joint_at(pos) == 0 {
        return split_dot(events, state, m, Position(pos + 1));
    }
    split_two(events, state, m, Position(pos + 1))
}
