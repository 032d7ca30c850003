// The pass from events to steps, in place.
#![tactic(auto)]

ghost use Rattle.std.specs.Prelude.{◌≡◌, Bool, true, false, ℕ, ◌+◌, ◌-◌, ◌*◌, ◌^◌, ◌≤◌, ◌<◌, length, set, replicate, unwrap_or, IfSome};
ghost use Rattle.base.specs.Base.{again};
ghost use Rattle.event.specs.Event.{event_limit};
ghost use Rattle.process.specs.Process.{forward_of, lands_at, paired_at, sound_at, sound_events, sound_of, has_name, names_of, steps_at, is_split, count_of, chain_of, visited, entered_of, enter_of, step_of, process_turn, write_of, process_of};

use event::State;
use input::syntax_kind::{
    ENTER, FAULT, FLOAT_SPLIT, LEAVE, STEPS_FULL, TOKEN, UNSOUND, WIDTH_STEP,
};
use input::{Position, Refusal};

// How far the steps are written, and whether the event before was a split: where the loop of `write` stands, and no value with its flag.
#[derive(Clone, Copy, Debug, PartialEq, Eq)]
struct Written {
    steps: usize,
    after: bool,
}

// The forward offset of an entry, where it has one. An offset of 0 in the entry is none.
#[tactic(auto, using(crate::proofs::Laws::whether_is, crate::proofs::Laws::whether_isnt), unfolding(crate::specs::Process::forward_of))]
fn forward_of(x: u64) -> Option<usize>
    ensures value { unwrap_or result 0 ≡ forward_of x }
    ensures bounds { IfSome result (λ offset. (0 < offset) × (offset < 2 ^ 50)) }
{
    if event::tag_of(x) != event::START {
        return None;
    }
    match event::offset_of(x) as usize {
        0 => None,
        offset => Some(offset),
    }
}

// Here and below the list and the count are lent, and no part of the list: the definitions `lands_at`, `chain_of` and `enter_of` speak of both.
// "forward offsets land on later starts in the list"
fn lands_at(events: &[u64], n: usize, i: usize) -> bool
    requires { (i < n) × (n ≤ length events.now) }
    ensures { result ≡ lands_at events.now n i }
{
    let Some(offset) = forward_of(event::event_at(events, i)) else {
        return true;
    };
    let at = i + offset;
    at < n && event::tag_of(event::event_at(events, at)) == event::START
}

// "each split is directly followed by a finish"
#[tactic(auto, using(crate::proofs::Laws::paired_on, crate::proofs::Laws::paired_off, crate::proofs::Laws::paired_not))]
fn paired_at(events: &[u64], n: usize, i: usize) -> bool
    requires { i < n }
    ensures { result ≡ paired_at events.now n i }
{
    if !is_split(event::event_at(events, i)) {
        return true;
    }
    let next = i + 1;
    next < n && event::tag_of(event::event_at(events, next)) == event::FINISH
}

#[tactic(auto, using(crate::proofs::Laws::sound_all, crate::proofs::Laws::sound_stray, crate::proofs::Laws::sound_no))]
fn sound_at(events: &[u64], n: usize, i: usize) -> bool
    requires { (i < n) × (n ≤ length events.now) }
    ensures { result ≡ sound_at events.now n i }
{
    event::decodes(event::event_at(events, i)) && lands_at(events, n, i) && paired_at(events, n, i)
}

fn sound_events(events: &[u64], n: usize) -> bool
    requires { n ≤ length events.now }
    ensures { result ≡ sound_events events.now n }
{
    (0..n).all(|i| sound_at(events, n, i))
}

// An event list is sound, its count and position in range.
#[tactic(auto, using(event::proofs::Laws::in_range_count, crate::proofs::Laws::sound_yes, crate::proofs::Laws::sound_no_range), unfolding(input::specs::Input::token_limit))]
fn sound(events: &[u64], state: State) -> bool
    ensures value { result ≡ sound_of state events.now }
    ensures count_in_bounds { result ≡ true → (state.count ≤ length events.now) × (state.count ≤ event_limit) }
{
    event::in_range(events, state, Position::LIMIT) && sound_events(events, state.count)
}

// A start that has a name.
#[tactic(auto, using(crate::proofs::Laws::named_start, crate::proofs::Laws::named_no))]
fn has_name(x: u64) -> bool
    ensures { result ≡ has_name x }
{
    event::tag_of(x) == event::START && event::SPENT < event::rank_of(x)
}

// How many names an entry has.
#[tactic(auto, using(crate::proofs::Laws::counts))]
fn names_of(x: u64) -> usize
    ensures value { result ≡ names_of x }
    ensures upper_bound { result ≤ 1 }
{
    usize::from(has_name(x))
}

// How many steps an entry gives by itself.
#[tactic(auto, using(crate::proofs::Laws::steps_start, crate::proofs::Laws::steps_one, crate::proofs::Laws::steps_finish))]
fn steps_at(after: bool, x: u64) -> usize
    ensures value { result ≡ steps_at after x }
    ensures upper_bound { result ≤ 1 }
{
    match event::tag_of(x) {
        event::START => names_of(x),
        event::TOKEN_TAG | event::SPLIT_TAG | event::ERROR_TAG => 1,
        _ => usize::from(!after),
    }
}

fn is_split(x: u64) -> bool
    ensures { result ≡ is_split x }
{
    event::tag_of(x) == event::SPLIT_TAG
}

// How many steps the events give.
fn count_steps(events: &[u64], n: usize) -> usize
    requires { n ≤ length events.now }
    ensures { result ≡ count_of events.now n }
{
    let mut total = 0;
    let mut after = false;
    for &x in &events[..n] {
        total += steps_at(after, x);
        after = is_split(x);
    }
    total
}

// How many of the chain of forward parents from a start on are named. An offset leads from each to the next, so that no range is walked here, nor in `enter`.
fn chain(events: &[u64], n: usize, at: usize) -> usize
    requires { (at < n) × (n ≤ length events.now) }
    ensures value { result ≡ chain_of events.now n at }
    ensures upper_bound { result ≤ n }
{
    let mut next = at;
    let mut named = 0;
    while next < n {
        let x = event::event_at(events, next);
        named += names_of(x);
        let Some(offset) = forward_of(x) else {
            return named;
        };
        next += offset;
    }
    named
}

// A visited start has neither a name nor a forward parent, so that each forward parent is followed once.
#[tactic(auto, using(crate::proofs::Laws::visited_start, crate::proofs::Laws::visited_other))]
fn visited(x: u64) -> u64
    ensures { result ≡ visited x }
{
    if event::tag_of(x) == event::START {
        event::extended_entry(event::start_entry(), 0)
    } else {
        x
    }
}

// The enter of a start, if it has a name.
#[tactic(auto, using(crate::proofs::Laws::entered, crate::proofs::Laws::entered_not))]
fn put_enter(steps: &mut [u32], at: usize, x: u64)
    ensures { steps.new ≡ entered_of steps.old at x }
{
    if has_name(x) {
        event::put(steps, at, ENTER + event::node_of(x) as u32);
    }
}

// Marks a start visited and writes its enter, if it has a name, just below top; what is below it then.
fn visit(events: &mut [u64], steps: &mut [u32], at: usize, top: usize, x: u64) -> usize
    ensures value { result ≡ top - names_of x }
    ensures steps_after { steps.new ≡ entered_of steps.old result x }
    ensures events_after { events.new ≡ set events.old at (visited x) }
{
    let below = top.saturating_sub(names_of(x));
    put_enter(steps, below, x);
    event::put(events, at, visited(x));
    below
}

// Writes the enters of a chain below top, the outermost first, and marks its starts visited.
fn enter(events: &mut [u64], steps: &mut [u32], n: usize, at: usize, top: usize)
    requires { n ≤ length events.old }
    ensures { (events.new, steps.new) ≡ enter_of events.old steps.old n at top }
{
    let mut parent = at;
    let mut below = top;
    while parent < n {
        let x = event::event_at(events, parent);
        below = visit(events, steps, parent, below, x);
        let Some(forward) = forward_of(x) else {
            return;
        };
        parent += forward;
    }
}

// The step of an entry that is no start. The parts of an entry are below 256, so that no `as` loses bits; `u32::from` takes no u64.
#[tactic(auto, using(crate::proofs::Laws::step_token, crate::proofs::Laws::step_split, crate::proofs::Laws::step_error, crate::proofs::Laws::step_leave))]
fn step_of(x: u64) -> u32
    ensures { result ≡ step_of x }
{
    match event::tag_of(x) {
        event::TOKEN_TAG => {
            TOKEN + WIDTH_STEP * (event::rank_of(x) as u32) + event::node_of(x) as u32
        }
        event::SPLIT_TAG => FLOAT_SPLIT + event::flag_of(x) as u32,
        event::ERROR_TAG => FAULT + event::node_of(x) as u32,
        _ => LEAVE,
    }
}

// One event's steps.
#[tactic(auto, using(crate::proofs::Laws::turn_step, crate::proofs::Laws::turn_none), unfolding(event::specs::Event::event_limit, input::specs::Input::token_limit))]
fn turn(events: &mut [u64], steps: &mut [u32], n: usize, i: usize, done: Written) -> Written
    requires { (i < n) × (n ≤ length events.old) × (n ≤ event_limit) × (done.steps ≤ event_limit * i) }
    ensures steps_after { again (i + 1, result.steps, result.after, events.new, steps.new) ≡ process_turn n (i, done.steps, done.after, events.old, steps.old) }
    ensures steps_bound { result.steps ≤ event_limit * (i + 1) }
{
    let x = event::event_at(events, i);
    if event::tag_of(x) == event::START {
        let top = done.steps + chain(events, n, i);
        enter(events, steps, n, i, top);
        return Written {
            steps: top,
            after: false,
        };
    }
    if steps_at(done.after, x) == 1 {
        event::put(steps, done.steps, step_of(x));
        return Written {
            steps: done.steps + 1,
            after: is_split(x),
        };
    }
    Written {
        after: false,
        ..done
    }
}

// The steps of all events; they have room.
fn write(events: &mut [u64], steps: &mut [u32], n: usize) -> usize
    requires { (n ≤ length events.old) × (n ≤ event_limit) }
    ensures { (result, steps.new) ≡ write_of n events.old steps.old }
{
    let mut done = Written {
        steps: 0,
        after: false,
    };
    for i in 0..n {
        done = turn(events, steps, n, i, done);
    }
    done.steps
}

// "After success the list is fresh, all 0"
pub fn clear(events: &mut [u64])
    ensures { events.new ≡ replicate (length events.old) 0 }
{
    events.fill(0);
}

// The number of steps with the fresh state, or a refusal. "The pass: at a start, collect its chain of forward parents, each turned nameless when visited, and enter the named ones outermost first."
pub fn process(
    events: &mut [u64],
    state: State,
    steps: &mut [u32],
) -> Result<(usize, State), Refusal>
    ensures { (result, events.new, steps.new) ≡ process_of state events.old steps.old }
{
    if !sound(events, state) {
        return Err(Refusal::new(UNSOUND, 0));
    }
    if steps.len() < count_steps(events, state.count) {
        return Err(Refusal::new(STEPS_FULL, state.pos.0));
    }
    let written = write(events, steps, state.count);
    clear(events);
    Ok((written, State::fresh()))
}
