// Hand-worked sequences of the machine's calls. Each call prints its name and its answer:
//   ok POS COUNT marker M    ok POS COUNT    no    refused R at P
// and the pass prints `ok POS COUNT steps N`, its steps one to a line, and whether each lent event is 0 after it. What must be printed
// is worked out by hand from "The event machine" and "Refusals by number", and stands in `stdout`. Markers are written by hand, as numbers: a
// marker is the position of its start event. Beside each sequence stands why. The refusals 6, 7 and 10 are none of the machine's.
#![tactic(auto)]

use event::State;
use input::{Position, Refusal, Tokens};
use parser::{CompletedMarker, Marker};
use std::io;

fn sequence(rt: &impl Print, n: usize) -> io::Result<()> {
    println!(rt; "sequence {n}")
}

// Prints a call's answer behind its name, and gives the state to go on with: the old one after no and after a refusal.
fn show(
    rt: &impl Print,
    call: &str,
    answer: Result<Option<(State, Option<usize>)>, Refusal>,
    old: State,
) -> io::Result<State> {
    match answer {
        Ok(Some((state, Some(marker)))) => {
            println!(rt;
                "{call}: ok {} {} marker {marker}",
                state.pos.0, state.count
            )?;
            Ok(state)
        }
        Ok(Some((state, None))) => {
            println!(rt; "{call}: ok {} {}", state.pos.0, state.count)?;
            Ok(state)
        }
        Ok(None) => {
            println!(rt; "{call}: no")?;
            Ok(old)
        }
        Err(r) => {
            println!(rt; "{call}: refused {} at {}", r.number, r.place)?;
            Ok(old)
        }
    }
}

fn start(rt: &impl Print, events: &mut [u64], state: State) -> io::Result<State> {
    let answer = parser::start(events, state);
    show(
        rt,
        "start",
        answer.map(|(s, m)| Some((s, Some(m.0)))),
        state,
    )
}

fn complete(
    rt: &impl Print,
    events: &mut [u64],
    state: State,
    m: usize,
    node: u8,
) -> io::Result<State> {
    let answer = parser::complete(events, state, Marker(m), node);
    show(
        rt,
        "complete",
        answer.map(|(s, c)| Some((s, Some(c.0)))),
        state,
    )
}

fn abandon(rt: &impl Print, events: &mut [u64], state: State, m: usize) -> io::Result<State> {
    let answer = parser::abandon(events, state, Marker(m));
    show(rt, "abandon", answer.map(|s| Some((s, None))), state)
}

fn precede(rt: &impl Print, events: &mut [u64], state: State, c: usize) -> io::Result<State> {
    let answer = parser::precede(events, state, CompletedMarker(c));
    show(
        rt,
        "precede",
        answer.map(|(s, m)| Some((s, Some(m.0)))),
        state,
    )
}

fn extend(
    rt: &impl Print,
    events: &mut [u64],
    state: State,
    c: usize,
    m: usize,
) -> io::Result<State> {
    let answer = parser::extend_to(events, state, CompletedMarker(c), Marker(m));
    show(
        rt,
        "extend",
        answer.map(|(s, c)| Some((s, Some(c.0)))),
        state,
    )
}

fn eat(
    rt: &impl Print,
    tokens: &Tokens,
    events: &mut [u64],
    state: State,
    kind: u8,
) -> io::Result<State> {
    let answer = parser::eat(tokens, events, state, kind);
    show(
        rt,
        "take",
        answer.map(|taken| taken.map(|s| (s, None))),
        state,
    )
}

fn bump(rt: &impl Print, tokens: &Tokens, events: &mut [u64], state: State) -> io::Result<State> {
    let answer = parser::bump_any(tokens, events, state);
    show(
        rt,
        "take any",
        answer.map(|taken| taken.map(|s| (s, None))),
        state,
    )
}

fn error(rt: &impl Print, events: &mut [u64], state: State, code: u8) -> io::Result<State> {
    let answer = parser::error(events, state, code);
    show(rt, "error", answer.map(|s| Some((s, None))), state)
}

fn split(
    rt: &impl Print,
    tokens: &Tokens,
    events: &mut [u64],
    state: State,
    m: usize,
) -> io::Result<State> {
    let answer = parser::split_float(tokens, events, state, Marker(m));
    show(
        rt,
        "split",
        answer.map(|split| split.map(|(s, c)| (s, Some(c.0)))),
        state,
    )
}

// The pass, its steps one to a line, and whether each lent event is 0 then.
fn pass(rt: &impl Print, events: &mut [u64], state: State, steps: &mut [u32]) -> io::Result<State> {
    let next = match process::process(events, state, steps) {
        Ok((n, next)) => {
            println!(rt; "pass: ok {} {} steps {n}", next.pos.0, next.count)?;
            for step in steps.iter().take(n) {
                println!(rt; "{step}")?;
            }
            next
        }
        Err(r) => {
            println!(rt; "pass: refused {} at {}", r.number, r.place)?;
            state
        }
    };
    if events.iter().all(|&event| event == 0) {
        println!(rt; "list all 0")?;
    } else {
        println!(rt; "list not all 0")?;
    }
    Ok(next)
}

// A state that no call gave.
fn at(pos: usize, count: usize) -> State {
    State {
        pos: Position(pos),
        count,
    }
}

// `a.0.1`, joint 1 on the float. The split takes one token, names 5 FIELD_EXPR with the new start 7, a FIELD_EXPR too, as forward parent, and
// gives 7 back closed; split and finish are 8 and 9. Both starts are closed then: 5 has a forward parent, so precede refuses it, and neither
// can be completed. 7 can be preceded; 10 is made by precede, so it stays when abandoned, and is skipped. The chain 0, 5, 7, 10 enters
// FIELD_EXPR, FIELD_EXPR, PATH_EXPR; the split stands for two leaves, and the finish after it is dropped.
fn split_in_two(rt: &impl Print) -> io::Result<()> {
    sequence(rt, 1)?;
    let tokens = Tokens::new(&[1u8, 16, 3], &[1u8, 1, 1]);
    let mut events = [0u64; 16];
    let mut steps = [0u32; 16];
    let s = State::fresh();
    let s = start(rt, &mut events, s)?;
    let s = start(rt, &mut events, s)?;
    let s = eat(rt, &tokens, &mut events, s, 1)?;
    let s = complete(rt, &mut events, s, 1, 85)?;
    let s = complete(rt, &mut events, s, 0, 82)?;
    let s = precede(rt, &mut events, s, 0)?;
    let s = eat(rt, &tokens, &mut events, s, 16)?;
    let s = split(rt, &tokens, &mut events, s, 5)?;
    let s = precede(rt, &mut events, s, 5)?;
    let s = complete(rt, &mut events, s, 5, 95)?;
    let s = complete(rt, &mut events, s, 7, 95)?;
    let s = precede(rt, &mut events, s, 7)?;
    let s = abandon(rt, &mut events, s, 10)?;
    let s = bump(rt, &tokens, &mut events, s)?;
    pass(rt, &mut events, s, &mut steps)?;
    Ok(())
}

// `a.0.`, joint 0 on the float: it ends in a dot. 3 is named FIELD_EXPR and given back closed; split and finish are 5 and 6. Then 3 is
// preceded by 7, so the chain 0, 3, 7 enters METHOD_CALL_EXPR first. The split stands for one leave.
fn split_at_dot(rt: &impl Print) -> io::Result<()> {
    sequence(rt, 2)?;
    let tokens = Tokens::new(&[1u8, 16, 3], &[1u8, 1, 0]);
    let mut events = [0u64; 16];
    let mut steps = [0u32; 16];
    let s = State::fresh();
    let s = start(rt, &mut events, s)?;
    let s = eat(rt, &tokens, &mut events, s, 1)?;
    let s = complete(rt, &mut events, s, 0, 85)?;
    let s = precede(rt, &mut events, s, 0)?;
    let s = eat(rt, &tokens, &mut events, s, 16)?;
    let s = split(rt, &tokens, &mut events, s, 3)?;
    let s = split(rt, &tokens, &mut events, s, 3)?;
    let s = precede(rt, &mut events, s, 3)?;
    let s = complete(rt, &mut events, s, 7, 94)?;
    pass(rt, &mut events, s, &mut steps)?;
    Ok(())
}

// At IDENT the split answers no; a marker past the count, a closed one, a token event and the count itself are unfit, refused at the marker's
// number.
fn split_elsewhere(rt: &impl Print) -> io::Result<()> {
    sequence(rt, 3)?;
    let tokens = Tokens::new(&[1u8, 3], &[0u8, 0]);
    let mut events = [0u64; 8];
    let mut steps = [0u32; 8];
    let s = State::fresh();
    let s = start(rt, &mut events, s)?;
    let s = split(rt, &tokens, &mut events, s, 0)?;
    let s = split(rt, &tokens, &mut events, s, 4)?;
    let s = eat(rt, &tokens, &mut events, s, 1)?;
    let s = complete(rt, &mut events, s, 0, 83)?;
    let s = split(rt, &tokens, &mut events, s, 0)?;
    let s = split(rt, &tokens, &mut events, s, 1)?;
    let s = split(rt, &tokens, &mut events, s, 3)?;
    let s = start(rt, &mut events, s)?;
    let s = split(rt, &tokens, &mut events, s, 3)?;
    pass(rt, &mut events, s, &mut steps)?;
    Ok(())
}

// A split in two pushes three events: 2 are used of 4, so it is refused 4 at the position 1 and changes nothing. Take any and complete fill
// the list; what pushes is refused at position 2 then, and at the end of the tokens both takes answer no, the list full or not.
fn split_without_room(rt: &impl Print) -> io::Result<()> {
    sequence(rt, 4)?;
    let tokens = Tokens::new(&[1u8, 3], &[0u8, 1]);
    let mut events = [0u64; 4];
    let mut steps = [0u32; 8];
    let s = State::fresh();
    let s = start(rt, &mut events, s)?;
    let s = eat(rt, &tokens, &mut events, s, 1)?;
    let s = split(rt, &tokens, &mut events, s, 0)?;
    let s = bump(rt, &tokens, &mut events, s)?;
    let s = complete(rt, &mut events, s, 0, 80)?;
    let s = start(rt, &mut events, s)?;
    let s = precede(rt, &mut events, s, 0)?;
    let s = error(rt, &mut events, s, 1)?;
    let s = eat(rt, &tokens, &mut events, s, 1)?;
    let s = bump(rt, &tokens, &mut events, s)?;
    pass(rt, &mut events, s, &mut steps)?;
    Ok(())
}

// A split at a dot pushes two events, which fit into the same list.
fn split_with_room(rt: &impl Print) -> io::Result<()> {
    sequence(rt, 5)?;
    let tokens = Tokens::new(&[1u8, 3], &[0u8, 0]);
    let mut events = [0u64; 4];
    let mut steps = [0u32; 8];
    let s = State::fresh();
    let s = start(rt, &mut events, s)?;
    let s = eat(rt, &tokens, &mut events, s, 1)?;
    let s = split(rt, &tokens, &mut events, s, 0)?;
    let s = start(rt, &mut events, s)?;
    pass(rt, &mut events, s, &mut steps)?;
    Ok(())
}

// Both entries are used. A push is refused 4 at position 0, but 8 comes before 4: nodes 79 and 100, kind 64 and error 8. An absent kind and a
// split at INT_NUMBER answer no. Abandon pushes nothing: 1 is last and popped, and then the finish of 0 fits.
fn full_list(rt: &impl Print) -> io::Result<()> {
    sequence(rt, 6)?;
    let tokens = Tokens::new(&[2u8], &[0u8]);
    let mut events = [0u64; 2];
    let mut steps = [0u32; 4];
    let s = State::fresh();
    let s = start(rt, &mut events, s)?;
    let s = start(rt, &mut events, s)?;
    let s = start(rt, &mut events, s)?;
    let s = complete(rt, &mut events, s, 1, 82)?;
    let s = complete(rt, &mut events, s, 1, 79)?;
    let s = complete(rt, &mut events, s, 1, 100)?;
    let s = eat(rt, &tokens, &mut events, s, 2)?;
    let s = eat(rt, &tokens, &mut events, s, 1)?;
    let s = eat(rt, &tokens, &mut events, s, 64)?;
    let s = bump(rt, &tokens, &mut events, s)?;
    let s = split(rt, &tokens, &mut events, s, 1)?;
    let s = error(rt, &mut events, s, 7)?;
    let s = error(rt, &mut events, s, 8)?;
    let s = abandon(rt, &mut events, s, 1)?;
    let s = complete(rt, &mut events, s, 0, 81)?;
    pass(rt, &mut events, s, &mut steps)?;
    Ok(())
}

// A count of 3 is above the list's length 2: every call refuses 9 at 0, before the 1 of kind 30 and the 8 of each
// marker, kind and code here.
fn count_too_large(rt: &impl Print) -> io::Result<()> {
    sequence(rt, 7)?;
    let tokens = Tokens::new(&[30u8], &[0u8]);
    let mut events = [0u64; 2];
    let mut steps = [0u32; 4];
    let s = at(0, 3);
    let s = start(rt, &mut events, s)?;
    let s = complete(rt, &mut events, s, 5, 0)?;
    let s = abandon(rt, &mut events, s, 5)?;
    let s = precede(rt, &mut events, s, 5)?;
    let s = extend(rt, &mut events, s, 5, 4)?;
    let s = eat(rt, &tokens, &mut events, s, 64)?;
    let s = bump(rt, &tokens, &mut events, s)?;
    let s = error(rt, &mut events, s, 8)?;
    let s = split(rt, &tokens, &mut events, s, 5)?;
    pass(rt, &mut events, s, &mut steps)?;
    Ok(())
}

// A position of 2 is above n = 1, so the calls that read tokens refuse 9. A call lent no tokens, the pass too, takes positions up to 4,096,
// and refuses 9 at 4,097.
fn position_too_large(rt: &impl Print) -> io::Result<()> {
    sequence(rt, 8)?;
    let tokens = Tokens::new(&[1u8], &[0u8]);
    let mut events = [0u64; 4];
    let mut steps = [0u32; 4];
    let s = at(2, 0);
    let s = eat(rt, &tokens, &mut events, s, 1)?;
    let s = bump(rt, &tokens, &mut events, s)?;
    let s = split(rt, &tokens, &mut events, s, 0)?;
    start(rt, &mut events, s)?;
    let s = at(4096, 1);
    error(rt, &mut events, s, 1)?;
    let s = at(4097, 2);
    let s = error(rt, &mut events, s, 1)?;
    let s = start(rt, &mut events, s)?;
    pass(rt, &mut events, s, &mut steps)?;
    let s = at(4096, 0);
    pass(rt, &mut events, s, &mut steps)?;
    Ok(())
}

// Calls that read tokens look at up to three from the position on: the 0 at index 3 is not seen from position 0, but from position 1. 1 comes
// before the 8 of kind 64 and of marker 0, which is a token event. Start reads no tokens.
fn bad_kind(rt: &impl Print) -> io::Result<()> {
    sequence(rt, 9)?;
    let tokens = Tokens::new(&[1u8, 2, 2, 0], &[0u8, 0, 0, 0]);
    let mut events = [0u64; 8];
    let mut steps = [0u32; 8];
    let s = State::fresh();
    let s = eat(rt, &tokens, &mut events, s, 1)?;
    let s = eat(rt, &tokens, &mut events, s, 2)?;
    let s = bump(rt, &tokens, &mut events, s)?;
    let s = split(rt, &tokens, &mut events, s, 0)?;
    let s = eat(rt, &tokens, &mut events, s, 64)?;
    let s = start(rt, &mut events, s)?;
    let s = complete(rt, &mut events, s, 1, 81)?;
    pass(rt, &mut events, s, &mut steps)?;
    Ok(())
}

// The same with a joint byte of 2.
fn bad_joint(rt: &impl Print) -> io::Result<()> {
    sequence(rt, 10)?;
    let tokens = Tokens::new(&[1u8, 2, 2, 2], &[0u8, 0, 0, 2]);
    let mut events = [0u64; 8];
    let mut steps = [0u32; 8];
    let s = State::fresh();
    let s = eat(rt, &tokens, &mut events, s, 1)?;
    let s = eat(rt, &tokens, &mut events, s, 2)?;
    let s = bump(rt, &tokens, &mut events, s)?;
    let s = split(rt, &tokens, &mut events, s, 0)?;
    let s = eat(rt, &tokens, &mut events, s, 64)?;
    let s = error(rt, &mut events, s, 2)?;
    pass(rt, &mut events, s, &mut steps)?;
    Ok(())
}

// 1 comes before 2, though the joint byte stands at the earlier index.
fn bad_kind_first(rt: &impl Print) -> io::Result<()> {
    sequence(rt, 11)?;
    let tokens = Tokens::new(&[1u8, 30], &[2u8, 0]);
    let mut events = [0u64; 8];
    let s = State::fresh();
    let s = eat(rt, &tokens, &mut events, s, 1)?;
    let s = bump(rt, &tokens, &mut events, s)?;
    split(rt, &tokens, &mut events, s, 0)?;
    Ok(())
}

// Two kinds and one joint byte: 3 at 0, before the 9 of a count above the list's length. Start reads no tokens.
fn unequal_lists(rt: &impl Print) -> io::Result<()> {
    sequence(rt, 12)?;
    let tokens = Tokens::new(&[1u8, 30], &[0u8]);
    let mut events = [0u64; 2];
    let s = State::fresh();
    let s = eat(rt, &tokens, &mut events, s, 1)?;
    let s = bump(rt, &tokens, &mut events, s)?;
    let s = split(rt, &tokens, &mut events, s, 0)?;
    start(rt, &mut events, s)?;
    let s = at(0, 3);
    let s = eat(rt, &tokens, &mut events, s, 1)?;
    let s = bump(rt, &tokens, &mut events, s)?;
    split(rt, &tokens, &mut events, s, 0)?;
    Ok(())
}

// `-=` touching, then `-` and `=` apart. `->` is absent; `-=` is one token of two raw ones, and absent where the `-` is not joint. 0, 30, 39
// and 64 are no kinds, at the end too.
fn glued_of_two(rt: &impl Print) -> io::Result<()> {
    sequence(rt, 13)?;
    let tokens = Tokens::new(&[20u8, 26, 20, 26], &[1u8, 0, 0, 0]);
    let mut events = [0u64; 8];
    let mut steps = [0u32; 8];
    let s = State::fresh();
    let s = eat(rt, &tokens, &mut events, s, 41)?;
    let s = eat(rt, &tokens, &mut events, s, 40)?;
    let s = eat(rt, &tokens, &mut events, s, 40)?;
    let s = eat(rt, &tokens, &mut events, s, 20)?;
    let s = eat(rt, &tokens, &mut events, s, 26)?;
    let s = eat(rt, &tokens, &mut events, s, 26)?;
    let s = eat(rt, &tokens, &mut events, s, 0)?;
    let s = eat(rt, &tokens, &mut events, s, 30)?;
    let s = eat(rt, &tokens, &mut events, s, 39)?;
    let s = eat(rt, &tokens, &mut events, s, 64)?;
    pass(rt, &mut events, s, &mut steps)?;
    Ok(())
}

// `...` touching, then `.` apart: `..=` is absent, `...` is one token of three raw ones. One dot is left, so neither `...` nor `..` is
// present.
fn glued_of_three(rt: &impl Print) -> io::Result<()> {
    sequence(rt, 14)?;
    let tokens = Tokens::new(&[16u8, 16, 16, 16], &[1u8, 1, 0, 0]);
    let mut events = [0u64; 8];
    let mut steps = [0u32; 8];
    let s = State::fresh();
    let s = eat(rt, &tokens, &mut events, s, 61)?;
    let s = eat(rt, &tokens, &mut events, s, 60)?;
    let s = eat(rt, &tokens, &mut events, s, 60)?;
    let s = eat(rt, &tokens, &mut events, s, 44)?;
    let s = eat(rt, &tokens, &mut events, s, 16)?;
    let s = bump(rt, &tokens, &mut events, s)?;
    let s = eat(rt, &tokens, &mut events, s, 16)?;
    pass(rt, &mut events, s, &mut steps)?;
    Ok(())
}

// At four touching dots `..` is present too, and `.` is: take any and take `.` take one raw token each.
fn glued_in_parts(rt: &impl Print) -> io::Result<()> {
    sequence(rt, 15)?;
    let tokens = Tokens::new(&[16u8, 16, 16, 16], &[1u8, 1, 1, 0]);
    let mut events = [0u64; 8];
    let mut steps = [0u32; 8];
    let s = State::fresh();
    let s = eat(rt, &tokens, &mut events, s, 44)?;
    let s = bump(rt, &tokens, &mut events, s)?;
    let s = eat(rt, &tokens, &mut events, s, 16)?;
    pass(rt, &mut events, s, &mut steps)?;
    Ok(())
}

// The three ways. 1 is the last event: popped, its number unfit until start gives it again. With a token after it 1 stays nameless and is
// skipped. 4 is last but made by precede: it stays too, so 0 keeps its forward parent. An abandoned and a closed marker are unfit.
fn abandoned(rt: &impl Print) -> io::Result<()> {
    sequence(rt, 16)?;
    let tokens = Tokens::new(&[1u8, 2], &[0u8, 0]);
    let mut events = [0u64; 8];
    let mut steps = [0u32; 8];
    let s = State::fresh();
    let s = start(rt, &mut events, s)?;
    let s = start(rt, &mut events, s)?;
    let s = abandon(rt, &mut events, s, 1)?;
    let s = abandon(rt, &mut events, s, 1)?;
    let s = start(rt, &mut events, s)?;
    let s = eat(rt, &tokens, &mut events, s, 1)?;
    let s = abandon(rt, &mut events, s, 1)?;
    let s = abandon(rt, &mut events, s, 1)?;
    let s = complete(rt, &mut events, s, 1, 83)?;
    let s = complete(rt, &mut events, s, 0, 83)?;
    let s = precede(rt, &mut events, s, 0)?;
    let s = abandon(rt, &mut events, s, 4)?;
    let s = abandon(rt, &mut events, s, 4)?;
    let s = precede(rt, &mut events, s, 0)?;
    let s = abandon(rt, &mut events, s, 0)?;
    pass(rt, &mut events, s, &mut steps)?;
    Ok(())
}

// `a??`. 0 has a forward parent after the first precede, and 3 is open: both unfit for precede. The chain 0, 3, 6 enters the outermost first:
// AWAIT_EXPR, TRY_EXPR, PATH_EXPR. The pass gives a fresh list and state, where start gives marker 0 again.
fn preceded_twice(rt: &impl Print) -> io::Result<()> {
    sequence(rt, 17)?;
    let tokens = Tokens::new(&[1u8, 29, 29], &[0u8, 0, 0]);
    let mut events = [0u64; 16];
    let mut steps = [0u32; 16];
    let s = State::fresh();
    let s = start(rt, &mut events, s)?;
    let s = eat(rt, &tokens, &mut events, s, 1)?;
    let s = complete(rt, &mut events, s, 0, 82)?;
    let s = precede(rt, &mut events, s, 0)?;
    let s = precede(rt, &mut events, s, 0)?;
    let s = precede(rt, &mut events, s, 3)?;
    let s = eat(rt, &tokens, &mut events, s, 29)?;
    let s = complete(rt, &mut events, s, 3, 97)?;
    let s = precede(rt, &mut events, s, 3)?;
    let s = eat(rt, &tokens, &mut events, s, 29)?;
    let s = complete(rt, &mut events, s, 6, 96)?;
    let s = complete(rt, &mut events, s, 6, 96)?;
    let s = pass(rt, &mut events, s, &mut steps)?;
    start(rt, &mut events, s)?;
    Ok(())
}

// The open markers 0 and 1 both get 2 as forward parent and are spent: unfit for every call. 2 has no forward parent of its own, so precede
// takes it. The chain 0, 2, 5 enters PAREN_EXPR and LITERAL; the chain of 1 finds 2 nameless.
fn extended(rt: &impl Print) -> io::Result<()> {
    sequence(rt, 18)?;
    let tokens = Tokens::new(&[2u8], &[0u8]);
    let mut events = [0u64; 16];
    let mut steps = [0u32; 16];
    let s = State::fresh();
    let s = start(rt, &mut events, s)?;
    let s = start(rt, &mut events, s)?;
    let s = start(rt, &mut events, s)?;
    let s = eat(rt, &tokens, &mut events, s, 2)?;
    let s = complete(rt, &mut events, s, 2, 81)?;
    let s = extend(rt, &mut events, s, 2, 0)?;
    let s = extend(rt, &mut events, s, 2, 1)?;
    let s = extend(rt, &mut events, s, 2, 0)?;
    let s = complete(rt, &mut events, s, 0, 86)?;
    let s = abandon(rt, &mut events, s, 1)?;
    let s = precede(rt, &mut events, s, 2)?;
    let s = complete(rt, &mut events, s, 5, 86)?;
    pass(rt, &mut events, s, &mut steps)?;
    Ok(())
}

// The closed 0 stands before the open 2: refused at the open one's number. So are an open one in the closed one's place, a closed one and a
// finish in the open one's, and a number past the count.
fn extended_back(rt: &impl Print) -> io::Result<()> {
    sequence(rt, 19)?;
    let mut events = [0u64; 16];
    let mut steps = [0u32; 16];
    let s = State::fresh();
    let s = start(rt, &mut events, s)?;
    let s = complete(rt, &mut events, s, 0, 81)?;
    let s = start(rt, &mut events, s)?;
    let s = extend(rt, &mut events, s, 0, 2)?;
    let s = extend(rt, &mut events, s, 2, 2)?;
    let s = extend(rt, &mut events, s, 0, 0)?;
    let s = extend(rt, &mut events, s, 0, 1)?;
    let s = extend(rt, &mut events, s, 9, 2)?;
    let s = start(rt, &mut events, s)?;
    let s = complete(rt, &mut events, s, 3, 82)?;
    let s = extend(rt, &mut events, s, 3, 2)?;
    let s = extend(rt, &mut events, s, 3, 2)?;
    pass(rt, &mut events, s, &mut steps)?;
    Ok(())
}

// Extend takes a closed marker that has a forward parent: the chain is 0, 1, 3.
fn extended_and_preceded(rt: &impl Print) -> io::Result<()> {
    sequence(rt, 20)?;
    let mut events = [0u64; 8];
    let mut steps = [0u32; 8];
    let s = State::fresh();
    let s = start(rt, &mut events, s)?;
    let s = start(rt, &mut events, s)?;
    let s = complete(rt, &mut events, s, 1, 81)?;
    let s = precede(rt, &mut events, s, 1)?;
    let s = extend(rt, &mut events, s, 1, 0)?;
    let s = complete(rt, &mut events, s, 3, 82)?;
    pass(rt, &mut events, s, &mut steps)?;
    Ok(())
}

// Codes 0 and 8 are unfit, 0 being the place of a call without marker. The pass has two steps: in room of one it refuses 5 at the state's
// position 1 and leaves the events as they are; in room of two it gives them.
fn errors_and_room(rt: &impl Print) -> io::Result<()> {
    sequence(rt, 21)?;
    let tokens = Tokens::new(&[1u8], &[0u8]);
    let mut events = [0u64; 8];
    let mut steps = [0u32; 2];
    let mut few = [0u32; 1];
    let s = State::fresh();
    let s = bump(rt, &tokens, &mut events, s)?;
    let s = error(rt, &mut events, s, 0)?;
    let s = error(rt, &mut events, s, 8)?;
    let s = error(rt, &mut events, s, 7)?;
    let s = pass(rt, &mut events, s, &mut few)?;
    pass(rt, &mut events, s, &mut steps)?;
    Ok(())
}

// The pass refuses 9 at 0, before 5: a last split, a split that a start follows, a forward offset past the count, one onto a finish, an entry
// whose tag is none. A split that a finish follows is sound.
fn unsound(rt: &impl Print) -> io::Result<()> {
    sequence(rt, 22)?;
    let mut events = [0u64; 4];
    let mut steps = [0u32; 1];
    let s = at(0, 1);
    event::put(&mut events, 0, event::split_entry(false));
    pass(rt, &mut events, s, &mut steps)?;
    let s = at(0, 2);
    event::put(&mut events, 1, event::start_entry());
    let s = pass(rt, &mut events, s, &mut steps)?;
    event::put(&mut events, 1, event::finish_entry());
    pass(rt, &mut events, s, &mut steps)?;
    let s = at(0, 2);
    event::put(
        &mut events,
        0,
        event::parented_entry(event::start_entry(), 80, 2),
    );
    event::put(&mut events, 1, event::finish_entry());
    let s = pass(rt, &mut events, s, &mut steps)?;
    event::put(
        &mut events,
        0,
        event::parented_entry(event::start_entry(), 80, 1),
    );
    let s = pass(rt, &mut events, s, &mut steps)?;
    event::put(&mut events, 0, 0xffff_ffff_ffff_ffff);
    let s = pass(rt, &mut events, s, &mut steps)?;
    start(rt, &mut events, s)?;
    Ok(())
}

// Of a longer list 65,552 entries can be used: the last one is marker 65,551, a push after it is refused 4, and a count above it 9.
fn longest_list(rt: &impl Print) -> io::Result<()> {
    sequence(rt, 23)?;
    let mut events = [0u64; 65553];
    let s = at(7, 65551);
    let s = start(rt, &mut events, s)?;
    start(rt, &mut events, s)?;
    let s = at(7, 65553);
    start(rt, &mut events, s)?;
    Ok(())
}

fn main(rt: HostRuntime) -> io::Result<()> {
    split_in_two(&rt)?;
    split_at_dot(&rt)?;
    split_elsewhere(&rt)?;
    split_without_room(&rt)?;
    split_with_room(&rt)?;
    full_list(&rt)?;
    count_too_large(&rt)?;
    position_too_large(&rt)?;
    bad_kind(&rt)?;
    bad_joint(&rt)?;
    bad_kind_first(&rt)?;
    unequal_lists(&rt)?;
    glued_of_two(&rt)?;
    glued_of_three(&rt)?;
    glued_in_parts(&rt)?;
    abandoned(&rt)?;
    preceded_twice(&rt)?;
    extended(&rt)?;
    extended_back(&rt)?;
    extended_and_preceded(&rt)?;
    errors_and_room(&rt)?;
    unsound(&rt)?;
    longest_list(&rt)
}
