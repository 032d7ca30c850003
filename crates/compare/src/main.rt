// Prints how the steps of two formula revisions differ: two stored forms, one after the other, on standard input.
#![tactic(auto)]

use answers::{Room, Text, Tokens, given};
use std::io;
use stored::{Form, Section, Unread};

// The bytes of two forms of the longest kind, and one behind them: "nothing after".
const FORMS: usize = 4 * (Section::HEAD + Tokens::LIMIT as usize) + 1;
// A line for each step: an index and two values are at most as long as two numbers.
const TEXT: usize = Text::HEAD + 2 * Text::LINE * Room::MOST;

// What stands behind the first form; nothing where that is refused.
fn behind(bytes: &[u8], held: Result<Form, Unread>) -> &[u8] {
    let Ok(form) = held else {
        return &[];
    };
    bytes.get(form.end..).unwrap_or(&[])
}

fn main(rt: HostRuntime) -> io::Result<()> {
    let mut buf = [0u8; FORMS];
    let have = streams::read_full(&mut rt.stdin(), &mut buf)?;
    let bytes = given(&buf, have);
    let mut events = [0u64; Room::MOST];
    let mut steps = [0u32; Room::MOST];
    let mut other_steps = [0u32; Room::MOST];
    let mut out = [0u8; TEXT];
    let held = answers::first_limited(bytes, Tokens::LIMIT);
    let answer = answers::answer_of(bytes, held, &mut events, &mut steps);
    let rest = behind(bytes, held);
    let other_held = stored::decode_limited(rest, Tokens::LIMIT);
    let other = answers::answer_of(rest, other_held, &mut events, &mut other_steps);
    let end = revision::put_revisions(&mut out, 0, answer, &steps, other, &other_steps);
    rt.write_all(given(&out, end))
}
