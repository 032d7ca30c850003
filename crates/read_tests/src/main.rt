// Answers many inputs as `read` and `batch` do. Each stands on standard input as a letter, a two-byte length, low byte first, and the
// bytes: `r` for an input of `read`, `b` for the form that stands first in an input of `batch`. All of it fits into 65,536 bytes.
#![tactic(auto)]

ghost use Rattle.std.specs.Prelude.{◌≡◌, length};
ghost use Rattle.event.specs.Event.{event_limit};

use answers::{Tokens, given};
use event::State;
use input::Position;
use std::io;
use stored::{Form, Span, Tag, Unread};

// The bytes of all cases, and of the text of an answer, at most.
const BUFFER: usize = 65536;

// Where the bytes of the case that starts at a place stand, and what they hold as the program of its letter reads them; none where no case
// stands there.
fn case_at(cases: &[u8], at: usize) -> Option<(Span, Result<Form, Unread>)> {
    if let Ok(span) = stored::section_at(cases, at, Tag(b'r')) {
        let held = stored::decode_limited(stored::part(cases, span), Tokens::LIMIT);
        return Some((span, held));
    }
    let span = stored::section_at(cases, at, Tag(b'b')).ok()?;
    let held = answers::first_limited(stored::part(cases, span), Position::LIMIT as u16);
    Some((span, held))
}

// There are no more cases than bytes. The rooms for events and steps are those of `batch`.
fn show_all(
    rt: &impl Print,
    cases: &[u8],
    events: &mut [u64],
    steps: &mut [u32],
    out: &mut [u8],
) -> io::Result<()>
    requires events_room { event_limit ≡ length events.old }
    requires steps_room { event_limit ≡ length steps.old }
    requires text_room { 65536 ≡ length out.old }
{
    let mut at = 0;
    for _ in 0..cases.len() {
        let Some((span, held)) = case_at(cases, at) else {
            break;
        };
        let end = answers::put_held(stored::part(cases, span), held, events, steps, out, 0);
        rt.write_all(given(out, end))?;
        at = span.at.saturating_add(span.len);
    }
    Ok(())
}

#[tactic(auto, unfolding(event::specs::Event::event_limit, input::specs::Input::token_limit))]
fn main(rt: HostRuntime) -> io::Result<()> {
    let mut buf = streams::large_buffer::<BUFFER>();
    let have = streams::read_full(&mut rt.stdin(), &mut buf)?;
    let mut events = [0u64; State::LIMIT];
    let mut steps = [0u32; State::LIMIT];
    let mut out = streams::large_buffer::<BUFFER>();
    show_all(&rt, &buf[..have], &mut events, &mut steps, &mut out)
}
