// Prints the answers of stored forms that stand one after the other on standard input.
#![tactic(auto)]

ghost use Rattle.std.specs.Prelude.{◌≡◌, ◌-◌, ◌≤◌, length, take, drop, IfOk};
ghost use Rattle.event.specs.Event.{event_limit};

use answers::{Text, given};
use event::State;
use input::Position;
use std::io::{self, Read};
use stored::Section;

// The bytes of the longest form.
const FORM: usize = 2 * (Section::HEAD + Position::LIMIT);

// The longest text of an answer, and what is printed at a time, at most.
const ANSWER: usize = Text::HEAD + Text::LINE * State::LIMIT;

const PRINTED: usize = 2097152;

// How much of the input stands in the buffer, at most.
const READ: usize = 65536;

// How far the input is: the bytes from `from` to `to` of the buffer are read and unused. It is where the loop stands, with places and no slices,
// since the buffer is moved.
#[derive(Clone, Copy, Debug, PartialEq, Eq)]
pub struct Run {
    pub from: usize,
    pub to: usize,
    // The input has no more bytes.
    pub ended: bool,
}

// Sees to it that a whole form is there, or all that is left of the input. The bytes that were read and unused stay the first, in their order.
fn refill(input: &mut impl Read, buf: &mut [u8], run: Run) -> io::Result<Run>
    requires ordered { run.from ≤ run.to }
    requires in_bounds { run.to ≤ length buf.old }
    ensures ordered { IfOk result (λ next. next.from ≤ next.to) }
    ensures in_bounds { IfOk result (λ next. next.to ≤ length buf.new) }
    ensures none_fewer { IfOk result (λ next. run.to - run.from ≤ next.to - next.from) }
    ensures kept { IfOk result (λ next. take (run.to - run.from) (drop next.from buf.new) ≡ take (run.to - run.from) (drop run.from buf.old)) }
{
    let kept = run.to - run.from;
    if run.ended || FORM <= kept {
        return Ok(run);
    }
    buf.copy_within(run.from..run.to, 0);
    let to = kept + streams::read_full(input, &mut buf[kept..])?;
    Ok(Run {
        from: 0,
        to,
        ended: to < buf.len(),
    })
}

// Prints what waits, where the next answer might not fit behind it.
fn flush(rt: &impl Print, out: &[u8], text: usize) -> io::Result<usize> {
    if text.saturating_add(ANSWER) <= out.len() {
        return Ok(text);
    }
    rt.write_all(given(out, text))?;
    Ok(0)
}

// Answers the forms one after the other. "A broken form prints its refusal .. and ends the run"; so does one with a length above the limit,
// since it is refused without reading on. A proved loop has to end, and nothing says that the input does: it ends after 2^64 - 1 forms.
// The rooms are those that the program has: each list that is read fits into the first three, and each answer into the last.
fn answer_all(
    rt: &impl Print,
    input: &mut impl Read,
    buf: &mut [u8],
    events: &mut [u64],
    steps: &mut [u32],
    out: &mut [u8],
) -> io::Result<()>
    requires read_room { 65536 ≡ length buf.old }
    requires events_room { event_limit ≡ length events.old }
    requires steps_room { event_limit ≡ length steps.old }
    requires text_room { 2097152 ≡ length out.old }
{
    let mut run = Run {
        from: 0,
        to: 0,
        ended: false,
    };
    let mut text = 0;
    for _ in 0..u64::MAX {
        run = refill(input, buf, run)?;
        let bytes = &buf[run.from..run.to];
        if bytes.is_empty() {
            break;
        }
        let held = answers::first_limited(bytes, Position::LIMIT as u16);
        text = answers::put_held(bytes, held, events, steps, out, text);
        let Ok(form) = held else {
            break;
        };
        text = flush(rt, out, text)?;
        let rest = bytes.get(form.end..).unwrap_or(&[]);
        run.from = run.to - rest.len();
    }
    rt.write_all(given(out, text))
}

#[tactic(auto, unfolding(event::specs::Event::event_limit, input::specs::Input::token_limit))]
fn main(rt: HostRuntime) -> io::Result<()> {
    let mut buf = streams::large_buffer::<READ>();
    let mut events = [0u64; State::LIMIT];
    let mut steps = [0u32; State::LIMIT];
    let mut out = streams::large_buffer::<PRINTED>();
    answer_all(
        &rt,
        &mut rt.stdin(),
        &mut buf,
        &mut events,
        &mut steps,
        &mut out,
    )
}
