// The public reader: a token list to tree steps.
#![tactic(auto)]

ghost use Rattle.std.specs.Prelude.{◌≡◌, Err};
ghost use Rattle.process.specs.Process.{process_of};
ghost use Rattle.reader.specs.Reader.{cleared, on_processed, on_read, top_of, parse_of};

use event::State;
use input::{Depth, Refusal, Tokens};

// What a reading of a token list answers: how many raw tokens were consumed, and how many steps stand in the lent list.
#[derive(Clone, Copy, Debug, PartialEq, Eq)]
pub struct Parsed {
    pub consumed: usize,
    pub steps: usize,
}

// "Reading at strength b (the top at 1)"
const TOP: u16 = 1;

// "after every other reader answer each lent event entry is 0"
fn refused(events: &mut [u64], refusal: Refusal) -> Result<Parsed, Refusal>
    ensures value { result ≡ Err refusal }
    ensures events_after { events.new ≡ cleared events.old }
{
    process::clear(events);
    Err(refusal)
}

// The steps of what was read.
fn passed(events: &mut [u64], steps: &mut [u32], state: State) -> Result<Parsed, Refusal>
    ensures { (result, events.new, steps.new) ≡ on_processed state.pos.0 events.old steps.old (process_of state events.old steps.old) }
{
    match process::process(events, state, steps) {
        Ok((count, _)) => Ok(Parsed {
            consumed: state.pos.0,
            steps: count,
        }),
        Err(refusal) => refused(events, refusal),
    }
}

// A reading of the whole, and the pass.
fn read(tokens: &Tokens, events: &mut [u64], steps: &mut [u32]) -> Result<Parsed, Refusal>
    ensures { (result, events.new, steps.new) ≡ on_read steps.old (top_of tokens.now events.old) }
{
    let depth = Depth::new(Depth::LIMIT);
    match grammar::expressions::expr_bp(tokens, events, State::fresh(), TOP, depth) {
        Ok((state, _)) => passed(events, steps, state),
        Err(refusal) => refused(events, refusal),
    }
}

// "Order: .. 3, 1, 2, then 4, 6, 7 as the work meets them .., then 5."
pub fn parse(tokens: &Tokens, events: &mut [u64], steps: &mut [u32]) -> Result<Parsed, Refusal>
    ensures { (result, events.new, steps.new) ≡ parse_of tokens.now events.old steps.old }
{
    tokens.check()?;
    read(tokens, events, steps)
}
