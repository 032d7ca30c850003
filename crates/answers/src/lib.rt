// The answer to a stored form, and the text that the programs print for it.
#![tactic(auto)]

ghost use Rattle.std.specs.Prelude.{◌≡◌, [], ◌∷◌, ◌≤◌, length, take};
ghost use Rattle.answers.specs.Text.{Put, digit_of, digits_of, decimal_of, line_of, lines_of, head_text, steps_text, refusal_text, text_of};
ghost use Rattle.answers.specs.Writer.{Wrote};
ghost use Rattle.answers.specs.Answers.{room_of, form_answer, held_answer, first_limited};

use input::Refusal;
use input::syntax_kind::{BAD_LENGTH, BROKEN_FORM};
use reader::Parsed;
use stored::{Form, Unread};

// How many tokens a list has that the program `read` reads: "refuses 3 at 0 at the first length above 256".
#[derive(Clone, Copy, Debug, PartialEq, Eq)]
pub struct Tokens(pub u16);

impl Tokens {
    pub const LIMIT: u16 = 256;
}

// How many places a decimal number has. The largest u64 has as many as `LIMIT`.
#[derive(Clone, Copy, Debug, PartialEq, Eq)]
pub struct Places(pub usize);

impl Places {
    pub const LIMIT: usize = 20;

    pub const BASE: u64 = 10;
}

// The bytes of a text: at most `LINE` for a line of a number, and `HEAD` for the first line of an answer.
#[derive(Clone, Copy, Debug, PartialEq, Eq)]
pub struct Text(pub usize);

impl Text {
    pub const LINE: usize = Places::LIMIT + 1;

    pub const HEAD: usize = 64;
}

// Room for events and steps: "Room of 16n + 16 events and as many steps is never refused by 4 or 5."
#[derive(Clone, Copy, Debug, PartialEq, Eq)]
pub struct Room(pub usize);

impl Room {
    pub const EACH: usize = 16;
    // Of a list of as many tokens as `Tokens::LIMIT`.
    pub const MOST: usize = Room::EACH * (Tokens::LIMIT as usize) + Room::EACH;
}

fn digit(n: u64) -> u8
    ensures { result ≡ digit_of n }
{
    b'0' + (n % Places::BASE) as u8
}

// Writes a byte at `at` where there is room, and answers where the next one goes. This function and those below it take the list and the place
// by value, so that both stay in registers while a text is written.
fn byte(out: &mut [u8], at: usize, b: u8) -> usize
    ensures { Put out.old at (b ∷ []) result out.new }
{
    if at < out.len() {
        out[at] = b;
        return at + 1;
    }
    at
}

pub fn word(out: &mut [u8], at: usize, text: &[u8]) -> usize
    ensures { Put out.old at text.now result out.new }
{
    let mut end = at;
    for &b in text {
        end = byte(out, end, b);
    }
    end
}

// "prints in decimal": n, of at most `most` digits.
// Numbers are written by hand: `write!` promises its bytes only where it answers Ok, and never that it does so, while a writer here can't fail.
fn digits(out: &mut [u8], at: usize, n: u64, most: usize) -> usize
    ensures { Put out.old at (digits_of most n) result out.new }
{
    if most == 0 {
        return at;
    }
    if n < Places::BASE {
        return byte(out, at, digit(n));
    }
    let next = digits(out, at, n / Places::BASE, most - 1);
    byte(out, next, digit(n))
}

#[tactic(auto, unfolding(crate::specs::Text::decimal_of))]
pub fn decimal(out: &mut [u8], at: usize, n: u64) -> usize
    ensures { Put out.old at (decimal_of n) result out.new }
{
    digits(out, at, n, Places::LIMIT)
}

#[tactic(auto, using(crate::proofs::Putting::put_then), unfolding(crate::specs::Text::line_of))]
pub fn line(out: &mut [u8], at: usize, n: u64) -> usize
    ensures { Put out.old at (line_of n) result out.new }
{
    let next = decimal(out, at, n);
    byte(out, next, b'\n')
}

// A lent list of bytes, and where in it the next one goes. What doesn't fit is left out.
#[derive(Drop)]
pub struct Writer<'a> {
    pub out: &'a mut [u8],
    pub end: usize,
}

impl<'a> Writer<'a> {
    pub fn new(out: &'a mut [u8], at: usize) -> Writer<'a>
        ensures same_list { result.out.ghost_name ≡ out.entry.ghost_name }
        ensures list { result.out.now ≡ out.old }
        ensures end { result.end ≡ at }
    {
        Writer { out, end: at }
    }

    pub fn word(&mut self, text: &[u8])
        ensures { Wrote self.old text.now self.new }
    {
        self.end = word(self.out, self.end, text);
    }

    pub fn decimal(&mut self, n: u64)
        ensures { Wrote self.old (decimal_of n) self.new }
    {
        self.end = decimal(self.out, self.end, n);
    }

    pub fn line(&mut self, n: u64)
        ensures { Wrote self.old (line_of n) self.new }
    {
        self.end = line(self.out, self.end, n);
    }

    // A line for each step.
    fn lines(&mut self, steps: &[u32])
        ensures { Wrote self.old (lines_of steps.now) self.new }
    {
        for &step in steps {
            self.line(u64::from(step));
        }
    }

    // `consumed C steps N`
    fn head(&mut self, consumed: usize, count: usize)
        ensures { Wrote self.old (head_text consumed count) self.new }
    {
        self.word(b"consumed ");
        self.decimal(consumed as u64);
        self.word(b" steps ");
        self.line(count as u64);
    }

    fn steps(&mut self, consumed: usize, steps: &[u32])
        ensures { Wrote self.old (steps_text consumed steps.now) self.new }
    {
        self.head(consumed, steps.len());
        self.lines(steps);
    }

    pub fn refusal(&mut self, refusal: Refusal)
        ensures { Wrote self.old (refusal_text refusal) self.new }
    {
        self.word(b"refused ");
        self.decimal(u64::from(refusal.number));
        self.word(b" at ");
        self.line(refusal.place as u64);
    }

    #[tactic(auto, using(crate::proofs::Writing::wrote_steps, crate::proofs::Writing::wrote_refusal))]
    fn answer(&mut self, answer: Result<Parsed, Refusal>, steps: &[u32])
        ensures { Wrote self.old (text_of answer steps.now) self.new }
    {
        match answer {
            Ok(parsed) => self.steps(parsed.consumed, given(steps, parsed.steps)),
            Err(refusal) => self.refusal(refusal),
        }
    }
}

// This function and `put_answer` write over a list and a place what the writer's methods do, and answer where the text ends: public calls from
// before there was a writer, with the promises that they had. `as` of a usize stays, since the library has no `From` for it.
pub fn put_refusal(out: &mut [u8], at: usize, refusal: Refusal) -> usize
    ensures { Put out.old at (refusal_text refusal) result out.new }
{
    let mut writer = Writer::new(out, at);
    writer.refusal(refusal);
    writer.end
}

// The text of a reader's answer, as far as it fits from `at` on; answers where it ends.
pub fn put_answer(
    out: &mut [u8],
    at: usize,
    answer: Result<Parsed, Refusal>,
    steps: &[u32],
) -> usize
    ensures { Put out.old at (text_of answer steps.now) result out.new }
{
    let mut writer = Writer::new(out, at);
    writer.answer(answer, steps);
    writer.end
}

// The first `count` of a list, or all of it.
pub fn given<T>(list: &[T], count: usize) -> &[T]
    ensures { result.now ≡ take count list.now }
{
    list.get(..count).unwrap_or(list)
}

// "Room of 16n + 16 events and as many steps", or all there is.
#[tactic(auto, unfolding(crate::specs::Answers::room_of, base::specs::Base::pick))]
fn room_of(n: usize, most: usize) -> usize
    ensures value { result ≡ room_of n most }
    ensures upper_bound { result ≤ most }
{
    if n < most / Room::EACH {
        Room::EACH * n + Room::EACH
    } else {
        most
    }
}

// Reads a form that stands in `bytes`.
pub fn parse_form(
    bytes: &[u8],
    form: Form,
    events: &mut [u64],
    steps: &mut [u32],
) -> Result<Parsed, Refusal>
    ensures { (result, events.new, steps.new) ≡ form_answer bytes.now form events.old steps.old }
{
    let kinds = stored::kinds(bytes, form);
    let joints = stored::joints(bytes, form);
    let event_room = room_of(kinds.len(), events.len());
    let step_room = room_of(kinds.len(), steps.len());
    reader::parse(
        &input::Tokens::new(kinds, joints),
        &mut events[..event_room],
        &mut steps[..step_room],
    )
}

// The form that stands first in `bytes`, or a length above the limit.
#[tactic(auto, unfolding(crate::specs::Answers::first_limited, stored::specs::Stored::on_stored, base::specs::Base::whether))]
pub fn first_limited(bytes: &[u8], limit: u16) -> Result<Form, Unread>
    ensures { result ≡ first_limited bytes.now limit }
{
    if stored::too_long(bytes, limit) {
        return Err(Unread::Long);
    }
    Ok(stored::decode_first(bytes)?)
}

// What the reader answers for what `bytes` hold, with refusals 3 and 10 of the stored form.
#[tactic(auto, unfolding(crate::specs::Answers::held_answer, crate::specs::Answers::on_limited))]
pub fn answer_of(
    bytes: &[u8],
    held: Result<Form, Unread>,
    events: &mut [u64],
    steps: &mut [u32],
) -> Result<Parsed, Refusal>
    ensures { (result, events.new, steps.new) ≡ held_answer bytes.now held events.old steps.old }
{
    match held {
        Ok(form) => parse_form(bytes, form, events, steps),
        Err(Unread::Long) => Err(Refusal::new(BAD_LENGTH, 0)),
        Err(Unread::Broken(place)) => Err(Refusal::new(BROKEN_FORM, place)),
    }
}

// The text for what `bytes` hold.
pub fn put_held(
    bytes: &[u8],
    held: Result<Form, Unread>,
    events: &mut [u64],
    steps: &mut [u32],
    out: &mut [u8],
    at: usize,
) -> usize
    ensures events_after { events.new ≡ (held_answer bytes.now held events.old steps.old).1 }
    ensures steps_after { steps.new ≡ (held_answer bytes.now held events.old steps.old).2 }
    ensures put { Put out.old at (text_of (held_answer bytes.now held events.old steps.old).0 steps.new) result out.new }
{
    let answer = answer_of(bytes, held, events, steps);
    put_answer(out, at, answer, steps)
}
