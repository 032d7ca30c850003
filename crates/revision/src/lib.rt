// How the steps of two formula revisions differ, and the text that says so.
#![tactic(auto)]

ghost use Rattle.std.specs.Prelude.{◌≡◌, ◌+◌, ◌<◌, ◌^◌, length};
ghost use Rattle.answers.specs.Text.{Put};
ghost use Rattle.answers.specs.Writer.{Wrote};
ghost use Rattle.revision.specs.Revision.{pair_text, differ_text, extra_text, differs_text, extras_text, common_of, rest_of, name_of, compared_text, second_text, revisions_text};

use answers::{Writer, given};
use input::Refusal;
use reader::Parsed;

// Two numbers at the end of a line.
fn put_pair(writer: &mut Writer, x: u64, y: u64)
    ensures { Wrote writer.old (pair_text x y) writer.new }
{
    writer.decimal(x);
    writer.word(b" ");
    writer.line(y);
}

// `INDEX FIRST SECOND`
fn put_differ(writer: &mut Writer, i: usize, x: u32, y: u32)
    ensures { Wrote writer.old (differ_text i x y) writer.new }
{
    writer.decimal(i as u64);
    writer.word(b" ");
    put_pair(writer, u64::from(x), u64::from(y));
}

// `first INDEX VALUE` or `second INDEX VALUE`
fn put_extra(writer: &mut Writer, name: &[u8], i: usize, x: u32)
    ensures { Wrote writer.old (extra_text name.now i x) writer.new }
{
    writer.word(name);
    put_pair(writer, i as u64, u64::from(x));
}

// The differences as far as both lists go: nothing where both steps are the same.
fn put_differs(writer: &mut Writer, first: &[u32], second: &[u32])
    ensures { Wrote writer.old (differs_text first.now second.now (common_of first.now second.now)) writer.new }
{
    for (i, (&x, &y)) in first.iter().zip(second).enumerate() {
        if x != y {
            put_differ(writer, i, x, y);
        }
    }
}

// How far both lists go.
#[tactic(auto, using(crate::proofs::Laws::common_is))]
fn common(first: &[u32], second: &[u32]) -> usize
    ensures { result ≡ common_of first.now second.now }
{
    first.len().min(second.len())
}

// The unread rest of whichever list runs longer, behind where the other ends.
#[tactic(auto, using(crate::proofs::Laws::rest_second, crate::proofs::Laws::rest_first))]
pub fn rest<'a>(first: &'a [u32], second: &'a [u32]) -> &'a [u32]
    ensures { result.now ≡ rest_of first.now second.now }
{
    if first.len() < second.len() {
        &second[first.len()..]
    } else {
        &first[second.len()..]
    }
}

// The steps of a rest that begins at an index, as extra.
fn put_extras(writer: &mut Writer, name: &[u8], from: usize, rest: &[u32])
    requires { from + length rest.now < 2 ^ 64 }
    ensures { Wrote writer.old (extras_text name.now from rest.now (length rest.now)) writer.new }
{
    for (i, &x) in rest.iter().enumerate() {
        put_extra(writer, name, from + i, x);
    }
}

// The extra steps of the longer list, under its name.
#[tactic(auto, using(crate::proofs::Laws::rest_fits, crate::proofs::Laws::extra_second, crate::proofs::Laws::extra_first))]
fn put_rest(writer: &mut Writer, first: &[u32], second: &[u32])
    ensures { Wrote writer.old (extras_text (name_of first.now second.now) (common_of first.now second.now) (rest_of first.now second.now) (length (rest_of first.now second.now))) writer.new }
{
    let n = common(first, second);
    let tail = rest(first, second);
    if first.len() < second.len() {
        put_extras(writer, b"second ", n, tail);
    } else {
        put_extras(writer, b"first ", n, tail);
    }
}

fn write_compared(writer: &mut Writer, first: &[u32], second: &[u32])
    ensures { Wrote writer.old (compared_text first.now second.now) writer.new }
{
    let same = first == second;
    if same {
        writer.word(b"equal\n");
    } else {
        put_differs(writer, first, second);
        put_rest(writer, first, second);
    }
}

// The exact differences of two step lists, or `equal`, as far as they fit from `at` on; answers where the text ends.
pub fn put_compared(out: &mut [u8], at: usize, first: &[u32], second: &[u32]) -> usize
    ensures { Put out.old at (compared_text first.now second.now) result out.new }
{
    let mut writer = Writer::new(out, at);
    write_compared(&mut writer, first, second);
    writer.end
}

#[tactic(auto, using(crate::proofs::Laws::second_read, crate::proofs::Laws::second_refused))]
fn put_second(writer: &mut Writer, first: &[u32], answer: Result<Parsed, Refusal>, steps: &[u32])
    ensures { Wrote writer.old (second_text first.now answer steps.now) writer.new }
{
    match answer {
        Ok(parsed) => write_compared(writer, first, given(steps, parsed.steps)),
        Err(refusal) => writer.refusal(refusal),
    }
}

#[tactic(auto, using(crate::proofs::Laws::first_read, crate::proofs::Laws::first_refused))]
fn write_revisions(
    writer: &mut Writer,
    answer: Result<Parsed, Refusal>,
    steps: &[u32],
    other: Result<Parsed, Refusal>,
    other_steps: &[u32],
)
    ensures { Wrote writer.old (revisions_text answer steps.now other other_steps.now) writer.new }
{
    match answer {
        Ok(parsed) => put_second(writer, given(steps, parsed.steps), other, other_steps),
        Err(refusal) => writer.refusal(refusal),
    }
}

// The text of two readers' answers: a refusal, the first list's before the second's, or the differences.
pub fn put_revisions(
    out: &mut [u8],
    at: usize,
    answer: Result<Parsed, Refusal>,
    steps: &[u32],
    other: Result<Parsed, Refusal>,
    other_steps: &[u32],
) -> usize
    ensures { Put out.old at (revisions_text answer steps.now other other_steps.now) result out.new }
{
    let mut writer = Writer::new(out, at);
    write_revisions(&mut writer, answer, steps, other, other_steps);
    writer.end
}
