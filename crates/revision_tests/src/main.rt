// Hand-worked revisions. Each pair prints its differences and a line `--`. What must be printed is worked out by hand from document 02, L5,
// and stands in `stdout`.
#![tactic(auto)]

use answers::given;
use input::Refusal;
use reader::Parsed;
use std::io;

fn print(rt: &impl Print, out: &[u8], end: usize) -> io::Result<()> {
    rt.write_all(given(out, end))?;
    rt.write_all(b"--\n")
}

fn show(rt: &impl Print, first: &[u32], second: &[u32]) -> io::Result<()> {
    let mut out = [0u8; 256];
    let end = revision::put_compared(&mut out, 0, first, second);
    print(rt, &out, end)
}

fn show_answers(
    rt: &impl Print,
    answer: Result<Parsed, Refusal>,
    steps: &[u32],
    other: Result<Parsed, Refusal>,
    other_steps: &[u32],
) -> io::Result<()> {
    let mut out = [0u8; 256];
    let end = revision::put_revisions(&mut out, 0, answer, steps, other, other_steps);
    print(rt, &out, end)
}

// Of lists alone: equal ones, one step, several with equal stretches between, a list that ends first, on either side.
fn lists(rt: &impl Print) -> io::Result<()> {
    show(rt, &[], &[])?;
    show(rt, &[65617, 131330, 196608], &[65617, 131330, 196608])?;
    show(rt, &[65624, 131353], &[65624, 131348])?;
    show(rt, &[1, 2, 3, 4, 5], &[9, 2, 3, 8, 5])?;
    show(rt, &[1, 2, 3], &[1])?;
    show(rt, &[1], &[1, 2, 4294967295])?;
    show(rt, &[], &[7])?;
    show(rt, &[7], &[])?;
    show(rt, &[1, 2], &[3, 2, 0])?;
    show(rt, &[0], &[0, 0])
}

fn read(consumed: usize, steps: usize) -> Result<Parsed, Refusal> {
    Ok(Parsed { consumed, steps })
}

fn refused(number: u8, place: usize) -> Result<Parsed, Refusal> {
    Err(Refusal::new(number, place))
}

// Of answers: only the steps given count; a refusal of the first list stands before one of the second.
fn answered(rt: &impl Print) -> io::Result<()> {
    show_answers(rt, read(1, 2), &[5, 6, 7], read(1, 2), &[5, 6, 8])?;
    show_answers(rt, read(1, 3), &[5, 6, 7], read(2, 3), &[5, 6, 8])?;
    show_answers(rt, refused(7, 3), &[5], read(1, 1), &[6])?;
    show_answers(
        rt,
        read(1, 1),
        &[5],
        refused(10, 18446744073709551615),
        &[6],
    )?;
    show_answers(rt, refused(6, 128), &[5], refused(7, 1), &[6])
}

// Text that does not fit ends with its room.
fn cut(rt: &impl Print) -> io::Result<()> {
    let mut out = [0u8; 5];
    let end = revision::put_compared(&mut out, 0, &[65617], &[65618]);
    print(rt, &out, end)
}

fn main(rt: HostRuntime) -> io::Result<()> {
    lists(&rt)?;
    answered(&rt)?;
    cut(&rt)
}
