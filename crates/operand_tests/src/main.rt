// Hand-worked operands. For each index of a step list, and for the one behind it, a line:
//   INDEX: STEP STEP ..    INDEX: refused R at P
// What must be printed is worked out by hand from document 02, L4, and stands in `stdout`.
#![tactic(auto)]

use std::io;

// The operand is shown whether it is refused or not: then it is empty.
fn show(rt: &impl Print, steps: &[u32], at: usize) -> io::Result<()> {
    print!(rt; "{at}:")?;
    if let Err(r) = operand::check_operand(steps, at) {
        print!(rt; " refused {} at {}", r.number, r.place)?;
    }
    for step in operand::operand(steps, at) {
        print!(rt; " {step}")?;
    }
    println!(rt; "")
}

fn show_all(rt: &impl Print, steps: &[u32]) -> io::Result<()> {
    for at in 0..=steps.len() {
        show(rt, steps, at)?;
    }
    Ok(())
}

// P3, `1 + 2 * 3`: a sum of a literal and a product.
fn sum(rt: &impl Print) -> io::Result<()> {
    let steps = [
        65625u32, 65617, 131330, 196608, 131347, 65625, 65617, 131330, 196608, 131349, 65617,
        131330, 196608, 196608, 196608,
    ];
    show_all(rt, &steps)
}

// P9, `a.0.1`: the split leaves both fields.
fn split(rt: &impl Print) -> io::Result<()> {
    let steps = [
        65631u32, 65631, 65618, 65619, 65620, 65621, 131329, 196608, 196608, 196608, 196608,
        131344, 262144,
    ];
    show_all(rt, &steps)
}

// P10, `a.0. b`: the split leaves the inner field.
fn split_at_dot(rt: &impl Print) -> io::Result<()> {
    let steps = [
        65631u32, 65631, 65618, 65619, 65620, 65621, 131329, 196608, 196608, 196608, 196608,
        131344, 262145, 65621, 131329, 196608, 196608,
    ];
    show_all(rt, &steps)
}

// A leave too many, an enter never matched, numbers that are no steps.
fn unsound(rt: &impl Print) -> io::Result<()> {
    let steps = [
        196608u32, 65631, 65615, 65621, 7, 196608, 65636, 262146, 4294967295,
    ];
    show_all(rt, &steps)
}

fn main(rt: HostRuntime) -> io::Result<()> {
    sum(&rt)?;
    split(&rt)?;
    split_at_dot(&rt)?;
    unsound(&rt)?;
    show(&rt, &[], 0)?;
    show(&rt, &[196608], 18446744073709551615)
}
