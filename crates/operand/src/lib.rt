// One operand of a formula: the part of a step list from an enter to its matching leave.
#![tactic(auto)]

ghost use Rattle.std.specs.Prelude.{◌≡◌, ◌≤◌, ◌<◌, MatchOption, IfSome, length, get_or};
ghost use Rattle.operand.specs.Operand.{is_enter, leaves_of, match_of, end_of, operand_of, check_of};

use input::Refusal;
use input::syntax_kind::{ENDS_IN_DOT, ENTER, ERROR, FLOAT_SPLIT, LEAVE, PATH_TYPE};

// The refusal of an index that is no enter, or an enter never matched: a number, as a refusal's are, and no enum.
pub const NO_OPERAND: u8 = 16;

// The enters of the first and the last node, with `as` since a constant calls no `From`.
const FIRST: u32 = ENTER + ERROR as u32;

const LAST: u32 = ENTER + PATH_TYPE as u32;

// A split that ends in a dot.
const DOT_SPLIT: u32 = FLOAT_SPLIT + ENDS_IN_DOT;

// The step at a place, 0 past the end: one call of the library, under a name.
pub fn step_at(steps: &[u32], at: usize) -> u32
    ensures { result ≡ get_or steps.now at 0 }
{
    steps.get(at).copied().unwrap_or(0)
}

fn is_enter(step: u32) -> bool
    ensures { result ≡ is_enter step }
{
    FIRST <= step && step <= LAST
}

// A float split counts one or two leaves, what is no step nothing.
fn leaves_of(step: u32) -> usize
    ensures { result ≡ leaves_of step }
{
    match step {
        LEAVE | DOT_SPLIT => 1,
        FLOAT_SPLIT => 2,
        _ => 0,
    }
}

// Behind the step at which the node entered at a place is left, if it is left.
fn matched(steps: &[u32], at: usize) -> Option<usize>
    requires { at < length steps.now }
    ensures value { MatchOption result (match_of steps.now at ≡ 0) (λ end. end ≡ match_of steps.now at) }
    ensures behind { IfSome result (λ end. at < end) }
    ensures upper_bound { IfSome result (λ end. end ≤ length steps.now) }
{
    let mut open: usize = 1;
    for (i, &step) in steps[at + 1..].iter().enumerate() {
        if is_enter(step) {
            open += 1;
        } else {
            let leaves = leaves_of(step);
            if open <= leaves {
                return Some(at + i + 2);
            }
            open -= leaves;
        }
    }
    None
}

// The same of any place: none where no node is entered.
fn end_of(steps: &[u32], at: usize) -> Option<usize>
    ensures value { MatchOption result (end_of steps.now at ≡ 0) (λ end. end ≡ end_of steps.now at) }
    ensures behind { IfSome result (λ end. at < end) }
    ensures upper_bound { IfSome result (λ end. end ≤ length steps.now) }
{
    if is_enter(step_at(steps, at)) {
        matched(steps, at)
    } else {
        None
    }
}

// The caller's own steps, from an enter to its matching leave; none where `check_operand` refuses.
pub fn operand(steps: &[u32], at: usize) -> &[u32]
    ensures { result.now ≡ operand_of steps.now at }
{
    match end_of(steps, at) {
        Some(end) => &steps[at..end],
        None => &steps[..0],
    }
}

// Refusal 16 at an index that is no enter, or an enter never matched. Two calls and no Result of `operand`, which cannot fail.
pub fn check_operand(steps: &[u32], at: usize) -> Result<(), Refusal>
    ensures { result ≡ check_of steps.now at }
{
    match end_of(steps, at) {
        Some(_) => Ok(()),
        None => Err(Refusal::new(NO_OPERAND, at)),
    }
}
