// What the grammar reads without an expression inside: taking, errors, names, paths, types. A contract speaks of the tokens and of
// the events, so a function is lent both where its body needs one.
#![tactic(auto)]

pub mod atom;
pub mod paths;
pub mod types;

use event::State;
use parser::CompletedMarker;

// What a turn over operators, or over the names of a path, answers.
#[derive(Clone, Copy, Debug, PartialEq, Eq)]
pub enum Turn {
    Again(State, CompletedMarker),
    Done(State, CompletedMarker),
}
