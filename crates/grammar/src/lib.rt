// The operator grammar: the crate's grammar/expressions.rs with the cut atoms, paths and types.
#![tactic(auto)]

pub mod expressions;

use event::State;
use parser::CompletedMarker;

// What a turn over postfix forms answers; the flag is the crate's FLOAT_RECOVERY for the next turn.
#[derive(Clone, Copy, Debug, PartialEq, Eq)]
pub enum Postfix {
    Again(State, CompletedMarker, bool),
    Done(State, CompletedMarker),
}

// What a turn over arguments answers.
#[derive(Clone, Copy, Debug, PartialEq, Eq)]
pub enum Args {
    More(State),
    End(State),
}
