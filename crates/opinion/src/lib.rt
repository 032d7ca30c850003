// A second opinion on trees: a step list is checked against a token list, and its first fault is named.
#![tactic(auto)]

use input::Refusal;

// What an entry of a step list is.
#[derive(Clone, Copy, Debug, PartialEq, Eq)]
pub enum Step {
    Enter(u8),
    Token(u8),
    Leave,
    // Whether it ends in a dot.
    Split(bool),
    Error(u8),
    Other,
}

// What a node holds: a node with its strength, a token, a split.
#[derive(Clone, Copy, Debug, PartialEq, Eq)]
pub enum Child {
    Node(usize, usize),
    Token(u8),
    Split,
}

// What is kept of an open node: where it was entered, which node it is, how far its children have the shape, and a strength.
#[derive(Clone, Copy, Debug, PartialEq, Eq)]
pub struct Frame {
    pub at: usize,
    pub node: usize,
    pub shape: usize,
    pub strength: usize,
}

// The number of a fault and the index at which it stands; 0 where there is none.
// The number stays, and 0 for none: first_fault of specs/Faults.antt is one of these, and what specs/First.antt states speaks of fault (suc f) i and of no_fault.
#[derive(Clone, Copy, Debug, PartialEq, Eq)]
pub struct Fault {
    pub number: u8,
    pub at: usize,
}

// How far the steps are checked: raw tokens taken, nodes open, whether a root was entered, the first fault that is known. Like the types above
// it waits for the checker; the definitions of specs/ walk without it.
#[derive(Clone, Copy, Debug, PartialEq, Eq)]
pub struct Walk {
    pub pos: usize,
    pub open: usize,
    pub rooted: bool,
    pub best: Fault,
}

// What the checker says: accepted where there is no fault, or else the first; or that what is lent is refused.
pub type Verdict = Result<Option<Fault>, Refusal>;
