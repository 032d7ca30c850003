// The event record and the state of the machine. Nothing outside this crate knows an entry's bits.
#![tactic(auto)]

ghost use Rattle.std.specs.Prelude.{◌≡◌, Bool, true, false, ℕ, ◌+◌, ◌^◌, ◌≤◌, ◌<◌, length, get_or, set, leb};
ghost use Rattle.event.specs.Event.{START, tag_of, rank_of, flag_of, node_of, offset_of, entry, entry_of, view, decodes, flag_by, start_entry, preceding_entry, field_entry, finish_entry, token_entry, split_entry, error_entry, named_entry, spent_entry, extended_entry, parented_entry, is_live, is_named, event_limit, capacity_of, in_range, fresh};

use input::Position;

// Where the machine stands: the raw position, and how many events of the lent list are used. It goes by value beside the list, and no struct
// holds both: the state by value and the list lent is a rule of the project.
#[derive(Clone, Copy, Debug, PartialEq, Eq)]
pub struct State {
    pub pos: Position,
    pub count: usize,
}

impl State {
    // "It is full when all its entries, or 65,552 of them (16 × 4,096 + 16), are used."
    pub const LIMIT: usize = 16 * Position::LIMIT + 16;

    pub fn fresh() -> State
        ensures { result ≡ fresh }
    {
        State {
            pos: Position(0),
            count: 0,
        }
    }
}

// Tags. They and the ranks stay numbers, where an enum might stand: they are bits of an entry, a number of the lent list, which need not be an event.
pub const START: u64 = 1;

pub const FINISH: u64 = 2;

pub const TOKEN_TAG: u64 = 3;

pub const SPLIT_TAG: u64 = 4;

pub const ERROR_TAG: u64 = 5;

// The ranks of a start.
pub const LIVE: u64 = 0;

pub const SPENT: u64 = 1;

pub const NAMED: u64 = 2;

// How many values a part of an entry has, and what one of it counts: from the lowest bits up tag, rank, flag, node, offset.
const TAGS: u64 = 8;

const RANKS: u64 = 4;

const FLAGS: u64 = 2;

const NODES: u64 = 256;

const RANK_PLACE: u64 = TAGS;

const FLAG_PLACE: u64 = RANK_PLACE * RANKS;

const NODE_PLACE: u64 = FLAG_PLACE * FLAGS;

const OFFSET_PLACE: u64 = NODE_PLACE * NODES;

pub fn tag_of(x: u64) -> u64
    ensures { result ≡ tag_of x }
{
    x % TAGS
}

pub fn rank_of(x: u64) -> u64
    ensures { result ≡ rank_of x }
{
    x / RANK_PLACE % RANKS
}

pub fn flag_of(x: u64) -> u64
    ensures { result ≡ flag_of x }
{
    x / FLAG_PLACE % FLAGS
}

// The node of a start, the kind of a token, the code of an error.
pub fn node_of(x: u64) -> u64
    ensures { result ≡ node_of x }
{
    x / NODE_PLACE % NODES
}

pub fn offset_of(x: u64) -> u64
    ensures { result ≡ offset_of x }
{
    x / OFFSET_PLACE
}

fn entry_of(tag: u64, rank: u64, flag: u64, node: u64, offset: u64) -> u64
    requires { (tag < 8) × (rank < 4) × (flag < 2) × (node < 256) × (offset < 2 ^ 50) }
    ensures { result ≡ entry tag rank flag node offset }
{
    tag + RANK_PLACE * rank + FLAG_PLACE * flag + NODE_PLACE * node + OFFSET_PLACE * offset
}

// A bool as the flag of an entry, with the bound that callers need.
fn flag_by(set: bool) -> u64
    ensures value { result ≡ flag_by set }
    ensures upper_bound { result < 2 }
{
    u64::from(set)
}

pub fn start_entry() -> u64
    ensures { result ≡ start_entry }
{
    entry_of(START, LIVE, 0, 0, 0)
}

// A start that precede makes.
pub fn preceding_entry() -> u64
    ensures { result ≡ preceding_entry }
{
    entry_of(START, LIVE, 1, 0, 0)
}

// The second start of a split.
pub fn field_entry(node: u8) -> u64
    ensures { result ≡ field_entry node }
{
    entry_of(START, NAMED, 0, u64::from(node), 0)
}

pub fn finish_entry() -> u64
    ensures { result ≡ finish_entry }
{
    FINISH
}

pub fn token_entry(kind: u8, width: u8) -> u64
    ensures { result ≡ token_entry kind width }
{
    TOKEN_TAG + RANK_PLACE * u64::from(width) + NODE_PLACE * u64::from(kind)
}

pub fn split_entry(dot: bool) -> u64
    ensures { result ≡ split_entry (flag_by dot) }
{
    entry_of(SPLIT_TAG, 0, flag_by(dot), 0, 0)
}

pub fn error_entry(code: u8) -> u64
    ensures { result ≡ error_entry code }
{
    entry_of(ERROR_TAG, 0, 0, u64::from(code), 0)
}

// A start named.
pub fn named_entry(x: u64, node: u8) -> u64
    ensures { result ≡ named_entry x node }
{
    entry_of(START, NAMED, flag_of(x), u64::from(node), offset_of(x))
}

// A start abandoned.
pub fn spent_entry(x: u64) -> u64
    ensures { result ≡ spent_entry x }
{
    entry_of(START, SPENT, flag_of(x), 0, offset_of(x))
}

// A start spent on its forward parent.
pub fn extended_entry(x: u64, offset: u32) -> u64
    ensures { result ≡ extended_entry x offset }
{
    entry_of(START, SPENT, flag_of(x), 0, u64::from(offset))
}

// A start named, with a forward parent.
pub fn parented_entry(x: u64, node: u8, offset: u32) -> u64
    ensures { result ≡ parented_entry x node offset }
{
    entry_of(START, NAMED, flag_of(x), u64::from(node), u64::from(offset))
}

// An open marker's start: "open until completed, abandoned, extended or split".
pub fn is_live(x: u64) -> bool
    ensures { result ≡ is_live x }
{
    tag_of(x) == START && rank_of(x) == LIVE
}

// A closed marker's start: "closed once named".
pub fn is_named(x: u64) -> bool
    ensures { result ≡ is_named x }
{
    tag_of(x) == START && rank_of(x) == NAMED
}

// A start as its entry says it: the start that it is seen as, made again.
fn start_again(x: u64) -> u64
    requires { tag_of x ≡ START }
    ensures { result ≡ entry_of (view x) }
{
    match rank_of(x) {
        rank @ (LIVE | SPENT) => entry_of(START, rank, flag_of(x), 0, offset_of(x)),
        _ => entry_of(START, NAMED, flag_of(x), node_of(x), offset_of(x)),
    }
}

// The entry of the event that an entry is seen as.
fn again(x: u64) -> u64
    ensures { result ≡ entry_of (view x) }
{
    match tag_of(x) {
        START => start_again(x),
        TOKEN_TAG => entry_of(TOKEN_TAG, rank_of(x), 0, node_of(x), 0),
        SPLIT_TAG => entry_of(SPLIT_TAG, 0, flag_of(x), 0, 0),
        ERROR_TAG => entry_of(ERROR_TAG, 0, 0, node_of(x), 0),
        _ => FINISH,
    }
}

pub fn decodes(x: u64) -> bool
    ensures { result ≡ decodes x }
{
    x == again(x)
}

// The entry at a place, 0 past the end: one call of the library, under a name.
pub fn event_at(events: &[u64], at: usize) -> u64
    ensures { result ≡ get_or events.now at 0 }
{
    events.get(at).copied().unwrap_or(0)
}

// Stores an entry or a step; nothing past the end. It tests the place by hand, since of a write through `get_mut` a proof knows the list's length alone.
pub fn put<T: Copy>(list: &mut [T], at: usize, x: T)
    ensures { list.new ≡ set list.old at x }
{
    if at < list.len() {
        list[at] = x;
    }
}

// How many entries of the lent list may be used.
pub fn capacity(events: &[u64]) -> usize
    ensures value { result ≡ capacity_of events.now }
    ensures upper_bound { (result ≤ event_limit) × (result ≤ length events.now) }
{
    events.len().min(State::LIMIT)
}

// There is room for k events more.
pub fn room_for(events: &[u64], state: State, k: usize) -> bool
    ensures value { result ≡ leb (state.count + k) (capacity_of events.now) }
    ensures k_bound { result ≡ true → (state.count + k ≤ event_limit) × (state.count + k ≤ length events.now) }
{
    let room = capacity(events);
    state.count <= room && k <= room - state.count
}

// "the count is at most the list's length and at most 65,552, and the position at most n"
pub fn in_range(events: &[u64], state: State, n: usize) -> bool
    ensures { result ≡ in_range n state events.now }
{
    state.count <= capacity(events) && state.pos.0 <= n
}
