// The tables of a task set; entries (by pairs of members, and what one member keeps where another begins).
#![tactic(auto)]

ghost use Rattle.std.specs.Prelude.{ℕ, ◌<◌, ◌≤◌, length, get_or};
ghost use Rattle.words.specs.Fields.{condition_i, condition_j};

mod entries;

pub use entries::{narrowed, pair_at, pair_index};
use words::{CONDITIONS, MEMBERS, MOMENTS};

// The sizes of a task set's tables: masks by condition and begin, entries by two members and a moment, rows by member and moment.
pub const MASKS: usize = CONDITIONS * MOMENTS;

pub const PAIRS: usize = MEMBERS * MEMBERS * MOMENTS;

pub const ROWS: usize = MEMBERS * MOMENTS;

// The bounds are a table of later ends by pairs, one of sooner ends, and for each member j a word of the members w for which both are filled.
pub const SOONER: usize = PAIRS;

pub const FILLED: usize = 2 * PAIRS;

pub const BOUNDS: usize = FILLED + MEMBERS;

// What a search knows of a task set of `count` members, four at most, and conditions on them, eight at most: the masks that each condition allows,
// by pairs of members the ends of i where j begins and the begins of j where i begins, the ends of i begun at a moment or later, and bounds on
// begins by ends. Memory is fixed: there is room for four members, and `count` says how many there are.
#[derive(Drop)]
pub struct Tables<'a> {
    pub conditions: &'a [u32],
    pub count: usize,
    pub allow: [u64; MASKS],
    pub ends: [u64; PAIRS],
    pub goes: [u64; PAIRS],
    pub later: [u64; ROWS],
    pub bounds: [u64; BOUNDS],
    pub ghost few: { count ≤ 4 },
    pub ghost listed: { length conditions.now ≤ 8 },
    pub ghost named: { (c : ℕ) → c < length conditions.now → (condition_i (get_or conditions.now c 0) < 4) × (condition_j (get_or conditions.now c 0) < 4) },
}

// The begins and ends that one member may still have.
#[derive(Clone, Copy)]
pub struct Choice {
    pub begins: u64,
    pub ends: u64,
}
