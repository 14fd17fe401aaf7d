// The forms of formulas, nodes and conditions, bits 27..24 of their words, by the names of the C header. They are numbers and no enums: fields of
// the words that the host in C lends, of which the rules of a word's shape and range name runs, as 3 to 5.

// The forms of a formula.
pub const ALWAYS: u32 = 0;

pub const FLUENT: u32 = 1;

pub const NOT: u32 = 2;

pub const AND: u32 = 3;

pub const OR: u32 = 4;

pub const HELD_FOR: u32 = 5;

// The forms of a node.
pub const ACT: u32 = 0;

pub const TEST: u32 = 1;

pub const SEQUENCE: u32 = 2;

pub const CHOICE: u32 = 3;

pub const IF: u32 = 4;

pub const WHILE: u32 = 5;

pub const START_WINDOW: u32 = 6;

pub const END_WINDOW: u32 = 7;

pub const TASK_SET: u32 = 8;

// The first of the node forms that are reserved, 9 to 15.
pub const RESERVED: u32 = 9;

// The forms of a condition of a task set.
pub const BEGIN_AFTER_BEGIN: u32 = 0;

pub const BEGIN_AFTER_END: u32 = 1;

pub const HOLDS_BEFORE: u32 = 2;

pub const HOLDS_AFTER: u32 = 3;

pub const HOLDS_BETWEEN: u32 = 4;
