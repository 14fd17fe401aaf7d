// The answer of a call: rows of refusals one after the other, and the 64-bit number by which the host in C gets it.
#![tactic(auto)]

ghost use Rattle.std.specs.Prelude.{◌≡◌};
ghost use Rattle.answers.specs.Rows.{refusal, passed};
ghost use Rattle.answers.specs.Packed.{packed, fields};
ghost use Rattle.answers.specs.Code.Packed.{Fits, InRange};
ghost use Rattle.answers.specs.Code.Ruled.{answered, refused_at};

// The numbers of the refusals, by the names of the C header. They are no enum: the definitions of the rows give a refusal by its number, which the
// host in C gets.
pub const JOB_LENGTH: u32 = 1;

pub const JOB_SHAPE: u32 = 2;

pub const JOB_VALUE: u32 = 3;

pub const JOB_FLUENT_TWICE: u32 = 4;

pub const JOB_NODES: u32 = 5;

pub const START_WORD: u32 = 6;

pub const START_ENDS_LATE: u32 = 7;

pub const START_IN_HAND: u32 = 8;

pub const START_CLASHES: u32 = 9;

pub const START_NEEDS: u32 = 10;

pub const FACTS_DIFFER: u32 = 11;

pub const BUFFER_SHORT: u32 = 12;

pub const NO_READING: u32 = 13;

pub const TRIAL_BOUNDS: u32 = 14;

pub const START_OUTSIDE_WINDOWS: u32 = 15;

pub const GROUP_OVER_LIMIT: u32 = 16;

// What the number, the position and the length are multiplied by in the packed number: 2^56, 2^40 and 2^24.
const NUMBER_UNIT: u64 = 1 << 56;

const POSITION_UNIT: u64 = 1 << 40;

const LENGTH_UNIT: u64 = 1 << 24;

// A refusal's number and position; 0 and 0 for none. The definitions of the rows compare this record by its number, 0 for none, as a host in C
// compares an answer's. What may be refused here gives a `Result` with it as the error; only `Moved` has one that may be none.
#[derive(Clone, Copy)]
pub struct Refusal {
    pub number: u32,
    pub position: usize,
}

// What a call answers. It is not the library's `Result`: both cases have a count, and `packed` and `written` speak of the two by these names.
#[derive(Clone, Copy)]
pub enum Answer {
    // `length` words were written to the lent buffer.
    Accepted {
        length: usize,
        count: u64,
    },
    // Refusal `number`, at `position` of the list concerned.
    Refused {
        number: u64,
        position: usize,
        count: u64,
    },
}

pub fn none() -> Refusal
    ensures { result ≡ passed }
{
    Refusal {
        number: 0,
        position: 0,
    }
}

pub fn refuse(number: u32, position: usize) -> Refusal
    ensures { result ≡ refusal number position }
{
    Refusal { number, position }
}

// Refuses with a number the place that was found, if one was.
pub fn refused_at(number: u32, found: Option<usize>) -> Result<(), Refusal>
    ensures { result ≡ refused_at number found }
{
    match found {
        Some(position) => Err(Refusal { number, position }),
        None => Ok(()),
    }
}

// The answer of a call that wrote so many words, or was refused.
pub fn answered(outcome: Result<usize, Refusal>) -> Answer
    ensures { result ≡ answered outcome }
{
    match outcome {
        Ok(length) => Answer::Accepted { length, count: 0 },
        Err(refusal) => Answer::Refused {
            number: u64::from(refusal.number),
            position: refusal.position,
            count: 0,
        },
    }
}

// The number in bits 63..56, the position in 55..40, the length in 39..24, the count in 23..0.
pub fn pack(a: Answer) -> u64
    requires { InRange a }
    ensures { result ≡ packed a }
{
    match a {
        Answer::Accepted { length, count } => join(0, 0, length, count),
        Answer::Refused {
            number,
            position,
            count,
        } => join(number, position, 0, count),
    }
}

// The four fields side by side. The position and the length are cast, since there is no `u64::from` of a usize.
fn join(number: u64, position: usize, length: usize, count: u64) -> u64
    requires { Fits number position length count }
    ensures { result ≡ fields number position length count }
{
    number * NUMBER_UNIT + position as u64 * POSITION_UNIT + length as u64 * LENGTH_UNIT + count
}
