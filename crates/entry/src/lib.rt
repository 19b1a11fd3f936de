// What every public call does round the parse: refusals 1 to 5 in their order over the whole input before it, and the zeros behind the rows after it.
// What a call ends in is a Result: the rows of its tree, or a refusal.
#![tactic(auto)]

mod input; // input.rt: the tests of the input

ghost use Rattle.std.specs.Prelude.{◌≡◌, ◌*◌, ◌≤◌, length};
ghost use Rattle.entry.specs.Promise.{number, place, rows};
ghost use Rattle.entry.specs.Round.{Zeroed};

pub use input::{check, is_limit, is_separator};
use tape::refusal::Refusal;

// What a call asks for. (The definition's `Entry`.)
#[derive(Clone, Copy, PartialEq, Eq)]
pub enum Entry {
    Root,
    Exprs { separator: u32 },
    Format,
}

impl Entry {
    ghost use Rattle.std.specs.Prelude.{◌<◌, MatchOption};
    ghost use Rattle.definition.specs.Night.{entry_of as numbered_as};
    ghost use Rattle.entry.specs.Round.{entry_of};

    // The entry of a number, as jobs and stored cases give it: 0, 1 with its separator, 2.
    pub fn numbered(number: u32, separator: u32) -> Option<Entry>
        ensures { MatchOption result (2 < number) (λ entry. (number ≤ 2) × (entry_of entry ≡ numbered_as number separator)) }
    {
        match number {
            0 => Some(Entry::Root),
            1 => Some(Entry::Exprs { separator }),
            2 => Some(Entry::Format),
            _ => None,
        }
    }
}

// What a call ends in, as three numbers for C: number and place are 0 where there is a tree, and rows where there is none.
#[repr(C)]
#[derive(Clone, Copy, PartialEq, Eq)]
pub struct Answer {
    pub number: u32,
    pub place: u32,
    pub rows: u32,
}

impl From<Result<u32, Refusal>> for Answer {
    fn from(outcome: Result<u32, Refusal>) -> Answer
        ensures { result ≡ record { number = number outcome; place = place outcome; rows = rows outcome } }
    {
        match outcome {
            Ok(rows) => Answer {
                number: 0,
                place: 0,
                rows,
            },
            Err(refusal) => Answer {
                number: u32::from(refusal.reason),
                place: refusal.place,
                rows: 0,
            },
        }
    }
}

// Sets every element from `from` on to 0.
pub fn zero_from(table: &mut [u32], from: usize)
    requires { from ≤ length table.old }
    ensures { Zeroed from table.old table.new }
{
    table[from..].fill(0);
}

// The end of a call: zeros behind the rows, and after a refusal zeros alone.
pub fn settle(outcome: Result<u32, Refusal>, table: &mut [u32]) -> Result<u32, Refusal>
    requires { 4 * rows outcome ≤ length table.old }
    ensures { (result ≡ outcome) × Zeroed (4 * rows outcome) table.old table.new }
{
    let rows = outcome.unwrap_or(0) as usize;
    zero_from(table, 4 * rows);
    outcome
}
