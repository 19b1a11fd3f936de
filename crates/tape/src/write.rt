// What is written: leaves, nodes and pending trivia.
ghost use Rattle.std.specs.Prelude.{◌≡◌, [], ◌∷◌, ℕ, ◌+◌, ◌*◌, ◌≤◌, ◌<◌, length, drop};
ghost use Rattle.std.proofs.lemmas.List.Edits.{sets};
ghost use Rattle.definition.specs.Tape.{start_of, capacity as capacity_of};
ghost use Rattle.definition.specs.Prog.{mark as marking, flush, bump as bump_prog, close};
ghost use Rattle.tape.specs.View.{state_of, Marked, Marks, Step, Ran};
ghost use Rattle.tape.specs.Places.{Room, LeafAt, Writing, Written};

use super::Tape;
use super::look::skip;
use crate::refusal::{Reason, Refusal};

// The rows that a table of n elements holds.
pub(super) fn capacity(n: usize) -> usize
    ensures { result ≡ capacity_of n }
{
    (n / 4).min(4294967295)
}

// The one row writer.
fn write_row(table: &mut [u32], rows: usize, kind: u32, back: u32, start: u32, len: u32)
    requires { 4 * rows + 4 ≤ length table.old }
    ensures { table.new ≡ sets table.old (4 * rows) (kind ∷ back ∷ start ∷ len ∷ []) }
{
    table[4 * rows] = kind;
    table[4 * rows + 1] = back;
    table[4 * rows + 2] = start;
    table[4 * rows + 3] = len;
}

// How far a list is written. (It is apart from the tape's fields: for all that the compiler knows, what is written to the table could change one of those, which it
// would read again behind each row.)
#[derive(Clone, Copy)]
struct Place {
    at: usize, // the next token
    rows: usize,
    byte: u32, // where that token starts
}

// Writes the token at a place, trivia or not, as a leaf, and tells the place behind it.
fn leaf(kinds: &[u8], lens: &[u32], table: &mut [u32], from: Place) -> Place
    requires { Room kinds.now lens.now table.old from }
    ensures { LeafAt kinds.now lens.now table.old from table.new result }
{
    let Place { at, rows, byte } = from;
    let kind = kinds[at];
    let len = lens[at];
    write_row(table, rows, kind as u32, 0, byte, len);
    Place {
        at: at + 1,
        rows: rows + 1,
        byte: byte + len,
    }
}

// Writes the tokens from a place up to `end` as leaves, as far as the table has room, and tells the place behind them. (Each leaf tells the next place, so there is no
// list to go over.)
fn leaves(
    kinds: &[u8],
    lens: &[u32],
    table: &mut [u32],
    room: usize,
    from: Place,
    end: usize,
) -> Place
    requires { Writing kinds.now lens.now table.old from end × (room ≡ capacity_of (length table.old)) }
    ensures { Written kinds.now lens.now end table.old from table.new result }
{
    let mut to = from;
    while to.at < end && to.rows < room {
        to = leaf(kinds, lens, table, to);
    }
    to
}

impl<'a> Tape<'a> {
    // Where the rows since the mark c start; with none, where the next token does.
    fn start_of(&self, c: usize) -> u32
        ensures { result ≡ start_of (drop c (state_of self.now).out) self.now.byte }
    {
        if c < self.rows {
            return self.table[4 * c + 2];
        }
        self.byte
    }

    // Writes pending trivia.
    pub fn flush_ws(&mut self) -> Result<(), Refusal>
        ensures { Ran flush result self.old self.new }
    {
        let next = self.next;
        if self.at == next {
            return Ok(());
        }
        let from = Place {
            at: self.at,
            rows: self.rows,
            byte: self.byte,
        };
        let to = leaves(self.kinds, self.lens, self.table, self.room, from, next);
        self.at = to.at;
        self.rows = to.rows;
        self.byte = to.byte;
        if to.at == next {
            return Ok(());
        }
        Err(self.refusal(Reason::Full))
    }

    // Writes pending trivia, then the token; at the end, where there is none, pending trivia alone.
    pub fn bump(&mut self) -> Result<(), Refusal>
        ensures { Ran bump_prog result self.old self.new }
    {
        let (kinds, next, second) = (self.kinds, self.next, self.second);
        self.flush_ws()?;
        if next >= kinds.len() {
            return Ok(());
        }
        let from = Place {
            at: next,
            rows: self.rows,
            byte: self.byte,
        };
        if from.rows >= self.room {
            let full = self.refusal(Reason::Full);
            return Err(full);
        }
        let after = skip(second + 1, kinds);
        let to = leaf(kinds, self.lens, self.table, from);
        self.at = to.at;
        self.rows = to.rows;
        self.byte = to.byte;
        self.next = second;
        self.second = after;
        Ok(())
    }

    // A checkpoint: pending trivia is written, and the row count is then the mark.
    pub fn mark(&mut self) -> Result<usize, Refusal>
        ensures { Marks result self.old self.new }
    {
        self.flush_ws()?;
        Ok(self.rows)
    }

    // A node over all rows since the mark c. (Whether c is a mark depends on the tape that it is used with, so it is asked for and is not in a type.)
    pub fn close_at(&mut self, c: usize, kind: u8) -> Result<(), Refusal>
        requires { Marked c self.old }
        ensures { Step c (close (marking c) kind) result self.old self.new }
    {
        let rows = self.rows;
        if rows >= self.room {
            return Err(self.refusal(Reason::Full));
        }
        let start = self.start_of(c);
        let len = self.byte - start;
        write_row(self.table, rows, kind as u32, (rows - c) as u32, start, len);
        self.rows = rows + 1;
        Ok(())
    }
}
