// One case: the parser is asked it, and what it answers and leaves in the table is compared with what the list says.
ghost use Rattle.std.specs.Prelude.{◌≡◌, ◌+◌, ◌≤◌, ◌<◌, length, take, drop, slice_index, MatchOption};
ghost use Rattle.definition.specs.Parse.{parse};
ghost use Rattle.entry.specs.Promise.{Answers};
ghost use Rattle.entry.specs.Round.{entry_of};
ghost use Rattle.replay.specs.Case.{Agrees, Case, Fits, IsCounted, IsParts, Decides};

use crate::wanted::rows;
use entry::{Answer, Entry};

// What the table holds before the call, so that an element which is left alone shows.
const STAIN: u32 = 0xa5a5_a5a5;

// How many elements a case's table has at most.
const ELEMENTS: usize = 1024;

// What the parser answers, asked as C asks it.
fn ask(entry: Entry, limit: u32, kinds: &[u8], lens: &[u32], table: &mut [u32]) -> Answer
    ensures { Answers (parse (entry_of entry) kinds.now lens.now (length table.old) limit) (length table.old) result.number result.place result.rows table.new }
{
    match entry {
        Entry::Root => exports::krosstavel_root(kinds, lens, table, limit),
        Entry::Exprs { separator } => {
            exports::krosstavel_exprs(kinds, lens, table, separator, limit)
        }
        Entry::Format => exports::krosstavel_format(kinds, lens, table, limit),
    }
}

// So many numbers behind their count, and what follows them.
fn counted(list: &[u32]) -> Option<(&[u32], &[u32])>
    ensures { MatchOption result (length list.now < 1 + slice_index list.now 0) (λ p. IsCounted list.now p.0.now p.1.now) }
{
    let (count, rest) = list.split_first()?;
    rest.split_at_checked(*count as usize)
}

// A case, taken apart. `said` is number, place and row count of the answer, and then the shape.
#[derive(Clone, Copy)]
struct Parts<'a> {
    entry: Entry,
    limit: u32,
    elements: usize,
    kinds: &'a [u32],
    lens: &'a [u32],
    said: &'a [u32],
}

impl<'a> Parts<'a> {
    // Entry, separator, limit, elements, the kinds behind their count, the lengths behind theirs, the answer. `None` where the list is no case.
    fn of(list: &'a [u32]) -> Option<Self>
        ensures { MatchOption result (Case list.now → ⊥) (λ p. IsParts list.now (entry_of p.entry) p.limit p.elements p.kinds.now p.lens.now p.said.now) }
    {
        let [entry, separator, limit, elements, rest @ ..] = list else {
            return None;
        };
        let (kinds, rest) = counted(rest)?;
        let (lens, said) = counted(rest)?;
        if said.len() < 3 {
            return None;
        }
        Some(Parts {
            entry: Entry::numbered(*entry, *separator)?,
            limit: *limit,
            elements: *elements as usize,
            kinds,
            lens,
            said,
        })
    }

    // Whether the parser answers what the list says, in a table of as many elements as the two have that are lent.
    fn agrees(&self, kinds: &[u8], table: &mut [u32], wanted: &mut [u32]) -> bool
        requires said { 3 ≤ length self.now.said.now }
        requires room { length table.old ≡ length wanted.old }
        ensures { Decides result (Agrees (entry_of self.now.entry) self.now.limit kinds.now self.now.lens.now self.now.said.now (length table.old)) }
    {
        table.fill(STAIN);
        let answer = ask(self.entry, self.limit, kinds, self.lens, table);
        let front = [answer.number, answer.place, answer.rows];
        let Some(shape) = self.said.strip_prefix(&front) else {
            return false;
        };
        wanted.fill(0);
        if rows(shape, kinds, self.lens, wanted) != Some(answer.rows as usize) {
            return false;
        }
        *table == *wanted
    }
}

// What a case is judged in: its kinds as bytes, the parser's table, and the table that the list wants. Fixed, since the program has no heap.
#[derive(Drop)]
pub struct Scratch {
    kinds: [u8; 65536],
    table: [u32; ELEMENTS],
    wanted: [u32; ELEMENTS],
}

impl Scratch {
    pub(super) fn new() -> Self {
        Scratch {
            kinds: [0; 65536],
            table: [0; ELEMENTS],
            wanted: [0; ELEMENTS],
        }
    }

    // Whether a list is a case that the parser answers as the list says. False too where it is too large for the room.
    pub fn judge(&mut self, list: &[u32]) -> bool
        ensures { Decides result (Case list.now × Fits list.now self.old.kinds self.old.table self.old.wanted) }
    {
        self.compare(list).unwrap_or(false)
    }

    // `None` where the list is no case or is too large.
    fn compare(&mut self, list: &[u32]) -> Option<bool>
        ensures { MatchOption result (Case list.now × Fits list.now self.old.kinds self.old.table self.old.wanted → ⊥) (λ same. Decides same (Case list.now × Fits list.now self.old.kinds self.old.table self.old.wanted)) }
    {
        let parts = Parts::of(list)?;
        let n = parts.elements;
        if n > ELEMENTS {
            return None;
        }
        text::narrow(parts.kinds, &mut self.kinds)?;
        let kinds = &self.kinds[..parts.kinds.len()];
        let table = &mut self.table[..];
        let wanted = &mut self.wanted[..];
        Some(parts.agrees(kinds, &mut table[..n], &mut wanted[..n]))
    }
}
