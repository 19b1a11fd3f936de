// Replays the oracle's fixed list, with no Rust at hand: each line of standard input is a case with its answer (oracle/README.md, "A case").
// The parser is asked the case, and number, place, row count and every element of the table are compared. One line says how many differ.
#![tactic(auto)]

mod case;
mod tally;
mod wanted;

ghost use Rattle.std.specs.Prelude.{◌≡◌, true, ◌+◌, ◌≤◌, ◌<◌, ◌^◌, length, Some, IfOk, OnErr};
ghost use Rattle.std.specs.ControlFlow.{MatchControlFlow};
ghost use Rattle.text.specs.Written.{Grows, Shrinks};
ghost use Rattle.text.specs.declared.Reading.TheVariants.{Before};
ghost use Rattle.text.specs.Line.{kept};
ghost use Rattle.replay.specs.Case.{Decides};
ghost use Rattle.replay.specs.Input.{LineHolds, Stepped, Fed};

use case::Scratch;
use std::io;
use std::io::{Read, Write};
use std::ops::ControlFlow;
use tally::Tally;
use text::{Reading, put, put_number, read_full};

// How far the input is read: where in a line (`None` in one that is no list of numbers), and what the lines before it came to.
#[derive(Clone, Copy)]
struct Place {
    reading: Option<Reading>,
    tally: Tally,
}

// Room for the numbers of the longest line, and for a case. Fixed, since the program has no heap.
#[derive(Drop)]
struct Room {
    numbers: [u32; 131328],
    scratch: Scratch,
}

// How many pieces of 4,096 bytes are read at most.
const PIECES: usize = 1048576;

impl Room {
    fn new() -> Self {
        Room {
            numbers: [0; 131328],
            scratch: Scratch::new(),
        }
    }

    // The end of a line: whether its numbers are a case that holds. A line that is no list of numbers is none.
    fn line(&mut self, reading: Option<Reading>) -> bool
        ensures { (result ≡ true → LineHolds reading self.old.numbers) × (self.new.numbers ≡ kept reading self.old.numbers) }
    {
        let Some(n) = text::end(reading, &mut self.numbers) else {
            return false;
        };
        self.scratch.judge(&self.numbers[..n])
    }

    // One byte more of the input.
    fn byte(&mut self, place: Place, byte: u8) -> Place
        requires { place.tally.cases < 2 ^ 63 }
        ensures { Stepped place byte self.old.numbers result self.new.numbers }
    {
        let Place { reading, tally } = place;
        if byte != b'\n' {
            let reading = text::step(reading, &mut self.numbers, byte);
            return Place { reading, tally };
        }
        let holds = self.line(reading);
        let tally = tally.counted(holds);
        Place {
            reading: Some(Reading::Before(0)),
            tally,
        }
    }

    // The bytes of a piece of the input, one after the other.
    fn piece(&mut self, place: Place, bytes: &[u8]) -> Place
        requires { place.tally.cases + length bytes.now < 2 ^ 63 }
        ensures { Fed place bytes.now self.old.numbers result self.new.numbers }
    {
        let mut place = place;
        for byte in bytes {
            place = self.byte(place, *byte);
        }
        place
    }

    // One piece more of the input. One that is short is the last. (No contract can say which bytes standard input gives.)
    fn read_piece<R: Read>(
        &mut self,
        input: &mut R,
        place: Place,
    ) -> io::Result<ControlFlow<Place, Place>>
        requires { place.tally.cases < 2 ^ 62 }
        ensures ok { IfOk result (λ turn. MatchControlFlow turn (λ p. p.tally.cases ≤ place.tally.cases + 4096) (λ p. p.tally.cases ≤ place.tally.cases + 4096)) }
        ensures err { OnErr result (self.new ≡ self.old) }
        ensures shrinks { Shrinks (R.remaining input.old) (R.remaining input.new) }
    {
        let mut buffer = [0u8; 4096];
        let n = read_full(input, &mut buffer)?;
        let place = self.piece(place, &buffer[..n]);
        if n < buffer.len() {
            return Ok(ControlFlow::Break(place));
        }
        Ok(ControlFlow::Continue(place))
    }

    // The input's end: its last line, where no line end stands behind that.
    fn last(&mut self, place: Place) -> Tally
        requires { place.tally.cases < 2 ^ 63 }
        ensures { result.differ ≡ place.tally.differ → (place.reading ≡ Some (Before 0) → ⊥) → LineHolds place.reading self.old.numbers }
    {
        if at_start(place.reading) {
            return place.tally;
        }
        let holds = self.line(place.reading);
        place.tally.counted(holds)
    }
}

// Whether no byte of a line is read yet.
fn at_start(reading: Option<Reading>) -> bool
    ensures { Decides result (reading ≡ Some (Before 0)) }
{
    matches!(reading, Some(Reading::Before(0)))
}

// The tally of the whole input, or `None` where it is too long to be read whole.
fn replay<R: Read>(input: &mut R, room: &mut Room) -> io::Result<Option<Tally>>
    ensures shrinks { Shrinks (R.remaining input.old) (R.remaining input.new) }
{
    let mut place = Place {
        reading: Some(Reading::Before(0)),
        tally: Tally::new(),
    };
    for _ in 0..PIECES {
        match room.read_piece(input, place)? {
            ControlFlow::Continue(next) => place = next,
            ControlFlow::Break(end) => return Ok(Some(room.last(end))),
        }
    }
    Ok(None)
}

// (By `put` and not by `write!`, which says nothing of what an error leaves in the writer.)
fn show<W: Write>(out: &mut W, tally: Tally) -> io::Result<()>
    ensures grows { Grows (W.contents out.old) (W.contents out.new) }
{
    put_number(out, tally.cases as u64)?;
    put(out, b" cases, ")?;
    put_number(out, tally.differ as u64)?;
    put(out, b" differ")?;
    let Some(line) = tally.first else {
        return put(out, b"\n");
    };
    put(out, b", the first on line ")?;
    put_number(out, line as u64)?;
    put(out, b"\n")
}

fn main(rt: HostRuntime) -> io::Result<()> {
    let mut room = Room::new();
    let tally = replay(&mut rt.stdin(), &mut room)?;
    let mut out = rt.stdout();
    match tally {
        Some(tally) => show(&mut out, tally),
        None => put(&mut out, b"the list is too long to be read whole\n"),
    }
}
