// Lines of decimal numbers with one space between two: what the programs read their stored lists with, a byte at a time. The numbers go into lists that are
// lent, and a count tells how many, since the programs have no heap.
#![tactic(auto)]

mod fill;
mod writes;

ghost use Rattle.std.specs.Prelude.{◌≡◌, ◌+◌, cond, ltb, length, set};
ghost use Rattle.std.specs.Option.{is_some};
ghost use Rattle.text.specs.Line.{longer, stepped, stored, ended, kept, listed, filled};
ghost use Rattle.text.specs.Copy.{all_bytes, fits, copied};

pub use fill::read_full;
pub use writes::{put, put_number};

// A line of numbers, read up to some byte. Where a function takes or gives an `Option` of it, `None` is no such line, or one with more numbers than
// there is room for.
#[derive(Clone, Copy)]
pub enum Reading {
    // So many numbers are stored, and a digit must follow. (Before the first the line may end too.)
    Before(usize),
    // So many are stored, and the digits behind them mean this so far.
    Within(usize, u32),
}

// One digit more of a number that fits 32 bits.
#[tactic(auto, unfolding(crate::specs::Line::longer))]
fn digit(n: usize, value: u32, byte: u8) -> Option<Reading>
    ensures { result ≡ longer n value byte }
{
    if !byte.is_ascii_digit() {
        return None;
    }
    let next = value.checked_mul(10)?.checked_add(u32::from(byte - b'0'))?;
    Some(Reading::Within(n, next))
}

// Stores a number behind n others, and tells how many there are then. `None` where there is no room.
fn keep(out: &mut [u32], n: usize, value: u32) -> Option<usize>
    ensures { (result ≡ cond (ltb n (length out.old)) (Some (n + 1)) None) × (out.new ≡ set out.old n value) }
{
    if n >= out.len() {
        return None;
    }
    out[n] = value;
    Some(n + 1)
}

// One byte more of a line. A number is stored once the space behind it is read.
#[tactic(auto, unfolding(crate::specs::Line::stepped, crate::specs::Line::stored, crate::specs::Line::kept))]
pub fn step(reading: Option<Reading>, out: &mut [u32], byte: u8) -> Option<Reading>
    ensures { (result ≡ stepped reading (length out.old) byte) × (out.new ≡ stored reading out.old byte) }
{
    match reading? {
        Reading::Before(n) => digit(n, 0, byte),
        Reading::Within(n, value) => {
            if byte == b' ' {
                Some(Reading::Before(keep(out, n, value)?))
            } else {
                digit(n, value, byte)
            }
        }
    }
}

// The line's end, which stores its last number: how many numbers there are, or `None` where it is no list of numbers.
#[tactic(auto, unfolding(crate::specs::Line::ended, crate::specs::Line::kept))]
pub fn end(reading: Option<Reading>, out: &mut [u32]) -> Option<usize>
    ensures { (result ≡ ended reading (length out.old)) × (out.new ≡ kept reading out.old) }
{
    match reading? {
        Reading::Before(0) => Some(0),
        Reading::Before(_) => None,
        Reading::Within(n, value) => keep(out, n, value),
    }
}

// A whole line.
pub fn numbers(line: &[u8], out: &mut [u32]) -> Option<usize>
    ensures { (result ≡ listed line.now out.old) × (out.new ≡ filled line.now out.old) }
{
    let mut reading = Some(Reading::Before(0));
    for byte in line {
        reading = step(reading, out, *byte);
    }
    end(reading, out)
}

fn are_bytes(from: &[u32]) -> bool
    ensures { result ≡ all_bytes from.now }
{
    from.iter().all(|number| *number <= 255)
}

// Copies numbers that are bytes to the front of `to`. Where one is none, or `to` is too short, it answers `None` and copies nothing.
// (By index: a proof knows nothing of what is written through a `zip` with `iter_mut`.)
pub fn narrow(from: &[u32], to: &mut [u8]) -> Option<()>
    ensures { (is_some result ≡ fits from.now to.old) × (to.new ≡ copied from.now to.old) }
{
    if from.len() > to.len() || !are_bytes(from) {
        return None;
    }
    for (at, number) in from.iter().enumerate() {
        to[at] = *number as u8;
    }
    Some(())
}
