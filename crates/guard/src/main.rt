// Prints the tree of a stored guard. Standard input has three lines: the guard's text, the kinds of its tokens, and their lengths in bytes. The file
// `kinds` has the kinds' names, as docs/KINDS.md lists them.
#![tactic(auto)]

mod names;
mod tree;

ghost use Rattle.text.specs.Written.{Grows};

use std::io::Write;
use std::{fs, io};
use text::{put, put_number, read_full};
use tree::Tree;

// What `exprs` separates expressions by, and the deepest limit.
const COMMA: u32 = 24;

const DEEPEST: u32 = 256;

// Why there is no tree to print.
#[derive(Clone, Copy)]
enum Refusal {
    // The input is not three lines.
    Lines,
    // The kinds or the lengths are no list of numbers, or are too many.
    Numbers,
    // The parser's own: its number, and the token that it stopped at.
    Parser { number: u32, place: u32 },
}

// Room for the tokens' kinds and lengths, and for the tree's table: fixed, since the program has no heap.
#[derive(Drop)]
struct Room {
    kinds: [u8; 4096],
    lens: [u32; 8192],
    table: [u32; 8192],
}

impl Room {
    fn new() -> Self {
        Room {
            kinds: [0; 4096],
            lens: [0; 8192],
            table: [0; 8192],
        }
    }

    // Parses a guard's tokens, from their two lines, and tells how many rows the tree in the table has. (`lens` is lent for the kinds' numbers first. The call is
    // the one that C has, whose answer is numbers.)
    fn parse(&mut self, kind_line: &[u8], length_line: &[u8]) -> Result<usize, Refusal> {
        let Room { kinds, lens, table } = self;
        let n = text::numbers(kind_line, lens).ok_or(Refusal::Numbers)?;
        text::narrow(&lens[..n], kinds).ok_or(Refusal::Numbers)?;
        let m = text::numbers(length_line, lens).ok_or(Refusal::Numbers)?;
        let answer = exports::krosstavel_exprs(&kinds[..n], &lens[..m], table, COMMA, DEEPEST);
        if answer.number != 0 {
            return Err(Refusal::Parser {
                number: answer.number,
                place: answer.place,
            });
        }
        Ok(answer.rows as usize)
    }
}

// The guard's text, and how many rows its tree has, from the input's three lines.
fn parse<'a>(input: &'a [u8], room: &mut Room) -> Result<(&'a [u8], usize), Refusal> {
    let mut lines = input.split(|byte| *byte == b'\n');
    let text = lines.next().ok_or(Refusal::Lines)?;
    let kinds = lines.next().ok_or(Refusal::Lines)?;
    let lengths = lines.next().ok_or(Refusal::Lines)?;
    let rows = room.parse(kinds, lengths)?;
    Ok((text, rows))
}

// (By `put` and not by a `Display` and `write!`, which say nothing of what an error leaves in the writer.)
fn refuse<W: Write>(out: &mut W, refusal: Refusal) -> io::Result<()>
    ensures grows { Grows (W.contents out.old) (W.contents out.new) }
{
    match refusal {
        Refusal::Lines => put(
            out,
            b"no guard: three lines are wanted, its text, its tokens' kinds and their lengths\n",
        ),
        Refusal::Numbers => put(
            out,
            b"no guard: its tokens' kinds and their lengths are decimal numbers with one space between two\n",
        ),
        Refusal::Parser { number, place } => {
            put(out, b"refused with ")?;
            put_number(out, u64::from(number))?;
            put(out, b" at token ")?;
            put_number(out, u64::from(place))?;
            put(out, b"\n")
        }
    }
}

fn guard<W: Write>(out: &mut W, input: &[u8], names: &[u8], room: &mut Room) -> io::Result<()>
    ensures grows { Grows (W.contents out.old) (W.contents out.new) }
{
    match parse(input, room) {
        Ok((text, rows)) => Tree::new(&room.table, rows, text, names).print(out),
        Err(refusal) => refuse(out, refusal),
    }
}

fn main(rt: HostRuntime) -> io::Result<()> {
    let mut names = [0u8; 4096];
    let mut input = [0u8; 4096];
    let mut room = Room::new();
    let mut file = match fs::open(&rt, "kinds") {
        Ok(file) => file,
        Err(e) => return eprintln!(rt; "kinds: {e}"),
    };
    let k = read_full(&mut file, &mut names)?;
    let n = read_full(&mut rt.stdin(), &mut input)?;
    guard(&mut rt.stdout(), &input[..n], &names[..k], &mut room)
}
