// The kinds' names, from a list with a line `number name` for each.
ghost use Rattle.std.specs.Prelude.{◌≡◌, IfSome};
ghost use Rattle.guard.specs.Names.{is_number, IsPart};
ghost use Rattle.text.specs.Written.{Grows};

use std::io;
use std::io::Write;
use text::{put, put_number};

// Whether a text is this number, in decimal.
#[tactic(auto, unfolding(crate::specs::Names::is_number))]
fn is_number(text: &[u8], number: u32) -> bool
    ensures { result ≡ is_number text.now number }
{
    let mut room = [0u32; 1];
    text::numbers(text, &mut room) == Some(1) && room[0] == number
}

// The name of a kind, behind its number and a space.
fn name(names: &[u8], kind: u32) -> Option<&[u8]>
    ensures { IfSome result (λ name. IsPart name.now names.now) }
{
    for line in names.split(|byte| *byte == b'\n') {
        let space = line.iter().position(|byte| *byte == b' ');
        if let Some(space) = space
            && is_number(&line[..space], kind)
        {
            return Some(&line[space + 1..]);
        }
    }
    None
}

// A kind's name, or its number where the list has none.
pub fn print_name<W: Write>(out: &mut W, names: &[u8], kind: u32) -> io::Result<()>
    ensures grows { Grows (W.contents out.old) (W.contents out.new) }
{
    match name(names, kind) {
        Some(name) if !name.is_empty() => put(out, name),
        _ => put_number(out, u64::from(kind)),
    }
}
