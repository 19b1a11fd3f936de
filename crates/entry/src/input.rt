// The tests of the input before it is parsed.
ghost use Rattle.std.specs.Prelude.{◌≡◌};
ghost use Rattle.definition.specs.Classes.{is_token};
ghost use Rattle.definition.specs.Parse.{exprs, is_limit, is_entry, first_not, first_over};
ghost use Rattle.entry.specs.Round.{Checked, Finds};

use kinds::classes;
use tape::refusal::{Reason, Refusal};

pub fn is_limit(limit: u32) -> bool
    ensures { result ≡ is_limit limit }
{
    (1 <= limit) & (limit <= 256)
}

// Whether `exprs` takes this separator: a token's kind, and no trivia. (No kind is above 127, so the cast behind that test loses nothing.)
pub fn is_separator(separator: u32) -> bool
    ensures { result ≡ is_entry (exprs separator) }
{
    if separator > 127 {
        return false;
    }
    let k = separator as u8;
    classes::is_token(k) & !classes::is_trivia(k)
}

// The first index at which no token's kind stands.
fn first_not_token(kinds: &[u8]) -> Option<usize>
    ensures { Finds kinds.now result (first_not is_token kinds.now) }
{
    for (at, kind) in kinds.iter().enumerate() {
        if !classes::is_token(*kind) {
            return Some(at);
        }
    }
    None
}

// The first index at which the running total passes 16,777,216. (What is left of that number is counted down, so no sum can wrap.)
fn first_over(lens: &[u32]) -> Option<usize>
    ensures { Finds lens.now result (first_over 16777216 lens.now) }
{
    let mut left: u32 = 16777216;
    for (at, len) in lens.iter().enumerate() {
        if *len > left {
            return Some(at);
        }
        left -= *len;
    }
    None
}

// Refusals 1 to 5, in their order. `valid` says that the limit and the separator are.
pub fn check(valid: bool, kinds: &[u8], lens: &[u32]) -> Result<(), Refusal>
    ensures { Checked valid kinds.now lens.now result }
{
    if !valid {
        return Err(Refusal {
            reason: Reason::Asked,
            place: 0,
        });
    }
    let n = kinds.len();
    if n != lens.len() {
        return Err(Refusal {
            reason: Reason::Unequal,
            place: 0,
        });
    }
    if n > 65535 {
        return Err(Refusal {
            reason: Reason::Long,
            place: 0,
        });
    }
    if let Some(bad) = first_not_token(kinds) {
        return Err(Refusal {
            reason: Reason::NoToken,
            place: bad as u32,
        });
    }
    if let Some(over) = first_over(lens) {
        return Err(Refusal {
            reason: Reason::Bytes,
            place: over as u32,
        });
    }
    Ok(())
}
