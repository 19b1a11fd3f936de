// What is seen of the tokens ahead. Trivia is passed over.
ghost use Rattle.std.specs.Prelude.{◌≡◌, ℕ, ◌+◌, drop, get_or};
ghost use Rattle.definition.specs.Classes.{treated as treated_as};
ghost use Rattle.definition.specs.Tape.{nth_kind, glued_kind};
ghost use Rattle.laws.specs.Looking.{skipped};
ghost use Rattle.tape.specs.View.{Refuses};

use super::Tape;
use crate::refusal::{Reason, Refusal};
use kinds::EOF;
use kinds::classes::{is_trivia, treated};

// The place of the first token from `at` on that is no trivia, or the token count. (A `while`: `at` may lie past the end, where a part of the list or an
// iterator would want a case of its own, and a place is wanted, not a count.)
fn skip_rest(at: usize, kinds: &[u8]) -> usize
    ensures { result ≡ skipped at kinds.now }
{
    let mut at = at;
    while at < kinds.len() && is_trivia(kinds[at]) {
        at += 1;
    }
    at
}

// The same. Mostly no trivia stands at `at`, and then no loop is begun.
pub(super) fn skip(at: usize, kinds: &[u8]) -> usize
    ensures { result ≡ skipped at kinds.now }
{
    if at < kinds.len() && is_trivia(kinds[at]) {
        return skip_rest(at + 1, kinds);
    }
    at
}

impl<'a> Tape<'a> {
    // The kind of a token, or EOF past the last.
    fn kind_at(&self, at: usize) -> u8
        ensures { result ≡ treated_as (get_or self.now.kinds.now at 0) }
    {
        if at < self.kinds.len() {
            return treated(self.kinds[at]);
        }
        EOF
    }

    // The kind of the next token that is no trivia, or EOF.
    pub fn peek(&self) -> u8
        ensures { result ≡ nth_kind 0 (drop self.now.at self.now.kinds.now) }
    {
        self.kind_at(self.next)
    }

    // The kind of the one after it: nth(1).
    pub fn peek_second(&self) -> u8
        ensures { result ≡ nth_kind 1 (drop self.now.at self.now.kinds.now) }
    {
        self.kind_at(self.second)
    }

    // The kind directly after the peeked token, EOF for trivia or the end: glued(1).
    pub fn glued(&self) -> u8
        ensures { result ≡ glued_kind (get_or self.now.kinds.now (skipped self.now.at self.now.kinds.now + 1) 0) }
    {
        if self.second != self.next + 1 {
            return EOF;
        }
        self.kind_at(self.second)
    }

    // The place of the next token that is no trivia, or the token count.
    pub fn here(&self) -> u32
        ensures { result ≡ skipped self.now.at self.now.kinds.now }
    {
        self.next as u32
    }

    // A refusal here.
    pub fn refusal(&self, reason: Reason) -> Refusal
        ensures { Refuses reason result self.now }
    {
        Refusal {
            reason,
            place: self.here(),
        }
    }
}
