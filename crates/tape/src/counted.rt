// The counted rules: each entry takes one of those that are left, and gives it back at its end. A rule enters, calls its body and leaves, in three plain lines: a
// function that takes the body as a closure would stand in the rules' cycle of calls, where a closure's clauses have to be written out at each place again.
ghost use Rattle.std.specs.Prelude.{◌≡◌, eqb};
ghost use Rattle.tape.specs.View.{Enters, Leaves};

use super::Tape;
use crate::refusal::{Reason, Refusal};

impl<'a> Tape<'a> {
    // Takes an entry, and tells how many were left before.
    pub fn enter(&mut self) -> Result<u16, Refusal>
        ensures { Enters result self.old self.new }
    {
        let left = self.left;
        if left == 0 {
            return Err(self.refusal(Reason::Deep));
        }
        self.left = left - 1;
        Ok(left)
    }

    // Gives it back: so many are left as were before.
    pub fn leave(&mut self, left: u16)
        ensures { Leaves left self.old self.new }
    {
        self.left = left;
    }

    // Whether no entry is left.
    pub fn is_spent(&self) -> bool
        ensures { result ≡ eqb self.now.left 0 }
    {
        self.left == 0
    }
}
