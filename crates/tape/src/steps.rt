// Small steps of the rules, made of looks and writes.
ghost use Rattle.std.specs.Prelude.{◌≡◌, ◌<◌};
ghost use Rattle.definition.specs.Grammar.{bump_if, bump_while, push as push_prog, empty as empty_prog, advance as advance_prog};
ghost use Rattle.kinds.specs.Ops.{op_of};
ghost use Rattle.tape.specs.View.{Ran};

use super::Tape;
use crate::refusal::Refusal;
use kinds::operators::Op;

impl<'a> Tape<'a> {
    // Bumps a token of kind k, if it is the next, and tells whether it was.
    pub fn bump_if(&mut self, k: u8) -> Result<bool, Refusal>
        ensures { Ran (bump_if k) result self.old self.new }
    {
        if self.peek() == k {
            self.bump()?;
            return Ok(true);
        }
        Ok(false)
    }

    // Bumps tokens of kind k, and tells whether any was bumped.
    pub fn bump_while(&mut self, k: u8) -> Result<bool, Refusal>
        requires { 0 < k }
        ensures { Ran (bump_while k) result self.old self.new }
    {
        let mut any = false;
        while self.peek() == k {
            self.bump()?;
            any = true;
        }
        Ok(any)
    }

    // The tokens of an operator.
    pub fn advance(&mut self, op: Op) -> Result<(), Refusal>
        ensures { Ran (advance_prog (op_of op)) result self.old self.new }
    {
        if op.tokens == 2 {
            self.bump()?;
            return self.bump();
        }
        self.bump()
    }

    // One token as a node.
    pub fn push(&mut self, kind: u8) -> Result<(), Refusal>
        ensures { Ran (push_prog kind) result self.old self.new }
    {
        let c = self.mark()?;
        self.bump()?;
        self.close_at(c, kind)
    }

    // An empty node.
    pub fn empty(&mut self, kind: u8) -> Result<(), Refusal>
        ensures { Ran (empty_prog kind) result self.old self.new }
    {
        let c = self.mark()?;
        self.close_at(c, kind)
    }
}
