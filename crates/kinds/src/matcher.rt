// The brackets that a token stream counts, and how deep in them it is. Proved equal to the definition's.
#![tactic(auto, unfolding(definition::specs::Grammar::opens, definition::specs::Grammar::shuts, definition::specs::Grammar::level_after))]

ghost use Rattle.std.specs.Prelude.{◌≡◌, ◌≤◌, ◌<◌};
ghost use Rattle.definition.specs.Grammar.{opens as opening, shuts as shutting};
ghost use Rattle.kinds.specs.Matchers.{matcher_of, Leveled};

use super::{BRACE, BRACE_END, BRACKET, BRACKET_END, PAREN, PAREN_END};

#[derive(Clone, Copy, PartialEq, Eq)]
pub enum Matcher {
    Brackets,
    Parens,
    Braces,
}

impl Matcher {
    // The kind that goes a level deeper.
    pub fn opens(self) -> u8
        ensures { result ≡ opening (matcher_of self) }
    {
        match self {
            Matcher::Brackets => BRACKET,
            Matcher::Parens => PAREN,
            Matcher::Braces => BRACE,
        }
    }

    // The kind that comes back from one.
    pub fn shuts(self) -> u8
        ensures { result ≡ shutting (matcher_of self) }
    {
        match self {
            Matcher::Brackets => BRACKET_END,
            Matcher::Parens => PAREN_END,
            Matcher::Braces => BRACE_END,
        }
    }

    // The level behind a token of kind k.
    pub fn level_after(self, k: u8, level: u32) -> u32
        requires { (0 < level) × (level ≤ 65536) }
        ensures { Leveled self k level result }
    {
        if k == self.opens() {
            level + 1
        } else if k == self.shuts() {
            level - 1
        } else {
            level
        }
    }
}
