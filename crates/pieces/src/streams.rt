// Token streams, attributes and labels. Each function is a rule of grammar.rs or a part of one: its Rust name and line stand above it.
ghost use Rattle.std.specs.Prelude.{◌≡◌, ◌<◌};
ghost use Rattle.definition.specs.Grammar.{stream as stream_prog, token_stream, attribute_stream, inner_attribute, inner_attributes, attribute as attribute_prog, attributes as attributes_prog, label as label_prog, labels as labels_prog};
ghost use Rattle.tape.specs.View.{Ran};
ghost use Rattle.kinds.specs.Matchers.{matcher_of};

use kinds::classes::glues;
use kinds::matcher::Matcher;
use kinds::*;
use tape::Tape;
use tape::refusal::{Reason, Refusal};

// token_stream (1427): its loop, to the bracket that closes. The end is seen before anything is written.
fn stream(p: &mut Tape, m: Matcher) -> Result<(), Refusal>
    ensures { Ran (stream_prog (matcher_of m)) result p.old p.new }
{
    let mut level = 1u32;
    loop {
        let k = p.peek();
        if k == EOF {
            return Err(p.refusal(Reason::Unclosed));
        }
        level = m.level_after(k, level);
        if level == 0 {
            return Ok(());
        }
        p.bump()?;
    }
}

// token_stream (1427).
pub fn token_stream(p: &mut Tape, m: Matcher) -> Result<(), Refusal>
    ensures { Ran (token_stream (matcher_of m)) result p.old p.new }
{
    let c = p.mark()?;
    stream(p, m)?;
    p.close_at(c, TOKEN_STREAM)
}

// attributes (253), inner_attributes (234): the tokens of one, if its `[` is there.
fn attribute_stream(p: &mut Tape) -> Result<(), Refusal>
    ensures { Ran attribute_stream result p.old p.new }
{
    if p.bump_if(BRACKET)? {
        token_stream(p, Matcher::Brackets)?;
        p.bump()?;
    }
    Ok(())
}

// inner_attributes (234): a turn of its loop.
fn inner_attribute(p: &mut Tape) -> Result<(), Refusal>
    ensures { Ran inner_attribute result p.old p.new }
{
    let c = p.mark()?;
    p.bump()?;
    p.bump_if(BANG)?;
    attribute_stream(p)?;
    p.close_at(c, INNER_ATTRIBUTE)
}

// inner_attributes (234).
pub fn inner_attributes(p: &mut Tape) -> Result<(), Refusal>
    ensures { Ran inner_attributes result p.old p.new }
{
    while glues(POUND, BANG, p.peek(), p.glued()) {
        inner_attribute(p)?;
    }
    Ok(())
}

// attributes (253): a turn of its loop.
fn attribute(p: &mut Tape) -> Result<(), Refusal>
    ensures { Ran attribute_prog result p.old p.new }
{
    let c = p.mark()?;
    p.bump()?;
    attribute_stream(p)?;
    p.close_at(c, ATTRIBUTE)
}

// attributes (253).
pub fn attributes(p: &mut Tape) -> Result<(), Refusal>
    ensures { Ran attributes_prog result p.old p.new }
{
    while glues(POUND, BRACKET, p.peek(), p.glued()) {
        attribute(p)?;
    }
    Ok(())
}

// labels (746): a turn of its loop.
fn label(p: &mut Tape) -> Result<(), Refusal>
    ensures { Ran label_prog result p.old p.new }
{
    p.bump()?;
    p.bump_while(COLON)?;
    Ok(())
}

// labels (746).
pub fn labels(p: &mut Tape) -> Result<(), Refusal>
    ensures { Ran labels_prog result p.old p.new }
{
    while p.peek() == LABEL {
        label(p)?;
    }
    Ok(())
}
