// Groups, tuples and objects. Each function is a rule of grammar.rs or a part of one: its Rust name and line stand above it.
ghost use Rattle.std.specs.Prelude.{◌≡◌, ◌<◌};
ghost use Rattle.definition.specs.Grammar.{empty_group, expr_object, expr_tuple_or_group, object_fields, tuple_items};
ghost use Rattle.tape.specs.View.{Ran};

use super::expressions::{expr, expr_after};
use kinds::classes::{is_expr_with, is_object_key};
use kinds::modes::{Brace, Range};
use kinds::*;
use tape::Tape;
use tape::refusal::Refusal;

// empty_group (998).
#[cycle(grammar)]
pub(super) fn empty_group(p: &mut Tape) -> Result<u8, Refusal>
    ensures { Ran empty_group result p.old p.new }
{
    p.bump()?;
    expr(p)?;
    p.bump_if(CLOSE_EMPTY)?;
    Ok(EXPR_EMPTY_GROUP)
}

// expr_tuple_or_group (1006).
#[cycle(grammar)]
pub(super) fn expr_tuple_or_group(p: &mut Tape) -> Result<u8, Refusal>
    ensures { Ran expr_tuple_or_group result p.old p.new }
{
    p.bump()?;
    let is_tuple = tuple_items(p)?;
    p.bump_if(PAREN_END)?;
    if is_tuple {
        return Ok(EXPR_TUPLE);
    }
    Ok(EXPR_GROUP)
}

// expr_tuple_or_group (1006): its loop; answers whether a comma was there.
#[cycle(grammar)]
fn tuple_items(p: &mut Tape) -> Result<bool, Refusal>
    ensures { Ran tuple_items result p.old p.new }
{
    let mut is_tuple = false;
    while is_expr_with(Brace::Yes, Range::Yes, p.peek(), p.glued()) {
        expr(p)?;
        let comma = p.bump_while(COMMA)?;
        is_tuple |= comma;
    }
    Ok(is_tuple)
}

// expr_object (1025).
#[cycle(grammar)]
pub(super) fn expr_object(p: &mut Tape) -> Result<(), Refusal>
    ensures { Ran expr_object result p.old p.new }
{
    p.bump()?;
    object_fields(p)?;
    p.bump_if(BRACE_END)?;
    Ok(())
}

// expr_object (1025): its loop.
#[cycle(grammar)]
fn object_fields(p: &mut Tape) -> Result<(), Refusal>
    ensures { Ran object_fields result p.old p.new }
{
    while is_object_key(p.peek()) {
        p.bump()?;
        expr_after(p, COLON)?;
        p.bump_while(COMMA)?;
    }
    Ok(())
}
