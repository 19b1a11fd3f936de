// Blocks, and lists between brackets. Each function is a rule of grammar.rs or a part of one: its Rust name and line stand above it.
ghost use Rattle.std.specs.Prelude.{◌≡◌, ◌<◌};
ghost use Rattle.definition.specs.Grammar.{block, block_body, block_open, block_stmts, block_with, expr_list, items, parenthesized};
ghost use Rattle.kinds.specs.Modes.{listed_of};
ghost use Rattle.tape.specs.View.{Ran};

use super::expressions::expr;
use super::statements::stmt;
use kinds::classes::{in_block, is_expr_with};
use kinds::modes::{Brace, Listed, Range};
use kinds::*;
use pieces::patterns;
use tape::Tape;
use tape::refusal::Refusal;

// block (1339).
#[cycle(grammar)]
pub(super) fn block(p: &mut Tape) -> Result<(), Refusal>
    ensures { Ran block result p.old p.new }
{
    let c = p.mark()?;
    block_with(p)?;
    p.close_at(c, BLOCK)
}

// block_with (1347).
#[cycle(grammar)]
pub(super) fn block_with(p: &mut Tape) -> Result<(), Refusal>
    ensures { Ran block_with result p.old p.new }
{
    block_open(p)?;
    p.bump_if(BRACE_END)?;
    Ok(())
}

// block_with (1347): behind `{`.
#[cycle(grammar)]
fn block_open(p: &mut Tape) -> Result<(), Refusal>
    ensures { Ran block_open result p.old p.new }
{
    if p.bump_if(BRACE)? {
        block_body(p)?;
    }
    Ok(())
}

// block_with (1347): the body.
#[cycle(grammar)]
fn block_body(p: &mut Tape) -> Result<(), Refusal>
    ensures { Ran block_body result p.old p.new }
{
    let c = p.mark()?;
    block_stmts(p)?;
    p.close_at(c, BLOCK_BODY)
}

// block_with (1347): its loop.
#[cycle(grammar)]
fn block_stmts(p: &mut Tape) -> Result<(), Refusal>
    ensures { Ran block_stmts result p.old p.new }
{
    while in_block(p.peek()) {
        stmt(p)?;
    }
    Ok(())
}

// parenthesized (1384).
#[cycle(grammar)]
pub(super) fn parenthesized(p: &mut Tape, of: Listed, end: u8) -> Result<(), Refusal>
    ensures { Ran (parenthesized (listed_of of) end) result p.old p.new }
{
    p.bump()?;
    items(p, of)?;
    p.bump_if(end)?;
    Ok(())
}

// parenthesized (1384): its loop.
#[cycle(grammar)]
fn items(p: &mut Tape, of: Listed) -> Result<(), Refusal>
    ensures { Ran (items (listed_of of)) result p.old p.new }
{
    match of {
        Listed::Exprs => expr_list(p),
        Listed::Pats => patterns::pat_list(p),
    }
}

// parenthesized (1384): its loop over expressions.
#[cycle(grammar)]
fn expr_list(p: &mut Tape) -> Result<(), Refusal>
    ensures { Ran expr_list result p.old p.new }
{
    while is_expr_with(Brace::Yes, Range::Yes, p.peek(), p.glued()) {
        expr(p)?;
        p.bump_while(COMMA)?;
    }
    Ok(())
}
