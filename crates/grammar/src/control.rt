// Control flow. Each function is a rule of grammar.rs or a part of one: its Rust name and line stand above it.
ghost use Rattle.std.specs.Prelude.{◌≡◌, ◌<◌};
ghost use Rattle.definition.specs.Grammar.{condition, condition_init, condition_let, else_branch, else_branches, else_if, expr_for, expr_if, expr_loop, expr_match, expr_select, expr_while, for_in, match_case, match_list, select_case, select_list, select_pat};
ghost use Rattle.tape.specs.View.{Ran};

use super::blocks::block;
use super::expressions::{expr_after, expr_with};
use kinds::classes::{is_pat, is_select_arm};
use kinds::modes::{Binary, Brace, ExprCx, Range};
use kinds::*;
use pieces::patterns;
use tape::Tape;
use tape::refusal::Refusal;

// expr_if (1071).
#[cycle(grammar)]
pub(super) fn expr_if(p: &mut Tape) -> Result<(), Refusal>
    ensures { Ran expr_if result p.old p.new }
{
    p.bump()?;
    condition(p)?;
    block(p)?;
    else_branches(p)
}

// expr_if (1071): its loop.
#[cycle(grammar)]
fn else_branches(p: &mut Tape) -> Result<(), Refusal>
    ensures { Ran else_branches result p.old p.new }
{
    while p.peek() == ELSE {
        else_branch(p)?;
    }
    Ok(())
}

// expr_if (1071): a turn of its loop.
#[cycle(grammar)]
fn else_branch(p: &mut Tape) -> Result<(), Refusal>
    ensures { Ran else_branch result p.old p.new }
{
    let c = p.mark()?;
    p.bump()?;
    let is_else_if = else_if(p)?;
    block(p)?;
    if is_else_if {
        return p.close_at(c, EXPR_ELSE_IF);
    }
    p.close_at(c, EXPR_ELSE)
}

// expr_if (1071): `if` and its condition; answers whether they are there.
#[cycle(grammar)]
fn else_if(p: &mut Tape) -> Result<bool, Refusal>
    ensures { Ran else_if result p.old p.new }
{
    if p.bump_if(IF)? {
        condition(p)?;
        return Ok(true);
    }
    Ok(false)
}

// expr_while (1100).
#[cycle(grammar)]
pub(super) fn expr_while(p: &mut Tape) -> Result<(), Refusal>
    ensures { Ran expr_while result p.old p.new }
{
    p.bump()?;
    condition(p)?;
    block(p)
}

// expr_loop (1108).
#[cycle(grammar)]
pub(super) fn expr_loop(p: &mut Tape) -> Result<(), Refusal>
    ensures { Ran expr_loop result p.old p.new }
{
    p.bump()?;
    block(p)
}

// expr_for (1115).
#[cycle(grammar)]
pub(super) fn expr_for(p: &mut Tape) -> Result<(), Refusal>
    ensures { Ran expr_for result p.old p.new }
{
    p.bump()?;
    patterns::pat(p)?;
    for_in(p)?;
    block(p)
}

// expr_for (1115): `in` and its expression.
#[cycle(grammar)]
fn for_in(p: &mut Tape) -> Result<(), Refusal>
    ensures { Ran for_in result p.old p.new }
{
    if p.bump_if(IN)? {
        expr_with(p, Brace::No, Range::Yes, Binary::Yes, ExprCx::ErrorCx)?;
    }
    Ok(())
}

// expr_match (1129).
#[cycle(grammar)]
pub(super) fn expr_match(p: &mut Tape) -> Result<(), Refusal>
    ensures { Ran expr_match result p.old p.new }
{
    p.bump()?;
    expr_with(p, Brace::No, Range::Yes, Binary::Yes, ExprCx::ErrorCx)?;
    if p.peek() == BRACE {
        p.bump()?;
        match_list(p)?;
        p.bump_if(BRACE_END)?;
    }
    Ok(())
}

// expr_match (1129): its loop.
#[cycle(grammar)]
fn match_list(p: &mut Tape) -> Result<(), Refusal>
    ensures { Ran match_list result p.old p.new }
{
    while is_pat(p.peek(), p.glued()) {
        match_case(p)?;
        p.bump_while(COMMA)?;
    }
    Ok(())
}

// expr_match (1129): an arm.
#[cycle(grammar)]
fn match_case(p: &mut Tape) -> Result<(), Refusal>
    ensures { Ran match_case result p.old p.new }
{
    let c = p.mark()?;
    patterns::pat(p)?;
    expr_after(p, IF)?;
    expr_after(p, ROCKET)?;
    p.close_at(c, EXPR_MATCH_ARM)
}

// expr_select (1161).
#[cycle(grammar)]
pub(super) fn expr_select(p: &mut Tape) -> Result<(), Refusal>
    ensures { Ran expr_select result p.old p.new }
{
    p.bump()?;
    if p.peek() == BRACE {
        p.bump()?;
        select_list(p)?;
        p.bump_if(BRACE_END)?;
    }
    Ok(())
}

// expr_select (1161): its loop.
#[cycle(grammar)]
fn select_list(p: &mut Tape) -> Result<(), Refusal>
    ensures { Ran select_list result p.old p.new }
{
    while is_select_arm(p.peek(), p.glued()) {
        select_case(p)?;
        p.bump_while(COMMA)?;
    }
    Ok(())
}

// expr_select (1161): an arm.
#[cycle(grammar)]
fn select_case(p: &mut Tape) -> Result<(), Refusal>
    ensures { Ran select_case result p.old p.new }
{
    let c = p.mark()?;
    select_pat(p)?;
    expr_after(p, ROCKET)?;
    p.close_at(c, EXPR_SELECT_ARM)
}

// expr_select (1161): its inner `match`.
#[cycle(grammar)]
fn select_pat(p: &mut Tape) -> Result<(), Refusal>
    ensures { Ran select_pat result p.old p.new }
{
    if p.peek() == DEFAULT {
        return p.bump();
    }
    patterns::pat(p)?;
    expr_after(p, EQ)
}

// condition (1198).
#[cycle(grammar)]
fn condition(p: &mut Tape) -> Result<(), Refusal>
    ensures { Ran condition result p.old p.new }
{
    if p.peek() == LET {
        return condition_let(p);
    }
    expr_with(p, Brace::No, Range::Yes, Binary::Yes, ExprCx::ErrorCx)
}

// condition (1198): behind `let`.
#[cycle(grammar)]
fn condition_let(p: &mut Tape) -> Result<(), Refusal>
    ensures { Ran condition_let result p.old p.new }
{
    let c = p.mark()?;
    p.bump()?;
    patterns::pat(p)?;
    condition_init(p)?;
    p.close_at(c, CONDITION)
}

// condition (1198): `=` and its expression. (`for_in` is the same behind `in`; the definition has a program for each, so each has its function.)
#[cycle(grammar)]
fn condition_init(p: &mut Tape) -> Result<(), Refusal>
    ensures { Ran condition_init result p.old p.new }
{
    if p.bump_if(EQ)? {
        expr_with(p, Brace::No, Range::Yes, Binary::Yes, ExprCx::ErrorCx)?;
    }
    Ok(())
}
