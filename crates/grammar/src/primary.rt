// What an expression begins with. Each function is a rule of grammar.rs or a part of one: its Rust name and line stand above it.
ghost use Rattle.std.specs.Prelude.{◌≡◌, ◌<◌};
ghost use Rattle.definition.specs.Prog.{mark as marking};
ghost use Rattle.definition.specs.Grammar.{closure_arguments, expr_primary, primary_path, range_to};
ghost use Rattle.kinds.specs.Modes.{brace_of, range_of, cx_of};
ghost use Rattle.tape.specs.View.{Marked, Step, Ran};
ghost use Rattle.grammar.specs.Cuts.{primary_last, primary_sign, primary_word};

use super::blocks::{block_with, parenthesized};
use super::control::{expr_for, expr_if, expr_loop, expr_match, expr_select, expr_while};
use super::expressions::{expr_if_any, expr_with, outer_expr_with};
use super::groups::{empty_group, expr_object, expr_tuple_or_group};
use super::steps::{finish, macro_call, recover};
use kinds::classes::{
    braced_by, glues, is_expr_with, is_lit, is_path_component, is_unary, ranged_by,
};
use kinds::matcher::Matcher;
use kinds::modes::{Binary, Brace, ExprCx, Listed, Range};
use kinds::*;
use pieces::{paths, streams};
use tape::Tape;
use tape::refusal::Refusal;

// expr_primary (756): its `match`, as far as `TemplateString`. c is its mark, here and below; k and g are the next kind and the one glued to it, looked at once,
// before the ladder of cases that goes over several functions.
#[cycle(grammar)]
pub(super) fn expr_primary(
    p: &mut Tape,
    brace: Brace,
    range: Range,
    cx: ExprCx,
) -> Result<u8, Refusal>
    ensures { Ran (expr_primary (brace_of brace) (range_of range) (cx_of cx)) result p.old p.new }
{
    let c = p.mark()?;
    let k = p.peek();
    let g = p.glued();
    match k {
        _ if is_lit(k) => {
            p.bump()?;
            finish(p, c, LIT)
        }
        _ if is_path_component(k) => primary_path(p, c, brace),
        OPEN_EMPTY => {
            let kind = empty_group(p)?;
            finish(p, c, kind)
        }
        PAREN => {
            let kind = expr_tuple_or_group(p)?;
            finish(p, c, kind)
        }
        BRACKET => {
            parenthesized(p, Listed::Exprs, BRACKET_END)?;
            finish(p, c, EXPR_ARRAY)
        }
        BRACE => {
            block_with(p)?;
            finish(p, c, BLOCK)
        }
        TEMPLATE_STRING => {
            p.bump()?;
            finish(p, c, TEMPLATE)
        }
        _ => primary_sign(p, c, brace, range, cx, k, g),
    }
}

// expr_primary (756): its `match` from `||` on: closures, a negative number, unary operators.
#[cycle(grammar)]
fn primary_sign(
    p: &mut Tape,
    c: usize,
    brace: Brace,
    range: Range,
    cx: ExprCx,
    k: u8,
    g: u8,
) -> Result<u8, Refusal>
    requires { Marked c p.old }
    ensures { Step c (primary_sign (marking c) (brace_of brace) (range_of range) (cx_of cx) k g) result p.old p.new }
{
    match k {
        PIPE_PIPE => {
            p.push(CLOSURE_ARGUMENTS)?;
            expr_with(p, brace, range, Binary::Yes, cx)?;
            finish(p, c, EXPR_CLOSURE)
        }
        PIPE => {
            closure_arguments(p)?;
            expr_with(p, brace, range, Binary::Yes, cx)?;
            finish(p, c, EXPR_CLOSURE)
        }
        _ if glues(DASH, NUMBER, k, g) => {
            p.bump()?;
            p.bump()?;
            finish(p, c, LIT)
        }
        _ if is_unary(k) => {
            p.bump()?;
            outer_expr_with(p, brace, range, Binary::No, cx)?;
            finish(p, c, EXPR_UNARY)
        }
        _ => primary_word(p, c, brace, range, cx, k, g),
    }
}

// expr_primary (756): its `match` from `if` on: the words.
#[cycle(grammar)]
fn primary_word(
    p: &mut Tape,
    c: usize,
    brace: Brace,
    range: Range,
    cx: ExprCx,
    k: u8,
    g: u8,
) -> Result<u8, Refusal>
    requires { Marked c p.old }
    ensures { Step c (primary_word (marking c) (brace_of brace) (range_of range) (cx_of cx) k g) result p.old p.new }
{
    match k {
        IF => {
            expr_if(p)?;
            finish(p, c, EXPR_IF)
        }
        WHILE => {
            expr_while(p)?;
            finish(p, c, EXPR_WHILE)
        }
        LOOP => {
            expr_loop(p)?;
            finish(p, c, EXPR_LOOP)
        }
        BREAK => {
            p.bump()?;
            streams::labels(p)?;
            expr_if_any(p, brace, range)?;
            finish(p, c, EXPR_BREAK)
        }
        CONTINUE => {
            p.bump()?;
            streams::labels(p)?;
            finish(p, c, EXPR_CONTINUE)
        }
        RETURN => {
            p.bump()?;
            expr_if_any(p, brace, range)?;
            finish(p, c, EXPR_RETURN)
        }
        YIELD => {
            p.bump()?;
            expr_if_any(p, brace, range)?;
            finish(p, c, EXPR_YIELD)
        }
        FOR => {
            expr_for(p)?;
            finish(p, c, EXPR_FOR)
        }
        SELECT => {
            expr_select(p)?;
            finish(p, c, EXPR_SELECT)
        }
        MATCH => {
            expr_match(p)?;
            finish(p, c, EXPR_MATCH)
        }
        _ => primary_last(p, c, brace, range, cx, k, g),
    }
}

// expr_primary (756): its `match` from `..` on.
#[cycle(grammar)]
fn primary_last(
    p: &mut Tape,
    c: usize,
    brace: Brace,
    range: Range,
    cx: ExprCx,
    k: u8,
    g: u8,
) -> Result<u8, Refusal>
    requires { Marked c p.old }
    ensures { Step c (primary_last (marking c) (brace_of brace) (range_of range) (cx_of cx) k g) result p.old p.new }
{
    if ranged_by(range, DOT_DOT, k) {
        return range_to(p, c, brace);
    }
    if ranged_by(range, DOT_DOT_EQ, k) {
        p.bump()?;
        outer_expr_with(p, brace, Range::No, Binary::Yes, ExprCx::ErrorCx)?;
        return finish(p, c, EXPR_RANGE_TO_INCLUSIVE);
    }
    if glues(POUND, BRACE, k, g) {
        p.push(ANONYMOUS_OBJECT_KEY)?;
        expr_object(p)?;
        return finish(p, c, EXPR_OBJECT);
    }
    recover(p, cx)?;
    finish(p, c, ERROR)
}

// expr_primary (756): the case of a path.
#[cycle(grammar)]
fn primary_path(p: &mut Tape, c: usize, brace: Brace) -> Result<u8, Refusal>
    requires { Marked c p.old }
    ensures { Step c (primary_path (marking c) (brace_of brace)) result p.old p.new }
{
    paths::path(p)?;
    let k = p.peek();
    let g = p.glued();
    if braced_by(brace, k) {
        expr_object(p)?;
        return finish(p, c, EXPR_OBJECT);
    }
    if glues(BANG, PAREN, k, g) {
        return macro_call(p, c, Matcher::Parens);
    }
    if glues(BANG, BRACE, k, g) {
        return macro_call(p, c, Matcher::Braces);
    }
    Ok(PATH)
}

// expr_primary (756): what stands between the bars of a closure.
#[cycle(grammar)]
fn closure_arguments(p: &mut Tape) -> Result<(), Refusal>
    ensures { Ran closure_arguments result p.old p.new }
{
    let c = p.mark()?;
    parenthesized(p, Listed::Pats, PIPE)?;
    p.close_at(c, CLOSURE_ARGUMENTS)
}

// expr_primary (756): the case of `..`.
#[cycle(grammar)]
fn range_to(p: &mut Tape, c: usize, brace: Brace) -> Result<u8, Refusal>
    requires { Marked c p.old }
    ensures { Step c (range_to (marking c) (brace_of brace)) result p.old p.new }
{
    p.bump()?;
    if is_expr_with(brace, Range::No, p.peek(), p.glued()) {
        outer_expr_with(p, brace, Range::No, Binary::Yes, ExprCx::ErrorCx)?;
        return finish(p, c, EXPR_RANGE_TO);
    }
    finish(p, c, EXPR_RANGE_FULL)
}
