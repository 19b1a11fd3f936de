// Expressions: what stands round an operand, and where one may be left out. Each function is a rule of grammar.rs or a part of one: its Rust name and line stand above it.
ghost use Rattle.std.specs.Prelude.{◌≡◌, ◌<◌};
ghost use Rattle.definition.specs.Prog.{mark as marking};
ghost use Rattle.definition.specs.Grammar.{expr as expr_prog, expr_after, expr_if_any, expr_with, outer_binary, outer_expr_with, outer_expr_with_text};
ghost use Rattle.kinds.specs.Modes.{brace_of, range_of, binary_of, cx_of};
ghost use Rattle.tape.specs.View.{Marked, Step, Ran};
ghost use Rattle.grammar.specs.Cuts.{outer_assign, outer_chain, outer_op, outer_rest};

use super::chains::expr_chain;
use super::operators::{expr_binary, expr_range};
use super::primary::expr_primary;
use super::steps::{finish, lookahead, operators_next};
use kinds::classes::{is_expr_with, is_range};
use kinds::modes::{Binary, Brace, ExprCx, Range};
use kinds::*;
use pieces::{paths, streams};
use tape::Tape;
use tape::refusal::Refusal;

// expr (663): expr_with in its first modes.
#[cycle(grammar)]
pub fn expr(p: &mut Tape) -> Result<(), Refusal>
    ensures { Ran expr_prog result p.old p.new }
{
    expr_with(p, Brace::Yes, Range::Yes, Binary::Yes, ExprCx::ErrorCx)
}

// expr_with (675).
#[cycle(grammar)]
pub fn expr_with(
    p: &mut Tape,
    brace: Brace,
    range: Range,
    binary: Binary,
    cx: ExprCx,
) -> Result<(), Refusal>
    ensures { Ran (expr_with (brace_of brace) (range_of range) (binary_of binary) (cx_of cx)) result p.old p.new }
{
    let c = p.mark()?;
    streams::attributes(p)?;
    paths::modifiers(p)?;
    streams::labels(p)?;
    outer_expr_with(p, brace, range, binary, cx)?;
    p.close_at(c, EXPR)
}

// outer_expr_with (703): counted.
#[cycle(grammar)]
pub(super) fn outer_expr_with(
    p: &mut Tape,
    brace: Brace,
    range: Range,
    binary: Binary,
    cx: ExprCx,
) -> Result<u8, Refusal>
    ensures { Ran (outer_expr_with (brace_of brace) (range_of range) (binary_of binary) (cx_of cx)) result p.old p.new }
{
    let left = p.enter()?;
    let done = outer_expr_with_text(p, brace, range, binary, cx);
    p.leave(left);
    done
}

// outer_expr_with (703): from its mark c on.
#[cycle(grammar)]
fn outer_expr_with_text(
    p: &mut Tape,
    brace: Brace,
    range: Range,
    binary: Binary,
    cx: ExprCx,
) -> Result<u8, Refusal>
    ensures { Ran (outer_expr_with_text (brace_of brace) (range_of range) (binary_of binary) (cx_of cx)) result p.old p.new }
{
    let c = p.mark()?;
    let kind = expr_primary(p, brace, range, cx)?;
    if is_range(kind) {
        return Ok(kind);
    }
    outer_chain(p, c, kind, brace, range, binary, cx)
}

// outer_expr_with (703): behind the first operand. c is its mark, here and below.
#[cycle(grammar)]
fn outer_chain(
    p: &mut Tape,
    c: usize,
    kind: u8,
    brace: Brace,
    range: Range,
    binary: Binary,
    cx: ExprCx,
) -> Result<u8, Refusal>
    requires { Marked c p.old }
    ensures { Step c (outer_chain (marking c) kind (brace_of brace) (range_of range) (binary_of binary) (cx_of cx)) result p.old p.new }
{
    let last = expr_chain(p, c, kind)?;
    if p.peek() == EQ {
        return outer_assign(p, c, brace, cx);
    }
    outer_rest(p, c, last, brace, range, binary, cx)
}

// outer_expr_with (703): behind `=`.
#[cycle(grammar)]
fn outer_assign(p: &mut Tape, c: usize, brace: Brace, cx: ExprCx) -> Result<u8, Refusal>
    requires { Marked c p.old }
    ensures { Step c (outer_assign (marking c) (brace_of brace) (cx_of cx)) result p.old p.new }
{
    p.close_at(c, EXPR)?;
    p.bump()?;
    expr_with(p, brace, Range::Yes, Binary::Yes, cx)?;
    finish(p, c, EXPR_ASSIGN)
}

// outer_expr_with (703): operators, then a range.
#[cycle(grammar)]
fn outer_rest(
    p: &mut Tape,
    c: usize,
    kind: u8,
    brace: Brace,
    range: Range,
    binary: Binary,
    cx: ExprCx,
) -> Result<u8, Refusal>
    requires { Marked c p.old }
    ensures { Step c (outer_rest (marking c) kind (brace_of brace) (range_of range) (binary_of binary) (cx_of cx)) result p.old p.new }
{
    let last = outer_op(p, c, kind, brace, binary, cx)?;
    match range {
        Range::Yes => expr_range(p, c, last, brace),
        Range::No => Ok(last),
    }
}

// outer_expr_with (703): operators, if they are looked for.
#[cycle(grammar)]
fn outer_op(
    p: &mut Tape,
    c: usize,
    kind: u8,
    brace: Brace,
    binary: Binary,
    cx: ExprCx,
) -> Result<u8, Refusal>
    requires { Marked c p.old }
    ensures { Step c (outer_op (marking c) kind (brace_of brace) (binary_of binary) (cx_of cx)) result p.old p.new }
{
    if operators_next(binary, p) {
        return outer_binary(p, c, kind, brace, cx);
    }
    Ok(kind)
}

// outer_expr_with (703): operators.
#[cycle(grammar)]
fn outer_binary(p: &mut Tape, c: usize, kind: u8, brace: Brace, cx: ExprCx) -> Result<u8, Refusal>
    requires { Marked c p.old }
    ensures { Step c (outer_binary (marking c) kind (brace_of brace) (cx_of cx)) result p.old p.new }
{
    let op = lookahead(p);
    if expr_binary(p, op, 0, brace, cx)? {
        return finish(p, c, EXPR_BINARY);
    }
    Ok(kind)
}

// The expression behind `break`, `return` and `yield`, if there is one.
#[cycle(grammar)]
pub(super) fn expr_if_any(p: &mut Tape, brace: Brace, range: Range) -> Result<(), Refusal>
    ensures { Ran (expr_if_any (brace_of brace) (range_of range)) result p.old p.new }
{
    if is_expr_with(brace, range, p.peek(), p.glued()) {
        expr_with(p, brace, range, Binary::Yes, ExprCx::ErrorCx)?;
    }
    Ok(())
}

// An expression behind a token that may be there.
#[cycle(grammar)]
pub(super) fn expr_after(p: &mut Tape, k: u8) -> Result<(), Refusal>
    ensures { Ran (expr_after k) result p.old p.new }
{
    if p.bump_if(k)? {
        expr(p)?;
    }
    Ok(())
}
