// Operators and ranges. Each function is a rule of grammar.rs or a part of one: its Rust name and line stand above it.
ghost use Rattle.std.specs.Prelude.{◌≡◌, ◌<◌, Some};
ghost use Rattle.definition.specs.Prog.{mark as marking};
ghost use Rattle.definition.specs.Grammar.{expr_binary, expr_binary_text, expr_range, nest, operand, range_rest};
ghost use Rattle.kinds.specs.Modes.{brace_of, cx_of};
ghost use Rattle.kinds.specs.Ops.{op_of, next_of};
ghost use Rattle.tape.specs.View.{Marked, Step, Ran};
ghost use Rattle.grammar.specs.Looked.{Next, Found, ahead};

use super::expressions::outer_expr_with;
use super::steps::{finish, lookahead, operator};
use kinds::classes::is_expr_with;
use kinds::modes::{Binary, Brace, ExprCx, Range};
use kinds::operators::Op;
use kinds::*;
use tape::Tape;
use tape::refusal::{Reason, Refusal};

// expr_binary (1252): counted. (That `op` is the operator that comes next ties it to the tape, so it is asked here and in its parts, and is in no type.)
#[cycle(grammar)]
pub(super) fn expr_binary(
    p: &mut Tape,
    op: Option<Op>,
    least: u8,
    brace: Brace,
    cx: ExprCx,
) -> Result<bool, Refusal>
    requires { Next op p.old }
    ensures { Ran (expr_binary (next_of op) least (brace_of brace) (cx_of cx)) result p.old p.new }
{
    let left = p.enter()?;
    let done = expr_binary_text(p, op, least, brace, cx);
    p.leave(left);
    done
}

// expr_binary (1252): its loop.
#[cycle(grammar)]
fn expr_binary_text(
    p: &mut Tape,
    op: Option<Op>,
    least: u8,
    brace: Brace,
    cx: ExprCx,
) -> Result<bool, Refusal>
    requires { Next op p.old }
    ensures { Ran (expr_binary_text (next_of op) least (brace_of brace) (cx_of cx)) result p.old p.new }
{
    let mut ahead = op;
    let mut any = false;
    while let Some(next) = ahead {
        if next.is_below(least) {
            return Ok(any);
        }
        operator(p, next)?;
        ahead = operand(p, next, brace, cx)?;
        any = true;
    }
    Ok(any)
}

// expr_binary (1252): an operand, and what binds tighter behind it; answers the operator that is left over.
#[cycle(grammar)]
fn operand(p: &mut Tape, op: Op, brace: Brace, cx: ExprCx) -> Result<Option<Op>, Refusal>
    ensures ran { Ran (operand (op_of op) (brace_of brace) (cx_of cx)) (ahead result) p.old p.new }
    ensures next { Found result p.new }
{
    let c = p.mark()?;
    let place = p.here();
    outer_expr_with(p, brace, Range::No, Binary::No, cx)?;
    let mut ahead = lookahead(p);
    while let Some(next) = ahead {
        if op.is_tighter(next) {
            nest(p, c, op, next, brace, cx)?;
            ahead = lookahead(p);
        } else if op.clashes(next) {
            return Err(Refusal {
                reason: Reason::Clash,
                place,
            });
        } else {
            return Ok(ahead);
        }
    }
    Ok(ahead)
}

// expr_binary (1252): it enters itself. c is the operand's mark.
#[cycle(grammar)]
fn nest(p: &mut Tape, c: usize, op: Op, next: Op, brace: Brace, cx: ExprCx) -> Result<(), Refusal>
    requires { Marked c p.old × Next (Some next) p.old }
    ensures { Step c (nest (marking c) (op_of op) (op_of next) (brace_of brace) (cx_of cx)) result p.old p.new }
{
    if expr_binary(p, Some(next), op.binding + 1, brace, cx)? {
        p.close_at(c, EXPR_BINARY)?;
    }
    Ok(())
}

// expr_range (1306), with outer_expr_with's mark c.
#[cycle(grammar)]
pub(super) fn expr_range(p: &mut Tape, c: usize, kind: u8, brace: Brace) -> Result<u8, Refusal>
    requires { Marked c p.old }
    ensures { Step c (expr_range (marking c) kind (brace_of brace)) result p.old p.new }
{
    match p.peek() {
        DOT_DOT => range_rest(p, c, brace, EXPR_RANGE, EXPR_RANGE_FROM),
        DOT_DOT_EQ => range_rest(p, c, brace, EXPR_RANGE_INCLUSIVE, ERROR),
        _ => Ok(kind),
    }
}

// expr_range (1306): what follows `..` and `..=`.
#[cycle(grammar)]
fn range_rest(p: &mut Tape, c: usize, brace: Brace, kind: u8, otherwise: u8) -> Result<u8, Refusal>
    requires { Marked c p.old }
    ensures { Step c (range_rest (marking c) (brace_of brace) kind otherwise) result p.old p.new }
{
    p.bump()?;
    if is_expr_with(brace, Range::No, p.peek(), p.glued()) {
        outer_expr_with(p, brace, Range::No, Binary::Yes, ExprCx::ErrorCx)?;
        return finish(p, c, kind);
    }
    finish(p, c, otherwise)
}
