// Steps of the cycle that call none of its rules.
ghost use Rattle.std.specs.Prelude.{◌≡◌, ◌<◌};
ghost use Rattle.definition.specs.Grammar.{field_link, finish as finish_prog, macro_call, operator as operator_prog, recover as recover_prog, recovery as recovery_prog, stmt_item};
ghost use Rattle.definition.specs.Prog.{mark as marking};
ghost use Rattle.kinds.specs.Modes.{binary_of, cx_of};
ghost use Rattle.kinds.specs.Ops.{op_of};
ghost use Rattle.kinds.specs.Matchers.{matcher_of};
ghost use Rattle.tape.specs.View.{Marked, Step, Ran};
ghost use Rattle.grammar.specs.Looked.{Next, IsLink};
ghost use Rattle.grammar.specs.Idle.{operators_next};

use kinds::classes::{is_path_component, is_stmt_recovering};
use kinds::matcher::Matcher;
use kinds::modes::{Binary, ExprCx};
use kinds::operators::{Op, from_slice};
use kinds::*;
use pieces::paths::path;
use pieces::streams::token_stream;
use tape::Tape;
use tape::refusal::{Reason, Refusal};

// A node, and its kind as the answer: the end of a case of expr_primary, outer_expr_with, expr_range and of a link.
pub fn finish(p: &mut Tape, c: usize, kind: u8) -> Result<u8, Refusal>
    requires { Marked c p.old }
    ensures { Step c (finish_prog (marking c) kind) result p.old p.new }
{
    p.close_at(c, kind)?;
    Ok(kind)
}

// The end of an item, the same way: a node over stmt's inner mark, and Item as the answer.
pub fn stmt_item(p: &mut Tape, c: usize, kind: u8) -> Result<u8, Refusal>
    requires { Marked c p.old }
    ensures { Step c (stmt_item (marking c) kind) result p.old p.new }
{
    p.close_at(c, kind)?;
    Ok(ITEM)
}

// A macro call (expr_primary, 756).
pub fn macro_call(p: &mut Tape, c: usize, m: Matcher) -> Result<u8, Refusal>
    requires { Marked c p.old }
    ensures { Step c (macro_call (marking c) (matcher_of m)) result p.old p.new }
{
    p.bump()?;
    p.bump()?;
    token_stream(p, m)?;
    p.bump()?;
    finish(p, c, EXPR_MACRO_CALL)
}

// A link that begins with a dot (expr_chain, 934).
pub fn field_link(p: &mut Tape) -> Result<u8, Refusal>
    ensures ran { Ran field_link result p.old p.new }
    ensures some { IsLink result }
{
    p.bump()?;
    match p.peek() {
        AWAIT => {
            p.bump()?;
            Ok(EXPR_AWAIT)
        }
        NUMBER => {
            p.bump()?;
            Ok(EXPR_FIELD)
        }
        k if is_path_component(k) => {
            path(p)?;
            Ok(EXPR_FIELD)
        }
        _ => Ok(ERROR),
    }
}

// The operator that the next two kinds make.
pub(super) fn lookahead(p: &Tape) -> Option<Op>
    ensures { Next result p.now }
{
    from_slice(p.peek(), p.peek_second())
}

// An operator's tokens as a node (expr_binary, 1252).
pub fn operator(p: &mut Tape, op: Op) -> Result<(), Refusal>
    ensures { Ran (operator_prog (op_of op)) result p.old p.new }
{
    let c = p.mark()?;
    p.advance(op)?;
    p.close_at(c, EXPR_OPERATOR)
}

// outer_expr_with (703): whether operators are looked for and one is next. With none next, expr_binary would say so at once and leave everything as it is,
// unless no entry is left for it: then it has to be asked, and refuses.
pub fn operators_next(binary: Binary, p: &Tape) -> bool
    ensures { result ≡ operators_next (binary_of binary) p.now }
{
    let is_next = from_slice(p.peek(), 0).is_some();
    match binary {
        Binary::Yes => is_next || p.is_spent(),
        Binary::No => false,
    }
}

// recover of StmtCx (143).
fn recovery(p: &mut Tape) -> Result<(), Refusal>
    ensures { Ran recovery_prog result p.old p.new }
{
    while is_stmt_recovering(p.peek(), p.peek_second()) {
        p.bump()?;
    }
    Ok(())
}

// recover (16, 143): the end of the statement is looked for, or it is refused.
pub fn recover(p: &mut Tape, cx: ExprCx) -> Result<(), Refusal>
    ensures { Ran (recover_prog (cx_of cx)) result p.old p.new }
{
    match cx {
        ExprCx::StmtCx => recovery(p),
        ExprCx::ErrorCx => Err(p.refusal(Reason::NoExpr)),
    }
}
