// Statements. Each function is a rule of grammar.rs or a part of one: its Rust name and line stand above it.
ghost use Rattle.std.specs.Prelude.{◌≡◌, ◌<◌};
ghost use Rattle.definition.specs.Prog.{mark as marking};
ghost use Rattle.definition.specs.Grammar.{stmt, stmt_expr, stmt_mod, stmt_once, stmt_text};
ghost use Rattle.tape.specs.View.{Marked, Step, Ran};
ghost use Rattle.grammar.specs.Cuts.{stmt_inner, stmt_kind, stmt_outer};

use super::expressions::outer_expr_with;
use super::items::{item_const, item_fn, item_impl, item_mod, local};
use super::steps::stmt_item;
use kinds::classes::named_const;
use kinds::modes::{Binary, Brace, ExprCx, Range};
use kinds::*;
use pieces::{items, paths, streams};
use tape::Tape;
use tape::refusal::{Reason, Refusal};

// stmt (116): counted.
#[cycle(grammar)]
pub fn stmt(p: &mut Tape) -> Result<(), Refusal>
    ensures { Ran stmt result p.old p.new }
{
    let left = p.enter()?;
    let done = stmt_once(p);
    p.leave(left);
    done
}

// stmt (116), and a refusal of one that takes no token.
#[cycle(grammar)]
fn stmt_once(p: &mut Tape) -> Result<(), Refusal>
    ensures { Ran stmt_once result p.old p.new }
{
    let before = p.here();
    stmt_text(p)?;
    if p.here() == before {
        return Err(p.refusal(Reason::Standstill));
    }
    Ok(())
}

// stmt (116).
#[cycle(grammar)]
fn stmt_text(p: &mut Tape) -> Result<(), Refusal>
    ensures { Ran stmt_text result p.old p.new }
{
    streams::inner_attributes(p)?;
    stmt_outer(p)?;
    p.bump_while(SEMI)?;
    Ok(())
}

// stmt (116): from its mark c on.
#[cycle(grammar)]
fn stmt_outer(p: &mut Tape) -> Result<(), Refusal>
    ensures { Ran stmt_outer result p.old p.new }
{
    let c = p.mark()?;
    streams::attributes(p)?;
    let kind = stmt_inner(p)?;
    p.close_at(c, kind)
}

// stmt (116): from its mark inner_c on.
#[cycle(grammar)]
fn stmt_inner(p: &mut Tape) -> Result<u8, Refusal>
    ensures { Ran stmt_inner result p.old p.new }
{
    let c = p.mark()?;
    let constant = paths::modifiers(p)?;
    let k = p.peek();
    stmt_kind(p, c, constant, k)
}

// stmt (116): its `match`. c is stmt's inner_c.
#[cycle(grammar)]
fn stmt_kind(p: &mut Tape, c: usize, constant: bool, k: u8) -> Result<u8, Refusal>
    requires { Marked c p.old }
    ensures { Step c (stmt_kind (marking c) constant k) result p.old p.new }
{
    match k {
        LET => {
            local(p, ExprCx::StmtCx)?;
            Ok(LOCAL)
        }
        USE => {
            items::item_use(p)?;
            stmt_item(p, c, ITEM_USE)
        }
        STRUCT => {
            items::item_struct(p)?;
            stmt_item(p, c, ITEM_STRUCT)
        }
        ENUM => {
            items::item_enum(p)?;
            stmt_item(p, c, ITEM_ENUM)
        }
        FN => {
            item_fn(p)?;
            stmt_item(p, c, ITEM_FN)
        }
        IMPL => {
            item_impl(p)?;
            stmt_item(p, c, ITEM_IMPL)
        }
        MOD => stmt_mod(p, c),
        _ if named_const(constant, k) => {
            item_const(p)?;
            stmt_item(p, c, ITEM_CONST)
        }
        _ => stmt_expr(p),
    }
}

// stmt (116): the case of `mod`.
#[cycle(grammar)]
fn stmt_mod(p: &mut Tape, c: usize) -> Result<u8, Refusal>
    requires { Marked c p.old }
    ensures { Step c (stmt_mod (marking c)) result p.old p.new }
{
    if item_mod(p)? {
        return stmt_item(p, c, ITEM_MOD);
    }
    stmt_item(p, c, ITEM_FILE_MOD)
}

// stmt (116): the last case, an expression.
#[cycle(grammar)]
fn stmt_expr(p: &mut Tape) -> Result<u8, Refusal>
    ensures { Ran stmt_expr result p.old p.new }
{
    streams::labels(p)?;
    let kind = outer_expr_with(p, Brace::Yes, Range::Yes, Binary::Yes, ExprCx::StmtCx)?;
    if kind == ERROR {
        return Ok(ERROR);
    }
    Ok(EXPR)
}
