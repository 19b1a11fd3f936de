// Items that hold expressions or statements, and `let`. Each function is a rule of grammar.rs or a part of one: its Rust name and line stand above it.
ghost use Rattle.std.specs.Prelude.{◌≡◌, ◌<◌};
ghost use Rattle.definition.specs.Grammar.{item_const, item_fn, item_impl, item_mod, local};
ghost use Rattle.kinds.specs.Modes.{cx_of};
ghost use Rattle.tape.specs.View.{Ran};

use super::blocks::block;
use super::expressions::{expr, expr_with};
use kinds::modes::{Binary, Brace, ExprCx, Range};
use kinds::*;
use pieces::{items, patterns};
use tape::Tape;
use tape::refusal::Refusal;

// item_const (226).
#[cycle(grammar)]
pub(super) fn item_const(p: &mut Tape) -> Result<(), Refusal>
    ensures { Ran item_const result p.old p.new }
{
    p.bump()?;
    p.bump_if(EQ)?;
    expr(p)
}

// local (339).
#[cycle(grammar)]
pub(super) fn local(p: &mut Tape, cx: ExprCx) -> Result<(), Refusal>
    ensures { Ran (local (cx_of cx)) result p.old p.new }
{
    p.bump()?;
    patterns::pat(p)?;
    p.bump_if(EQ)?;
    expr_with(p, Brace::Yes, Range::Yes, Binary::Yes, cx)
}

// item_fn (484); its arguments are in `pieces`.
#[cycle(grammar)]
pub(super) fn item_fn(p: &mut Tape) -> Result<(), Refusal>
    ensures { Ran item_fn result p.old p.new }
{
    p.bump()?;
    p.bump_if(IDENT)?;
    items::fn_args(p)?;
    if p.peek() == BRACE {
        block(p)?;
    }
    Ok(())
}

// item_impl (514).
#[cycle(grammar)]
pub(super) fn item_impl(p: &mut Tape) -> Result<(), Refusal>
    ensures { Ran item_impl result p.old p.new }
{
    p.bump()?;
    items::impl_path(p)?;
    block(p)
}

// item_mod (526): answers whether it has a block.
#[cycle(grammar)]
pub(super) fn item_mod(p: &mut Tape) -> Result<bool, Refusal>
    ensures { Ran item_mod result p.old p.new }
{
    p.bump()?;
    p.bump_if(IDENT)?;
    if p.peek() == BRACE {
        block(p)?;
        return Ok(true);
    }
    Ok(false)
}
