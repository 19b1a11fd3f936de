// Links behind an operand: calls, fields, indices. Each function is a rule of grammar.rs or a part of one: its Rust name and line stand above it.
ghost use Rattle.std.specs.Prelude.{◌≡◌, ◌<◌};
ghost use Rattle.definition.specs.Prog.{mark as marking};
ghost use Rattle.definition.specs.Grammar.{chain_link, chain_step, expr_chain};
ghost use Rattle.tape.specs.View.{Marked, Step, Ran};
ghost use Rattle.grammar.specs.Looked.{Links, link_of};

use super::blocks::parenthesized;
use super::expressions::expr;
use super::steps::field_link;
use kinds::classes::linked;
use kinds::modes::Listed;
use kinds::*;
use tape::Tape;
use tape::refusal::Refusal;

// expr_chain (934), with outer_expr_with's mark c.
#[cycle(grammar)]
pub(super) fn expr_chain(p: &mut Tape, c: usize, kind: u8) -> Result<u8, Refusal>
    requires { Marked c p.old }
    ensures { Step c (expr_chain (marking c) kind) result p.old p.new }
{
    let mut last = kind;
    let mut any = false;
    while let Some(link) = chain_step(p, last)? {
        last = link;
        any = true;
    }
    if any {
        p.close_at(c, EXPR_CHAIN)?;
    }
    Ok(last)
}

// expr_chain (934): a turn of its loop; answers the kind of the link, if there is one.
#[cycle(grammar)]
fn chain_step(p: &mut Tape, kind: u8) -> Result<Option<u8>, Refusal>
    ensures ran { Ran (chain_step kind) (link_of result) p.old p.new }
    ensures some { Links result }
{
    let c = p.mark()?;
    let k = p.peek();
    let Some(link) = chain_link(p, kind, k)? else {
        return Ok(None);
    };
    p.close_at(c, link)?;
    Ok(Some(link))
}

// expr_chain (934): its `match`.
#[cycle(grammar)]
fn chain_link(p: &mut Tape, kind: u8, k: u8) -> Result<Option<u8>, Refusal>
    ensures ran { Ran (chain_link kind k) (link_of result) p.old p.new }
    ensures some { Links result }
{
    match k {
        _ if linked(kind, BRACKET, k) => {
            p.bump()?;
            expr(p)?;
            p.bump_if(BRACKET_END)?;
            Ok(Some(EXPR_INDEX))
        }
        _ if linked(kind, PAREN, k) => {
            parenthesized(p, Listed::Exprs, PAREN_END)?;
            Ok(Some(EXPR_CALL))
        }
        QUESTION => {
            p.bump()?;
            Ok(Some(EXPR_TRY))
        }
        DOT => {
            let link = field_link(p)?;
            Ok(Some(link))
        }
        _ => Ok(None),
    }
}
