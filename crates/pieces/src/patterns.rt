// Patterns. Each function is a rule of grammar.rs or a part of one: its Rust name and line stand above it.
ghost use Rattle.std.specs.Prelude.{◌≡◌, ◌<◌};
ghost use Rattle.definition.specs.Grammar.{pat as pat_prog, pat_text, pat_kind, pat_negative, pat_path, pat_group, pat_anonymous, pat_parens, pat_items, pat_item, pat_or_rest, pat_object, pat_object_items, pat_object_key, pat_value, pat_list};
ghost use Rattle.tape.specs.View.{Ran};

use super::{paths, streams};
use kinds::classes::{glues, is_lit, is_object_key, is_pat, is_pat_or_rest, is_path_component};
use kinds::*;
use tape::Tape;
use tape::refusal::Refusal;

// pat (556): counted.
#[cycle(patterns)]
pub fn pat(p: &mut Tape) -> Result<(), Refusal>
    ensures { Ran pat_prog result p.old p.new }
{
    let left = p.enter()?;
    let done = pat_text(p);
    p.leave(left);
    done
}

// pat (556).
#[cycle(patterns)]
fn pat_text(p: &mut Tape) -> Result<(), Refusal>
    ensures { Ran pat_text result p.old p.new }
{
    let c = p.mark()?;
    streams::attributes(p)?;
    let k = p.peek();
    let g = p.glued();
    pat_kind(p, k, g)?;
    p.close_at(c, PAT)
}

// pat (556): its `match`.
#[cycle(patterns)]
fn pat_kind(p: &mut Tape, k: u8, g: u8) -> Result<(), Refusal>
    ensures { Ran (pat_kind k g) result p.old p.new }
{
    match k {
        DASH => pat_negative(p),
        UNDERSCORE => p.push(PAT_IGNORE),
        BRACKET => pat_group(p, BRACKET_END, PAT_ARRAY),
        PAREN => pat_group(p, PAREN_END, PAT_TUPLE),
        _ if is_lit(k) => p.push(LIT),
        _ if is_path_component(k) => pat_path(p),
        _ if glues(POUND, BRACE, k, g) => pat_anonymous(p),
        _ => p.empty(ERROR),
    }
}

// pat (556): `-`, and the number that may follow, glued or not.
fn pat_negative(p: &mut Tape) -> Result<(), Refusal>
    ensures { Ran pat_negative result p.old p.new }
{
    let c = p.mark()?;
    p.bump()?;
    p.bump_if(NUMBER)?;
    p.close_at(c, LIT)
}

// pat (556): the case of a path.
#[cycle(patterns)]
fn pat_path(p: &mut Tape) -> Result<(), Refusal>
    ensures { Ran pat_path result p.old p.new }
{
    let c = p.mark()?;
    paths::path(p)?;
    match p.peek() {
        BRACE => {
            pat_object(p)?;
            p.close_at(c, PAT_OBJECT)
        }
        PAREN => {
            pat_parens(p, PAREN_END)?;
            p.close_at(c, PAT_TUPLE)
        }
        _ => Ok(()),
    }
}

// pat (556): the cases of `[` and `(`.
#[cycle(patterns)]
fn pat_group(p: &mut Tape, end: u8, kind: u8) -> Result<(), Refusal>
    ensures { Ran (pat_group end kind) result p.old p.new }
{
    let c = p.mark()?;
    pat_parens(p, end)?;
    p.close_at(c, kind)
}

// pat (556): the case of `#{`.
#[cycle(patterns)]
fn pat_anonymous(p: &mut Tape) -> Result<(), Refusal>
    ensures { Ran pat_anonymous result p.old p.new }
{
    let c = p.mark()?;
    p.bump()?;
    p.close_at(c, ANONYMOUS_OBJECT_KEY)?;
    pat_object(p)?;
    p.close_at(c, PAT_OBJECT)
}

// pat_parens (1363).
#[cycle(patterns)]
fn pat_parens(p: &mut Tape, end: u8) -> Result<(), Refusal>
    ensures { Ran (pat_parens end) result p.old p.new }
{
    p.bump()?;
    pat_items(p)?;
    p.bump_if(end)?;
    Ok(())
}

// pat_parens (1363): its loop.
#[cycle(patterns)]
fn pat_items(p: &mut Tape) -> Result<(), Refusal>
    ensures { Ran pat_items result p.old p.new }
{
    while is_pat_or_rest(p.peek(), p.glued()) {
        pat_item(p)?;
    }
    Ok(())
}

// pat_parens (1363): a turn of its loop.
#[cycle(patterns)]
fn pat_item(p: &mut Tape) -> Result<(), Refusal>
    ensures { Ran pat_item result p.old p.new }
{
    pat_or_rest(p)?;
    p.bump_while(COMMA)?;
    Ok(())
}

// pat_parens (1363): its `match`.
#[cycle(patterns)]
fn pat_or_rest(p: &mut Tape) -> Result<(), Refusal>
    ensures { Ran pat_or_rest result p.old p.new }
{
    if p.peek() == DOT_DOT {
        return p.bump();
    }
    pat(p)
}

// pat_object (1043).
#[cycle(patterns)]
fn pat_object(p: &mut Tape) -> Result<(), Refusal>
    ensures { Ran pat_object result p.old p.new }
{
    p.bump()?;
    pat_object_items(p)?;
    p.bump_if(BRACE_END)?;
    Ok(())
}

// pat_object (1043): its loop.
#[cycle(patterns)]
fn pat_object_items(p: &mut Tape) -> Result<(), Refusal>
    ensures { Ran pat_object_items result p.old p.new }
{
    loop {
        match p.peek() {
            DOT_DOT => p.bump()?,
            k if is_object_key(k) => pat_object_key(p)?,
            _ => return Ok(()),
        }
    }
}

// pat_object (1043): the case of a key.
#[cycle(patterns)]
fn pat_object_key(p: &mut Tape) -> Result<(), Refusal>
    ensures { Ran pat_object_key result p.old p.new }
{
    p.bump()?;
    pat_value(p)?;
    p.bump_while(COMMA)?;
    Ok(())
}

// pat_object (1043): `:` and its pattern.
#[cycle(patterns)]
fn pat_value(p: &mut Tape) -> Result<(), Refusal>
    ensures { Ran pat_value result p.old p.new }
{
    if p.bump_if(COLON)? {
        pat(p)?;
    }
    Ok(())
}

// item_fn (484), parenthesized (1384): the loop over patterns.
pub fn pat_list(p: &mut Tape) -> Result<(), Refusal>
    ensures { Ran pat_list result p.old p.new }
{
    while is_pat(p.peek(), p.glued()) {
        pat(p)?;
        p.bump_while(COMMA)?;
    }
    Ok(())
}
