// Paths and modifiers. Each function is a rule of grammar.rs or a part of one: its Rust name and line stand above it.
ghost use Rattle.std.specs.Prelude.{◌≡◌, ◌<◌};
ghost use Rattle.definition.specs.Grammar.{path as path_prog, path_text, path_segments, path_segment, generics_all, generics as generics_prog, generic_paths, generic_path, modifier_kind, modifier_paren, modifier_pub, modifiers as modifiers_prog};
ghost use Rattle.tape.specs.View.{Ran};

use kinds::classes::is_path_component;
use kinds::*;
use tape::Tape;
use tape::refusal::Refusal;

// path (1220): counted.
#[cycle(paths)]
pub fn path(p: &mut Tape) -> Result<(), Refusal>
    ensures { Ran path_prog result p.old p.new }
{
    let left = p.enter()?;
    let done = path_text(p);
    p.leave(left);
    done
}

// path (1220).
#[cycle(paths)]
fn path_text(p: &mut Tape) -> Result<(), Refusal>
    ensures { Ran path_text result p.old p.new }
{
    let c = p.mark()?;
    path_segments(p)?;
    p.close_at(c, PATH)
}

// path (1220): its loop.
#[cycle(paths)]
fn path_segments(p: &mut Tape) -> Result<(), Refusal>
    ensures { Ran path_segments result p.old p.new }
{
    while is_path_component(p.peek()) {
        path_segment(p)?;
    }
    Ok(())
}

// path (1220): a turn of its loop.
#[cycle(paths)]
fn path_segment(p: &mut Tape) -> Result<(), Refusal>
    ensures { Ran path_segment result p.old p.new }
{
    let k = p.peek();
    p.bump()?;
    if k == COLON_COLON {
        generics_all(p)?;
    }
    Ok(())
}

// path (1220): the loop behind `::`.
#[cycle(paths)]
fn generics_all(p: &mut Tape) -> Result<(), Refusal>
    ensures { Ran generics_all result p.old p.new }
{
    while p.peek() == LT {
        generics(p)?;
    }
    Ok(())
}

// path (1220): a turn of that loop.
#[cycle(paths)]
fn generics(p: &mut Tape) -> Result<(), Refusal>
    ensures { Ran generics_prog result p.old p.new }
{
    let c = p.mark()?;
    p.bump()?;
    generic_paths(p)?;
    p.bump_if(GT)?;
    p.close_at(c, PATH_GENERICS)
}

// path (1220): the loop behind `<`.
#[cycle(paths)]
fn generic_paths(p: &mut Tape) -> Result<(), Refusal>
    ensures { Ran generic_paths result p.old p.new }
{
    while is_path_component(p.peek()) {
        generic_path(p)?;
    }
    Ok(())
}

// path (1220): it enters itself.
#[cycle(paths)]
fn generic_path(p: &mut Tape) -> Result<(), Refusal>
    ensures { Ran generic_path result p.old p.new }
{
    path(p)?;
    p.bump_while(COMMA)?;
    Ok(())
}

// modifiers (271): what stands in the parentheses after `pub`; answers the kind.
fn modifier_kind(p: &mut Tape) -> Result<u8, Refusal>
    ensures { Ran modifier_kind result p.old p.new }
{
    match p.peek() {
        SUPER => {
            p.bump()?;
            Ok(MODIFIER_SUPER)
        }
        SELF_VALUE => {
            p.bump()?;
            Ok(MODIFIER_SELF)
        }
        CRATE => {
            p.bump()?;
            Ok(MODIFIER_CRATE)
        }
        IN => {
            p.bump()?;
            path(p)?;
            Ok(MODIFIER_IN)
        }
        _ => Ok(ERROR),
    }
}

// modifiers (271): the parentheses after `pub`.
fn modifier_paren(p: &mut Tape) -> Result<(), Refusal>
    ensures { Ran modifier_paren result p.old p.new }
{
    let c = p.mark()?;
    p.bump()?;
    let kind = modifier_kind(p)?;
    p.bump_if(PAREN_END)?;
    p.close_at(c, kind)
}

// modifiers (271): the case of `pub`.
fn modifier_pub(p: &mut Tape) -> Result<(), Refusal>
    ensures { Ran modifier_pub result p.old p.new }
{
    p.bump()?;
    if p.peek() == PAREN {
        modifier_paren(p)?;
    }
    Ok(())
}

// modifiers (271): answers whether `const` is among them.
pub fn modifiers(p: &mut Tape) -> Result<bool, Refusal>
    ensures { Ran modifiers_prog result p.old p.new }
{
    let c = p.mark()?;
    let mut is_const = false;
    let mut has_mods = false;
    loop {
        match p.peek() {
            PUB => {
                modifier_pub(p)?;
                has_mods = true;
            }
            CONST => {
                p.bump()?;
                is_const = true;
                has_mods = true;
            }
            ASYNC | MOVE => {
                p.bump()?;
                has_mods = true;
            }
            _ => break,
        }
    }
    if has_mods {
        p.close_at(c, MODIFIERS)?;
    }
    Ok(is_const)
}
