// Structs, enums and `use`, and the parts of functions and `impl` that hold no expression. Each function is a rule of grammar.rs or a part of one: its Rust name and line stand above it.
ghost use Rattle.std.specs.Prelude.{◌≡◌, ◌<◌};
ghost use Rattle.definition.specs.Grammar.{item_struct, any_body, field_body, fields as fields_prog, field as field_prog, item_enum, enum_body, variants as variants_prog, variant as variant_prog, variant_item, item_use, item_use_text, use_parts, use_group, use_paths, use_path, use_item, fn_args, fn_arg_list, impl_path};
ghost use Rattle.tape.specs.View.{Ran};

use super::{paths, patterns};
use kinds::classes::{is_path_component, is_use_part, is_use_path};
use kinds::*;
use tape::Tape;
use tape::refusal::Refusal;

// item_struct (348).
pub fn item_struct(p: &mut Tape) -> Result<(), Refusal>
    ensures { Ran item_struct result p.old p.new }
{
    p.bump()?;
    p.bump_if(IDENT)?;
    any_body(p)
}

// item_struct (348), item_enum (405): the body that the next token asks for. An empty one is empty_body (441).
fn any_body(p: &mut Tape) -> Result<(), Refusal>
    ensures { Ran any_body result p.old p.new }
{
    match p.peek() {
        BRACE => field_body(p, BRACE_END, STRUCT_BODY),
        PAREN => field_body(p, PAREN_END, TUPLE_BODY),
        _ => p.empty(EMPTY_BODY),
    }
}

// struct_body (448), tuple_body (466).
fn field_body(p: &mut Tape, end: u8, kind: u8) -> Result<(), Refusal>
    ensures { Ran (field_body end kind) result p.old p.new }
{
    let c = p.mark()?;
    p.bump()?;
    fields(p)?;
    p.bump_if(end)?;
    p.close_at(c, kind)
}

// struct_body, tuple_body: their loop.
fn fields(p: &mut Tape) -> Result<(), Refusal>
    ensures { Ran fields_prog result p.old p.new }
{
    while p.peek() == IDENT {
        field(p)?;
    }
    Ok(())
}

// struct_body, tuple_body: a turn of the loop.
fn field(p: &mut Tape) -> Result<(), Refusal>
    ensures { Ran field_prog result p.old p.new }
{
    p.push(FIELD)?;
    p.bump_while(COMMA)?;
    Ok(())
}

// item_enum (405).
pub fn item_enum(p: &mut Tape) -> Result<(), Refusal>
    ensures { Ran item_enum result p.old p.new }
{
    p.bump()?;
    p.bump_if(IDENT)?;
    enum_body(p)
}

// item_enum (405): behind `{`.
fn enum_body(p: &mut Tape) -> Result<(), Refusal>
    ensures { Ran enum_body result p.old p.new }
{
    if p.bump_if(BRACE)? {
        variants(p)?;
        p.bump_if(BRACE_END)?;
    }
    Ok(())
}

// item_enum (405): its loop.
fn variants(p: &mut Tape) -> Result<(), Refusal>
    ensures { Ran variants_prog result p.old p.new }
{
    while p.peek() == IDENT {
        variant(p)?;
    }
    Ok(())
}

// item_enum (405): a turn of its loop.
fn variant(p: &mut Tape) -> Result<(), Refusal>
    ensures { Ran variant_prog result p.old p.new }
{
    variant_item(p)?;
    p.bump_while(COMMA)?;
    Ok(())
}

// item_enum (405): a variant.
fn variant_item(p: &mut Tape) -> Result<(), Refusal>
    ensures { Ran variant_item result p.old p.new }
{
    let c = p.mark()?;
    p.bump()?;
    any_body(p)?;
    p.close_at(c, VARIANT)
}

// item_use (371): counted.
#[cycle(uses)]
pub fn item_use(p: &mut Tape) -> Result<(), Refusal>
    ensures { Ran item_use result p.old p.new }
{
    let left = p.enter()?;
    let done = item_use_text(p);
    p.leave(left);
    done
}

// item_use (371).
#[cycle(uses)]
fn item_use_text(p: &mut Tape) -> Result<(), Refusal>
    ensures { Ran item_use_text result p.old p.new }
{
    p.bump()?;
    use_parts(p)
}

// item_use (371): its loop.
#[cycle(uses)]
fn use_parts(p: &mut Tape) -> Result<(), Refusal>
    ensures { Ran use_parts result p.old p.new }
{
    loop {
        match p.peek() {
            k if is_use_part(k) => p.bump()?,
            BRACE => use_group(p)?,
            AS => {
                p.bump()?;
                p.bump_if(IDENT)?;
            }
            _ => return Ok(()),
        }
    }
}

// item_use (371): the case of `{`.
#[cycle(uses)]
fn use_group(p: &mut Tape) -> Result<(), Refusal>
    ensures { Ran use_group result p.old p.new }
{
    let c = p.mark()?;
    p.bump()?;
    use_paths(p)?;
    p.bump_if(BRACE_END)?;
    p.close_at(c, ITEM_USE_GROUP)
}

// item_use (371): the loop in a group.
#[cycle(uses)]
fn use_paths(p: &mut Tape) -> Result<(), Refusal>
    ensures { Ran use_paths result p.old p.new }
{
    while is_use_path(p.peek()) {
        use_path(p)?;
    }
    Ok(())
}

// item_use (371): a turn of the loop in a group.
#[cycle(uses)]
fn use_path(p: &mut Tape) -> Result<(), Refusal>
    ensures { Ran use_path result p.old p.new }
{
    use_item(p)?;
    p.bump_while(COMMA)?;
    Ok(())
}

// item_use (371): it enters itself.
#[cycle(uses)]
fn use_item(p: &mut Tape) -> Result<(), Refusal>
    ensures { Ran use_item result p.old p.new }
{
    let c = p.mark()?;
    item_use(p)?;
    p.close_at(c, ITEM_USE_PATH)
}

// item_fn (484): its arguments, if they are there.
pub fn fn_args(p: &mut Tape) -> Result<(), Refusal>
    ensures { Ran fn_args result p.old p.new }
{
    if p.peek() == PAREN {
        fn_arg_list(p)?;
    }
    Ok(())
}

// item_fn (484): its arguments.
fn fn_arg_list(p: &mut Tape) -> Result<(), Refusal>
    ensures { Ran fn_arg_list result p.old p.new }
{
    let c = p.mark()?;
    p.bump()?;
    p.bump_while(COMMA)?;
    patterns::pat_list(p)?;
    p.bump_if(PAREN_END)?;
    p.close_at(c, FN_ARGS)
}

// item_impl (514): its path, if it is there.
pub fn impl_path(p: &mut Tape) -> Result<(), Refusal>
    ensures { Ran impl_path result p.old p.new }
{
    if is_path_component(p.peek()) {
        paths::path(p)?;
    }
    Ok(())
}
