// The classes of kinds. Each test is proved equal to the class of that name in the definition, which is made of lists of names;
// neighbours of docs/KINDS.md are compared as a range.
// k is a kind, g the kind glued to it, j the second next.
#![tactic(auto, unfolding(definition::specs::Modes::is_brace, definition::specs::Modes::is_ranged, definition::specs::Classes::among, definition::specs::Classes::glues, definition::specs::Classes::braced_by, definition::specs::Classes::ranged_by, definition::specs::Classes::named_const, definition::specs::Classes::is_token, definition::specs::Classes::is_trivia, definition::specs::Classes::is_object_key, definition::specs::Classes::is_lit, definition::specs::Classes::is_path_component, definition::specs::Classes::kind_is_stmt_recovering, definition::specs::Classes::kind_is_pat, definition::specs::Classes::kind_is_expr_with, definition::specs::Classes::is_range, definition::specs::Classes::kind_is_callable, definition::specs::Classes::linked, definition::specs::Classes::is_unary, definition::specs::Classes::is_use_part, definition::specs::Classes::is_use_path, definition::specs::Classes::is_pat_or_rest, definition::specs::Classes::is_select_arm, definition::specs::Classes::in_block, definition::specs::Classes::is_some))]

ghost use Rattle.std.specs.Prelude.{◌≡◌};
ghost use Rattle.definition.specs.Classes.{glues as gluing, braced_by, ranged_by, named_const, is_token, treated as treated_as, is_trivia, is_object_key, is_lit, is_path_component, kind_is_stmt_recovering, kind_is_pat, kind_is_expr_with, is_range, kind_is_callable, linked as linking, is_unary, is_use_part, is_use_path, is_pat_or_rest, is_select_arm, in_block, is_some};
ghost use Rattle.kinds.specs.Modes.{brace_of, range_of};

use super::*;
use crate::modes::{Brace, Range};

// Whether k is a, with b glued to it.
pub fn glues(a: u8, b: u8, k: u8, g: u8) -> bool
    ensures { result ≡ gluing a b k g }
{
    k == a && g == b
}

// Whether k is `{`, and the mode allows it.
pub fn braced_by(brace: Brace, k: u8) -> bool
    ensures { result ≡ braced_by (brace_of brace) k }
{
    k == BRACE && brace == Brace::Yes
}

// Whether k is j, `..` or `..=`, and the mode allows it.
pub fn ranged_by(range: Range, j: u8, k: u8) -> bool
    ensures { result ≡ ranged_by (range_of range) j k }
{
    k == j && range == Range::Yes
}

// Whether k is a name behind `const`.
pub fn named_const(constant: bool, k: u8) -> bool
    ensures { result ≡ named_const constant k }
{
    k == IDENT && constant
}

// A token's kind, assigned or not.
pub fn is_token(k: u8) -> bool
    ensures { result ≡ is_token k }
{
    (1..=127).contains(&k)
}

// An unassigned kind as what it is treated as.
pub fn treated(k: u8) -> u8
    ensures { result ≡ treated_as k }
{
    if k <= YIELD { k } else { OTHER }
}

pub fn is_trivia(k: u8) -> bool
    ensures { result ≡ is_trivia k }
{
    matches!(k, WHITESPACE..=MULTILINE_COMMENT)
}

pub fn is_object_key(k: u8) -> bool
    ensures { result ≡ is_object_key k }
{
    matches!(k, IDENT | STR)
}

pub fn is_lit(k: u8) -> bool
    ensures { result ≡ is_lit k }
{
    matches!(k, TRUE..=BYTE)
}

pub fn is_path_component(k: u8) -> bool
    ensures { result ≡ is_path_component k }
{
    matches!(k, IDENT..=SELF_TYPE)
}

pub fn is_stmt_recovering(k: u8, j: u8) -> bool
    ensures { result ≡ kind_is_stmt_recovering k j }
{
    match k {
        EOF | IDENT | SEMI => false,
        ASYNC | CONST | ENUM | FN | IMPL | LET | MOD | PUB | STRUCT | USE => false,
        POUND => !matches!(j, BRACKET | BANG),
        _ => true,
    }
}

// The range is the path components and the literals.
pub fn is_pat(k: u8, g: u8) -> bool
    ensures { result ≡ kind_is_pat k g }
{
    match k {
        IDENT..=BYTE | UNDERSCORE | PAREN | BRACKET => true,
        DASH => g == NUMBER,
        POUND => g == BRACE,
        _ => false,
    }
}

// The first range is the path components and the literals.
pub fn is_expr_with(brace: Brace, range: Range, k: u8, g: u8) -> bool
    ensures { result ≡ kind_is_expr_with (brace_of brace) (range_of range) k g }
{
    match k {
        IDENT..=BYTE => true,
        PAREN | BRACKET | BANG | DASH | AMP | STAR | POUND | PIPE_PIPE | PIPE => true,
        OPEN_EMPTY | TEMPLATE_STRING | ASYNC | BREAK | CONTINUE | FOR | IF | LET => true,
        LOOP | MATCH | RETURN | SELECT | WHILE => true,
        BRACE => brace == Brace::Yes,
        LABEL => g == COLON,
        DOT_DOT | DOT_DOT_EQ => range == Range::Yes,
        _ => false,
    }
}

pub fn is_range(kind: u8) -> bool
    ensures { result ≡ is_range kind }
{
    matches!(kind, EXPR_RANGE..=EXPR_RANGE_TO_INCLUSIVE)
}

pub fn kind_is_callable(kind: u8) -> bool
    ensures { result ≡ kind_is_callable kind }
{
    !matches!(kind, EXPR_FOR | EXPR_WHILE)
}

// A bracket of kind j that may follow an expression of that kind.
pub fn linked(kind: u8, j: u8, k: u8) -> bool
    ensures { result ≡ linking kind j k }
{
    k == j && kind_is_callable(kind)
}

pub fn is_unary(k: u8) -> bool
    ensures { result ≡ is_unary k }
{
    matches!(k, BANG..=STAR)
}

pub fn is_use_part(k: u8) -> bool
    ensures { result ≡ is_use_part k }
{
    matches!(k, IDENT..=SELF_TYPE | STAR)
}

pub fn is_use_path(k: u8) -> bool
    ensures { result ≡ is_use_path k }
{
    matches!(k, IDENT..=SELF_TYPE | BRACE | STAR)
}

pub fn is_pat_or_rest(k: u8, g: u8) -> bool
    ensures { result ≡ is_pat_or_rest k g }
{
    is_pat(k, g) || k == DOT_DOT
}

pub fn is_select_arm(k: u8, g: u8) -> bool
    ensures { result ≡ is_select_arm k g }
{
    is_pat(k, g) || k == DEFAULT
}

pub fn in_block(k: u8) -> bool
    ensures { result ≡ in_block k }
{
    !matches!(k, EOF | BRACE_END)
}

// A token is left.
pub fn is_some(k: u8) -> bool
    ensures { result ≡ is_some k }
{
    k != EOF
}
