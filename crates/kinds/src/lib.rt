// The kinds: a constant for each row of docs/KINDS.md, with the row's name behind it, and the tests on kinds that the grammar makes.
// Kinds are numbers and no enum: C lends and receives them so, a token of an unassigned kind (96 to 127) is written under its own number, and the definition's
// are numbers too. The constants are read by tools/check-kinds, which holds them to that page.
#![tactic(auto)]

pub mod classes; // classes.rt: which kinds begin what
pub mod modes; // modes.rt: the modes of the rules
pub mod matcher; // matcher.rt: the brackets that a token stream counts
pub mod operators; // operators.rt: how tightly the binary operators bind

// Past the last token.
pub const EOF: u8 = 0;

// ---- tokens, 1 to 127

pub const IDENT: u8 = 1; // ident

pub const COLON_COLON: u8 = 2; // ::

pub const SUPER: u8 = 3; // super

pub const CRATE: u8 = 4; // crate

pub const SELF_VALUE: u8 = 5; // self

pub const SELF_TYPE: u8 = 6; // Self

pub const TRUE: u8 = 7; // true

pub const FALSE: u8 = 8; // false

pub const NUMBER: u8 = 9; // number

pub const STR: u8 = 10; // str

pub const BYTE_STR: u8 = 11; // bytestr

pub const CHAR: u8 = 12; // char

pub const BYTE: u8 = 13; // byte

pub const WHITESPACE: u8 = 14; // Whitespace

pub const COMMENT: u8 = 15; // Comment

pub const MULTILINE_COMMENT: u8 = 16; // MultilineComment

pub const OTHER: u8 = 17; // Other

pub const PAREN: u8 = 18; // '('

pub const PAREN_END: u8 = 19; // ')'

pub const BRACKET: u8 = 20; // '['

pub const BRACKET_END: u8 = 21; // ']'

pub const BRACE: u8 = 22; // '{'

pub const BRACE_END: u8 = 23; // '}'

pub const COMMA: u8 = 24; // ,

pub const DOT: u8 = 25; // .

pub const SEMI: u8 = 26; // ;

pub const COLON: u8 = 27; // :

pub const EQ: u8 = 28; // =

pub const BANG: u8 = 29; // !

pub const DASH: u8 = 30; // -

pub const AMP: u8 = 31; // &

pub const STAR: u8 = 32; // *

pub const QUESTION: u8 = 33; // ?

pub const LABEL: u8 = 34; // 'label

pub const POUND: u8 = 35; // #

pub const LT: u8 = 36; // <

pub const GT: u8 = 37; // >

pub const PLUS: u8 = 38; // +

pub const DIV: u8 = 39; // /

pub const PERC: u8 = 40; // %

pub const EQ_EQ: u8 = 41; // ==

pub const BANG_EQ: u8 = 42; // !=

pub const LT_EQ: u8 = 43; // <=

pub const GT_EQ: u8 = 44; // >=

pub const AMP_AMP: u8 = 45; // &&

pub const PIPE_PIPE: u8 = 46; // ||

pub const LT_LT: u8 = 47; // <<

pub const GT_GT: u8 = 48; // >>

pub const CARET: u8 = 49; // ^

pub const PIPE: u8 = 50; // |

pub const AS: u8 = 51; // as

pub const IS: u8 = 52; // is

pub const NOT: u8 = 53; // not

pub const PLUS_EQ: u8 = 54; // +=

pub const DASH_EQ: u8 = 55; // -=

pub const STAR_EQ: u8 = 56; // *=

pub const SLASH_EQ: u8 = 57; // /=

pub const PERC_EQ: u8 = 58; // %=

pub const AMP_EQ: u8 = 59; // &=

pub const CARET_EQ: u8 = 60; // ^=

pub const PIPE_EQ: u8 = 61; // |=

pub const LT_LT_EQ: u8 = 62; // <<=

pub const GT_GT_EQ: u8 = 63; // >>=

pub const DOT_DOT: u8 = 64; // ..

pub const DOT_DOT_EQ: u8 = 65; // ..=

pub const ROCKET: u8 = 66; // =>

pub const UNDERSCORE: u8 = 67; // _

pub const OPEN_EMPTY: u8 = 68; // OpenEmpty

pub const CLOSE_EMPTY: u8 = 69; // CloseEmpty

pub const TEMPLATE_STRING: u8 = 70; // TemplateString

pub const ASYNC: u8 = 71; // async

pub const AWAIT: u8 = 72; // await

pub const BREAK: u8 = 73; // break

pub const CONST: u8 = 74; // const

pub const CONTINUE: u8 = 75; // continue

pub const DEFAULT: u8 = 76; // default

pub const ELSE: u8 = 77; // else

pub const ENUM: u8 = 78; // enum

pub const FN: u8 = 79; // fn

pub const FOR: u8 = 80; // for

pub const IF: u8 = 81; // if

pub const IMPL: u8 = 82; // impl

pub const IN: u8 = 83; // in

pub const LET: u8 = 84; // let

pub const LOOP: u8 = 85; // loop

pub const MATCH: u8 = 86; // match

pub const MOD: u8 = 87; // mod

pub const MOVE: u8 = 88; // move

pub const PUB: u8 = 89; // pub

pub const RETURN: u8 = 90; // return

pub const SELECT: u8 = 91; // select

pub const STRUCT: u8 = 92; // struct

pub const USE: u8 = 93; // use

pub const WHILE: u8 = 94; // while

pub const YIELD: u8 = 95; // yield

// ---- nodes, 128 to 255

pub const ROOT: u8 = 128; // Root

pub const EXPR: u8 = 129; // Expr

pub const ERROR: u8 = 130; // Error

pub const LOCAL: u8 = 131; // Local

pub const ITEM: u8 = 132; // Item

pub const ITEM_CONST: u8 = 133; // ItemConst

pub const ITEM_ENUM: u8 = 134; // ItemEnum

pub const ITEM_FILE_MOD: u8 = 135; // ItemFileMod

pub const ITEM_FN: u8 = 136; // ItemFn

pub const ITEM_IMPL: u8 = 137; // ItemImpl

pub const ITEM_MOD: u8 = 138; // ItemMod

pub const ITEM_STRUCT: u8 = 139; // ItemStruct

pub const ITEM_USE: u8 = 140; // ItemUse

pub const ITEM_USE_GROUP: u8 = 141; // ItemUseGroup

pub const ITEM_USE_PATH: u8 = 142; // ItemUsePath

pub const INNER_ATTRIBUTE: u8 = 143; // InnerAttribute

pub const ATTRIBUTE: u8 = 144; // Attribute

pub const TOKEN_STREAM: u8 = 145; // TokenStream

pub const MODIFIERS: u8 = 146; // Modifiers

pub const MODIFIER_SUPER: u8 = 147; // ModifierSuper

pub const MODIFIER_SELF: u8 = 148; // ModifierSelf

pub const MODIFIER_CRATE: u8 = 149; // ModifierCrate

pub const MODIFIER_IN: u8 = 150; // ModifierIn

pub const EMPTY_BODY: u8 = 151; // EmptyBody

pub const STRUCT_BODY: u8 = 152; // StructBody

pub const TUPLE_BODY: u8 = 153; // TupleBody

pub const FIELD: u8 = 154; // Field

pub const VARIANT: u8 = 155; // Variant

pub const FN_ARGS: u8 = 156; // FnArgs

pub const PAT: u8 = 157; // Pat

pub const PAT_ARRAY: u8 = 158; // PatArray

pub const PAT_IGNORE: u8 = 159; // PatIgnore

pub const PAT_OBJECT: u8 = 160; // PatObject

pub const PAT_TUPLE: u8 = 161; // PatTuple

pub const ANONYMOUS_OBJECT_KEY: u8 = 162; // AnonymousObjectKey

pub const PATH: u8 = 163; // Path

pub const PATH_GENERICS: u8 = 164; // PathGenerics

pub const LIT: u8 = 165; // Lit

pub const TEMPLATE: u8 = 166; // TemplateString

pub const BLOCK: u8 = 167; // Block

pub const BLOCK_BODY: u8 = 168; // BlockBody

pub const CONDITION: u8 = 169; // Condition

pub const CLOSURE_ARGUMENTS: u8 = 170; // ClosureArguments

pub const EXPR_ARRAY: u8 = 171; // ExprArray

pub const EXPR_ASSIGN: u8 = 172; // ExprAssign

pub const EXPR_AWAIT: u8 = 173; // ExprAwait

pub const EXPR_BINARY: u8 = 174; // ExprBinary

pub const EXPR_BREAK: u8 = 175; // ExprBreak

pub const EXPR_CALL: u8 = 176; // ExprCall

pub const EXPR_CHAIN: u8 = 177; // ExprChain

pub const EXPR_CLOSURE: u8 = 178; // ExprClosure

pub const EXPR_CONTINUE: u8 = 179; // ExprContinue

pub const EXPR_ELSE: u8 = 180; // ExprElse

pub const EXPR_ELSE_IF: u8 = 181; // ExprElseIf

pub const EXPR_EMPTY_GROUP: u8 = 182; // ExprEmptyGroup

pub const EXPR_FIELD: u8 = 183; // ExprField

pub const EXPR_FOR: u8 = 184; // ExprFor

pub const EXPR_GROUP: u8 = 185; // ExprGroup

pub const EXPR_IF: u8 = 186; // ExprIf

pub const EXPR_INDEX: u8 = 187; // ExprIndex

pub const EXPR_LOOP: u8 = 188; // ExprLoop

pub const EXPR_MACRO_CALL: u8 = 189; // ExprMacroCall

pub const EXPR_MATCH: u8 = 190; // ExprMatch

pub const EXPR_MATCH_ARM: u8 = 191; // ExprMatchArm

pub const EXPR_OBJECT: u8 = 192; // ExprObject

pub const EXPR_OPERATOR: u8 = 193; // ExprOperator

pub const EXPR_RANGE: u8 = 194; // ExprRange

pub const EXPR_RANGE_FROM: u8 = 195; // ExprRangeFrom

pub const EXPR_RANGE_FULL: u8 = 196; // ExprRangeFull

pub const EXPR_RANGE_INCLUSIVE: u8 = 197; // ExprRangeInclusive

pub const EXPR_RANGE_TO: u8 = 198; // ExprRangeTo

pub const EXPR_RANGE_TO_INCLUSIVE: u8 = 199; // ExprRangeToInclusive

pub const EXPR_RETURN: u8 = 200; // ExprReturn

pub const EXPR_SELECT: u8 = 201; // ExprSelect

pub const EXPR_SELECT_ARM: u8 = 202; // ExprSelectArm

pub const EXPR_TRY: u8 = 203; // ExprTry

pub const EXPR_TUPLE: u8 = 204; // ExprTuple

pub const EXPR_UNARY: u8 = 205; // ExprUnary

pub const EXPR_WHILE: u8 = 206; // ExprWhile

pub const EXPR_YIELD: u8 = 207; // ExprYield
