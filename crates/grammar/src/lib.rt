// The rules of grammar.rs that hold expressions, blocks and statements: one cycle of calls, proved equal to the definition together.
#![tactic(auto)]

mod statements; // statements.rt: stmt, and its `match`
mod items; // items.rt: items that hold expressions or statements
mod expressions; // expressions.rt: expr, and what stands round an operand
mod primary; // primary.rt: what an expression begins with
mod chains; // chains.rt: calls, fields, indices
mod groups; // groups.rt: groups, tuples and objects
mod control; // control.rt: if, while, loop, for, match, select, conditions
mod operators; // operators.rt: operators and ranges
mod blocks; // blocks.rt: blocks, and lists between brackets
pub mod steps; // steps.rt: what calls no rule of the cycle

pub use expressions::{expr, expr_with};
pub use statements::stmt;
