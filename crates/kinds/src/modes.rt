// The modes that the rules take, as the Rust has them: whether a `{` may begin an expression, whether a range may follow, whether operators are looked for,
// what an error does, and what a list holds. Each is a type of its own, so that no two can be mixed up. specs/Modes.antt reads them as the definition's.
// The rules take them one by one, as the Rust's do: they take nine different sets of them, and one struct of all would hand most rules modes that they have no
// use for.

#[derive(Clone, Copy, PartialEq, Eq)]
pub enum Brace {
    Yes,
    No,
}

#[derive(Clone, Copy, PartialEq, Eq)]
pub enum Range {
    Yes,
    No,
}

#[derive(Clone, Copy, PartialEq, Eq)]
pub enum Binary {
    Yes,
    No,
}

// `dyn ExprCx`: ErrorCx refuses, StmtCx looks for the end of the statement. (Two cases in one place, which the definition has as data too; a `dyn` or a
// closure would have to say in clauses of its own what a `match` shows.)
#[derive(Clone, Copy, PartialEq, Eq)]
pub enum ExprCx {
    ErrorCx,
    StmtCx,
}

// The function pointers of `parenthesized`: `is_expr` and `expr`, or `is_pat` and `pat`. (A test and a rule each: passed as closures, both would need their
// clauses written out, in the cycle of calls that the rules are; the definition has the two lists as data.)
#[derive(Clone, Copy, PartialEq, Eq)]
pub enum Listed {
    Exprs,
    Pats,
}
