// The table of the operators, and the look-up in it. It is a module of its own, since its contracts cite specs/Ops.antt, which names `Op`: a struct with
// ghost fields is read before what names it.
ghost use Rattle.std.specs.Prelude.{◌≡◌, cond, ◌&&◌, eqb};
ghost use Rattle.definition.specs.Kinds.{K-is, K-not};
ghost use Rattle.definition.specs.Operators.{from_slice as looking};
ghost use Rattle.kinds.specs.Ops.{next_of, Binds};

use super::Op;
use crate::{DASH, GT_GT_EQ, IS, NOT};

// The bindings of the kinds from DASH to GT_GT_EQ, in the order of docs/KINDS.md; 0 for what is no operator.
// (Bytes, since an array of Option would be laid out anew at each look-up, and there are no statics.)
const BINDINGS: [u8; 34] = [
    10, // -
    8, // &
    11, // *
    0, // ?
    0, // 'label
    0, // #
    5, // <
    5, // >
    10, // +
    11, // /
    11, // %
    5, // ==
    5, // !=
    5, // <=
    5, // >=
    4, // &&
    3, // ||
    9, // <<
    9, // >>
    7, // ^
    6, // |
    13, // as
    13, // is
    0, // not
    1, // +=
    1, // -=
    1, // *=
    1, // /=
    1, // %=
    1, // &=
    1, // ^=
    1, // |=
    1, // <<=
    1, // >>=
];

// The binding of an operator whose first kind is k. Most tokens behind an operand are of a kind before DASH, and look nothing up.
fn binding_of(k: u8) -> Option<u8>
    ensures { Binds k result }
{
    if k < DASH || GT_GT_EQ < k {
        return None;
    }
    match BINDINGS[usize::from(k - DASH)] {
        0 => None,
        binding => Some(binding),
    }
}

// Two for `is not`.
fn tokens_of(k: u8, j: u8) -> u8
    ensures { result ≡ cond (eqb k K-is && eqb j K-not) 2 1 }
{
    if k == IS && j == NOT { 2 } else { 1 }
}

// The operator that the next two kinds make.
pub fn from_slice(k: u8, j: u8) -> Option<Op>
    ensures { next_of result ≡ looking k j }
{
    let binding = binding_of(k)?;
    Some(Op {
        binding,
        tokens: tokens_of(k, j),
    })
}
