// The binary operators: how tightly each binds, and how many tokens it takes. Proved equal to the definition's table.
#![tactic(auto, unfolding(definition::specs::Classes::among, definition::specs::Operators::associative, definition::specs::Operators::is_below, definition::specs::Operators::is_tighter, definition::specs::Operators::clashes))]

ghost use Rattle.std.specs.Prelude.{◌≡◌, ◌<◌, ◌≤◌};
ghost use Rattle.definition.specs.Operators.{associative};

mod lookup; // lookup.rt: the table, and the operator that two kinds make

pub use lookup::from_slice;

// An operator: its binding, and how many tokens it takes. A higher binding binds tighter.
#[derive(Clone, Copy, PartialEq, Eq)]
pub struct Op {
    pub binding: u8,
    pub tokens: u8,
    pub ghost binds: { 0 < binding },
    pub ghost small: { binding < 14 },
    pub ghost short: { (1 ≤ tokens) × (tokens ≤ 2) },
}

impl Op {
    ghost use Rattle.definition.specs.Operators.{is_below, is_tighter, clashes as clashing};
    ghost use Rattle.kinds.specs.Ops.{op_of};

    // Whether it binds less than `least`.
    pub fn is_below(self, least: u8) -> bool
        ensures { result ≡ is_below least (op_of self) }
    {
        self.binding < least
    }

    // Whether `next` nests under it.
    pub fn is_tighter(self, next: Op) -> bool
        ensures { result ≡ is_tighter (op_of self) (op_of next) }
    {
        self.binding < next.binding
    }

    // Whether the two need parentheses.
    pub fn clashes(self, next: Op) -> bool
        ensures { result ≡ clashing (op_of self) (op_of next) }
    {
        self.binding == next.binding && !is_associative(next.binding)
    }
}

// Whether operators of a binding may stand side by side without parentheses.
pub fn is_associative(binding: u8) -> bool
    ensures { result ≡ associative binding }
{
    !matches!(binding, 13 | 5 | 1)
}
