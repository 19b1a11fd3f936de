// What the cases that were read came to. (How many there may be is asked call by call, since each call comes with another bound.)
ghost use Rattle.std.specs.Prelude.{◌≡◌, ◌+◌, ◌≤◌, ◌<◌, ◌^◌, cond};

// How many cases there were, how many differ, and the line of the first that does.
#[derive(Clone, Copy)]
pub struct Tally {
    pub cases: usize,
    pub differ: usize,
    pub first: Option<usize>,
    pub ghost ordered: { differ ≤ cases },
}

impl Tally {
    pub fn new() -> Self
        ensures { (result.cases ≡ 0) × (result.differ ≡ 0) }
    {
        Tally {
            cases: 0,
            differ: 0,
            first: None,
        }
    }

    // One case more, which holds or differs.
    pub fn counted(self, holds: bool) -> Self
        requires { self.cases < 2 ^ 63 }
        ensures { (result.cases ≡ self.cases + 1) × (result.differ ≡ self.differ + cond holds 0 1) }
    {
        let cases = self.cases + 1;
        if holds {
            return Tally {
                cases,
                differ: self.differ,
                first: self.first,
            };
        }
        Tally {
            cases,
            differ: self.differ + 1,
            first: self.first.or(Some(cases)),
        }
    }
}
