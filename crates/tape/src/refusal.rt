// Why a parse is refused, and where.
ghost use Rattle.std.specs.Prelude.{◌≡◌};
ghost use Rattle.tape.specs.Numbers.{number_of};

// The reasons, in the order of their numbers.
#[derive(Clone, Copy, PartialEq, Eq)]
pub enum Reason {
    Asked, // 1: a limit or a separator that is none
    Unequal, // 2: lists of different lengths
    Long, // 3: more than 65,535 tokens
    NoToken, // 4: a kind that is no token's
    Bytes, // 5: lengths of more than 16,777,216 bytes
    NoExpr, // 6: no expression where one is wanted
    Clash, // 7: operators side by side that need parentheses
    Unclosed, // 8: a token stream without its last bracket
    Standstill, // 9: a statement that takes no token
    Deep, // 10: no entry of the counted rules is left
    Full, // 11: no row of the table is left
    Job, // 12: a job, or a number of jobs, that is none
}

// A reason's number, as C and the table of refusals have it.
impl From<Reason> for u32 {
    fn from(reason: Reason) -> u32
        ensures { result ≡ number_of reason }
    {
        match reason {
            Reason::Asked => 1,
            Reason::Unequal => 2,
            Reason::Long => 3,
            Reason::NoToken => 4,
            Reason::Bytes => 5,
            Reason::NoExpr => 6,
            Reason::Clash => 7,
            Reason::Unclosed => 8,
            Reason::Standstill => 9,
            Reason::Deep => 10,
            Reason::Full => 11,
            Reason::Job => 12,
        }
    }
}

// A refusal: its reason, and the index of the token where it comes.
#[derive(Clone, Copy, PartialEq, Eq)]
pub struct Refusal {
    pub reason: Reason,
    pub place: u32,
}
