//! What the calls answer, and the number by which each answer goes to C: one enum for all calls. `specs/Codes.antt` has
//! the same numbers as definitions; a reader may rely on no two answers having one code, so a code tells its cause.
ghost use Rattle.std.specs.Prelude.{◌≡◌};
ghost use Rattle.space_c.specs.Codes.{code_of, round_after};

use word_rows::REFUSED_ROUNDS;

/// What a call came to.
#[derive(Clone, Copy, Drop)]
pub enum Answer {
    /// The call did what it is for.
    Done,
    /// Another caller has to move first: the call is to be made again after a wait.
    Later,
    /// The call is to be made again at once.
    AtOnce,
    /// The handle holds pages already.
    Holds,
    /// The handle holds no pages.
    HasNone,
    /// The handle is closed.
    Closed,
    /// The handle is open.
    Open,
    /// There was no memory.
    Memory,
    /// The number of callers is 0 or above 16.
    Callers,
    /// The two numbers make no cut: there is no region or more than 16, or a block has more than 2^62 pages.
    BadCut,
    /// All callers of the handle's space that it could share have been shared.
    NoneLeft,
    /// There is no such call, a bit of it has no name, or there is no such page.
    BadCall,
    /// The handle's caller has made 2^56 calls.
    Spent,
}

impl Answer {
    /// The number by which C knows the answer.
    pub(crate) fn code(&self) -> u32
        ensures { result ≡ code_of self.now }
    {
        match self {
            Answer::Done => 0,
            Answer::Later => 1,
            Answer::AtOnce => 2,
            Answer::Holds => 3,
            Answer::HasNone => 4,
            Answer::Closed => 5,
            Answer::Open => 6,
            Answer::Memory => 7,
            Answer::Callers => 8,
            Answer::BadCut => 9,
            Answer::NoneLeft => 10,
            Answer::BadCall => 11,
            Answer::Spent => 12,
        }
    }

    /// How many rounds of a call were refused since its last one with further looks, where so many were before this
    /// answer.
    pub(crate) fn round_after(&self, refused: u32) -> u32
        ensures { result ≡ round_after self.now refused }
    {
        match self {
            Answer::Done => 0,
            Answer::Later => {
                if refused < REFUSED_ROUNDS {
                    refused + 1
                } else {
                    0
                }
            }
            Answer::AtOnce => { if refused < REFUSED_ROUNDS { refused } else { 0 } }
            _ => refused,
        }
    }
}
