// The refusals of document 01, one case for each number; the line is counted from 1.
ghost use Rattle.std.specs.Prelude.{◌≡◌};
ghost use Rattle.rules.specs.Refusals.{number_of, line_of};

#[derive(Clone, Copy, Drop)]
pub enum Refusal {
    // P0: no accepted text gives the policy.
    NotAPolicy,
    // P1
    TooLong,
    // P2
    IllFormed(u16),
    // P3
    WrongKind(u16),
    // P4
    OutOfRange(u16),
    // P5
    OutOfOrder(u16),
    // P6
    Incomplete(u16),
    // P7
    Misplaced(u16),
    // P8
    Uneven(u16),
    // P9: the lent buffer is too short.
    NoRoom,
}

impl Refusal {
    // Document 01's number.
    #[tactic(auto, unfolding(crate::specs::Refusals::number_of))]
    pub fn number(self) -> u8
        ensures { result ≡ number_of self }
    {
        match self {
            Refusal::NotAPolicy => 0,
            Refusal::TooLong => 1,
            Refusal::IllFormed(_) => 2,
            Refusal::WrongKind(_) => 3,
            Refusal::OutOfRange(_) => 4,
            Refusal::OutOfOrder(_) => 5,
            Refusal::Incomplete(_) => 6,
            Refusal::Misplaced(_) => 7,
            Refusal::Uneven(_) => 8,
            Refusal::NoRoom => 9,
        }
    }

    // The line it is given with, 0 where there is none.
    #[tactic(auto, unfolding(crate::specs::Refusals::line_of))]
    pub fn line(self) -> u16
        ensures { result ≡ line_of self }
    {
        match self {
            Refusal::NotAPolicy | Refusal::TooLong | Refusal::NoRoom => 0,
            Refusal::IllFormed(line)
            | Refusal::WrongKind(line)
            | Refusal::OutOfRange(line)
            | Refusal::OutOfOrder(line)
            | Refusal::Incomplete(line)
            | Refusal::Misplaced(line)
            | Refusal::Uneven(line) => line,
        }
    }
}
