// What a call is refused for: the causes, the number of each, and a cause that holds.
#![tactic(auto)]

ghost use Rattle.std.specs.Prelude.{◌≡◌};
ghost use Rattle.lists.specs.Numbers.{number_if};
ghost use Rattle.causes.specs.Refusals.{refusal_number, number_of};

// Why a call is refused, in the order of the numbers. The header has one sentence on each.
#[derive(Clone, Copy, PartialEq, Eq)]
pub enum Refusal {
    WrongSites,
    WrongItems,
    NoSuchPrimary,
    WrongMask,
    Cycle,
    NoState,
    NoSuchSite,
    WrongOperations,
    UnknownOperation,
    NoCopy,
    NotPrimary,
    HistoryFull,
    LineFull,
    CountFull,
    HasParents,
    EpochNotAbove,
    NoSuchLine,
    NothingOnTheWay,
    NoParents,
    ParentSilent,
    NoFile,
    WrongDistance,
    InvalidFile,
    NoSuchRecord,
    BufferTooShort,
    NoSuchRead,
}

impl Refusal {
    // The number by which C and the scripts know it.
    pub fn number(self) -> u32
        ensures { result ≡ refusal_number self }
    {
        match self {
            Refusal::WrongSites => 1,
            Refusal::WrongItems => 2,
            Refusal::NoSuchPrimary => 3,
            Refusal::WrongMask => 4,
            Refusal::Cycle => 5,
            Refusal::NoState => 6,
            Refusal::NoSuchSite => 7,
            Refusal::WrongOperations => 8,
            Refusal::UnknownOperation => 9,
            Refusal::NoCopy => 10,
            Refusal::NotPrimary => 11,
            Refusal::HistoryFull => 12,
            Refusal::LineFull => 13,
            Refusal::CountFull => 14,
            Refusal::HasParents => 15,
            Refusal::EpochNotAbove => 16,
            Refusal::NoSuchLine => 17,
            Refusal::NothingOnTheWay => 18,
            Refusal::NoParents => 19,
            Refusal::ParentSilent => 20,
            Refusal::NoFile => 21,
            Refusal::WrongDistance => 22,
            Refusal::InvalidFile => 23,
            Refusal::NoSuchRecord => 24,
            Refusal::BufferTooShort => 25,
            Refusal::NoSuchRead => 26,
        }
    }
}

// The number that an answer has: 0 where the call was accepted.
pub fn number_of<A: Copy>(answer: Result<A, Refusal>) -> u32
    ensures { result ≡ number_of answer }
{
    match answer {
        Ok(_) => 0,
        Err(refusal) => refusal.number(),
    }
}

// A cause that holds refuses the call.
pub fn refuse_if(holds: bool, refusal: Refusal) -> Result<(), Refusal>
    ensures { number_of result ≡ number_if holds (refusal_number refusal) }
{
    if holds {
        return Err(refusal);
    }
    Ok(())
}
