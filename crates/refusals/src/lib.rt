// The refusals of all entries, and where one was met.
#![tactic(auto)]

ghost use Rattle.commands.specs.Refusal.{refusal_number};
ghost use Rattle.commands.specs.Entry.{number_of};
ghost use Rattle.std.specs.Prelude.{◌≡◌};
ghost use Rattle.refusals.specs.Causes.{cause_of, causes_of};

// Why an entry refuses, in the order of the numbers that it returns.
#[derive(Clone, Copy, PartialEq, Eq)]
pub enum Refusal {
    BadCapacity,
    ShortBuffer,
    LongJournal,
    BadByte,
    CutOperands,
    UnknownCabinet,
    UnknownSpan,
    EqualCabinets,
    Full,
    TwoDistricts,
    NoRoom,
    AlreadyExchange,
    NoDuct,
    NoSharedRing,
    DuctTold,
    LongResult,
    RefusedJournal,
    BadSeam,
    LongJoin,
}

// A refusal, and the place of the journal where it was met.
#[derive(Clone, Copy, PartialEq, Eq)]
pub struct RefusedAt {
    pub refusal: Refusal,
    pub place: u32,
}

impl From<Refusal> for u32 {
    ghost from_gives = { λ refusal number. number ≡ refusal_number (cause_of refusal) };

    #[tactic(auto, unfolding(commands::specs::Refusal::refusal_number))]
    fn from(refusal: Refusal) -> u32 {
        match refusal {
            Refusal::BadCapacity => 1,
            Refusal::ShortBuffer => 2,
            Refusal::LongJournal => 3,
            Refusal::BadByte => 4,
            Refusal::CutOperands => 5,
            Refusal::UnknownCabinet => 6,
            Refusal::UnknownSpan => 7,
            Refusal::EqualCabinets => 8,
            Refusal::Full => 9,
            Refusal::TwoDistricts => 10,
            Refusal::NoRoom => 11,
            Refusal::AlreadyExchange => 12,
            Refusal::NoDuct => 13,
            Refusal::NoSharedRing => 14,
            Refusal::DuctTold => 15,
            Refusal::LongResult => 16,
            Refusal::RefusedJournal => 17,
            Refusal::BadSeam => 18,
            Refusal::LongJoin => 19,
        }
    }
}

// A refusal that has no place of its own is told at the journal's start.
impl From<Refusal> for RefusedAt {
    ghost from_gives = { λ refusal refused. refused ≡ record { refusal = refusal; place = 0 } };

    fn from(refusal: Refusal) -> RefusedAt {
        RefusedAt { refusal, place: 0 }
    }
}

// What an entry returns: the refusal's number, or 0.
#[tactic(auto, unfolding(commands::specs::Entry::number_of))]
pub fn number_of(refusal: Option<Refusal>) -> u32
    ensures { result ≡ number_of (causes_of refusal) }
{
    match refusal {
        Some(refusal) => refusal.into(),
        None => 0,
    }
}
