// Why the map refuses a call: each refusal by its name, with the number that the documents give it.
#![tactic(auto)]

ghost use Rattle.std.specs.Prelude.{◌≡◌};
ghost use Rattle.refusal.specs.Numbers.{number_of};

// A refused call changes nothing.
#[derive(Clone, Copy, PartialEq, Eq, Debug)]
pub enum Refusal {
    // 1: the tank is 8 or more.
    NoSuchTank,
    // 2: settings that break the rule of an opening.
    UnfitSettings,
    // 3: an empty range, or a 0 where none may be.
    EmptyRange,
    // 4: past the end of the tank.
    PastEnd,
    // 5: the tank would be longer than 2^63 - 1 positions.
    TooLong,
    // 6: a value that is no number.
    NotANumber,
    // 7: the mark's identity is carried with another value, flag byte or counter.
    OtherContent,
    // 8: no room for one more mark of its party.
    NoRoomForMark,
    // 9: more runs than the tank's limit.
    OverLimit,
    // 10: more runs than the tanks can share.
    OverPool,
    // 11: the lent buffer or list is shorter than the answer.
    ShortBuffer,
    // 12: a settings text with a bad line.
    BadSettingsText,
    // 13: a log or a saved text with a bad line.
    BadText,
    // 14: a flag byte that no type makes.
    OddFlags,
    // 15: a plan with a bad range, or with too many runs left.
    UnfitPlan,
    // 16: the plant's work, tried by the laboratory.
    PlantsWork,
    // 17: the laboratory would pass the tank's share.
    OverShare,
    // 18: a type that no new mark may have.
    RetiredType,
}

impl Refusal {
    // The number that the documents give it.
    pub fn number(self) -> u64
        ensures { result ≡ number_of self }
    {
        match self {
            Refusal::NoSuchTank => 1,
            Refusal::UnfitSettings => 2,
            Refusal::EmptyRange => 3,
            Refusal::PastEnd => 4,
            Refusal::TooLong => 5,
            Refusal::NotANumber => 6,
            Refusal::OtherContent => 7,
            Refusal::NoRoomForMark => 8,
            Refusal::OverLimit => 9,
            Refusal::OverPool => 10,
            Refusal::ShortBuffer => 11,
            Refusal::BadSettingsText => 12,
            Refusal::BadText => 13,
            Refusal::OddFlags => 14,
            Refusal::UnfitPlan => 15,
            Refusal::PlantsWork => 16,
            Refusal::OverShare => 17,
            Refusal::RetiredType => 18,
        }
    }
}
