// The refusals of documents 01 and 02, each with its number.
ghost use Rattle.std.specs.Prelude.{◌≡◌};
ghost use Rattle.lattice.specs.Refusals.{number, told};

// Why a call, a reading, a query or an item is refused.
#[derive(Clone, Copy, Debug, PartialEq, Eq)]
pub enum Refusal {
    // d, S, C or the room B of the book out of range.
    SettingsOutOfRange,
    // A lent slice has another length than the settings give, or a list isn't whole items.
    OtherLength,
    // The table is not sound.
    NotSound,
    // A coordinate is beyond 1,000,000 either way.
    CoordinateBeyond,
    // The coordinates don't sum to 0.
    SumNotZero,
    // A value is beyond 1,000,000 either way.
    ValueBeyond,
    // More readings would be held than the book has room for.
    TooManyReadings,
    // More than C points would be stored.
    TooManyPoints,
    // Merge: d or S differ.
    SettingsDiffer,
    // No stored point has weight above 0 for the query.
    NoPointMet,
    // One has, but the blurred mass sum is 0.
    NoMassMet,
    // Log: kind byte not listed.
    KindNotListed,
    // Log: settings not first, or met again; also multipliers out of place, or a raw reading without
    // them.
    SettingsMisplaced,
    // Log: item of another dimension than the settings.
    OtherDimension,
    // Log: body cut short.
    BodyCut,
    // Program: log over 16,384 bytes, or C over 512.
    ProgramLimit,
    // A raw number or a multiplier out of range.
    RawOutOfRange,
    // Withdraw: no reading of the table has the number.
    NumberNotHeld,
    // A reading of the table has the number already.
    NumberHeld,
}

impl Refusal {
    // The documents' number.
    pub fn number(self) -> u8
        ensures { result ≡ number self }
    {
        match self {
            Refusal::SettingsOutOfRange => 1,
            Refusal::OtherLength => 2,
            Refusal::NotSound => 3,
            Refusal::CoordinateBeyond => 4,
            Refusal::SumNotZero => 5,
            Refusal::ValueBeyond => 6,
            Refusal::TooManyReadings => 7,
            Refusal::TooManyPoints => 8,
            Refusal::SettingsDiffer => 9,
            Refusal::NoPointMet => 10,
            Refusal::NoMassMet => 11,
            Refusal::KindNotListed => 12,
            Refusal::SettingsMisplaced => 13,
            Refusal::OtherDimension => 14,
            Refusal::BodyCut => 15,
            Refusal::ProgramLimit => 16,
            Refusal::RawOutOfRange => 17,
            Refusal::NumberNotHeld => 19,
            Refusal::NumberHeld => 20,
        }
    }
}

// The number that an outcome tells, and 0 where nothing is refused.
pub fn number_told<T>(outcome: &Result<T, Refusal>) -> u8
    ensures { result ≡ told outcome.now }
{
    match outcome {
        Ok(_) => 0,
        Err(refusal) => refusal.number(),
    }
}
