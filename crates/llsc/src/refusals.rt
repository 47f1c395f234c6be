// Why a bench, a judge or a merge says no: the causes of the refusal table, with the numbers that users are told.

ghost use Rattle.std.specs.Prelude.{◌≡◌};
ghost use Rattle.llsc.specs.Refusals.{refusal_number, number_told, refused_if, RefusalWith};

// A row of the refusal table, with its number.
#[derive(Clone, Copy, PartialEq, Eq)]
pub enum Refusal {
    NOutOfRange = 1,
    WOutOfRange = 2,
    // of a view: the list is not a whole number of values
    TooLittleLent = 3,
    NoSuchProcess = 4,
    StartAtBusy = 5,
    StepAtIdle = 6,
    NeverLinked = 7,
    ValueNotWWords = 8,
    NumberOutOfRange = 9,
    TextBroken = 10,
    TooDeep = 11,
    TooMuch = 12,
    NoRoom = 14,
    NoSuchSuccess = 15,
    TooManyCalls = 16,
    AnswerNotAfterStart = 17,
    NoListing = 18,
    SeasonFull = 19,
    TooManyTurns = 20,
    NoSuchNumber = 21,
    // also a turn of another process than 0 and 1
    NotASchedule = 22,
    ROutOfRange = 23,
    NoSuchRecord = 24,
    BadTrailer = 25,
    BadRecord = 26,
    ProcessInBoth = 27,
    TooLittleRoom = 28,
}

impl Refusal {
    // The number that users are told.
    // Kept: 01 promises its users a number.
    pub fn number(self) -> u8
        ensures { result ≡ refusal_number self }
    {
        self as u8
    }

    // Refuses for this cause where it holds.
    pub fn if_holds(self, holds: bool) -> Result<(), Refusal>
        ensures { result ≡ refused_if holds self }
    {
        if holds { Err(self) } else { Ok(()) }
    }
}

// The number of a refusal, 0 for none.
// Kept: 01 promises its users this number.
pub fn number_of(outcome: Result<(), Refusal>) -> u8
    ensures { result ≡ number_told outcome }
{
    match outcome {
        Ok(()) => 0,
        Err(refusal) => refusal.number(),
    }
}

// A number that no row of the table has.
#[derive(Clone, Copy)]
pub struct NoRefusal(pub u8);

impl TryFrom<u8> for Refusal {
    type Error = NoRefusal;

    ghost try_from_gives = { RefusalWith };

    // The refusal that users are told by this number.
    // Kept: an arm for each row, as no form of the language makes a variant of its number.
    fn try_from(number: u8) -> Result<Refusal, NoRefusal> {
        match number {
            1 => Ok(Refusal::NOutOfRange),
            2 => Ok(Refusal::WOutOfRange),
            3 => Ok(Refusal::TooLittleLent),
            4 => Ok(Refusal::NoSuchProcess),
            5 => Ok(Refusal::StartAtBusy),
            6 => Ok(Refusal::StepAtIdle),
            7 => Ok(Refusal::NeverLinked),
            8 => Ok(Refusal::ValueNotWWords),
            9 => Ok(Refusal::NumberOutOfRange),
            10 => Ok(Refusal::TextBroken),
            11 => Ok(Refusal::TooDeep),
            12 => Ok(Refusal::TooMuch),
            14 => Ok(Refusal::NoRoom),
            15 => Ok(Refusal::NoSuchSuccess),
            16 => Ok(Refusal::TooManyCalls),
            17 => Ok(Refusal::AnswerNotAfterStart),
            18 => Ok(Refusal::NoListing),
            19 => Ok(Refusal::SeasonFull),
            20 => Ok(Refusal::TooManyTurns),
            21 => Ok(Refusal::NoSuchNumber),
            22 => Ok(Refusal::NotASchedule),
            23 => Ok(Refusal::ROutOfRange),
            24 => Ok(Refusal::NoSuchRecord),
            25 => Ok(Refusal::BadTrailer),
            26 => Ok(Refusal::BadRecord),
            27 => Ok(Refusal::ProcessInBoth),
            28 => Ok(Refusal::TooLittleRoom),
            _ => Err(NoRefusal(number)),
        }
    }
}
