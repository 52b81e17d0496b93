// What refuses a call.
ghost use Rattle.std.specs.Prelude.{◌≡◌};

// The cases of docs/SCOPE.md, 'Refused, in this order of checking', each with the number that C is told. No case has the number 11.
#[derive(Clone, Copy, Debug, PartialEq, Eq)]
pub enum Refusal {
    LongText = 1,
    Form = 2,
    Modulus = 3,
    Variables = 4,
    Order = 5,
    ShortBuffer = 6,
    Length = 7,
    TooMany = 8,
    OutOfRange = 9,
    NoBasis = 10,
    NotThere = 12,
    TooOften = 13,
    OtherValue = 14,
    Weights = 15,
    Variable = 16,
    OtherSuccessor = 17,
    NoCourse = 18,
    Json = 19,
}

impl Refusal {
    ghost use Rattle.specification.specs.Answers.{number_of};

    // Its number.
    #[tactic(auto, unfolding(crate::specs::Answers::number_of))]
    pub fn number(self) -> u8
        ensures { result ≡ number_of self }
    {
        self as u8
    }
}

// A refusal of a text, and the record at fault: the header is record 1, and 0 is no record.
#[derive(Clone, Copy, Debug, PartialEq, Eq)]
pub struct Fault {
    pub refusal: Refusal,
    pub at: u16,
}
