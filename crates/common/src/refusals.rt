// Why a call is refused. Documents 01 and 02 give each reason a number, by which hosts and replies know it.
ghost use Rattle.std.specs.Prelude.{◌≡◌};
ghost use Rattle.common.specs.Refusals.{refusal_number, answer_number};

// Rows 1 to 10 of document 01's table, and document 02's 11 to 13, in the order of their numbers.
#[derive(Clone, Copy, Debug, PartialEq, Eq)]
pub enum Refusal {
    ReplyLength,
    RecordLength,
    Malformed,
    NotInLanguage,
    NameTaken,
    NotDeclared,
    TooManyPatterns,
    Full,
    NoRule,
    ListLength,
    BatchLength,
    ImageTurnedAway,
    ImageLength,
}

impl Refusal {
    // The number by which hosts and replies know it. Kept: a method, which says what the number is; `u8::from` would not.
    pub fn number(self) -> u8
        ensures { result ≡ refusal_number self }
    {
        match self {
            Refusal::ReplyLength => 1,
            Refusal::RecordLength => 2,
            Refusal::Malformed => 3,
            Refusal::NotInLanguage => 4,
            Refusal::NameTaken => 5,
            Refusal::NotDeclared => 6,
            Refusal::TooManyPatterns => 7,
            Refusal::Full => 8,
            Refusal::NoRule => 9,
            Refusal::ListLength => 10,
            Refusal::BatchLength => 11,
            Refusal::ImageTurnedAway => 12,
            Refusal::ImageLength => 13,
        }
    }
}

// The number that a call hands back: 0 when taken.
pub fn answer_number<T: Copy>(answer: Result<T, Refusal>) -> u8
    ensures { result ≡ answer_number answer }
{
    match answer {
        Ok(_) => 0,
        Err(refusal) => refusal.number(),
    }
}
