// The numbers of document 01's table and of document 02 by their words, named once for all code; `specs/` has the number of
// each, and those that definitions name.
#![tactic(auto)]

ghost use Rattle.std.specs.Prelude.{◌≡◌};
ghost use Rattle.numbers.specs.Codes.{code, told};

// What a call is refused with. A call that is done is `Ok`, and one that is refused is `Err` of its number.
#[derive(Clone, Copy, Debug, PartialEq, Eq)]
pub enum Number {
    Unsound = 1,
    NoSuchPlace = 2,
    Field = 3,
    Gapped = 4,
    Elsewhere = 5,
    InUse = 6,
    Twins = 7,
    Inactive = 8,
    Violated = 9,
    NotPrimary = 10,
    NotReferenced = 11,
    OldPassword = 12,
    Present = 13,
    Absent = 14,
    Short = 15,
    NoRoom = 16,
    Spent = 17,
    ListLength = 18,
    Link = 19,
    Loop = 20,
    Empty = 21,
    Frozen = 22,
    Whole = 23,
    Apart = 24,
    Length = 25,
}

impl Number {
    // The number itself.
    pub fn code(self) -> u8
        ensures { result ≡ code self }
    {
        self as u8
    }
}

// The number that is told of a call, whatever it gives: 0 where it is done.
pub fn told<T>(answer: &Result<T, Number>) -> u8
    ensures { result ≡ told answer.now }
{
    match answer {
        Ok(_) => 0,
        Err(number) => number.code(),
    }
}
