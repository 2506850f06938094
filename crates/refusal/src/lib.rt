// Why an answer is refused, each reason with the number by which programs in other languages know it; specs/Told.antt says how an answer is told.
#![tactic(auto)]

ghost use Rattle.std.specs.Prelude.{◌≡◌};
ghost use Rattle.refusal.specs.Refusals.{number_of};

#[derive(Clone, Copy, Debug, PartialEq, Eq, Hash)]
pub enum Refusal {
    // The document is longer than 16,777,216 bytes.
    Document = 1,
    // Unknown type code.
    Type = 2,
    // The bytes end early.
    Cut = 3,
    // A container's size exceeds what is left, or its header exceeds its size.
    Size = 4,
    // The rule on key pointers is broken.
    Key = 5,
    // The rule on value pointers is broken.
    Pointer = 6,
    // Unknown literal.
    Literal = 7,
    // A length field goes on after five bytes, or its length is above 4,294,967,295.
    Length = 8,
    // A key or a string is not UTF-8.
    Utf8 = 9,
    // Unknown column type.
    Column = 10,
    // Deeper than 100.
    Depth = 11,
    // No room for the event.
    Events = 12,
    // The view is not that of a whole container in the bytes handed in, or the wrong kind was asked.
    View = 13,
    // Precision or scale outside the range.
    Range = 20,
    // The bytes of a decimal end early.
    Short = 21,
    // A group has more digits than its place.
    Group = 22,
    // Not decimal text.
    Text = 23,
    // Over 65 digits, or over 30 after the point.
    Digits = 24,
    // The output is shorter than the result.
    Room = 25,
    // The decimal record is ill formed.
    Record = 26,
    // A date or a time has a field out of range.
    TimeField = 30,
    // The bytes of a date or a time end early.
    TimeShort = 31,
}

impl Refusal {
    // Its number.
    pub fn number(self) -> u8
        ensures { result ≡ number_of self }
    {
        self as u8
    }
}
