// MySQL's dates and times in their packed form, read and written: see specs/.
#![tactic(auto)]

mod fields;
mod ranges;

ghost use Rattle.std.specs.Prelude.{◌≡◌};
ghost use Rattle.refusal.specs.Told.{told_by};
ghost use Rattle.time.specs.Answers.{code_of, type_of, numbers, written, read_told, write_told, write_leaves};

use refusal::Refusal;

// The four types, with the numbers that columns have for them.
#[derive(Clone, Copy, Debug, PartialEq, Eq, Hash)]
pub enum TimeType {
    Timestamp = 7,
    Date = 10,
    Time = 11,
    Datetime = 12,
}

// A date, a time, or both. The packed form has no time zone.
#[derive(Clone, Copy, Debug, PartialEq, Eq, Hash)]
pub struct MysqlTime {
    pub year: u32,
    pub month: u32,
    pub day: u32,
    pub hour: u32,
    pub minute: u32,
    pub second: u32,
    // Microseconds.
    pub second_part: u32,
    pub neg: bool,
    pub time_type: TimeType,
}

impl TimeType {
    // The number of the column type.
    pub fn code(self) -> u8
        ensures { result ≡ code_of self }
    {
        self as u8
    }

    // The type that a number names. No `TryFrom`: a number of none of the four is nothing, and no refusal.
    #[tactic(auto, unfolding(crate::specs::Answers::type_of))]
    pub fn of(code: u32) -> Option<TimeType>
        ensures { result ≡ type_of code }
    {
        match code {
            7 => Some(TimeType::Timestamp),
            10 => Some(TimeType::Date),
            11 => Some(TimeType::Time),
            12 => Some(TimeType::Datetime),
            _ => None,
        }
    }
}

impl MysqlTime {
    // The value of this type in the first eight bytes.
    #[tactic(auto, unfolding(crate::specs::Answers::read_told, crate::specs::Answers::ranged, crate::specs::Packed::number))]
    pub fn read_packed(bytes: &[u8], kind: TimeType) -> Result<MysqlTime, Refusal>
        ensures { told_by numbers result ≡ read_told kind bytes.now }
    {
        if bytes.len() < 8 {
            return Err(Refusal::TimeShort);
        }
        let t = MysqlTime::of_number(kind, raw::number_of(bytes).cast_signed());
        if t.in_range() {
            Ok(t)
        } else {
            Err(Refusal::TimeField)
        }
    }

    // Writes the packed form to the first eight bytes of the output. A refusal changes nothing.
    #[tactic(auto, unfolding(crate::specs::Answers::write_told, crate::specs::Answers::write_leaves))]
    pub fn write_packed(self, out: &mut [u8]) -> Result<(), Refusal>
        ensures result_value { told_by written result ≡ write_told self out.old }
        ensures out_after { out.new ≡ write_leaves self out.old }
    {
        if !self.in_range() {
            return Err(Refusal::TimeField);
        }
        if out.len() < 8 {
            return Err(Refusal::Room);
        }
        out[..8].copy_from_slice(&self.packed());
        Ok(())
    }
}
