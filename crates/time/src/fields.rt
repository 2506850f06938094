// The packed number: to its fields, and from them.
ghost use Rattle.std.specs.Prelude.{◌≡◌, true, ◌<◌, ◌≤◌};
ghost use Rattle.time.specs.Packed.{bits_above as bits_of, is_time, fields_of, above_minutes, number_of, packed};
ghost use Rattle.time.specs.Ranges.{in_range};

use super::ranges::NOUGHT;
use super::{MysqlTime, TimeType};

impl TimeType {
    // Whether it is that of a time. The other three are dates.
    pub(crate) fn is_time(self) -> bool
        ensures { result ≡ is_time self }
    {
        matches!(self, TimeType::Time)
    }
}

// So many bits of a magnitude, above the lowest ones.
fn bits_above(low: u32, count: u32, m: u64) -> u32
    requires low_bound { low < 64 }
    requires count_bound { count < 32 }
    ensures { result ≡ bits_of low count m }
{
    ((m >> low) % (1 << count)) as u32
}

impl MysqlTime {
    // The fields of a number.
    #[tactic(auto, unfolding(crate::specs::Packed::fields_of, crate::specs::Packed::time_of, crate::specs::Packed::date_of))]
    pub(crate) fn of_number(kind: TimeType, n: i64) -> MysqlTime
        ensures { result ≡ fields_of kind n }
    {
        let m = n.unsigned_abs();
        let clock = MysqlTime {
            minute: bits_above(30, 6, m),
            second: bits_above(24, 6, m),
            second_part: bits_above(0, 24, m),
            neg: n < 0,
            time_type: kind,
            ..NOUGHT
        };
        if kind.is_time() {
            return MysqlTime {
                hour: (m >> 36) as u32,
                ..clock
            };
        }
        let months = m >> 46;
        MysqlTime {
            year: (months / 13) as u32,
            month: (months % 13) as u32,
            day: bits_above(41, 5, m),
            hour: bits_above(36, 5, m),
            ..clock
        }
    }

    // What stands above the minutes.
    #[tactic(auto, unfolding(crate::specs::Packed::above_minutes))]
    fn above_minutes(self) -> u64
        ensures { result ≡ above_minutes self }
    {
        let hour = u64::from(self.hour);
        if self.time_type.is_time() {
            return hour;
        }
        let months = u64::from(self.year) * 13 + u64::from(self.month);
        (months * 32 + u64::from(self.day)) * 32 + hour
    }

    // The number of fields that are in range.
    #[tactic(auto, using(crate::proofs::Number::small_parts), unfolding(crate::specs::Packed::magnitude_of, crate::specs::Packed::number_of))]
    fn number(self) -> i64
        requires { in_range self ≡ true }
        ensures { result ≡ number_of self }
    {
        let minutes = self.above_minutes() * 64 + u64::from(self.minute);
        let seconds = minutes * 64 + u64::from(self.second);
        let magnitude = (seconds * 16777216 + u64::from(self.second_part)) as i64;
        if self.neg { -magnitude } else { magnitude }
    }

    // Its eight bytes.
    #[tactic(auto, using(crate::proofs::Bytes::eight_bytes), unfolding(crate::specs::Packed::packed))]
    pub(crate) fn packed(self) -> [u8; 8]
        requires { in_range self ≡ true }
        ensures { result ≡ packed self }
    {
        self.number().to_le_bytes()
    }
}
