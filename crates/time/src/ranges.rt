// Which fields a date or a time may have.
ghost use Rattle.std.specs.Prelude.{◌≡◌};
ghost use Rattle.time.specs.Ranges.{greatest as greatest_of, within, sign_allowed, in_range};

use super::{MysqlTime, TimeType};

// No field is above 0.
pub(crate) const NOUGHT: MysqlTime = MysqlTime {
    year: 0,
    month: 0,
    day: 0,
    hour: 0,
    minute: 0,
    second: 0,
    second_part: 0,
    neg: false,
    time_type: TimeType::Time,
};

// The greatest value of a type.
fn greatest(kind: TimeType) -> MysqlTime
    ensures { result ≡ greatest_of kind }
{
    let date = MysqlTime {
        year: 9999,
        month: 12,
        day: 31,
        time_type: kind,
        ..NOUGHT
    };
    match kind {
        TimeType::Date => date,
        TimeType::Time => MysqlTime {
            hour: 838,
            minute: 59,
            second: 59,
            second_part: 999999,
            ..NOUGHT
        },
        TimeType::Timestamp | TimeType::Datetime => MysqlTime {
            hour: 23,
            minute: 59,
            second: 59,
            second_part: 999999,
            ..date
        },
    }
}

impl MysqlTime {
    // Whether no field is above that of another.
    #[tactic(auto, unfolding(crate::specs::Ranges::within))]
    fn within(self, most: MysqlTime) -> bool
        ensures { result ≡ within self most }
    {
        self.year <= most.year
            && self.month <= most.month
            && self.day <= most.day
            && self.hour <= most.hour
            && self.minute <= most.minute
            && self.second <= most.second
            && self.second_part <= most.second_part
    }

    // Only a time, and not zero, may be negative.
    #[tactic(auto, unfolding(crate::specs::Ranges::sign_allowed))]
    fn sign_allowed(self) -> bool
        ensures { result ≡ sign_allowed self }
    {
        !self.neg || (self.time_type.is_time() && !self.within(NOUGHT))
    }

    // Whether the fields and the sign are those of a value.
    #[tactic(auto, unfolding(crate::specs::Ranges::in_range))]
    pub(crate) fn in_range(self) -> bool
        ensures { result ≡ in_range self }
    {
        self.within(greatest(self.time_type)) && self.sign_allowed()
    }
}
