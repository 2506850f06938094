// Dates and times as nine numbers in a lent slice, for programs in other languages. What stores them returns a refusal's number, or 0, and stores the numbers at
// the front; a slice that is too short is refused by 25, and a refusal changes nothing.
#![tactic(auto)]

ghost use Rattle.std.specs.Prelude.{◌≡◌};
ghost use Rattle.refusal.specs.Told.{told_by};
ghost use Rattle.time.specs.Answers.{numbers, written};
ghost use Rattle.lent.specs.Layout.{Relays};
ghost use Rattle.time_records.specs.TimeRecords.{time_by};

use refusal::Refusal;
use time::{MysqlTime, TimeType};

// The date or time that the first nine numbers are, where there are nine and the type is one of the four.
#[tactic(auto, unfolding(crate::specs::TimeRecords::time_in, crate::specs::TimeRecords::time_by))]
pub fn time_by(xs: &[u32]) -> Option<MysqlTime>
    ensures { result ≡ time_by xs.now }
{
    let &[
        year,
        month,
        day,
        hour,
        minute,
        second,
        second_part,
        sign,
        code,
        ..
    ] = xs
    else {
        return None;
    };
    Some(MysqlTime {
        year,
        month,
        day,
        hour,
        minute,
        second,
        second_part,
        neg: sign != 0,
        time_type: TimeType::of(code)?,
    })
}

// The nine numbers of a date or time.
fn numbers_of(t: MysqlTime) -> [u32; 9]
    ensures { result ≡ numbers t }
{
    [
        t.year,
        t.month,
        t.day,
        t.hour,
        t.minute,
        t.second,
        t.second_part,
        u32::from(t.neg),
        u32::from(t.time_type.code()),
    ]
}

// What was read, or a refusal: nine numbers.
pub fn put_read(answer: &mut [u32], a: Result<MysqlTime, Refusal>) -> u32
    ensures { Relays 9 (told_by numbers a) answer.old result answer.new }
{
    lent::relay(answer, a.map(numbers_of))
}

// The number of what was written, which is 0, or of a refusal.
pub fn written_number(w: Result<(), Refusal>) -> u32
    ensures { result ≡ (told_by written w).number }
{
    match w {
        Ok(()) => 0,
        Err(r) => u32::from(r.number()),
    }
}
