// The words in which programs print dates and times.
#![tactic(auto)]

use std::fmt;
use std::fmt::{Display, Formatter};
use time::MysqlTime;

// The fields by name, and the sign.
#[derive(Clone, Copy)]
pub struct TimeWords(pub MysqlTime);

impl Display for TimeWords {
    fn fmt<W: fmt::Write>(&self, f: &mut Formatter<W>) -> fmt::Result {
        let t = self.0;
        let sign = if t.neg { '-' } else { '+' };
        write!(f, "year {} month {} day {} ", t.year, t.month, t.day)?;
        write!(
            f,
            "hour {} minute {} second {} ",
            t.hour, t.minute, t.second
        )?;
        write!(f, "micro {} {sign}", t.second_part)
    }
}
