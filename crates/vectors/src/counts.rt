// How many cases there were, and how it is told.
use std::fmt;

#[derive(Clone, Copy, Default)]
pub struct Tally {
    // Lines that are over.
    pub lines: u64,
    cases: u64,
    agreed: u64,
}

impl Tally {
    // A line is over: a case that agrees or not, or no case. At the largest number a count stays.
    pub fn count(&mut self, agrees: Option<bool>) {
        self.lines = self.lines.saturating_add(1);
        if let Some(agrees) = agrees {
            self.cases = self.cases.saturating_add(1);
            self.agreed = self.agreed.saturating_add(u64::from(agrees));
        }
    }
}

impl fmt::Display for Tally {
    fn fmt<W: fmt::Write>(&self, f: &mut fmt::Formatter<W>) -> fmt::Result {
        write!(f, "{} of {} cases agree", self.agreed, self.cases)
    }
}
