// Counting.
use std::fmt;

// How often something was so.
#[derive(Clone, Copy, Default)]
pub(crate) struct Counter(u64);

impl Counter {
    // Counts one more.
    pub(crate) fn add_one(&mut self) {
        self.add_if(true);
    }

    // Counts one more, if it is so this time.
    pub(crate) fn add_if(&mut self, so: bool) {
        self.0 = self.0.saturating_add(u64::from(so));
    }
}

impl fmt::Display for Counter {
    fn fmt<W: fmt::Write>(&self, f: &mut fmt::Formatter<W>) -> fmt::Result {
        self.0.fmt(f)
    }
}
