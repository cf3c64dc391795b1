// What was seen of some strings, and the line that says it.
use std::fmt;

// Counts: all strings; those with good sizes; those that read to the end; steps read; steps written again as they
// stood. And a sum over all that the readers gave.
#[derive(Clone, Copy, Default)]
pub(crate) struct Seen {
    pub(crate) strings: u64,
    pub(crate) sized: u64,
    pub(crate) whole: u64,
    pub(crate) steps: u64,
    pub(crate) again: u64,
    pub(crate) sum: u64,
}

impl fmt::Display for Seen {
    fn fmt<W: fmt::Write>(&self, f: &mut fmt::Formatter<W>) -> fmt::Result {
        write!(
            f,
            "{} strings, sized {}, whole {}, steps {}, written again {}, sum {}",
            self.strings, self.sized, self.whole, self.steps, self.again, self.sum
        )
    }
}
