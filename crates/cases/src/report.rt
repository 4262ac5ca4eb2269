// What the program prints.
use std::fmt;

// A case that is wrong: the reply, the reply wanted, and up to which word and byte all are right.
#[derive(Clone, Copy)]
pub(crate) struct Wrong {
    pub(crate) reply: [u32; 6],
    pub(crate) want: [u32; 6],
    pub(crate) word: usize,
    pub(crate) byte: usize,
}

impl fmt::Display for Wrong {
    fn fmt<W: fmt::Write>(&self, f: &mut fmt::Formatter<W>) -> fmt::Result {
        write!(f, "reply")?;
        for number in self.reply {
            write!(f, " {number}")?;
        }
        write!(f, ", wanted")?;
        for number in self.want {
            write!(f, " {number}")?;
        }
        let word = self.word;
        let byte = self.byte;
        write!(f, "; right up to word {word} and byte {byte}")
    }
}

// How many cases there were, and how many of them were wrong.
#[derive(Clone, Copy, Default)]
pub(crate) struct Tally {
    pub(crate) seen: u32,
    pub(crate) wrong: u32,
}

impl Tally {
    pub(crate) fn count(&mut self, outcome: Result<(), Wrong>) {
        self.seen = self.seen.saturating_add(1);
        if outcome.is_err() {
            self.wrong = self.wrong.saturating_add(1);
        }
    }
}

impl fmt::Display for Tally {
    fn fmt<W: fmt::Write>(&self, f: &mut fmt::Formatter<W>) -> fmt::Result {
        let seen = self.seen;
        let wrong = self.wrong;
        write!(f, "{seen} cases, {wrong} wrong")
    }
}
