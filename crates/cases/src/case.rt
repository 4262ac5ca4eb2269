// A case of a file in data/: ten u32, low byte first, are book length, wanted, budget, answer buffer length, kind, a, b, c, d and used length. Then comes the book,
// and then the bytes that the answer buffer starts with afterwards. Kind 0 is refusal a at record b; kind 1 is ending a, b answers, c assumed, d units.
use std::fmt;

// What the reply must say.
#[derive(Clone, Copy)]
pub(crate) enum Wanted {
    Refused {
        test: u32,
        record: u32,
    },
    Ended {
        ending: u32,
        answers: u32,
        assumed: u32,
        units: u32,
    },
}

impl Wanted {
    // The six numbers that the reply must have.
    pub(crate) fn six(self) -> [u32; 6] {
        match self {
            Wanted::Refused { test, record } => [test, record, 0, 0, 0, 0],
            Wanted::Ended {
                ending,
                answers,
                assumed,
                units,
            } => [0, 0, ending, answers, assumed, units],
        }
    }

    // The refusal's number, from 1 on. None: the book is taken.
    pub(crate) fn refusal(self) -> Option<u32> {
        match self {
            Wanted::Refused { test, .. } => Some(test).filter(|number| *number != 0),
            Wanted::Ended { .. } => None,
        }
    }

    pub(crate) fn group(self) -> Group {
        match self {
            Wanted::Refused { test, .. } => Group((test % 8) as usize + 6),
            Wanted::Ended { ending, .. } => Group((ending % 7) as usize),
        }
    }
}

// The group of a case: 0 to 6 by its ending, 7 to 13 by its refusal.
#[derive(Clone, Copy)]
pub(crate) struct Group(pub(crate) usize);

impl fmt::Display for Group {
    fn fmt<W: fmt::Write>(&self, f: &mut fmt::Formatter<W>) -> fmt::Result {
        let g = self.0;
        if g < 7 {
            write!(f, "ending {g}")
        } else {
            write!(f, "refusal {}", g - 6)
        }
    }
}

#[derive(Clone, Copy)]
pub(crate) struct Case {
    pub(crate) length: usize,
    pub(crate) wanted: u32,
    pub(crate) budget: u32,
    pub(crate) words: usize,
    pub(crate) room: usize,
    pub(crate) used: usize,
    pub(crate) reply: Wanted,
}

// A case's head. Its workspace has the size that document 01 says.
impl From<[u8; 40]> for Case {
    fn from(head: [u8; 40]) -> Case {
        let [length, wanted, budget, room, kind, a, b, c, d, used] = numbers(&head);
        let reply = if kind == 0 {
            Wanted::Refused { test: a, record: b }
        } else {
            Wanted::Ended {
                ending: a,
                answers: b,
                assumed: c,
                units: d,
            }
        };
        Case {
            length: length as usize,
            wanted,
            budget,
            words: 16384,
            room: room as usize,
            used: used as usize,
            reply,
        }
    }
}

fn numbers(head: &[u8; 40]) -> [u32; 10] {
    let (words, _) = head.as_chunks::<4>();
    let mut numbers = [0u32; 10];
    for (number, word) in numbers.iter_mut().zip(words) {
        *number = u32::from_le_bytes(*word);
    }
    numbers
}
