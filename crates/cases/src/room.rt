// The buffers of all calls, and a call in them. They are arrays of the most that a case may have: the programs take no memory from a heap.
use crate::case::Case;
use crate::compare::{fill, first_wrong};
use crate::report::Wrong;
use book::Test;
use reading::read_full;
use std::io;
use std::io::Read;

#[derive(Drop)]
pub(crate) struct Room {
    book: [u8; 65552],
    used: [u8; 65536],
    workspace: [u32; 16385],
    out: [u8; 65544],
}

// The parts of the room that a case takes.
#[derive(Drop)]
pub(crate) struct Parts<'a> {
    book: &'a mut [u8],
    used: &'a mut [u8],
    workspace: &'a mut [u32],
    out: &'a mut [u8],
}

impl Room {
    pub(crate) fn new() -> Room {
        Room {
            book: [0; 65552],
            used: [0; 65536],
            workspace: [0; 16385],
            out: [0; 65544],
        }
    }

    // None: the room is too small for the case.
    pub(crate) fn parts(&mut self, case: Case) -> Option<Parts<'_>> {
        Some(Parts {
            book: self.book.as_mut_slice().get_mut(..case.length)?,
            used: self.used.as_mut_slice().get_mut(..case.used)?,
            workspace: self.workspace.as_mut_slice().get_mut(..case.words)?,
            out: self.out.as_mut_slice().get_mut(..case.room)?,
        })
    }
}

impl Parts<'_> {
    // Reads the book and the used bytes of a case, and answers whether the input had all of them.
    pub(crate) fn read(&mut self, input: &mut impl Read) -> io::Result<bool> {
        let book = read_full(input, self.book)?;
        let used = read_full(input, self.used)?;
        Ok(book == self.book.len() && used == self.used.len())
    }

    // Runs a case and compares the reply, every word of the workspace and every byte of the answer buffer.
    pub(crate) fn run(self, case: Case) -> Result<(), Wrong> {
        let Parts {
            book,
            used,
            workspace,
            out,
        } = self;
        fill(workspace);
        fill(out);
        let mut reply = [4294967295u32; 6];
        capi::whittermay_solve(book, case.budget, case.wanted, workspace, out, &mut reply);
        let want = case.reply.six();
        // Test 1's refusal changes no word; after any other reply all are 0. A refusal changes no byte.
        let no_words: &[u32] = &[];
        let refusal = case.reply.refusal();
        let words = if refusal == Some(Test::Room as u32) {
            None
        } else {
            Some(no_words)
        };
        let bytes = if refusal.is_some() {
            None
        } else {
            Some(&*used)
        };
        let word = first_wrong(workspace, words);
        let byte = first_wrong(out, bytes);
        if reply == want && word.is_none() && byte.is_none() {
            return Ok(());
        }
        Err(Wrong {
            reply,
            want,
            word: word.unwrap_or(workspace.len()),
            byte: byte.unwrap_or(out.len()),
        })
    }
}
