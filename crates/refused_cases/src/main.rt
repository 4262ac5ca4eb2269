// Runs calls with damaged books, and with good ones, and compares what `verdict` says of each, and every word of the workspace after it, with what document 01 says.
//
// Standard input: how many cases there are; then for each one six numbers (bytes of the book, words of the workspace, bytes of the answer buffer, answers wanted,
// the refusal's number or 0, the record) and the book. Numbers are u32, low byte first.
#![tactic(auto)]

ghost use Rattle.std.specs.Prelude.{◌≡◌, ◌+◌, ◌%◌};

use book::{Refusal, Test};
use reading::read_full;
use std::io;
use std::io::Read;

#[derive(Clone, Copy)]
struct Case {
    length: usize,
    words: usize,
    buffer: usize,
    wanted: u32,
    // The refusal's number, from 1 on. None: the book is taken.
    refusal: Option<u32>,
    record: u32,
}

// Bytes that the input doesn't have count as 0.
fn read_number(input: &mut impl Read) -> io::Result<u32> {
    let mut b = [0u8; 4];
    read_full(input, &mut b)?;
    Ok(u32::from_le_bytes(b))
}

fn read_case(input: &mut impl Read) -> io::Result<Case> {
    Ok(Case {
        length: read_number(input)? as usize,
        words: read_number(input)? as usize,
        buffer: read_number(input)? as usize,
        wanted: read_number(input)?,
        refusal: Some(read_number(input)?).filter(|number| *number != 0),
        record: read_number(input)?,
    })
}

impl Case {
    // The refusal's number, or 0.
    fn number(self) -> u32 {
        self.refusal.unwrap_or(0)
    }
}

// Word i of the workspace before the call: never 0, and not the same as its neighbour.
fn before(i: usize) -> u32
    ensures { result ≡ i % 251 + 1 }
{
    (i % 251 + 1) as u32
}

// Here and below: no workspace has 65,536 words, and with `% 65536` no remainder in `before` is one of 64 bits, so that the program's run has half the instructions.
fn fill(ws: &mut [u32]) {
    for (i, word) in ws.iter_mut().enumerate() {
        *word = before(i % 65536);
    }
}

// Every word is as it was before the call, if it is to be kept; else every word is 0.
fn words_fit(ws: &[u32], kept: bool) -> bool {
    ws.iter().enumerate().all(|(i, word)| if kept {
        *word == before(i % 65536)
    } else {
        *word == 0
    })
}

fn agrees(v: Result<(), Refusal>, c: Case) -> bool {
    match v {
        Ok(()) => c.refusal.is_none() && c.record == 0,
        Err(e) => c.refusal == Some(u32::from(e.test)) && c.record == u32::from(e.failing),
    }
}

// Test 1's refusal changes no word; after any other verdict all are 0.
fn case_fits(c: Case, book: &[u8], ws: &mut [u32]) -> bool {
    fill(ws);
    let v = refusals::verdict(book, ws, c.buffer, c.wanted);
    agrees(v, c) && words_fit(ws, c.refusal == Some(Test::Room as u32))
}

// The book is read into all of the slice.
fn read_and_run(
    input: &mut impl Read,
    c: Case,
    book: &mut [u8],
    ws: &mut [u32],
) -> io::Result<bool> {
    let got = read_full(input, book)?;
    Ok(got == book.len() && case_fits(c, book, ws))
}

fn run_case(input: &mut impl Read, c: Case, book: &mut [u8], ws: &mut [u32]) -> io::Result<bool> {
    let n = c.length.min(book.len());
    let m = c.words.min(ws.len());
    read_and_run(input, c, &mut book[..n], &mut ws[..m])
}

fn main(rt: HostRuntime) -> io::Result<()> {
    // Arrays of the most that a case may have: the programs take no memory from a heap.
    let mut book = [0u8; 65552];
    let mut ws = [0u32; 16385];
    // How many cases there were of each number, 0 for the books that are taken.
    let mut tally = [0u32; 8];
    let mut wrong = 0u32;
    let mut input = rt.stdin();
    for k in 0..read_number(&mut input)? {
        let c = read_case(&mut input)?;
        let number = c.number();
        if !run_case(&mut input, c, &mut book, &mut ws)? {
            println!(rt; "case {k}\n  is refusal {number}\n  at record {}", c.record)?;
            wrong = wrong.saturating_add(1);
        }
        if let Some(count) = tally.get_mut(number as usize) {
            *count = count.saturating_add(1);
        }
    }
    for (number, count) in tally.iter().enumerate() {
        println!(rt; "refusal {number}: {count}")?;
    }
    println!(rt; "wrong: {wrong}")
}
