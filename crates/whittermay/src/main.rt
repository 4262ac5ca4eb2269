// The program: a book on standard input, its answers on standard output. All that matters is in the library: this reads, calls once and prints.
#![tactic(auto)]

use reading::read_full;
use std::io;

// A line for each answer record, in order: four numbers of two bytes each, low byte first. A record's second number is never 0, and unused bytes are.
fn records(rt: &impl Print, out: &[u8; 4096]) -> io::Result<()> {
    let (records, _) = out.as_chunks::<8>();
    for [a, b, c, d, e, f, g, h] in records {
        let what = u16::from_le_bytes([*c, *d]);
        if what == 0 {
            break;
        }
        let answer = u16::from_le_bytes([*a, *b]);
        let number = u16::from_le_bytes([*e, *f]);
        let count = u16::from_le_bytes([*g, *h]);
        println!(rt; "{answer} {what} {number} {count}")?;
    }
    Ok(())
}

fn show(rt: &impl Print, reply: [u32; 6], out: &[u8; 4096]) -> io::Result<()> {
    let [test, record, ending, answers, assumed, units] = reply;
    if test != 0 {
        return println!(rt; "refused {test} {record}");
    }
    println!(rt; "{ending} {answers} {assumed} {units}")?;
    records(rt, out)
}

// Says on standard error what failed, and why.
fn fail(rt: &impl Eprint, what: &str, error: io::Error) {
    let _ = eprintln!(rt; "whittermay: {what}: {error}");
}

fn answer(rt: &(impl Print + Eprint), book: &[u8]) {
    let mut workspace = [0u32; 16384];
    let mut out = [0u8; 4096];
    let mut reply = [0u32; 6];
    capi::whittermay_solve(book, 1000000, 64, &mut workspace, &mut out, &mut reply);
    if let Err(error) = show(rt, reply, &out) {
        fail(rt, "standard output", error);
    }
}

// The room has one byte more than the longest book: an input that fills it is too long, and is refused as such. It is an array, since the programs take no memory
// from a heap. A read that fails is no end: nothing is answered then.
fn main(rt: HostRuntime) {
    let mut room = [0u8; 65537];
    match read_full(&mut rt.stdin(), &mut room) {
        Ok(n) => answer(&rt, &room[..n]),
        Err(error) => fail(&rt, "standard input", error),
    }
}
