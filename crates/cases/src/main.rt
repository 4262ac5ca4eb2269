// Runs every case of the files in data/ and compares the reply, every word of the workspace and every byte of the answer buffer, all of which start from
// numbers that are not 0.
#![tactic(auto)]

mod case;
mod compare;
mod report;
mod room;

use case::{Case, Group, Wanted};
use reading::read_full;
use report::{Tally, Wrong};
use room::Room;
use std::fs::File;
use std::io;
use std::io::Read;
use std::rt::Files;

// Reads the book and the used bytes of a case, and runs it. None: the file, or the room here, is too short for it.
fn run(
    input: &mut impl Read,
    case: Case,
    room: &mut Room,
) -> io::Result<Option<Result<(), Wrong>>> {
    let Some(mut parts) = room.parts(case) else {
        return Ok(None);
    };
    if !parts.read(input)? {
        return Ok(None);
    }
    Ok(Some(parts.run(case)))
}

// Runs the next case of the file and counts it, and answers whether there was one.
fn next(
    rt: &impl Print,
    input: &mut impl Read,
    at: usize,
    room: &mut Room,
    groups: &mut [Tally; 14],
) -> io::Result<bool> {
    let mut head = [0u8; 40];
    if read_full(input, &mut head)? == 0 {
        return Ok(false);
    }
    let case = Case::from(head);
    let Some(outcome) = run(input, case, room)? else {
        println!(rt; "cut short")?;
        return Ok(false);
    };
    if let Err(wrong) = outcome {
        println!(rt; "case {at}: {wrong}")?;
    }
    let Group(group) = case.reply.group();
    if let Some(tally) = groups.get_mut(group) {
        tally.count(outcome);
    }
    Ok(true)
}

// Runs the cases of an open file, at most a million.
fn each(
    rt: &impl Print,
    input: &mut impl Read,
    room: &mut Room,
    groups: &mut [Tally; 14],
) -> io::Result<()> {
    for at in 0..1000000 {
        if !next(rt, input, at, room, groups)? {
            break;
        }
    }
    Ok(())
}

fn file(rt: &(impl Files + Print + Eprint), path: &str, room: &mut Room) -> io::Result<()> {
    let mut input = match File::open(rt, path) {
        Ok(input) => input,
        Err(error) => return eprintln!(rt; "{path}: {error}"),
    };
    let mut groups = [Tally::default(); 14];
    each(rt, &mut input, room, &mut groups)?;
    drop(input);
    println!(rt; "{path}")?;
    for (i, tally) in groups.iter().enumerate() {
        if tally.seen != 0 {
            let group = Group(i);
            println!(rt; "  {group}: {tally}")?;
        }
    }
    Ok(())
}

// A workspace of so many words, which are too few or too many: refusal 1, which changes nothing.
fn other_size(rt: &impl Print, words: usize, room: &mut Room) -> io::Result<()> {
    let case = Case {
        length: 0,
        wanted: 1,
        budget: 1,
        words,
        room: 64,
        used: 0,
        reply: Wanted::Refused { test: 1, record: 0 },
    };
    if let Some(parts) = room.parts(case) {
        let outcome = parts.run(case);
        if let Err(wrong) = outcome {
            println!(rt; "case 0: {wrong}")?;
        }
        let mut tally = Tally::default();
        tally.count(outcome);
        println!(rt; "workspace of {words}: {tally}")?;
    }
    Ok(())
}

fn main(rt: HostRuntime) -> io::Result<()> {
    let mut room = Room::new();
    other_size(&rt, 16383, &mut room)?;
    other_size(&rt, 16385, &mut room)?;
    file(&rt, "compared.bin", &mut room)?;
    file(&rt, "vectors.bin", &mut room)
}
