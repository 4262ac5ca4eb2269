// One tally of units, answers and assumed answers is lent to the run and changed by it.
#![tactic(auto)]

ghost use Rattle.starting.specs.Start.{Ready, After};
ghost use Rattle.machine.specs.Call.{no_counts};

use machine::{Ending, Tally};
use running::Ran;
use words::{Book, Words};

// The run, with the tally lent to it: thin over the run that has it by value.
fn lent_run(
    book: &Book,
    ws: &mut Words,
    out: &mut [u8],
    wanted: u32,
    budget: u32,
    tally: &mut Tally,
) -> Ending
    requires { Ready book.now.bytes.now ws.old out.old wanted budget tally.old }
    ensures { After book.now.bytes.now ws.old out.old wanted budget tally.old result tally.new ws.new out.new }
{
    let x = starting::whole_run(book, ws, out, wanted, budget, *tally);
    *tally = x.tally;
    x.ending
}

// A run counted from nothing: the tally is made here, lent for the run, and given back beside the ending.
pub fn counted_run(book: &Book, ws: &mut Words, out: &mut [u8], wanted: u32, budget: u32) -> Ran
    requires { Ready book.now.bytes.now ws.old out.old wanted budget no_counts }
    ensures { After book.now.bytes.now ws.old out.old wanted budget no_counts result.ending result.tally ws.new out.new }
{
    let mut tally = Tally::default();
    let ending = lent_run(book, ws, out, wanted, budget, &mut tally);
    Ran { ending, tally }
}
