// The start of a run in the workspace, and the whole run from it.
#![tactic(auto)]

ghost use Rattle.std.specs.Prelude.{◌≡◌, length};
ghost use Rattle.book.proofs.Accepted.{Accepted};
ghost use Rattle.branch.specs.State.{own_run};
ghost use Rattle.index.specs.Index.{IndexedFrom};
ghost use Rattle.starting.specs.Start.{start_words, start_regs, Ready, After};

use index::Run;
use machine::Tally;
use running::Ran;
use steps::{Branch, Regs};
use words::{Book, Words};

// Makes the index of the question's own clauses.
fn index_own(book: &Book, ws: &mut Words)
    requires accepted { Accepted book.now.bytes.now }
    ensures { IndexedFrom book.now.bytes.now (own_run book.now.bytes.now).first (own_run book.now.bytes.now).count 0 ws.old ws.new }
{
    index::make_index(book, ws, Run::read(book, book.last()));
}

// The question's goal is put into the first goal cell, and its unknowns are the variables that are made.
fn set_up(book: &Book, ws: &mut Words) -> Regs
    requires accepted { Accepted book.now.bytes.now }
    ensures value { result ≡ start_regs book.now.bytes.now }
    ensures ws_after { ws.new ≡ start_words book.now.bytes.now ws.old }
{
    let last = book.last();
    let goal = book.field(last, 3);
    let unknowns = book.field(last, 4);
    branch::put_cell(ws, 1, 4096 * (goal + 1), 0, 0);
    Regs {
        made: unknowns,
        trail: 0,
        cells: 2,
        programs: 1,
        alternatives: 0,
        branch: Some(Branch {
            cell: 1,
            taken: 0,
            supposed: false,
        }),
    }
}

// The whole run of an accepted book, counting on from the tally that is handed in.
pub fn whole_run(
    book: &Book,
    ws: &mut Words,
    out: &mut [u8],
    wanted: u32,
    budget: u32,
    tally: Tally,
) -> Ran
    requires { Ready book.now.bytes.now ws.old out.old wanted budget tally }
    ensures { After book.now.bytes.now ws.old out.old wanted budget tally result.ending result.tally ws.new out.new }
{
    index_own(book, ws);
    supposed::index_supposed(book, ws);
    let r = set_up(book, ws);
    running::run(book, ws, out, r, r.made, wanted, budget, tally)
}
