// One call: the tests, the run, and the workspace all zero again.
#![tactic(auto)]

ghost use Rattle.std.specs.Prelude.{◌≡◌, ◌≤◌, length};
ghost use Rattle.book.proofs.Accepted.{Accepted};
ghost use Rattle.machine.specs.Call.{call, run_of, accepted};
ghost use Rattle.engine.specs.Opened.{Opened};

use machine::{Reply, Tally};
use words::{Book, Words};

// What a run must find as zeros: the slots of the unknowns, and the words of the memo. Of the other words a run asks nothing.
fn open_words(ws: &mut Words)
    ensures { Opened ws.new }
{
    words::clear_words(ws, 0, 64);
    seeking::forget(ws, 2048);
}

// A call that is not refused, on any words.
fn run_accepted(book: &[u8], budget: u32, wanted: u32, ws: &mut [u32], out: &mut [u8]) -> Reply
    requires accepted { Accepted book.now }
    requires ws_len { (length ws.old ≡ 16384) × (length out.old ≤ 65536) × (1 ≤ wanted) × (wanted ≤ 64) }
    ensures value { result ≡ (accepted (length ws.old) (length out.old) (run_of book.now budget wanted (length out.old))).reply }
    ensures ws_after { ws.new ≡ (accepted (length ws.old) (length out.old) (run_of book.now budget wanted (length out.old))).workspace }
    ensures out_after { out.new ≡ (accepted (length ws.old) (length out.old) (run_of book.now budget wanted (length out.old))).out }
{
    let Ok(words) = <&mut Words>::try_from(&mut *ws) else {
        unreachable!()
    };
    open_words(words);
    answers::clear(out);
    let run = lending::counted_run(&Book { bytes: book }, words, out, wanted, budget);
    pointing::clear(ws);
    Reply {
        outcome: Ok(run.ending),
        tally: run.tally,
    }
}

// A rule book with one question, a budget and a number of answers wanted: the way the run ended and its counts; the answers are in `out`.
pub fn solve(book: &[u8], budget: u32, wanted: u32, workspace: &mut [u32], out: &mut [u8]) -> Reply
    ensures value { result ≡ (call book.now budget wanted workspace.old out.old).reply }
    ensures workspace_after { workspace.new ≡ (call book.now budget wanted workspace.old out.old).workspace }
    ensures out_after { out.new ≡ (call book.now budget wanted workspace.old out.old).out }
{
    match refusals::tests(book, workspace, out.len(), wanted) {
        Err(refusal) => Reply {
            outcome: Err(refusal),
            tally: Tally::default(),
        },
        Ok(()) => run_accepted(book, budget, wanted, workspace, out),
    }
}
