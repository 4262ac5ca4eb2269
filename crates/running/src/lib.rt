// The run of an accepted call: steps and answers, one turn after another, until it ends.
#![tactic(auto)]

ghost use Rattle.std.specs.Prelude.{◌≡◌, Some, None, List, [], ◌∷◌, ◌+◌, ◌≤◌, ◌<◌, length, replicate};
ghost use Rattle.book.specs.Decode.{question_of};
ghost use Rattle.machine.specs.Run.{Result, start as start_of};
ghost use Rattle.machine.specs.Call.{no_counts, run_of, filled_buffer};
ghost use Rattle.steps.specs.Search.{Stands, spent_units, units_of};
ghost use Rattle.seeking.specs.Seeking.{AllIndexed};
ghost use Rattle.seeking.specs.Memo.{Memo};
ghost use Rattle.book.proofs.Accepted.{Accepted};
ghost use Rattle.machine.specs.Machine.{Thread};
ghost use Rattle.returning.specs.Reaching.{ReachContract, MemoReached};
ghost use Rattle.running.specs.Turns.{answer_due, Taken, Midway, TurnGives, one_more, turn_by};

use machine::{Ending, Limit, Tally};
use returning::Reached;
use steps::{Branch, Regs, Stepped};
use words::{Book, Words};

// A turn of the run: it goes on, with the tally, the registers and the end of what is written; or it has ended.
// An enum of its own: neither case is a failure, and the tally stands at the same place in both, as the units in `Stepped`.
#[derive(Clone, Copy)]
pub enum Turned {
    On(Tally, Regs, usize),
    Over(Ending, Tally),
}

// What a run is asked for: answers for so many unknowns, so many of them, within so many units.
#[derive(Clone, Copy)]
struct Asked {
    pub unknowns: u32,
    pub wanted: u32,
    pub budget: u32,
}

// How a run ended, and its tally.
#[derive(Clone, Copy)]
pub struct Ran {
    pub ending: Ending,
    pub tally: Tally,
}

// So many units more.
fn spend(y: Tally, used: u32) -> Tally
    requires { y.units + used < 4294967296 }
    ensures { result ≡ spent_units used y }
{
    Tally {
        units: y.units + used,
        ..y
    }
}

// One unit and one answer more: it is assumed if a suppose goal was taken on its branch.
fn count_answer(y: Tally, supposed: bool) -> Tally
    requires { (y.units + 1 < 4294967296) × (y.answers < 64) × (y.assumed ≤ y.answers) }
    ensures { result ≡ one_more y supposed }
{
    Tally {
        units: y.units + 1,
        answers: y.answers + 1,
        assumed: y.assumed + u32::from(supposed),
    }
}

// A step as a turn.
fn step_taken(y: Tally, end: usize, s: Stepped) -> Turned
    requires { y.units + units_of s < 4294967296 }
    ensures { result ≡ turn_by y end s }
{
    match s {
        Stepped::Onward(used, r) => Turned::On(spend(y, used), r, end),
        Stepped::Finished(e, used) => Turned::Over(e, spend(y, used)),
    }
}

// The list of goals is empty, and the budget has a unit left: an answer.
fn answer(
    book: &Book,
    ws: &mut Words,
    out: &mut [u8],
    r: Regs,
    b: Branch,
    y: Tally,
    end: usize,
    asked: Asked,
) -> Turned
    requires taken { Taken book.now.bytes.now asked.unknowns asked.wanted (length out.old) }
    requires midway { (whole : Result) × Midway book.now.bytes.now asked.unknowns asked.wanted (length out.old) asked.budget ws.old out.old r y end whole }
    requires solving_value { (r.branch ≡ Some b) × (b.cell ≡ 0) × (y.units < asked.budget) }
    ensures { (whole : Result) → Midway book.now.bytes.now asked.unknowns asked.wanted (length out.old) asked.budget ws.old out.old r y end whole
        → TurnGives book.now.bytes.now asked.unknowns asked.wanted (length out.old) asked.budget ws.new out.new r y whole result }
{
    seeking::forget(ws, r.made);
    let k = y.answers as u16;
    match answers::write_answer(book, r.made, ws, out, end, k, asked.unknowns) {
        Err(limit) => Turned::Over(Ending::Stopped(limit), y),
        Ok(e) => {
            let z = count_answer(y, b.supposed);
            if z.answers == asked.wanted {
                return Turned::Over(Ending::Enough, z);
            }
            Turned::On(z, steps::to_back(r), e)
        }
    }
}

// The branch in hand whose list of goals is empty: an answer is due.
fn answer_due(r: Regs) -> Option<Branch>
    ensures { result ≡ answer_due r }
{
    let b = r.branch?;
    if b.cell == 0 { Some(b) } else { None }
}

// Goes back; or, with a branch in hand, takes its next goal, if the budget has a unit left.
fn reach(book: &Book, ws: &mut Words, r: Regs, left: u32) -> Reached
    requires accepted { Accepted book.now.bytes.now × AllIndexed book.now.bytes.now ws.old }
    requires r_value { answer_due r ≡ None }
    requires stands { (threads : List Thread) × Stands book.now.bytes.now ws.old r threads }
    requires memo { Memo book.now.bytes.now ws.old r.programs left }
    ensures reach_contract { ReachContract book.now.bytes.now ws.old ws.new r left result }
    ensures memo_reached { MemoReached book.now.bytes.now ws.new left result }
{
    let Some(b) = r.branch else {
        return returning::back(book.bytes, ws, r, left);
    };
    if left == 0 {
        return Reached::Finished(Ending::Stopped(Limit::Budget), 0);
    }
    taking::take(book, ws, r, b, left)
}

// One turn: an answer; or a step, which goes back or takes the next goal, and tries the candidate to which that leads. A unit is done only if the budget
// has one left.
fn turn(
    book: &Book,
    ws: &mut Words,
    out: &mut [u8],
    r: Regs,
    y: Tally,
    end: usize,
    asked: Asked,
) -> Turned
    requires taken { Taken book.now.bytes.now asked.unknowns asked.wanted (length out.old) }
    requires midway { (whole : Result) × Midway book.now.bytes.now asked.unknowns asked.wanted (length out.old) asked.budget ws.old out.old r y end whole }
    ensures { (whole : Result) → Midway book.now.bytes.now asked.unknowns asked.wanted (length out.old) asked.budget ws.old out.old r y end whole
        → TurnGives book.now.bytes.now asked.unknowns asked.wanted (length out.old) asked.budget ws.new out.new r y whole result }
{
    let left = asked.budget - y.units;
    if let Some(b) = answer_due(r) {
        if left == 0 {
            return Turned::Over(Ending::Stopped(Limit::Budget), y);
        }
        return answer(book, ws, out, r, b, y, end, asked);
    }
    let o = reach(book, ws, r, left);
    let s = returning::go_on(book, ws, o, left);
    step_taken(y, end, s)
}

// The whole run from the registers of the start, with the answer buffer all zero and nothing counted yet.
pub fn run(
    book: &Book,
    ws: &mut Words,
    out: &mut [u8],
    start: Regs,
    unknowns: u32,
    wanted: u32,
    budget: u32,
    tally: Tally,
) -> Ran
    requires taken { Taken book.now.bytes.now unknowns wanted (length out.old) }
    requires stands { Stands book.now.bytes.now ws.old start ((start_of (question_of book.now.bytes.now)).thread ∷ []) }
    requires all_indexed { AllIndexed book.now.bytes.now ws.old × Memo book.now.bytes.now ws.old start.programs budget }
    requires tally_value { tally ≡ no_counts }
    requires out_value { out.old ≡ replicate (length out.old) 0 }
    ensures ending_value { (result.ending ≡ (run_of book.now.bytes.now budget wanted (length out.old)).ending)
        × (result.tally ≡ (run_of book.now.bytes.now budget wanted (length out.old)).tally) }
    ensures out_after { out.new ≡ filled_buffer (length out.old) (run_of book.now.bytes.now budget wanted (length out.old)).lines }
{
    // Put together here, for the turns: the one caller has the three one by one.
    let asked = Asked {
        unknowns,
        wanted,
        budget,
    };
    let mut r = start;
    let mut y = tally;
    let mut end: usize = 0;
    // Until a turn is the last one.
    loop {
        match turn(book, ws, out, r, y, end, asked) {
            Turned::Over(ending, tally) => return Ran { ending, tally },
            Turned::On(z, s, e) => {
                r = s;
                y = z;
                end = e;
            }
        }
    }
}
