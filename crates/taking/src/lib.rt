// Taking a goal: one unit of the run; or, where plain rules lead on from it, two units for each of them.
#![tactic(auto)]

ghost use Rattle.std.specs.Prelude.{◌≡◌, Some, ℕ, ◌+◌, ◌-◌, ◌*◌, ◌≤◌, ◌<◌, length, get_or, List};
ghost use Rattle.words.specs.Readable.{HasArguments};
ghost use Rattle.book.specs.Records.{records};
ghost use Rattle.book.proofs.Accepted.{Accepted, Formed};
ghost use Rattle.branch.specs.State.{OwnReady};
ghost use Rattle.seeking.specs.Seeking.{AllIndexed, Standing};
ghost use Rattle.seeking.specs.Memo.{Memo, MemoStays};
ghost use Rattle.machine.specs.Machine.{Thread};
ghost use Rattle.steps.specs.Search.{Stands};
ghost use Rattle.returning.specs.Reaching.{ReachContract, MemoReached};
ghost use Rattle.taking.specs.Takes.{cell_of, Room, in_hand, and_words, and_regs, or_words, or_regs, put_program, suppose_words, suppose_regs, atom_kept, AtomTaken, PlainAhead, plain_words, plain_regs};

use book::Kind;
use branch::Back;
use following::Followed;
use index::Head;
use machine::{Ending, Limit};
use returning::Reached;
use seeking::Place;
use steps::{Branch, Regs};
use words::{Book, Words};

// A goal cell: the word of the goal and base in it, the goal's record and base, its program, and the next cell.
#[derive(Clone, Copy)]
pub struct Cell {
    pub word: u32,
    pub goal: u32,
    pub base: u32,
    pub program: u32,
    pub next: u32,
}

// Reads goal cell c.
fn read_cell(ws: &Words, c: u32) -> Cell
    requires { (c < 1026) × (4096 ≤ get_or ws.now (6144 + 2 * c) 0) }
    ensures { result ≡ cell_of ws.now c }
{
    let at = (6144 + 2 * c) as usize;
    let word = ws[at];
    let v = ws[at + 1];
    Cell {
        word,
        goal: word / 4096 - 1,
        base: word % 4096,
        program: v / 4096,
        next: v % 4096,
    }
}

// The registers with a branch in hand whose first goal is in `cell`, the newest.
fn in_hand(r: Regs, b: Branch, cell: u32, programs: u32, alternatives: u32) -> Regs
    requires { (cell < 1026) × (b.taken < 512) }
    ensures { result ≡ in_hand r b cell programs alternatives }
{
    Regs {
        cells: cell + 1,
        programs,
        alternatives,
        branch: Some(Branch {
            cell,
            taken: b.taken + 1,
            ..b
        }),
        ..r
    }
}

// Takes an and goal: the right goal, then before it the left one.
fn take_and(book: &Book, ws: &mut Words, r: Regs, b: Branch, x: Cell) -> Regs
    requires goal_bound { x.goal < records book.now.bytes.now }
    requires room { Room ws.old r b x }
    ensures ws_after { ws.new ≡ and_words book.now.bytes.now r x ws.old }
    ensures value { result ≡ and_regs r b }
{
    let left = book.field(x.goal, 1);
    let right = book.field(x.goal, 2);
    let cells = r.cells;
    branch::put_cell(ws, cells, 4096 * (right + 1) + x.base, x.program, x.next);
    branch::put_cell(ws, cells + 1, 4096 * (left + 1) + x.base, x.program, cells);
    in_hand(r, b, cells + 1, r.programs, r.alternatives)
}

// Takes an or goal: the right goal is put and kept as an alternative, then the left one is put.
fn take_or(book: &Book, ws: &mut Words, r: Regs, b: Branch, x: Cell) -> Regs
    requires goal_bound { x.goal < records book.now.bytes.now }
    requires room { Room ws.old r b x }
    ensures ws_after { ws.new ≡ or_words book.now.bytes.now r b x ws.old }
    ensures value { result ≡ or_regs r b }
{
    let left = book.field(x.goal, 1);
    let right = book.field(x.goal, 2);
    let cells = r.cells;
    let kept = Back {
        made: r.made,
        trail: r.trail,
        cells: cells + 1,
        programs: r.programs,
        cell: cells,
        taken: b.taken + 1,
        supposed: u32::from(b.supposed),
        atom: 0,
        call: 0,
        node: 0,
        index: 0,
    };
    branch::put_cell(ws, cells, 4096 * (right + 1) + x.base, x.program, x.next);
    branch::keep(ws, r.alternatives, kept);
    branch::put_cell(ws, cells + 1, 4096 * (left + 1) + x.base, x.program, x.next);
    in_hand(r, b, cells + 1, r.programs, r.alternatives + 1)
}

// Writes program p: a suppose goal's word, the program before which its clauses are put, and the mark by which the memo knows it.
fn put_program(ws: &mut Words, p: u32, w: u32, q: u32, mark: u32)
    requires { p < 514 }
    ensures { ws.new ≡ put_program p w q mark ws.old }
{
    let at = (8200 + 3 * p) as usize;
    ws[at] = w;
    ws[at + 1] = q;
    ws[at + 2] = mark;
}

// Takes a suppose goal: its clauses are put before the program, and its goal has the new program.
// The program's mark is the units that are left: putting a program takes a unit, so no two programs of a run have the same mark.
fn take_suppose(book: &Book, ws: &mut Words, r: Regs, b: Branch, x: Cell, left: u32) -> Regs
    requires goal_bound { x.goal < records book.now.bytes.now }
    requires room { Room ws.old r b x }
    ensures ws_after { ws.new ≡ suppose_words book.now.bytes.now r x left ws.old }
    ensures value { result ≡ suppose_regs r b }
{
    let goal = book.field(x.goal, 3);
    let cells = r.cells;
    let program = r.programs;
    put_program(ws, program, 4096 * (x.goal + 1) + x.base, x.program, left);
    branch::put_cell(ws, cells, 4096 * (goal + 1) + x.base, program, x.next);
    let supposing = Branch {
        supposed: true,
        ..b
    };
    in_hand(r, supposing, cells, program + 1, r.alternatives)
}

// The numbers for the atom of cell x with the candidate at this place.
fn at_place(r: Regs, b: Branch, x: Cell, place: Place) -> Back
    requires { b.taken < 512 }
    ensures { result ≡ atom_kept r b x place.program place.clause }
{
    Back {
        made: r.made,
        trail: r.trail,
        cells: r.cells,
        programs: r.programs,
        cell: x.next,
        taken: b.taken + 1,
        supposed: u32::from(b.supposed),
        atom: x.word,
        call: x.program,
        node: place.program,
        index: place.clause,
    }
}

// How many plain rules there may be, with so many goals taken and so many units left: a goal and two units for each.
fn most_rules(taken: u32, left: u32) -> u32
    requires { taken ≤ 512 }
    ensures { (taken + result ≤ 512) × (2 * result ≤ left) }
{
    (512 - taken).min(left / 2)
}

// Follows plain rules from the goal of cell x, if its program is the question's own.
fn plain_ahead(book: &Book, ws: &Words, b: Branch, x: Cell, left: u32) -> Followed
    requires formed { Formed book.now.bytes.now × OwnReady book.now.bytes.now 0 × AllIndexed book.now.bytes.now ws.now }
    requires goal_bound { x.goal < records book.now.bytes.now }
    requires few { b.taken < 512 }
    ensures { 0 < result.rules → PlainAhead book.now.bytes.now b x left result }
{
    if 0 < x.program {
        return Followed {
            goal: x.goal,
            rules: 0,
        };
    }
    following::follow(book, ws, x.goal, most_rules(b.taken, left))
}

// Takes the goals of plain rules: the goal to which they lead is put in the place of the goal of cell x.
fn take_plain(ws: &mut Words, r: Regs, b: Branch, x: Cell, p: Followed) -> Regs
    requires goal_bound { (p.goal < 4096) × (b.taken + p.rules ≤ 512) }
    requires room { Room ws.old r b x }
    ensures ws_after { ws.new ≡ plain_words r x p ws.old }
    ensures value { result ≡ plain_regs r b p }
{
    let cell = r.cells;
    branch::put_cell(ws, cell, 4096 * (p.goal + 1) + r.made, x.program, x.next);
    Regs {
        cells: cell + 1,
        branch: Some(Branch {
            cell,
            taken: b.taken + p.rules,
            ..b
        }),
        ..r
    }
}

// Takes an atom: its first candidate is tried next; with none, go back.
fn take_atom(book: &Book, ws: &mut Words, r: Regs, b: Branch, x: Cell) -> Reached
    requires formed { Formed book.now.bytes.now × OwnReady book.now.bytes.now 0 × AllIndexed book.now.bytes.now ws.old }
    requires standing { Standing book.now.bytes.now ws.old r.made r.programs x.program 0 }
    requires has_arguments { HasArguments book.now.bytes.now x.goal }
    requires room { Room ws.old r b x }
    requires by_index { (left : ℕ) × Memo book.now.bytes.now ws.old r.programs left }
    ensures atom_taken { AtomTaken book.now.bytes.now ws.old r b x result }
    ensures memo_stays { MemoStays book.now.bytes.now r.programs ws.old ws.new }
{
    let head = Head::read(book, x.goal);
    match seeking::seek_first(book, r.made, ws, r.programs, x.program, head) {
        Some(place) => Reached::Clause(1, at_place(r, b, x, place), r.alternatives),
        None => Reached::Onward(1, steps::to_back(r)),
    }
}

// Takes the first goal of the branch in hand.
pub fn take(book: &Book, ws: &mut Words, r: Regs, b: Branch, left: u32) -> Reached
    requires accepted { Accepted book.now.bytes.now × OwnReady book.now.bytes.now 0 × AllIndexed book.now.bytes.now ws.old }
    requires solving_value { (r.branch ≡ Some b) × (0 < b.cell) × (0 < left) }
    requires stands { (threads : List Thread) × Stands book.now.bytes.now ws.old r threads }
    requires memo { Memo book.now.bytes.now ws.old r.programs left }
    ensures reach_contract { ReachContract book.now.bytes.now ws.old ws.new r left result }
    ensures memo_reached { MemoReached book.now.bytes.now ws.new left result }
{
    if 512 <= b.taken {
        return Reached::Finished(Ending::Stopped(Limit::Goals), 0);
    }
    let x = read_cell(ws, b.cell);
    let kind = book.field(x.goal, 0);
    // Asked with `<`, first: below an and-goal's kind a goal is an atom. With a match, or `kind == Kind::Atom`, the compiler makes one switch of all kinds, and asks for an atom last.
    if kind < Kind::And as u32 {
        let p = plain_ahead(book, ws, b, x, left);
        if 0 < p.rules {
            return Reached::Onward(2 * p.rules, take_plain(ws, r, b, x, p));
        }
        return take_atom(book, ws, r, b, x);
    }
    if kind == Kind::And as u32 {
        return Reached::Onward(1, take_and(book, ws, r, b, x));
    }
    if kind == Kind::Or as u32 {
        return Reached::Onward(1, take_or(book, ws, r, b, x));
    }
    Reached::Onward(1, take_suppose(book, ws, r, b, x, left))
}
