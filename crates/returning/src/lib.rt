// Going back to the newest alternative, and trying the next candidate of its atom.
#![tactic(auto)]

ghost use Rattle.std.specs.Prelude.{◌≡◌, true, Some, None, List, ℕ, ◌+◌, ◌-◌, ◌*◌, ◌/◌, ◌%◌, ◌≤◌, ◌<◌, length, IfSome, IsSomeAnd};
ghost use Rattle.std.specs.Option.{ForSome};
ghost use Rattle.book.specs.Records.{field as book_field, records};
ghost use Rattle.book.proofs.Accepted.{Accepted};
ghost use Rattle.machine.specs.Machine.{Thread};
ghost use Rattle.words.specs.Words.{rec_of};
ghost use Rattle.seeking.specs.Seeking.{AllIndexed};
ghost use Rattle.seeking.specs.Memo.{Memo, MemoStays};
ghost use Rattle.steps.specs.Search.{Stands, units_of, MemoStepped};
ghost use Rattle.returning.specs.Returns.{Leads, ToClause};
ghost use Rattle.returning.specs.Reentry.{place_of, moved, Renewed, body_words, front_of, branch_from, regs_of, outcome_of, Tries};
ghost use Rattle.returning.specs.Reaching.{ReachContract, CanGoOn, GoesOn, MemoReached};
ghost use Rattle.returning.specs.Passing.{first_argument, FirstIs, Clashes, NextIs, PassGives, later_by};

use book::Kind;
use branch::Back;
use index::Head;
use looks::How;
use machine::{Ending, Limit};
use seeking::Place;
use steps::{Branch, Regs, Stepped};
use unifier::Unified;
use words::{Book, Words};

// A clause in force: its record, and where the variables of its suppose goal's holder begin.
#[derive(Clone, Copy)]
pub struct InForce {
    pub clause: u32,
    pub outer: u32,
}

// The list of goals: its first cell, and the first free one.
#[derive(Clone, Copy)]
pub struct Front {
    pub cell: u32,
    pub cells: u32,
}

// Where the next candidate is.
fn place(book: &Book, ws: &Words, x: Back) -> InForce
    requires accepted { Accepted book.now.bytes.now }
    requires leads { Leads book.now.bytes.now ws.now x }
    ensures { result ≡ place_of book.now.bytes.now ws.now x.node x.index }
{
    if x.node == 0 {
        let first = book.field(book.last(), 1);
        return InForce {
            clause: book.field(first + x.index, 1),
            outer: 0,
        };
    }
    let w = ws[(8200 + 3 * x.node) as usize];
    let first = book.field(w / 4096 - 1, 1);
    InForce {
        clause: book.field(first + x.index, 1),
        outer: w % 4096,
    }
}

// The numbers of an alternative with another candidate.
fn at_place(x: Back, place: Place) -> Back
    ensures { result ≡ moved x place.program place.clause }
{
    Back {
        node: place.program,
        index: place.clause,
        ..x
    }
}

// Keeps alternative k for the candidates from `next` on, if there are any: how many alternatives there are now.
fn renew(book: &Book, ws: &mut Words, k: u32, x: Back, next: Option<Place>) -> u32
    requires accepted { Accepted book.now.bytes.now × NextIs book.now.bytes.now ws.old x next }
    requires to_clause { (threads : List Thread) × ToClause book.now.bytes.now ws.old k x threads }
    ensures { (threads : List Thread) (X : ToClause book.now.bytes.now ws.old k x threads) → Renewed book.now.bytes.now ws.old ws.new k x threads X result }
{
    match next {
        Some(place) => {
            branch::keep(ws, k, at_place(x, place));
            k + 1
        }
        None => k,
    }
}

// Puts the body of clause c, if it has one, at the front of the list, with the program of the call.
fn put_body(book: &Book, ws: &mut Words, c: u32, x: Back) -> Front
    requires c_bound { (c < records book.now.bytes.now) × (x.made < 4096) × (x.cells < 1026) × (x.call < 4096) × (x.cell < 4096) }
    ensures ws_after { ws.new ≡ body_words book.now.bytes.now c x ws.old }
    ensures value { result ≡ front_of book.now.bytes.now c x }
{
    match book.body(c) {
        Some(g) => {
            branch::put_cell(ws, x.cells, 4096 * (g + 1) + x.made, x.call, x.cell);
            Front {
                cell: x.cells,
                cells: x.cells + 1,
            }
        }
        None => Front {
            cell: x.cell,
            cells: x.cells,
        },
    }
}

// The branch of an alternative, with this cell for the first of its list.
fn branch_from(x: Back, cell: u32) -> Branch
    ensures { result ≡ branch_from x cell }
{
    Branch {
        cell,
        taken: x.taken,
        supposed: x.supposed == 1,
    }
}

// The registers with an alternative's numbers, n alternatives left: its branch is in hand again, or, as it has no candidate left, none is.
fn registers(x: Back, n: u32, branch: Option<Branch>) -> Regs
    ensures { result ≡ regs_of x x.made n x.cells x.trail branch }
{
    Regs {
        made: x.made,
        trail: x.trail,
        cells: x.cells,
        programs: x.programs,
        alternatives: n,
        branch,
    }
}

// How entering came out, with `made` variables and n alternatives.
fn outcome(x: Back, made: u32, n: u32, l: Front, u: Unified) -> Stepped
    requires { u.used + 1 < 4294967296 }
    ensures { result ≡ outcome_of x made n l u }
{
    let failed = Regs {
        made,
        trail: u.trail,
        cells: l.cells,
        ..registers(x, n, None)
    };
    match u.how {
        How::Done => Stepped::Onward(
            u.used + 1,
            Regs {
                branch: Some(branch_from(x, l.cell)),
                ..failed
            },
        ),
        How::Failed => Stepped::Onward(u.used + 1, failed),
        How::Stopped(limit) => Stepped::Finished(Ending::Stopped(limit), u.used + 1),
    }
}

// Passing over candidates: the numbers with the one that is tried next, and the candidate after it; or there is none left. With the units that it took.
// An enum of its own: neither case is a failure or the lack of a value, and each has numbers.
#[derive(Clone, Copy)]
pub enum Passed {
    Next(Back, Option<Place>, u32),
    Through(Back, u32),
}

// The word of the term that the atom's first argument is, read through; none if that is a variable, or there is no argument.
fn first_term(book: &Book, ws: &Words, k: u32, x: Back) -> Option<u32>
    requires accepted { Accepted book.now.bytes.now }
    requires to_clause { (threads : List Thread) × ToClause book.now.bytes.now ws.now k x threads }
    ensures { IfSome result (FirstIs book.now.bytes.now ws.now x.made (x.atom / 4096 - 1) (x.atom % 4096)) }
{
    let a = x.atom / 4096 - 1;
    if book.field(a, 2) == 0 {
        return None;
    }
    let t = book.field(book.field(a, 3), 1);
    let w = words::read_through(book, x.made, ws, book.word_for(x.atom % 4096, t));
    if w < 4096 { None } else { Some(w) }
}

// Whether the head of clause c has at its first argument a term of another symbol or argument count than word w.
fn clashes(book: &Book, c: u32, w: u32, made: u32) -> bool
    requires c_bound { (c < records book.now.bytes.now) × (book_field book.now.bytes.now c 4 < records book.now.bytes.now) × (book_field book.now.bytes.now (book_field book.now.bytes.now c 4) 3 < records book.now.bytes.now) × (first_argument book.now.bytes.now (book_field book.now.bytes.now c 4) < records book.now.bytes.now) }
    requires le_w { (4096 ≤ w) × (rec_of w < records book.now.bytes.now) × (made + book_field book.now.bytes.now c 1 ≤ 2048) }
    ensures { result ≡ true → Clashes book.now.bytes.now made w c }
{
    let h = book.field(c, 4);
    let l = book.field(h, 3);
    let u = book.field(l, 1);
    book.is(u, Kind::Term) && Head::read(book, w / 4096 - 1) != Head::read(book, u)
}

// Whether the next candidate clashes at once with the atom, whose first argument is the term of word `first`, if it is one.
fn passes(book: &Book, ws: &Words, k: u32, x: Back, first: Option<u32>) -> bool
    requires accepted { Accepted book.now.bytes.now }
    requires first_is { ForSome first (FirstIs book.now.bytes.now ws.now x.made (x.atom / 4096 - 1) (x.atom % 4096)) }
    requires to_clause { (threads : List Thread) × ToClause book.now.bytes.now ws.now k x threads }
    ensures { result ≡ true → IsSomeAnd first (λ w. Clashes book.now.bytes.now x.made w (place_of book.now.bytes.now ws.now x.node x.index).clause) }
{
    let Some(w) = first else { return false };
    let p = place(book, ws, x);
    if 2048 < x.made + book.field(p.clause, 1) {
        return false;
    }
    clashes(book, p.clause, w, x.made)
}

// The candidate after the next one.
fn after_next(book: &Book, ws: &mut Words, k: u32, x: Back) -> Option<Place>
    requires accepted { Accepted book.now.bytes.now × AllIndexed book.now.bytes.now ws.old }
    requires to_clause { (threads : List Thread) × ToClause book.now.bytes.now ws.old k x threads }
    requires by_index { (left : ℕ) × Memo book.now.bytes.now ws.old x.programs left }
    ensures next_is { NextIs book.now.bytes.now ws.new x result }
    ensures memo_stays { MemoStays book.now.bytes.now x.programs ws.old ws.new }
{
    let head = Head::read(book, x.atom / 4096 - 1);
    let place = Place {
        program: x.node,
        clause: x.index,
    };
    seeking::seek_after(book, x.made, ws, x.programs, place, head)
}

// Passes over the candidates that clash at once with the atom: each is entered and fails at its first pair, two units.
fn pass_over(book: &Book, ws: &mut Words, k: u32, x: Back, left: u32) -> Passed
    requires accepted { Accepted book.now.bytes.now × AllIndexed book.now.bytes.now ws.old }
    requires to_clause { (threads : List Thread) × ToClause book.now.bytes.now ws.old k x threads }
    requires memo { Memo book.now.bytes.now ws.old x.programs left }
    ensures pass_gives { (threads : List Thread) → ToClause book.now.bytes.now ws.old k x threads → PassGives book.now.bytes.now ws.new k x left threads result }
    ensures memo_stays { MemoStays book.now.bytes.now x.programs ws.old ws.new }
{
    let first = first_term(book, ws, k, x);
    let mut y = x;
    let mut used: u32 = 0;
    // From candidate to candidate: they are not counted, their units are.
    loop {
        let next = after_next(book, ws, k, y);
        if !passes(book, ws, k, y, first) {
            return Passed::Next(y, next, used);
        }
        if left - used < 2 {
            return Passed::Next(y, next, used);
        }
        match next {
            None => return Passed::Through(y, used + 2),
            Some(place) => y = at_place(y, place),
        }
        used += 2;
    }
}

// Enters the next candidate of alternative k; `next` is the one after it.
fn try_next(book: &Book, ws: &mut Words, k: u32, x: Back, next: Option<Place>, left: u32) -> Stepped
    requires accepted { Accepted book.now.bytes.now × NextIs book.now.bytes.now ws.old x next }
    requires left_nonzero { 0 < left }
    requires to_clause { (threads : List Thread) × ToClause book.now.bytes.now ws.old k x threads }
    requires memo { Memo book.now.bytes.now ws.old x.programs left }
    ensures tries { Tries book.now.bytes.now ws.old ws.new k x left result }
    ensures memo_stepped { MemoStepped book.now.bytes.now ws.new left result }
{
    let p = place(book, ws, x);
    let made = x.made + book.field(p.clause, 1);
    if 2048 < made {
        return Stepped::Finished(Ending::Stopped(Limit::Variables), 0);
    }
    let n = renew(book, ws, k, x, next);
    let l = put_body(book, ws, p.clause, x);
    let u = steps::enter(
        book,
        x.made,
        ws,
        x.atom / 4096 - 1,
        x.atom % 4096,
        p.clause,
        p.outer,
        x.trail,
        left - 1,
    );
    outcome(x, made, n, l, u)
}

// A step that came after so many units.
fn later(used: u32, s: Stepped) -> Stepped
    requires { used + units_of s < 4294967296 }
    ensures { result ≡ later_by used s }
{
    match s {
        Stepped::Onward(n, r) => Stepped::Onward(used + n, r),
        Stepped::Finished(e, n) => Stepped::Finished(e, used + n),
    }
}

// Tries the candidates of alternative k, to which the search has just gone back: those that clash at once are passed over, and the next one is entered.
fn try_all(book: &Book, ws: &mut Words, k: u32, x: Back, left: u32) -> Stepped
    requires accepted { Accepted book.now.bytes.now × AllIndexed book.now.bytes.now ws.old }
    requires to_clause { (threads : List Thread) × ToClause book.now.bytes.now ws.old k x threads }
    requires memo { Memo book.now.bytes.now ws.old x.programs left }
    ensures tries { Tries book.now.bytes.now ws.old ws.new k x left result }
    ensures memo_stepped { MemoStepped book.now.bytes.now ws.new left result }
{
    match pass_over(book, ws, k, x, left) {
        Passed::Through(y, used) => Stepped::Onward(used, registers(y, k, None)),
        Passed::Next(y, next, used) => {
            if left <= used {
                return Stepped::Finished(Ending::Stopped(Limit::Budget), used);
            }
            later(used, try_next(book, ws, k, y, next, left - used))
        }
    }
}

// What a step has reached: it is done, as `Stepped` says; or after so many units a candidate is to be tried, by the numbers of alternative k, whose place is free.
// The units stand at the same place in all three, so that the compiler keeps them in one register; a `Stepped` inside would be copied as a whole.
#[derive(Clone, Copy)]
pub enum Reached {
    Onward(u32, Regs),
    Finished(Ending, u32),
    Clause(u32, Back, u32),
}

// Goes back to the newest alternative; with none left the search is complete.
// The book is not read here, so its bytes come as they are: a `Book` would ask more of a caller.
pub fn back(book: &[u8], ws: &mut Words, r: Regs, left: u32) -> Reached
    requires solving_value { r.branch ≡ None }
    requires stands { (threads : List Thread) × Stands book.now ws.old r threads }
    requires memo { Memo book.now ws.old r.programs left }
    ensures reach_contract { ReachContract book.now ws.old ws.new r left result }
    ensures memo_reached { MemoReached book.now ws.new left result }
{
    if r.alternatives == 0 {
        return Reached::Finished(Ending::Complete, 0);
    }
    let k = r.alternatives - 1;
    let x = branch::go_back(ws, k, r.trail);
    if x.atom == 0 {
        return Reached::Onward(0, registers(x, k, Some(branch_from(x, x.cell))));
    }
    Reached::Clause(0, x, k)
}

// Goes on from what a step has reached: a candidate is tried.
// Only for that need the words be a whole workspace, so that they come as a slice: `Words` would ask more of a caller.
pub fn go_on(book: &Book, ws: &mut [u32], o: Reached, left: u32) -> Stepped
    requires accepted { Accepted book.now.bytes.now }
    requires can_go_on { CanGoOn book.now.bytes.now ws.old left o }
    requires memo_reached { MemoReached book.now.bytes.now ws.old left o }
    ensures goes_on { GoesOn book.now.bytes.now ws.old ws.new left o result }
    ensures memo_stepped { MemoStepped book.now.bytes.now ws.new left result }
{
    match o {
        Reached::Onward(n, r) => Stepped::Onward(n, r),
        Reached::Finished(e, n) => Stepped::Finished(e, n),
        Reached::Clause(used, x, k) => {
            let Some(words) = ws.as_mut_array() else {
                unreachable!()
            };
            let s = try_all(book, words, k, x, left - used);
            later(used, s)
        }
    }
}
