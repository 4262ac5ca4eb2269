// The steps of the search: the registers, what a step gives, and entering a clause.
#![tactic(auto)]

ghost use Rattle.std.specs.Prelude.{◌≡◌, ◌+◌, ◌-◌};
ghost use Rattle.steps.specs.Enters.{EnterReady, Enters};
ghost use Rattle.steps.specs.Search.{back_regs};

use machine::Ending;
use unifier::Unified;
use words::{Book, Words};

// A branch in hand: the first cell of its list of goals (0: the list is empty), how many goals were taken on it, and whether a suppose goal was.
#[derive(Clone, Copy)]
pub struct Branch {
    pub cell: u32,
    pub taken: u32,
    pub supposed: bool,
}

// The registers of the search: how much of each region is in use, and the branch in hand, if there is one.
#[derive(Clone, Copy)]
pub struct Regs {
    pub made: u32,
    pub trail: u32,
    pub cells: u32,
    pub programs: u32,
    pub alternatives: u32,
    pub branch: Option<Branch>,
}

// What a step gives: the registers and the units that it took; or the run has ended, after so many units.
// The units stand at the same place in both (an ending fits into the bytes before them), so that the compiler keeps them in one register.
#[derive(Clone, Copy)]
pub enum Stepped {
    Onward(u32, Regs),
    Finished(Ending, u32),
}

// The registers for going back: there is no branch in hand.
pub fn to_back(r: Regs) -> Regs
    ensures { result ≡ back_regs r }
{
    Regs { branch: None, ..r }
}

// Enters clause c, whose outer variables are from o on, for atom a at base e, and unifies.
pub fn enter(
    book: &Book,
    made: u32,
    ws: &mut Words,
    a: u32,
    e: u32,
    c: u32,
    o: u32,
    trail: u32,
    left: u32,
) -> Unified
    requires enter_ready { EnterReady book.now.bytes.now made trail ws.old a e c o }
    ensures { Enters book.now.bytes.now made trail ws.old ws.new a e c o left result }
{
    let n = book.field(c, 1);
    let first = book.field(c, 2);
    let t = book.field(c, 3);
    let h = book.field(c, 4);
    let m = book.field(a, 2);
    words::clear_words(ws, made, n);
    branch::put_ties(book, ws, made, n, o, first, t);
    let from = book.field(a, 3);
    let other = book.field(h, 3);
    unifier::unify(book, made + n, ws, from, e, other, made, m, trail, left)
}
