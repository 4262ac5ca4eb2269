// Looking for a variable in a term, over the words of the workspace.
#![tactic(auto)]

ghost use Rattle.std.specs.Prelude.{◌≡◌, ◌+◌, ◌-◌, ◌*◌, ◌<◌};
ghost use Rattle.words.specs.Words.{term_of};
ghost use Rattle.words.specs.Good.{GoodTerm, Slots};
ghost use Rattle.words.specs.Frame.{Keeps};
ghost use Rattle.book.specs.Records.{field as book_field};
ghost use Rattle.looks.specs.Runs.{past_of, Listed, Leaves, TermAt, HasRun, LookedInto};
ghost use Rattle.looks.specs.Values.{LinkAt, ValueOf};
ghost use Rattle.looks.specs.Steps.{LookStepped, LookWent};

use book::Kind;
use machine::Limit;
use words::{Book, Words};

// How a part of a run ended: it came to its end, it failed, or it met a limit. No Result, as document 01 wants it: to fail is no error of
// the run, and only the last case holds anything.
#[derive(Clone, Copy)]
pub enum How {
    Done,
    Failed,
    Stopped(Limit),
}

// The same, with the units that it took.
#[derive(Clone, Copy)]
pub struct Looked {
    pub how: How,
    pub used: u32,
}

// What a text stands for, read through: the open variable v - 1, as word v; or the term of a record at a base.
// A Result is no plainer here: neither of the two is an error.
#[derive(Clone, Copy)]
pub enum Value {
    Open(u32),
    At(u32, u32),
}

// The target of link k, with its variables from b on, read through.
pub fn value_of(book: &Book, made: u32, ws: &Words, k: u32, b: u32) -> Value
    requires slots { Slots book.now.bytes.now made ws.now }
    requires link_at { LinkAt book.now.bytes.now made k b }
    ensures { ValueOf book.now.bytes.now made ws.now (term_of book.now.bytes.now (book_field book.now.bytes.now k 1) b) result }
{
    let t = book.field(k, 1);
    if !book.is(t, Kind::Variable) {
        return Value::At(t, b);
    }
    let o = book.field(t, 1);
    let w = words::read_variable(book, made, ws, b + o);
    if w < 4096 {
        return Value::Open(w);
    }
    Value::At(w / 4096 - 1, w % 4096)
}

// Terms to look at: the targets of `count` links from `first`, whose variables begin at `base`; and after them those of `depth` runs of links
// that wait in the workspace, `waiting` terms in all.
#[derive(Clone, Copy)]
pub struct ToLook {
    pub first: u32,
    pub count: u32,
    pub base: u32,
    pub depth: u32,
    pub waiting: u32,
}

// One term looked at: what is left, or nothing is, or the variable was found, or there is no room for the arguments.
#[derive(Clone, Copy)]
pub enum LookStep {
    On(ToLook),
    Over,
    Found,
    Full,
}

// A record whose arguments were read already: the targets of `count` links from `first`. Most cells of a list are terms of one record,
// and a look along the list need not wait for the book at each of them.
#[derive(Clone, Copy)]
pub struct Kept {
    pub rec: u32,
    pub first: u32,
    pub count: u32,
}

// The list without its first term.
fn look_past(book: &Book, made: u32, ws: &Words, s: ToLook) -> LookStep
    requires slots { Slots book.now.bytes.now made ws.now }
    requires listed { Listed book.now.bytes.now made ws.now s }
    ensures { Leaves book.now.bytes.now made ws.now (past_of book.now.bytes.now ws.now s) result }
{
    if 1 < s.count {
        return LookStep::On(ToLook {
            first: s.first + 1,
            count: s.count - 1,
            ..s
        });
    }
    if s.depth == 0 {
        return LookStep::Over;
    }
    let x = ws[(16128 + (s.depth - 1)) as usize];
    let count = x / 4096 % 16;
    LookStep::On(ToLook {
        first: x / 65536,
        count,
        base: x % 4096,
        depth: s.depth - 1,
        waiting: s.waiting - count,
    })
}

// The first term of the list is the only one of the run in hand, and is that of the record of k at base b: the arguments of k take its place.
fn look_last(book: &Book, made: u32, ws: &Words, s: ToLook, k: Kept, b: u32) -> LookStep
    requires slots { Slots book.now.bytes.now made ws.now }
    requires listed { Listed book.now.bytes.now made ws.now s × (s.count ≡ 1) }
    requires term_at { TermAt book.now.bytes.now made k.rec b × HasRun book.now.bytes.now k.rec k.first k.count }
    ensures { LookedInto book.now.bytes.now made ws.now ws.now s k.rec b result }
{
    if 256 < s.waiting + k.count {
        return LookStep::Full;
    }
    LookStep::On(ToLook {
        first: k.first,
        count: k.count,
        base: b,
        ..s
    })
}

// The first term of the list is that of record r at base b: its arguments take its place.
fn look_into(book: &Book, made: u32, ws: &mut Words, s: ToLook, r: u32, b: u32) -> LookStep
    requires slots { Slots book.now.bytes.now made ws.old }
    requires listed { Listed book.now.bytes.now made ws.old s }
    requires term_at { TermAt book.now.bytes.now made r b }
    ensures keeps { Keeps 0 16128 ws.old ws.new }
    ensures looked_into { LookedInto book.now.bytes.now made ws.old ws.new s r b result }
{
    let m = book.field(r, 2);
    if m == 0 {
        return look_past(book, made, ws, s);
    }
    let first = book.field(r, 3);
    if s.count == 1 {
        let k = Kept {
            rec: r,
            first,
            count: m,
        };
        return look_last(book, made, ws, s, k, b);
    }
    let rest = s.waiting + (s.count - 1);
    if 256 < rest + m {
        return LookStep::Full;
    }
    ws[(16128 + s.depth) as usize] = 65536 * (s.first + 1) + (4096 * (s.count - 1) + s.base);
    LookStep::On(ToLook {
        first,
        count: m,
        base: b,
        depth: s.depth + 1,
        waiting: rest,
    })
}

// Looks at the first term of the list for variable v - 1.
fn look_step(book: &Book, made: u32, ws: &mut Words, v: u32, k: Kept, s: ToLook) -> LookStep
    requires slots { Slots book.now.bytes.now made ws.old }
    requires listed { Listed book.now.bytes.now made ws.old s }
    requires v_nonzero { (0 < v) × HasRun book.now.bytes.now k.rec k.first k.count }
    ensures keeps { Keeps 0 16128 ws.old ws.new }
    ensures look_stepped { LookStepped book.now.bytes.now made ws.old ws.new v s result }
{
    let t = book.field(s.first, 1);
    let b = s.base;
    if !book.is(t, Kind::Variable) {
        return look_into(book, made, ws, s, t, b);
    }
    let o = book.field(t, 1);
    let w = words::read_variable(book, made, ws, b + o);
    if 4096 <= w {
        let r = w / 4096 - 1;
        if s.count == 1 && r == k.rec {
            return look_last(book, made, ws, s, k, w % 4096);
        }
        return look_into(book, made, ws, s, r, w % 4096);
    }
    if w == v {
        return LookStep::Found;
    }
    look_past(book, made, ws, s)
}

// Looks for variable v - 1 in the term of word t, with `left` units of the budget. The first unit is for the term itself.
pub fn look(book: &Book, made: u32, ws: &mut Words, v: u32, t: u32, left: u32) -> Looked
    requires slots { Slots book.now.bytes.now made ws.old }
    requires good_term { GoodTerm book.now.bytes.now made t }
    requires v_nonzero { 0 < v }
    ensures keeps { Keeps 0 16128 ws.old ws.new }
    ensures look_went { LookWent book.now.bytes.now made ws.old v t left result.how result.used }
{
    if left == 0 {
        return Looked {
            how: How::Stopped(Limit::Budget),
            used: 0,
        };
    }
    let r = t / 4096 - 1;
    let m = book.field(r, 2);
    if m == 0 {
        return Looked {
            how: How::Done,
            used: 1,
        };
    }
    let first = book.field(r, 3);
    let k = Kept {
        rec: r,
        first,
        count: m,
    };
    let mut s = ToLook {
        first,
        count: m,
        base: t % 4096,
        depth: 0,
        waiting: 0,
    };
    for used in 1..left {
        match look_step(book, made, ws, v, k, s) {
            LookStep::On(x) => s = x,
            LookStep::Over => return Looked {
                how: How::Done,
                used: used + 1,
            },
            LookStep::Found => return Looked {
                how: How::Failed,
                used: used + 1,
            },
            LookStep::Full => return Looked {
                how: How::Stopped(Limit::Lists),
                used,
            },
        }
    }
    Looked {
        how: How::Stopped(Limit::Budget),
        used: left,
    }
}
