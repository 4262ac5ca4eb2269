// Finding clauses by their heads, symbol and argument count: the next clause of a run whose head matches an atom, and an index of the question's own run. The supposed runs' is in `supposed`.
#![tactic(auto)]

ghost use Rattle.std.specs.Prelude.{◌≡◌, true, ℕ, ◌+◌, ◌-◌, ◌≤◌, ◌<◌};
ghost use Rattle.book.specs.Records.{field as book_field, records};
ghost use Rattle.index.specs.Runs.{head_matches, next_match, found_below, ClauseRun};
ghost use Rattle.index.specs.Index.{head_bucket, last_match, link_or, Listed, Indexed, EmptyFrom, IndexedFrom};

use words::{Book, Words};

// A head: its symbol, and how many arguments it has; that these are at most 8 is asked for where it matters, here it would ask more of callers.
#[derive(Clone, Copy, Debug, PartialEq, Eq)]
pub struct Head {
    pub symbol: u16,
    pub count: u16,
}

impl Head {
    // The head of record r, a term or an atom: its numbers 1 and 2, in one read.
    pub fn read(book: &Book, r: u32) -> Head
        requires { r < records book.now.bytes.now }
        ensures { (result.symbol ≡ book_field book.now.bytes.now r 1) × (result.count ≡ book_field book.now.bytes.now r 2) }
    {
        let both = book.symbol_and_count(r);
        Head {
            symbol: (both % 65536) as u16,
            count: (both / 65536) as u16,
        }
    }

    // The head of clause c, the atom that its number 4 points at.
    pub fn of_clause(book: &Book, c: u32) -> Head
        requires { (c < records book.now.bytes.now) × (book_field book.now.bytes.now c 4 < records book.now.bytes.now) }
        ensures { (result.symbol ≡ book_field book.now.bytes.now (book_field book.now.bytes.now c 4) 1) × (result.count ≡ book_field book.now.bytes.now (book_field book.now.bytes.now c 4) 2) }
    {
        Head::read(book, book.field(c, 4))
    }
}

// A run of clauses: its first link, and how many links it has.
// No bound is part of it: the question's run has up to 1,024 links, a supposed one 64 below record 4,096, and one bound would ask more of some caller.
#[derive(Clone, Copy, Debug, PartialEq, Eq)]
pub struct Run {
    pub first: u32,
    pub count: u32,
}

impl Run {
    // The run of record r, a suppose goal or the question: its numbers 1 and 2.
    pub fn read(book: &Book, r: u32) -> Run
        requires { r < records book.now.bytes.now }
        ensures { (result.first ≡ book_field book.now.bytes.now r 1) × (result.count ≡ book_field book.now.bytes.now r 2) }
    {
        Run {
            first: book.field(r, 1),
            count: book.field(r, 2),
        }
    }
}

// Whether clause c has this head. Symbol and count are compared as one number.
pub fn head_matches(book: &Book, c: u32, head: Head) -> bool
    requires { (c < records book.now.bytes.now) × (book_field book.now.bytes.now c 4 < records book.now.bytes.now) }
    ensures { result ≡ head_matches book.now.bytes.now head.symbol head.count c }
{
    let h = book.field(c, 4);
    book.symbol_and_count(h) == u32::from(head.symbol) + 65536 * u32::from(head.count)
}

// The bucket of a head.
pub fn head_bucket(head: Head) -> u32
    ensures { (result ≡ head_bucket head.symbol head.count) × (result < 1024) }
{
    (u32::from(head.symbol) + 64 * u32::from(head.count)) % 1024
}

// Empties the index: no bucket has a clause of a run of n.
fn empty_index(ws: &mut Words, n: u32)
    ensures { EmptyFrom n 1024 ws.old ws.new }
{
    ws[4096..5120].fill(n);
}

// The clause with this head in its bucket's list, the last that has it. The clauses of the run from some number on are indexed.
fn head_node(book: &Book, ws: &Words, run: Run, head: Head) -> Option<u32>
    requires clause_run { ClauseRun book.now.bytes.now run.first run.count }
    requires first_bound { (run.first < 4096) × (run.count ≤ 1024) }
    requires by_index { (i : ℕ) × (i ≤ run.count) × Listed book.now.bytes.now run.first run.count i ws.now }
    ensures { (i : ℕ) → i ≤ run.count → Listed book.now.bytes.now run.first run.count i ws.now → result ≡ found_below run.count (last_match book.now.bytes.now head.symbol head.count run.first run.count i) }
{
    let mut z = ws[(4096 + head_bucket(head)) as usize] % 2048;
    // Along the list's links: nothing is counted.
    while z < run.count {
        let c = book.field(run.first + z, 1);
        if head_matches(book, c, head) {
            return Some(z);
        }
        let link = ws[(5120 + z) as usize] / 4194304;
        if link == z {
            return None;
        }
        z = link;
    }
    None
}

// What stands for the next clause l of a list of a run of n: clause i itself, if there is none.
fn link_or(n: u32, i: u32, l: u32) -> u32
    ensures { result ≡ link_or n i l }
{
    if l < n { l } else { i }
}

// Enters clause i of a run, the clauses after it being indexed: before those with its head, or with a new head in front of its bucket's list.
fn enter_own(book: &Book, ws: &mut Words, run: Run, i: u32)
    requires clause_run { ClauseRun book.now.bytes.now run.first run.count }
    requires i_lt_n { (i < run.count) × (run.first < 4096) × (run.count ≤ 1024) }
    requires indexed_from { IndexedFrom book.now.bytes.now run.first run.count (i + 1) ws.old ws.old }
    ensures { IndexedFrom book.now.bytes.now run.first run.count i ws.old ws.new }
{
    let c = book.field(run.first + i, 1);
    let head = Head::of_clause(book, c);
    match head_node(book, ws, run, head) {
        Some(z) => {
            let w = ws[(5120 + z) as usize];
            let next = w / 2048 % 2048;
            ws[(5120 + z) as usize] = w - 2048 * next + 2048 * i;
            ws[(5120 + i) as usize] = next;
        }
        None => {
            let at = (4096 + head_bucket(head)) as usize;
            let link = link_or(run.count, i, ws[at] % 2048);
            ws[(5120 + i) as usize] = 4194304 * link + 2048 * i + run.count;
            ws[at] = 1048576 * c + i;
        }
    }
}

// Makes the index of a run, the last clause first: so each head stands in its bucket's list with its last clause, and is never taken out.
pub fn make_index(book: &Book, ws: &mut Words, run: Run)
    requires clause_run { ClauseRun book.now.bytes.now run.first run.count }
    requires first_bound { (run.first < 4096) × (run.count ≤ 1024) }
    ensures { IndexedFrom book.now.bytes.now run.first run.count 0 ws.old ws.new }
{
    empty_index(ws, run.count);
    for i in (0..run.count).rev() {
        enter_own(book, ws, run, i);
    }
}

// The first of the clauses of an indexed run that has this head.
pub fn first_match(book: &Book, ws: &Words, run: Run, head: Head) -> Option<u32>
    requires clause_run { ClauseRun book.now.bytes.now run.first run.count }
    requires first_bound { (run.first < 4096) × (run.count ≤ 1024) }
    requires indexed { Indexed book.now.bytes.now run.first run.count ws.now }
    ensures { result ≡ found_below run.count (next_match book.now.bytes.now head.symbol head.count run.first 0 run.count) }
{
    let z = head_node(book, ws, run, head)?;
    Some(ws[(5120 + z) as usize] / 2048 % 2048)
}

// The record of clause i of an indexed run. If it is the first in the list of the bucket of the symbol without arguments, its record is in the bucket's word, and no link is waited for. The symbol may be any number.
pub fn clause_at(book: &Book, ws: &Words, run: Run, symbol: u32, i: u32) -> u32
    requires clause_run { ClauseRun book.now.bytes.now run.first run.count }
    requires i_lt_n { (i < run.count) × (run.first < 4096) × (run.count ≤ 1024) }
    requires indexed { Indexed book.now.bytes.now run.first run.count ws.now }
    ensures { result ≡ book_field book.now.bytes.now (run.first + i) 1 }
{
    let w = ws[(4096 + symbol % 1024) as usize];
    if w % 2048 == i {
        return w / 1048576;
    }
    book.field(run.first + i, 1)
}

// The first after clause i, which has this head, that has it too.
pub fn match_after(book: &Book, ws: &Words, run: Run, i: u32, head: Head) -> Option<u32>
    requires clause_run { ClauseRun book.now.bytes.now run.first run.count }
    requires i_lt_n { (i < run.count) × (run.first < 4096) × (run.count ≤ 1024) }
    requires indexed { Indexed book.now.bytes.now run.first run.count ws.now }
    requires i_value { head_matches book.now.bytes.now head.symbol head.count (book_field book.now.bytes.now (run.first + i) 1) ≡ true }
    ensures { result ≡ found_below run.count (next_match book.now.bytes.now head.symbol head.count run.first (i + 1) (run.count - (i + 1))) }
{
    let same = ws[(5120 + i) as usize] % 2048;
    (same < run.count).then_some(same)
}
