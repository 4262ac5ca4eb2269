// An index of every supposed run: which of its clauses are the ones with some head, symbol and argument count, and whether anybody supposes such a clause at all.
#![tactic(auto)]

ghost use Rattle.std.specs.Prelude.{◌≡◌, true, ◌+◌, ◌-◌, ◌≤◌, ◌<◌, IfSome};
ghost use Rattle.book.specs.Records.{field as book_field, records};
ghost use Rattle.book.proofs.Accepted.{Formed};
ghost use Rattle.book.specs.Kinds.{kind_at, suppose_kind};
ghost use Rattle.index.specs.Runs.{head_matches, next_match, found_below, ClauseRun};
ghost use Rattle.index.specs.Index.{head_bucket, InBucket};
ghost use Rattle.supposed.specs.Supposed.{small_bucket, note_of, note_words, marked, marked_by, mark_words, empty_run, enter_clause, run_words, supposed_words, RunIndexed, SupposedIndexed};

use book::Kind;
use index::{Head, Run};
use words::{Book, Words};

// The number noted for record r.
fn note_of(ws: &Words, r: u32) -> u32
    requires { r < 4096 }
    ensures { result ≡ note_of ws.now r }
{
    (ws[(12304 + r % 1024) as usize] >> (8 * (r / 1024))) % 256
}

// Notes number v for record r.
fn note(ws: &mut Words, r: u32, v: u32)
    requires { (r < 4096) × (v < 256) }
    ensures { ws.new ≡ note_words ws.old r v }
{
    let at = (12304 + r % 1024) as usize;
    let unit = 1u32 << (8 * (r / 1024));
    let w = ws[at];
    let old = w / unit % 256;
    ws[at] = w - unit * old + unit * v;
}

// Marks bucket b of the question's own run for the class of suppose goal s.
fn mark(ws: &mut Words, b: u32, s: u32)
    requires { b < 1024 }
    ensures { ws.new ≡ mark_words ws.old b s }
{
    let at = (4096 + b) as usize;
    let unit = 2048u32 << (s % 8);
    let w = ws[at];
    if w / unit % 2 == 0 {
        ws[at] = w + unit;
    }
}

// The bucket of a head in a supposed run of n.
fn small_bucket(n: u32, head: Head) -> u32
    requires { (0 < n) × (n ≤ 64) }
    ensures { (result ≡ small_bucket n head.symbol head.count) × (result < n) }
{
    (39 * u32::from(head.symbol) + 8 * u32::from(head.count)) % 64 * n / 64
}

// Empties the buckets of a supposed run.
fn empty_run(ws: &mut Words, run: Run)
    requires { (run.first + run.count ≤ 4096) × (run.count ≤ 64) }
    ensures { ws.new ≡ empty_run run.first run.count run.count ws.old }
{
    for b in 0..run.count {
        note(ws, run.first + b, run.count);
    }
}

// Enters clause i of suppose goal s's run into its bucket, as the first, and marks its head's bucket in the index of the question's own run.
fn enter_clause(book: &Book, ws: &mut Words, s: u32, run: Run, i: u32)
    requires clause_run { ClauseRun book.now.bytes.now run.first run.count }
    requires i_lt_n { (i < run.count) × (run.count ≤ 64) × (run.first + run.count ≤ 4096) }
    ensures { ws.new ≡ enter_clause book.now.bytes.now s run.first run.count i ws.old }
{
    let c = book.field(run.first + i, 1);
    let head = Head::of_clause(book, c);
    let at = run.first + small_bucket(run.count, head);
    let next = note_of(ws, at);
    note(ws, c, next);
    note(ws, at, i);
    mark(ws, index::head_bucket(head), s);
}

// Makes the index of suppose goal s's run, the last clause first, so that each bucket's clauses stand in the run's order.
fn index_run(book: &Book, ws: &mut Words, s: u32, run: Run)
    requires clause_run { ClauseRun book.now.bytes.now run.first run.count }
    requires n_bound { (run.count ≤ 64) × (run.first + run.count ≤ 4096) }
    ensures { ws.new ≡ run_words book.now.bytes.now s run.first run.count run.count ws.old }
{
    empty_run(ws, run);
    for i in (0..run.count).rev() {
        enter_clause(book, ws, s, run, i);
    }
}

// Makes the index of every supposed run of the book.
pub fn index_supposed(book: &Book, ws: &mut Words)
    requires formed { Formed book.now.bytes.now }
    ensures { ws.new ≡ supposed_words book.now.bytes.now (records book.now.bytes.now) ws.old }
{
    for s in 0..book.records() {
        if book.is(s, Kind::Suppose) {
            index_run(book, ws, s, Run::read(book, s));
        }
    }
}

// Whether some supposed clause's head is in this head's bucket. If not, the question's own run alone has candidates.
pub fn is_supposed(ws: &Words, head: Head) -> bool
    ensures { result ≡ marked ws.now (head_bucket head.symbol head.count) }
{
    0 < ws[(4096 + index::head_bucket(head)) as usize] / 2048 % 256
}

// Whether suppose goal s may suppose a clause with this head: its class is marked in the head's bucket. If not, it supposes none.
fn may_suppose(ws: &Words, s: u32, head: Head) -> bool
    ensures { result ≡ marked_by ws.now (head_bucket head.symbol head.count) s }
{
    0 < (ws[(4096 + index::head_bucket(head)) as usize] >> (11 + s % 8)) % 2
}

// The first of the clauses of a supposed run, from number j on, that has this head. Clause j, if there is one, is in the head's bucket.
fn supposed_along(book: &Book, ws: &Words, run: Run, j: u32, head: Head) -> Option<u32>
    requires clause_run { ClauseRun book.now.bytes.now run.first run.count }
    requires n_bound { (run.count ≤ 64) × (run.first + run.count ≤ 4096) }
    requires run_indexed { RunIndexed book.now.bytes.now run.first run.count ws.now }
    requires in_bucket { InBucket (small_bucket run.count) book.now.bytes.now run.first run.count (small_bucket run.count head.symbol head.count) j }
    ensures { result ≡ found_below run.count (next_match book.now.bytes.now head.symbol head.count run.first j (run.count - j)) }
{
    let mut i = j;
    // Along the bucket's notes: nothing is counted.
    while i < run.count {
        let c = book.field(run.first + i, 1);
        if index::head_matches(book, c, head) {
            return Some(i);
        }
        i = note_of(ws, c);
    }
    None
}

// The first of the clauses of a supposed run that has this head.
fn first_supposed(book: &Book, ws: &Words, run: Run, head: Head) -> Option<u32>
    requires clause_run { ClauseRun book.now.bytes.now run.first run.count }
    requires n_nonzero { (0 < run.count) × (run.count ≤ 64) × (run.first + run.count ≤ 4096) }
    requires run_indexed { RunIndexed book.now.bytes.now run.first run.count ws.now }
    ensures { result ≡ found_below run.count (next_match book.now.bytes.now head.symbol head.count run.first 0 run.count) }
{
    let j = note_of(ws, run.first + small_bucket(run.count, head));
    supposed_along(book, ws, run, j, head)
}

// The next of the clauses of a supposed run after clause i, which has this head, that has it too.
fn supposed_after(book: &Book, ws: &Words, run: Run, i: u32, head: Head) -> Option<u32>
    requires clause_run { ClauseRun book.now.bytes.now run.first run.count }
    requires i_lt_n { (i < run.count) × (run.count ≤ 64) × (run.first + run.count ≤ 4096) }
    requires run_indexed { RunIndexed book.now.bytes.now run.first run.count ws.now }
    requires i_value { head_matches book.now.bytes.now head.symbol head.count (book_field book.now.bytes.now (run.first + i) 1) ≡ true }
    ensures { result ≡ found_below run.count (next_match book.now.bytes.now head.symbol head.count run.first (i + 1) (run.count - (i + 1))) }
{
    let j = note_of(ws, book.field(run.first + i, 1));
    supposed_along(book, ws, run, j, head)
}

// The first clause that suppose goal s supposes with this head.
pub fn first_of(book: &Book, ws: &Words, s: u32, head: Head) -> Option<u32>
    requires formed { Formed book.now.bytes.now × SupposedIndexed book.now.bytes.now ws.now }
    requires s_bound { (s < records book.now.bytes.now) × (kind_at book.now.bytes.now s ≡ suppose_kind) }
    ensures { (result ≡ found_below (book_field book.now.bytes.now s 2) (next_match book.now.bytes.now head.symbol head.count (book_field book.now.bytes.now s 1) 0 (book_field book.now.bytes.now s 2))) × IfSome result (λ j. j < 64) }
{
    if !may_suppose(ws, s, head) {
        return None;
    }
    first_supposed(book, ws, Run::read(book, s), head)
}

// The next clause that suppose goal s supposes with this head after its clause i, which is one.
pub fn next_of(book: &Book, ws: &Words, s: u32, i: u32, head: Head) -> Option<u32>
    requires formed { Formed book.now.bytes.now × SupposedIndexed book.now.bytes.now ws.now }
    requires s_bound { (s < records book.now.bytes.now) × (kind_at book.now.bytes.now s ≡ suppose_kind) }
    requires i_bound { (i < book_field book.now.bytes.now s 2) × (head_matches book.now.bytes.now head.symbol head.count (book_field book.now.bytes.now (book_field book.now.bytes.now s 1 + i) 1) ≡ true) }
    ensures { (result ≡ found_below (book_field book.now.bytes.now s 2) (next_match book.now.bytes.now head.symbol head.count (book_field book.now.bytes.now s 1) (i + 1) (book_field book.now.bytes.now s 2 - (i + 1)))) × IfSome result (λ j. j < 64) }
{
    let run = Run::read(book, s);
    // the last clause has none after it, and its note need not be read
    if run.count <= i + 1 {
        return None;
    }
    supposed_after(book, ws, run, i, head)
}
