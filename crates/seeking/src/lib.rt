// Finding candidates: along the programs in force, with a memo of what was found before, and then in the question's own run.
#![tactic(auto)]

ghost use Rattle.std.specs.Prelude.{◌≡◌, ℕ, ◌+◌, ◌≤◌, ◌<◌, List, IfSome};
ghost use Rattle.seeking.specs.Seeking.{AllIndexed, OwnMatches, own_candidate, IsCandidate, Sought, SoughtPut};
ghost use Rattle.seeking.specs.Memo.{half_number, entry_at, head_rest, forget_words, Finds, Memo, memo_words, MemoStays, Searchable};
ghost use Rattle.branch.specs.State.{OwnReady, IsRest};
ghost use Rattle.book.proofs.Accepted.{Formed};
ghost use Rattle.machine.specs.Machine.{Force};

use index::{Head, Run};
use words::{Book, Words};

// A place of a program: one of its clauses, by number.
#[derive(Clone, Copy, Debug, PartialEq, Eq)]
pub struct Place {
    pub program: u32,
    pub clause: u32,
}

// The halves of the memo: first searches have one, those after a candidate the other.
#[derive(Clone, Copy)]
enum Half {
    First,
    After,
}

// The first candidate of the question's own run.
fn own_first(book: &Book, ws: &Words, head: Head) -> Option<Place>
    requires { OwnReady book.now.bytes.now 0 × AllIndexed book.now.bytes.now ws.now }
    ensures { result ≡ own_candidate book.now.bytes.now head.symbol head.count 0 }
{
    let last = book.last();
    let run = Run::read(book, last);
    let clause = index::first_match(book, ws, run, head)?;
    Some(Place { program: 0, clause })
}

// The next candidate of the question's own run after clause i, which is one.
fn own_after(book: &Book, ws: &Words, i: u32, head: Head) -> Option<Place>
    requires own_ready { OwnReady book.now.bytes.now 0 × AllIndexed book.now.bytes.now ws.now }
    requires own_matches { OwnMatches book.now.bytes.now head.symbol head.count i }
    ensures { result ≡ own_candidate book.now.bytes.now head.symbol head.count (i + 1) }
{
    let last = book.last();
    let run = Run::read(book, last);
    let clause = index::match_after(book, ws, run, i, head)?;
    Some(Place { program: 0, clause })
}

// Where a half of the memo has the answer for a program with this mark, for a head with this symbol.
// The mark counts twice, so that searches of many programs for a head each, and of one program for many, have places of their own.
fn entry_at(mark: u32, half: Half, symbol: u16) -> usize
    ensures { (result ≡ entry_at mark (half_number half) symbol) × (result + 1 < 15616) }
{
    (13568 + 1024 * half as u32 + 2 * ((2 * (mark % 512) + u32::from(symbol)) % 512)) as usize
}

// What the place of an entry leaves open of its head's symbol and argument count, as one number.
fn head_rest(head: Head) -> u32
    requires { head.count ≤ 8 }
    ensures { (result ≡ head_rest head.symbol head.count) × (result < 2048) }
{
    16 * (u32::from(head.symbol) / 512) + u32::from(head.count)
}

// Forgets what the memo has in its first n words, whole entries. An answer's variables are numbered in words that the memo uses while the run searches, and must find zeros there.
// A call of its own, as `write_answer` is: within the run's loop the compiler works out at every turn how often theirs go round, 18 instructions.
#[inline(never)]
pub fn forget(ws: &mut Words, n: u32)
    requires { n ≤ 2048 }
    ensures { ws.new ≡ forget_words n ws.old }
{
    words::clear_words(ws, 13568, n + n % 2);
}

// What the memo has of the search from program q on: the word found. An entry has it and 1, so that an empty one has none.
fn known(book: &Book, ws: &Words, top: u32, half: Half, q: u32, head: Head) -> Option<u32>
    requires q_bound { (0 < q) × (q < top) × (top ≤ 514) × (head.count ≤ 8) }
    requires by_index { (left : ℕ) × Memo book.now.bytes.now ws.now top left }
    ensures { IfSome result (λ w. (w < 131071) × Finds book.now.bytes.now ws.now q head.symbol head.count w) }
{
    let mark = ws[(8200 + 3 * q + 2) as usize];
    let e = entry_at(mark, half, head.symbol);
    if ws[e] != mark {
        return None;
    }
    let x = ws[e + 1];
    if x / 131072 != head_rest(head) {
        return None;
    }
    (x % 131072).checked_sub(1)
}

// Remembers word w as what is found from program p on.
fn remember(ws: &mut Words, half: Half, p: u32, head: Head, w: u32)
    requires { (p < 514) × (head.count ≤ 8) × (w < 131071) }
    ensures { ws.new ≡ memo_words ws.old (half_number half) p head.symbol head.count w }
{
    let mark = ws[(8200 + 3 * p + 2) as usize];
    let e = entry_at(mark, half, head.symbol);
    ws[e] = mark;
    ws[e + 1] = 131072 * head_rest(head) + w + 1;
}

// The first candidate of program p, and of those before which it was put, but for the question's own run: clause j of program q as the word 128 q + j + 1;
// 0 if there is none: the memo has it so, in the workspace. What is remembered of p itself has been asked before.
fn seek_put(book: &Book, made: u32, ws: &Words, top: u32, half: Half, p: u32, head: Head) -> u32
    requires { Searchable book.now.bytes.now ws.now made top p head.symbol head.count }
    ensures { (result < 131071) × Finds book.now.bytes.now ws.now p head.symbol head.count result }
{
    let mut q = p;
    // Along the programs' links: nothing is counted.
    while 0 < q {
        let at = (8200 + 3 * q) as usize;
        let s = ws[at] / 4096 - 1;
        if let Some(j) = supposed::first_of(book, ws, s, head) {
            return 128 * q + j + 1;
        }
        q = ws[at + 1];
        if 0 < q {
            if let Some(w) = known(book, ws, top, half, q, head) {
                return w;
            }
        }
    }
    0
}

// The word of the first candidate from program p on, sought and remembered. What the memo has is asked for by the callers, in the loop of the run; this is called there from two places, so that it stays a function of its own,
// and gives a word, and leaves the own run to `found`, to keep the call small.
fn seek_anew(
    book: &Book,
    made: u32,
    ws: &mut Words,
    top: u32,
    half: Half,
    p: u32,
    head: Head,
) -> u32
    requires searchable { Searchable book.now.bytes.now ws.old made top p head.symbol head.count }
    requires p_nonzero { 0 < p }
    ensures finds { Finds book.now.bytes.now ws.old p head.symbol head.count result }
    ensures memo_stays { MemoStays book.now.bytes.now top ws.old ws.new }
{
    let w = seek_put(book, made, ws, top, half, p, head);
    remember(ws, half, p, head, w);
    w
}

// That word, from the memo if it has it, after a candidate, from the program on before which the candidate's was put; that may be the question's own, which was not put.
fn seek_before(book: &Book, made: u32, ws: &mut Words, top: u32, p: u32, head: Head) -> u32
    requires { Searchable book.now.bytes.now ws.old made top p head.symbol head.count }
    ensures finds { Finds book.now.bytes.now ws.old p head.symbol head.count result }
    ensures memo_stays { MemoStays book.now.bytes.now top ws.old ws.new }
{
    if p == 0 {
        return 0;
    }
    if let Some(w) = known(book, ws, top, Half::After, p, head) {
        return w;
    }
    seek_anew(book, made, ws, top, Half::After, p, head)
}

// The same as a first search, for any head: no program that was put has a clause that matches, unless some supposed clause is in the head's bucket.
fn seek_programs(book: &Book, made: u32, ws: &mut Words, top: u32, p: u32, head: Head) -> u32
    requires { Searchable book.now.bytes.now ws.old made top p head.symbol head.count }
    ensures finds { Finds book.now.bytes.now ws.old p head.symbol head.count result }
    ensures memo_stays { MemoStays book.now.bytes.now top ws.old ws.new }
{
    if p == 0 {
        return 0;
    }
    if supposed::is_supposed(ws, head) {
        if let Some(w) = known(book, ws, top, Half::First, p, head) {
            return w;
        }
        return seek_anew(book, made, ws, top, Half::First, p, head);
    }
    0
}

// The candidate of word w: a clause of a program that was put, or the first one of the question's own run.
fn found(book: &Book, ws: &Words, w: u32, head: Head) -> Option<Place>
    requires { Formed book.now.bytes.now × OwnReady book.now.bytes.now 0 × AllIndexed book.now.bytes.now ws.now }
    ensures { (words : List ℕ) (made top : ℕ) (rest : List Force) → SoughtPut book.now.bytes.now words made top head.symbol head.count rest w → Sought book.now.bytes.now words made top head.symbol head.count rest result }
{
    if 0 < w {
        return Some(Place {
            program: (w - 1) / 128,
            clause: (w - 1) % 128,
        });
    }
    own_first(book, ws, head)
}

// The first candidate of program p.
pub fn seek_first(
    book: &Book,
    made: u32,
    ws: &mut Words,
    top: u32,
    p: u32,
    head: Head,
) -> Option<Place>
    requires own_ready { OwnReady book.now.bytes.now 0 }
    requires searchable { Searchable book.now.bytes.now ws.old made top p head.symbol head.count }
    ensures sought { (rest : List Force) → IsRest book.now.bytes.now ws.old made top p 0 rest → Sought book.now.bytes.now ws.old made top head.symbol head.count rest result }
    ensures memo_stays { MemoStays book.now.bytes.now top ws.old ws.new }
{
    let w = seek_programs(book, made, ws, top, p, head);
    found(book, ws, w, head)
}

// The next candidate after a place of a program, which is one.
pub fn seek_after(
    book: &Book,
    made: u32,
    ws: &mut Words,
    top: u32,
    place: Place,
    head: Head,
) -> Option<Place>
    requires formed { Formed book.now.bytes.now × OwnReady book.now.bytes.now 0 × AllIndexed book.now.bytes.now ws.old }
    requires candidate { IsCandidate book.now.bytes.now ws.old made top place.program place.clause head.symbol head.count }
    requires few { (top ≤ 514) × (head.count ≤ 8) }
    requires by_index { (left : ℕ) × Memo book.now.bytes.now ws.old top left }
    ensures sought { (rest : List Force) → IsRest book.now.bytes.now ws.old made top place.program (place.clause + 1) rest → Sought book.now.bytes.now ws.old made top head.symbol head.count rest result }
    ensures memo_stays { MemoStays book.now.bytes.now top ws.old ws.new }
{
    let p = place.program;
    if p == 0 {
        return own_after(book, ws, place.clause, head);
    }
    let at = (8200 + 3 * p) as usize;
    let s = ws[at] / 4096 - 1;
    if let Some(clause) = supposed::next_of(book, ws, s, place.clause, head) {
        return Some(Place { clause, ..place });
    }
    let q = ws[at + 1];
    let w = seek_before(book, made, ws, top, q, head);
    found(book, ws, w, head)
}
