// Following plain rules: an atom without arguments whose only candidate is one of the question's own clauses, without variables and with a body. Entering it
// binds nothing and makes nothing: the body takes the atom's place. So a chain of such rules is followed, two units a rule, without a word being written.
#![tactic(auto)]

ghost use Rattle.std.specs.Prelude.{◌≡◌, ◌<◌};
ghost use Rattle.book.specs.Records.{records};
ghost use Rattle.book.proofs.Accepted.{Formed};
ghost use Rattle.branch.specs.State.{OwnReady, own_run};
ghost use Rattle.seeking.specs.Seeking.{AllIndexed};
ghost use Rattle.following.specs.Plain.{plain_clause, plain_body, follow_on};

use book::Kind;
use index::{Head, Run};
use words::{Book, Words};

// Where plain rules lead: the goal, and how many were entered on the way.
#[derive(Clone, Copy)]
pub struct Followed {
    pub goal: u32,
    pub rules: u32,
}

// The record of the body of clause c, if c has no variables, and a body.
fn plain_clause(book: &Book, c: u32) -> Option<u32>
    requires { c < records book.now.bytes.now }
    ensures { result ≡ plain_clause book.now.bytes.now c }
{
    if book.field(c, 1) != 0 {
        return None;
    }
    book.body(c)
}

// The record of the body of the plain rule for goal g, if there is one. The question's own run is `run`.
fn plain_body(book: &Book, ws: &Words, run: Run, g: u32) -> Option<u32>
    requires formed { Formed book.now.bytes.now × OwnReady book.now.bytes.now 0 × AllIndexed book.now.bytes.now ws.now }
    requires run_value { (run.first ≡ (own_run book.now.bytes.now).first) × (run.count ≡ (own_run book.now.bytes.now).count) }
    requires g_bound { g < records book.now.bytes.now }
    ensures { result ≡ plain_body book.now.bytes.now g }
{
    if !book.is(g, Kind::Atom) {
        return None;
    }
    if book.field(g, 2) != 0 {
        return None;
    }
    let head = Head {
        count: 0,
        ..Head::read(book, g)
    };
    let i = index::first_match(book, ws, run, head)?;
    if index::match_after(book, ws, run, i, head).is_some() {
        return None;
    }
    let c = index::clause_at(book, ws, run, u32::from(head.symbol), i);
    plain_clause(book, c)
}

// Follows plain rules from a goal, as far as they lead, but `most` of them at most.
pub fn follow(book: &Book, ws: &Words, goal: u32, most: u32) -> Followed
    requires formed { Formed book.now.bytes.now × OwnReady book.now.bytes.now 0 × AllIndexed book.now.bytes.now ws.now }
    requires goal_bound { goal < records book.now.bytes.now }
    ensures { result ≡ follow_on book.now.bytes.now goal 0 most }
{
    let last = book.last();
    let run = Run::read(book, last);
    let mut g = goal;
    for rules in 0..most {
        let Some(body) = plain_body(book, ws, run, g) else {
            return Followed { goal: g, rules };
        };
        g = body;
    }
    Followed {
        goal: g,
        rules: most,
    }
}
