// Acts-for and flows-to questions (document 01), on a day (document 02, K2): the coalitions that refute, the first of them, and the answer.
#![tactic(auto)]

ghost use Rattle.std.specs.Prelude.{◌≡◌, IfSome, ◌&&◌, ◌≤◌, ◌<◌};
ghost use Rattle.model.specs.Coalitions.{Marks, implies};
ghost use Rattle.model.specs.Terms.{Term, held};
ghost use Rattle.model.specs.Grants.{marks_of, keeps, acts_statically};
ghost use Rattle.model.specs.Questions.{ask, acts_for, flows_to};
ghost use Rattle.words.specs.AnyBytes.{term_in};
ghost use Rattle.words.specs.FourWords.{RowsAt};
ghost use Rattle.words.specs.Evaluation.{job_of};
ghost use Rattle.counting.specs.Counted.{grant_in};
ghost use Rattle.questions.specs.Answers.{answer_of, relation_of};
ghost use Rattle.questions.specs.Searching.{found_at, opposed_of, judge_of, verdict_of, lowest_in, placed, still_rows, further_of};
ghost use Rattle.questions.specs.Sieving.{EverySound, SoundAsked, SiftedTo, counts_asked, sound_asked};

use counting::{Asked, Known};
use refusals::Refusal;
use tables::Table;
use words::{Row, Rows, Side};

// A coalition that refutes, and the side on which it does.
#[derive(Clone, Copy, Debug, PartialEq, Eq)]
pub struct Refuter {
    pub side: Side,
    pub coalition: u16,
}

// Which question: on the see side flows-to asks the other way round.
#[derive(Clone, Copy, Debug, PartialEq, Eq)]
pub enum Relation {
    ActsFor,
    FlowsTo,
}

// What leaves of some coalitions those that are sound: the grants of a ledger, or the numbers that a live ledger stores.
pub trait Sieve {
    // These are the sound ones.
    ghost keeps: { Self → Marks → Type 0 };

    // Those of row g that are sound, of some of its coalitions.
    fn sift(&mut self, g: u64, of: Rows) -> Rows
        ensures { (S f : Marks) → g < 16 → keeps self.old S → RowsAt f g of → RowsAt (λ s c. f s c && S s c) g result × keeps self.new S };
}

// Row g of the coalitions of n names that refute, were they sound: those that hold p and not q, and for flows-to, on the see side, q and not p. Given are the
// rows of p and of q.
pub fn opposed(relation: Relation, n: u64, from: Rows, to: Rows, g: u64) -> Rows
    ensures { (p q : Term) → RowsAt (held p) g from → RowsAt (held q) g to → RowsAt (opposed_of relation n p q) g result }
{
    let mask = words::low_row(n, g);
    let change = words::both(mask, words::without(from.change, to.change));
    match relation {
        Relation::ActsFor => Rows {
            see: words::both(mask, words::without(from.see, to.see)),
            change,
        },
        Relation::FlowsTo => Rows {
            see: words::both(mask, words::without(to.see, from.see)),
            change,
        },
    }
}

// The number of the lowest coalition of a row, counted from the row's first.
fn lowest_in(row: Row) -> Option<u64>
    ensures found { found_at result ≡ lowest_in row }
    ensures small { IfSome result (λ j. j ≤ 256) }
{
    if row.a != 0 {
        Some(words::lowest(row.a))
    } else if row.b != 0 {
        Some(64 + words::lowest(row.b))
    } else if row.c != 0 {
        Some(128 + words::lowest(row.c))
    } else if row.d != 0 {
        Some(192 + words::lowest(row.d))
    } else {
        None
    }
}

// The lowest coalition of row g; there are 16 rows at most.
fn lowest_of(g: u64, row: Row) -> Option<u16>
    ensures { found_at result ≡ placed g (lowest_in row) }
{
    let j = lowest_in(row)?;
    Some((256 * (g % 16) + j) as u16)
}

// Those of two rows that can still decide: once there is a ground on the change side, those of the see side alone.
pub fn still(found: Option<Refuter>, both: Rows) -> Rows
    ensures { result ≡ still_rows found both }
{
    match found {
        None => both,
        Some(_) => Rows {
            see: both.see,
            change: words::same(0),
        },
    }
}

// The first refuter once row g is searched too, `left` being the refuters in it that can still decide.
pub fn further(found: Option<Refuter>, g: u64, left: Rows) -> Option<Refuter>
    ensures { verdict_of result ≡ further_of found g (lowest_in left.see) (lowest_in left.change) }
{
    if let Some(coalition) = lowest_of(g, left.see) {
        return Some(Refuter {
            side: Side::See,
            coalition,
        });
    }
    if let Some(coalition) = lowest_of(g, left.change) {
        return Some(Refuter {
            side: Side::Change,
            coalition,
        });
    }
    found
}

// The first refuter: on the see side, else on the change side, whose first one is kept while the see side is searched to its end. All rows of p and of q are
// held first.
// Kept: relation, n, p and q go on as they came, here and in those that ask: a value of them would be made by each and taken apart here.
pub fn first_refuter<S: Sieve>(
    relation: Relation,
    n: u64,
    p: &[u8],
    q: &[u8],
    sieve: &mut S,
) -> Option<Refuter>
    ensures { (T : Marks) → S.keeps sieve.old T → verdict_of result ≡ judge_of relation (job_of n) T (term_in p.now) (term_in q.now) }
{
    let mut p_rows = Table::new();
    let mut q_rows = Table::new();
    p_rows.hold(p, 0, n);
    q_rows.hold(q, 0, n);
    let mut found = None;
    for g in 0..words::row_count(n) {
        let left = still(
            found,
            opposed(relation, n, p_rows.rows(g), q_rows.rows(g), g),
        );
        let against = sieve.sift(g, left);
        found = further(found, g, against);
        if !words::empty(against.see) {
            return found;
        }
    }
    found
}

// Every coalition is sound: no grant is kept.
#[derive(Clone, Copy)]
struct NoGrants;

impl Sieve for NoGrants {
    ghost keeps = { λ _ S. EverySound S };

    fn sift(&mut self, _g: u64, of: Rows) -> Rows {
        of
    }
}

// The grants of a ledger, and what is known of them.
#[derive(Clone, Copy)]
struct Grants<'a> {
    asked: Asked<'a>,
    known: Known,
}

impl Grants<'_> {
    // Takes away those that break grant k, if it counts. It is judged only where one of them breaks it.
    fn sift_grant(&mut self, k: usize, g: u64, left: Rows) -> Rows
        ensures asked { self.new.asked ≡ self.old.asked }
        ensures sifted { k < 64 → (f : Marks) → SiftedTo (counts_asked self.old.asked) f g self.old.known left → SiftedTo (counts_asked self.old.asked) (λ s c. f s c && implies (counts_asked self.old.asked k) (keeps (marks_of (grant_in self.old.asked.ledger.now k)) s c)) g self.new.known result }
    {
        if !self.known.may_count(k) {
            return left;
        }
        let gone = soundness::broken(self.asked.ledger, k, g, left);
        if words::none(gone) {
            return left;
        }
        self.known = self.asked.judge(k, self.known);
        if !self.known.may_count(k) {
            return left;
        }
        words::rest(left, gone)
    }
}

impl Sieve for Grants<'_> {
    ghost keeps = { λ it S. SoundAsked it.asked it.known S };

    // Takes away those that break a counting grant. It ends where none is left.
    fn sift(&mut self, g: u64, of: Rows) -> Rows {
        let mut left = of;
        for k in 0..self.asked.sizes.grants {
            if words::none(left) {
                return left;
            }
            left = self.sift_grant(k, g, left);
        }
        left
    }
}

// Statically p acts for q, in a job of n names: no grant is kept, and no byte of a ledger or a label read.
pub fn acts_statically(n: u64, p: &[u8], q: &[u8]) -> bool
    ensures { result ≡ acts_statically (job_of n) (term_in p.now) (term_in q.now) }
{
    first_refuter(Relation::ActsFor, n, p, q, &mut NoGrants).is_none()
}

// A question on bytes and a day: 86 for the day, then the ledger's refusals, p's, q's and the label's. The answer is the first refuter, or none, which is yes.
// Kept: C lends ledger, label and day one by one, and they go on as they came.
fn ask(
    relation: Relation,
    ledger: &[u8],
    p: &[u8],
    q: &[u8],
    label: &[u8],
    day: u32,
) -> Result<Option<Refuter>, Refusal>
    ensures { answer_of result ≡ ask (relation_of relation) ledger.now p.now q.now label.now day }
{
    if !dates::real_date(day) {
        return Err(Refusal::NotReal);
    }
    let sizes = ledgers::read_ledger(ledger)?;
    let names = sizes.names;
    terms::read_term(p, names).map_err(Refusal::P)?;
    terms::read_term(q, names).map_err(Refusal::Q)?;
    terms::read_term(label, names).map_err(Refusal::Label)?;
    let mut grants = Grants {
        asked: Asked {
            ledger,
            sizes,
            label,
            day,
        },
        known: Known::nothing(),
    };
    Ok(first_refuter(relation, names, p, q, &mut grants))
}

// Does p act for q under the label, on the day?
// Kept: document 01 has the two questions by their names, and so have its table of promises and C: each is `ask` at its relation.
pub fn acts_for(
    ledger: &[u8],
    p: &[u8],
    q: &[u8],
    label: &[u8],
    day: u32,
) -> Result<Option<Refuter>, Refusal>
    ensures { answer_of result ≡ acts_for ledger.now p.now q.now label.now day }
{
    ask(Relation::ActsFor, ledger, p, q, label, day)
}

// Does p flow to q under the label, on the day?
pub fn flows_to(
    ledger: &[u8],
    p: &[u8],
    q: &[u8],
    label: &[u8],
    day: u32,
) -> Result<Option<Refuter>, Refusal>
    ensures { answer_of result ≡ flows_to ledger.now p.now q.now label.now day }
{
    ask(Relation::FlowsTo, ledger, p, q, label, day)
}
