// The stored numbers of a live ledger (document 02, K5): for each side and coalition, how many counting grants it breaks. A grant's part is added and taken
// away, and questions are judged by them: sound is number 0.
#![tactic(auto)]

ghost use Rattle.std.specs.Prelude.{◌≡◌, ◌&&◌, ℕ, ◌<◌, length};
ghost use Rattle.model.specs.Coalitions.{Marks};
ghost use Rattle.model.specs.Live.{Numbers, breaks_counting, sound_by};
ghost use Rattle.words.specs.AnyBytes.{term_in};
ghost use Rattle.words.specs.Evaluation.{job_of};
ghost use Rattle.counting.specs.Counted.{grant_in};
ghost use Rattle.questions.specs.Searching.{verdict_of, judge_of};
ghost use Rattle.stored.specs.Stored.{of_job, more, Stored, Small, Steps, SoundStored, under_asked};

use counting::Asked;
use questions::{Refuter, Relation, Sieve};
use tables::Table;
use words::{Row, Rows};

// Does a step to the numbers of the coalitions that break grant k, on each side, if the grant counts under the label on the day. They are those that refute,
// were they sound, that its p acts for its q.
fn count<F: Fn(&mut [u64; 896], usize, Row)>(
    numbers: &mut [u64; 896],
    asked: &Asked<'_>,
    k: usize,
    step: F,
)
    requires { F.IsAlwaysCallable step }
    ensures { (f h : Numbers) → Steps (λ x row marked y. F.post step x row marked tt y) asked.now.sizes.names (breaks_counting (under_asked asked.now) (grant_in asked.now.ledger.now k)) f h → Stored asked.now.sizes.names numbers.old f → Stored asked.now.sizes.names numbers.new h }
{
    if asked.counts(k) {
        let n = asked.sizes.names;
        let mut p = Table::new();
        let mut q = Table::new();
        p.hold(asked.ledger, ledgers::term_place(k, ledgers::P), n);
        q.hold(asked.ledger, ledgers::term_place(k, ledgers::Q), n);
        for g in 0..words::row_count(n) {
            let gone = questions::opposed(Relation::ActsFor, n, p.rows(g), q.rows(g), g);
            let at = g as usize;
            step(numbers, at, gone.see);
            step(numbers, 16 + at, gone.change);
        }
    }
}

// Grant k's part is added, if it counts.
pub fn count_in(numbers: &mut [u64; 896], asked: &Asked<'_>, k: usize)
    ensures { (f : Numbers) → Stored asked.now.sizes.names numbers.old f → Stored asked.now.sizes.names numbers.new (more f (breaks_counting (under_asked asked.now) (grant_in asked.now.ledger.now k))) }
{
    count(numbers, asked, k, planes::raise)
}

// And taken away, if it counts.
pub fn count_out(numbers: &mut [u64; 896], asked: &Asked<'_>, k: usize)
    ensures { (f : Numbers) → Stored asked.now.sizes.names numbers.old (more f (breaks_counting (under_asked asked.now) (grant_in asked.now.ledger.now k))) → Stored asked.now.sizes.names numbers.new f }
{
    count(numbers, asked, k, planes::lower)
}

// All numbers become 0.
pub fn clear(numbers: &mut [u64; 896])
    ensures { length numbers.old ≡ 896 → ((n : ℕ) → Stored n numbers.new (λ s c. 0)) }
{
    numbers.fill(0);
}

// The numbers as a sieve: sound are the coalitions whose number is 0.
#[derive(Clone, Copy)]
struct Zeros<'a> {
    numbers: &'a [u64; 896],
}

impl Sieve for Zeros<'_> {
    ghost keeps = { λ it S. SoundStored it.numbers.now S };

    // Where there are none to ask of, no number is read.
    fn sift(&mut self, g: u64, of: Rows) -> Rows {
        if words::none(of) {
            return of;
        }
        let at = (g % 16) as usize;
        Rows {
            see: planes::unbroken(self.numbers, at, of.see),
            change: planes::unbroken(self.numbers, 16 + at, of.change),
        }
    }
}

// The first refuter by the numbers: on the see side, else on the change side.
// Kept: relation, n, p and q go on as they came, as in `questions`.
pub fn judge(
    relation: Relation,
    numbers: &[u64; 896],
    n: u64,
    p: &[u8],
    q: &[u8],
) -> Option<Refuter>
    ensures { (f : Numbers) → Stored n numbers.now f → Small f → verdict_of result ≡ judge_of relation (job_of n) (sound_by f) (term_in p.now) (term_in q.now) }
{
    questions::first_refuter(relation, n, p, q, &mut Zeros { numbers })
}
