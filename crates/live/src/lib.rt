// The live ledger (document 02, K5): grants are added and withdrawn, and questions are answered from stored numbers, under one label and one day. Its head
// is a value; what is large is lent: the bytes, whose front is the written ledger of the grants held, and the numbers.
#![tactic(auto)]

ghost use Rattle.std.specs.Prelude.{◌≡◌, List, ℕ, Err, ◌≤◌, length};
ghost use Rattle.std.proofs.Math.Seq.{paste};
ghost use Rattle.model.specs.Bytes.{field};
ghost use Rattle.model.specs.Live as model;
ghost use Rattle.model.specs.Live.{ask_live, add, withdraw, ask_acts_for, ask_flows_to, step};
ghost use Rattle.questions.specs.Answers.{answer_of};
ghost use Rattle.refusals.specs.declared.Refusal.{Refusal};
ghost use Rattle.live.specs.Held.{live_of, AskedOf, Holds, Stepped, Unaltered, Made};

use counting::Asked;
use ledgers::Sizes;
use questions::{Refuter, Relation};
use refusals::Refusal;

// The head of a live ledger.
// Kept: C keeps the head, and lends bytes and numbers one by one.
#[derive(Clone, Copy, Debug, PartialEq, Eq)]
pub struct Live {
    pub names: u8,
    pub day: u32,
    // How many grants are held.
    pub held: usize,
    // How many codes the label has; they stand first in `label`.
    pub codes: usize,
    // Kept: no heap and fixed memory: the label stands in an array as long as the longest.
    pub label: [u8; 64],
}

impl Live {
    // The label's codes.
    fn label(&self) -> &[u8]
        ensures { result.now ≡ field 0 self.now.codes self.now.label }
    {
        fields::part(&self.label, 0, self.codes)
    }

    // What its grants are judged under: a written ledger of so many grants, and the label and the day.
    // Kept: the ledger is cut by those that add and withdraw: tried here, and the borrow check does not cover it.
    fn asked<'a>(&'a self, ledger: &'a [u8], grants: usize) -> Asked<'a>
        ensures { AskedOf self.now ledger.now grants result }
    {
        Asked {
            ledger,
            sizes: Sizes {
                names: self.names as u64,
                grants,
            },
            label: self.label(),
            day: self.day,
        }
    }
}

// The label's codes become the front of the text.
fn copy_label(text: &mut [u8; 64], label: &[u8])
    requires { length label.now ≤ 64 }
    ensures { length text.old ≡ 64 → text.new ≡ paste text.old 0 label.now (length label.now) }
{
    text[..label.len()].copy_from_slice(label);
}

// A new live ledger of n names, under a label, on a day, without grants: the day's refusal, the names', then the label's.
pub fn make(
    n: u64,
    label: &[u8],
    day: u32,
    ledger: &mut [u8; 33280],
    numbers: &mut [u64; 896],
) -> Result<Live, Refusal>
    ensures made { Made n label.now day ledger.old result ledger.new numbers.new }
    ensures unaltered { (why : Refusal) → result ≡ Err why → Unaltered ledger.old numbers.old ledger.new numbers.new }
{
    if !dates::real_date(day) {
        return Err(Refusal::NotReal);
    }
    if !(1..=12).contains(&n) {
        return Err(Refusal::Names);
    }
    terms::read_term(label, n).map_err(Refusal::Label)?;
    let names = n as u8;
    let mut text = [0u8; 64];
    copy_label(&mut text, label);
    blocks::begin(ledger, names);
    stored::clear(numbers);
    Ok(Live {
        names,
        day,
        held: 0,
        codes: label.len(),
        label: text,
    })
}

// Adds the grant of a block, last: the block's refusals, then that 64 are held. Refused, the head stays the caller's.
pub fn add(
    live: Live,
    ledger: &mut [u8; 33280],
    numbers: &mut [u64; 896],
    block: &[u8],
) -> Result<Live, Refusal>
    ensures stepped { (x : model.Live) → Holds live ledger.old numbers.old x → Stepped (add block.now) x live ledger.old result ledger.new numbers.new }
    ensures unaltered { (why : Refusal) → result ≡ Err why → Unaltered ledger.old numbers.old ledger.new numbers.new }
{
    ledgers::read_block(block, live.names as u64)?;
    if 64 <= live.held {
        return Err(Refusal::Full);
    }
    blocks::append(ledger, live.names, live.held, block);
    let written = fields::part(&ledger[..], 0, 512 * (live.held + 2));
    let asked = live.asked(written, live.held + 1);
    stored::count_in(numbers, &asked, live.held);
    Ok(Live {
        held: live.held + 1,
        ..live
    })
}

// Withdraws grant k, where there is one; the later ones move down.
pub fn withdraw(
    live: Live,
    ledger: &mut [u8; 33280],
    numbers: &mut [u64; 896],
    k: usize,
) -> Result<Live, Refusal>
    ensures stepped { (x : model.Live) → Holds live ledger.old numbers.old x → Stepped (withdraw k) x live ledger.old result ledger.new numbers.new }
    ensures unaltered { (why : Refusal) → result ≡ Err why → Unaltered ledger.old numbers.old ledger.new numbers.new }
{
    // No live ledger holds more than 64.
    if live.held <= k || 64 < live.held {
        return Err(Refusal::NoGrant);
    }
    let written = fields::part(&ledger[..], 0, 512 * (live.held + 1));
    let asked = live.asked(written, live.held);
    stored::count_out(numbers, &asked, k);
    blocks::remove(ledger, live.names, live.held, k);
    Ok(Live {
        held: live.held - 1,
        ..live
    })
}

// A question: the refusals of p and of q, and no other; the answer is judged by the numbers.
// Kept: relation, p and q go on as they came, as in `questions`.
fn ask(
    relation: Relation,
    live: Live,
    numbers: &[u64; 896],
    p: &[u8],
    q: &[u8],
) -> Result<Option<Refuter>, Refusal>
    ensures { (x : model.Live) (ledger : List ℕ) → Holds live ledger numbers.now x → answer_of result ≡ ask_live (live_of relation) x p.now q.now }
{
    let n = live.names as u64;
    terms::read_term(p, n).map_err(Refusal::P)?;
    terms::read_term(q, n).map_err(Refusal::Q)?;
    Ok(stored::judge(relation, numbers, n, p, q))
}

// Does p act for q?
// Kept: document 02, K5, has the two questions by their names, and so have the exports for tests: each is `ask` at its relation.
#[tactic(auto, unfolding(model::specs::Live::step))]
pub fn acts_for(
    live: Live,
    numbers: &[u64; 896],
    p: &[u8],
    q: &[u8],
) -> Result<Option<Refuter>, Refusal>
    ensures { (x : model.Live) (ledger : List ℕ) → Holds live ledger numbers.now x → answer_of result ≡ (step (ask_acts_for p.now q.now) x).reply }
{
    ask(Relation::ActsFor, live, numbers, p, q)
}

// Does p flow to q?
#[tactic(auto, unfolding(model::specs::Live::step))]
pub fn flows_to(
    live: Live,
    numbers: &[u64; 896],
    p: &[u8],
    q: &[u8],
) -> Result<Option<Refuter>, Refusal>
    ensures { (x : model.Live) (ledger : List ℕ) → Holds live ledger numbers.now x → answer_of result ≡ (step (ask_flows_to p.now q.now) x).reply }
{
    ask(Relation::FlowsTo, live, numbers, p, q)
}
