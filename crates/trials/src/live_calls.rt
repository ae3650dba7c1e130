// The calls of a live ledger (document 02, K5), whose head C keeps as four numbers (names, day, grants held, codes of the label) and a text, the label.
// Kept: C lends the four buffers of a live ledger one by one, and keeps the head as four numbers.
ghost use Rattle.std.specs.Prelude.{◌≡◌, List, ℕ, ◌+◌, drop};
ghost use Rattle.model.specs.Readings.{accepted, refused};
ghost use Rattle.model.specs.Answers.{number};
ghost use Rattle.model.specs.Live as model;
ghost use Rattle.model.specs.Live.{make, add, withdraw, ask_acts_for, ask_flows_to, step};
ghost use Rattle.live.specs.Held.{Holds};
ghost use Rattle.trials.specs.Heads.{head_of, Replied, LentStepped, LentUnaltered};

use live::Live;
use refusals::Refusal;

// The head that C keeps.
fn head_of(head: &[u64; 4], text: &[u8; 64]) -> Live
    ensures { result ≡ head_of head.now text.now }
{
    Live {
        names: (head[0] % 256) as u8,
        day: (head[1] % 4294967296) as u32,
        held: head[2] as usize,
        codes: head[3] as usize,
        label: *text,
    }
}

// The reply's number; where the call was done, C keeps the new head.
fn replied(head: &mut [u64; 4], text: &mut [u8; 64], reply: Result<Live, Refusal>) -> u32
    ensures { Replied head.old text.old reply result head.new text.new }
{
    match reply {
        Ok(live) => {
            *head = [
                live.names as u64,
                live.day as u64,
                live.held as u64,
                live.codes as u64,
            ];
            // Kept: tried without the variable, which the proofs do not cover for a field that is an array.
            let label = live.label;
            *text = label;
            0
        }
        Err(why) => rights::refused_number(why),
    }
}

// A new live ledger.
pub fn trials_live_make(
    n: u64,
    label: &[u8],
    day: u32,
    head: &mut [u64; 4],
    text: &mut [u8; 64],
    ledger: &mut [u8; 33280],
    numbers: &mut [u64; 896],
) -> u32
    ensures made { (x : model.Live) → make n label.now day ≡ accepted x → (result ≡ 0) × Holds (head_of head.new text.new) ledger.new numbers.new x × (drop 512 ledger.new ≡ drop 512 ledger.old) }
    ensures refused { (k : ℕ) → make n label.now day ≡ refused k → (result ≡ 131072 + k) × LentUnaltered head.old text.old ledger.old numbers.old head.new text.new ledger.new numbers.new }
{
    replied(head, text, live::make(n, label, day, ledger, numbers))
}

// Adds the grant of a block.
pub fn trials_live_add(
    head: &mut [u64; 4],
    text: &mut [u8; 64],
    ledger: &mut [u8; 33280],
    numbers: &mut [u64; 896],
    block: &[u8],
) -> u32
    ensures stepped { (x : model.Live) → Holds (head_of head.old text.old) ledger.old numbers.old x → LentStepped (add block.now) x ledger.old result head.new text.new ledger.new numbers.new }
    ensures refused { (j : ℕ) → result ≡ 131072 + j → LentUnaltered head.old text.old ledger.old numbers.old head.new text.new ledger.new numbers.new }
{
    let reply = live::add(head_of(head, text), ledger, numbers, block);
    replied(head, text, reply)
}

// Withdraws grant k.
pub fn trials_live_withdraw(
    head: &mut [u64; 4],
    text: &mut [u8; 64],
    ledger: &mut [u8; 33280],
    numbers: &mut [u64; 896],
    k: u64,
) -> u32
    ensures stepped { (x : model.Live) → Holds (head_of head.old text.old) ledger.old numbers.old x → LentStepped (withdraw k) x ledger.old result head.new text.new ledger.new numbers.new }
    ensures refused { (j : ℕ) → result ≡ 131072 + j → LentUnaltered head.old text.old ledger.old numbers.old head.new text.new ledger.new numbers.new }
{
    let reply = live::withdraw(head_of(head, text), ledger, numbers, k as usize);
    replied(head, text, reply)
}

// Does p act for q?
// Kept: C has a name for each.
pub fn trials_live_acts_for(
    head: &[u64; 4],
    text: &[u8; 64],
    numbers: &[u64; 896],
    p: &[u8],
    q: &[u8],
) -> u32
    ensures { (x : model.Live) (ledger : List ℕ) → Holds (head_of head.now text.now) ledger numbers.now x → result ≡ number (step (ask_acts_for p.now q.now) x).reply }
{
    rights::answer_number(live::acts_for(head_of(head, text), numbers, p, q))
}

// Does p flow to q?
pub fn trials_live_flows_to(
    head: &[u64; 4],
    text: &[u8; 64],
    numbers: &[u64; 896],
    p: &[u8],
    q: &[u8],
) -> u32
    ensures { (x : model.Live) (ledger : List ℕ) → Holds (head_of head.now text.now) ledger numbers.now x → result ≡ number (step (ask_flows_to p.now q.now) x).reply }
{
    rights::answer_number(live::flows_to(head_of(head, text), numbers, p, q))
}
