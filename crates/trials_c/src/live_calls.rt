// The exports of a live ledger's calls. C keeps its head as four numbers (names, day, grants held, codes of the label) and a text, the label.
ghost use Rattle.std.specs.Prelude.{◌≡◌, List, ℕ, ◌+◌, drop};
ghost use Rattle.model.specs.Readings.{accepted, refused};
ghost use Rattle.model.specs.Answers.{number};
ghost use Rattle.model.specs.Live as model;
ghost use Rattle.model.specs.Live.{make, add, withdraw, ask_acts_for, ask_flows_to, step};
ghost use Rattle.live.specs.Held.{Holds};
ghost use Rattle.trials.specs.Heads.{head_of, LentStepped, LentUnaltered};

// A new live ledger.
#[unsafe(no_mangle)]
pub extern "C" fn trials_live_make(
    n: u64,
    label: &[u8],
    day: u32,
    head: &mut [u64; 4],
    text: &mut [u8; 64],
    ledger: &mut [u8; 33280],
    numbers: &mut [u64; 896],
) -> u32
    ensures made { (x : model.Live) → make n label.now day ≡ accepted x → (result ≡ 0) × Holds (head_of head.new text.new) ledger.new numbers.new x × (drop 512 ledger.new ≡ drop 512 ledger.old) }
    ensures refused { (k : ℕ) → make n label.now day ≡ refused k → (result ≡ 131072 + k) × LentUnaltered head.old text.old ledger.old numbers.old head.new text.new ledger.new numbers.new }
{
    trials::live_calls::trials_live_make(n, label, day, head, text, ledger, numbers)
}

// Adds the grant of a block.
#[unsafe(no_mangle)]
pub extern "C" fn trials_live_add(
    head: &mut [u64; 4],
    text: &mut [u8; 64],
    ledger: &mut [u8; 33280],
    numbers: &mut [u64; 896],
    block: &[u8],
) -> u32
    ensures stepped { (x : model.Live) → Holds (head_of head.old text.old) ledger.old numbers.old x → LentStepped (add block.now) x ledger.old result head.new text.new ledger.new numbers.new }
    ensures refused { (j : ℕ) → result ≡ 131072 + j → LentUnaltered head.old text.old ledger.old numbers.old head.new text.new ledger.new numbers.new }
{
    trials::live_calls::trials_live_add(head, text, ledger, numbers, block)
}

// Withdraws grant k.
#[unsafe(no_mangle)]
pub extern "C" fn trials_live_withdraw(
    head: &mut [u64; 4],
    text: &mut [u8; 64],
    ledger: &mut [u8; 33280],
    numbers: &mut [u64; 896],
    k: u64,
) -> u32
    ensures stepped { (x : model.Live) → Holds (head_of head.old text.old) ledger.old numbers.old x → LentStepped (withdraw k) x ledger.old result head.new text.new ledger.new numbers.new }
    ensures refused { (j : ℕ) → result ≡ 131072 + j → LentUnaltered head.old text.old ledger.old numbers.old head.new text.new ledger.new numbers.new }
{
    trials::live_calls::trials_live_withdraw(head, text, ledger, numbers, k)
}

// Does p act for q?
// Kept: a crate is a library or an archive for C, so that a call stands in both, and C has a name for each.
#[unsafe(no_mangle)]
pub extern "C" fn trials_live_acts_for(
    head: &[u64; 4],
    text: &[u8; 64],
    numbers: &[u64; 896],
    p: &[u8],
    q: &[u8],
) -> u32
    ensures { (x : model.Live) (ledger : List ℕ) → Holds (head_of head.now text.now) ledger numbers.now x → result ≡ number (step (ask_acts_for p.now q.now) x).reply }
{
    trials::live_calls::trials_live_acts_for(head, text, numbers, p, q)
}

// Does p flow to q?
#[unsafe(no_mangle)]
pub extern "C" fn trials_live_flows_to(
    head: &[u64; 4],
    text: &[u8; 64],
    numbers: &[u64; 896],
    p: &[u8],
    q: &[u8],
) -> u32
    ensures { (x : model.Live) (ledger : List ℕ) → Holds (head_of head.now text.now) ledger numbers.now x → result ≡ number (step (ask_flows_to p.now q.now) x).reply }
{
    trials::live_calls::trials_live_flows_to(head, text, numbers, p, q)
}
