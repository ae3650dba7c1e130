// The bytes of a live ledger (document 02, K5): in front stands the written ledger of the blocks held, block 0 and then theirs, so that all that reads a
// ledger reads it; what follows is left as it was.
#![tactic(auto)]

ghost use Rattle.std.specs.Prelude.{◌≡◌, List, [], ◌∷◌, ◌++◌, ℕ, ◌+◌, ◌≤◌, ◌<◌, length, drop};
ghost use Rattle.std.proofs.Math.Seq.{paste};
ghost use Rattle.model.specs.Live.{dropped_at};
ghost use Rattle.blocks.specs.Front.{counted, Kept, Rewritten};

// The 512 bytes from `at` on become those of a block.
fn copy_in(ledger: &mut [u8; 33280], at: usize, block: &[u8])
    requires { (at + 512 ≤ 33280) × (length block.now ≡ 512) }
    ensures { length ledger.old ≡ 33280 → ledger.new ≡ paste ledger.old at block.now 512 }
{
    ledger[at..at + 512].copy_from_slice(block);
}

// The `count` bytes that stand 512 after `at` move down by 512.
// Kept: byte by byte, which the compiler makes one move of; `copy_within` stays a loop, and takes twice the time (docs/DESIGN-PASS.md).
fn move_down(ledger: &mut [u8; 33280], at: usize, count: usize)
    requires { at + 512 + count ≤ 33280 }
    ensures { length ledger.old ≡ 33280 → ledger.new ≡ paste ledger.old at (drop (at + 512) ledger.old) count }
{
    for k in 0..count {
        ledger[at + k] = ledger[at + 512 + k];
    }
}

// Block 0 gets another count of grants, and the check that goes with it.
fn put_count(ledger: &mut [u8; 33280], n: u8, count: usize)
    requires { count ≤ 64 }
    ensures { ledger.new ≡ counted ledger.old n count }
{
    let check = 1 + 2 * n as u16 + 4 * count as u16;
    let [high, low] = check.to_be_bytes();
    ledger[3] = count as u8;
    ledger[510] = high;
    ledger[511] = low;
}

// The ledger of n names without grants.
// Kept: here and below, C lends the ledger's bytes alone; n and how many grants are held stand in the head.
pub fn begin(ledger: &mut [u8; 33280], n: u8)
    ensures { length ledger.old ≡ 33280 → n ≤ 12 → Rewritten ledger.old n [] ledger.new }
{
    let mut first = [0u8; 512];
    first[0] = 1;
    first[1] = n;
    copy_in(ledger, 0, &first);
    put_count(ledger, n, 0);
}

// One block more, last; none where 64 are held.
pub fn append(ledger: &mut [u8; 33280], n: u8, held: usize, block: &[u8])
    ensures { (blocks : List (List ℕ)) → Kept ledger.old n blocks → held ≡ length blocks → held < 64 → length block.now ≡ 512 → Rewritten ledger.old n (blocks ++ block.now ∷ []) ledger.new }
{
    if held < 64 && block.len() == 512 {
        copy_in(ledger, 512 * (held + 1), block);
        put_count(ledger, n, held + 1);
    }
}

// Without block k: the later ones move down.
pub fn remove(ledger: &mut [u8; 33280], n: u8, held: usize, k: usize)
    ensures { (blocks : List (List ℕ)) → Kept ledger.old n blocks → held ≡ length blocks → k < held → Rewritten ledger.old n (dropped_at k blocks) ledger.new }
{
    if k < held && held <= 64 {
        move_down(ledger, 512 * (k + 1), 512 * (held - 1 - k));
        put_count(ledger, n, held - 1);
    }
}
