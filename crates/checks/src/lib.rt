// The check of a block: the weighted sum of its bytes, made by columns, beside the number that the block ends with (document 01, "The ledger").
#![tactic(auto)]

ghost use Rattle.std.specs.Prelude.{◌≡◌, ◌+◌, ◌*◌, ◌≤◌, length, take};
ghost use Rattle.model.specs.Ledgers.{weighted};
ghost use Rattle.checks.specs.Columns.{total, added, Columns};
ghost use Rattle.checks.specs.Blocks.{whole_checked};

// One row of bytes more in the sums of 16 columns: `sums` takes up the row, and `runs` what `sums` was before. So a byte counts once in
// `sums`, and in `runs` once for each row that is added after its own.
// Kept: two arrays and not pairs: a row is added to the sums, and the sums to the runs, each as a list, as the definitions say it.
fn add_row(sums: &mut [u16; 16], runs: &mut [u16; 16], row: &[u8])
    requires { Columns 15 sums.old runs.old × (length row.now ≡ 16) }
    ensures { (sums.new ≡ added 16 sums.old row.now) × (runs.new ≡ added 16 runs.old sums.old) }
{
    for j in 0..16 {
        let sum = sums[j];
        let more = sum + row[j] as u16;
        sums[j] = more;
        runs[j] += sum;
    }
}

// What the sums of 16 columns weigh: a byte of column j weighs j + 1, and 16 more each time that it counts in `runs`. The weight j + 1 is
// made by running sums too, from the last column to the first: with products the code is slower.
fn columns_weight(sums: &[u16; 16], runs: &[u16; 16]) -> u32
    requires { Columns 16 sums.now runs.now }
    ensures { result ≡ weighted 0 sums.now + 16 * total runs.now }
{
    let mut run: u32 = 0;
    let mut sum: u32 = 0;
    for column in (0..16).rev() {
        run += sums[column] as u32;
        sum += run + 16 * runs[column] as u32;
    }
    sum
}

// The sum of (i + 1) × byte i over a block's first 256 bytes: 16 rows of 16, from the last to the first. The sums of a column fit in
// 16 bits, so that eight are made at a time.
fn front_weight(block: &[u8; 512]) -> u32
    ensures { result ≡ weighted 0 (take 256 block.now) }
{
    let mut sums = [0u16; 16];
    let mut runs = [0u16; 16];
    for row in (0..16).rev() {
        add_row(&mut sums, &mut runs, &block[16 * row..16 * row + 16]);
    }
    columns_weight(&sums, &runs)
}

// The same over the 254 bytes that follow, of which the first is byte 256.
fn rest_weight(rest: &[u8]) -> u32
    requires { length rest.now ≡ 254 }
    ensures { result ≡ weighted 256 rest.now }
{
    let mut sum: u32 = 0;
    // Kept: as the `sum` of a `map`, it was not proved that the sum fits, which needs i below 254.
    for (i, b) in rest.iter().enumerate() {
        sum += (i as u32 + 257) * *b as u32;
    }
    sum
}

// The sum of (i + 1) × byte i over the 510 bytes before a block's check. Past byte 255 a block that is accepted has only filler.
fn weight(block: &[u8; 512]) -> u32
    ensures { result ≡ weighted 0 (take 510 block.now) }
{
    let front = front_weight(block);
    let rest = &block[256..510];
    if fields::filler(rest) {
        return front;
    }
    front + rest_weight(rest)
}

// A whole block, of 512 bytes, whose check holds.
pub fn block_check(block: &[u8]) -> bool
    ensures { result ≡ whole_checked block.now }
{
    let Ok(block) = <&[u8; 512]>::try_from(block) else {
        return false;
    };
    fields::two_bytes(block, 510) as u32 == weight(block) % 65521
}
