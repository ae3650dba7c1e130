// The extract call (document 01, "Extract"), on a day (document 02, K2).
#![tactic(auto)]

ghost use Rattle.std.specs.Prelude.{◌≡◌, ◌+◌, ◌*◌, ◌≤◌, length};
ghost use Rattle.model.specs.Extracts.{extract};
ghost use Rattle.soundness.specs.Keeping.{sound_in};
ghost use Rattle.extracts.specs.Halves.{paste_word, paste_row, blank, Halves};
ghost use Rattle.extracts.specs.Results.{outcome_of};

use refusals::Refusal;
use soundness::Chosen;
use words::Row;

// Bytes 8 × w to 8 × w + 7 of a half become those of a word of marks, lowest first: coalition c is bit c mod 8 of byte c div 8.
fn put_word(half: &mut [u8], w: usize, word: u64)
    requires { 8 * w + 8 ≤ length half.old }
    ensures { half.new ≡ paste_word half.old w word }
{
    half[8 * w..8 * w + 8].copy_from_slice(&word.to_le_bytes());
}

// Bytes 32 × g to 32 × g + 31 of a half become those of a row.
fn put_row(half: &mut [u8], g: u64, row: Row)
    requires { 32 * g + 32 ≤ length half.old }
    ensures { half.new ≡ paste_row half.old g row }
{
    let w = 4 * g as usize;
    put_word(half, w, row.a);
    put_word(half, w + 1, row.b);
    put_word(half, w + 2, row.c);
    put_word(half, w + 3, row.d);
}

// Marks in both halves, which are all 00 before, the coalitions that keep each grant whose bit is set.
fn mark_sound(chosen: &Chosen<'_>, see: &mut [u8], change: &mut [u8])
    requires { (see.old ≡ blank 512) × (change.old ≡ blank 512) }
    ensures { Halves chosen.now.sizes.names (sound_in chosen.now.ledger.now chosen.now.sizes.grants chosen.now.bits) see.new change.new }
{
    let rows = words::row_count(chosen.sizes.names);
    for g in 0..rows {
        let sound = chosen.sound_row(g);
        put_row(see, g, sound.see);
        put_row(change, g, sound.change);
    }
}

// Writes the extract of a ledger under a label on a day. The buffer is written once nothing can be refused any more.
// Kept: C lends ledger, label and day one by one, and they go on as they came.
pub fn extract(ledger: &[u8], label: &[u8], day: u32, buffer: &mut [u8]) -> Result<(), Refusal>
    ensures { outcome_of result buffer.new ≡ extract ledger.now label.now day buffer.old }
{
    if !dates::real_date(day) {
        return Err(Refusal::NotReal);
    }
    if buffer.len() != 1024 {
        return Err(Refusal::ExtractLength);
    }
    let chosen = Chosen::counting(ledger, label, day)?;
    buffer.fill(0);
    let (see, change) = buffer.split_at_mut(512);
    mark_sound(&chosen, see, change);
    Ok(())
}
