// Which coalitions keep the grants whose bits are set: the sound ones, where these are the grants that count (document 01, "Grants that count"). How many of
// these grants a test takes (document 02, K3).
#![tactic(auto)]

ghost use Rattle.std.specs.Prelude.{◌≡◌, ◌&&◌, ◌*◌, ◌/◌, eqb};
ghost use Rattle.model.specs.Coalitions.{Marks, mark, packed};
ghost use Rattle.model.specs.Grants.{marks_of};
ghost use Rattle.words.specs.FourWords.{side_of, RowAt, RowsAt};
ghost use Rattle.counting.specs.Counted.{grant_in};
ghost use Rattle.soundness.specs.Choosing.{choice_reading, counting_read};
ghost use Rattle.soundness.specs.Keeping.{breaks, sound_in};
ghost use Rattle.soundness.specs.Testing.{tested_of, test_in, TestedTo};

use counting::Asked;
use ledgers::Sizes;
use refusals::Refusal;
use words::{Row, Rows, Side};

// Those of two rows that break grant k: they hold its p and not its q. Where none holds its p there is no need of q.
pub fn broken(ledger: &[u8], k: usize, g: u64, of: Rows) -> Rows
    ensures { (f : Marks) → RowsAt f g of → RowsAt (λ s c. f s c && breaks (marks_of (grant_in ledger.now k)) s c) g result }
{
    let p = words::hold(ledger, ledgers::term_place(k, ledgers::P), g).rows;
    let holding = words::each_side(of, p, words::both);
    if words::none(holding) {
        return holding;
    }
    let q = words::hold(ledger, ledgers::term_place(k, ledgers::Q), g).rows;
    words::rest(holding, q)
}

// Those of two rows that keep the grants they were tested against, and how many these were. The number stands first, as in `words::Held`.
#[derive(Clone, Copy)]
struct Kept {
    tested: usize,
    rows: Rows,
}

// Word w of the coalition c alone.
fn only_word(c: u64, w: u64) -> u64
    ensures { result ≡ packed (λ d. eqb d c) (64 * w) 64 }
{
    if c / 64 == w { 1 << (c % 64) } else { 0 }
}

// The row in which coalition c stands, with it alone.
fn only_row(c: u64) -> Row
    ensures { RowAt (λ d. eqb d c) (c / 256) result }
{
    let w = 4 * (c / 256);
    Row {
        a: only_word(c, w),
        b: only_word(c, w + 1),
        c: only_word(c, w + 2),
        d: only_word(c, w + 3),
    }
}

// What the test of a coalition on a side gives.
// Kept: the number says as much of a sound coalition as of a broken one, so an enum would have it twice.
#[derive(Clone, Copy)]
pub struct Tested {
    pub sound: bool,
    // How many grants it was tested against: all, or up to and with the first that it breaks.
    pub tested: usize,
}

// A ledger of these sizes, of whose grants those whose bits are set are kept.
#[derive(Clone, Copy)]
pub struct Chosen<'a> {
    pub ledger: &'a [u8],
    pub sizes: Sizes,
    pub bits: u64,
}

impl<'a> Chosen<'a> {
    // Reads a ledger, and the label that it is asked under: chosen are the grants that count, on the day.
    pub fn counting(ledger: &'a [u8], label: &[u8], day: u32) -> Result<Chosen<'a>, Refusal>
        ensures { choice_reading result ≡ counting_read ledger.now label.now day }
    {
        let sizes = ledgers::read_book(ledger, label)?;
        let asked = Asked {
            ledger,
            sizes,
            label,
            day,
        };
        Ok(Chosen {
            ledger,
            sizes,
            bits: asked.counted(),
        })
    }

    // Tests the coalitions of two rows against these grants. Each is dropped at the first that it breaks, and the test ends where none is left.
    fn test_rows(&self, g: u64, of: Rows) -> Kept
        ensures { (f : Marks) → RowsAt f g of → TestedTo self.now.ledger.now self.now.sizes.grants self.now.bits f g result }
    {
        let mut rows = of;
        let mut tested: usize = 0;
        for k in 0..self.sizes.grants {
            if words::none(rows) {
                return Kept { tested, rows };
            }
            if words::bit_set(self.bits, k) {
                rows = words::rest(rows, broken(self.ledger, k, g, rows));
                tested += 1;
            }
        }
        Kept { tested, rows }
    }

    // Row g of the coalitions of its names that keep each of these grants: the sound ones, where these are the grants that count.
    pub fn sound_row(&self, g: u64) -> Rows
        ensures { RowsAt (λ s. mark self.now.sizes.names (sound_in self.now.ledger.now self.now.sizes.grants self.now.bits s)) g result }
    {
        let all = words::alike(words::low_row(self.sizes.names, g));
        self.test_rows(g, all).rows
    }

    // Tests a coalition on a side against these grants, up to the first that it breaks there (document 02, K3).
    pub fn test_coalition(&self, side: Side, c: u64) -> Tested
        ensures { tested_of result ≡ test_in self.now.ledger.now self.now.sizes.grants self.now.bits (side_of side) c }
    {
        let alone = words::sided(side, only_row(c), words::same(0));
        let kept = self.test_rows(c / 256, alone);
        Tested {
            sound: !words::none(kept.rows),
            tested: kept.tested,
        }
    }
}
