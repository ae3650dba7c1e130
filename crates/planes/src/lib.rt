// Numbers from 0 to 127, one for each side and coalition, kept as digits (document 02, K5): four words of 64 coalitions are a row, as in `words`, and a row
// of numbers has a row for each of its seven digits. There are 32 rows of numbers: 16 of the see side, then 16 of the change side.
#![tactic(auto)]

ghost use Rattle.std.specs.Prelude.{◌≡◌, Bool, ◌&&◌, ℕ, ◌<◌, eqb};
ghost use Rattle.std.specs.Int.Bits.{bit_xor};
ghost use Rattle.words.specs.FourWords.{RowAt, each_word};
ghost use Rattle.planes.specs.Digits.{Counted, Stored, Raised, Lowered};

use words::Row;

// A number is at most 64, which six digits would take for 0.
const DIGITS: usize = 7;

// The rows' words that differ.
fn differ(x: Row, y: Row) -> Row
    ensures { result ≡ each_word bit_xor x y }
{
    words::each_word(x, y, |v, w| v ^ w)
}

// Changes by 1 each number of the row that is marked. What goes on to the next digit goes on where the digit that `tells` picks is set: that before the change
// or that after it.
fn count<F: Fn(Row, Row) -> Row>(planes: &mut [u64; 896], row: usize, marked: Row, tells: F)
    requires { F.IsAlwaysCallable tells }
    ensures { Counted (λ x y z. F.post tells x y z) planes.old row marked planes.new }
{
    if 32 <= row {
        return;
    }
    let mut carry = marked;
    for j in 0..DIGITS {
        let at = DIGITS * row + j;
        let before = words::row_at(planes, at);
        let after = differ(before, carry);
        words::put_row(planes, at, after);
        carry = words::both(tells(before, after), carry);
    }
}

// Adds 1 to each number of the row that is marked: it is carried on where a digit was set.
pub fn raise(planes: &mut [u64; 896], row: usize, marked: Row)
    ensures { Raised planes.old row marked planes.new }
{
    count(planes, row, marked, |before, _| before)
}

// Takes 1 from each number of the row that is marked: it is borrowed on where a digit becomes set.
pub fn lower(planes: &mut [u64; 896], row: usize, marked: Row)
    ensures { Lowered planes.old row marked planes.new }
{
    count(planes, row, marked, |_, after| after)
}

// Those of a row whose number is 0.
pub fn unbroken(planes: &[u64; 896], row: usize, of: Row) -> Row
    ensures { (g : ℕ) (f : ℕ → ℕ) (m : ℕ → Bool) → Stored planes.now row g f → RowAt m g of → RowAt (λ c. m c && eqb (f c) 0) g result }
{
    if 32 <= row {
        return of;
    }
    let mut left = of;
    for j in 0..DIGITS {
        left = words::without(left, words::row_at(planes, DIGITS * row + j));
    }
    left
}
