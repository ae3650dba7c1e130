// Terms held at all coalitions at once (document 01, "Terms"): 256 in a row, as in `words`, and all rows of a side together, so that each code is read once
// for all of them. For what asks for every row of a term.
#![tactic(auto)]

ghost use Rattle.std.specs.Prelude.{◌≡◌, Bool, false, ℕ, ◌+◌, ◌%◌, ◌≤◌, ◌<◌, drop};
ghost use Rattle.model.specs.Sides.{Side as ModelSide};
ghost use Rattle.model.specs.Coalitions.{member};
ghost use Rattle.model.specs.Terms.{name, project, held};
ghost use Rattle.words.specs.AnyBytes.{term_in};
ghost use Rattle.words.specs.FourWords.{side_of, RowAt, RowsAt};
ghost use Rattle.words.specs.Evaluation.{row_count};
ghost use Rattle.tables.specs.Filling.{blank, rows_of, EachRow, joined_row, joined_mark, Holding, Joining, end_of, name_at, side_at, same_side, two_of, nth_row, listed};

use terms::Joiner;
use words::{Row, Rows, Side};

// The rows of a term on each side, those of 12 names at most.
#[derive(Drop)]
pub struct Table {
    pub see: [Row; 16],
    pub change: [Row; 16],
}

impl Table {
    // A table before a term is held in it.
    pub fn new() -> Table
        ensures { result ≡ blank }
    {
        Table {
            see: [words::same(words::NONE); 16],
            change: [words::same(words::NONE); 16],
        }
    }

    // Holds the term of a job of n names that the bytes from `at` on stand for.
    pub fn hold(&mut self, codes: &[u8], at: usize, n: u64)
        ensures { (g : ℕ) → g < row_count n → RowsAt (held (term_in (drop at codes.now))) g (rows_of self.new g) }
    {
        hold_sides(codes, at, n, &mut self.see, &mut self.change)
    }

    // Row g on both sides; there are 16 rows at most.
    pub fn rows(&self, g: u64) -> Rows
        ensures { result ≡ rows_of self.now (g % 16) }
    {
        let at = (g % 16) as usize;
        Rows {
            see: self.see[at],
            change: self.change[at],
        }
    }
}

// Each of the first rows becomes what `of` makes of its number and of it.
fn each<F: Fn(u64, Row) -> Row>(rows: &mut [Row; 16], count: usize, of: F)
    requires { F.IsAlwaysCallable of × (count ≤ 16) }
    ensures { EachRow (λ g x y. F.post of g x y) count rows.old rows.new }
{
    for g in 0..count {
        rows[g] = of(g as u64, rows[g]);
    }
}

// The same row.
fn put(row: Row, rows: &mut [Row; 16], count: usize)
    requires { count ≤ 16 }
    ensures { EachRow (λ g x y. y ≡ row) count rows.old rows.new }
{
    each(rows, count, |_, _| row)
}

// The rows of name i. A name below 8 has the same row everywhere, here and below.
fn put_name(i: u8, rows: &mut [Row; 16], count: usize)
    requires { count ≤ 16 }
    ensures { EachRow (λ g x y. RowAt (member i) g y) count rows.old rows.new }
{
    if i < 8 {
        put(words::low_name_row(i), rows, count)
    } else {
        each(rows, count, |g, _| words::name_row(i, g))
    }
}

// Two rows that are joined.
fn join(joiner: Joiner, x: Row, y: Row) -> Row
    ensures { result ≡ joined_row joiner x y }
{
    match joiner {
        Joiner::Both => words::both(x, y),
        Joiner::Either => words::either(x, y),
    }
}

// Row g of name i, joined.
fn join_name_row(joiner: Joiner, i: u8, g: u64, x: Row) -> Row
    ensures { (f : ℕ → Bool) → RowAt f g x → RowAt (λ c. joined_mark joiner (f c) (member i c)) g result }
{
    join(joiner, x, words::name_row(i, g))
}

// Joins the rows of name i.
fn join_name(joiner: Joiner, i: u8, rows: &mut [Row; 16], count: usize)
    requires { count ≤ 16 }
    ensures { (s : ModelSide) → Joining joiner (name i) s false count rows.old rows.new }
{
    if i < 8 {
        let low = words::low_name_row(i);
        each(rows, count, |_, x| join(joiner, x, low))
    } else {
        each(rows, count, |g, x| join_name_row(joiner, i, g, x))
    }
}

// A row joined to another's row g.
fn join_nth(joiner: Joiner, other: &[Row; 16], g: u64, x: Row) -> Row
    ensures { result ≡ joined_row joiner x (nth_row other.now (g % 16)) }
{
    join(joiner, x, other[(g % 16) as usize])
}

// The name at the place, if there is one.
fn name_at(codes: &[u8], at: usize) -> Option<u8>
    ensures { result ≡ name_at codes.now at }
{
    codes.get(at).copied().filter(|i| *i < 12)
}

// The side whose code this is, if it is one's.
fn side_at(code: u8) -> Option<Side>
    ensures { result ≡ side_at code }
{
    match code {
        0x40 => Some(Side::See),
        0x41 => Some(Side::Change),
        _ => None,
    }
}

// The sides are the same.
// Kept: what `==` of an enum promises speaks of the variants' numbers, and not of the sides.
fn same_side(of: Side, side: Side) -> bool
    ensures { result ≡ same_side of side }
{
    match of {
        Side::See => matches!(side, Side::See),
        Side::Change => matches!(side, Side::Change),
    }
}

// What is known of a term once its rows are held on a side: the place after it, and whether those of the other side are others.
#[derive(Clone, Copy)]
struct End {
    next: usize,
    sided: bool,
}

// Bytes of which terms are held on a side, in the first rows, so many.
#[derive(Clone, Copy)]
struct Filling<'a> {
    codes: &'a [u8],
    side: Side,
    count: usize,
}

impl Filling<'_> {
    // The term that stands at a place, row by row: of a quorum each part is weighed in each row, and what is no code is told by `words` alone.
    fn hold_each(&self, at: usize, rows: &mut [Row; 16]) -> End
        requires { (0 < self.now.count) × (self.now.count ≤ 16) }
        ensures held { Holding (term_in (drop at self.now.codes.now)) (side_of self.now.side) result.sided self.now.count rows.old rows.new }
        ensures past { result.next ≡ end_of self.now.codes.now at }
    {
        let mut end = End {
            next: at,
            sided: false,
        };
        for g in 0..self.count {
            let held = words::hold(self.codes, at, g as u64);
            rows[g] = words::on(self.side, held.rows);
            end = End {
                next: held.next,
                sided: end.sided | (held.rows.see != held.rows.change),
            };
        }
        end
    }

    // Joins the rows of the term at a place. They need a place of their own, which no frame of `hold` has: so it is paid only where neither of two terms is a name.
    #[inline(never)]
    #[cycle(hold_hold_side_hold_two_join_term)]
    fn join_term(&self, joiner: Joiner, at: usize, rows: &mut [Row; 16]) -> End
        requires { (0 < self.now.count) × (self.now.count ≤ 16) }
        ensures held { Joining joiner (term_in (drop at self.now.codes.now)) (side_of self.now.side) result.sided self.now.count rows.old rows.new }
        ensures past { result.next ≡ end_of self.now.codes.now at }
    {
        let mut other = [words::same(words::NONE); 16];
        let end = self.hold(at, &mut other);
        each(rows, self.count, |g, x| join_nth(joiner, &other, g, x));
        end
    }

    // Two terms one after the other, joined. A name is joined in place, also where it is the first.
    #[cycle(hold_hold_side_hold_two_join_term)]
    fn hold_two(&self, joiner: Joiner, at: usize, rows: &mut [Row; 16]) -> End
        requires { (0 < self.now.count) × (self.now.count ≤ 16) }
        ensures held { Holding (two_of joiner (term_in (drop at self.now.codes.now)) (term_in (drop (end_of self.now.codes.now at) self.now.codes.now))) (side_of self.now.side) result.sided self.now.count rows.old rows.new }
        ensures past { result.next ≡ end_of self.now.codes.now (end_of self.now.codes.now at) }
    {
        if let Some(i) = name_at(self.codes, at) {
            let second = self.hold(at + 1, rows);
            join_name(joiner, i, rows, self.count);
            return second;
        }
        let first = self.hold(at, rows);
        if let Some(i) = name_at(self.codes, first.next) {
            join_name(joiner, i, rows, self.count);
            return End {
                next: first.next + 1,
                sided: first.sided,
            };
        }
        let second = self.join_term(joiner, first.next, rows);
        End {
            next: second.next,
            sided: first.sided | second.sided,
        }
    }

    // One side of the term at a place: on the other every coalition holds it, and the term is only passed.
    #[cycle(hold_hold_side_hold_two_join_term)]
    fn hold_side(&self, of: Side, at: usize, rows: &mut [Row; 16]) -> End
        requires { (0 < self.now.count) × (self.now.count ≤ 16) }
        ensures held { Holding (project (side_of of) (term_in (drop at self.now.codes.now))) (side_of self.now.side) result.sided self.now.count rows.old rows.new }
        ensures past { result.next ≡ end_of self.now.codes.now at }
    {
        if !same_side(of, self.side) {
            put(words::same(words::ALL), rows, self.count);
            return End {
                next: words::hold(self.codes, at, 0).next,
                sided: true,
            };
        }
        let part = self.hold(at, rows);
        End {
            next: part.next,
            sided: true,
        }
    }

    // The term at a place.
    #[cycle(hold_hold_side_hold_two_join_term)]
    fn hold(&self, at: usize, rows: &mut [Row; 16]) -> End
        requires { (0 < self.now.count) × (self.now.count ≤ 16) }
        ensures held { Holding (term_in (drop at self.now.codes.now)) (side_of self.now.side) result.sided self.now.count rows.old rows.new }
        ensures past { result.next ≡ end_of self.now.codes.now at }
    {
        let Some(code) = self.codes.get(at) else {
            put(words::same(words::NONE), rows, self.count);
            return End {
                next: at,
                sided: false,
            };
        };
        let code = *code;
        let next = at + 1;
        if code < 12 {
            put_name(code, rows, self.count);
            return End { next, sided: false };
        }
        if let Some(joiner) = Joiner::of(code) {
            return self.hold_two(joiner, next, rows);
        }
        if let Some(of) = side_at(code) {
            return self.hold_side(of, next, rows);
        }
        match code {
            0x20 => {
                put(words::same(words::NONE), rows, self.count);
                End { next, sided: false }
            }
            0x21 => {
                put(words::same(words::ALL), rows, self.count);
                End { next, sided: false }
            }
            _ => self.hold_each(at, rows),
        }
    }
}

// The rows on both sides of the term at a place, of a job of n names. A job of one row is held as `words` does; a term that is the same on both sides is held
// once.
fn hold_sides(codes: &[u8], at: usize, n: u64, see: &mut [Row; 16], change: &mut [Row; 16])
    ensures { (s : ModelSide) (g : ℕ) → g < row_count n → RowAt (held (term_in (drop at codes.now)) s) g (nth_row (listed see.new change.new s) g) }
{
    let count = words::row_count(n) as usize;
    if count == 1 {
        let rows = words::hold(codes, at, 0).rows;
        see[0] = rows.see;
        change[0] = rows.change;
        return;
    }
    let filling = Filling {
        codes,
        side: Side::See,
        count,
    };
    let end = filling.hold(at, see);
    if end.sided {
        let other = Filling {
            side: Side::Change,
            ..filling
        };
        other.hold(at, change);
    } else {
        *change = *see;
    }
}
