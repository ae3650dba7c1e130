// Terms held at 256 coalitions at once (document 01, "Terms"): bit k of word j of row g is coalition 256 * g + 64 * j + k.
#![tactic(auto)]

ghost use Rattle.std.specs.Prelude.{◌≡◌, ℕ, cond, ◌&&◌, ◌||◌, ◌+◌, ◌-◌, ◌*◌, ◌^◌, ◌≤◌, ◌<◌, eqb, ltb, length, get_or};
ghost use Rattle.std.specs.Int.Bits.{bit_and, bit_or};
ghost use Rattle.model.specs.Sides.{Side as ModelSide};
ghost use Rattle.model.specs.Coalitions.{member, packed};
ghost use Rattle.model.specs.Terms.{quorate};
ghost use Rattle.words.specs.AnyBytes.{term_in};
ghost use Rattle.words.specs.FourWords.{side_of, row_on, AtEachWord, AtEachSide, each_word, each_row, lacks_word, same_row, same_rows, both_sides, sided, empty_row, empty_rows, row_set, row_in, RowAt, Weighed};
ghost use Rattle.words.specs.Evaluation.{coalition_word, job_of, joined, word_count, row_count, left_over, quorum_at, Evaluated, table_on, EvaluatedTo, LowestBit};

use terms::Joiner;

// The word of the strongest party, held nowhere, and that of the weakest, held everywhere.
pub const NONE: u64 = 0;

pub const ALL: u64 = 0xFFFF_FFFF_FFFF_FFFF;

#[derive(Clone, Copy, Debug, PartialEq, Eq)]
pub enum Side {
    See,
    Change,
}

// A row of a set of coalitions: its four words, lowest first.
// Kept: an array of four words goes through memory at each call, and four fields stay in registers (docs/DECISIONS.md, "Rows of four words").
#[derive(Clone, Copy, Debug, PartialEq, Eq)]
pub struct Row {
    pub a: u64,
    pub b: u64,
    pub c: u64,
    pub d: u64,
}

// A row on each side.
#[derive(Clone, Copy, Debug, PartialEq, Eq)]
pub struct Rows {
    pub see: Row,
    pub change: Row,
}

// Four times the same word.
pub fn same(x: u64) -> Row
    ensures { result ≡ same_row x }
{
    Row {
        a: x,
        b: x,
        c: x,
        d: x,
    }
}

// The same row on both sides.
pub fn alike(x: Row) -> Rows
    ensures { result ≡ both_sides x }
{
    Rows { see: x, change: x }
}

// A row on the side, and another on the other.
pub fn sided(side: Side, row: Row, other: Row) -> Rows
    ensures { result ≡ sided (side_of side) row other }
{
    match side {
        Side::See => Rows {
            see: row,
            change: other,
        },
        Side::Change => Rows {
            see: other,
            change: row,
        },
    }
}

// The row of the side.
pub fn on(side: Side, rows: Rows) -> Row
    ensures { result ≡ row_on rows (side_of side) }
{
    match side {
        Side::See => rows.see,
        Side::Change => rows.change,
    }
}

// What `of` makes of two rows, word by word.
pub fn each_word<F: Fn(u64, u64) -> u64>(x: Row, y: Row, of: F) -> Row
    requires { F.IsAlwaysCallable of }
    ensures { AtEachWord (λ v w r. F.post of v w r) x y result }
{
    Row {
        a: of(x.a, y.a),
        b: of(x.b, y.b),
        c: of(x.c, y.c),
        d: of(x.d, y.d),
    }
}

// What `of` makes of a row on each side and another.
pub fn each_side<F: Fn(Row, Row) -> Row>(x: Rows, y: Rows, of: F) -> Rows
    requires { F.IsAlwaysCallable of }
    ensures { AtEachSide (λ v w r. F.post of v w r) x y result }
{
    Rows {
        see: of(x.see, y.see),
        change: of(x.change, y.change),
    }
}

// Those of both rows.
pub fn both(x: Row, y: Row) -> Row
    ensures { result ≡ each_word bit_and x y }
{
    each_word(x, y, |v, w| v & w)
}

// Those of either row.
pub fn either(x: Row, y: Row) -> Row
    ensures { result ≡ each_word bit_or x y }
{
    each_word(x, y, |v, w| v | w)
}

// Those of the first row that are not in the second.
pub fn without(x: Row, y: Row) -> Row
    ensures { result ≡ each_word lacks_word x y }
{
    each_word(x, y, |v, w| v & !w)
}

// The row has no coalition.
pub fn empty(x: Row) -> bool
    ensures { result ≡ empty_row x }
{
    x.a | x.b | x.c | x.d == 0
}

// Those of two rows, a side each, that are not among two others.
pub fn rest(x: Rows, gone: Rows) -> Rows
    ensures { result ≡ each_row lacks_word x gone }
{
    each_side(x, gone, without)
}

// The rows have no coalition on either side.
pub fn none(x: Rows) -> bool
    ensures { result ≡ empty_rows x }
{
    empty(either(x.see, x.change))
}

// The coalitions of word w that have name i as a member.
pub fn name_word(i: u8, w: u64) -> u64
    ensures { result ≡ packed (member i) (64 * w) 64 }
{
    match i {
        0 => 0xAAAA_AAAA_AAAA_AAAA,
        1 => 0xCCCC_CCCC_CCCC_CCCC,
        2 => 0xF0F0_F0F0_F0F0_F0F0,
        3 => 0xFF00_FF00_FF00_FF00,
        4 => 0xFFFF_0000_FFFF_0000,
        5 => 0xFFFF_FFFF_0000_0000,
        // Kept: `bit_set` takes a usize: here and in short forms the shift says it as shortly.
        6..=69 => if (w >> (i - 6)) % 2 == 1 { ALL } else { NONE },
        _ => NONE,
    }
}

// The coalitions of a row that have name i as a member, i being below 8: the same in every row, since such a name goes by the place in the row.
pub fn low_name_row(i: u8) -> Row
    ensures { (g : ℕ) → i < 8 → RowAt (member i) g result }
{
    match i {
        0..=5 => same(name_word(i, 0)),
        6 => Row {
            a: NONE,
            b: ALL,
            c: NONE,
            d: ALL,
        },
        _ => Row {
            a: NONE,
            b: NONE,
            c: ALL,
            d: ALL,
        },
    }
}

// The coalitions of row g that have name i as a member. A name from 8 up has all of a row or none of it: the row as the name two below has the word.
pub fn name_row(i: u8, g: u64) -> Row
    ensures { RowAt (member i) g result }
{
    if i < 8 {
        low_name_row(i)
    } else {
        same(name_word(i - 2, g))
    }
}

// A row of a term on both sides, and the place after the term's codes. The place stands first: with it last the compiler pairs the words off by one, and
// each pair is read back slowly.
#[derive(Clone, Copy, Debug, PartialEq, Eq)]
pub struct Held {
    pub next: usize,
    pub rows: Rows,
}

// There is a name at the place.
// Kept: codes and a place, here and below: the place counts from the beginning of a ledger, as `ledgers::term_place` gives it.
fn is_name(codes: &[u8], at: usize) -> bool
    ensures { result ≡ (ltb at (length codes.now) && ltb (get_or codes.now at 0) 12) }
{
    matches!(codes.get(at), Some(0..=11))
}

// Row g of the name at the place.
fn hold_name(codes: &[u8], at: usize, g: u64) -> Held
    requires { (at < length codes.now) × (get_or codes.now at 0 < 12) }
    ensures { Evaluated codes.now at g result.rows result.next }
{
    Held {
        next: at + 1,
        rows: alike(name_row(codes[at], g)),
    }
}

// The rows of two parts that are joined.
fn join(joiner: Joiner, p: Rows, q: Rows) -> Rows
    ensures { result ≡ joined joiner p q }
{
    match joiner {
        Joiner::Both => each_side(p, q, both),
        Joiner::Either => each_side(p, q, either),
    }
}

// Row g of the term that the bytes from `at` on stand for. A part that is a name is taken in place. Bytes that are no term are for the term reader
// to refuse: here what is no code, or is missing, is held nowhere.
#[cycle(hold_hold_quorum)]
pub fn hold(codes: &[u8], at: usize, g: u64) -> Held
    ensures { Evaluated codes.now at g result.rows result.next }
{
    let Some(code) = codes.get(at) else {
        return Held {
            next: at,
            rows: alike(same(NONE)),
        };
    };
    let code = *code;
    if code < 12 {
        return hold_name(codes, at, g);
    }
    let next = at + 1;
    if let Some(joiner) = Joiner::of(code) {
        let p = if is_name(codes, next) {
            hold_name(codes, next, g)
        } else {
            hold(codes, next, g)
        };
        let q = if is_name(codes, p.next) {
            hold_name(codes, p.next, g)
        } else {
            hold(codes, p.next, g)
        };
        return Held {
            next: q.next,
            rows: join(joiner, p.rows, q.rows),
        };
    }
    // What is left over goes to `hold_quorum`, so that quorums cost the other codes no test. Its result is taken apart: handed on whole, that of every code
    // would go through memory.
    // Kept: an enum of all codes, here and below, would be made of the byte and taken apart at once, and a single arm for the two sides would ask again which it
    // is.
    match code {
        0x21 => Held {
            next,
            rows: alike(same(ALL)),
        },
        0x40 => {
            let p = hold(codes, next, g);
            Held {
                next: p.next,
                rows: sided(Side::See, p.rows.see, same(ALL)),
            }
        }
        0x41 => {
            let p = hold(codes, next, g);
            Held {
                next: p.next,
                rows: sided(Side::Change, p.rows.change, same(ALL)),
            }
        }
        _ => {
            let Held { next, rows } = hold_quorum(codes, at, g);
            Held { next, rows }
        }
    }
}

// The words of row g become those of a row, where they are all there.
pub fn put_row(words: &mut [u64], g: usize, row: Row)
    ensures there { 4 * g + 4 ≤ length words.old → words.new ≡ row_set words.old g row }
    ensures missing { length words.old < 4 * g + 4 → words.new ≡ words.old }
{
    if g < words.len() / 4 {
        words[4 * g] = row.a;
        words[4 * g + 1] = row.b;
        words[4 * g + 2] = row.c;
        words[4 * g + 3] = row.d;
    }
}

// Row g of a list of words: nothing, where they are not all there.
pub fn row_at(words: &[u64], g: usize) -> Row
    ensures there { 4 * g + 4 ≤ length words.now → result ≡ row_in words.now g }
    ensures missing { length words.now < 4 * g + 4 → result ≡ same_row 0 }
{
    if words.len() / 4 <= g {
        return same(NONE);
    }
    Row {
        a: words[4 * g],
        b: words[4 * g + 1],
        c: words[4 * g + 2],
        d: words[4 * g + 3],
    }
}

// One part more, of the rows x, in a quorum's table: its rows j have the coalitions that hold at least j of the parts so far.
fn weigh(table: &mut [Rows; 13], k: usize, x: Rows)
    requires { k ≤ 12 }
    ensures { Weighed k x table.old table.new }
{
    for j in (0..k).rev() {
        let gained = each_side(table[j], x, both);
        table[j + 1] = each_side(table[j + 1], gained, either);
    }
}

// The byte at the place is one that `hold` leaves to `hold_quorum`: a quorum's code, 20, or no code.
fn leaves(codes: &[u8], at: usize) -> bool
    ensures { result ≡ left_over (get_or codes.now at 0) }
{
    match codes.get(at) {
        None | Some(0..=11 | 0x21 | 0x30 | 0x31 | 0x40 | 0x41) => false,
        Some(_) => true,
    }
}

// A k and an m in range follow the code at the place.
pub fn in_range_at(codes: &[u8], at: usize) -> bool
    ensures { result ≡ (ltb (at + 2) (length codes.now) && quorate (get_or codes.now (at + 1) 0) (get_or codes.now (at + 2) 0)) }
{
    match codes.get(at..) {
        Some([_, k, m, ..]) => terms::in_range(*k, *m),
        _ => false,
    }
}

// There is a quorum's code at the place, and a k and an m in range follow it.
fn is_quorum(codes: &[u8], at: usize) -> bool
    ensures { result ≡ quorum_at codes.now at }
{
    in_range_at(codes, at) && codes[at] == 0x32
}

// Row g of the term that the bytes from `at` on stand for, where it is a quorum by weighing its parts: k, m and m parts follow the code. It calls itself on
// the parts, and not `hold`: so the compiler keeps it, and its table, out of `hold`.
#[cycle(hold_hold_quorum)]
fn hold_quorum(codes: &[u8], at: usize, g: u64) -> Held
    ensures { Evaluated codes.now at g result.rows result.next }
{
    if !leaves(codes, at) {
        let Held { next, rows } = hold(codes, at, g);
        return Held { next, rows };
    }
    if !is_quorum(codes, at) {
        let next = at + 1;
        return Held {
            next,
            rows: alike(same(NONE)),
        };
    }
    let k = codes[at + 1] as usize;
    let mut table = [alike(same(NONE)); 13];
    table[0] = alike(same(ALL));
    let mut next = at + 3;
    for _ in 0..codes[at + 2] {
        let p = if is_name(codes, next) {
            hold_name(codes, next, g)
        } else {
            hold_quorum(codes, next, g)
        };
        weigh(&mut table, k, p.rows);
        next = p.next;
    }
    Held {
        next,
        rows: table[k],
    }
}

// A number below 2^n.
fn below_power(k: u64, n: u64) -> bool
    ensures { result ≡ ltb k (2 ^ n) }
{
    64 <= n || k >> n == 0
}

// The coalitions of word w that n names have: those below 2^n.
pub fn low_mask(n: u64, w: u64) -> u64
    ensures { result ≡ coalition_word n w }
{
    if n < 6 {
        if w == 0 { (1 << (1u64 << n)) - 1 } else { NONE }
    } else if below_power(w, n - 6) {
        ALL
    } else {
        NONE
    }
}

// The coalitions of row g that n names have. Fewer than eight names have one row, of which they fill two words at most.
pub fn low_row(n: u64, g: u64) -> Row
    ensures { RowAt (λ c. ltb c (2 ^ n)) g result }
{
    if n < 8 {
        if g == 0 {
            Row {
                a: low_mask(n, 0),
                b: low_mask(n, 1),
                c: NONE,
                d: NONE,
            }
        } else {
            same(NONE)
        }
    } else if below_power(g, n - 8) {
        same(ALL)
    } else {
        same(NONE)
    }
}

// How many parts of 2^bits coalitions those of n names take.
fn part_count(n: u64, bits: u64) -> u64
    ensures { result ≡ 2 ^ (job_of n - bits) }
{
    1 << n.min(12).saturating_sub(bits)
}

// How many words the coalitions of n names take.
pub fn word_count(n: u64) -> u64
    ensures { result ≡ word_count n }
{
    part_count(n, 6)
}

// How many rows they take.
pub fn row_count(n: u64) -> u64
    ensures { result ≡ row_count n }
{
    part_count(n, 8)
}

// The words of a term's rows, on each side: those of row g are the four from place 4 * g on.
// Kept: two arrays of words, and not one of rows: a short form asks for single words of a side.
#[derive(Drop)]
pub struct Tables {
    pub see: [u64; 64],
    pub change: [u64; 64],
}

// All rows of a term of n names on both sides: for what asks for them more than once.
pub fn evaluate(codes: &[u8], n: u64, tables: &mut Tables)
    ensures { (s : ModelSide) → EvaluatedTo (term_in codes.now) s (4 * row_count n) (table_on tables.old s) (table_on tables.new s) }
{
    for g in 0..row_count(n) {
        let rows = hold(codes, 0, g).rows;
        put_row(&mut tables.see, g as usize, rows.see);
        put_row(&mut tables.change, g as usize, rows.change);
    }
}

// The number of the lowest bit that is set; 64 where none is.
// Kept: it promises what `trailing_zeros` does. As an Option, each of a row's words would be mapped past those before it, which is no plainer than the tests.
pub fn lowest(x: u64) -> u64
    ensures { LowestBit x result }
{
    u64::trailing_zeros(x) as u64
}

// Bit k of the word is set. Past the 64 bits there is none.
pub fn bit_set(bits: u64, k: usize) -> bool
    ensures { result ≡ member k bits }
{
    k < 64 && (bits >> k) % 2 == 1
}
