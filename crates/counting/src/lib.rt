// Which grants count under a label, on a day (document 01, "Grants that count"; document 02, K2 and K6).
#![tactic(auto)]

ghost use Rattle.std.specs.Prelude.{◌≡◌, Bool, true, List, ℕ, ◌+◌, ◌-◌, ◌≤◌};
ghost use Rattle.model.specs.Coalitions.{member, Marks, every, mark};
ghost use Rattle.model.specs.Grants.{GrantMarks};
ghost use Rattle.words.specs.FourWords.{RowAt, RowsAt};
ghost use Rattle.words.specs.Evaluation.{row_count};
ghost use Rattle.counting.specs.Counted.{grant_in, hides, breaks_some, bars_counting, bars_at, none_bars, unvoiced_row, voiced_at, TableOf, ClearAt, SeenAt, AskedAt, JudgedAt, heard_at, on_day, counts_at, counted_in, nothing_known, judged_at, NamesAt, NeededOf, FirstCleared};

use ledgers::Sizes;
use tables::Table;
use words::{Row, Rows};

// A number above each name of the term that the bytes from `at` on stand for, and at least `least`.
fn names_at(codes: &[u8], at: usize, least: u64) -> u64
    ensures { NamesAt codes.now at least result }
{
    let end = words::hold(codes, at, 0).next;
    fields::part(codes, at, end - at)
        .iter()
        .filter(|code| **code < 12)
        .fold(least, |most, code| most.max(*code as u64 + 1))
}

// Those of a row that show that a grant is not visible, from the rows of the label and of the grant's label: they see the label and not the grant's, or change
// the grant's and not the label.
fn hidden(under: Rows, own: Rows) -> Row
    ensures { (L d : Marks) (g : ℕ) → RowsAt L g under → RowsAt d g own → RowAt (hides L d) g result }
{
    let unseen = words::without(under.see, own.see);
    words::either(unseen, words::without(own.change, under.change))
}

// Those of a row that hold p and not q on a side.
fn lacking(p: Rows, q: Rows) -> Row
    ensures { (g : GrantMarks) (r : ℕ) → RowsAt g.p r p → RowsAt g.q r q → RowAt (breaks_some g) r result }
{
    words::either(
        words::without(p.see, q.see),
        words::without(p.change, q.change),
    )
}

// Those of a row that change the grant's label and don't hold the voice of q. None but these may break the grant.
fn unvoiced(own: Rows, q: Rows) -> Row
    ensures { result ≡ unvoiced_row own q }
{
    words::without(own.change, words::both(q.see, q.change))
}

// Those of a row that bar a grant from counting under a label, from the rows of the label and of the grant's label, q and p.
fn barred(under: Rows, own: Rows, q: Rows, p: Rows) -> Row
    ensures { (L : Marks) (d : GrantMarks) (g : ℕ) → RowsAt L g under → RowsAt d.label g own → RowsAt d.q g q → RowsAt d.p g p → RowAt (bars_counting L d) g result }
{
    words::either(hidden(under, own), words::both(own.change, lacking(p, q)))
}

// Of row g there is no coalition of n names. The mask is needed only where there are any.
fn none_of(n: u64, g: u64, row: Row) -> bool
    ensures { (f : ℕ → Bool) → RowAt f g row → ClearAt (mark n f) g result }
{
    words::empty(row) || words::empty(words::both(words::low_row(n, g), row))
}

// All rows of a label, of a grant's label and of its q.
#[derive(Drop)]
struct Judged {
    under: Table,
    own: Table,
    q: Table,
}

impl Judged {
    // Holds those that n names have.
    fn hold(&mut self, asked: &Asked<'_>, n: u64, k: usize)
        ensures { JudgedAt asked.now.ledger.now n k asked.now.label.now self.new }
    {
        self.under.hold(asked.label, 0, n);
        self.own
            .hold(asked.ledger, ledgers::term_place(k, ledgers::LABEL), n);
        self.q
            .hold(asked.ledger, ledgers::term_place(k, ledgers::Q), n);
    }

    // In no row of n names is any unvoiced.
    fn is_voiced(&self, n: u64) -> bool
        ensures { result ≡ every (voiced_at self.now) (row_count n) }
    {
        (0..words::row_count(n)).all(|g| words::empty(unvoiced(self.own.rows(g), self.q.rows(g))))
    }

    // No coalition of n names in row g hides the grant. Where none is unvoiced, no other bars it.
    fn is_seen(&self, n: u64, g: u64) -> bool
        ensures { SeenAt self.now n g result }
    {
        none_of(n, g, hidden(self.under.rows(g), self.own.rows(g)))
    }

    // No coalition of n names in row g bars the grant from counting under the label, where p is asked so many rows further on.
    fn is_clear(&self, p: &Table, n: u64, g: u64, more: u64) -> bool
        ensures { AskedAt self.now p.now n more g result }
    {
        let own = self.own.rows(g);
        let further = p.rows(g.wrapping_add(more));
        none_of(
            n,
            g,
            barred(self.under.rows(g), own, self.q.rows(g), further),
        )
    }

    // No coalition of n names hides the grant, of which none is unvoiced.
    fn all_seen(&self, n: u64) -> bool
        ensures { (ledger label : List ℕ) (k more : ℕ) → JudgedAt ledger n k label self.now → every (voiced_at self.now) (row_count n) ≡ true → result ≡ none_bars ledger label k more n }
    {
        (0..words::row_count(n)).all(|g| self.is_seen(n, g))
    }

    // No coalition of n names bars the grant from counting under the label, where p is asked so many rows further on.
    fn all_clear(&self, p: &Table, n: u64, more: u64) -> bool
        ensures { (ledger label : List ℕ) (names k : ℕ) → JudgedAt ledger n k label self.now → TableOf (grant_in ledger k).p names p.now → row_count n + more ≤ row_count names → result ≡ none_bars ledger label k more n }
    {
        (0..words::row_count(n)).all(|g| self.is_clear(p, n, g, more))
    }
}

// A ledger, how many names and grants it has, and the label and the day that it is asked under.
#[derive(Clone, Copy)]
pub struct Asked<'a> {
    pub ledger: &'a [u8],
    pub sizes: Sizes,
    pub label: &'a [u8],
    pub day: u32,
}

impl Asked<'_> {
    // Those of the first row that bar grant k from counting under the label. Where none changes the grant's label there is no need of q, and where none is unvoiced none of p.
    fn barring(&self, k: usize) -> Row
        ensures { RowAt (bars_at self.now.ledger.now self.now.label.now k) 0 result }
    {
        let under = words::hold(self.label, 0, 0).rows;
        let own = words::hold(self.ledger, ledgers::term_place(k, ledgers::LABEL), 0).rows;
        if words::empty(own.change) {
            return words::without(under.see, own.see);
        }
        let q = words::hold(self.ledger, ledgers::term_place(k, ledgers::Q), 0).rows;
        if words::empty(unvoiced(own, q)) {
            return hidden(under, own);
        }
        let p = words::hold(self.ledger, ledgers::term_place(k, ledgers::P), 0).rows;
        barred(under, own, q, p)
    }

    // How many of the names there is need to ask when grant k is judged: those up to the highest of the label, of the grant's label and of its q, and at least
    // eight, which have one row. Of the further names p alone may have some; it is held most where all of them are members, and so asked there.
    fn names_needed(&self, k: usize) -> u64
        ensures { NeededOf self.now.ledger.now self.now.sizes.names k self.now.label.now result }
    {
        let asked = names_at(self.label, 0, 8);
        let own = names_at(self.ledger, ledgers::term_place(k, ledgers::LABEL), asked);
        let all = names_at(self.ledger, ledgers::term_place(k, ledgers::Q), own);
        self.sizes.names.min(all)
    }

    // No coalition of the names there are in the first row bars grant k.
    fn first_clear(&self, k: usize) -> bool
        ensures { FirstCleared self.now.ledger.now self.now.sizes.names k self.now.label.now result }
    {
        none_of(self.sizes.names, 0, self.barring(k))
    }

    // No coalition of n of the names bars grant k, where p is asked with all the others among the members: in the last rows. Where none is unvoiced, p is not asked.
    fn rows_clear(&self, n: u64, k: usize) -> bool
        ensures { n ≤ self.now.sizes.names → result ≡ none_bars self.now.ledger.now self.now.label.now k (row_count self.now.sizes.names - row_count n) n }
    {
        let mut judged = Judged {
            under: Table::new(),
            own: Table::new(),
            q: Table::new(),
        };
        judged.hold(self, n, k);
        if judged.is_voiced(n) {
            return judged.all_seen(n);
        }
        let mut p = Table::new();
        let place = ledgers::term_place(k, ledgers::P);
        p.hold(self.ledger, place, self.sizes.names);
        let more = words::row_count(self.sizes.names).saturating_sub(words::row_count(n));
        judged.all_clear(&p, n, more)
    }

    // The same of as many names as there is need to ask.
    fn all_clear(&self, k: usize) -> bool
        ensures { result ≡ heard_at self.now.ledger.now self.now.sizes.names self.now.label.now k }
    {
        self.rows_clear(self.names_needed(k), k)
    }

    // Grant k is visible under the label, and spoken. The first row tells most grants that are not.
    fn heard(&self, k: usize) -> bool
        ensures { result ≡ heard_at self.now.ledger.now self.now.sizes.names self.now.label.now k }
    {
        self.first_clear(k) && (self.sizes.names <= 8 || self.all_clear(k))
    }

    // The day is within the days of grant k.
    fn on_day(&self, k: usize) -> bool
        ensures { result ≡ on_day self.now.ledger.now self.now.day k }
    {
        let at = ledgers::block_place(k) + ledgers::DAYS;
        let first = fields::four_bytes(self.ledger, at);
        let last = fields::four_bytes(self.ledger, at + 4);
        dates::in_days(first, last, self.day)
    }

    // Grant k counts under the label on the day. Its days are looked at first, which costs least.
    pub fn counts(&self, k: usize) -> bool
        ensures { result ≡ counts_at self.now.ledger.now self.now.sizes.names self.now.label.now self.now.day k }
    {
        self.on_day(k) && self.heard(k)
    }

    // Bit k is set exactly if grant k counts. No ledger has more grants than 64.
    pub fn counted(&self) -> u64
        ensures { result ≡ counted_in self.now.ledger.now self.now.sizes.names self.now.sizes.grants self.now.label.now self.now.day }
    {
        if 64 < self.sizes.grants {
            return 0;
        }
        let mut counted: u64 = 0;
        for k in (0..self.sizes.grants).rev() {
            counted = (counted << 1) | self.counts(k) as u64;
        }
        counted
    }

    // What is known once grant k, if it may count, is judged. It is judged once.
    pub fn judge(&self, k: usize, known: Known) -> Known
        ensures { result ≡ judged_at (counts_at self.now.ledger.now self.now.sizes.names self.now.label.now self.now.day k) k known }
    {
        if !known.may_count(k) || !words::bit_set(known.unjudged, k) {
            return known;
        }
        let bit: u64 = 1 << k;
        let judged = Known {
            unjudged: known.unjudged - bit,
            ..known
        };
        if self.counts(k) {
            return judged;
        }
        Known {
            possible: known.possible - bit,
            ..judged
        }
    }
}

// What is known of the grants: bit k of `unjudged` is set until grant k is judged, and bit k of `possible` until it is known not to count.
#[derive(Clone, Copy, Debug, PartialEq, Eq)]
pub struct Known {
    pub unjudged: u64,
    pub possible: u64,
}

impl Known {
    // Nothing is known.
    pub fn nothing() -> Known
        ensures { result ≡ nothing_known }
    {
        Known {
            unjudged: 0xFFFF_FFFF_FFFF_FFFF,
            possible: 0xFFFF_FFFF_FFFF_FFFF,
        }
    }

    // Grant k may count; past the 64 grants there are none.
    pub fn may_count(self, k: usize) -> bool
        ensures { result ≡ member k self.possible }
    {
        words::bit_set(self.possible, k)
    }
}
