// Terms on paper (document 02, K1 and K4): terms are written as texts.
#![tactic(auto)]

ghost use Rattle.std.specs.Prelude.{◌≡◌, ◌+◌, ◌≤◌, ◌<◌, [], ◌∷◌, length, take};
ghost use Rattle.model.specs.Texts.{decimal, flat, flat_all, fewest, join_rank};
ghost use Rattle.model.specs.Notation.{write_term};
ghost use Rattle.words.specs.AnyBytes.{term_in};
ghost use Rattle.refusals.specs.Results.{outcome_of};
ghost use Rattle.terms.specs.Joiners.{kind};
ghost use Rattle.writing.specs.Writing.{mark_of, bracketed, within, places_in, State, state, wrote, after_term, after_terms};

use refusals::Refusal;
use std::marker::Model;
use terms::Joiner;

// What a code is on paper.
#[derive(Clone, Copy, Debug, PartialEq, Eq)]
enum Mark {
    // A name, * or _.
    Whole(u8),
    // > or <, after the part.
    Sign(u8),
    // & or |, between the parts.
    Between(Joiner),
    Quorum,
}

// A byte that is no code stands for the strongest party; the term reader refuses it.
// Kept: an enum of all codes would be made of the byte as here, and then taken apart for its mark.
fn mark_of(code: u8) -> Mark
    ensures { result ≡ mark_of code }
{
    match code {
        0..=11 => Mark::Whole(b'a' + code),
        0x20 => Mark::Whole(b'*'),
        0x21 => Mark::Whole(b'_'),
        0x30 => Mark::Between(Joiner::Both),
        0x31 => Mark::Between(Joiner::Either),
        0x32 => Mark::Quorum,
        0x40 => Mark::Sign(b'>'),
        0x41 => Mark::Sign(b'<'),
        _ => Mark::Whole(b'*'),
    }
}

// A term that is written as a text: what is left of its codes, and a scratch, of which the first `to` bytes are written. No text is over 192 characters.
// Kept: the scratch, which is copied at the end: tried with the lent buffer in the value, and of what the value leaves in it a proof learns the length alone.
#[derive(Drop)]
struct Writer<'a> {
    codes: &'a [u8],
    scratch: [u8; 192],
    to: usize,
}

impl<'a> Model for Writer<'a> {
    ghost Value = { State };

    ghost view = { λ w. state w.codes.now (take w.to w.scratch) };

    ghost invariant = { λ w. w.to ≤ 192 };
}

impl<'a> Writer<'a> {
    fn new(codes: &'a [u8]) -> Writer<'a>
        ensures { result ≡ state codes.now [] }
    {
        Writer {
            codes,
            scratch: [0; 192],
            to: 0,
        }
    }

    // The characters written so far.
    fn text(&self) -> &[u8]
        ensures { result.now ≡ self.now.written }
    {
        &self.scratch[..self.to]
    }

    // One character more.
    fn put(&mut self, c: u8)
        requires { length self.old.written < 192 }
        ensures { self.new ≡ wrote self.old self.old.codes (c ∷ []) }
    {
        self.scratch[self.to] = c;
        self.to += 1;
    }

    // The bracket c, if a list of rank `own` needs it where only ranks up to `rank` stand without.
    fn bracket(&mut self, c: u8, own: u8, rank: u8)
        requires { length self.old.written + length (bracketed c own rank) ≤ 192 }
        ensures { self.new ≡ wrote self.old self.old.codes (bracketed c own rank) }
    {
        if rank < own {
            self.put(c);
        }
    }

    // A number of a quorum, in decimal.
    // Kept: one digit or two; what prints needs a formatter over the writer, which would be as long.
    fn number(&mut self, k: u8)
        requires { (k ≤ 12) × (length self.old.written + length (decimal k) ≤ 192) }
        ensures { self.new ≡ wrote self.old self.old.codes (decimal k) }
    {
        if k < 10 {
            self.put(b'0' + k);
        } else {
            self.put(b'1');
            self.put(b'0' + (k - 10));
        }
    }

    // The first `left` terms, c before the first of them and a comma before each other.
    #[cycle(part_places_quorum)]
    fn places(&mut self, left: u8, c: u8)
        requires { length self.old.written + length (flat_all c (places_in left self.old.codes)) ≤ 192 }
        ensures { self.new ≡ wrote self.old (after_terms left self.old.codes) (flat_all c (places_in left self.old.codes)) }
    {
        if left == 0 {
            return;
        }
        self.put(c);
        self.part(2);
        self.places(left - 1, b',');
    }

    // The quorum whose code is passed: k, a colon, m, and its parts in brackets. A code without a k and an m in range stands for the strongest party.
    #[cycle(part_places_quorum)]
    fn quorum(&mut self)
        requires { length self.old.written + length (flat (fewest (term_in (0x32 ∷ self.old.codes)))) ≤ 192 }
        ensures { self.new ≡ wrote self.old (after_term (0x32 ∷ self.old.codes)) (flat (fewest (term_in (0x32 ∷ self.old.codes)))) }
    {
        match self.codes {
            [k, m, rest @ ..] if terms::in_range(*k, *m) => {
                self.codes = rest;
                self.number(*k);
                self.put(b':');
                self.number(*m);
                self.places(*m, b'(');
                self.put(b')');
            }
            _ => self.put(b'*'),
        }
    }

    // The first term, in brackets where its rank is over `rank`.
    #[cycle(part_places_quorum)]
    fn part(&mut self, rank: u8)
        requires { length self.old.written + length (flat (within rank (term_in self.old.codes))) ≤ 192 }
        ensures { self.new ≡ wrote self.old (after_term self.old.codes) (flat (within rank (term_in self.old.codes))) }
    {
        let Some((code, rest)) = self.codes.split_first() else {
            self.put(b'*');
            return;
        };
        self.codes = rest;
        match mark_of(*code) {
            Mark::Whole(c) => self.put(c),
            Mark::Sign(c) => {
                self.part(0);
                self.put(c);
            }
            Mark::Between(joiner) => {
                let own = joiner.rank();
                self.bracket(b'(', own, rank);
                self.part(own);
                self.put(joiner.mark());
                // A list of the same joiner on the right is in brackets.
                self.part(own - 1);
                self.bracket(b')', own, rank);
            }
            Mark::Quorum => self.quorum(),
        }
    }
}

// Takes n, a term and a buffer of 256 bytes, for its text, and gives how many they are. Later bytes keep their content, and a refused call leaves all.
pub fn write_term(n: u64, term: &[u8], text: &mut [u8]) -> Result<usize, Refusal>
    ensures { outcome_of result text.new ≡ write_term n term.now text.old }
{
    if !(1..=12).contains(&n) {
        return Err(Refusal::Names);
    }
    let size = text.len();
    if size != 256 {
        return Err(Refusal::TextLength);
    }
    terms::read_term(term, n).map_err(Refusal::Term)?;
    let mut writer = Writer::new(term);
    writer.part(2);
    let written = writer.text();
    let count = written.len();
    text[..count].copy_from_slice(written);
    Ok(count)
}
