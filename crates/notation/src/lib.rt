// Terms on paper (document 02, K1 and K4): texts are read to codes, from the end to the beginning.
#![tactic(auto)]

ghost use Rattle.std.specs.Prelude.{◌≡◌, ◌+◌, ◌-◌, ◌≤◌, ◌<◌, cond, [], ◌∷◌, eqb, length, drop, reverse, MatchOption};
ghost use Rattle.model.specs.Texts.{join_rank};
ghost use Rattle.model.specs.Notation.{no_number, last_of, ends_in, read_number, opened, read_back, around_back, read_text};
ghost use Rattle.refusals.specs.Results.{outcome_of};
ghost use Rattle.terms.specs.Joiners.{kind};
ghost use Rattle.notation.specs.Reading.{ending_of, State, state, past, NumberRead, Read, ReadBefore};

use refusals::Refusal;
use std::marker::Model;
use terms::Joiner;

// What a character is as the last of an atom.
#[derive(Clone, Copy, Debug, PartialEq, Eq)]
enum Ending {
    // A name below n, * or _: its code.
    Sole(u8),
    // > or <: its code.
    Sign(u8),
    Closing,
    Other,
}

#[tactic(auto, using(crate::proofs::Places::last_plain))]
fn ending_of(c: u8, n: u64) -> Ending
    ensures { result ≡ ending_of (last_of n c) }
{
    // Kept: with an enum of all codes in the stead of the bytes, each code would be made here and taken apart where it is put.
    match c {
        b'*' => Ending::Sole(0x20),
        b'_' => Ending::Sole(0x21),
        b'>' => Ending::Sign(0x40),
        b'<' => Ending::Sign(0x41),
        b')' => Ending::Closing,
        b'a'..=b'l' if ((c - b'a') as u64) < n => Ending::Sole(c - b'a'),
        _ => Ending::Other,
    }
}

// A text that is read from its end, in a job of n names: what is left of it, and the codes read so far, at the end of a scratch that has a byte for each
// character of a text.
#[derive(Drop)]
struct Reader<'a> {
    n: u64,
    left: &'a [u8],
    // Kept: no heap: the codes stand in an array as long as the longest text.
    scratch: [u8; 256],
    from: usize,
}

impl<'a> Model for Reader<'a> {
    ghost Value = { State };

    ghost view = { λ r. state r.n (reverse r.left.now) (drop r.from r.scratch) };

    ghost invariant = { λ r. (length r.left.now ≤ r.from) × (r.from ≤ 256) };
}

impl<'a> Reader<'a> {
    fn new(n: u64, text: &'a [u8]) -> Reader<'a>
        requires { length text.now ≤ 256 }
        ensures { result ≡ state n (reverse text.now) [] }
    {
        Reader {
            n,
            left: text,
            scratch: [0; 256],
            from: 256,
        }
    }

    // The codes read so far.
    fn codes(&self) -> &[u8]
        ensures { result.now ≡ self.now.codes }
    {
        &self.scratch[self.from..]
    }

    // All of the text is read.
    fn is_done(&self) -> bool
        ensures { result ≡ eqb (length self.now.left) 0 }
    {
        self.left.is_empty()
    }

    // One code more, before the others.
    fn put(&mut self, code: u8)
        requires { length self.old.left + length self.old.codes < 256 }
        ensures { self.new ≡ state self.old.n self.old.left (code ∷ self.old.codes) }
    {
        self.from -= 1;
        self.scratch[self.from] = code;
    }

    // Passes over the last character, if it is c.
    fn pass(&mut self, c: u8) -> bool
        ensures told { result ≡ ends_in c self.old.left }
        ensures passed { self.new ≡ cond result (past self.old) self.old }
    {
        let Some(left) = self.left.strip_suffix(&[c]) else {
            return false;
        };
        self.left = left;
        true
    }

    // Reads the number that the text ends with: the last digit, and ten more where a 1 stands before it.
    // Kept: it is read from its end, and where it begins is not known, so that there is no part to parse.
    fn number(&mut self) -> Option<u8>
        ensures read { MatchOption result ((read_number self.old.left ≡ no_number) × (self.new ≡ self.old)) (λ k. NumberRead k self.old self.new) }
        ensures room { length self.old.left + length self.old.codes ≤ 256 }
    {
        let (k, left) = match self.left {
            [left @ .., b'1', c @ b'0'..=b'9'] => (10 + (*c - b'0'), left),
            [left @ .., c @ b'0'..=b'9'] => (*c - b'0', left),
            _ => return None,
        };
        self.left = left;
        Some(k)
    }

    // Ends the reading of `many` places, whose codes are the first of those read, and whose opening bracket is passed: where a number stands before it they
    // are those of a quorum, and its code, k and m are put before theirs; otherwise it is one place, a text in brackets.
    fn opening(&mut self, many: usize) -> Option<()>
        ensures { ReadBefore (λ ws. opened ws self.old.left) many self.old self.new result }
    {
        let Some(m) = self.number() else {
            if many == 1 {
                return Some(());
            }
            return None;
        };
        if m as usize != many {
            return None;
        }
        if !self.pass(b':') {
            return None;
        }
        let k = self.number()?;
        if !terms::in_range(k, m) {
            return None;
        }
        self.put(m);
        self.put(k);
        self.put(0x32);
        Some(())
    }

    // Reads the rest of a text in brackets, or of a quorum, of which `many` places are read already: the either-list that the text ends with is one more,
    // and before it stands a comma, or the opening bracket.
    #[cycle(atom_last_part_list_places)]
    fn places(&mut self, many: usize) -> Option<()>
        requires { many + length self.old.left ≤ 256 }
        ensures { ReadBefore (λ ws. around_back self.old.n ws self.old.left) many self.old self.new result }
    {
        self.list(Joiner::Either)?;
        if self.pass(b',') {
            return self.places(many + 1);
        }
        if !self.pass(b'(') {
            return None;
        }
        self.opening(many + 1)
    }

    // Reads the atom that the text ends with.
    #[cycle(atom_last_part_list_places)]
    fn atom(&mut self) -> Option<()>
        ensures { Read (read_back self.old.n 0 self.old.left) self.old self.new result }
    {
        let [left @ .., last] = self.left else {
            return None;
        };
        self.left = left;
        match ending_of(*last, self.n) {
            Ending::Sole(code) => self.put(code),
            Ending::Sign(code) => {
                self.atom()?;
                self.put(code);
            }
            Ending::Closing => return self.places(0),
            Ending::Other => return None,
        }
        Some(())
    }

    // Reads the last part of a list that the text ends with: an atom of a both-list, a both-list of an either-list.
    #[cycle(atom_last_part_list_places)]
    fn last_part(&mut self, joiner: Joiner) -> Option<()>
        ensures { Read (read_back self.old.n (join_rank (kind joiner) - 1) self.old.left) self.old self.new result }
    {
        match joiner {
            Joiner::Both => self.atom(),
            Joiner::Either => self.list(Joiner::Both),
        }
    }

    // Reads the list of the joiner that the text ends with: its last part, and where the joiner stands before that, the list on the left.
    #[cycle(atom_last_part_list_places)]
    fn list(&mut self, joiner: Joiner) -> Option<()>
        ensures { Read (read_back self.old.n (join_rank (kind joiner)) self.old.left) self.old self.new result }
    {
        self.last_part(joiner)?;
        if self.pass(joiner.mark()) {
            self.list(joiner)?;
            self.put(joiner.code());
        }
        Some(())
    }
}

// Takes n, a text and a buffer of 64 bytes, for its codes, and gives how many they are. They are read into a scratch, so that a refused text leaves the
// buffer as it was. Later bytes keep their content.
pub fn read_text(n: u64, text: &[u8], codes: &mut [u8]) -> Result<usize, Refusal>
    ensures { outcome_of result codes.new ≡ read_text n text.now codes.old }
{
    if !(1..=12).contains(&n) {
        return Err(Refusal::Names);
    }
    if !(1..=256).contains(&text.len()) || codes.len() != 64 {
        return Err(Refusal::TextLength);
    }
    let mut reader = Reader::new(n, text);
    reader.list(Joiner::Either).ok_or(Refusal::NoText)?;
    if !reader.is_done() {
        return Err(Refusal::NoText);
    }
    let read = reader.codes();
    let count = read.len();
    if 64 < count {
        return Err(Refusal::TextCodes);
    }
    codes[..count].copy_from_slice(read);
    Ok(count)
}
