// Reads terms: one byte for each code, operator first (document 01, "Terms").
#![tactic(auto)]

ghost use Rattle.std.specs.Prelude.{◌≡◌, true, ◌+◌};
ghost use Rattle.model.specs.Readings.{accepted};
ghost use Rattle.model.specs.Terms.{quorate, code_of, read_term};
ghost use Rattle.refusals.specs.Results.{term_reading, done};
ghost use Rattle.model.specs.Texts.{joiner, join_rank};
ghost use Rattle.terms.specs.Joiners.{kind, joiner_code, joiner_at};
ghost use Rattle.terms.specs.Readings.{shape_of, part_at};

use refusals::TermRefusal;

// What joins two parts: both are held, or either.
#[derive(Clone, Copy, Debug, PartialEq, Eq)]
pub enum Joiner {
    Both,
    Either,
}

impl Joiner {
    // The joiner whose code this is, if it is one's.
    // Kept: an Option, where `TryFrom` would need an error with nothing to say.
    pub fn of(code: u8) -> Option<Joiner>
        ensures { result ≡ joiner_at code }
    {
        // Kept: as a match, or as one test after another, the compiler joins these codes with the others of the callers into one jump table, which is slower.
        if code == 0x30 || code == 0x31 {
            Some(if code == 0x30 {
                Joiner::Both
            } else {
                Joiner::Either
            })
        } else {
            None
        }
    }

    // Kept: by this name, here and below, a reader sees what the byte is, as `From` would not say.
    pub fn code(self) -> u8
        ensures { result ≡ joiner_code self }
    {
        match self {
            Joiner::Both => 0x30,
            Joiner::Either => 0x31,
        }
    }

    // Its character on paper (document 02, K1).
    pub fn mark(self) -> u8
        ensures { result ≡ joiner (kind self) }
    {
        match self {
            Joiner::Both => b'&',
            Joiner::Either => b'|',
        }
    }

    // The rank of what it joins, on paper: that of its left part at most, and over that of its right.
    pub fn rank(self) -> u8
        ensures { result ≡ join_rank (kind self) }
    {
        match self {
            Joiner::Both => 1,
            Joiner::Either => 2,
        }
    }
}

// How many parts a code asks for.
#[derive(Clone, Copy, Debug, PartialEq, Eq)]
enum Shape {
    // A name below n, the strongest party or the weakest.
    Whole,
    One,
    Two,
    // A quorum, which has any number; or no code, or a name not below n.
    Other,
}

// Kept: an enum of all codes would be made of the byte as here, and then taken apart for its shape.
#[tactic(auto, unfolding(model::specs::Terms::code_of))]
fn shape_of(code: u8, n: u64) -> Shape
    ensures { result ≡ shape_of (code_of n code) }
{
    match code {
        0x20 | 0x21 => Shape::Whole,
        0x30 | 0x31 => Shape::Two,
        0x40 | 0x41 => Shape::One,
        0..=11 if (code as u64) < n => Shape::Whole,
        _ => Shape::Other,
    }
}

// The part that starts at `at` is a single code.
// Kept: codes and a place, here and below: tried with the codes left in their stead, by slice patterns, and slower (docs/DECISIONS.md, "The design pass").
#[tactic(auto, using(crate::proofs::Places::part_whole))]
fn single(codes: &[u8], at: usize, n: u64) -> bool
    ensures { result ≡ true → part_at codes.now at n ≡ accepted (at + 1) }
{
    at < codes.len() && matches!(shape_of(codes[at], n), Shape::Whole)
}

// Reads the part that starts at `at`, and gives the place of the first code after it. It ends where its last part ends, so the loop goes on to that one.
// A first part of a single code is passed in place; any other is read by a call.
#[cycle(read_part_read_quorum)]
fn read_part(codes: &[u8], at: usize, n: u64) -> Result<usize, TermRefusal>
    ensures { term_reading result ≡ part_at codes.now at n }
{
    let mut here = at;
    // Kept: the place goes on by one code or past a whole part, as the code there says.
    while here < codes.len() {
        match shape_of(codes[here], n) {
            Shape::Whole => return Ok(here + 1),
            Shape::One => here += 1,
            Shape::Two => {
                if single(codes, here + 1, n) {
                    here += 2;
                } else {
                    here = read_part(codes, here + 1, n)?;
                }
            }
            Shape::Other => return read_quorum(codes, here, n),
        }
    }
    Err(TermRefusal::EndsEarly)
}

// A quorum can be of k of m parts.
pub fn in_range(k: u8, m: u8) -> bool
    ensures { result ≡ quorate k m }
{
    (1..=m).contains(&k) && m <= 12
}

// Reads the part that starts at `at`, where it is a quorum by its k, its m and m parts. It calls itself on the parts, and not `read_part`, so that the compiler
// keeps it out of `read_part`, whose loop then tells codes apart as fast as without quorums.
#[cycle(read_part_read_quorum)]
fn read_quorum(codes: &[u8], at: usize, n: u64) -> Result<usize, TermRefusal>
    ensures { term_reading result ≡ part_at codes.now at n }
{
    if codes.len() <= at {
        return Err(TermRefusal::EndsEarly);
    }
    let Shape::Other = shape_of(codes[at], n) else {
        return read_part(codes, at, n);
    };
    if codes[at] != 0x32 {
        return Err(TermRefusal::NoCode);
    }
    if codes.len() - at < 3 {
        return Err(TermRefusal::EndsEarly);
    }
    let parts = codes[at + 2];
    if !in_range(codes[at + 1], parts) {
        return Err(TermRefusal::NoCode);
    }
    let mut next = at + 3;
    for _ in 0..parts {
        next = read_quorum(codes, next, n)?;
    }
    Ok(next)
}

// Reads a term of a job of n names.
pub fn read_term(codes: &[u8], n: u64) -> Result<(), TermRefusal>
    ensures { term_reading result ≡ done (read_term n codes.now) }
{
    if codes.is_empty() || 64 < codes.len() {
        return Err(TermRefusal::Length);
    }
    if read_part(codes, 0, n)? < codes.len() {
        return Err(TermRefusal::CodesLeft);
    }
    Ok(())
}
