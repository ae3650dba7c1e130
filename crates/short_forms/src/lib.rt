// Short forms: a term's minimal coalitions on each side (document 01, "Short form").
#![tactic(auto)]

ghost use Rattle.std.specs.Prelude.{◌≡◌, ◌+◌, ◌*◌, ◌≤◌, ◌<◌, length};
ghost use Rattle.model.specs.Bytes.{big_endian};
ghost use Rattle.model.specs.Coalitions.{packed};
ghost use Rattle.model.specs.Terms.{held};
ghost use Rattle.model.specs.ShortForms.{pairs, short_form, shorten};
ghost use Rattle.refusals.specs.Results.{outcome_of};
ghost use Rattle.words.specs.AnyBytes.{term_in};
ghost use Rattle.words.specs.Evaluation.{word_count};
ghost use Rattle.short_forms.specs.Listings.{marked, marked_without, irredundant, bits_of, listing, FrontWritten};

use refusals::Refusal;
use words::Tables;

// The coalitions of word w that have name i as a member and are marked without it. Without a name below 6 a coalition stands 2^i
// bits down in its word, without another 2^(i - 6) words down.
fn less_word(marks: &[u64], i: u64, w: u64) -> u64
    requires { (i < 12) × (w < length marks.now) }
    ensures { result ≡ packed (marked_without i (marked marks.now)) (64 * w) 64 }
{
    let place = w as usize;
    if i < 6 {
        let having = words::name_word(i as u8, w);
        let up: u64 = 1 << i;
        (marks[place] << up) & having
    } else if (w >> (i - 6)) % 2 == 1 {
        let down: usize = 1 << (i - 6);
        marks[place - down]
    } else {
        0
    }
}

// The minimal coalitions of word w. A term is monotone in the coalition, so that one member less is all there is to try.
// Kept: that n is 12 at most stands in three contracts, here and below: a type for it would be made once and taken apart at once.
fn minimal_word(marks: &[u64], n: u64, w: u64) -> u64
    requires { (n ≤ 12) × (w < length marks.now) }
    ensures { result ≡ packed (irredundant n (marked marks.now)) (64 * w) 64 }
{
    let mut found = marks[w as usize];
    for i in 0..n {
        if found == 0 {
            return 0;
        }
        found &= !less_word(marks, i, w);
    }
    found
}

// A two-byte field, big-endian, at the front of the buffer.
fn put(buffer: &mut [u8], x: usize)
    requires { (2 ≤ length buffer.old) × (x < 65536) }
    ensures { FrontWritten (big_endian x) buffer.old buffer.new 2 }
{
    buffer[..2].copy_from_slice(&(x as u16).to_be_bytes());
}

// Writes coalition first + j for each bit j of the word, ascending. The result is the number of bytes.
fn list_word(word: u64, first: usize, buffer: &mut [u8]) -> usize
    requires { (first + 64 ≤ 65536) × (2 * length (bits_of word first) ≤ length buffer.old) }
    ensures { FrontWritten (pairs (bits_of word first)) buffer.old buffer.new result }
{
    let mut rest = word;
    let mut c = first;
    let mut at: usize = 0;
    // Kept: a `for` over the 64 places would step over the clear bits too, and need a test: it is no plainer.
    while rest != 0 {
        let skip = words::lowest(rest);
        rest = rest >> skip >> 1;
        c += skip as usize;
        put(&mut buffer[at..], c);
        at += 2;
        c += 1;
    }
    at
}

// Writes one side to the front of the buffer: its minimal coalitions, and then, before them, how many they are. The mask takes
// away the bits of word 0 that are no coalition of fewer than six names. It asks that there is room for them: a table of marks that no
// term has can list coalitions that lie inside one another, more than a largest layer has.
fn list_side(marks: &[u64], n: u64, buffer: &mut [u8]) -> usize
    requires { (n ≤ 12) × (word_count n ≤ length marks.now) × (length (listing n (irredundant n (marked marks.now))) ≤ length buffer.old) }
    ensures { FrontWritten (listing n (irredundant n (marked marks.now))) buffer.old buffer.new result }
{
    let count = words::word_count(n);
    let mut at: usize = 2;
    for w in 0..count {
        let word = words::low_mask(n, w) & minimal_word(marks, n, w);
        at += list_word(word, 64 * (w as usize), &mut buffer[at..]);
    }
    put(buffer, (at - 2) / 2);
    at
}

// Writes the short form of the term that the bytes stand for, see side then change side. The result is the length. The term is
// evaluated once: a table of marks for each side, 64 coalitions a word.
fn write(n: u64, term: &[u8], buffer: &mut [u8]) -> usize
    requires { (n ≤ 12) × (3700 ≤ length buffer.old) }
    ensures { FrontWritten (short_form n (held (term_in term.now))) buffer.old buffer.new result }
{
    let mut tables = Tables {
        see: [0; 64],
        change: [0; 64],
    };
    words::evaluate(term, n, &mut tables);
    let first = list_side(&tables.see, n, buffer);
    let second = list_side(&tables.change, n, &mut buffer[first..]);
    first + second
}

// Takes n, a term and a buffer of at least 3,700 bytes, and gives the length. Later bytes keep their content, and a refused call leaves all.
pub fn short_form(n: u64, term: &[u8], buffer: &mut [u8]) -> Result<usize, Refusal>
    ensures { outcome_of result buffer.new ≡ shorten n term.now buffer.old }
{
    if !(1..=12).contains(&n) {
        return Err(Refusal::Names);
    }
    if buffer.len() < 3700 {
        return Err(Refusal::Room);
    }
    terms::read_term(term, n).map_err(Refusal::Term)?;
    Ok(write(n, term, buffer))
}
