// The test program: document 01's cases K and L, and R, calls with random ledgers and the results of another implementation,
// from the file `calls` (tests/make_cases.c writes it and says how it is laid out). It prints a line for each case.
#![tactic(auto)]

ghost use Rattle.std.specs.Prelude.{◌≡◌, true, ◌++◌, ◌+◌, ◌-◌, ◌^◌, ◌≤◌, ◌<◌, length, replicate, IfSome};
ghost use Rattle.model.specs.Bytes.{field};
ghost use Rattle.cases.specs.Records.{eight_bytes, input_length, input_start, Within};

use fields::{four_bytes, two_bytes};
use std::io::Read;
use std::rt::Files;
use std::{fs, io};
use trials::live_calls;

// Kind 2 of an answer, refused, without its figure.
// Kept: the cases give document 01's numbers themselves, here and below, and take none from the engine.
const REFUSED: u32 = 131072;

// What a buffer holds before a call of K or L.
const BEFORE: u8 = 0xa5;

// The day on which K and L are asked.
const DAY: u32 = 20240131;

// A term that every number of names reads.
const GOOD: [u8; 1] = [0x21];

// An eight-byte field, big-endian.
// Kept: as two fields of four bytes, so that a byte that is missing counts as 00 here too.
fn eight_bytes(bytes: &[u8], at: usize) -> u64
    requires { at + 4 < 2 ^ 64 }
    ensures { result ≡ eight_bytes at bytes.now }
{
    four_bytes(bytes, at) as u64 * 4294967296 + four_bytes(bytes, at + 4) as u64
}

// Buffers.

// Every byte is b.
fn is_filled(bytes: &[u8], b: u8) -> bool
    ensures { result ≡ true → bytes.now ≡ replicate (length bytes.now) b }
{
    bytes.iter().all(|x| *x == b)
}

// The buffer starts with the expected bytes, and behind them every byte is b.
fn is_written(buffer: &[u8], expected: &[u8], b: u8) -> bool
    ensures { result ≡ true → buffer.now ≡ expected.now ++ replicate (length buffer.now - length expected.now) b }
{
    buffer
        .strip_prefix(expected)
        .is_some_and(|rest| is_filled(rest, b))
}

// Case K.

// With n 2, the term's short form is the expected bytes.
fn has_short_form(term: &[u8], expected: &[u8]) -> bool {
    let mut buffer = [BEFORE; 3712];
    let number = rights::rights_short_form(2, term, &mut buffer);
    number as usize == expected.len() && is_written(&buffer, expected, BEFORE)
}

// The buffer of document 02, K12: the room for every short form of twelve names; with one byte less even one name gets 8.
fn has_room() -> bool {
    let mut enough = [BEFORE; 3700];
    let mut less = [BEFORE; 3699];
    sperner::room(12) == 3700
        && rights::rights_short_form(12, &GOOD, &mut enough) == 8
        && rights::rights_short_form(1, &GOOD, &mut less) == REFUSED + 8
        && is_filled(&less, BEFORE)
}

fn case_k() -> bool {
    has_short_form(&[0x31, 0x00, 0x30, 0x00, 0x01], &[0, 1, 0, 1, 0, 1, 0, 1])
        && has_short_form(&[0x20], &[0, 0, 0, 0])
        && has_room()
}

// Case L.

// The Plain ledger: n 2, no grants.
fn plain() -> [u8; 512] {
    let mut ledger = [0u8; 512];
    ledger[0] = 1;
    ledger[1] = 2;
    ledger[511] = 5;
    ledger
}

// Each call that takes a term accepts this one.
fn term_passes(term: &[u8]) -> bool {
    let ledger = plain();
    let mut table = [BEFORE; 1024];
    rights::rights_acts_for(&ledger, term, term, term, DAY) == 0
        && rights::rights_flows_to(&ledger, term, term, term, DAY) == 0
        && rights::rights_extract(&ledger, term, DAY, &mut table) == 0
}

// The question refuses the term, as p, as q and as the label.
fn question_refuses<F: Fn(&[u8], &[u8], &[u8], &[u8], u32) -> u32>(
    ask: F,
    term: &[u8],
    refusal: u8,
) -> bool
    requires { F.IsAlwaysCallable ask }
{
    let ledger = plain();
    let number = REFUSED + refusal as u32;
    ask(&ledger, term, &GOOD, &GOOD, DAY) == number + 20
        && ask(&ledger, &GOOD, term, &GOOD, DAY) == number + 30
        && ask(&ledger, &GOOD, &GOOD, term, DAY) == number + 40
}

// A short form of the term, an extract and a derivation under it are refused, and no buffer changes.
fn others_refuse(term: &[u8], refusal: u8) -> bool {
    let ledger = plain();
    let number = REFUSED + refusal as u32;
    let mut buffer = [BEFORE; 3700];
    let mut table = [BEFORE; 1024];
    rights::rights_short_form(2, term, &mut buffer) == number
        && rights::rights_extract(&ledger, term, DAY, &mut table) == number + 40
        && rights::rights_check_derivation(term, &ledger, term, DAY) == number + 40
        && is_filled(&buffer, BEFORE)
        && is_filled(&table, BEFORE)
}

// Each call that takes a term refuses this one, with the term's number.
fn term_refused(term: &[u8], refusal: u8) -> bool {
    question_refuses(rights::rights_acts_for, term, refusal)
        && question_refuses(rights::rights_flows_to, term, refusal)
        && others_refuse(term, refusal)
}

// Each call that takes a ledger refuses this one for its length.
fn length_refused(ledger: &[u8]) -> bool {
    let number = REFUSED + 10;
    let mut table = [BEFORE; 1024];
    rights::rights_acts_for(ledger, &GOOD, &GOOD, &GOOD, DAY) == number
        && rights::rights_flows_to(ledger, &GOOD, &GOOD, &GOOD, DAY) == number
        && rights::rights_extract(ledger, &GOOD, DAY, &mut table) == number
        && rights::rights_check_derivation(&GOOD, ledger, &GOOD, DAY) == number
        && is_filled(&table, BEFORE)
}

// 64 codes, 63 of 40 and then 00, pass; 65 give 1.
fn lengths_of_terms() -> bool {
    let mut term = [0x40u8; 65];
    term[64] = 0;
    let longest = &term[1..];
    has_short_form(longest, &[0, 1, 0, 1, 0, 1, 0, 0])
        && term_passes(longest)
        && term_refused(&term, 1)
}

// Lengths 0, 513 and 33,792 give 10.
fn lengths_of_ledgers() -> bool {
    let ledger = [0u8; 33792];
    length_refused(&[]) && length_refused(&ledger[..513]) && length_refused(&ledger)
}

fn case_l() -> bool {
    lengths_of_terms()
        && term_refused(&[0x02], 2)
        && term_refused(&[0x30, 0x00], 3)
        && term_refused(&[0x00, 0x00], 4)
        && lengths_of_ledgers()
}

// Case R: unpacking a record.

// How many packed bytes a run has, and how many bytes it stands for.
#[derive(Clone, Copy)]
struct Run {
    packed: usize,
    size: usize,
}

// Unpacks the first of the runs to the start of `to`: none where it is cut off, or where there is no room for what it stands for.
fn unpack_run(runs: &[u8], to: &mut [u8]) -> Option<Run>
    ensures { IfSome result (λ run. Within run (length runs.now) (length to.old)) }
{
    let (plain, rest) = runs.split_first()?;
    let (plain, zeros) = rest.split_at_checked(*plain as usize)?;
    if zeros.len() < 2 {
        return None;
    }
    let size = plain.len() + two_bytes(zeros, 0) as usize;
    let to = to.get_mut(..size)?;
    to[..plain.len()].copy_from_slice(plain);
    to[plain.len()..].fill(0);
    Some(Run {
        packed: plain.len() + 3,
        size,
    })
}

// Unpacks all runs, and gives how many bytes they stand for: none where a run is broken.
fn unpack(packed: &[u8], to: &mut [u8]) -> Option<usize>
    ensures { IfSome result (λ made. made ≤ length to.old) }
{
    let mut rest = packed;
    let mut made: usize = 0;
    // Kept: a run tells how long it is only once it is read, so what goes on is what is left of the bytes.
    while !rest.is_empty() {
        let run = unpack_run(rest, &mut to[made..])?;
        rest = &rest[run.packed..];
        made += run.size;
    }
    Some(made)
}

// Case R: the parts of a record, and the call.

// The inputs of a record, in their order. P is also a term, a text, or a list's calls.
// Kept: numbers, since the inputs stand one after another and are counted.
const LEDGER: usize = 0;

const P: usize = 1;

const Q: usize = 2;

const LABEL: usize = 3;

const DERIVATION: usize = 4;

// The length of input k.
fn input_length(unpacked: &[u8], k: usize) -> u32
    requires { k < 5 }
    ensures { result ≡ input_length k unpacked.now }
{
    four_bytes(unpacked, 12 + 4 * k)
}

// Where input k starts. What the buffer is expected to start with stands behind input 4.
fn input_start(unpacked: &[u8], k: usize) -> usize
    requires { k ≤ 5 }
    ensures value { result ≡ input_start k unpacked.now }
    ensures least { 52 ≤ result }
{
    // Kept: tried as a `sum` of the lengths: neither its bound nor its equation closed.
    let mut at: usize = 52;
    for i in 0..k {
        at += input_length(unpacked, i) as usize;
    }
    at
}

// Input k of a record.
fn input(unpacked: &[u8], k: usize) -> &[u8]
    requires { k < 5 }
    ensures { result.now ≡ field (input_start k unpacked.now) (input_length k unpacked.now) unpacked.now }
{
    fields::part(
        unpacked,
        input_start(unpacked, k),
        input_length(unpacked, k) as usize,
    )
}

// What a record asks for.
#[derive(Clone, Copy)]
enum Operation {
    Call(Call),
    Quoting,
    // A list of calls on a live ledger.
    List,
}

// A call that gives a number and may write to a buffer.
#[derive(Clone, Copy)]
enum Call {
    ActsFor,
    FlowsTo,
    Extract,
    ShortForm,
    Derivation,
    ReadText,
    WriteTerm,
    AddDays,
    TestCoalition,
}

impl Operation {
    // The operation of that number in the file: none, where there is none.
    // Kept: an Option, where `TryFrom` would need an error with nothing to say.
    fn of(number: u32) -> Option<Self> {
        Some(match number {
            0 => Operation::Call(Call::ActsFor),
            1 => Operation::Call(Call::FlowsTo),
            2 => Operation::Call(Call::Extract),
            3 => Operation::Call(Call::ShortForm),
            4 => Operation::Call(Call::Derivation),
            5 => Operation::Quoting,
            6 => Operation::Call(Call::ReadText),
            7 => Operation::Call(Call::WriteTerm),
            8 => Operation::Call(Call::AddDays),
            9 => Operation::Call(Call::TestCoalition),
            10 => Operation::List,
            _ => return None,
        })
    }
}

impl Call {
    // The number that the engine gives. What a call doesn't take is empty.
    // Kept: each number of a record is asked where it stands, here and below: a struct of them would be filled from the same places.
    fn number(self, unpacked: &[u8], buffer: &mut [u8]) -> u32 {
        let ledger = input(unpacked, LEDGER);
        let p = input(unpacked, P);
        let q = input(unpacked, Q);
        let label = input(unpacked, LABEL);
        let derivation = input(unpacked, DERIVATION);
        let names = eight_bytes(unpacked, 4);
        let first = four_bytes(unpacked, 4);
        let second = four_bytes(unpacked, 8);
        let day = four_bytes(unpacked, 48);
        match self {
            Call::ActsFor => rights::rights_acts_for(ledger, p, q, label, day),
            Call::FlowsTo => rights::rights_flows_to(ledger, p, q, label, day),
            Call::Extract => rights::rights_extract(ledger, label, day, buffer),
            Call::ShortForm => rights::rights_short_form(names, p, buffer),
            Call::Derivation => rights::rights_check_derivation(derivation, ledger, label, day),
            Call::ReadText => trials::trials_read_text(names, p, buffer),
            Call::WriteTerm => trials::trials_write_term(names, p, buffer),
            Call::AddDays => trials::trials_add_days(day, second),
            Call::TestCoalition => trials::trials_test_coalition(ledger, label, day, first, second),
        }
    }
}

// The engine gives the expected number, and the buffer is afterwards as expected.
fn call_agrees(asked: Call, unpacked: &[u8], expected: &[u8], space: &mut [u8]) -> bool {
    let room = four_bytes(unpacked, 32) as usize;
    let Some(buffer) = space.get_mut(..room) else {
        return false;
    };
    let Ok(before) = u8::try_from(four_bytes(unpacked, 36)) else {
        return false;
    };
    if expected.len() != four_bytes(unpacked, 44) as usize {
        return false;
    }
    buffer.fill(before);
    asked.number(unpacked, buffer) == four_bytes(unpacked, 40)
        && is_written(buffer, expected, before)
}

// The engine quotes the expected part of the ledger.
fn quote_agrees(unpacked: &[u8]) -> bool {
    let ledger = input(unpacked, LEDGER);
    let label = input(unpacked, LABEL);
    let derivation = input(unpacked, DERIVATION);
    let day = four_bytes(unpacked, 48);
    let quoted = derivations::quote(derivation, ledger, label, day, eight_bytes(unpacked, 4));
    let start = four_bytes(unpacked, 40) as usize;
    let end = start + four_bytes(unpacked, 44) as usize;
    end <= ledger.len() && quoted == &ledger[start..end]
}

// Case R: a list of calls on a live ledger.

// What a live ledger is kept in.
#[derive(Drop)]
struct Held {
    head: [u64; 4],
    text: [u8; 64],
    ledger: [u8; 33280],
    numbers: [u64; 896],
}

impl Held {
    // Makes the first of the calls, and gives those after it: none where it is cut off or the engine gives another number.
    fn first_agrees<'a>(&mut self, calls: &'a [u8]) -> Option<&'a [u8]>
        ensures { IfSome result (λ rest. length rest.now < length calls.now) }
    {
        let (asked, rest) = calls.split_at_checked(21)?;
        let (first, rest) = rest.split_at_checked(two_bytes(asked, 17) as usize)?;
        let (second, rest) = rest.split_at_checked(two_bytes(asked, 19) as usize)?;
        let number = eight_bytes(asked, 5);
        let day = four_bytes(asked, 13);
        let Held {
            head,
            text,
            ledger,
            numbers,
        } = self;
        // Kept: the byte says which call it is, and is asked here alone.
        let given = match asked[0] {
            0 => live_calls::trials_live_make(number, first, day, head, text, ledger, numbers),
            1 => live_calls::trials_live_add(head, text, ledger, numbers, first),
            2 => live_calls::trials_live_withdraw(head, text, ledger, numbers, number),
            3 => live_calls::trials_live_acts_for(head, text, numbers, first, second),
            4 => live_calls::trials_live_flows_to(head, text, numbers, first, second),
            _ => return None,
        };
        (given == four_bytes(asked, 1)).then_some(rest)
    }

    // Makes all calls, each on what those before it left.
    fn calls_agree(&mut self, calls: &[u8]) -> bool {
        let mut rest = calls;
        // Kept: a call tells how long it is only once it is read.
        while !rest.is_empty() {
            let Some(later) = self.first_agrees(rest) else {
                return false;
            };
            rest = later;
        }
        true
    }
}

// A check sum with one value more.
fn sum_with(sum: u64, value: u64) -> u64
    ensures { result < 1000000007 }
{
    (257 * (sum % 1000000007) + value % 1000000007) % 1000000007
}

// The engine gives the expected numbers, and leaves a ledger and stored numbers with the expected check sums.
fn list_agrees(calls: &[u8], expected: &[u8]) -> bool {
    let mut held = Held {
        head: [0; 4],
        text: [0; 64],
        ledger: [0; 33280],
        numbers: [0; 896],
    };
    if expected.len() != 8 || !held.calls_agree(calls) {
        return false;
    }
    let of_ledger = held
        .ledger
        .iter()
        .fold(0, |sum, byte| sum_with(sum, *byte as u64));
    let of_numbers = held
        .numbers
        .iter()
        .fold(0, |sum, word| sum_with(sum, *word));
    of_ledger == four_bytes(expected, 0) as u64 && of_numbers == four_bytes(expected, 4) as u64
}

// The record is whole, and the engine's result is the expected one.
fn agrees(unpacked: &[u8], space: &mut [u8]) -> bool {
    let Some(expected) = unpacked.get(input_start(unpacked, 5)..) else {
        return false;
    };
    match Operation::of(four_bytes(unpacked, 0)) {
        Some(Operation::Call(asked)) => call_agrees(asked, unpacked, expected, space),
        Some(Operation::Quoting) => expected.is_empty() && quote_agrees(unpacked),
        Some(Operation::List) => list_agrees(input(unpacked, P), expected),
        None => false,
    }
}

// Case R: the file.

// Room for a record, packed and unpacked, and for its call's buffer.
#[derive(Drop)]
struct Room {
    packed: [u8; 65536],
    unpacked: [u8; 65536],
    space: [u8; 65536],
}

// Reads until the part is full or the file ends, and gives how many bytes came.
fn read_full<R: Read>(reader: &mut R, part: &mut [u8]) -> io::Result<usize> {
    let mut got: usize = 0;
    // Kept: a read gives as many bytes as it likes.
    while got < part.len() {
        let more = reader.read(&mut part[got..])?;
        if more == 0 {
            return Ok(got);
        }
        got += more;
    }
    Ok(got)
}

// What comparing the next record gives.
#[derive(Clone, Copy)]
enum Compared {
    Same,
    Differs,
    // The file is at its end.
    Ended,
}

// Reads on at the end of the last record, where nothing may come.
fn at_end<R: Read>(reader: &mut R) -> io::Result<Compared> {
    let mut byte = [0u8; 1];
    match reader.read(&mut byte)? {
        0 => Ok(Compared::Ended),
        _ => Ok(Compared::Differs),
    }
}

// Reads the next record and compares.
fn compare_next<R: Read>(reader: &mut R, room: &mut Room) -> io::Result<Compared> {
    let Room {
        packed,
        unpacked,
        space,
    } = room;
    let mut head = [0u8; 4];
    let got = read_full(reader, &mut head)?;
    if got == 0 {
        return at_end(reader);
    }
    let Some(packed) = packed.get_mut(..four_bytes(&head, 0) as usize) else {
        return Ok(Compared::Differs);
    };
    if got < 4 || read_full(reader, packed)? < packed.len() {
        return Ok(Compared::Differs);
    }
    let Some(len) = unpack(packed, unpacked) else {
        return Ok(Compared::Differs);
    };
    if agrees(&unpacked[..len], space) {
        Ok(Compared::Same)
    } else {
        Ok(Compared::Differs)
    }
}

// Says on standard error which record differs, counted from 0.
fn name_record(rt: &impl Eprint, k: u64) -> io::Result<()> {
    eprintln!(rt; "calls: record {k}")
}

// Compares all records. At least 2,000 are asked; the file has room for fewer than a million.
fn compare_all<R: Read>(rt: &impl Eprint, reader: &mut R, room: &mut Room) -> io::Result<bool> {
    for k in 0..1000000u64 {
        match compare_next(reader, room)? {
            Compared::Same => {}
            Compared::Differs => {
                name_record(rt, k)?;
                return Ok(false);
            }
            Compared::Ended => return Ok(2000 <= k),
        }
    }
    Ok(false)
}

fn case_r(rt: &(impl Files + Eprint)) -> io::Result<bool> {
    let mut room = Room {
        packed: [0; 65536],
        unpacked: [0; 65536],
        space: [0; 65536],
    };
    let Ok(mut calls) = fs::open(rt, "calls") else {
        return Ok(false);
    };
    compare_all(rt, &mut calls, &mut room)
}

fn print(rt: &impl Print, letter: char, same: bool) -> io::Result<()> {
    if same {
        println!(rt; "{letter} same")
    } else {
        println!(rt; "{letter} differs")
    }
}

fn main(rt: HostRuntime) -> io::Result<()> {
    print(&rt, 'K', case_k())?;
    print(&rt, 'L', case_l())?;
    print(&rt, 'R', case_r(&rt)?)
}
