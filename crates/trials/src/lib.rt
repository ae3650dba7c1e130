// Calls for tests alone, which `trials_c` exports to C and the C library does not have. Each asks nothing of its caller, calls one proved function, and gives
// its answer as one number, as the calls of `rights` do.
#![tactic(auto)]

pub mod live_calls;

ghost use Rattle.std.specs.Prelude.{◌≡◌, ◌≤◌, IfOk};
ghost use Rattle.model.specs.Answers.{number};
ghost use Rattle.model.specs.Dates.{add_days};
ghost use Rattle.model.specs.Notation.{read_text, write_term};
ghost use Rattle.words.specs.FourWords.{side_of};
ghost use Rattle.trials.specs.Figures.{sum_number, tested_reading, test_on, side_numbered, test_number};

use refusals::Refusal;
use soundness::{Chosen, Tested};
use words::Side;

// Reads a text to codes in a job of n names.
// Kept: a crate is a library or an archive for C, so that a call stands in both, and C has a name for each.
pub fn trials_read_text(n: u64, text: &[u8], codes: &mut [u8]) -> u32
    ensures answered { result ≡ number (read_text n text.now codes.old).answer }
    ensures written { codes.new ≡ (read_text n text.now codes.old).buffer }
{
    rights::written_number(notation::read_text(n, text, codes))
}

// Writes a term of a job of n names as a text.
pub fn trials_write_term(n: u64, term: &[u8], text: &mut [u8]) -> u32
    ensures answered { result ≡ number (write_term n term.now text.old).answer }
    ensures written { text.new ≡ (write_term n term.now text.old).buffer }
{
    rights::written_number(writing::write_term(n, term, text))
}

// Adds 0 to 366 days to a date: the number is the date, which no refusal's number is.
pub fn trials_add_days(date: u32, count: u32) -> u32
    ensures { result ≡ sum_number (add_days date count) }
{
    match dates::add_days(date, count) {
        Ok(date) => date,
        Err(why) => rights::refused_number(why),
    }
}

// The side that a number stands for: 0 is see, any other change.
// Kept: C gives a number.
fn numbered_side(side: u32) -> Side
    ensures { side_of result ≡ side_numbered side }
{
    if side == 0 { Side::See } else { Side::Change }
}

// The test of a coalition on a side: the day's refusal, then those of the ledger and of the label.
// Kept: C lends ledger, label and day one by one, and they go on as they came.
fn test_on(
    ledger: &[u8],
    label: &[u8],
    day: u32,
    side: Side,
    coalition: u64,
) -> Result<Tested, Refusal>
    ensures said { tested_reading result ≡ test_on ledger.now label.now day (side_of side) coalition }
    ensures few { IfOk result (λ t. t.tested ≤ 64) }
{
    if !dates::real_date(day) {
        return Err(Refusal::NotReal);
    }
    let chosen = Chosen::counting(ledger, label, day)?;
    Ok(chosen.test_coalition(side, coalition))
}

// Sound is kind 0 and broken kind 1; the figure is how many grants were tested.
#[tactic(auto, unfolding(model::specs::Answers::number))]
fn test_number(tested: Result<Tested, Refusal>) -> u32
    requires { IfOk tested (λ t. t.tested ≤ 64) }
    ensures { result ≡ test_number (tested_reading tested) }
{
    match tested {
        Ok(tested) => {
            if tested.sound {
                tested.tested as u32
            } else {
                rights::NO + tested.tested as u32
            }
        }
        Err(why) => rights::refused_number(why),
    }
}

// Tests a coalition on a side against the grants that count under a label on a day.
pub fn trials_test_coalition(
    ledger: &[u8],
    label: &[u8],
    day: u32,
    side: u32,
    coalition: u32,
) -> u32
    ensures { result ≡ test_number (test_on ledger.now label.now day (side_numbered side) coalition) }
{
    test_number(test_on(ledger, label, day, numbered_side(side), coalition as u64))
}
