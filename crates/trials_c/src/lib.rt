// Exports for tests alone: each calls the function of `trials` that has its name, and promises the same.
#![tactic(auto)]

pub mod live_calls;

ghost use Rattle.std.specs.Prelude.{◌≡◌};
ghost use Rattle.model.specs.Answers.{number};
ghost use Rattle.model.specs.Dates.{add_days};
ghost use Rattle.model.specs.Notation.{read_text, write_term};
ghost use Rattle.trials.specs.Figures.{sum_number, test_on, side_numbered, test_number};

// Reads a text to codes in a job of n names.
// Kept: a crate is a library or an archive for C, so that a call stands in both, and C has a name for each.
#[unsafe(no_mangle)]
pub extern "C" fn trials_read_text(n: u64, text: &[u8], codes: &mut [u8]) -> u32
    ensures answered { result ≡ number (read_text n text.now codes.old).answer }
    ensures written { codes.new ≡ (read_text n text.now codes.old).buffer }
{
    trials::trials_read_text(n, text, codes)
}

// Writes a term of a job of n names as a text.
#[unsafe(no_mangle)]
pub extern "C" fn trials_write_term(n: u64, term: &[u8], text: &mut [u8]) -> u32
    ensures answered { result ≡ number (write_term n term.now text.old).answer }
    ensures written { text.new ≡ (write_term n term.now text.old).buffer }
{
    trials::trials_write_term(n, term, text)
}

// Adds 0 to 366 days to a date: the number is the date, which no refusal's number is.
#[unsafe(no_mangle)]
pub extern "C" fn trials_add_days(date: u32, count: u32) -> u32
    ensures { result ≡ sum_number (add_days date count) }
{
    trials::trials_add_days(date, count)
}

// Tests a coalition on a side against the grants that count under a label on a day.
#[unsafe(no_mangle)]
pub extern "C" fn trials_test_coalition(
    ledger: &[u8],
    label: &[u8],
    day: u32,
    side: u32,
    coalition: u32,
) -> u32
    ensures { result ≡ test_number (test_on ledger.now label.now day (side_numbered side) coalition) }
{
    trials::trials_test_coalition(ledger, label, day, side, coalition)
}
