// The calls of the C library, which `rights_c` exports: each asks nothing of its caller, calls one proved function, and gives its answer as one number. Before
// them, what makes that number.
#![tactic(auto)]

ghost use Rattle.std.specs.Prelude.{◌≡◌};
ghost use Rattle.model.specs.Answers.{number};
ghost use Rattle.model.specs.Questions.{acts_for, flows_to};
ghost use Rattle.model.specs.Extracts.{extract};
ghost use Rattle.model.specs.ShortForms.{shorten};
ghost use Rattle.model.specs.Derivations.{check_derivation};
ghost use Rattle.std.specs.Prelude.{ℕ, Ok, ◌≤◌, ◌<◌, ◌^◌, IfOk};
ghost use Rattle.model.specs.Answers.{Refused};
ghost use Rattle.refusals.specs.Numbers.{refusal_number};
ghost use Rattle.refusals.specs.Results.{written_of};
ghost use Rattle.questions.specs.Answers.{answer_of};
ghost use Rattle.derivations.specs.Answers.{checked_of};

use derivations::DerivationRefusal;
use questions::Refuter;
use refusals::Refusal;
use words::Side;

// Kinds 1 and 2 of a number, without the figure: no, and refused.
// Kept: C gets numbers.
pub const NO: u32 = 65536;

pub const REFUSED: u32 = 131072;

// The change side in the figure of a no.
const CHANGE: u32 = 4096;

// A refusal as the one number that it is to C: kind 2.
#[tactic(auto, unfolding(model::specs::Answers::number))]
pub fn refused_number(why: Refusal) -> u32
    ensures { result ≡ number (Refused (refusal_number why)) }
{
    REFUSED + why.number() as u32
}

// The answer to a question likewise: yes is kind 0, no kind 1 with the side and the coalition that refutes.
#[tactic(auto, unfolding(model::specs::Answers::number))]
pub fn answer_number(answer: Result<Option<Refuter>, Refusal>) -> u32
    ensures { result ≡ number (answer_of answer) }
{
    match answer {
        Ok(None) => 0,
        Ok(Some(refuter)) => match refuter.side {
            Side::See => NO + refuter.coalition as u32,
            Side::Change => NO + CHANGE + refuter.coalition as u32,
        },
        Err(why) => refused_number(why),
    }
}

// How many bytes were written, likewise; a length that no number holds is given as the largest number.
#[tactic(auto, unfolding(model::specs::Answers::number))]
pub fn written_number(written: Result<usize, Refusal>) -> u32
    ensures fits { IfOk written (λ length. length < 2 ^ 32) → result ≡ number (written_of written) }
    ensures long { (length : ℕ) → written ≡ Ok length → 2 ^ 32 ≤ length → result ≡ 4294967295 }
{
    match written {
        Ok(length) => u32::try_from(length).unwrap_or(u32::MAX),
        Err(why) => refused_number(why),
    }
}

// What the check of a derivation gives, likewise.
#[tactic(auto, unfolding(model::specs::Answers::number))]
fn checked_number(checked: Result<(), DerivationRefusal>) -> u32
    ensures { result ≡ number (checked_of checked) }
{
    match checked {
        Ok(()) => 0,
        Err(DerivationRefusal::Call(why)) => refused_number(why),
        Err(DerivationRefusal::Step(step, why)) => {
            REFUSED + (step as u32 * 256 + why.number() as u32)
        }
    }
}

// Does p act for q under the label, on the day?
// Kept: the two are what the calls of C by these names do.
pub fn rights_acts_for(ledger: &[u8], p: &[u8], q: &[u8], label: &[u8], day: u32) -> u32
    ensures { result ≡ number (acts_for ledger.now p.now q.now label.now day) }
{
    answer_number(questions::acts_for(ledger, p, q, label, day))
}

// Does p flow to q under the label, on the day?
pub fn rights_flows_to(ledger: &[u8], p: &[u8], q: &[u8], label: &[u8], day: u32) -> u32
    ensures { result ≡ number (flows_to ledger.now p.now q.now label.now day) }
{
    answer_number(questions::flows_to(ledger, p, q, label, day))
}

// Writes the extract of the ledger under the label, on the day.
#[tactic(auto, unfolding(model::specs::Answers::number))]
pub fn rights_extract(ledger: &[u8], label: &[u8], day: u32, buffer: &mut [u8]) -> u32
    ensures answered { result ≡ number (extract ledger.now label.now day buffer.old).answer }
    ensures written { buffer.new ≡ (extract ledger.now label.now day buffer.old).buffer }
{
    match extracts::extract(ledger, label, day, buffer) {
        Ok(()) => 0,
        Err(why) => refused_number(why),
    }
}

// Writes the short form of the term in a job of n names.
pub fn rights_short_form(n: u64, term: &[u8], buffer: &mut [u8]) -> u32
    ensures answered { result ≡ number (shorten n term.now buffer.old).answer }
    ensures written { buffer.new ≡ (shorten n term.now buffer.old).buffer }
{
    written_number(short_forms::short_form(n, term, buffer))
}

// Does every step of the derivation follow by its rule, on the day?
pub fn rights_check_derivation(derivation: &[u8], ledger: &[u8], label: &[u8], day: u32) -> u32
    ensures { result ≡ number (check_derivation derivation.now ledger.now label.now day) }
{
    checked_number(derivations::check_derivation(derivation, ledger, label, day))
}
