// The derivation check, step by step, and quoting (document 01, "Derivations"), on a day (document 02, K2).
#![tactic(auto)]

ghost use Rattle.std.specs.Prelude.{◌≡◌, Bool, ◌||◌, ◌≤◌, ◌<◌, eqb, length};
ghost use Rattle.model.specs.Bytes.{byte};
ghost use Rattle.model.specs.Readings.{refused_as};
ghost use Rattle.model.specs.Grants.{Grant};
ghost use Rattle.model.specs.Ledgers.{Ledger};
ghost use Rattle.model.specs.Derivations.{step_at, rule_of, uses_of, step_form, before, meets, check_steps, step_count, check_derivation, quote};
ghost use Rattle.refusals.specs.Results.{done};
ghost use Rattle.derivations.specs.Steps.{rule_is, rule_or_none, fields_form, filler_form, read_field, read_step, premises_before, grant_check, BookOf, Ready, check_at};
ghost use Rattle.derivations.specs.Answers.{step_number, step_reading, rule_reading, checked_of, part_of};
ghost use Rattle.derivations.specs.declared.DerivationRefusal.TheVariants.{Call};

use counting::Asked;
use fields::TermField;
use ledgers::Sizes;
use refusals::Refusal;
use rules::{Inference, LEFT, RIGHT};
use words::Side;

// Step k, a part of the derivation: as much of it as there is.
fn step_at(derivation: &[u8], k: usize) -> &[u8]
    ensures { result.now ≡ step_at derivation.now k }
{
    fields::piece(derivation, 136, k)
}

// The rule of a step.
#[derive(Clone, Copy, Debug, PartialEq, Eq)]
enum Rule {
    Static,
    Granted,
    Transitive,
    Conjunction,
    Disjunction,
    Projection(Side),
}

// The bytes of a step that a rule uses: the first premise, the second, the grant.
// Kept: a flag beside each byte, since a step has the three bytes in any case, and one that the rule doesn't use is tested too; an Option of each, or a
// case for each set of them, would be no plainer.
#[derive(Clone, Copy)]
struct Uses {
    first: bool,
    second: bool,
    grant: bool,
}

impl Rule {
    // The rules by their numbers, 1 to 7: the last two are one over the side.
    // Kept: an Option, where `TryFrom` would need an error with nothing to say.
    #[tactic(auto, unfolding(model::specs::Derivations::rule_of))]
    fn of(byte: u8) -> Option<Rule>
        ensures { rule_or_none result ≡ rule_of byte }
    {
        match byte {
            1 => Some(Rule::Static),
            2 => Some(Rule::Granted),
            3 => Some(Rule::Transitive),
            4 => Some(Rule::Conjunction),
            5 => Some(Rule::Disjunction),
            6 => Some(Rule::Projection(Side::See)),
            7 => Some(Rule::Projection(Side::Change)),
            _ => None,
        }
    }

    // Which of bytes 1, 2 and 3 the rule uses.
    fn uses(self) -> Uses
        ensures first { result.first ≡ (uses_of (rule_is self)).first }
        ensures second { result.second ≡ (uses_of (rule_is self)).second }
        ensures grant { result.grant ≡ (uses_of (rule_is self)).grant }
    {
        Uses {
            first: !matches!(self, Rule::Static | Rule::Granted),
            second: matches!(
                self,
                Rule::Transitive | Rule::Conjunction | Rule::Disjunction
            ),
            grant: matches!(self, Rule::Granted),
        }
    }
}

// Why a step is refused.
#[derive(Clone, Copy, Debug, PartialEq, Eq)]
pub enum StepRefusal {
    // Its rule, a field that the rule doesn't use, or its filler.
    Form,
    // Its p or its q is no term of the job.
    Left,
    Right,
    // A premise is no earlier step.
    Premise,
    // There is no such grant, or it doesn't count.
    Grant,
    Uncounted,
    // It doesn't meet its rule.
    Rule,
}

impl StepRefusal {
    // The number that the refusal is to C.
    // Kept: by this name a reader sees what the byte is, as `From` would not say.
    pub fn number(self) -> u8
        ensures { result ≡ step_number self }
    {
        match self {
            StepRefusal::Form => 61,
            StepRefusal::Left => 62,
            StepRefusal::Right => 63,
            StepRefusal::Premise => 64,
            StepRefusal::Grant => 65,
            StepRefusal::Uncounted => 66,
            StepRefusal::Rule => 67,
        }
    }
}

// Bytes 6 and 7, and what is past the terms. A length over 64 has no filler.
#[tactic(auto, unfolding(crate::specs::Steps::filler_form))]
fn filler_form(step: &[u8; 136]) -> bool
    ensures { result ≡ filler_form step.now }
{
    fields::filler(&step[6..8]) && LEFT.rest_is_filler(step) && RIGHT.rest_is_filler(step)
}

// A premise that the rule uses is a step before step k.
fn earlier(used: bool, premise: u8, k: usize) -> bool
    ensures { result ≡ before used premise k }
{
    !used || (premise as usize) < k
}

// A derivation, its ledger once it is read, and which of the grants count: bit g says whether grant g does.
// Kept: `soundness::Chosen` has the last three, for its tests of coalitions: with it each of the three would be named by two names.
#[derive(Clone, Copy)]
struct Book<'a> {
    derivation: &'a [u8],
    ledger: &'a [u8],
    sizes: Sizes,
    counted: u64,
}

// A step, and the rule that its first byte says.
#[derive(Clone, Copy)]
struct Step<'a> {
    rule: Rule,
    bytes: &'a [u8; 136],
}

impl Step<'_> {
    // A field that the rule doesn't use is 00.
    #[tactic(auto, unfolding(crate::specs::Steps::fields_form))]
    fn fields_form(&self) -> bool
        ensures { result ≡ fields_form (rule_is self.now.rule) self.now.bytes.now }
    {
        let uses = self.rule.uses();
        (uses.first || self.bytes[1] == 0)
            && (uses.second || self.bytes[2] == 0)
            && (uses.grant || self.bytes[3] == 0)
    }

    // The form of the step.
    fn form(&self) -> bool
        ensures { result ≡ step_form (rule_is self.now.rule) self.now.bytes.now }
    {
        self.fields_form() && filler_form(self.bytes)
    }

    // Both premises that the rule uses are before step k.
    fn premises_before(&self, k: usize) -> bool
        ensures { result ≡ premises_before (rule_is self.now.rule) self.now.bytes.now k }
    {
        let uses = self.rule.uses();
        earlier(uses.first, self.bytes[1], k) && earlier(uses.second, self.bytes[2], k)
    }

    // There is such a grant as the rule uses, and it counts.
    fn check_grant(&self, book: Book<'_>) -> Result<(), StepRefusal>
        ensures { step_reading result ≡ grant_check (rule_is self.now.rule) self.now.bytes.now book.entry.sizes.grants book.entry.counted }
    {
        if !self.rule.uses().grant {
            return Ok(());
        }
        let grant = self.bytes[3] as usize;
        if book.sizes.grants <= grant {
            return Err(StepRefusal::Grant);
        }
        if !words::bit_set(book.counted, grant) {
            return Err(StepRefusal::Uncounted);
        }
        Ok(())
    }

    // The step meets its rule, its terms being read and its grant being there.
    fn meets(&self, book: Book<'_>) -> bool
        ensures { (l : Ledger) → Ready book.entry.ledger.now book.entry.sizes.names (rule_is self.now.rule) self.now.bytes.now l → result ≡ meets l (rule_is self.now.rule) self.now.bytes.now (step_at book.entry.derivation.now (byte 1 self.now.bytes.now)) (step_at book.entry.derivation.now (byte 2 self.now.bytes.now)) }
    {
        let step = self.bytes;
        let inference = Inference {
            step,
            first: step_at(book.derivation, step[1] as usize),
            second: step_at(book.derivation, step[2] as usize),
        };
        match self.rule {
            Rule::Static => {
                questions::acts_statically(book.sizes.names, LEFT.bytes(step), RIGHT.bytes(step))
            }
            Rule::Granted => {
                let grant = step[3] as usize;
                let p = ledgers::grant_term(book.ledger, grant, ledgers::P);
                let q = ledgers::grant_term(book.ledger, grant, ledgers::Q);
                rules::has_terms(step, p, q)
            }
            Rule::Transitive => inference.transitive(),
            Rule::Conjunction => inference.conjunction(),
            Rule::Disjunction => inference.disjunction(),
            Rule::Projection(side) => rules::projection(side, step, inference.first),
        }
    }
}

// A term of a step, `why` being the refusal where it is none: its length is at most that of its field.
#[tactic(auto, unfolding(crate::specs::Steps::read_field))]
fn read_field(
    step: &[u8; 136],
    term: TermField,
    n: u64,
    why: StepRefusal,
) -> Result<(), StepRefusal>
    ensures { step_reading result ≡ done (refused_as (step_number why) (read_field term.length term.at n step.now)) }
{
    if step.get(term.length).is_some_and(|len| 64 < *len) {
        return Err(why);
    }
    terms::read_term(term.bytes(step), n).map_err(|_| why)
}

// The step by itself, its form and its terms: its rule.
// Kept: the rule alone is handed on, as the model's reading of a step has it, and `check_step` makes the step of it and the same bytes.
fn read_step(bytes: &[u8; 136], n: u64) -> Result<Rule, StepRefusal>
    ensures { rule_reading result ≡ read_step n (rule_of (byte 0 bytes.now)) bytes.now }
{
    let rule = Rule::of(bytes[0]).ok_or(StepRefusal::Form)?;
    let step = Step { rule, bytes };
    if !step.form() {
        return Err(StepRefusal::Form);
    }
    read_field(bytes, LEFT, n, StepRefusal::Left)?;
    read_field(bytes, RIGHT, n, StepRefusal::Right)?;
    Ok(rule)
}

// A step of the derivation, k being its number.
fn check_step(book: Book<'_>, k: usize, bytes: &[u8; 136]) -> Result<(), StepRefusal>
    ensures { (l : Ledger) (f : Grant → Bool) → BookOf book.entry.ledger.now book.entry.sizes book.entry.counted l f → step_reading result ≡ check_at l f book.entry.derivation.now k bytes.now }
{
    let rule = read_step(bytes, book.sizes.names)?;
    let step = Step { rule, bytes };
    if !step.premises_before(k) {
        return Err(StepRefusal::Premise);
    }
    step.check_grant(book)?;
    if !step.meets(book) {
        return Err(StepRefusal::Rule);
    }
    Ok(())
}

// Why a derivation is refused.
#[derive(Clone, Copy, Debug, PartialEq, Eq)]
pub enum DerivationRefusal {
    // The day, the ledger, the label or the derivation's length.
    Call(Refusal),
    // A step, for which the figure for C has a byte.
    Step(u8, StepRefusal),
}

impl From<Refusal> for DerivationRefusal {
    ghost from_gives = { λ why e. e ≡ Call why };

    fn from(why: Refusal) -> DerivationRefusal {
        DerivationRefusal::Call(why)
    }
}

// The steps, one after another.
fn check_steps(book: Book<'_>) -> Result<(), DerivationRefusal>
    requires { length book.derivation.now ≤ 8704 }
    ensures { (l : Ledger) (f : Grant → Bool) → BookOf book.entry.ledger.now book.entry.sizes book.entry.counted l f → checked_of result ≡ check_steps l f book.entry.derivation.now 0 (step_count book.entry.derivation.now) }
{
    for (k, bytes) in book.derivation.as_chunks::<136>().0.iter().enumerate() {
        check_step(book, k, bytes).map_err(|why| DerivationRefusal::Step(k as u8, why))?;
    }
    Ok(())
}

// Checks a derivation. The grants that count are judged once.
// Kept: C lends ledger, label and day one by one, and they go on as they came; quoting, below, takes what the check takes.
pub fn check_derivation(
    derivation: &[u8],
    ledger: &[u8],
    label: &[u8],
    day: u32,
) -> Result<(), DerivationRefusal>
    ensures { checked_of result ≡ check_derivation derivation.now ledger.now label.now day }
{
    if !dates::real_date(day) {
        return Err(DerivationRefusal::Call(Refusal::NotReal));
    }
    let sizes = ledgers::read_book(ledger, label)?;
    if !fields::length_fits(derivation.len(), 136, 8704) {
        return Err(DerivationRefusal::Call(Refusal::DerivationLength));
    }
    let asked = Asked {
        ledger,
        sizes,
        label,
        day,
    };
    let counted = asked.counted();
    check_steps(Book {
        derivation,
        ledger,
        sizes,
        counted,
    })
}

// The block of the grant that a step of an accepted derivation names, a part of the ledger, if there is such a step and its rule is that of a grant.
fn quoted<'a>(
    derivation: &[u8],
    ledger: &'a [u8],
    label: &[u8],
    day: u32,
    step: u64,
) -> Option<&'a [u8]>
    ensures { part_of result ≡ quote derivation.now ledger.now label.now day step }
{
    check_derivation(derivation, ledger, label, day).ok()?;
    if (derivation.len() / 136) as u64 <= step {
        return None;
    }
    let named = step_at(derivation, step as usize);
    match Rule::of(named[0])? {
        Rule::Granted => Some(ledgers::grant_block(ledger, named[3] as usize)),
        _ => None,
    }
}

// The same; an empty part where there is none.
// Kept: its promise is that of document 01, on bytes, where no step is an empty part; `quoted` has the Option.
pub fn quote<'a>(derivation: &[u8], ledger: &'a [u8], label: &[u8], day: u32, step: u64) -> &'a [u8]
    ensures { result.now ≡ quote derivation.now ledger.now label.now day step }
{
    quoted(derivation, ledger, label, day, step).unwrap_or(&[])
}
