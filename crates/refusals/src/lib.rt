// Why a call is refused (document 01, "Refusals by operation"; document 02): a case for each refusal, and the number that it is to C.
#![tactic(auto)]

ghost use Rattle.std.specs.Prelude.{◌≡◌};
ghost use Rattle.refusals.specs.Numbers.{term_number, refusal_number};

// Why a list of bytes is no term of the job.
#[derive(Clone, Copy, Debug, PartialEq, Eq)]
pub enum TermRefusal {
    // Its length is 0 or over 64.
    Length,
    // A byte is no code, a name not below n, or a quorum out of range.
    NoCode,
    EndsEarly,
    CodesLeft,
}

impl TermRefusal {
    // 1 to 4.
    // Kept: by this name, here and below, a reader sees what the byte is, as `From` would not say.
    pub fn number(self) -> u8
        ensures { result ≡ term_number self }
    {
        match self {
            TermRefusal::Length => 1,
            TermRefusal::NoCode => 2,
            TermRefusal::EndsEarly => 3,
            TermRefusal::CodesLeft => 4,
        }
    }
}

// Why a call is refused.
#[derive(Clone, Copy, Debug, PartialEq, Eq)]
pub enum Refusal {
    // The one term of a call is no term of the job.
    Term(TermRefusal),
    // Neither is p, q, or the label that is asked under.
    P(TermRefusal),
    Q(TermRefusal),
    Label(TermRefusal),
    // A job has 1 to 12 names.
    Names,
    // The buffer has no room for every short form.
    Room,
    // Of a ledger: its length, the check of a block, block 0; of a grant: its block, a term of it, a day that is no date, a last day before the first.
    LedgerLength,
    Check,
    Header,
    Grant,
    GrantTerm,
    GrantDay,
    GrantDays,
    // The buffer is not an extract's.
    ExtractLength,
    // The length of a derivation.
    DerivationLength,
    // Of a text: its length or its buffer's, what is written, more codes than a term has.
    TextLength,
    NoText,
    TextCodes,
    // The day that is asked on, or that adding days would give, is no real date.
    NotReal,
    // A live ledger holds 64 grants, or none of that number.
    Full,
    NoGrant,
}

impl Refusal {
    // The number that the refusal is to C.
    pub fn number(self) -> u8
        ensures { result ≡ refusal_number self }
    {
        match self {
            Refusal::Term(why) => why.number(),
            Refusal::P(why) => 20 + why.number(),
            Refusal::Q(why) => 30 + why.number(),
            Refusal::Label(why) => 40 + why.number(),
            Refusal::Names => 7,
            Refusal::Room => 8,
            Refusal::LedgerLength => 10,
            Refusal::Check => 11,
            Refusal::Header => 12,
            Refusal::Grant => 13,
            Refusal::GrantTerm => 14,
            Refusal::GrantDay => 84,
            Refusal::GrantDays => 85,
            Refusal::ExtractLength => 51,
            Refusal::DerivationLength => 60,
            Refusal::TextLength => 81,
            Refusal::NoText => 82,
            Refusal::TextCodes => 83,
            Refusal::NotReal => 86,
            Refusal::Full => 87,
            Refusal::NoGrant => 88,
        }
    }
}
