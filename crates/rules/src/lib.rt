// What the rules of a derivation that compare bytes ask of a step's terms: rules 2 to 7 (document 01, "Derivations"). A part that is missing is shorter, or
// empty.
#![tactic(auto)]

ghost use Rattle.std.specs.Prelude.{◌≡◌, ◌&&◌, List, ◌∷◌, ◌++◌, ℕ};
ghost use Rattle.model.specs.Bytes.{same};
ghost use Rattle.model.specs.Ledgers.{Ledger};
ghost use Rattle.model.specs.Terms.{project_code};
ghost use Rattle.model.specs.Derivations.{left, right, transitive, conjunction, disjunction, projection, meets};
ghost use Rattle.rules.specs.Terms.{term_at};
ghost use Rattle.terms.specs.Joiners.{joiner_code};
ghost use Rattle.words.specs.FourWords.{side_of};

use fields::TermField;
use terms::Joiner;
use words::Side;

// Where a step's p and its q stand.
pub const LEFT: TermField = TermField { length: 4, at: 8 };

pub const RIGHT: TermField = TermField { length: 5, at: 72 };

// The bytes are a code, then a part.
fn code_then(s: &[u8], code: u8, a: &[u8]) -> bool
    ensures { result ≡ same s.now (code ∷ a.now) }
{
    s.strip_prefix(&[code]).is_some_and(|rest| rest == a)
}

// The bytes are a code, then two parts.
fn code_then_two(s: &[u8], code: u8, a: &[u8], b: &[u8]) -> bool
    ensures { result ≡ same s.now (code ∷ a.now ++ b.now) }
{
    s.strip_prefix(&[code])
        .and_then(|rest| rest.strip_prefix(a))
        .is_some_and(|rest| rest == b)
}

// Rule 2: the step's terms are p and q, the grant's.
#[tactic(auto, using(crate::proofs::Comparing::same_pointwise))]
pub fn has_terms(step: &[u8], p: &[u8], q: &[u8]) -> bool
    ensures { result ≡ (same (left step.now) p.now && same (right step.now) q.now) }
{
    LEFT.bytes(step) == p && RIGHT.bytes(step) == q
}

// A step, and the steps that it names as its premises.
#[derive(Clone, Copy)]
pub struct Inference<'a> {
    pub step: &'a [u8],
    pub first: &'a [u8],
    pub second: &'a [u8],
}

impl Inference<'_> {
    // Rule 3: the first premise is p for m, the second m for q.
    #[tactic(auto, using(crate::proofs::Comparing::same_pointwise), unfolding(model::specs::Derivations::meets))]
    pub fn transitive(self) -> bool
        ensures { (l : Ledger) → result ≡ meets l transitive self.entry.step.now self.entry.first.now self.entry.second.now }
    {
        LEFT.bytes(self.first) == LEFT.bytes(self.step)
            && RIGHT.bytes(self.first) == LEFT.bytes(self.second)
            && RIGHT.bytes(self.second) == RIGHT.bytes(self.step)
    }

    // Rules 4 and 5: at one place the step has a code, then the premises' terms in order; at the other both premises have the step's term.
    #[tactic(auto, using(crate::proofs::Comparing::same_pointwise))]
    fn joins(self, joiner: Joiner, joined: TermField, common: TermField) -> bool
        ensures { result ≡ (same (term_at joined self.entry.step.now) (joiner_code joiner ∷ term_at joined self.entry.first.now ++ term_at joined self.entry.second.now) && (same (term_at common self.entry.first.now) (term_at common self.entry.step.now) && same (term_at common self.entry.second.now) (term_at common self.entry.step.now))) }
    {
        let whole = joined.bytes(self.step);
        let (a, b) = (joined.bytes(self.first), joined.bytes(self.second));
        code_then_two(whole, joiner.code(), a, b)
            && common.bytes(self.first) == common.bytes(self.step)
            && common.bytes(self.second) == common.bytes(self.step)
    }

    // Rule 4: q is 30, then the premises' right terms in order; both left terms are p.
    #[tactic(auto, unfolding(model::specs::Derivations::meets))]
    pub fn conjunction(self) -> bool
        ensures { (l : Ledger) → result ≡ meets l conjunction self.entry.step.now self.entry.first.now self.entry.second.now }
    {
        self.joins(Joiner::Both, RIGHT, LEFT)
    }

    // Rule 5: p is 31, then their left terms in order; both right terms are q.
    #[tactic(auto, unfolding(model::specs::Derivations::meets))]
    pub fn disjunction(self) -> bool
        ensures { (l : Ledger) → result ≡ meets l disjunction self.entry.step.now self.entry.first.now self.entry.second.now }
    {
        self.joins(Joiner::Either, LEFT, RIGHT)
    }
}

// The code of a projection to a side.
// Kept: by this name a reader sees what the byte is, as `From` would not say.
fn code_of(side: Side) -> u8
    ensures { result ≡ project_code (side_of side) }
{
    match side {
        Side::See => 0x40,
        Side::Change => 0x41,
    }
}

// The step's terms are a code before those of the premise.
pub fn projects(code: u8, step: &[u8], a: &[u8]) -> bool
    ensures { result ≡ (same (left step.now) (code ∷ left a.now) && same (right step.now) (code ∷ right a.now)) }
{
    code_then(LEFT.bytes(step), code, LEFT.bytes(a))
        && code_then(RIGHT.bytes(step), code, RIGHT.bytes(a))
}

// Rules 6 and 7: the code is that of the side.
#[tactic(auto, unfolding(model::specs::Derivations::meets))]
pub fn projection(side: Side, step: &[u8], a: &[u8]) -> bool
    ensures { (l : Ledger) (b : List ℕ) → result ≡ meets l (projection (side_of side)) step.now a.now b }
{
    projects(code_of(side), step, a)
}
