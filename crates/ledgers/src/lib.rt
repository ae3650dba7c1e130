// The ledger: the reader with its refusals, and the parts where the grants' terms stand.
#![tactic(auto)]

ghost use Rattle.std.specs.Prelude.{◌≡◌, ℕ, ◌+◌, ◌/◌, ◌≤◌, min, length};
ghost use Rattle.model.specs.Bytes.{byte, field, pieces};
ghost use Rattle.model.specs.Readings.{refused_as};
ghost use Rattle.model.specs.Terms.{read_term};
ghost use Rattle.model.specs.Ledgers.{all_checked, header_form, grant_form, grant_block, first_day, last_day, read_grant, read_block, read_grants, read_ledger, read_book};
ghost use Rattle.refusals.specs.Results.{reading_of, done};
ghost use Rattle.ledgers.specs.Forms.{term_form};
ghost use Rattle.ledgers.specs.Places.{block_place};
ghost use Rattle.ledgers.specs.Readings.{days_reading, sizes, book_sizes};

use fields::TermField;
use refusals::Refusal;

// Where a grant's terms stand in its block.
pub const P: TermField = TermField { length: 1, at: 16 };

pub const Q: TermField = TermField { length: 2, at: 80 };

pub const LABEL: TermField = TermField { length: 3, at: 144 };

// And where its days do: the first, and four bytes on the last.
pub const DAYS: usize = 208;

// The blocks of a ledger.
fn blocks(ledger: &[u8]) -> &[[u8; 512]]
    ensures { result.now ≡ pieces 512 (length ledger.now / 512) ledger.now }
{
    ledger.as_chunks::<512>().0
}

// Every block's check holds.
fn all_checks(blocks: &[[u8; 512]]) -> bool
    ensures { result ≡ all_checked blocks.now }
{
    blocks.iter().all(|block| checks::block_check(block))
}

// Block 0 of a ledger of `count` grants: kind, n, count and filler.
#[tactic(auto, unfolding(model::specs::Ledgers::header_form))]
fn header_form(block: &[u8; 512], count: usize) -> bool
    ensures { result ≡ header_form count block.now }
{
    block[0] == 1
        && (1..=12).contains(&block[1])
        && fields::two_bytes(block, 2) as usize == count
        && fields::filler(&block[4..510])
}

// A term of a block has a length of 1 to 64, and the rest of its field is filler.
#[tactic(auto, unfolding(crate::specs::Forms::term_form))]
fn term_form(block: &[u8; 512], term: TermField) -> bool
    ensures { result ≡ term_form term.length term.at block.now }
{
    block
        .get(term.length)
        .is_some_and(|len| (1..=64).contains(len))
        && term.rest_is_filler(block)
}

// A grant's block: kind, lengths and filler.
fn grant_form(block: &[u8; 512]) -> bool
    ensures { result ≡ grant_form block.now }
{
    block[0] == 2
        && fields::filler(&block[4..16])
        && term_form(block, P)
        && term_form(block, Q)
        && term_form(block, LABEL)
        && fields::filler(&block[DAYS + 8..510])
}

// A term of a grant, read as a part of its block: any refusal of it is the grant's.
fn read_at(block: &[u8; 512], term: TermField, n: u64) -> Result<(), Refusal>
    ensures { reading_of result ≡ done (refused_as 14 (read_term n (field term.at (byte term.length block.now) block.now))) }
{
    terms::read_term(term.bytes(block), n).map_err(|_| Refusal::GrantTerm)
}

// The days of a grant: each is a date or 0, and the first is not after the last.
#[tactic(auto, unfolding(crate::specs::Readings::days_reading))]
fn read_days(block: &[u8; 512]) -> Result<(), Refusal>
    ensures { reading_of result ≡ days_reading (first_day block.now) (last_day block.now) }
{
    let first = fields::four_bytes(block, DAYS);
    let last = fields::four_bytes(block, DAYS + 4);
    if !(dates::date_or_none(first) && dates::date_or_none(last)) {
        return Err(Refusal::GrantDay);
    }
    if !dates::in_order(first, last) {
        return Err(Refusal::GrantDays);
    }
    Ok(())
}

// The block of a grant in a job of n names: its form, then its three terms, then its days.
fn read_grant(block: &[u8; 512], n: u64) -> Result<(), Refusal>
    ensures { reading_of result ≡ done (read_grant n block.now) }
{
    if !grant_form(block) {
        return Err(Refusal::Grant);
    }
    read_at(block, P, n)?;
    read_at(block, Q, n)?;
    read_at(block, LABEL, n)?;
    read_days(block)
}

// A block by itself, in a job of n names: its length, its check, then as in a ledger.
#[tactic(auto, unfolding(model::specs::Ledgers::read_block))]
pub fn read_block(block: &[u8], n: u64) -> Result<(), Refusal>
    ensures { reading_of result ≡ done (read_block n block.now) }
{
    let Ok(block) = <&[u8; 512]>::try_from(block) else {
        return Err(Refusal::LedgerLength);
    };
    if !checks::block_check(block) {
        return Err(Refusal::Check);
    }
    read_grant(block, n)
}

// The blocks of all grants, one after another.
fn read_grants(grants: &[[u8; 512]], n: u64) -> Result<(), Refusal>
    ensures { reading_of result ≡ done (read_grants n grants.now) }
{
    for block in grants {
        read_grant(block, n)?;
    }
    Ok(())
}

// How many names an accepted ledger has, and how many grants.
#[derive(Clone, Copy, Debug, PartialEq, Eq)]
pub struct Sizes {
    pub names: u64,
    pub grants: usize,
}

// Reads a ledger.
pub fn read_ledger(ledger: &[u8]) -> Result<Sizes, Refusal>
    ensures { reading_of result ≡ sizes (read_ledger ledger.now) }
{
    if !fields::length_fits(ledger.len(), 512, 33280) {
        return Err(Refusal::LedgerLength);
    }
    let blocks = blocks(ledger);
    if !all_checks(blocks) {
        return Err(Refusal::Check);
    }
    let (header, of_grants) = (&blocks[0], &blocks[1..]);
    let grants = of_grants.len();
    if !header_form(header, grants) {
        return Err(Refusal::Header);
    }
    let names = header[1] as u64;
    read_grants(of_grants, names)?;
    Ok(Sizes { names, grants })
}

// Reads a ledger, and then the label that it is asked under: the ledger's refusals, then the label's. No day changes that.
pub fn read_book(ledger: &[u8], label: &[u8]) -> Result<Sizes, Refusal>
    ensures { (day : ℕ) → reading_of result ≡ book_sizes (read_book ledger.now label.now day) }
{
    let sizes = read_ledger(ledger)?;
    terms::read_term(label, sizes.names).map_err(Refusal::Label)?;
    Ok(sizes)
}

// The block of grant k, a part of the ledger; an empty part where there is none.
// Kept: an empty part, here and below, as document 01's definitions have it on any bytes: what is read off it counts as 00.
pub fn grant_block(ledger: &[u8], k: usize) -> &[u8]
    ensures { result.now ≡ grant_block ledger.now k }
{
    fields::piece(ledger, 512, k.saturating_add(1))
}

// Where a term of grant k stands, a part of the ledger; an empty part where there is no such grant.
pub fn grant_term(ledger: &[u8], k: usize, term: TermField) -> &[u8]
    ensures { result.now ≡ field term.at (byte term.length (grant_block ledger.now k)) (grant_block ledger.now k) }
{
    term.bytes(grant_block(ledger, k))
}

// Where the block of grant k begins in a ledger; past its 64 grants at most, a place that no ledger reaches.
pub fn block_place(k: usize) -> usize
    ensures { result ≡ block_place k }
{
    512 * (k.min(64) + 1)
}

// Where the field of a term of grant k begins in a ledger; one past the block is taken to begin at its end.
pub fn term_place(k: usize, term: TermField) -> usize
    ensures { result ≡ block_place k + min term.at 512 }
{
    block_place(k) + term.at.min(512)
}
