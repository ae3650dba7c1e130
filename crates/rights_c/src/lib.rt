// The entry points for C: each calls the function of `rights` that has its name, and promises the same.
#![tactic(auto)]

ghost use Rattle.std.specs.Prelude.{◌≡◌};
ghost use Rattle.model.specs.Answers.{number};
ghost use Rattle.model.specs.Questions.{acts_for, flows_to};
ghost use Rattle.model.specs.Extracts.{extract};
ghost use Rattle.model.specs.ShortForms.{shorten};
ghost use Rattle.model.specs.Derivations.{check_derivation};

// Does p act for q under the label, on the day?
// Kept: a crate is a library or an archive for C, so that a call stands in both, and C has a name for each.
#[unsafe(no_mangle)]
pub extern "C" fn rights_acts_for(ledger: &[u8], p: &[u8], q: &[u8], label: &[u8], day: u32) -> u32
    ensures { result ≡ number (acts_for ledger.now p.now q.now label.now day) }
{
    rights::rights_acts_for(ledger, p, q, label, day)
}

// Does p flow to q under the label, on the day?
#[unsafe(no_mangle)]
pub extern "C" fn rights_flows_to(ledger: &[u8], p: &[u8], q: &[u8], label: &[u8], day: u32) -> u32
    ensures { result ≡ number (flows_to ledger.now p.now q.now label.now day) }
{
    rights::rights_flows_to(ledger, p, q, label, day)
}

// Writes the extract of the ledger under the label, on the day.
#[unsafe(no_mangle)]
pub extern "C" fn rights_extract(ledger: &[u8], label: &[u8], day: u32, buffer: &mut [u8]) -> u32
    ensures answered { result ≡ number (extract ledger.now label.now day buffer.old).answer }
    ensures written { buffer.new ≡ (extract ledger.now label.now day buffer.old).buffer }
{
    rights::rights_extract(ledger, label, day, buffer)
}

// Writes the short form of the term in a job of n names.
#[unsafe(no_mangle)]
pub extern "C" fn rights_short_form(n: u64, term: &[u8], buffer: &mut [u8]) -> u32
    ensures answered { result ≡ number (shorten n term.now buffer.old).answer }
    ensures written { buffer.new ≡ (shorten n term.now buffer.old).buffer }
{
    rights::rights_short_form(n, term, buffer)
}

// Does every step of the derivation follow by its rule, on the day?
#[unsafe(no_mangle)]
pub extern "C" fn rights_check_derivation(
    derivation: &[u8],
    ledger: &[u8],
    label: &[u8],
    day: u32,
) -> u32
    ensures { result ≡ number (check_derivation derivation.now ledger.now label.now day) }
{
    rights::rights_check_derivation(derivation, ledger, label, day)
}
