// Fields of bytes, which ledgers and derivations are made of: numbers, parts, pieces of one size, filler (document 01, "The ledger" and "Derivations").
#![tactic(auto)]

ghost use Rattle.std.specs.Prelude.{◌≡◌, ◌*◌};
ghost use Rattle.model.specs.Bytes.{byte, field, two_bytes, four_bytes, zeros, multiple_up_to};
ghost use Rattle.fields.specs.Terms.{past_term};

// All bytes of the part are 00. No branch for a byte: what is not 0 stays in `any`.
pub fn filler(part: &[u8]) -> bool
    ensures { result ≡ zeros part.now }
{
    part.iter().fold(0u8, |any, b| any | *b) == 0
}

// A two-byte field, big-endian, as a number. A byte that is missing counts as 00.
// Kept: numbers of two sizes are two types, here and below, and where bytes are missing each is made up of those that are there in its own way.
pub fn two_bytes(bytes: &[u8], at: usize) -> u16
    ensures { result ≡ two_bytes at bytes.now }
{
    match part(bytes, at, 2) {
        [high, low] => u16::from_be_bytes([*high, *low]),
        [high] => u16::from_be_bytes([*high, 0]),
        _ => 0,
    }
}

// A four-byte field likewise, wherever the bytes end.
fn cut_field(bytes: &[u8], at: usize) -> u32
    ensures { result ≡ four_bytes at bytes.now }
{
    if bytes.len() <= at {
        return 0;
    }
    two_bytes(bytes, at) as u32 * 65536 + two_bytes(bytes, at + 2) as u32
}

// The same: where the field is whole its bytes are read at one go.
pub fn four_bytes(bytes: &[u8], at: usize) -> u32
    ensures { result ≡ four_bytes at bytes.now }
{
    match bytes.get(at..) {
        Some([a, b, c, d, ..]) => u32::from_be_bytes([*a, *b, *c, *d]),
        _ => cut_field(bytes, at),
    }
}

// A multiple of `size` from `size` to `most`: whole pieces, at least one.
pub fn length_fits(len: usize, size: usize, most: usize) -> bool
    ensures { result ≡ multiple_up_to size most len }
{
    if size == 0 {
        return len == 0;
    }
    len % size == 0 && (size..=most).contains(&len)
}

// The bytes that start at `at`, as many as `len` or as there are.
pub fn part(bytes: &[u8], at: usize, len: usize) -> &[u8]
    ensures { result.now ≡ field at len bytes.now }
{
    match bytes.get(at..) {
        Some(rest) => rest.get(..len).unwrap_or(rest),
        None => &[],
    }
}

// Of pieces of `size` bytes, piece k: as much of it as there is.
pub fn piece(bytes: &[u8], size: usize, k: usize) -> &[u8]
    ensures { result.now ≡ field (size * k) size bytes.now }
{
    size.checked_mul(k).map_or(&[], |at| part(bytes, at, size))
}

// Where a term stands in a block or a step: byte `length` says how long it is, its field of 64 bytes begins at `at`.
#[derive(Clone, Copy)]
pub struct TermField {
    pub length: usize,
    pub at: usize,
}

impl TermField {
    // How long the term is. A byte that is missing counts as 00.
    fn len(self, block: &[u8]) -> usize
        ensures { result ≡ byte self.length block.now }
    {
        block.get(self.length).map_or(0, |len| *len as usize)
    }

    // The term's bytes.
    pub fn bytes(self, block: &[u8]) -> &[u8]
        ensures { result.now ≡ field self.at (byte self.length block.now) block.now }
    {
        part(block, self.at, self.len(block))
    }

    // What is behind the term in its field is filler. A length over 64 leaves none.
    pub fn rest_is_filler(self, block: &[u8]) -> bool
        ensures { result ≡ past_term self.length self.at block.now }
    {
        let field = part(block, self.at, 64);
        filler(part(field, self.len(block), 64))
    }
}
