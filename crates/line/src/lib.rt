// Lines of octets: gathered from blocks of input, and taken apart into a verb and fields of hexadecimal digits with a
// single space before each.
#![tactic(auto)]

pub mod input;
pub mod output;
pub mod reader;

ghost use Rattle.std.specs.Prelude.{◌≡◌, eqb, ◌+◌, ◌-◌, ◌≤◌, min, length, replicate, position};
ghost use Rattle.std.specs.Counts.{IsPrefixLen};
ghost use Rattle.answer.specs.Answer.{room};
ghost use Rattle.line.specs.Lines.{has_end, until_end, first_end, gathered, ended_of};
ghost use Rattle.line.specs.Line.{verb_is};

// Room for the octets of a line's last field: 66,000, and no more.
pub fn buffer() -> [u8; 66000]
    ensures value { 66000 ≡ length result }
    ensures value_2 { result ≡ replicate 66000 0 }
{
    [0; 66000]
}

// The line's verb is this one; no equality, since a space and fields may stand behind it.
pub fn is_verb(s: &[u8], verb: &[u8]) -> bool
    ensures { result ≡ verb_is s.now verb.now }
{
    match s.strip_prefix(verb) {
        Some(rest) => rest.is_empty() || rest[0] == b' ',
        None => false,
    }
}

// A target before a call: AA octets. Beside `buffer`: each is one array, of the language's own length and octet.
pub fn fresh_target() -> [u8; 65536]
    ensures value { 65536 ≡ length result }
    ensures value_2 { result ≡ replicate 65536 0xAA }
{
    [0xAA; 65536]
}

// An octet of s is LF. One pass with no way out between, so that the compiler takes many octets at once.
fn has_end(s: &[u8]) -> bool
    ensures { result ≡ has_end s.now }
{
    let mut found = false;
    for x in s {
        found |= *x == b'\n';
    }
    found
}

// What is left of a block where an LF is less than 64 octets away or the block's end is, and no LF before.
fn near_end(block: &[u8]) -> &[u8]
    ensures within { length result.now ≤ length block.now }
    ensures value { length block.now - length result.now + until_end result.now ≡ until_end block.now }
{
    let mut rest = block;
    // No iterator over chunks: the one with an LF is left too, with all behind it.
    while let Some((part, behind)) = rest.split_at_checked(64) {
        if has_end(part) {
            break;
        }
        rest = behind;
    }
    rest
}

// The place of the first LF.
fn first(s: &[u8]) -> Option<usize>
    ensures { result ≡ position (λ x. eqb x 10) s.now }
{
    s.iter().position(|x| *x == b'\n')
}

// The place of the first LF from a place on; the block's end where there is none.
pub fn line_end(block: &[u8], from: usize) -> usize
    requires { from ≤ length block.now }
    ensures lower_bound { (from ≤ result) × (result ≤ length block.now) }
    ensures value { result ≡ first_end block.now from }
{
    let rest = near_end(&block[from..]);
    match first(rest) {
        Some(k) => block.len() - rest.len() + k,
        None => block.len(),
    }
}

// The line begun, with more octets; its count is beyond its room where it is too long. The count stands beside the
// room, since memory is fixed: a Vec would grow.
pub fn gather(line: &mut [u8], begun: usize, more: &[u8]) -> usize
    ensures { room result line.new ≡ gathered more.now (room begun line.old) }
{
    if line.len() < begun {
        return begun;
    }
    if line.len() - begun < more.len() {
        return line.len() + 1;
    }
    octets::copy_into(line, begun, more);
    begun + more.len()
}

// How many octets a line has once it has ended: none where it is too long, and then it is answered as an empty line is.
// A count, as in `gather`.
pub fn ended(line: &[u8], begun: usize) -> usize
    ensures prefix_len { IsPrefixLen result line.now }
    ensures value { result ≡ ended_of line.now begun }
{
    if begun <= line.len() { begun } else { 0 }
}
