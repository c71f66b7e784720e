// The frame check: CRC-32 of IEEE 802.3, eight octets a turn, by the steps of their half octets.
#![tactic(auto)]

ghost use Rattle.std.specs.Prelude.{◌≡◌, ◌*◌, ◌^◌, ◌≤◌};
ghost use Rattle.fcs_steps.specs.Steps.{bits};
ghost use Rattle.fcs.specs.Fcs.{register, crc32};

use octets::Number;

// 64 steps of x from place j on: an entry for each of its eight half octets.
fn turn(j: usize, x: u32) -> u32
    requires { j ≤ 8 }
    ensures { result ≡ bits 64 (x * 2 ^ (4 * j)) }
{
    let mut c = 0;
    for k in 0..8 {
        c ^= fcs_steps::entry(j + k, x >> (4 * k));
    }
    c
}

// Eight steps of x: an entry for each half octet of its low octet, and the rest moved down.
fn step(x: u32) -> u32
    ensures { result ≡ bits 8 x }
{
    (fcs_steps::entry(14, x) ^ fcs_steps::entry(15, x / 16)) ^ (x / 256)
}

// The register begun at `begun`, after the octets of s, one a turn.
// `begun` and `s` stand in three functions: a struct of the two would be made by each caller and taken apart by each.
fn by_ones(begun: u32, s: &[u8]) -> u32
    ensures { result ≡ register begun s.now }
{
    s.iter().fold(begun, |c, x| step(c ^ u32::from(*x)))
}

// The register begun at `begun`, after the octets of s: four at once where there are as many, then one a turn.
fn by_four(begun: u32, s: &[u8]) -> u32
    ensures { result ≡ register begun s.now }
{
    match s.split_first_chunk::<4>() {
        Some((four, rest)) => by_ones(turn(8, begun ^ u32::little(four, 0)), rest),
        None => by_ones(begun, s),
    }
}

// The register begun at `begun`, after the octets of s: eight a turn, and then those left.
fn update(begun: u32, s: &[u8]) -> u32
    ensures { result ≡ register begun s.now }
{
    let (eights, rest) = s.as_chunks::<8>();
    let mut c = begun;
    for eight in eights {
        let u = u32::little(eight, 0);
        let v = u32::little(eight, 4);
        c = turn(8, v) ^ turn(0, c ^ u);
    }
    by_four(c, rest)
}

// The frame check of s.
pub fn frame_check(s: &[u8]) -> u32
    ensures { result ≡ crc32 s.now }
{
    !update(0xFFFF_FFFF, s)
}
