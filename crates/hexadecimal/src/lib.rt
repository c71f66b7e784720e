// Hexadecimal, capitals only: digits read as numbers and octets, and written.
#![tactic(auto)]

ghost use Rattle.std.specs.Prelude.{◌≡◌, true, ◌+◌, ◌*◌, ◌/◌, ◌<◌, ◌≤◌, length};
ghost use Rattle.octets.specs.Octets.{put};
ghost use Rattle.hexadecimal.specs.Hex.{digit, is_hex, octets_of, digit_of, digits_of, hex_of};
ghost use Rattle.hexadecimal.specs.Hex.{number as number_from};

// The value of a capital digit; 16 of any other octet, as `digit` of specs/ has it: `is_hex` looks at the greatest.
fn value(x: u8) -> u8
    ensures { result ≡ digit x }
{
    match x {
        b'0'..=b'9' => x - b'0',
        b'A'..=b'F' => x - b'A' + 10,
        _ => 16,
    }
}

// Every octet of s is a digit. One pass with no way out between, so that the compiler takes many octets at once.
pub fn is_hex(s: &[u8]) -> bool
    ensures { result ≡ is_hex s.now }
{
    let worst = s.iter().fold(0, |worst: u8, x| worst.max(value(*x)));
    worst < 16
}

// The number that at most 16 digits write.
pub fn number(s: &[u8]) -> u64
    requires s_len_bound { length s.now ≤ 16 }
    requires s_value { is_hex s.now ≡ true }
    ensures { result ≡ number_from 0 s.now }
{
    let mut c: u64 = 0;
    for x in s {
        c = 16 * c + u64::from(value(*x));
    }
    c
}

// The octet that two digits write: data, and no kind. By `value`, since std's `to_digit` takes small letters too.
fn joined(a: u8, b: u8) -> u8
    requires { (digit a < 16) × (digit b < 16) }
    ensures { result ≡ 16 * digit a + digit b }
{
    16 * value(a) + value(b)
}

// The octets that digits write, into the target's first octets.
pub fn decode(digits: &[u8], target: &mut [u8])
    requires digits_value { is_hex digits.now ≡ true }
    requires digits_in_bounds { length digits.now / 2 ≤ length target.old }
    ensures { target.new ≡ put 0 (octets_of digits.now) target.old }
{
    for i in 0..digits.len() / 2 {
        target[i] = joined(digits[2 * i], digits[2 * i + 1]);
    }
}

// The capital digit of a value: text, and no kind. Std's `from_digit` writes small letters.
fn capital(d: u8) -> u8
    requires { d < 16 }
    ensures { result ≡ digit_of d }
{
    if d < 10 { b'0' + d } else { b'A' - 10 + d }
}

// n digits of x written into target at k.
// The place stands beside the target as in `octets::copy_into`: `answer: Room` needs a `put` behind what it holds.
pub fn put_number(target: &mut [u8], k: usize, n: usize, x: u64)
    requires { k + n ≤ length target.old }
    ensures { target.new ≡ put k (digits_of n x) target.old }
{
    let mut rest = x;
    for i in (0..n).rev() {
        target[k + i] = capital((rest % 16) as u8);
        rest /= 16;
    }
}

// The digits of octets written into target at k, which stands beside the target as in `put_number`.
pub fn put_octets(target: &mut [u8], k: usize, s: &[u8])
    requires { k + 2 * length s.now ≤ length target.old }
    ensures { target.new ≡ put k (hex_of s.now) target.old }
{
    for (i, x) in s.iter().enumerate() {
        target[k + 2 * i] = capital(x / 16);
        target[k + 2 * i + 1] = capital(x % 16);
    }
}
