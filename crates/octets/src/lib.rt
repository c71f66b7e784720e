// Numbers of 2, 4 and 8 octets read from slices and written into them; octets copied and zeroed.
#![tactic(auto)]

ghost use Rattle.std.specs.Prelude.{◌≡◌, ℕ, ◌+◌, ◌≤◌, length, replicate};
ghost use Rattle.octets.specs.Octets.{little, big, little_of, big_of, part, put, signed, unsigned};

// The N octets of s at k; a place beside s, since over the part alone a caller would write out `k..k + N`.
pub fn array<const N: usize>(s: &[u8], k: usize) -> [u8; N]
    requires { k + N ≤ length s.now }
    ensures { result ≡ part N k s.now }
{
    let mut a = [0; N];
    a.copy_from_slice(&s[k..k + N]);
    a
}

// source written over a target of its length. Octet by octet: `copy_from_slice` asks for the C library's memmove, which
// a host's C library need not have for this one.
fn copy_whole(target: &mut [u8], source: &[u8])
    requires { length target.old ≡ length source.now }
    ensures { target.new ≡ source.now }
{
    for i in 0..source.len() {
        target[i] = source[i];
    }
}

// source written into target at k.
// Not over the part alone, tried in `md::MdFields`: each call would need a law from the part to `put`.
pub fn copy_into(target: &mut [u8], k: usize, source: &[u8])
    requires { k + length source.now ≤ length target.old }
    ensures { target.new ≡ put k source.now target.old }
{
    copy_whole(&mut target[k..k + source.len()], source);
}

// n zeros written into target at k, a place beside the target as in `copy_into`: both callers promise a `put`.
pub fn clear_part(target: &mut [u8], k: usize, n: usize)
    requires { k + n ≤ length target.old }
    ensures { target.new ≡ put k (replicate n 0) target.old }
{
    target[k..k + n].fill(0);
}

// An unsigned number of WIDTH octets; a place beside the slice in each method, as in `array` and `copy_into`.
pub trait Number: Copy {
    // How many octets it has.
    const WIDTH: usize;

    ghost WIDTH: { ℕ };

    // The number that it is.
    ghost value: { Self → ℕ };

    // The number in the octets of s at k, big endian.
    fn big(s: &[u8], k: usize) -> Self
        requires { k + WIDTH ≤ length s.now }
        ensures { value result ≡ big (part WIDTH k s.now) };

    // The number in the octets of s at k, least significant first.
    fn little(s: &[u8], k: usize) -> Self
        requires { k + WIDTH ≤ length s.now }
        ensures { value result ≡ little (part WIDTH k s.now) };

    // The number written into target at k, big endian.
    fn put_big(self, target: &mut [u8], k: usize)
        requires { k + WIDTH ≤ length target.old }
        ensures { target.new ≡ put k (big_of WIDTH (value self)) target.old };

    // The number written into target at k, least significant first.
    fn put_little(self, target: &mut [u8], k: usize)
        requires { k + WIDTH ≤ length target.old }
        ensures { target.new ≡ put k (little_of WIDTH (value self)) target.old };
}

// The bodies are alike, but an impl is not to be written by a macro of the repository.
impl Number for u16 {
    const WIDTH: usize = 2;

    ghost WIDTH = { 2 };

    ghost value = { λ x. x };

    fn big(s: &[u8], k: usize) -> u16 {
        u16::from_be_bytes(array(s, k))
    }

    fn little(s: &[u8], k: usize) -> u16 {
        u16::from_le_bytes(array(s, k))
    }

    fn put_big(self, target: &mut [u8], k: usize) {
        copy_into(target, k, &self.to_be_bytes());
    }

    fn put_little(self, target: &mut [u8], k: usize) {
        copy_into(target, k, &self.to_le_bytes());
    }
}

impl Number for u32 {
    const WIDTH: usize = 4;

    ghost WIDTH = { 4 };

    ghost value = { λ x. x };

    fn big(s: &[u8], k: usize) -> u32 {
        u32::from_be_bytes(array(s, k))
    }

    fn little(s: &[u8], k: usize) -> u32 {
        u32::from_le_bytes(array(s, k))
    }

    fn put_big(self, target: &mut [u8], k: usize) {
        copy_into(target, k, &self.to_be_bytes());
    }

    fn put_little(self, target: &mut [u8], k: usize) {
        copy_into(target, k, &self.to_le_bytes());
    }
}

impl Number for u64 {
    const WIDTH: usize = 8;

    ghost WIDTH = { 8 };

    ghost value = { λ x. x };

    fn big(s: &[u8], k: usize) -> u64 {
        u64::from_be_bytes(array(s, k))
    }

    fn little(s: &[u8], k: usize) -> u64 {
        u64::from_le_bytes(array(s, k))
    }

    fn put_big(self, target: &mut [u8], k: usize) {
        copy_into(target, k, &self.to_be_bytes());
    }

    fn put_little(self, target: &mut [u8], k: usize) {
        copy_into(target, k, &self.to_le_bytes());
    }
}

// 32 bits read as a signed number, in two's complement: std's conversion, promised in the words of specs/ (`signed`).
pub fn to_signed(x: u32) -> i32
    ensures { result ≡ signed x }
{
    x.cast_signed()
}

// The 32 bits of a signed number: std's conversion, promised in the words of specs/ (`unsigned`).
pub fn to_unsigned(x: i32) -> u32
    ensures { result ≡ unsigned x }
{
    x.cast_unsigned()
}
