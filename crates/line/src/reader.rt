// The fields of a line read one after the other. Where the line has another form a field is nothing.
ghost use Rattle.std.specs.Prelude.{◌≡◌, List, ℕ, false, true, cond, ◌+◌, ◌*◌, ◌<◌, ◌≤◌, length, drop};
ghost use Rattle.std.specs.Prelude.{MatchOption, IfSome, Some, None};
ghost use Rattle.std.specs.Counts.{IsPrefixLen};
ghost use Rattle.octets.specs.Octets.{part};
ghost use Rattle.hexadecimal.specs.Hex.{number, octets_of};
ghost use Rattle.line.specs.Line.{has_digits, is_nothing, target_after, eight, four};
ghost use Rattle.line.specs.Read.{Reads, words_in, last_in};

use std::marker::Model;

// What is left of a line. A contract sees these octets.
#[derive(Drop)]
pub struct Fields<'a> {
    rest: &'a [u8],
}

impl<'a> Model for Fields<'a> {
    ghost Value = { List ℕ };

    ghost view = { λ f. f.rest.now };
}

impl<'a> Fields<'a> {
    // What stands behind a verb of n letters.
    pub fn behind(line: &'a [u8], n: usize) -> Fields<'a>
        ensures { result ≡ drop n line.now }
    {
        Fields {
            rest: line.get(n..).unwrap_or(&[]),
        }
    }

    // What stands behind n octets of a line; nothing where it has fewer, and no field stands there, nor its end.
    pub fn after(line: &'a [u8], n: usize) -> Option<Fields<'a>>
        ensures { MatchOption result (length line.now < n) (λ f. (n ≤ length line.now) × (f ≡ drop n line.now)) }
    {
        let (_, rest) = line.split_at_checked(n)?;
        Some(Fields { rest })
    }

    // The n digits of a field: a space stands before them.
    fn digits(&mut self, n: usize) -> Option<&'a [u8]>
        ensures digits { MatchOption result (has_digits self.old n ≡ false)
            (λ d. (has_digits self.old n ≡ true) × (d.now ≡ part n 1 self.old)) }
        ensures rest { self.new ≡ cond (has_digits self.old n) (drop (n + 1) self.old) self.old }
    {
        let [b' ', behind @ ..] = self.rest else {
            return None;
        };
        let (digits, rest) = behind.split_at_checked(n)?;
        if !hexadecimal::is_hex(digits) {
            return None;
        }
        self.rest = rest;
        Some(digits)
    }

    // The number of a field of n digits, at most 16.
    pub fn number(&mut self, n: usize) -> Option<u64>
        requires { n ≤ 16 }
        ensures { Reads n (number 0) self.old result self.new }
    {
        Some(hexadecimal::number(self.digits(n)?))
    }

    // The number of a field of 8 digits.
    pub fn word(&mut self) -> Option<u32>
        ensures { Reads 8 (λ d. eight (number 0 d)) self.old result self.new }
    {
        Some((self.number(8)? % 4294967296) as u32)
    }

    // The number of a field of 4 digits. Beside `word`, since another remainder is promised (`four`, `eight`).
    pub fn half(&mut self) -> Option<u16>
        ensures { Reads 4 (λ d. four (number 0 d)) self.old result self.new }
    {
        Some((self.number(4)? % 65536) as u16)
    }

    // The numbers of N fields of 8 digits each.
    pub fn words<const N: usize>(&mut self) -> Option<[u32; N]>
        ensures words { result ≡ words_in N self.old }
        ensures rest { IfSome result (λ _. self.new ≡ drop (9 * N) self.old) }
    {
        let mut words = [0; N];
        for i in 0..N {
            words[i] = self.word()?;
        }
        Some(words)
    }

    // A field of as many octets as the target has. A line of another form leaves the target as it was.
    pub fn octets(&mut self, target: &mut [u8]) -> Option<()>
        ensures reads { Reads (2 * length target.old) (λ _. tt) self.old result self.new }
        ensures target_after { target.new ≡ cond (has_digits self.old (2 * length target.old))
            (octets_of (part (2 * length target.old) 1 self.old)) target.old }
    {
        hexadecimal::decode(self.digits(2 * target.len())?, target);
        Some(())
    }

    // A field of N octets.
    pub fn array<const N: usize>(&mut self) -> Option<[u8; N]>
        ensures { Reads (2 * N) octets_of self.old result self.new }
    {
        let mut octets = [0; N];
        self.octets(&mut octets)?;
        Some(octets)
    }

    // How many octets the last field has: an even number of digits, and no more octets than the target has. A line of
    // another form leaves the target as it was. A count: a part of the target handed out would keep it lent for writing.
    pub fn last(&self, target: &mut [u8]) -> Option<usize>
        ensures prefix_len { IfSome result (λ n. IsPrefixLen n target.new) }
        ensures value { result ≡ last_in self.now (length target.old) }
        ensures target_after { target.new ≡ target_after self.now target.old }
    {
        let [b' ', digits @ ..] = self.rest else {
            return None;
        };
        let n = digits.len() / 2;
        if digits.len() % 2 != 0 || target.len() < n || !hexadecimal::is_hex(digits) {
            return None;
        }
        hexadecimal::decode(digits, target);
        Some(n)
    }

    // The line ends here.
    pub fn end(&self) -> Option<()>
        ensures { result ≡ cond (is_nothing self.now) (Some tt) None }
    {
        if self.rest.is_empty() { Some(()) } else { None }
    }
}
