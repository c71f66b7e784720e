// An answer gathered in a room of octets, piece by piece. A piece that does not fit is left out, and then the place is
// the room's end.
#![tactic(auto)]

ghost use Rattle.std.specs.Prelude.{◌≡◌, ℕ, [], ◌∷◌};
ghost use Rattle.answer.specs.Answer.{spaced, decimal_of, granted_words, done_words};
ghost use Rattle.answer.specs.Answer.{decimal as decimal_word, number as number_word, octets as octets_word, signed as signed_word, word_of, refused as refused_word};
ghost use Rattle.answer.specs.Lent.{Fills};

use refusal::Refusal;

// A number that is put in as many hexadecimal digits as its type has. The impls are alike, but an impl is not to be
// written by a macro of the repository.
// Beside `octets::Number`, which would have to carry the law `same` of a conversion that nothing else needs.
pub trait Number: Copy + Into<u64> {
    ghost DIGITS: { ℕ };

    ghost value: { Self → ℕ };

    // Converted it is the same number.
    ghost same: { (x : Self) (n : ℕ) → Self.Into.converts x n → n ≡ value x };

    const DIGITS: usize;
}

impl Number for u16 {
    ghost DIGITS = { 4 };

    ghost value = { λ x. x };

    ghost same = { λ x n e. e };

    const DIGITS: usize = 4;
}

impl Number for u32 {
    ghost DIGITS = { 8 };

    ghost value = { λ x. x };

    ghost same = { λ x n e. e };

    const DIGITS: usize = 8;
}

impl Number for u64 {
    ghost DIGITS = { 16 };

    ghost value = { λ x. x };

    ghost same = { λ x n e. e };

    const DIGITS: usize = 16;
}

// A lent room, and the place where the next piece goes: no std::io::Cursor, which would take part of a piece that does
// not fit (`put_piece` leaves it out whole).
#[derive(Drop)]
pub struct Room<'a> {
    pub octets: &'a mut [u8],
    pub at: usize,
}

impl<'a> Room<'a> {
    // Octets put at the place.
    pub fn text(&mut self, s: &[u8])
        ensures { Fills (s.now ∷ []) self.old self.new }
    {
        if self.at <= self.octets.len() && s.len() <= self.octets.len() - self.at {
            octets::copy_into(self.octets, self.at, s);
            self.at += s.len();
        } else {
            self.at = self.octets.len();
        }
    }

    // A space and a word. `decimal` is alike, but one function for both would be longer than their two lines.
    pub fn word(&mut self, s: &[u8])
        ensures { Fills (spaced s.now) self.old self.new }
    {
        self.text(b" ");
        self.text(s);
    }

    // A number in decimal.
    pub fn digits(&mut self, x: u64)
        ensures { Fills (decimal_of x ∷ []) self.old self.new }
    {
        let mut d = [0u8; 20];
        let n = io::decimal(x, &mut d);
        self.text(&d[..n]);
    }

    // A space and a number in decimal.
    pub fn decimal(&mut self, x: u64)
        ensures { Fills (decimal_word x) self.old self.new }
    {
        self.text(b" ");
        self.digits(x);
    }

    // A space and a number in so many hexadecimal digits.
    fn digits_of(&mut self, width: usize, x: u64)
        ensures { Fills (number_word width x) self.old self.new }
    {
        self.text(b" ");
        if width <= self.octets.len() - self.at {
            hexadecimal::put_number(self.octets, self.at, width, x);
            self.at += width;
        } else {
            self.at = self.octets.len();
        }
    }

    // A space and a number in the hexadecimal digits of its type.
    pub fn number<T: Number>(&mut self, x: T)
        ensures { Fills (number_word T.DIGITS (T.value x)) self.old self.new }
    {
        self.digits_of(T::DIGITS, x.into());
    }

    // A space and a signed number in decimal.
    pub fn signed(&mut self, x: i32)
        ensures { Fills (signed_word x) self.old self.new }
    {
        if x < 0 {
            self.text(b" -");
            self.digits(u64::from(x.unsigned_abs()));
        } else {
            self.decimal(u64::from(x.unsigned_abs()));
        }
    }

    // A space and octets in hexadecimal.
    pub fn octets(&mut self, s: &[u8])
        ensures { Fills (octets_word s.now) self.old self.new }
    {
        self.text(b" ");
        if s.len() <= (self.octets.len() - self.at) / 2 {
            hexadecimal::put_octets(self.octets, self.at, s);
            self.at += 2 * s.len();
        } else {
            self.at = self.octets.len();
        }
    }

    // A space, a word and a number in decimal.
    pub fn word_of(&mut self, s: &[u8], x: usize)
        ensures { Fills (word_of s.now x) self.old self.new }
    {
        self.word(s);
        self.decimal(x as u64);
    }

    // `refused` and a number of document 01: a refusal's, or the number itself.
    pub fn refused<R: Into<u8>>(&mut self, refusal: R)
        ensures { (number : ℕ) × R.converts refusal number × Fills (refused_word number) self.old self.new }
    {
        self.word_of(b"refused", usize::from(refusal.into()));
    }

    // What was granted, behind its word; or the refusal.
    pub fn granted(&mut self, word: &[u8], granted: Result<usize, Refusal>)
        ensures { Fills (granted_words word.now granted) self.old self.new }
    {
        match granted {
            Ok(n) => self.word_of(word, n),
            Err(r) => self.refused(r),
        }
    }

    // What was done, in a word; or the refusal. One function with `granted` would take a closure for what is put on Ok.
    pub fn done(&mut self, word: &[u8], done: Result<(), Refusal>)
        ensures { Fills (done_words word.now done) self.old self.new }
    {
        match done {
            Ok(()) => self.word(word),
            Err(r) => self.refused(r),
        }
    }
}
