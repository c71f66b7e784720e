// URI fields: sound, empty, compared up to the first zero octet.
ghost use Rattle.std.specs.Prelude.{◌≡◌};
ghost use Rattle.md.specs.Uri.{same_uri, sound, empty};

// A field has a zero octet; else refusal 20.
pub fn is_sound(u: &[u8]) -> bool
    ensures { result ≡ sound u.now }
{
    u.contains(&0)
}

// A field's first octet is zero, or it has none.
pub fn is_empty(u: &[u8]) -> bool
    ensures { result ≡ empty u.now }
{
    u.is_empty() || u[0] == 0
}

// Two fields bear the same URI, each up to its first zero octet; `==` would look at the octets behind it too. Both are
// gone through side by side, no further than they tell: most URIs differ early.
pub fn are_same(a: &[u8], b: &[u8]) -> bool
    ensures { result ≡ same_uri a.now b.now }
{
    let (mut u, mut v) = (a, b);
    // Goes over what is left of both: behind a zip nothing is left to look at.
    while let (Some((x, s)), Some((y, t))) = (u.split_first(), v.split_first()) {
        if x != y {
            return false;
        }
        if *x == 0 {
            return true;
        }
        u = s;
        v = t;
    }
    is_empty(u) && is_empty(v)
}
