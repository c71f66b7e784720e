// Scalars turned round, one and in arrays: the octets of each part in the other order.
#![tactic(auto)]

ghost use Rattle.std.specs.Prelude.{◌≡◌, [], ◌∷◌, ◌+◌, ◌*◌, ◌≤◌, length};
ghost use Rattle.octets.specs.Octets.{put};
ghost use Rattle.scalars.specs.Scalars.{parts, parts_of, shape_parts, size, array_at};

use octets::Number;

// The shape of a scalar: in which parts its octets are turned round, each by itself.
// Empty stands for no type, as `parts_of` gives it no parts; an Option would be unwrapped to the same.
#[derive(Clone, Copy, Debug, PartialEq, Eq)]
pub enum Shape {
    Empty,
    One,
    Two,
    Four,
    Eight,
    FourTwo,
    FourFour,
}

// The shape of a number, in the order of `shapes`; Empty where that list has no such number.
impl From<usize> for Shape {
    ghost from_gives = { λ k shape. parts shape ≡ shape_parts k };

    fn from(k: usize) -> Shape {
        match k {
            1 => Shape::One,
            2 => Shape::Two,
            3 => Shape::Four,
            4 => Shape::Eight,
            5 => Shape::FourTwo,
            6 => Shape::FourFour,
            _ => Shape::Empty,
        }
    }
}

// n scalars from p on that are numbers: read least significant octet first, written big endian.
// The four parameters are those of `turn`; over parts alone each arm of it would need a law from a part to the whole.
fn turn_numbers<W: Number>(n: usize, source: &[u8], p: usize, target: &mut [u8])
    requires in_source { p + n * W.WIDTH ≤ length source.now }
    requires in_target { p + n * W.WIDTH ≤ length target.old }
    ensures { target.new ≡ put p (array_at n (W.WIDTH ∷ []) p source.now) target.old }
{
    for i in 0..n {
        let q = p + i * W::WIDTH;
        W::little(source, q).put_big(target, q);
    }
}

// n scalars from p on, TIMEDATE48: four octets, then two. Beside `turn_numbers`, since these alone have two sizes.
fn turn_dates(n: usize, source: &[u8], p: usize, target: &mut [u8])
    requires in_source { p + n * 6 ≤ length source.now }
    requires in_target { p + n * 6 ≤ length target.old }
    ensures { target.new ≡ put p (array_at n (4 ∷ 2 ∷ []) p source.now) target.old }
{
    for i in 0..n {
        let q = p + i * 6;
        u32::little(source, q).put_big(target, q);
        u16::little(source, q + 4).put_big(target, q + 4);
    }
}

impl Shape {
    // The shape of a scalar type; Empty where there is none. A number, since a lent run may say any (`parts_of`).
    // No `From`: the one above takes a shape's own number, and a `From<u32>` beside it would mean another thing.
    pub fn of(t: u32) -> Shape
        ensures { parts result ≡ parts_of t }
    {
        match t {
            1 | 2 | 4 | 8 => Shape::One,
            3 | 5 | 9 => Shape::Two,
            6 | 10 | 12 | 14 => Shape::Four,
            7 | 11 | 13 => Shape::Eight,
            15 => Shape::FourTwo,
            16 => Shape::FourFour,
            _ => Shape::Empty,
        }
    }

    // How many octets a scalar of this shape has.
    pub fn size(self) -> usize
        ensures { result ≡ size (parts self) }
    {
        match self {
            Shape::Empty => 0,
            Shape::One => 1,
            Shape::Two => 2,
            Shape::Four => 4,
            Shape::FourTwo => 6,
            Shape::Eight | Shape::FourFour => 8,
        }
    }

    // n scalars of this shape from p on, each part turned round by itself, written to the target at p.
    pub fn turn(self, n: usize, source: &[u8], p: usize, target: &mut [u8])
        requires in_source { p + n * size (parts self) ≤ length source.now }
        requires in_target { p + n * size (parts self) ≤ length target.old }
        ensures { target.new ≡ put p (array_at n (parts self) p source.now) target.old }
    {
        match self {
            Shape::Empty => {}
            Shape::One => octets::copy_into(target, p, &source[p..p + n]),
            Shape::Two => turn_numbers::<u16>(n, source, p, target),
            Shape::Four => turn_numbers::<u32>(n, source, p, target),
            Shape::Eight => turn_numbers::<u64>(n, source, p, target),
            Shape::FourTwo => turn_dates(n, source, p, target),
            Shape::FourFour => turn_numbers::<u32>(n * 2, source, p, target),
        }
    }
}
