// Datasets: from the wire to host form and back, by descriptions in a lent run of numbers.
#![tactic(auto)]

ghost use Rattle.std.specs.Prelude.{◌≡◌, true, ◌+◌, ◌≤◌, ◌==◌, length, slice_index, map, drop, None};
ghost use Rattle.std.specs.List.{list_any};
ghost use Rattle.std.specs.Option.{option_map};
ghost use Rattle.std.specs.Result.{result_map_both};
ghost use Rattle.octets.specs.Octets.{part};
ghost use Rattle.scalars.specs.Scalars.{parts_of, size};
ghost use Rattle.dataset.specs.Descriptions.{element_of, look_up, headed};
ghost use Rattle.dataset.specs.Walk.{number_of, turned, times, counts, count_behind, items_of, nested_of, walk_of};
ghost use Rattle.dataset.specs.Walk.{whole_of, Converts};
ghost use Rattle.dataset.specs.Steps.{described_by, element, Stepped};

use octets::Number;
use refusal::Refusal;
use scalars::Shape;

// The form of the data walked.
#[derive(Clone, Copy)]
pub enum Form {
    // Big endian.
    Wire,
    // Little endian without gaps.
    Host,
}

impl Form {
    // The number in the octets of s at k.
    fn number<N: Number>(self, s: &[u8], k: usize) -> N
        requires { k + N.WIDTH ≤ length s.now }
        ensures { N.value result ≡ number_of self (part N.WIDTH k s.now) }
    {
        match self {
            Form::Wire => N::big(s, k),
            Form::Host => N::little(s, k),
        }
    }
}

// One of the elements has type 0.
fn has_no_type(elements: &[[u32; 2]]) -> bool
    ensures { result ≡ list_any (λ e. slice_index e 0 == 0) elements.now }
{
    elements.iter().any(|[t, _]| *t == 0)
}

// The description at the head of a run: its id, its elements, each a type and a count, and the run behind it;
// nothing where it is malformed.
fn description(run: &[u32]) -> Option<(u32, &[[u32; 2]], &[u32])>
    ensures { option_map (λ p. described_by p.0 p.1.now p.2.now) result ≡ headed run.now }
{
    let [id, n, run @ ..] = run else {
        return None;
    };
    let (elements, rest) = run.split_at_checked(2 * *n as usize)?;
    let (elements, _) = elements.as_chunks::<2>();
    if *id <= 16 || elements.is_empty() || has_no_type(elements) {
        return None;
    }
    Some((*id, elements, rest))
}

// The elements of the first description of an id.
fn look_up(run: &[u32], id: u32) -> Result<&[[u32; 2]], Refusal>
    ensures { result_map_both (λ es. map element_of es.now) (λ r. r) result ≡ look_up id run.now }
{
    if run.len() > 4096 {
        return Err(Refusal::Description);
    }
    let mut rest = run;
    // Goes over what is left of the run: an iterator would be a struct with an impl, longer than this loop.
    while !rest.is_empty() {
        let (head, elements, more) = description(rest).ok_or(Refusal::Description)?;
        if head == id {
            return Ok(elements);
        }
        rest = more;
    }
    Err(Refusal::NotDescribed)
}

// Data of a form, the descriptions that they are walked by, and how many levels are left: judged, or written too.
// `in_source` and `room` stand with each method: both speak of arguments, a place and a target, that no field has.
// Tried: no ghost field stands beside a const bool, since the check cannot state such an item.
// WRITE is a const: an Option of a target would be opened and lent on anew at each level, where it never changes.
// Source and target are no slices from the place on: `scalars::turn` writes at the same place of both, and where the
// data are only judged, the target may be shorter.
#[derive(Clone, Copy)]
struct Walk<'a, const WRITE: bool> {
    form: Form,
    run: &'a [u32],
    source: &'a [u8],
    levels: usize,
}

impl<const WRITE: bool> Walk<'_, WRITE> {
    // n scalars of a type from p on: the place behind them. t is a number of the run, which may say any (`parts_of`).
    fn scalars(&self, t: u32, n: u32, p: usize, target: &mut [u8]) -> Result<usize, Refusal>
        requires in_source { p ≤ length self.now.source.now }
        requires room { WRITE ≡ true → length self.now.source.now ≤ length target.old }
        ensures { Stepped (times n (turned (parts_of t)) (drop p self.now.source.now))
            (length self.now.source.now) p WRITE target.old result target.new }
    {
        let shape = Shape::of(t);
        let items = n as usize;
        let long = items * shape.size();
        if self.source.len() - p < long {
            return Err(Refusal::DataLength);
        }
        if WRITE {
            shape.turn(items, self.source, p, target);
        }
        Ok(p + long)
    }

    // The value of a single UINT8, UINT16 or UINT32 at p, which a count of 0 behind it takes. t is a number of the run.
    fn count_behind(&self, t: u32, count: u32, p: usize) -> Option<u32>
        requires { count ≡ 1 → counts t ≡ true → p + size (parts_of t) ≤ length self.now.source.now }
        ensures { result ≡ count_behind self.now.form (element t count) (drop p self.now.source.now) }
    {
        if count != 1 {
            return None;
        }
        match t {
            8 => Some(u32::from(self.source[p])),
            9 => Some(u32::from(self.form.number::<u16>(self.source, p))),
            10 => Some(self.form.number(self.source, p)),
            _ => None,
        }
    }

    // n datasets of an id from a place on: the place behind them.
    #[cycle(walk)]
    fn datasets(&self, id: u32, n: u32, from: usize, target: &mut [u8]) -> Result<usize, Refusal>
        requires in_source { from ≤ length self.now.source.now }
        requires room { WRITE ≡ true → length self.now.source.now ≤ length target.old }
        ensures { Stepped (nested_of self.now.levels self.now.form self.now.run.now id n
            (drop from self.now.source.now)) (length self.now.source.now) from WRITE target.old result target.new }
    {
        if n == 0 {
            return Ok(from);
        }
        if self.levels == 0 {
            return Err(Refusal::Nesting);
        }
        let elements = look_up(self.run, id)?;
        let inner = Walk {
            levels: self.levels - 1,
            ..*self
        };
        let mut p = from;
        for _ in 0..n {
            p = inner.dataset(elements, p, target)?;
        }
        Ok(p)
    }

    // A dataset of these elements from a place on: the place behind it.
    #[cycle(walk)]
    fn dataset(
        &self,
        elements: &[[u32; 2]],
        from: usize,
        target: &mut [u8],
    ) -> Result<usize, Refusal>
        requires in_source { from ≤ length self.now.source.now }
        requires room { WRITE ≡ true → length self.now.source.now ≤ length target.old }
        ensures { Stepped (walk_of self.now.form (nested_of self.now.levels self.now.form self.now.run.now)
            (map element_of elements.now) None (drop from self.now.source.now))
            (length self.now.source.now) from WRITE target.old result target.new }
    {
        let mut p = from;
        let mut before = None;
        for [t, count] in elements {
            let n = (*count != 0)
                .then_some(*count)
                .or(before)
                .ok_or(Refusal::Description)?;
            // t stays the run's number: below 17 a scalar's type, else a dataset's id (`items_of`).
            let q = if *t < 17 {
                self.scalars(*t, n, p, target)
            } else {
                self.datasets(*t, n, p, target)
            }?;
            before = self.count_behind(*t, *count, p);
            p = q;
        }
        Ok(p)
    }
}

// The dataset of an id, in one form, written to the target in the other: how many octets; or a refusal, which leaves
// the target as it was.
pub fn convert(
    form: Form,
    run: &[u32],
    id: u32,
    source: &[u8],
    target: &mut [u8],
) -> Result<usize, Refusal>
    ensures { Converts (whole_of form run.now id source.now) (length source.now) target.old result target.new }
{
    let levels = 5;
    let judging = Walk::<false> {
        form,
        run,
        source,
        levels,
    };
    let p = judging.datasets(id, 1, 0, target)?;
    if p != source.len() {
        return Err(Refusal::DataLength);
    }
    if target.len() < p {
        return Err(Refusal::DataTarget);
    }
    let writing = Walk::<true> {
        form,
        run,
        source,
        levels,
    };
    writing.datasets(id, 1, 0, target)
}
