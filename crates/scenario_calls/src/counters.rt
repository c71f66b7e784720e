// The statistics in words.
ghost use Rattle.answer.specs.Lent.{Fills};
ghost use Rattle.scenario_calls.specs.Counters.{decimals, counters_words, statistics_words};

use answer::Room;
use statistics::{Counters, Statistics};

// Numbers in decimal one after the other.
fn put_all(out: &mut Room, numbers: &[u32])
    ensures { Fills (decimals numbers.now) out.old out.new }
{
    for n in numbers {
        out.decimal(u64::from(*n));
    }
}

// Received, delivered, and the refusals 2 to 8, which both families have.
fn put_counters(out: &mut Room, family: &[u8], c: &Counters)
    ensures { Fills (counters_words family.now c.now) out.old out.new }
{
    out.word(family);
    out.decimal(u64::from(c.received));
    out.decimal(u64::from(c.delivered));
    put_all(out, &c.refused[2..9]);
}

// `pd` and its counters, then `md` and its.
pub fn put_statistics(out: &mut Room, s: &Statistics)
    ensures { Fills (statistics_words s.now) out.old out.new }
{
    put_counters(out, b"pd", &s.pd);
    put_all(out, &s.pd.refused[9..10]);
    put_counters(out, b"md", &s.md);
    put_all(out, &s.md.refused[17..21]);
}
