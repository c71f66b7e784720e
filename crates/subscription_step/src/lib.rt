// One slot at an event: its record, its part of the store, and the tally carried on; and what reading shows of it.
#![tactic(auto)]

ghost use Rattle.std.specs.Prelude.{◌≡◌, ◌+◌, [], length};
ghost use Rattle.subscription_step.specs.declared.Event.TheVariants.{Clock, Telegram};
ghost use Rattle.subscription_step.specs.Step.{concerns, one, Room, Steps, stored_at, shown_at};

use subscription::{Heard, Subscription};

// How many slots a telegram matched, and how many took it or were marked. That both can grow by one more is asked of
// each step (`Room`) and no invariant of the type: what is left shrinks from slot to slot.
#[derive(Clone, Copy, Default)]
pub struct Tally {
    pub matched: usize,
    pub changed: usize,
}

// What happens at every slot of a table: a telegram arrives, or the clock is looked at. An enum and no closures: the
// rules are written by event (`concerns`, `record_after`, `part_after`), so a sweep's contract names which one it was.
#[derive(Clone, Copy)]
pub enum Event {
    Telegram(Heard),
    Clock(u64),
}

impl Tally {
    // One more slot, maybe reached and maybe changed.
    fn count(&mut self, reached: bool, changed: bool)
        requires { Room 1 self.old }
        ensures { self.new ≡
            record { matched = self.old.matched + one reached; changed = self.old.changed + one changed } }
    {
        self.matched += reached as usize;
        self.changed += changed as usize;
    }
}

impl Event {
    // The event concerns a slot: its filter matches the telegram, or its time is up.
    pub fn is_concerning(&self, r: &Subscription) -> bool
        ensures { result ≡ concerns self.now r.now }
    {
        match self {
            Event::Telegram(h) => r.is_wanted(h),
            Event::Clock(time) => r.is_due(*time),
        }
    }

    // The event at one slot: its record and its part of the store step, and the tally is carried on.
    pub fn step(&self, dataset: &[u8], r: &mut Subscription, part: &mut [u8], t: &mut Tally)
        requires room { Room 1 t.old }
        requires part_len { length part.old ≡ 1432 }
        ensures { Steps self.now dataset.now r.old t.old part.old r.new t.new part.new }
    {
        match self {
            Event::Telegram(h) => hear(h, dataset, r, part, t),
            Event::Clock(time) => look(*time, r, part, t),
        }
    }
}

// A telegram at one slot: freshness is known before an octet is copied.
// A struct of record, part and tally would need a clause that they are lent on, as `Lends` of `subscriptions::Table`.
fn hear(h: &Heard, dataset: &[u8], r: &mut Subscription, part: &mut [u8], t: &mut Tally)
    requires room { Room 1 t.old }
    requires part_len { length part.old ≡ 1432 }
    ensures { Steps (Telegram h.now) dataset.now r.old t.old part.old r.new t.new part.new }
{
    let is_taken = dataset.len() <= 1432 && r.is_taken(h);
    t.count(r.is_wanted(h), is_taken);
    if is_taken {
        octets::copy_into(part, 0, dataset);
        r.take(h, dataset.len() as u32);
    }
}

// The clock at one slot.
fn look(time: u64, r: &mut Subscription, part: &mut [u8], t: &mut Tally)
    requires { Room 1 t.old }
    ensures { Steps (Clock time) [] r.old t.old part.old r.new t.new part.new }
{
    let is_due = r.is_due(time);
    t.count(false, is_due);
    if is_due {
        if r.behaviour == 0 {
            part.fill(0);
        }
        r.mark();
    }
}

// The n octets of slot k's part of a store; nothing where the store has no such part.
fn stored(store: &[u8], k: usize, n: u32) -> &[u8]
    ensures { result.now ≡ stored_at k n store.now }
{
    if store.len() / 1432 < k {
        return &[];
    }
    let from = k * 1432;
    store.get(from..from + n as usize).unwrap_or(&[])
}

// What reading slot k shows: the substitute set whole, or the first stored-length octets of its part.
// Slot, store and substitute set stand apart: each caller has them apart, and a struct would be made for this alone.
pub fn show<'a>(r: &Subscription, k: usize, store: &'a [u8], substitute: &'a [u8]) -> &'a [u8]
    ensures { result.now ≡ shown_at r.now k store.now substitute.now }
{
    if r.is_substituted() {
        substitute
    } else {
        stored(store, k, r.length)
    }
}
