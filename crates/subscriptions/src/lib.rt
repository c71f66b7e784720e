// The subscription table over lent memory: records, and a store of 1432 octets for each.
#![tactic(auto)]

ghost use Rattle.std.specs.Prelude.{◌≡◌, ◌+◌, ◌*◌, ◌<◌, ◌≤◌, get_or, length, set};
ghost use Rattle.std.specs.List.{list_any, position};
ghost use Rattle.refusal.specs.Refusal.{first_of};
ghost use Rattle.subscription.specs.Record.{free_record, in_use, record_holds};
ghost use Rattle.subscription_step.specs.Step.{Room, record_after, tallied};
ghost use Rattle.subscription_table.specs.Table as table;
ghost use Rattle.subscription_table.specs.Table.{fits, step};
ghost use Rattle.subscription_decisions.specs.Calls.{size_checks, told};
ghost use Rattle.subscription_decisions.specs.Read.{octets_of, read_by};
ghost use Rattle.subscriptions.specs.Calls.{cleared, Lends, Obeys};
ghost use Rattle.subscriptions.specs.Read.{Reads};
ghost use Rattle.subscriptions.specs.Receive.{recorded};
ghost use Rattle.subscriptions.specs.Search.{granting, is_free};
ghost use Rattle.subscriptions.specs.Sweep.{store_stepped, Sweeps};

use arrival::Arrival;
use refusal::Refusal;
use statistics::Statistics;
use subscription::{Filter, Subscription};
use subscription_decisions::View;
use subscription_step::{Event, Tally};
use telegram::Family;

// The records and the store that a caller lends: slot k owns store octets 1432k to 1432k+1431. Two slices, since hosts
// lend two (`trdp_receive_pd`). No type says that a method leaves the two references in place, so clauses do (`Lends`).
#[derive(Drop)]
pub struct Table<'a> {
    pub slots: &'a mut [Subscription],
    pub store: &'a mut [u8],
}

impl<'a> Table<'a> {
    // Sizes that are wrong: 1.
    fn judge_sizes(&self) -> Result<(), Refusal>
        ensures { result ≡ first_of (size_checks (length self.now.slots.now) (length self.now.store.now)) }
    {
        subscription_decisions::judge_sizes(self.slots.len(), self.store.len())
    }

    // A telegram that passed checks 2 to 7, or the clock, at every slot; one that it does not concern stays. Or 1.
    pub fn sweep(&mut self, event: &Event, dataset: &[u8]) -> Result<Tally, Refusal>
        ensures lends { Lends self.old self.new }
        ensures sweeps { Sweeps event.now dataset.now self.old.slots.now self.old.store.now result
            self.new.slots.now self.new.store.now }
    {
        self.judge_sizes()?;
        let mut t = Tally::default();
        let slots = &mut *self.slots;
        let store = &mut *self.store;
        // The parts go by number: of what a zip with `chunks_exact_mut` leaves, no values are known.
        for (k, r) in slots.iter_mut().enumerate() {
            if event.is_concerning(r) {
                let from = k * 1432;
                event.step(dataset, r, &mut store[from..from + 1432], &mut t);
            }
        }
        Ok(t)
    }

    // The time check: every slot in use whose time is up is marked. Or 1.
    pub fn time_check(&mut self, time: u64) -> Result<usize, Refusal>
        ensures { Obeys (table.time_check time) self.old (told table.marked result) self.new }
    {
        let t = self.sweep(&Event::Clock(time), &[])?;
        Ok(t.changed)
    }

    // Slot k becomes a record, and its part is zeroed.
    #[tactic(auto, unfolding(subscription_table::specs::Slot::slot_octets))]
    fn renew(&mut self, k: usize, r: Subscription)
        requires slot { k < length self.old.slots.now }
        requires part { k * 1432 + 1432 ≤ length self.old.store.now }
        ensures lends { Lends self.old self.new }
        ensures slots { self.new.slots.now ≡ set self.old.slots.now k r }
        ensures store { self.new.store.now ≡ cleared k self.old.store.now }
    {
        self.slots[k] = r;
        octets::clear_part(self.store, k * 1432, 1432);
    }

    // Slot k is there, and in use.
    fn is_used(&self, k: usize) -> bool
        ensures { result ≡ in_use (get_or self.now.slots.now k free_record) }
    {
        slot_at(self.slots, k).is_used()
    }

    // Unsubscribing: slot k is freed and its part zeroed, or 1, 10.
    pub fn unsubscribe(&mut self, k: usize) -> Result<(), Refusal>
        ensures { Obeys (table.unsubscribe k) self.old (told (λ _. table.freed) result) self.new }
    {
        self.judge_sizes()?;
        if !self.is_used(k) {
            return Err(Refusal::NoSlot);
        }
        self.renew(k, Subscription::free());
        Ok(())
    }

    // The lowest free slot for a filter, or 11, 12, 13.
    fn free_slot(&self, f: &Filter) -> Result<usize, Refusal>
        ensures { result ≡ granting f.now self.now.slots.now }
    {
        if f.is_unsound() {
            Err(Refusal::Range)
        } else if is_held(self.slots, f) {
            Err(Refusal::FilterInUse)
        } else {
            lowest_free(self.slots).ok_or(Refusal::NoFreeSlot)
        }
    }

    // Subscribing: the lowest free slot is granted and its part zeroed, or 1, 11, 12, 13.
    // The values stand apart as in `Subscription::granted`; the behaviour is a number, since an enum would ask more.
    pub fn subscribe(
        &mut self,
        f: Filter,
        timeout: u32,
        behaviour: u8,
        time: u64,
    ) -> Result<usize, Refusal>
        ensures { Obeys (table.subscribe (record { filter = f; timeout = timeout; behaviour = behaviour }) time)
            self.old (told table.granted result) self.new }
    {
        self.judge_sizes()?;
        let k = self.free_slot(&f)?;
        self.renew(k, Subscription::granted(f, timeout, behaviour, time));
        Ok(k)
    }

    // A PD datagram is judged, and goes to every slot that it matches; or 1 to 9.
    fn deliver(&mut self, a: Arrival, datagram: &[u8]) -> Result<usize, Refusal>
        ensures { Obeys (table.telegram a datagram.now) self.old (told table.delivered result) self.new }
    {
        self.judge_sizes()?;
        let passed = subscription_decisions::judge(a, datagram)?;
        subscription_decisions::delivered(self.sweep(
            &Event::Telegram(passed.heard),
            passed.dataset,
        ))
    }

    // A PD datagram arrives: it is delivered or refused with 1 to 9, and the statistics count it.
    pub fn receive(
        &mut self,
        s: &mut Statistics,
        a: Arrival,
        datagram: &[u8],
    ) -> Result<usize, Refusal>
        ensures obeys { Obeys (table.telegram a datagram.now) self.old (told table.delivered result) self.new }
        ensures counts { s.new ≡ recorded (told table.delivered result) s.old }
    {
        let answer = self.deliver(a, datagram);
        count(s, &answer);
        answer
    }
}

// A slot in use has the filter.
fn is_held(slots: &[Subscription], f: &Filter) -> bool
    ensures { result ≡ list_any (record_holds f.now) slots.now }
{
    slots.iter().any(|r| r.is_holding(f))
}

// The lowest free slot.
fn lowest_free(slots: &[Subscription]) -> Option<usize>
    ensures { result ≡ position is_free slots.now }
{
    slots.iter().position(|r| !r.is_used())
}

// The answer to a telegram is counted; refusal 1 is not.
fn count(s: &mut Statistics, answer: &Result<usize, Refusal>)
    ensures { s.new ≡ recorded (told table.delivered answer.now) s.old }
{
    match *answer {
        Ok(_) => s.record(Family::Pd, 0),
        Err(Refusal::Sizes) => {}
        Err(r) => s.record(Family::Pd, r.into()),
    }
}

// The record of slot k; a number too large is read as a free slot.
// Slots and k stand in three functions: to read, C lends a table shared (`trdp_read`), and so it makes no `Table`.
pub fn slot_at(slots: &[Subscription], k: usize) -> Subscription
    ensures { result ≡ get_or slots.now k free_record }
{
    slots.get(k).copied().unwrap_or(Subscription::free())
}

// Reading slot k: its state, and which octets it shows, or 1, 10.
pub fn read(slots: &[Subscription], store: &[u8], k: usize) -> Result<View, Refusal>
    ensures reads { Reads k slots.now store.now result }
    ensures exact { result ≡ read_by (fits (length slots.now) (length store.now)) (get_or slots.now k free_record) }
{
    subscription_decisions::read_record(slots.len(), store.len(), &slot_at(slots, k))
}

// The octets that reading slot k shows, part of the store or of the substitute set; none where it refuses.
pub fn show<'a>(slots: &[Subscription], store: &'a [u8], k: usize, substitute: &'a [u8]) -> &'a [u8]
    ensures { result.now ≡ octets_of (step (table.read k substitute.now)
        (record { records = slots.now; store = store.now })).answer }
{
    subscription_decisions::show_record(slots.len(), &slot_at(slots, k), k, store, substitute)
}
