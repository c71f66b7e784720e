// The calls over lent memory, for programs that hold their tables by value: each is lent the first of forty slots.
#![tactic(auto)]

ghost use Rattle.std.specs.Prelude.{◌≡◌, [], ◌∷◌, min, take};
ghost use Rattle.std.specs.Fn.{FnOnceReturnsAtMut};
ghost use Rattle.subscription_table.specs.Table as table;
ghost use Rattle.subscription_decisions.specs.Calls.{told};
ghost use Rattle.subscriptions.specs.Read.{Reads};
ghost use Rattle.subscriptions.specs.Receive as arriving;
ghost use Rattle.lent.specs.Lent.{Serves, Receives, Runs};

use arrival::Arrival;
use refusal::Refusal;
use statistics::Statistics;
use std::slice;
use subscription::{Filter, Subscription};
use subscription_decisions::View;
use subscriptions::Table;

// The records, in fixed memory, and how many of them and how many octets of the store each call is lent.
// The numbers stand beside the records since memory is fixed, and a call may be lent more slots than 32 (refusal 1).
// The store is lent to each call and is no field: a reference in it would need a clause that it stays (`Lends`).
#[derive(Clone, Copy)]
pub struct Slots {
    pub records: [Subscription; 40],
    pub lent: usize,
    pub octets: usize,
}

impl Slots {
    // How many slots are lent: more than 40 is read as 40.
    fn count(&self) -> usize
        ensures { result ≡ min self.now.lent 40 }
    {
        self.lent.min(40)
    }

    // A call on the slots and octets that are lent.
    fn with_table<R, F: FnOnce(&mut Table) -> R>(&mut self, store: &mut [u8], f: F) -> R
        requires { F.IsAlwaysCallable f }
        ensures { Runs (FnOnceReturnsAtMut F.FnOnce f) self.old store.old result self.new store.new }
    {
        let n = self.count();
        let m = self.octets.min(store.len());
        let (slots, _) = self.records[..].split_at_mut(n);
        let (store, _) = store.split_at_mut(m);
        f(&mut Table { slots, store })
    }

    // Subscribing. The values stand apart and the behaviour is a number, as in `subscriptions::Table::subscribe`.
    pub fn subscribe(
        &mut self,
        store: &mut [u8],
        f: Filter,
        timeout: u32,
        behaviour: u8,
        time: u64,
    ) -> Result<usize, Refusal>
        ensures { Serves (table.subscribe (record { filter = f; timeout = timeout; behaviour = behaviour }) time)
            self.old store.old (told table.granted result) self.new store.new }
    {
        self.with_table(store, |t| t.subscribe(f, timeout, behaviour, time))
    }

    // Unsubscribing.
    pub fn unsubscribe(&mut self, store: &mut [u8], k: usize) -> Result<(), Refusal>
        ensures { Serves (table.unsubscribe k) self.old store.old (told (λ _. table.freed) result) self.new store.new }
    {
        self.with_table(store, |t| t.unsubscribe(k))
    }

    // The time check.
    pub fn time_check(&mut self, store: &mut [u8], time: u64) -> Result<usize, Refusal>
        ensures { Serves (table.time_check time) self.old store.old (told table.marked result) self.new store.new }
    {
        self.with_table(store, |t| t.time_check(time))
    }

    // A PD datagram arrives. No closure: of the statistics, lent to it by reference, nothing would be known.
    pub fn receive(
        &mut self,
        store: &mut [u8],
        statistics: &mut Statistics,
        a: Arrival,
        datagram: &[u8],
    ) -> Result<usize, Refusal>
        ensures { Receives a datagram.now self.old store.old statistics.old (told table.delivered result)
            self.new store.new statistics.new }
    {
        let n = self.count();
        let m = self.octets.min(store.len());
        let slots = &mut self.records[..n];
        receive_at(slots, &mut store[..m], statistics, a, datagram)
    }

    // Reading slot k.
    pub fn read(&self, store: &[u8], k: usize) -> Result<View, Refusal>
        ensures { Reads k (take self.now.lent self.now.records) (take self.now.octets store.now) result }
    {
        let n = self.count();
        let m = self.octets.min(store.len());
        subscriptions::read(&self.records[..n], &store[..m], k)
    }
}

// A PD datagram arrives at these slots.
fn receive_at(
    slots: &mut [Subscription],
    store: &mut [u8],
    statistics: &mut Statistics,
    a: Arrival,
    datagram: &[u8],
) -> Result<usize, Refusal>
    ensures { arriving.Receives a datagram.now slots.old store.old statistics.old (told table.delivered result)
        slots.new store.new statistics.new }
{
    Table { slots, store }.receive(statistics, a, datagram)
}

// A PD datagram arrives at a slot that is a table's only one.
pub fn receive_alone(
    slot: &mut Subscription,
    store: &mut [u8],
    statistics: &mut Statistics,
    a: Arrival,
    datagram: &[u8],
) -> Result<usize, Refusal>
    ensures { arriving.Receives a datagram.now (slot.old ∷ []) store.old statistics.old (told table.delivered result)
        (slot.new ∷ []) store.new statistics.new }
{
    receive_at(slice::from_mut(slot), store, statistics, a, datagram)
}
