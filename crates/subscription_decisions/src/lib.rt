// What the calls over the subscription table decide by value: sizes, a datagram, an answer, what a record shows.
#![tactic(auto)]

ghost use Rattle.std.specs.Prelude.{◌≡◌, ltb, length};
ghost use Rattle.refusal.specs.Refusal.{first_of};
ghost use Rattle.subscription_table.specs.Slot.{judged};
ghost use Rattle.subscription_table.specs.Table as table;
ghost use Rattle.subscription_table.specs.Table.{delivered_to, fits};
ghost use Rattle.subscription_decisions.specs.Calls.{Delivers, judged_as, size_checks, told};
ghost use Rattle.subscription_decisions.specs.Read.{read_by, shown, octets_of};

use arrival::Arrival;
use pd::PdHeader;
use refusal::Refusal;
use subscription::{Heard, State, Subscription};
use subscription_step::Tally;

// A telegram that passed checks 2 to 7, as the slots hear it, and its dataset.
#[derive(Clone, Copy)]
pub struct Passed<'a> {
    pub heard: Heard,
    pub dataset: &'a [u8],
}

// What reading a slot shows: its state, and the substitute set or the first octets of its part.
#[derive(Clone, Copy, Debug, PartialEq, Eq)]
pub struct View {
    pub state: State,
    // Beside the length, which is told of a slot that shows the substitute set too (`read_by`).
    pub substitute: bool,
    pub length: u32,
}

// At most 32 slots, and 1432 octets for each; else 1. By two numbers: slices would ask more of callers.
#[tactic(auto, using(refusal::proofs::Tests::tests), unfolding(subscription_table::specs::Table::fits, subscription_table::specs::Slot::slot_octets))]
pub fn judge_sizes(slots: usize, octets: usize) -> Result<(), Refusal>
    ensures { result ≡ first_of (size_checks slots octets) }
{
    if slots <= 32 && octets == slots * 1432 {
        Ok(())
    } else {
        Err(Refusal::Sizes)
    }
}

// A datagram that arrives: the first refusal of 2 to 7, or what the slots hear of it.
// Beside its octets, in no struct with them: C gives the arrival by value and lends the octets (`trdp_receive_pd`).
pub fn judge<'a>(a: Arrival, datagram: &'a [u8]) -> Result<Passed<'a>, Refusal>
    ensures { judged_as result ≡ judged a datagram.now }
{
    let common = telegram::take::<PdHeader>(datagram)?.common;
    if !a.is_local(common) {
        return Err(Refusal::Topography);
    }
    let heard = Heard {
        com_id: common.com_id,
        sender: a.sender,
        destination: a.destination,
        counter: common.sequence_counter,
        time: a.time,
    };
    let end = 40 + common.dataset_length as usize;
    Ok(Passed {
        heard,
        dataset: &datagram[40..end],
    })
}

// The answer to a telegram: how many slots took it, 9 where some match, 8 where none does.
fn answer_of(t: Tally) -> Result<usize, Refusal>
    ensures { told table.delivered result ≡ delivered_to (ltb 0 t.matched) t.changed }
{
    if 0 < t.changed {
        Ok(t.changed)
    } else if 0 < t.matched {
        Err(Refusal::Stale)
    } else {
        Err(Refusal::NoMatch)
    }
}

// What a sweep of a telegram answers; or what the sweep was refused with, a `Refusal` or what is made of one, as any
// number is.
pub fn delivered<E: From<Refusal>>(swept: Result<Tally, E>) -> Result<usize, E>
    ensures { Delivers E.from_gives swept result }
{
    match swept {
        Ok(t) => match answer_of(t) {
            Ok(n) => Ok(n),
            Err(r) => Err(r.into()),
        },
        Err(e) => Err(e),
    }
}

// What a record shows: 1 where sizes are wrong or it says over 1432, 10 where it is free.
#[tactic(auto, using(refusal::proofs::Tests::tests), unfolding(subscription_table::specs::Slot::slot_octets))]
pub fn read_record(slots: usize, octets: usize, r: &Subscription) -> Result<View, Refusal>
    ensures { result ≡ read_by (fits slots octets) r.now }
{
    judge_sizes(slots, octets)?;
    if !r.is_used() {
        return Err(Refusal::NoSlot);
    }
    if 1432 < r.length {
        return Err(Refusal::Sizes);
    }
    Ok(View {
        state: r.state(),
        substitute: r.is_substituted(),
        length: r.length,
    })
}

// The octets that record r shows as slot k: the substitute set whole, or the first of its part; none where refused.
// The number of slots and no slice, which would ask more of callers; slot, store and set as `subscription_step::show`.
pub fn show_record<'a>(
    slots: usize,
    r: &Subscription,
    k: usize,
    store: &'a [u8],
    substitute: &'a [u8],
) -> &'a [u8]
    ensures { result.now ≡ octets_of
        (shown k substitute.now store.now (read_by (fits slots (length store.now)) r.now)) }
{
    match read_record(slots, store.len(), r) {
        Ok(_) => subscription_step::show(r, k, store, substitute),
        Err(_) => &[],
    }
}
