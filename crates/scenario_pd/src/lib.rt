// The calls over subscriptions. The program holds forty records and lends the first of them; the store is lent memory.
// Each call fills the room with its answer; nothing where the line is none of its own, and then all stays as it was.
#![tactic(auto)]

ghost use Rattle.std.specs.Prelude.{◌≡◌, List, ℕ, Some, replicate};
ghost use Rattle.subscription.specs.Record.{free_record};
ghost use Rattle.scenario_pd.specs.Effect.{calling, counting, Turns};
ghost use Rattle.scenario_pd.specs.Lines.{sub_call, unsub_call, check_call, pd_call, called, lend_asked, damage_asked};
ghost use Rattle.scenario_pd.specs.Lines.{wanted_of, wanted, asked_of, allotted, damaged, done_by, Answered};

use address::SenderRange;
use answer::Room;
use arrival::Arrival;
use lent::Slots;
use line::reader::Fields;
use refusal::Refusal;
use statistics::Statistics;
use subscription::{Filter, Subscription};
use topography::TopoCounts;

// Before the first call: no subscription; 32 slots are lent, and a store of 1432 octets for each.
pub fn start() -> Slots
    ensures { (result.records ≡ replicate 40 free_record) × (result.lent ≡ 32) × (result.octets ≡ 45824) }
{
    Slots {
        records: [Subscription::free(); 40],
        lent: 32,
        octets: 45_824,
    }
}

// What a line asks for: a call over the table; how many slots and octets each call is lent from now on; a record that
// says another stored length. Behaviour is a number, as the record keeps it and `Slots::subscribe` takes it.
#[derive(Clone, Copy)]
enum Asked {
    Subscribe {
        filter: Filter,
        timeout: u32,
        behaviour: u8,
        time: u64,
    },
    Unsubscribe(usize),
    TimeCheck {
        time: u64,
    },
    Lend {
        slots: usize,
        octets: usize,
    },
    Damage {
        slot: usize,
        length: u32,
    },
}

// `sub COMID START END DEST TIMEOUT BEHAVIOUR NOW`
fn sub(s: &[u8]) -> Option<Asked>
    ensures { wanted result ≡ called (sub_call s.now) }
{
    let mut fields = Fields::behind(s, 3);
    let [com_id, start, end, destination, timeout] = fields.words::<5>()?;
    let behaviour = fields.number(1)?;
    let time = fields.number(16)?;
    if 2 < behaviour {
        return None;
    }
    fields.end()?;
    Some(Asked::Subscribe {
        filter: Filter {
            com_id,
            senders: SenderRange { start, end },
            destination,
        },
        timeout,
        behaviour: behaviour as u8,
        time,
    })
}

// `unsub K`. Some verbs read alike: what they share are the methods of Fields, and each asks a variant of its own.
fn unsub(s: &[u8]) -> Option<Asked>
    ensures { wanted result ≡ called (unsub_call s.now) }
{
    let mut fields = Fields::behind(s, 5);
    let k = fields.word()?;
    fields.end()?;
    Some(Asked::Unsubscribe(k as usize))
}

// `check NOW`
fn check(s: &[u8]) -> Option<Asked>
    ensures { wanted result ≡ called (check_call s.now) }
{
    let mut fields = Fields::behind(s, 5);
    let time = fields.number(16)?;
    fields.end()?;
    Some(Asked::TimeCheck { time })
}

// `lend SLOTS COUNT`
fn lend(s: &[u8]) -> Option<Asked>
    ensures { wanted result ≡ lend_asked s.now }
{
    let mut fields = Fields::behind(s, 4);
    let [slots, octets] = fields.words::<2>()?;
    fields.end()?;
    Some(Asked::Lend {
        slots: slots as usize,
        octets: octets as usize,
    })
}

// `damage K LENGTH`
fn damage(s: &[u8]) -> Option<Asked>
    ensures { wanted result ≡ damage_asked s.now }
{
    let mut fields = Fields::behind(s, 6);
    let [slot, length] = fields.words::<2>()?;
    fields.end()?;
    Some(Asked::Damage {
        slot: slot as usize,
        length,
    })
}

// By the verb; nothing for another.
#[tactic(auto, unfolding(crate::specs::Lines::asked_of))]
fn parse(s: &[u8]) -> Option<Asked>
    ensures { wanted result ≡ asked_of s.now }
{
    if line::is_verb(s, b"sub") {
        sub(s)
    } else if line::is_verb(s, b"unsub") {
        unsub(s)
    } else if line::is_verb(s, b"check") {
        check(s)
    } else if line::is_verb(s, b"lend") {
        lend(s)
    } else if line::is_verb(s, b"damage") {
        damage(s)
    } else {
        None
    }
}

// So many slots and octets lent from now on; nothing where there are not so many.
// `t` and `store` are the program's own records and the octets lent beside them: the calls of `lent::Slots` take them
// apart, and `out` is a room of another owner.
fn allot(t: &mut Slots, slots: usize, octets: usize, store: &[u8], out: &mut Room) -> Option<()>
    ensures { Turns (allotted slots octets t.old store.now) out.old result t.new store.now out.new }
{
    if 40 < slots || store.len() < octets {
        return None;
    }
    t.lent = slots;
    t.octets = octets;
    out.word(b"ok");
    Some(())
}

// A record that says another stored length; refusal 10 where there is no such slot.
fn lengthen(t: &mut Slots, k: usize, n: u32, out: &mut Room)
    ensures { (store : List ℕ) → Turns (damaged k n t.old store) out.old (Some tt) t.new store out.new }
{
    if k < 32 && t.records[k].is_used() {
        t.records[k].length = n;
        out.word(b"ok");
    } else {
        out.refused(Refusal::NoSlot);
    }
}

// What is asked for done, and answered.
fn serve(asked: Asked, t: &mut Slots, store: &mut [u8], out: &mut Room) -> Option<()>
    ensures { Turns (done_by (wanted_of asked) t.old store.old) out.old result t.new store.new out.new }
{
    match asked {
        Asked::Subscribe {
            filter,
            timeout,
            behaviour,
            time,
        } => out.granted(
            b"slot",
            t.subscribe(store, filter, timeout, behaviour, time),
        ),
        Asked::Unsubscribe(k) => out.done(b"freed", t.unsubscribe(store, k)),
        Asked::TimeCheck { time } => out.granted(b"marked", t.time_check(store, time)),
        Asked::Lend { slots, octets } => return allot(t, slots, octets, store, out),
        Asked::Damage { slot, length } => lengthen(t, slot, length, out),
    }
    Some(())
}

// `pd SENDER DEST NOW OCTETS`. Reads as `md` of scenario_md does: each hands the datagram to a call of its own.
fn pd(
    t: &mut Slots,
    statistics: &mut Statistics,
    local: TopoCounts,
    store: &mut [u8],
    s: &[u8],
    out: &mut Room,
) -> Option<()>
    ensures turns { Turns (calling (pd_call local s.now) t.old store.old) out.old result t.new store.new out.new }
    ensures counts { statistics.new ≡ counting (pd_call local s.now) t.old store.old statistics.old }
{
    let mut fields = Fields::behind(s, 2);
    let [sender, destination] = fields.words::<2>()?;
    let time = fields.number(16)?;
    let mut data = line::buffer();
    let n = fields.last(&mut data)?;
    let a = Arrival {
        sender,
        destination,
        time,
        local,
    };
    out.granted(b"delivered", t.receive(store, statistics, a, &data[..n]));
    Some(())
}

// A line of one of these verbs answered.
pub fn answer(
    t: &mut Slots,
    statistics: &mut Statistics,
    local: TopoCounts,
    store: &mut [u8],
    s: &[u8],
    out: &mut Room,
) -> Option<()>
    ensures { Answered local s.now t.old store.old statistics.old out.old
        result t.new store.new statistics.new out.new }
{
    if line::is_verb(s, b"pd") {
        pd(t, statistics, local, store, s, out)
    } else if let Some(asked) = parse(s) {
        serve(asked, t, store, out)
    } else {
        scenario_pd_look::answer(t, store, s, out)
    }
}
