// The calls that only look at subscriptions: `read`, `slot` and `part`.
// Each fills the room with its answer; nothing where the line is none of its own.
#![tactic(auto)]

ghost use Rattle.std.specs.Prelude.{◌≡◌, List, ℕ};
ghost use Rattle.answer.specs.Lent.{Fills};
ghost use Rattle.subscription_table.specs.Table as table;
ghost use Rattle.lent.specs.Lent.{lent_of};
ghost use Rattle.answer.specs.Said.{Answered};
ghost use Rattle.scenario_pd_words.specs.Words.{answer_words};
ghost use Rattle.scenario_pd_look.specs.Look.{read_answer, slot_words, part_words, with_slot, said_of, look_answer};

use answer::Room;
use lent::Slots;
use line::reader::Fields;
use refusal::Refusal;
use subscription::Subscription;

// What reading slot k shows.
// The room, the records and the octets beside them have three owners: a struct of them would be taken apart at once.
fn put_read(out: &mut Room, t: &Slots, store: &[u8], k: usize, substitute: &[u8])
    ensures { Fills (answer_words (table.step (table.read k substitute.now) (lent_of t.now store.now)).answer)
        out.old out.new }
{
    let records: &[Subscription] = &t.records;
    let slots = &records[..t.lent.min(records.len())];
    let lent = &store[..t.octets.min(store.len())];
    match t.read(store, k) {
        Ok(v) => {
            scenario_pd_words::put_state(out, v.state);
            out.octets(subscriptions::show(slots, lent, k, substitute));
        }
        Err(r) => out.refused(r),
    }
}

// `read K OCTETS`
fn read(t: &Slots, store: &[u8], s: &[u8], out: &mut Room) -> Option<()>
    ensures { Answered (read_answer t.now store.now s.now) out.old result out.new }
{
    let mut fields = Fields::behind(s, 4);
    let k = fields.word()?;
    let mut data = line::buffer();
    let n = fields.last(&mut data)?;
    put_read(out, t, store, k as usize, &data[..n]);
    Some(())
}

// The record of slot k; refusal 10 where there is no such slot.
fn put_slot(out: &mut Room, t: &Slots, k: usize)
    ensures { Fills (slot_words k t.now) out.old out.new }
{
    if k < 32 {
        scenario_pd_words::put_record(out, &t.records[k]);
    } else {
        out.refused(Refusal::NoSlot);
    }
}

// The frame check of slot k's 1432 stored octets; refusal 10 where there is no such slot.
fn put_part(out: &mut Room, store: &[u8], k: usize)
    ensures { Fills (part_words k store.now) out.old out.new }
{
    if k < 32 && k * 1432 + 1432 <= store.len() {
        let from = k * 1432;
        out.word(b"part");
        out.number(fcs::frame_check(&store[from..from + 1432]));
    } else {
        out.refused(Refusal::NoSlot);
    }
}

// A slot's number alone, behind a verb of 4 letters: `slot K`, `part K`.
fn slot_number(s: &[u8]) -> Option<usize>
    ensures { (said : ℕ → List (List ℕ)) → with_slot s.now said ≡ said_of result said }
{
    let mut fields = Fields::behind(s, 4);
    let k = fields.word()?;
    fields.end()?;
    Some(k as usize)
}

// A line of one of these verbs answered.
#[tactic(auto, unfolding(crate::specs::Look::look_answer))]
pub fn answer(t: &Slots, store: &[u8], s: &[u8], out: &mut Room) -> Option<()>
    ensures { Answered (look_answer t.now store.now s.now) out.old result out.new }
{
    if line::is_verb(s, b"read") {
        read(t, store, s, out)
    } else if line::is_verb(s, b"slot") {
        put_slot(out, t, slot_number(s)?);
        Some(())
    } else if line::is_verb(s, b"part") {
        put_part(out, store, slot_number(s)?);
        Some(())
    } else {
        None
    }
}
