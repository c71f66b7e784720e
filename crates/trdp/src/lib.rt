// The calls of the stack for a host in C or Rust: every answer is a struct of numbers, whose refusal 0 means granted.
// Arguments side by side, numbers for kinds, and two calls to convert are C's interface (include/trdp.h).
#![tactic(auto)]

ghost use Rattle.std.specs.Prelude.{◌≡◌, length};
ghost use Rattle.refusal.specs.Refusal.{first_of};
ghost use Rattle.fcs.specs.Fcs.{crc32};
ghost use Rattle.pd.specs.Pd as pd;
ghost use Rattle.md.specs.Md as md;
ghost use Rattle.publication.specs.Publication.{made_of, send_checks};
ghost use Rattle.statistics.specs.Statistics.{no_statistics};
ghost use Rattle.subscription.specs.Record.{free_record};
ghost use Rattle.dataset.specs.Walk.{whole_of};
ghost use Rattle.dataset.specs.declared.Form.TheVariants as form;
ghost use Rattle.subscription_table.specs.Table as table;
ghost use Rattle.trdp.specs.Subscriptions.{Follows, Receives, Reads};
ghost use Rattle.session_table.specs.Table as messages;
ghost use Rattle.trdp.specs.Sessions as sessions;
ghost use Rattle.boundary.specs.Wire.{of_pd_taken, of_md_taken};
ghost use Rattle.trdp.specs.Wire.{Writes, SendsOut, ConvertsTo};

use address::SenderRange;
use arrival::Arrival;
use boundary::{Codes, MdDatagram, MdOutcome, Outcome, PdDatagram, Sending, SessionSeen, Shown};
use dataset::Form;
use md::{MdFields, MdHeader};
use packed::{OCTETS, SLOTS};
use pd::PdHeader;
use publication::Publication;
use refusal::Refusal;
use statistics::Statistics;
use subscription::{Filter, Subscription};
use subscriptions::Table;
use telegram::Family;

// The frame check of octets.
#[unsafe(no_mangle)]
pub extern "C" fn trdp_frame_check(s: &[u8]) -> u32
    ensures { result ≡ crc32 s.now }
{
    fcs::frame_check(s)
}

// A PD datagram taken apart: its header, or the first refusal of 2 to 6.
#[unsafe(no_mangle)]
pub extern "C" fn trdp_take_pd(datagram: &[u8]) -> PdDatagram
    ensures { result ≡ of_pd_taken (pd.take_pd datagram.now) }
{
    telegram::take::<PdHeader>(datagram).into()
}

// A PD telegram written: how many octets, or the first refusal of 4, 5, 16 and 15, which leaves the target as it was.
#[unsafe(no_mangle)]
pub extern "C" fn trdp_write_pd(h: PdHeader, dataset: &[u8], target: &mut [u8]) -> Outcome
    ensures { Writes (first_of (pd.write_checks_pd h (length dataset.now) (length target.old)))
        (pd.frame_of h dataset.now) target.old result target.new }
{
    pd::write_pd(h, dataset, target).into()
}

// An MD datagram taken apart: its header, identifier and URI fields, or the first refusal of 2 to 6.
#[unsafe(no_mangle)]
pub extern "C" fn trdp_take_md(datagram: &[u8]) -> MdDatagram
    ensures { result ≡ of_md_taken datagram.now (md.take_md datagram.now) }
{
    MdDatagram::take(datagram)
}

// An MD telegram written: how many octets, or the first refusal of 4, 5, 16, 20 and 15, which leaves the target as it
// was.
#[unsafe(no_mangle)]
pub extern "C" fn trdp_write_md(
    h: MdHeader,
    id: &[u8; 16],
    source: &[u8; 32],
    destination: &[u8; 32],
    dataset: &[u8],
    target: &mut [u8],
) -> Outcome
    ensures { Writes (first_of (md.write_checks_md h source.now destination.now (length dataset.now)
        (length target.old))) (md.frame_of h id.now source.now destination.now dataset.now) target.old result target.new }
{
    let m = MdFields {
        header: h,
        session_id: id,
        source_uri: source,
        destination_uri: destination,
    };
    md::write_md(&m, dataset, target).into()
}

// A publication that has sent nothing yet.
#[unsafe(no_mangle)]
pub extern "C" fn trdp_publish(h: PdHeader, cycle: u32) -> Publication
    ensures { result ≡ made_of h cycle }
{
    Publication::new(h, cycle)
}

// A publication sent: written into the target, or refused with 14 or the writer's number, which leaves target and
// record as they were.
#[unsafe(no_mangle)]
pub extern "C" fn trdp_send(
    mut p: Publication,
    time: u64,
    dataset: &[u8],
    target: &mut [u8],
) -> Sending
    ensures { SendsOut (first_of (send_checks p time (length dataset.now) (length target.old)))
        p time dataset.now target.old result target.new }
{
    let r = p.send(time, dataset, target);
    Sending::new(r, p)
}

// The dataset of an id from the wire's form to the host's: how many octets, or 21 to 25, which leaves the target as it
// was.
#[unsafe(no_mangle)]
pub extern "C" fn trdp_to_host(run: &[u32], id: u32, source: &[u8], target: &mut [u8]) -> Outcome
    ensures { ConvertsTo (whole_of form.Wire run.now id source.now) (length source.now) target.old result target.new }
{
    dataset::convert(Form::Wire, run, id, source, target).into()
}

// The dataset of an id from the host's form to the wire's: how many octets, or 21 to 25, which leaves the target as it
// was.
#[unsafe(no_mangle)]
pub extern "C" fn trdp_to_wire(run: &[u32], id: u32, source: &[u8], target: &mut [u8]) -> Outcome
    ensures { ConvertsTo (whole_of form.Host run.now id source.now) (length source.now) target.old result target.new }
{
    dataset::convert(Form::Host, run, id, source, target).into()
}

// Statistics that have counted nothing.
#[unsafe(no_mangle)]
pub extern "C" fn trdp_no_statistics() -> Statistics
    ensures { result ≡ no_statistics }
{
    Statistics::none()
}

// A slot that is free.
#[unsafe(no_mangle)]
pub extern "C" fn trdp_no_subscription() -> Subscription
    ensures { result ≡ free_record }
{
    Subscription::free()
}

// Subscribing: the lowest free slot, or 1, 11, 12, 13.
#[unsafe(no_mangle)]
pub extern "C" fn trdp_subscribe(
    t: &mut [Subscription],
    store: &mut [u8],
    f: Filter,
    timeout: u32,
    behaviour: u8,
    time: u64,
) -> Outcome
    ensures { Follows (table.subscribe (record { filter = f; timeout = timeout; behaviour = behaviour }) time)
        t.old store.old result t.new store.new }
{
    Table { slots: t, store }
        .subscribe(f, timeout, behaviour, time)
        .into()
}

// Unsubscribing: slot k is freed and its part zeroed, or 1, 10.
#[unsafe(no_mangle)]
pub extern "C" fn trdp_unsubscribe(t: &mut [Subscription], store: &mut [u8], k: usize) -> Outcome
    ensures { Follows (table.unsubscribe k) t.old store.old result t.new store.new }
{
    Table { slots: t, store }.unsubscribe(k).into()
}

// A PD datagram arrives: how many slots took it, or 1 to 9; the statistics count it.
#[unsafe(no_mangle)]
pub extern "C" fn trdp_receive_pd(
    t: &mut [Subscription],
    store: &mut [u8],
    s: &mut Statistics,
    a: Arrival,
    datagram: &[u8],
) -> Outcome
    ensures { Receives a datagram.now t.old store.old s.old result t.new store.new s.new }
{
    Table { slots: t, store }.receive(s, a, datagram).into()
}

// The time check: how many slots were marked, or 1.
#[unsafe(no_mangle)]
pub extern "C" fn trdp_check_subscriptions(
    t: &mut [Subscription],
    store: &mut [u8],
    time: u64,
) -> Outcome
    ensures { Follows (table.time_check time) t.old store.old result t.new store.new }
{
    Table { slots: t, store }.time_check(time).into()
}

// Reading slot k: its state and which octets it shows, or 1, 10.
#[unsafe(no_mangle)]
pub extern "C" fn trdp_read(t: &[Subscription], store: &[u8], k: usize) -> Shown
    ensures { Reads k t.now store.now result }
{
    Shown::of_slot(k, subscriptions::read(t, store, k))
}

// Adding a listener: its slot, or 11, 20, 12, 13.
#[unsafe(no_mangle)]
pub extern "C" fn trdp_listen(
    tables: &mut [u8; OCTETS],
    com_id: u32,
    senders: SenderRange,
    uri: &[u8; 32],
) -> Outcome
    ensures { sessions.Follows (messages.listen com_id senders uri.now) tables.old result tables.new }
{
    sessions::listen(tables, com_id, senders, *uri).into()
}

// Removing a listener: 10.
#[unsafe(no_mangle)]
pub extern "C" fn trdp_unlisten(tables: &mut [u8; OCTETS], k: usize) -> Outcome
    ensures { sessions.Follows (messages.unlisten k) tables.old result tables.new }
{
    sessions::unlisten(tables, k).into()
}

// Calling: the session's slot, or 17, 18.
#[unsafe(no_mangle)]
pub extern "C" fn trdp_call(
    tables: &mut [u8; OCTETS],
    id: &[u8; 16],
    timeout: u32,
    time: u64,
) -> Outcome
    ensures { sessions.Follows (messages.calling id.now timeout time) tables.old result tables.new }
{
    sessions::call(tables, *id, timeout, time).into()
}

// The user's reply: 5, 10, 19.
#[unsafe(no_mangle)]
pub extern "C" fn trdp_reply(
    tables: &mut [u8; OCTETS],
    k: usize,
    msg_type: u16,
    timeout: u32,
    time: u64,
) -> Outcome
    ensures { sessions.Follows (messages.reply k msg_type timeout time) tables.old result tables.new }
{
    sessions::reply(tables, k, msg_type, timeout, time).into()
}

// The user's confirm: 10, 19.
#[unsafe(no_mangle)]
pub extern "C" fn trdp_confirm(tables: &mut [u8; OCTETS], k: usize) -> Outcome
    ensures { sessions.Follows (messages.confirm k) tables.old result tables.new }
{
    sessions::confirm(tables, k).into()
}

// The time check of the sessions: a code for each slot.
#[unsafe(no_mangle)]
pub extern "C" fn trdp_check_sessions(tables: &mut [u8; OCTETS], time: u64) -> Codes
    ensures { sessions.Checks time tables.old result tables.new }
{
    Codes {
        codes: sessions::time_check(tables, time),
    }
}

// Session k as it stands, or 10.
#[unsafe(no_mangle)]
pub extern "C" fn trdp_session(tables: &[u8; OCTETS], k: usize) -> SessionSeen
    ensures { result ≡ sessions.session_seen tables.now k }
{
    if k < SLOTS {
        Ok(packed_slots::session_at(tables, k)).into()
    } else {
        Err(Refusal::NoSlot).into()
    }
}

// An MD datagram arrives: what becomes of it, or 2 to 8, 17 to 20; the statistics count it.
#[unsafe(no_mangle)]
pub extern "C" fn trdp_receive_md(
    tables: &mut [u8; OCTETS],
    s: &mut Statistics,
    a: Arrival,
    datagram: &[u8],
) -> MdOutcome
    ensures { sessions.Receives a datagram.now tables.old s.old result tables.new s.new }
{
    let o = MdOutcome::from(messages::arrive(tables, a, datagram));
    s.record(Family::Md, o.refusal);
    o
}
