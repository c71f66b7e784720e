// Message sessions: the user's calls and the time check, over the octets of listeners and sessions. Each looks at the
// records that it needs, and writes the one that it changed.
// The octets stand beside slot and time in each: a slot or a time is an argument of one call, and belongs to no octets.
#![tactic(auto)]

ghost use Rattle.std.specs.Prelude.{◌≡◌, get_or};
ghost use Rattle.refusal.specs.Refusal.{first_of};
ghost use Rattle.session.specs.Session.{free_session, code_of};
ghost use Rattle.session_table.specs.Table as table;
ghost use Rattle.session_table.specs.Table.{listen_checks};
ghost use Rattle.session_table.specs.Calls.{told};
ghost use Rattle.packed.specs.Packed.{tables_of};
ghost use Rattle.packed_slots.specs.Calls.{Follows, Checks};
ghost use Rattle.sessions.specs.Expire.{Expires};

use address::SenderRange;
use packed::{OCTETS, SLOTS};
use refusal::Refusal;
use session::{Listener, Session, SessionState};
use timing::Timing;

// Whether a listener may be added: 11, 20, 12.
fn judge_listener(octets: &[u8; OCTETS], l: &Listener) -> Result<(), Refusal>
    ensures { result ≡ first_of
        (listen_checks l.now.com_id l.now.senders l.now.uri (tables_of octets.now).listeners) }
{
    if l.senders.is_reversed() {
        return Err(Refusal::Range);
    }
    if !md::uri::is_sound(&l.uri) {
        return Err(Refusal::Uri);
    }
    if packed_slots::find_holding(octets, l.com_id, l.senders, &l.uri).is_some() {
        return Err(Refusal::FilterInUse);
    }
    Ok(())
}

// Adds a listener: 11, 20, 12, 13; else the lowest free slot. Three values, as `trdp_listen` is given them.
pub fn listen(
    octets: &mut [u8; OCTETS],
    com_id: u32,
    senders: SenderRange,
    uri: [u8; 32],
) -> Result<usize, Refusal>
    ensures { Follows (table.listen com_id senders uri) octets.old (told table.listening result) octets.new }
{
    let l = Listener::new(com_id, senders, uri);
    judge_listener(octets, &l)?;
    let k = packed_slots::find_free_listener(octets).ok_or(Refusal::NoFreeSlot)?;
    packed_slots::put_listener(octets, k, l);
    Ok(k)
}

// Frees the listener of a slot: 10.
pub fn unlisten(octets: &mut [u8; OCTETS], k: usize) -> Result<(), Refusal>
    ensures { Follows (table.unlisten k) octets.old (told (λ u. table.freed) result) octets.new }
{
    if !packed_slots::listener_at(octets, k).used {
        return Err(Refusal::NoSlot);
    }
    packed_slots::put_listener(octets, k, Listener::free());
    Ok(())
}

// Opens the session of a request: 17, 18; else its slot. Timeout and time apart: the user's and the call's (`calling`).
pub fn call(
    octets: &mut [u8; OCTETS],
    id: [u8; 16],
    timeout: u32,
    time: u64,
) -> Result<usize, Refusal>
    ensures { Follows (table.calling id timeout time) octets.old (told table.opened result) octets.new }
{
    let timing = Timing {
        start: time,
        timeout,
    };
    packed_slots::open(octets, id, SessionState::WaitingForReply(timing))
}

// The user's reply to the session of a slot: 5, 10, 19.
// Its type is a number, as `trdp_reply` is given it: others than Mp and Mq are refused. Timeout and time as `call`.
pub fn reply(
    octets: &mut [u8; OCTETS],
    k: usize,
    msg_type: u16,
    timeout: u32,
    time: u64,
) -> Result<(), Refusal>
    ensures { Follows (table.reply k msg_type timeout time) octets.old (told (λ u. table.replied) result) octets.new }
{
    if !session::is_reply(msg_type) {
        return Err(Refusal::MsgType);
    }
    let x = packed_slots::session_at(octets, k);
    if x.state.is_free() {
        return Err(Refusal::NoSlot);
    }
    if !x.state.is_with_user() {
        return Err(Refusal::NoSession);
    }
    packed_slots::put_session(octets, k, x.answered(msg_type, timeout, time));
    Ok(())
}

// The user's confirm to the session of a slot: 10, 19.
pub fn confirm(octets: &mut [u8; OCTETS], k: usize) -> Result<(), Refusal>
    ensures { Follows (table.confirm k) octets.old (told (λ u. table.confirmed) result) octets.new }
{
    let x = packed_slots::session_at(octets, k);
    if x.state.is_free() {
        return Err(Refusal::NoSlot);
    }
    if !x.state.owes_confirm() {
        return Err(Refusal::NoSession);
    }
    packed_slots::put_session(octets, k, Session::free());
    Ok(())
}

// Session k's code, a number (`SessionState::code`); the session is freed where its time is up, else its octets stay.
fn expire(octets: &mut [u8; OCTETS], k: usize, time: u64) -> i32
    ensures code { result ≡ code_of time (get_or (tables_of octets.old).sessions k free_session).state }
    ensures expires { Expires time k octets.old octets.new }
{
    let state = packed_slots::session_at(octets, k).state;
    if !state.is_up(time) {
        return 0;
    }
    packed_slots::put_session(octets, k, Session::free());
    state.code(time)
}

// Frees every session whose time is up, and answers a code for each slot.
pub fn time_check(octets: &mut [u8; OCTETS], time: u64) -> [i32; SLOTS]
    ensures { Checks time octets.old result octets.new }
{
    let mut codes = [0; SLOTS];
    for k in 0..SLOTS {
        codes[k] = expire(octets, k, time);
    }
    codes
}
