// One listener or one session of the octets: read, written, and sought, with no other unpacked or written.
#![tactic(auto)]

ghost use Rattle.std.specs.Prelude.{◌≡◌, not, ◌<◌, get_or};
ghost use Rattle.tables.specs.Lists.{lowest};
ghost use Rattle.session_table.specs.Sought.{found_of};
ghost use Rattle.session.specs.Listener.{free_listener, hears, holds};
ghost use Rattle.session.specs.Session.{free_session, is_free, has, can_take, waits_of};
ghost use Rattle.packed.specs.Packed.{tables_of};
ghost use Rattle.packed_slots.specs.Slots.{PutsListener, PutsSession, Places, used_for};

use address::SenderRange;
use octets::Number;
use packed::{LISTENER, OCTETS, SESSION, SESSIONS, SLOTS};
use refusal::Refusal;
use session::{Listener, Session, SessionState, Waits};

// Reading and writing stand twice, for sessions and for listeners: one function over a trait of records is no plainer,
// since the trait's place, width, unpacking, packing and laws are longer than the four functions.
// Octets and slot are two parameters of each: a slot is an argument of one call, and belongs to no octets.

// The session of a slot; a slot too large is a free one.
pub fn session_at(octets: &[u8; OCTETS], k: usize) -> Session
    ensures { result ≡ get_or (tables_of octets.now).sessions k free_session }
{
    if k >= SLOTS {
        return Session::free();
    }
    let at = SESSIONS + k * SESSION;
    packed::unpack_session(&octets[at..at + SESSION])
}

// The listener of a slot; a slot too large is a free one.
pub fn listener_at(octets: &[u8; OCTETS], k: usize) -> Listener
    ensures { result ≡ get_or (tables_of octets.now).listeners k free_listener }
{
    if k >= SLOTS {
        return Listener::free();
    }
    let at = k * LISTENER;
    packed::unpack_listener(&octets[at..at + LISTENER])
}

// Another session in a slot; all other octets stay.
pub fn put_session(octets: &mut [u8; OCTETS], k: usize, x: Session)
    ensures { PutsSession k x octets.old octets.new }
{
    if k < SLOTS {
        let at = SESSIONS + k * SESSION;
        packed::pack_session(x, &mut octets[at..at + SESSION]);
    }
}

// Another listener in a slot; all other octets stay.
pub fn put_listener(octets: &mut [u8; OCTETS], k: usize, l: Listener)
    ensures { PutsListener k l octets.old octets.new }
{
    if k < SLOTS {
        let at = k * LISTENER;
        packed::pack_listener(l, &mut octets[at..at + LISTENER]);
    }
}

// The listener of a slot is in use with this ComId; no more than these is looked at.
fn is_used_for(octets: &[u8; OCTETS], k: usize, com_id: u32) -> bool
    requires { k < 16 }
    ensures { result ≡ used_for com_id (get_or (tables_of octets.now).listeners k free_listener) }
{
    let at = k * LISTENER;
    octets[at] != 0 && u32::little(octets, at + 4) == com_id
}

// The lowest free listener.
pub fn find_free_listener(octets: &[u8; OCTETS]) -> Option<usize>
    ensures { result ≡ found_of (lowest (λ l. not l.used) (tables_of octets.now).listeners) }
{
    (0..SLOTS).find(|&k| octets[k * LISTENER] == 0)
}

// The lowest listener that hears a telegram. Three values of it, as `session: hears` has them; a struct is no plainer.
pub fn find_hearing(
    octets: &[u8; OCTETS],
    com_id: u32,
    sender: u32,
    destination: &[u8],
) -> Option<usize>
    ensures { result ≡ found_of (lowest (hears com_id sender destination.now) (tables_of octets.now).listeners) }
{
    (0..SLOTS).find(|&k| {
        is_used_for(octets, k, com_id) && listener_at(octets, k).hears(com_id, sender, destination)
    })
}

// The lowest listener with the same filter: three values, as in `session::Listener::holds`.
pub fn find_holding(
    octets: &[u8; OCTETS],
    com_id: u32,
    senders: SenderRange,
    uri: &[u8],
) -> Option<usize>
    ensures { result ≡ found_of (lowest (holds com_id senders uri.now) (tables_of octets.now).listeners) }
{
    (0..SLOTS).find(|&k| {
        is_used_for(octets, k, com_id) && listener_at(octets, k).holds(com_id, senders, uri)
    })
}

// The session of a slot is in use; no more than the number of its state is looked at.
#[tactic(auto, using(crate::proofs::Fields::within_at, crate::proofs::Fields::below_at, crate::proofs::Fields::above_at))]
fn is_in_use(octets: &[u8; OCTETS], k: usize) -> bool
    requires { k < 16 }
    ensures { result ≡ not (is_free (get_or (tables_of octets.now).sessions k free_session).state) }
{
    matches!(octets[SESSIONS + k * SESSION], 1..=4)
}

// The lowest free session.
pub fn find_free_session(octets: &[u8; OCTETS]) -> Option<usize>
    ensures { result ≡ found_of (lowest (λ x. is_free x.state) (tables_of octets.now).sessions) }
{
    (0..SLOTS).find(|&k| !is_in_use(octets, k))
}

// The lowest session in use with this identifier.
pub fn find_session(octets: &[u8; OCTETS], id: [u8; 16]) -> Option<usize>
    ensures { result ≡ found_of (lowest (has id) (tables_of octets.now).sessions) }
{
    (0..SLOTS).find(|&k| is_in_use(octets, k) && session_at(octets, k).has(id))
}

// The lowest session of this identifier that can take what it waits for: a value that says what is sought, no step.
pub fn find_waiting(octets: &[u8; OCTETS], id: [u8; 16], w: Waits) -> Option<usize>
    ensures { result ≡ found_of (lowest (can_take (waits_of w) id) (tables_of octets.now).sessions) }
{
    (0..SLOTS).find(|&k| is_in_use(octets, k) && session_at(octets, k).can_take(id, w))
}

// The lowest free session is opened, unless the identifier is in use or none is free: 17, 18.
pub fn open(octets: &mut [u8; OCTETS], id: [u8; 16], state: SessionState) -> Result<usize, Refusal>
    ensures { Places id state octets.old result octets.new }
{
    if find_session(octets, id).is_some() {
        return Err(Refusal::SessionInUse);
    }
    let k = find_free_session(octets).ok_or(Refusal::NoFreeSession)?;
    put_session(octets, k, Session { id, state });
    Ok(k)
}
