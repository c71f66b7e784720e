// Listeners and sessions as 1280 octets that a host lends: sixteen listeners of 48, then sixteen sessions of 32.
#![tactic(auto)]

ghost use Rattle.std.specs.Prelude.{◌≡◌, ◌+◌, ◌≤◌, length};
ghost use Rattle.octets.specs.Octets.{part};
ghost use Rattle.packed.specs.Packed.{listener_of, state_of, session_of, listener_octets, session_octets};

use address::SenderRange;
use octets::Number;
use session::{Listener, Session, SessionState};
use timing::Timing;

// How many listeners there are, and how many sessions.
pub const SLOTS: usize = 16;
// How many octets a listener has.
pub const LISTENER: usize = 48;
// How many octets a session has.
pub const SESSION: usize = 32;
// Where the sessions begin.
pub const SESSIONS: usize = SLOTS * LISTENER;
// How many octets there are.
pub const OCTETS: usize = SESSIONS + SLOTS * SESSION;

// The listener in 48 octets.
// Listeners and sessions have two functions each: other fields, and a trait would add its own clauses to the four.
pub fn unpack_listener(s: &[u8]) -> Listener
    requires { length s.now ≡ 48 }
    ensures { result ≡ listener_of s.now }
{
    Listener {
        used: s[0] != 0,
        com_id: u32::little(s, 4),
        senders: SenderRange {
            start: u32::little(s, 8),
            end: u32::little(s, 12),
        },
        uri: octets::array(s, 16),
    }
}

// The state of a number, any other than 1 to 4 being free. No `From`, since the timing is asked for too.
fn state_of(n: u8, t: Timing) -> SessionState
    ensures { result ≡ state_of n t }
{
    match n {
        1 => SessionState::WaitingForReply(t),
        2 => SessionState::OwingConfirm(t),
        3 => SessionState::WithUser(t),
        4 => SessionState::WaitingForConfirm(t),
        _ => SessionState::Free,
    }
}

// The session in 32 octets.
pub fn unpack_session(s: &[u8]) -> Session
    requires { length s.now ≡ 32 }
    ensures { result ≡ session_of s.now }
{
    let timing = Timing {
        timeout: u32::little(s, 4),
        start: u64::little(s, 8),
    };
    Session {
        id: octets::array(s, 16),
        state: state_of(s[0], timing),
    }
}

// A listener written over 48 octets; they mean it again.
pub fn pack_listener(l: Listener, s: &mut [u8])
    requires { length s.old ≡ 48 }
    ensures written { s.new ≡ listener_octets l }
    ensures long { length (listener_octets l) ≡ 48 }
    ensures back { listener_of (listener_octets l) ≡ l }
{
    u32::from(l.used).put_little(s, 0);
    l.com_id.put_little(s, 4);
    l.senders.start.put_little(s, 8);
    l.senders.end.put_little(s, 12);
    octets::copy_into(s, 16, &l.uri);
}

// A session written over 32 octets; they mean it again.
pub fn pack_session(x: Session, s: &mut [u8])
    requires { length s.old ≡ 32 }
    ensures written { s.new ≡ session_octets x }
    ensures long { length (session_octets x) ≡ 32 }
    ensures back { session_of (session_octets x) ≡ x }
{
    let timing = x.state.timing();
    u32::from(x.state.number()).put_little(s, 0);
    timing.timeout.put_little(s, 4);
    timing.start.put_little(s, 8);
    octets::copy_into(s, 16, &x.id);
}
