// Message sessions: one listener and one session, by value.
#![tactic(auto)]

ghost use Rattle.std.specs.Prelude.{◌≡◌};
ghost use Rattle.session.specs.Listener.{free_listener, new_listener, hears, holds};
ghost use Rattle.session.specs.Session.{free_session, is_free, owes_confirm, is_with_user, waits_of, has, can_take, code_of, is_up, answered, is_reply, kind_of, state_number, timing_of};

use address::SenderRange;
use timing::Timing;

// The types of message data: notification, request, reply without and with a confirm asked for, confirm, error. Each
// has the number that a header says.
#[derive(Clone, Copy, Debug, PartialEq, Eq)]
pub enum Kind {
    Mn = 0x4D6E,
    Mr = 0x4D72,
    Mp = 0x4D70,
    Mq = 0x4D71,
    Mc = 0x4D63,
    Me = 0x4D65,
}

// Checks 2 to 6 let no type in but the six, so any other number is the last.
impl From<u16> for Kind {
    ghost from_gives = { λ n k. k ≡ kind_of n };

    fn from(n: u16) -> Kind {
        match n {
            0x4D6E => Kind::Mn,
            0x4D72 => Kind::Mr,
            0x4D70 => Kind::Mp,
            0x4D71 => Kind::Mq,
            0x4D63 => Kind::Mc,
            _ => Kind::Me,
        }
    }
}

// Which requests and notifications a listener is for: a ComId, a range of senders, a destination URI (empty: any).
#[derive(Clone, Copy)]
pub struct Listener {
    // A flag and no Option: the other fields stand in their octets, in use or not (`packed: listener_octets`).
    pub used: bool,
    pub com_id: u32,
    pub senders: SenderRange,
    pub uri: [u8; 32],
}

impl Listener {
    // A listener that is free.
    pub fn free() -> Listener
        ensures { result ≡ free_listener }
    {
        Listener {
            used: false,
            com_id: 0,
            senders: SenderRange::ANY,
            uri: [0; 32],
        }
    }

    // A listener in use.
    pub fn new(com_id: u32, senders: SenderRange, uri: [u8; 32]) -> Listener
        ensures { result ≡ new_listener com_id senders uri }
    {
        Listener {
            used: true,
            com_id,
            senders,
            uri,
        }
    }

    // In use, with a filter that matches a telegram.
    pub fn hears(&self, com_id: u32, sender: u32, destination: &[u8]) -> bool
        ensures { result ≡ hears com_id sender destination.now self.now }
    {
        self.used
            && self.com_id == com_id
            && self.senders.admits(sender)
            && (md::uri::is_empty(&self.uri) || md::uri::are_same(&self.uri, destination))
    }

    // In use, with an equal filter. Three values: a URI that is sought has any length, so a `Listener` would ask more.
    pub fn holds(&self, com_id: u32, senders: SenderRange, uri: &[u8]) -> bool
        ensures { result ≡ holds com_id senders uri.now self.now }
    {
        self.used
            && self.com_id == com_id
            && self.senders == senders
            && md::uri::are_same(&self.uri, uri)
    }
}

// What a session waits for. Each waiting state carries its start and timeout.
#[derive(Clone, Copy)]
pub enum SessionState {
    Free,
    WaitingForReply(Timing),
    OwingConfirm(Timing),
    WithUser(Timing),
    WaitingForConfirm(Timing),
}

impl SessionState {
    // The next three are alike: one function would need an enum that names the states without their timing.
    pub fn is_free(self) -> bool
        ensures { result ≡ is_free self }
    {
        matches!(self, SessionState::Free)
    }

    pub fn owes_confirm(self) -> bool
        ensures { result ≡ owes_confirm self }
    {
        matches!(self, SessionState::OwingConfirm(_))
    }

    pub fn is_with_user(self) -> bool
        ensures { result ≡ is_with_user self }
    {
        matches!(self, SessionState::WithUser(_))
    }

    // 0 free, 1 waiting for reply, 2 owing a confirm, 3 with the user, 4 waiting for confirm.
    // A number, for C (`trdp_session`) and the lent octets (`packed: session_octets`); no `From`: it drops the timing.
    pub fn number(self) -> u8
        ensures { result ≡ state_number self }
    {
        match self {
            SessionState::Free => 0,
            SessionState::WaitingForReply(_) => 1,
            SessionState::OwingConfirm(_) => 2,
            SessionState::WithUser(_) => 3,
            SessionState::WaitingForConfirm(_) => 4,
        }
    }

    // Start and timeout; zeros where it is free. No field beside the state, since a free one has none (`free_session`).
    pub fn timing(self) -> Timing
        ensures { result ≡ timing_of self }
    {
        match self {
            SessionState::Free => Timing {
                start: 0,
                timeout: 0,
            },
            SessionState::WaitingForReply(t)
            | SessionState::OwingConfirm(t)
            | SessionState::WithUser(t)
            | SessionState::WaitingForConfirm(t) => t,
        }
    }

    // The time is up.
    pub fn is_up(self, time: u64) -> bool
        ensures { result ≡ is_up time self }
    {
        self.timing().is_up(time)
    }

    // What a time check answers: 0 where the time is not up. A number: C reads sixteen of them (`trdp_check_sessions`).
    pub fn code(self, time: u64) -> i32
        ensures { result ≡ code_of time self }
    {
        if !self.is_up(time) {
            return 0;
        }
        match self {
            SessionState::WaitingForReply(_) => -6,
            SessionState::WaitingForConfirm(_) => -8,
            _ => -2,
        }
    }
}

// What an incoming telegram asks of a session: that it waits for a reply, or for a confirm.
// It says which session is sought, and is no step to run; specs/ give its rule (`waits_of`).
#[derive(Clone, Copy)]
pub enum Waits {
    Reply,
    Confirm,
}

impl Waits {
    // A state waits for this.
    fn is_met(self, s: SessionState) -> bool
        ensures { result ≡ waits_of self s }
    {
        match self {
            Waits::Reply => matches!(s, SessionState::WaitingForReply(_)),
            Waits::Confirm => matches!(s, SessionState::WaitingForConfirm(_)),
        }
    }
}

// A session: its identifier and its state.
#[derive(Clone, Copy)]
pub struct Session {
    pub id: [u8; 16],
    pub state: SessionState,
}

impl Session {
    // A session that is free.
    pub fn free() -> Session
        ensures { result ≡ free_session }
    {
        Session {
            id: [0; 16],
            state: SessionState::Free,
        }
    }

    // In use, in any state, with that identifier.
    pub fn has(&self, id: [u8; 16]) -> bool
        ensures { result ≡ has id self.now }
    {
        !self.state.is_free() && self.id == id
    }

    // Of that identifier, and able to take this: what is asked is a value, as `Waits` says.
    pub fn can_take(&self, id: [u8; 16], w: Waits) -> bool
        ensures { result ≡ can_take (waits_of w) id self.now }
    {
        self.has(id) && w.is_met(self.state)
    }

    // The session after the user's reply: with Mp it ends, with Mq it waits for a confirm.
    // The type is a number, as `trdp_reply` is given it: specs/ have a session after each, so a Kind would ask more.
    // Timeout and time, and no `Timing`: the one is the user's and the other the call's, and after Mp both are dropped.
    pub fn answered(self, msg_type: u16, timeout: u32, time: u64) -> Session
        ensures { result ≡ answered msg_type timeout time self }
    {
        match Kind::from(msg_type) {
            Kind::Mp => Session::free(),
            _ => Session {
                state: SessionState::WaitingForConfirm(Timing {
                    start: time,
                    timeout,
                }),
                ..self
            },
        }
    }
}

// The types that a user may reply with; asked of any number, as `trdp_reply` is given one.
pub fn is_reply(msg_type: u16) -> bool
    ensures { result ≡ is_reply msg_type }
{
    matches!(Kind::from(msg_type), Kind::Mp | Kind::Mq)
}
