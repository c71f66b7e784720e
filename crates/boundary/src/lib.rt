// What crosses to a host: every answer as a struct of numbers, whose refusal 0 means granted.
// Refusals, kinds and states are numbers, and a refusal stands beside a value, since C reads these structs.
#![tactic(auto)]

ghost use Rattle.std.specs.Prelude.{◌≡◌, ◌<◌, Err, IfOk};
ghost use Rattle.md.specs.Md.{take_md};
ghost use Rattle.refusal.specs.Refusal.{number};
ghost use Rattle.session_table.specs.Table.{freed, opened};
ghost use Rattle.session_table.specs.Calls.{heard, told};
ghost use Rattle.boundary.specs.Sessions.{told as md_told, outcome_of, md_outcome_of, of_session};
ghost use Rattle.boundary.specs.Subscriptions.{nothing_shown, of_reading};
ghost use Rattle.boundary.specs.Wire.{refused_with, of_result, of_done, no_pd_datagram, of_pd_taken};
ghost use Rattle.boundary.specs.Wire.{no_md_datagram, of_md_taken, sending, of_sent};

use md::MdHeader;
use packed::SLOTS;
use pd::PdHeader;
use publication::Publication;
use refusal::Refusal;
use session::Session;
use session_table::{Arrived, MdRefusal};
use subscription_decisions::View;
use telegram::Common;

// What a call answers: a slot, a count or a length; 0 where it is refused or has nothing to say.
// Numbers, since C reads it from `trdp_subscribe`, `trdp_write_pd` and others, which can return no enum.
#[repr(C)]
#[derive(Clone, Copy)]
pub struct Outcome {
    pub refusal: u8,
    pub value: usize,
}

impl Outcome {
    // Refused with a number, which may be any.
    pub fn refused(n: u8) -> Self
        ensures { result ≡ refused_with n }
    {
        Self {
            refusal: n,
            value: 0,
        }
    }
}

// The slot, the count or the length that was granted, or the refusal's number.
impl From<Result<usize, Refusal>> for Outcome {
    ghost from_gives = { λ r o. o ≡ of_result r };

    fn from(r: Result<usize, Refusal>) -> Self {
        match r {
            Ok(value) => Self { refusal: 0, value },
            Err(e) => Self::refused(e.into()),
        }
    }
}

// Nothing to say where it is granted, or the refusal's number.
impl From<Result<(), Refusal>> for Outcome {
    ghost from_gives = { λ r o. o ≡ of_done r };

    fn from(r: Result<(), Refusal>) -> Self {
        r.map(|()| 0).into()
    }
}

// The slot of the listener that heard a notification, or of the session that a telegram reached; or the refusal's
// number.
impl From<Result<Arrived, MdRefusal>> for Outcome {
    ghost from_gives = { λ r o. o ≡ outcome_of (heard r) };

    fn from(r: Result<Arrived, MdRefusal>) -> Self {
        match r {
            Ok(Arrived::Notified { listener }) => Self {
                refusal: 0,
                value: listener,
            },
            Ok(Arrived::Requested { session, .. } | Arrived::Taken { session, .. }) => Self {
                refusal: 0,
                value: session,
            },
            Err(e) => Self::refused(e.into()),
        }
    }
}

// The fields of a header that was not taken apart.
const NO_COMMON: Common = Common {
    sequence_counter: 0,
    protocol_version: 0,
    msg_type: 0,
    com_id: 0,
    etb_topo_cnt: 0,
    op_trn_topo_cnt: 0,
    dataset_length: 0,
};

// A PD header that was not taken apart.
const NO_PD_HEADER: PdHeader = PdHeader {
    common: NO_COMMON,
    reserved: 0,
    reply_com_id: 0,
    reply_ip_address: 0,
};

// An MD header that was not taken apart.
const NO_MD_HEADER: MdHeader = MdHeader {
    common: NO_COMMON,
    reply_status: 0,
    reply_timeout: 0,
};

// A PD datagram taken apart. A number beside the header, since C reads it from `trdp_take_pd`.
#[repr(C)]
#[derive(Clone, Copy)]
pub struct PdDatagram {
    pub refusal: u8,
    pub header: PdHeader,
}

impl PdDatagram {
    // Refused with a number, which may be any.
    pub fn refused(n: u8) -> Self
        ensures { result ≡ no_pd_datagram n }
    {
        Self {
            refusal: n,
            header: NO_PD_HEADER,
        }
    }
}

// The header of a PD datagram, or the refusal's number.
impl From<Result<PdHeader, Refusal>> for PdDatagram {
    ghost from_gives = { λ r o. o ≡ of_pd_taken r };

    fn from(r: Result<PdHeader, Refusal>) -> Self {
        match r {
            Ok(header) => Self { refusal: 0, header },
            Err(e) => Self::refused(e.into()),
        }
    }
}

// An MD datagram taken apart. A number beside the fields, since C reads it from `trdp_take_md`.
#[repr(C)]
#[derive(Clone, Copy)]
pub struct MdDatagram {
    pub refusal: u8,
    pub header: MdHeader,
    pub session_id: [u8; 16],
    pub source_uri: [u8; 32],
    pub destination_uri: [u8; 32],
}

// An MD datagram that was refused.
impl From<Refusal> for MdDatagram {
    ghost from_gives = { λ r o. o ≡ no_md_datagram (number r) };

    fn from(r: Refusal) -> Self {
        Self::refused(r.into())
    }
}

impl MdDatagram {
    // Refused with a number, which may be any.
    pub fn refused(n: u8) -> Self
        ensures { result ≡ no_md_datagram n }
    {
        Self {
            refusal: n,
            header: NO_MD_HEADER,
            session_id: [0; 16],
            source_uri: [0; 32],
            destination_uri: [0; 32],
        }
    }

    // An MD datagram taken apart: its header, identifier and URI fields, or the first refusal of 2 to 6.
    pub fn take(d: &[u8]) -> Self
        ensures { result ≡ of_md_taken d.now (take_md d.now) }
    {
        match telegram::take::<MdHeader>(d) {
            Ok(header) => Self {
                refusal: 0,
                header,
                session_id: md::session_id(d),
                source_uri: octets::array(d, 48),
                destination_uri: octets::array(d, 80),
            },
            Err(e) => e.into(),
        }
    }
}

// A sending: how many octets were written, and the publication after it. Numbers, since C reads it from `trdp_send`.
#[repr(C)]
#[derive(Clone, Copy)]
pub struct Sending {
    pub refusal: u8,
    pub length: usize,
    pub publication: Publication,
}

impl Sending {
    // An answer, whatever number it has, and the publication after it.
    pub fn of(o: Outcome, publication: Publication) -> Self
        ensures { result ≡ sending o publication }
    {
        Self {
            refusal: o.refusal,
            length: o.value,
            publication,
        }
    }

    // How many octets were written, or the refusal's number; and the publication after it.
    pub fn new(r: Result<usize, Refusal>, publication: Publication) -> Self
        ensures { result ≡ of_sent r publication }
    {
        Self::of(r.into(), publication)
    }
}

// What reading a slot shows. State: 0 never received, 1 valid, 2 timed out. Either the substitute set whole, or so many
// octets of the store from start on. Numbers and a flag, since C reads it from `trdp_read`.
#[repr(C)]
#[derive(Clone, Copy)]
pub struct Shown {
    pub refusal: u8,
    pub state: u8,
    pub substitute: bool,
    pub start: usize,
    pub length: usize,
}

// Nothing is shown: the refusal's number.
impl From<Refusal> for Shown {
    ghost from_gives = { λ r o. o ≡ of_reading 0 (Err r) };

    fn from(r: Refusal) -> Self {
        Self::refused(r.into())
    }
}

impl Shown {
    // Refused with a number, which may be any.
    pub fn refused(n: u8) -> Self
        ensures { result ≡ nothing_shown n }
    {
        Self {
            refusal: n,
            state: 0,
            substitute: false,
            start: 0,
            length: 0,
        }
    }

    // What reading slot k answers: the substitute set, or its part's first octets; or the refusal's number.
    // No `From`, since the slot's number is asked for too.
    #[tactic(auto, unfolding(subscription_table::specs::Slot::slot_octets))]
    pub fn of_slot(k: usize, r: Result<View, Refusal>) -> Self
        requires { IfOk r (λ _. k < 32) }
        ensures { result ≡ of_reading k r }
    {
        let v = match r {
            Ok(v) => v,
            Err(e) => return e.into(),
        };
        let (start, length) = if v.substitute {
            (0, 0)
        } else {
            (k * 1432, v.length as usize)
        };
        Self {
            refusal: 0,
            state: v.state as u8,
            substitute: v.substitute,
            start,
            length,
        }
    }
}

// What becomes of an MD telegram. Kind: 0 refused, 1 notified, 2 requested, 3 taken. Status: replyStatus of what was
// taken, or the status that a refusal carries. Numbers, since C reads it from `trdp_receive_md`.
#[repr(C)]
#[derive(Clone, Copy)]
pub struct MdOutcome {
    pub kind: u8,
    pub refusal: u8,
    pub status: i32,
    pub listener: usize,
    pub session: usize,
}

impl MdOutcome {
    // Nothing to say.
    const NOTHING: Self = Self {
        kind: 0,
        refusal: 0,
        status: 0,
        listener: 0,
        session: 0,
    };

    // Refused with a number and a status, which may be any.
    pub fn refused(n: u8, status: i32) -> Self
        ensures { result ≡ md_told 0 n status 0 0 }
    {
        let mut o = Self::NOTHING;
        o.refusal = n;
        o.status = status;
        o
    }
}

// A call of the user's says nothing of a telegram: its refusal's number, or nothing.
impl From<Result<(), Refusal>> for MdOutcome {
    ghost from_gives = { λ r o. o ≡ md_outcome_of (told (λ _. freed) r) };

    fn from(r: Result<(), Refusal>) -> Self {
        match r {
            Ok(()) => Self::NOTHING,
            Err(e) => Self::refused(e.into(), 0),
        }
    }
}

// .. whatever slot it answers.
impl From<Result<usize, Refusal>> for MdOutcome {
    ghost from_gives = { λ r o. o ≡ md_outcome_of (told opened r) };

    fn from(r: Result<usize, Refusal>) -> Self {
        r.map(|_| ()).into()
    }
}

// Whom a telegram reached, or the refusal's number with its status.
impl From<Result<Arrived, MdRefusal>> for MdOutcome {
    ghost from_gives = { λ r o. o ≡ md_outcome_of (heard r) };

    fn from(r: Result<Arrived, MdRefusal>) -> Self {
        match r {
            Ok(Arrived::Notified { listener }) => Self {
                kind: 1,
                listener,
                ..Self::NOTHING
            },
            Ok(Arrived::Requested { listener, session }) => Self {
                kind: 2,
                listener,
                session,
                ..Self::NOTHING
            },
            Ok(Arrived::Taken { status, session }) => Self {
                kind: 3,
                status,
                session,
                ..Self::NOTHING
            },
            Err(e) => Self::refused(e.refusal.into(), e.status),
        }
    }
}

// A time check's code for each session slot.
#[repr(C)]
#[derive(Clone, Copy)]
pub struct Codes {
    pub codes: [i32; SLOTS],
}

// A session as a host sees it. State: 0 free, 1 waiting for reply, 2 owing a confirm, 3 with the user, 4 waiting for
// confirm. Numbers, since C reads it from `trdp_session`.
#[repr(C)]
#[derive(Clone, Copy)]
pub struct SessionSeen {
    pub refusal: u8,
    pub state: u8,
    pub id: [u8; 16],
    pub start: u64,
    pub timeout: u32,
}

// A session, or the refusal's number.
impl From<Result<Session, Refusal>> for SessionSeen {
    ghost from_gives = { λ r o. o ≡ of_session r };

    fn from(r: Result<Session, Refusal>) -> Self {
        match r {
            Ok(x) => {
                let id = x.id;
                let timing = x.state.timing();
                Self {
                    refusal: 0,
                    state: x.state.number(),
                    id,
                    start: timing.start,
                    timeout: timing.timeout,
                }
            }
            Err(e) => Self {
                refusal: e.into(),
                state: 0,
                id: [0; 16],
                start: 0,
                timeout: 0,
            },
        }
    }
}
