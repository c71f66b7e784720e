// What becomes of an arriving MD telegram.
#![tactic(auto)]

ghost use Rattle.std.specs.Prelude.{◌≡◌, pos};
ghost use Rattle.refusal.specs.Refusal.{number};

use refusal::Refusal;

// What a telegram that was taken did.
#[derive(Clone, Copy, Debug, PartialEq, Eq)]
pub enum Arrived {
    // A notification: the listener.
    Notified { listener: usize },
    // A request: the listener, and the session's slot.
    Requested { listener: usize, session: usize },
    // replyStatus, and the session's slot.
    Taken { status: i32, session: usize },
}

// Why it was not, and the status for the Me to be sent.
#[derive(Clone, Copy, Debug, PartialEq, Eq)]
pub struct MdRefusal {
    pub refusal: Refusal,
    // 0: none. A number, as document 01 has it in the Me, and as C reads it (`trdp_receive_md`).
    pub status: i32,
}

// A refusal that carries no status.
impl From<Refusal> for MdRefusal {
    ghost from_gives = { λ r e. e ≡ record { refusal = r; status = pos 0 } };

    fn from(refusal: Refusal) -> MdRefusal {
        MdRefusal { refusal, status: 0 }
    }
}

// The refusal's number, without the status.
impl From<MdRefusal> for u8 {
    ghost from_gives = { λ e n. n ≡ number e.refusal };

    fn from(e: MdRefusal) -> u8 {
        e.refusal.into()
    }
}
