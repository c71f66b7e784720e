// An arriving MD datagram, over the octets of listeners and sessions.
#![tactic(auto)]

ghost use Rattle.std.specs.Prelude.{◌≡◌, ◌&&◌, MatchResult};
ghost use Rattle.refusal.specs.Refusal.{first_of, answer};
ghost use Rattle.md.specs.Uri.{sound};
ghost use Rattle.md.specs.Md.{header_of, source_uri_of, destination_uri_of};
ghost use Rattle.session.specs.declared.SessionState.TheVariants.{OwingConfirm};
ghost use Rattle.session.specs.Session.{waits_of};
ghost use Rattle.session_table.specs.Sought.{found_of};
ghost use Rattle.session_table.specs.Table.{md_checks, telegram, hearing, notifying, requesting, taking, arriving, kind_of};
ghost use Rattle.session_table.specs.Calls.{heard};
ghost use Rattle.packed.specs.Packed.{tables_of};
ghost use Rattle.packed_slots.specs.Calls.{Follows};
ghost use Rattle.messages.specs.Arriving.{heard_by, Gives};

use arrival::Arrival;
use md::MdHeader;
use packed::OCTETS;
use refusal::Refusal;
use session::{Kind, Session, SessionState, Waits};
use session_table::{Arrived, MdRefusal};
use timing::Timing;

// What a telegram says that passed its checks.
#[derive(Clone, Copy)]
pub struct Message<'a> {
    // A number, as the rules of specs/ are told it (`heard_by`).
    pub msg_type: u16,
    pub com_id: u32,
    pub sender: u32,
    pub time: u64,
    pub id: [u8; 16],
    pub status: i32,
    pub timeout: u32,
    pub destination: &'a [u8],
}

impl<'a> Message<'a> {
    // Since when a session waits that the telegram opens or changes, and how long: two of its fields.
    fn timing(&self) -> Timing
        ensures { result ≡ record { start = self.now.time; timeout = self.now.timeout } }
    {
        Timing {
            start: self.time,
            timeout: self.timeout,
        }
    }

    // The lowest listener that hears it.
    fn listener(&self, octets: &[u8; OCTETS]) -> Option<usize>
        ensures { result ≡ found_of (hearing (heard_by self.now) (tables_of octets.now).listeners) }
    {
        packed_slots::find_hearing(octets, self.com_id, self.sender, self.destination)
    }

    // Mn: 8, else the lowest listener that hears it; no session.
    fn notify(&self, octets: &[u8; OCTETS]) -> Result<Arrived, MdRefusal>
        ensures { Gives octets.now
            (notifying (hearing (heard_by self.now) (tables_of octets.now).listeners) (tables_of octets.now).sessions)
            (heard result) octets.now }
    {
        let listener = self.listener(octets).ok_or(Refusal::NoMatch)?;
        Ok(Arrived::Notified { listener })
    }

    // Mr: 8 with status -3, 17, 18 with status -4; else the lowest free session, with the user.
    fn request(&self, octets: &mut [u8; OCTETS]) -> Result<Arrived, MdRefusal>
        ensures { Gives octets.old
            (requesting (hearing (heard_by self.now) (tables_of octets.old).listeners) (heard_by self.now)
            (tables_of octets.old).sessions) (heard result) octets.new }
    {
        let Some(listener) = self.listener(octets) else {
            return Err(MdRefusal {
                refusal: Refusal::NoMatch,
                status: -3,
            });
        };
        match packed_slots::open(octets, self.id, SessionState::WithUser(self.timing())) {
            Ok(session) => Ok(Arrived::Requested { listener, session }),
            Err(Refusal::NoFreeSession) => Err(MdRefusal {
                refusal: Refusal::NoFreeSession,
                status: -4,
            }),
            Err(refusal) => Err(refusal.into()),
        }
    }

    // Mp, Mq, Mc and Me: 19, else the session that waits for this becomes another.
    // What it waits for is a value, and no step to run: it says which session is sought (`session::Waits`).
    fn take(
        &self,
        octets: &mut [u8; OCTETS],
        w: Waits,
        after: Session,
    ) -> Result<Arrived, MdRefusal>
        ensures { Gives octets.old
            (taking (waits_of w) (λ x. after) (heard_by self.now) (tables_of octets.old).sessions)
            (heard result) octets.new }
    {
        let session = packed_slots::find_waiting(octets, self.id, w).ok_or(Refusal::NoSession)?;
        packed_slots::put_session(octets, session, after);
        Ok(Arrived::Taken {
            status: self.status,
            session,
        })
    }

    // The session after Mq: it owes a confirm, with Mq's timeout.
    fn owing(&self) -> Session
        ensures { result ≡ record {
          id = self.now.id;
          state = OwingConfirm (record {
            start = self.now.time;
            timeout = self.now.timeout;
          });
        } }
    {
        Session {
            id: self.id,
            state: SessionState::OwingConfirm(self.timing()),
        }
    }

    // The rule of its type; Me is taken as a reply.
    fn follow(&self, octets: &mut [u8; OCTETS]) -> Result<Arrived, MdRefusal>
        ensures { Gives octets.old
            (arriving (kind_of self.now.msg_type) (hearing (heard_by self.now) (tables_of octets.old).listeners)
            (heard_by self.now) (tables_of octets.old).sessions) (heard result) octets.new }
    {
        match Kind::from(self.msg_type) {
            Kind::Mn => self.notify(octets),
            Kind::Mr => self.request(octets),
            Kind::Mp | Kind::Me => self.take(octets, Waits::Reply, Session::free()),
            Kind::Mq => self.take(octets, Waits::Reply, self.owing()),
            Kind::Mc => self.take(octets, Waits::Confirm, Session::free()),
        }
    }
}

// Both URI fields of a datagram are sound; else refusal 20.
fn has_sound_uris(datagram: &[u8]) -> bool
    ensures { result ≡ (sound (source_uri_of datagram.now) && sound (destination_uri_of datagram.now)) }
{
    md::uri::is_sound(md::source_uri(datagram)) && md::uri::is_sound(md::destination_uri(datagram))
}

// The header of an arriving MD datagram, or the first refusal of 2 to 7 and 20.
fn judge(a: Arrival, datagram: &[u8]) -> Result<MdHeader, Refusal>
    ensures { result ≡ answer (first_of (md_checks a datagram.now)) (header_of datagram.now) }
{
    let h = telegram::take::<MdHeader>(datagram)?;
    if !a.is_local(h.common) {
        return Err(Refusal::Topography);
    }
    if !has_sound_uris(datagram) {
        return Err(Refusal::Uri);
    }
    Ok(h)
}

// An MD datagram arrives: 2 to 7, 20, then the rule of its type.
// Arrival and octets apart: C gives the one by value and lends the other (`trdp_receive_md`).
pub fn arrive(octets: &mut [u8; OCTETS], a: Arrival, datagram: &[u8]) -> Result<Arrived, MdRefusal>
    ensures { Follows (telegram a datagram.now) octets.old (heard result) octets.new }
{
    let h = judge(a, datagram)?;
    let m = Message {
        msg_type: h.common.msg_type,
        com_id: h.common.com_id,
        sender: a.sender,
        time: a.time,
        id: md::session_id(datagram),
        status: h.reply_status,
        timeout: h.reply_timeout,
        destination: md::destination_uri(datagram),
    };
    m.follow(octets)
}

// The outcome that an answer counts as, of any call: the refusal's number, 0 for whatever was granted. A refusal may be
// an `MdRefusal`, a `Refusal`, or any number.
// A number, as `Statistics::record` takes it, and no `From`: it leaves out status and slots, and no type says outcome.
pub fn outcome_of<T: Drop, E: Into<u8>>(answer: Result<T, E>) -> u8
    ensures { MatchResult answer (λ _. result ≡ 0) (λ e. E.converts e result) }
{
    match answer {
        Ok(_) => 0,
        Err(e) => e.into(),
    }
}
