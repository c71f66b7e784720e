// What the calls over listeners and sessions answer, in words.
#![tactic(auto)]

ghost use Rattle.std.specs.Prelude.{◌≡◌};
ghost use Rattle.answer.specs.Lent.{Fills};
ghost use Rattle.session_table.specs.Calls.{arrived};
ghost use Rattle.answer.specs.Answer.{number};
ghost use Rattle.octets.specs.Octets.{unsigned};
ghost use Rattle.session_table.specs.Table.{requested, taken, codes as codes_told};
ghost use Rattle.scenario_md_words.specs.Words.{answer_words, refused_words, used_words, record_words, slot_words};
ghost use Rattle.scenario_md_words.specs.Said.{said_of, said_words};

use answer::Room;
use refusal::Refusal;
use session::{Session, SessionState};
use session_table::{Arrived, MdRefusal};
use timing::Timing;

// A request: the listener and the session's slot.
fn put_requested(out: &mut Room, listener: usize, session: usize)
    ensures { Fills (answer_words (requested listener session)) out.old out.new }
{
    out.word_of(b"opened", listener);
    out.decimal(session as u64);
}

// replyStatus or the status for the Me to be sent, as its 32 bits.
fn put_status(out: &mut Room, status: i32)
    ensures { Fills (number 8 (unsigned status)) out.old out.new }
{
    out.number(octets::to_unsigned(status));
}

// A telegram of a session: replyStatus, and its slot.
fn put_taken(out: &mut Room, status: i32, session: usize)
    ensures { Fills (answer_words (taken status session)) out.old out.new }
{
    out.word(b"taken");
    put_status(out, status);
    out.decimal(session as u64);
}

// A refusal: its number, and the status for the Me to be sent.
fn put_refused(out: &mut Room, n: u8, status: i32)
    ensures { Fills (refused_words n status) out.old out.new }
{
    out.refused(n);
    put_status(out, status);
}

// What a call says, whichever it is: a telegram that was taken, what the user's calls answer, or a refusal, whose number
// and status may be any. An enum beside the calls' Results, since `put_heard` puts what any of them answers.
#[derive(Clone, Copy)]
pub enum Said {
    Arrived(Arrived),
    Listening(usize),
    Opened(usize),
    Freed,
    Replied,
    Confirmed,
    Refused(u8, i32),
}

// A telegram says whom it reached, or why it was refused.
impl From<Result<Arrived, MdRefusal>> for Said {
    ghost from_gives = { λ r x. x ≡ said_of r };

    fn from(r: Result<Arrived, MdRefusal>) -> Said {
        match r {
            Ok(a) => Said::Arrived(a),
            Err(e) => Said::Refused(e.refusal.into(), e.status),
        }
    }
}

// A telegram that was taken.
fn put_arrived(out: &mut Room, a: Arrived)
    ensures { Fills (answer_words (arrived a)) out.old out.new }
{
    match a {
        Arrived::Notified { listener } => out.word_of(b"notified", listener),
        Arrived::Requested { listener, session } => put_requested(out, listener, session),
        Arrived::Taken { status, session } => put_taken(out, status, session),
    }
}

// The answer to a telegram, or to any other call.
pub fn put_heard<A: Into<Said>>(out: &mut Room, answer: A)
    ensures { (x : Said) × A.converts answer x × Fills (said_words x) out.old out.new }
{
    match answer.into() {
        Said::Arrived(a) => put_arrived(out, a),
        Said::Listening(k) => out.word_of(b"listener", k),
        Said::Opened(k) => out.word_of(b"session", k),
        Said::Freed => out.word(b"freed"),
        Said::Replied => out.word(b"replied"),
        Said::Confirmed => out.word(b"confirmed"),
        Said::Refused(n, status) => put_refused(out, n, status),
    }
}

// Sixteen codes.
pub fn put_codes(out: &mut Room, codes: [i32; 16])
    ensures { Fills (answer_words (codes_told codes)) out.old out.new }
{
    out.word(b"codes");
    for code in codes {
        out.signed(code);
    }
}

// A session in use: its identifier, and what it waits for since when and how long.
fn put_waiting(out: &mut Room, id: &[u8; 16], state: &[u8], t: Timing)
    ensures { Fills (used_words id.now state.now t) out.old out.new }
{
    out.word(b"used");
    out.octets(id);
    out.word(state);
    out.number(t.start);
    out.number(t.timeout);
}

// A session's record.
fn put_session(out: &mut Room, x: &Session)
    ensures { Fills (record_words x.now.id x.now.state) out.old out.new }
{
    match x.state {
        SessionState::Free => out.word(b"free"),
        SessionState::WaitingForReply(t) => put_waiting(out, &x.id, b"reply", t),
        SessionState::OwingConfirm(t) => put_waiting(out, &x.id, b"owing", t),
        SessionState::WithUser(t) => put_waiting(out, &x.id, b"user", t),
        SessionState::WaitingForConfirm(t) => put_waiting(out, &x.id, b"confirm", t),
    }
}

// The record of session slot k; 10 where there is no such slot.
pub fn put_slot(out: &mut Room, k: usize, x: &Session)
    ensures { Fills (slot_words k x.now) out.old out.new }
{
    if k < 16 {
        put_session(out, x);
    } else {
        out.refused(Refusal::NoSlot);
    }
}
