// What the calls over subscriptions answer, in words.
#![tactic(auto)]

ghost use Rattle.answer.specs.Lent.{Fills};
ghost use Rattle.scenario_pd_words.specs.Words.{state_words, granted_words, last_words, record_words};

use answer::Room;
use subscription::{LastTaken, State, Subscription};

// Whether a slot is valid, timed out, or never received.
pub fn put_state(out: &mut Room, state: State)
    ensures { Fills (state_words state) out.old out.new }
{
    out.word(match state {
        State::NeverReceived => b"never",
        State::Valid => b"valid",
        State::TimedOut => b"timedout",
    });
}

// COMID START END DEST TIMEOUT BEHAVIOUR
fn put_granted(out: &mut Room, r: &Subscription)
    ensures { Fills (granted_words r.now) out.old out.new }
{
    out.number(r.filter.com_id);
    out.number(r.filter.senders.start);
    out.number(r.filter.senders.end);
    out.number(r.filter.destination);
    out.number(r.timing.timeout);
    out.decimal(u64::from(r.behaviour));
}

// SENDER COUNTER, or `- -` where no counter is held
fn put_last(out: &mut Room, l: LastTaken)
    ensures { Fills (last_words l) out.old out.new }
{
    if l.held == 0 {
        out.word(b"- -");
    } else {
        out.number(l.sender);
        out.number(l.counter);
    }
}

// A record: free, or used and its fields.
pub fn put_record(out: &mut Room, r: &Subscription)
    ensures { Fills (record_words r.now) out.old out.new }
{
    if r.is_used() {
        out.word(b"used");
        put_granted(out, r);
        put_state(out, r.state());
        put_last(out, r.last);
        out.number(r.timing.start);
        out.decimal(u64::from(r.length));
    } else {
        out.word(b"free");
    }
}
