// One PD subscription: its record, and what it decides by value.
#![tactic(auto)]

ghost use Rattle.std.specs.Prelude.{◌≡◌};
ghost use Rattle.subscription.specs.Record.{matches, unsound, forgotten, remembered, fresh, in_use, free_record};
ghost use Rattle.subscription.specs.Record.{granted_record, record_holds, record_wants, record_takes, record_taken};
ghost use Rattle.subscription.specs.Record.{state_of, record_due, record_marked, substitutes};

use address::SenderRange;
use timing::Timing;

// Which telegrams a subscription is for: a ComId, a range of senders, a destination (0: any).
#[repr(C)]
#[derive(Clone, Copy, PartialEq, Eq)]
pub struct Filter {
    pub com_id: u32,
    pub senders: SenderRange,
    pub destination: u32,
}

// The sender and counter last taken. Held: 0 where nothing was taken since subscribing or a timeout (a number for C).
#[repr(C)]
#[derive(Clone, Copy)]
pub struct LastTaken {
    pub held: u8,
    pub sender: u32,
    pub counter: u32,
}

// A slot of the subscription table. Used: 0 free, any other in use. Behaviour: 0 zero, 1 keep, any other substitute.
// State: 0 never received, 1 valid, any other timed out. Numbers, since hosts in C lend records (`trdp_receive_pd`).
#[repr(C)]
#[derive(Clone, Copy)]
pub struct Subscription {
    pub used: u8,
    pub filter: Filter,
    pub timing: Timing,
    pub behaviour: u8,
    pub state: u8,
    pub last: LastTaken,
    pub length: u32,
}

// A telegram that passed checks 2 to 7, as a slot sees it; its dataset stands beside.
#[derive(Clone, Copy)]
pub struct Heard {
    pub com_id: u32,
    pub sender: u32,
    pub destination: u32,
    pub counter: u32,
    pub time: u64,
}

// What reading a slot answers of it.
#[derive(Clone, Copy, Debug, PartialEq, Eq)]
pub enum State {
    NeverReceived,
    Valid,
    TimedOut,
}

impl Filter {
    // The range's end is not 0 and below its start: refusal 11.
    #[tactic(auto, unfolding(crate::specs::Record::unsound))]
    pub fn is_unsound(&self) -> bool
        ensures { result ≡ unsound self.now }
    {
        self.senders.is_reversed()
    }

    // The filter matches a telegram.
    #[tactic(auto, using(refusal::proofs::Tests::tests), unfolding(crate::specs::Record::matches))]
    pub fn is_match(&self, h: &Heard) -> bool
        ensures { result ≡ matches self.now h.now }
    {
        self.com_id == h.com_id
            && self.senders.admits(h.sender)
            && (self.destination == 0 || self.destination == h.destination)
    }
}

impl LastTaken {
    // Nothing taken since subscribing or since a timeout.
    pub fn none() -> Self
        ensures { result ≡ forgotten }
    {
        Self {
            held: 0,
            sender: 0,
            counter: 0,
        }
    }

    // The telegram's sender and counter are taken.
    pub fn take(h: &Heard) -> Self
        ensures { result ≡ remembered h.now }
    {
        Self {
            held: 1,
            sender: h.sender,
            counter: h.counter,
        }
    }

    // A telegram is fresh after the last one taken.
    #[tactic(auto, using(refusal::proofs::Tests::tests), unfolding(crate::specs::Record::fresh))]
    pub fn is_fresh(&self, h: &Heard) -> bool
        ensures { result ≡ fresh self.now h.now }
    {
        let ahead = h.counter.wrapping_sub(self.counter);
        self.held == 0 || self.sender != h.sender || (1 <= ahead && ahead <= 0x7FFF_FFFF)
    }
}

impl Subscription {
    // A record that is free.
    pub fn free() -> Self
        ensures { result ≡ free_record }
    {
        Self {
            used: 0,
            filter: Filter {
                com_id: 0,
                senders: SenderRange::ANY,
                destination: 0,
            },
            timing: Timing {
                start: 0,
                timeout: 0,
            },
            behaviour: 0,
            state: 0,
            last: LastTaken::none(),
            length: 0,
        }
    }

    // A record just granted: nothing received, supervision started.
    // The behaviour is a number, as `trdp_subscribe` is given it: each has a meaning, and an enum would ask more.
    // Four values, as `granted_record` has them: a struct of the asked three would be made for this call alone.
    pub fn granted(filter: Filter, timeout: u32, behaviour: u8, time: u64) -> Self
        ensures { result ≡ granted_record filter timeout behaviour time }
    {
        Self {
            used: 1,
            filter,
            timing: Timing {
                start: time,
                timeout,
            },
            behaviour,
            state: 0,
            last: LastTaken::none(),
            length: 0,
        }
    }

    // The slot is in use.
    pub fn is_used(&self) -> bool
        ensures { result ≡ in_use self.now }
    {
        self.used != 0
    }

    // The slot is in use with a filter equal in every field: refusal 12.
    #[tactic(auto, using(refusal::proofs::Tests::tests), unfolding(crate::specs::Record::equal))]
    pub fn is_holding(&self, f: &Filter) -> bool
        ensures { result ≡ record_holds f.now self.now }
    {
        self.is_used() && *f == self.filter
    }

    // The slot is in use and its filter matches.
    pub fn is_wanted(&self, h: &Heard) -> bool
        ensures { result ≡ record_wants h.now self.now }
    {
        self.filter.is_match(h) && self.is_used()
    }

    // The slot takes the telegram: it is fresh there.
    pub fn is_taken(&self, h: &Heard) -> bool
        ensures { result ≡ record_takes h.now self.now }
    {
        self.is_wanted(h) && self.last.is_fresh(h)
    }

    // A telegram with a dataset of n octets is taken.
    pub fn take(&mut self, h: &Heard, n: u32)
        ensures { self.new ≡ record_taken h.now n self.old }
    {
        self.timing.start = h.time;
        self.state = 1;
        self.last = LastTaken::take(h);
        self.length = n;
    }

    // The slot is in use, not yet marked, and its time is up.
    pub fn is_due(&self, time: u64) -> bool
        ensures { result ≡ record_due time self.now }
    {
        self.is_used() && self.state <= 1 && self.timing.is_up(time)
    }

    // The slot is marked: the counter is forgotten, stored length and start stay.
    pub fn mark(&mut self)
        ensures { self.new ≡ record_marked self.old }
    {
        self.state = 2;
        self.last = LastTaken::none();
    }

    // What reading answers of the slot. The field stays a number: C lends the record, and any number has a meaning.
    pub fn state(&self) -> State
        ensures { result ≡ state_of self.now.state }
    {
        match self.state {
            0 => State::NeverReceived,
            1 => State::Valid,
            _ => State::TimedOut,
        }
    }

    // Reading shows the substitute set: not valid, and behaviour substitute.
    #[tactic(auto, using(refusal::proofs::Tests::tests))]
    pub fn is_substituted(&self) -> bool
        ensures { result ≡ substitutes self.now }
    {
        self.state != 1 && 1 < self.behaviour
    }
}
