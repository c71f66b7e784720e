// What becomes of a line of a capture: its frame is handed to the subscription.
#![tactic(auto)]

ghost use Rattle.std.specs.Prelude.{◌≡◌};
ghost use Rattle.answer.specs.Lent.{Fills};
ghost use Rattle.statistics.specs.Statistics.{no_statistics};
ghost use Rattle.subscription_table.specs.Table.{delivered};
ghost use Rattle.subscription_decisions.specs.Calls.{told};
ghost use Rattle.capture.specs.Frame.{frame_of, datagram_of, buffer_after};
ghost use Rattle.listing.specs.Listing.{slot_zero, outcome_of, counted, Hands, Lists, outcome_line, total_line};

use address::SenderRange;
use answer::Room;
use arrival::Arrival;
use capture::Frame;
use refusal::Refusal;
use statistics::Statistics;
use subscription::{Filter, Subscription};
use topography::TopoCounts;

// What became of a line: three cases and no Result, since a bad line is neither delivered nor refused.
// Refused with a number: `Outcome::put`, which docs/RULES.md names, says what is printed of every number.
#[derive(Clone, Copy, Debug, PartialEq, Eq)]
pub enum Outcome {
    Delivered,
    Refused(u8),
    BadLine,
}

// A telegram taken is delivered, any other is refused with its number.
impl From<Result<usize, Refusal>> for Outcome {
    ghost from_gives = { λ r o. o ≡ outcome_of (told delivered r) };

    fn from(answer: Result<usize, Refusal>) -> Outcome {
        match answer {
            Ok(_) => Outcome::Delivered,
            Err(r) => Outcome::Refused(r.into()),
        }
    }
}

impl Outcome {
    // The line that says what became of line n.
    // No Display: its `output` is one text, and `outcome_line` is pieces, each left out whole where it does not fit.
    pub fn put(self, n: u64, out: &mut Room)
        ensures { Fills (outcome_line n self) out.old out.new }
    {
        out.digits(n);
        match self {
            Outcome::Delivered => out.text(b" delivered 1\n"),
            Outcome::Refused(r) => {
                out.refused(r);
                out.text(b"\n");
            }
            Outcome::BadLine => out.text(b" bad line\n"),
        }
    }
}

// The frames totalled.
#[derive(Clone, Copy, Debug, PartialEq, Eq)]
pub struct Totals {
    pub delivered: u64,
    pub refused: u64,
}

impl Totals {
    // One frame more; a bad line is not totalled.
    fn count(&mut self, o: Outcome)
        ensures { self.new ≡ counted o self.old }
    {
        match o {
            Outcome::Delivered => self.delivered = self.delivered.wrapping_add(1),
            Outcome::Refused(_) => self.refused = self.refused.wrapping_add(1),
            Outcome::BadLine => {}
        }
    }

    // The line that ends the listing; no Display, as in `Outcome::put`.
    pub fn put(self, out: &mut Room)
        ensures { Fills (total_line self) out.old out.new }
    {
        out.text(b"total");
        out.decimal(self.delivered.wrapping_add(self.refused));
        out.word(b"delivered");
        out.decimal(self.delivered);
        out.word(b"refused");
        out.decimal(self.refused);
        out.text(b"\n");
    }
}

// The local counters, slot 0, the statistics and the totals.
#[derive(Clone, Copy)]
pub struct Listing {
    pub local: TopoCounts,
    pub slot: Subscription,
    pub statistics: Statistics,
    pub totals: Totals,
}

impl Listing {
    // Before the first frame. Slot 0 is ComId 1000, any sender, any destination, no timeout, keep.
    pub fn begin(local: TopoCounts) -> Listing
        ensures { result ≡ record {
          local = local;
          slot = slot_zero;
          statistics = no_statistics;
          totals = record { delivered = 0; refused = 0 };
        } }
    {
        let filter = Filter {
            com_id: 1000,
            senders: SenderRange::ANY,
            destination: 0,
        };
        Listing {
            local,
            slot: Subscription::granted(filter, 0, 1, 0),
            statistics: Statistics::none(),
            totals: Totals {
                delivered: 0,
                refused: 0,
            },
        }
    }

    // A frame handed to slot 0.
    fn receive(&mut self, f: Frame, store: &mut [u8], datagram: &[u8]) -> Outcome
        ensures { Hands self.old f datagram.now store.old result self.new store.new }
    {
        let arrival = Arrival {
            sender: f.sender,
            destination: f.destination,
            time: f.time,
            local: self.local,
        };
        let outcome = Outcome::from(lent::receive_alone(
            &mut self.slot,
            store,
            &mut self.statistics,
            arrival,
            datagram,
        ));
        self.totals.count(outcome);
        outcome
    }

    // A line after line 1.
    pub fn list(&mut self, s: &[u8], store: &mut [u8], buffer: &mut [u8; 1472]) -> Outcome
        ensures lists { Lists self.old (frame_of s.now) (datagram_of s.now) store.old result self.new store.new }
        ensures buffer_after { buffer.new ≡ buffer_after s.now buffer.old }
    {
        match capture::read_frame(s, buffer) {
            Some(f) => self.receive(f, store, &buffer[..f.octets]),
            None => Outcome::BadLine,
        }
    }
}
