// A push publication: due, and sent through the PD writer.
#![tactic(auto)]

ghost use Rattle.std.specs.Prelude.{◌≡◌, length};
ghost use Rattle.refusal.specs.Refusal.{first_of};
ghost use Rattle.publication.specs.Publication.{made_of, due, send_checks, Sends};

use pd::PdHeader;
use refusal::Refusal;

// A publication: its header, whose sequence counter is the next one, its cycle, and its last sending. Sent: 0 where nothing was sent.
#[repr(C)]
#[derive(Clone, Copy)]
pub struct Publication {
    pub header: PdHeader,
    pub cycle: u32,
    // A number, since C holds the record between two sendings (`trdp_publish`, `trdp_send`).
    pub sent: u8,
    pub last_sent: u64,
}

impl Publication {
    // A publication that has sent nothing yet.
    pub fn new(mut header: PdHeader, cycle: u32) -> Self
        ensures { result ≡ made_of header cycle }
    {
        header.common.sequence_counter = 0;
        Self {
            header,
            cycle,
            sent: 0,
            last_sent: 0,
        }
    }

    // The publication is due.
    pub fn is_due(&self, time: u64) -> bool
        ensures { result ≡ due self.now time }
    {
        self.sent == 0 || timing::has_passed(self.last_sent, self.cycle, time)
    }

    // A telegram sent, and how many octets; or refused with 14 or the writer's number, which leaves record and target as they were.
    pub fn send(&mut self, time: u64, dataset: &[u8], target: &mut [u8]) -> Result<usize, Refusal>
        ensures { Sends (first_of (send_checks self.old time (length dataset.now) (length target.old)))
            self.old time dataset.now target.old result self.new target.new }
    {
        if !self.is_due(time) {
            return Err(Refusal::NotDue);
        }
        let n = pd::write_pd(self.header, dataset, target)?;
        let counter = self.header.common.sequence_counter;
        self.header.common.sequence_counter = counter.wrapping_add(1);
        self.sent = 1;
        self.last_sent = time;
        Ok(n)
    }
}
