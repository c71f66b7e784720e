// Statistics of arriving telegrams: received, delivered, and each refusal number, PD apart from MD.
#![tactic(auto)]

ghost use Rattle.std.specs.Prelude.{◌≡◌};
ghost use Rattle.statistics.specs.Statistics.{counted, added, no_statistics};

use telegram::Family;

// Counters of one family; refused[n] counts refusal number n.
#[repr(C)]
#[derive(Clone, Copy)]
pub struct Counters {
    pub received: u32,
    pub delivered: u32,
    pub refused: [u32; 40],
}

#[repr(C)]
#[derive(Clone, Copy)]
pub struct Statistics {
    pub pd: Counters,
    pub md: Counters,
}

impl Counters {
    // One telegram more, with its outcome: 0 delivered, else the refusal number.
    // A number, as `trdp_receive_md` has it: `counted` has a meaning for each, and a Refusal would ask more.
    pub fn count(&mut self, outcome: u8)
        ensures { self.new ≡ counted outcome self.old }
    {
        self.received = self.received.wrapping_add(1);
        if outcome == 0 {
            self.delivered = self.delivered.wrapping_add(1);
        } else if outcome < 40 {
            let n = outcome as usize;
            self.refused[n] = self.refused[n].wrapping_add(1);
        }
    }
}

impl Statistics {
    // Nothing counted.
    pub fn none() -> Self
        ensures { result ≡ no_statistics }
    {
        let c = Counters {
            received: 0,
            delivered: 0,
            refused: [0; 40],
        };
        Self { pd: c, md: c }
    }

    // An arriving telegram, with its outcome, a number as in `count`, is added to its family's counters.
    pub fn record(&mut self, f: Family, outcome: u8)
        ensures { self.new ≡ added f outcome self.old }
    {
        match f {
            Family::Pd => self.pd.count(outcome),
            Family::Md => self.md.count(outcome),
        }
    }
}
