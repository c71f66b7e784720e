// What comes with an arriving telegram.
#![tactic(auto)]

ghost use Rattle.std.specs.Prelude.{◌≡◌};
ghost use Rattle.topography.specs.Topography.{passes};
ghost use Rattle.arrival.specs.Arrival.{counts_of};

use telegram::Common;
use topography::TopoCounts;

// Sender, destination, arrival time in microseconds, and the local counters.
#[repr(C)]
#[derive(Clone, Copy)]
pub struct Arrival {
    pub sender: u32,
    pub destination: u32,
    pub time: u64,
    pub local: TopoCounts,
}

impl Arrival {
    // A header's counters pass beside the local ones; else refusal 7.
    pub fn is_local(self, c: Common) -> bool
        ensures { result ≡ passes (counts_of c) self.local }
    {
        let counts = TopoCounts {
            etb_topo_cnt: c.etb_topo_cnt,
            op_trn_topo_cnt: c.op_trn_topo_cnt,
        };
        counts.pass(self.local)
    }
}
