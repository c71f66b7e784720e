// Time: a clock reading and a timeout, in microseconds.
#![tactic(auto)]

ghost use Rattle.std.specs.Prelude.{◌≡◌};
ghost use Rattle.timing.specs.Timing.{passed, time_up};

// When supervision started, and the timeout; 0 for none and no Option, since C lends it within its subscriptions.
#[repr(C)]
#[derive(Clone, Copy)]
pub struct Timing {
    pub start: u64,
    pub timeout: u32,
}

// A span has passed since the start.
#[tactic(auto, using(refusal::proofs::Tests::tests))]
pub fn has_passed(start: u64, span: u32, now: u64) -> bool
    ensures { result ≡ passed start span now }
{
    start <= now && span as u64 <= now - start
}

impl Timing {
    // The time is up.
    #[tactic(auto, using(refusal::proofs::Tests::tests))]
    pub fn is_up(self, now: u64) -> bool
        ensures { result ≡ time_up self now }
    {
        self.timeout != 0 && has_passed(self.start, self.timeout, now)
    }
}
