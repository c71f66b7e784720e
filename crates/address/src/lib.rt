// The sender range of a filter, for subscriptions and listeners.
#![tactic(auto)]

ghost use Rattle.std.specs.Prelude.{◌≡◌};
ghost use Rattle.address.specs.SenderRange.{reversed, admits};

// Both ends 0: any sender; end 0: only the start; else start to end. Two ranges are equal as written.
// Two numbers and no enum of the three cases: C hands both over (`trdp_subscribe`, `trdp_listen`).
#[repr(C)]
#[derive(Clone, Copy, PartialEq, Eq)]
pub struct SenderRange {
    pub start: u32,
    pub end: u32,
}

impl SenderRange {
    // Any sender.
    pub const ANY: Self = Self { start: 0, end: 0 };

    // The end is not 0 and below the start: refusal 11.
    #[tactic(auto, using(refusal::proofs::Tests::tests))]
    pub fn is_reversed(self) -> bool
        ensures { result ≡ reversed self }
    {
        self.end != 0 && self.end < self.start
    }

    // The range admits a sender.
    #[tactic(auto, using(refusal::proofs::Tests::tests))]
    pub fn admits(self, sender: u32) -> bool
        ensures { result ≡ admits self sender }
    {
        if self.end == 0 {
            self.start == 0 || self.start == sender
        } else {
            self.start <= sender && sender <= self.end
        }
    }
}
