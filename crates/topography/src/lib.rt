// Topography: a telegram's two counters against the local ones.
#![tactic(auto)]

ghost use Rattle.std.specs.Prelude.{◌≡◌};
ghost use Rattle.topography.specs.Topography.{agrees, alone, passes};

// A telegram's counters, or the local ones.
#[repr(C)]
#[derive(Clone, Copy)]
pub struct TopoCounts {
    pub etb_topo_cnt: u32,
    pub op_trn_topo_cnt: u32,
}

// A telegram's counter agrees with the local one.
#[tactic(auto, using(refusal::proofs::Tests::tests))]
fn agree(counter: u32, local: u32) -> bool
    ensures { result ≡ agrees counter local }
{
    counter == 0 || counter == local
}

impl TopoCounts {
    // opTrnTopoCnt is not 0 beside etbTopoCnt 0.
    #[tactic(auto, using(refusal::proofs::Tests::tests))]
    fn is_alone(self) -> bool
        ensures { result ≡ alone self }
    {
        self.etb_topo_cnt == 0 && self.op_trn_topo_cnt != 0
    }

    // A telegram's counters pass beside the local ones; else refusal 7.
    pub fn pass(self, local: TopoCounts) -> bool
        ensures { result ≡ passes self local }
    {
        !self.is_alone()
            && agree(self.etb_topo_cnt, local.etb_topo_cnt)
            && agree(self.op_trn_topo_cnt, local.op_trn_topo_cnt)
    }
}
