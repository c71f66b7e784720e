// The PD header of 40 octets: its fields, and a telegram written. `telegram::take` takes one apart.
#![tactic(auto)]

ghost use Rattle.std.specs.Prelude.{◌≡◌, ◌+◌, ◌≤◌, length};
ghost use Rattle.refusal.specs.Refusal.{first_of};
ghost use Rattle.octets.specs.Octets.{put};
ghost use Rattle.telegram.specs.Telegram.{padded, Wrote};
ghost use Rattle.pd.specs.Pd.{frame_of, write_checks_pd};

use octets::Number;
use refusal::Refusal;
use telegram::{Common, Family, Header};

// The fields of a PD header. A writer takes datasetLength from the dataset.
#[repr(C)]
#[derive(Clone, Copy)]
pub struct PdHeader {
    pub common: Common,
    pub reserved: u32,
    pub reply_com_id: u32,
    pub reply_ip_address: u32,
}

impl Header for PdHeader {
    ghost use Rattle.telegram.specs.declared.Family.TheVariants as families;
    ghost use Rattle.pd.specs.Pd as pd;

    ghost family = { families.Pd };

    ghost header_of = { pd.header_of };

    // What the trait asks of each header, as in md.
    fn family() -> Family {
        Family::Pd
    }

    fn read(d: &[u8]) -> Self {
        Self {
            common: Common::read(d),
            reserved: u32::big(d, 24),
            reply_com_id: u32::big(d, 28),
            reply_ip_address: u32::big(d, 32),
        }
    }
}

// The target's first octets become the telegram. The bounds are as in `telegram::finish`, for 1432 octets.
fn fill(h: PdHeader, dataset: &[u8], target: &mut [u8])
    requires dataset_len_bound { length dataset.now ≤ 1432 }
    requires dataset_in_bounds { 40 + padded (length dataset.now) ≤ length target.old }
    ensures { target.new ≡ put 0 (frame_of h dataset.now) target.old }
{
    h.common.write(target, dataset.len() as u32);
    h.reserved.put_big(target, 24);
    h.reply_com_id.put_big(target, 28);
    h.reply_ip_address.put_big(target, 32);
    telegram::finish(target, 36, dataset);
}

// A telegram written, and how many octets; or the first refusal of 4, 5, 16 and 15, which leaves the target as it was.
pub fn write_pd(h: PdHeader, dataset: &[u8], target: &mut [u8]) -> Result<usize, Refusal>
    ensures { Wrote (first_of (write_checks_pd h (length dataset.now) (length target.old)))
        (frame_of h dataset.now) target.old result target.new }
{
    let n = dataset.len();
    telegram::judge_writing(Family::Pd, h.common, n, true, target.len())?;
    fill(h, dataset, target);
    Ok(40 + telegram::padded_length(n))
}
