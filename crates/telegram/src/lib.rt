// What PD and MD telegrams have in common: the first 24 octets, the checks 2 to 6, the writer's refusals, check field
// and padding.
#![tactic(auto)]

ghost use Rattle.std.specs.Prelude.{◌≡◌, ℕ, List, ◌+◌, ◌≤◌, eqb, length, take};
ghost use Rattle.refusal.specs.Refusal.{first_of, answer};
ghost use Rattle.octets.specs.Octets.{put};
ghost use Rattle.telegram.specs.Telegram.{header_size, dataset_limit, types, member, padded, common_of, differs, kind_checks, field_checks, header_checks, checks, write_checks, common_octets, telegram_of};

use octets::Number;
use refusal::Refusal;

// The first 24 octets of a header.
#[repr(C)]
#[derive(Clone, Copy)]
pub struct Common {
    pub sequence_counter: u32,
    pub protocol_version: u16,
    // A number, since a header may say any and C holds them (`trdp_take_pd`, `trdp_write_pd`).
    pub msg_type: u16,
    pub com_id: u32,
    pub etb_topo_cnt: u32,
    pub op_trn_topo_cnt: u32,
    pub dataset_length: u32,
}

// Process data or message data.
#[derive(Clone, Copy)]
pub enum Family {
    Pd,
    Md,
}

impl Family {
    // The two sizes as two functions: each is a table of one line a family, and one that answers both is no shorter.
    pub fn header_size(self) -> usize
        ensures { result ≡ header_size self }
    {
        match self {
            Family::Pd => 40,
            Family::Md => 116,
        }
    }

    fn dataset_limit(self) -> u32
        ensures { result ≡ dataset_limit self }
    {
        match self {
            Family::Pd => 1432,
            Family::Md => 65388,
        }
    }

    // A message type is of the family: Pd, Pp; Mn, Mr, Mp, Mq, Mc, Me. A number, since a header may say any.
    pub fn has_type(self, k: u16) -> bool
        ensures { result ≡ member k (types self) }
    {
        match self {
            Family::Pd => matches!(k, 0x5064 | 0x5070),
            Family::Md => matches!(k, 0x4D6E | 0x4D72 | 0x4D70 | 0x4D71 | 0x4D63 | 0x4D65),
        }
    }
}

// A length made a multiple of 4.
pub fn padded_length(n: usize) -> usize
    requires { n ≤ 65536 }
    ensures { result ≡ padded n }
{
    (n + 3) / 4 * 4
}

impl Common {
    // The first 24 octets taken apart.
    pub fn read(d: &[u8]) -> Self
        requires { 24 ≤ length d.now }
        ensures { result ≡ common_of d.now }
    {
        Self {
            sequence_counter: u32::big(d, 0),
            protocol_version: u16::big(d, 4),
            msg_type: u16::big(d, 6),
            com_id: u32::big(d, 8),
            etb_topo_cnt: u32::big(d, 12),
            op_trn_topo_cnt: u32::big(d, 16),
            dataset_length: u32::big(d, 20),
        }
    }

    // The first 24 octets written, before a dataset of n octets.
    pub fn write(self, target: &mut [u8], n: u32)
        requires { 24 ≤ length target.old }
        ensures { target.new ≡ put 0 (common_octets self n) target.old }
    {
        self.sequence_counter.put_big(target, 0);
        self.protocol_version.put_big(target, 4);
        self.msg_type.put_big(target, 6);
        self.com_id.put_big(target, 8);
        self.etb_topo_cnt.put_big(target, 12);
        self.op_trn_topo_cnt.put_big(target, 16);
        n.put_big(target, 20);
    }
}

// The frame check differs. size stands beside d, since a datagram goes on behind its header.
fn is_damaged(d: &[u8], size: usize) -> bool
    requires { (4 ≤ size) × (size ≤ length d.now) }
    ensures { result ≡ differs size d.now }
{
    let at = size - 4;
    fcs::frame_check(&d[..at]) != u32::little(d, at)
}

// 4 and 5. The family stands beside the fields in three functions: it is the caller's, and no field says it.
fn judge_kind(f: Family, c: Common) -> Result<(), Refusal>
    ensures { result ≡ first_of (kind_checks f c) }
{
    if c.protocol_version / 256 != 1 {
        return Err(Refusal::Version);
    }
    if !f.has_type(c.msg_type) {
        return Err(Refusal::MsgType);
    }
    Ok(())
}

// 4, 5, and 6 as far as the header tells.
fn judge_fields(f: Family, c: Common) -> Result<(), Refusal>
    ensures { result ≡ first_of (field_checks f c) }
{
    judge_kind(f, c)?;
    if f.dataset_limit() < c.dataset_length {
        return Err(Refusal::Length);
    }
    Ok(())
}

// 2 to 5, and 6 as far as the header tells.
pub fn judge_header(f: Family, d: &[u8]) -> Result<(), Refusal>
    ensures { result ≡ first_of (header_checks f d.now) }
{
    let size = f.header_size();
    if d.len() < size {
        return Err(Refusal::Short);
    }
    if is_damaged(d, size) {
        return Err(Refusal::FrameCheck);
    }
    judge_fields(f, Common::read(d))
}

// A datagram of size octets is as long as header plus padded dataset.
fn is_whole(f: Family, dataset_length: u32, size: usize) -> bool
    requires { dataset_length ≤ dataset_limit f }
    ensures { result ≡ eqb size (header_size f + padded dataset_length) }
{
    size == f.header_size() + padded_length(dataset_length as usize)
}

// 2 to 6.
pub fn judge_datagram(f: Family, d: &[u8]) -> Result<(), Refusal>
    ensures { result ≡ first_of (checks f d.now) }
{
    judge_header(f, d)?;
    if is_whole(f, Common::read(d).dataset_length, d.len()) {
        return Ok(());
    }
    Err(Refusal::Length)
}

// 4, 5, 16, 20 and 15, of a telegram with a dataset of n octets.
// sound_uris is what 20 asks, and no mark of a value: `write_checks` of specs/ takes it, and PD has no URI.
pub fn judge_writing(
    f: Family,
    c: Common,
    n: usize,
    sound_uris: bool,
    room: usize,
) -> Result<(), Refusal>
    ensures { result ≡ first_of (write_checks f c n sound_uris room) }
{
    judge_kind(f, c)?;
    if (f.dataset_limit() as usize) < n {
        return Err(Refusal::DatasetLong);
    }
    if !sound_uris {
        return Err(Refusal::Uri);
    }
    if room < f.header_size() + padded_length(n) {
        return Err(Refusal::TargetShort);
    }
    Ok(())
}

// Behind a header's first octets, up to its check field: check, dataset and padding written.
// A place beside the target, and no part of it: what stands before the place is read, and what follows is written.
// `fill` in `pd` and `md` asks both bounds too, each with its limit: they tie two arguments, which no type holds.
pub fn finish(target: &mut [u8], at: usize, dataset: &[u8])
    requires dataset_len_bound { length dataset.now ≤ 65536 }
    requires dataset_in_bounds { at + 4 + padded (length dataset.now) ≤ length target.old }
    ensures { target.new ≡ put 0 (telegram_of (take at target.old) dataset.now) target.old }
{
    let check = fcs::frame_check(&target[..at]);
    check.put_little(target, at);
    let start = at + 4;
    let n = dataset.len();
    octets::copy_into(target, start, dataset);
    let end = start + n;
    octets::clear_part(target, end, padded_length(n) - n);
}

// A header of a family, read from the octets that it stands in.
pub trait Header: Copy {
    ghost use Rattle.telegram.specs.declared.Family.{Family};

    ghost family: { Family };

    // What the octets mean.
    ghost header_of: { List ℕ → Self };

    fn family() -> Family
        ensures { result ≡ family };

    fn read(d: &[u8]) -> Self
        requires { header_size family ≤ length d.now }
        ensures { result ≡ header_of d.now };
}

// Beside `take`, since another check is asked here, and `H::header_of` follows that check in the contract.
// A header taken apart, before its datagram is known to be whole: 2 to 5, and 6 as far as the header tells.
pub fn take_header<H: Header>(d: &[u8]) -> Result<H, Refusal>
    ensures { result ≡ answer (first_of (header_checks H.family d.now)) (H.header_of d.now) }
{
    judge_header(H::family(), d)?;
    Ok(H::read(d))
}

// A datagram taken apart: its header, or the first refusal of 2 to 6.
pub fn take<H: Header>(d: &[u8]) -> Result<H, Refusal>
    ensures { result ≡ answer (first_of (checks H.family d.now)) (H.header_of d.now) }
{
    judge_datagram(H::family(), d)?;
    Ok(H::read(d))
}
