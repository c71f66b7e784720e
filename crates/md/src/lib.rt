// The MD header of 116 octets: its fields, and a telegram written. `telegram::take` takes one apart.
#![tactic(auto)]

pub mod uri;

ghost use Rattle.std.specs.Prelude.{◌≡◌, [], ◌&&◌, ◌+◌, ◌≤◌, cond, leb, length};
ghost use Rattle.refusal.specs.Refusal.{first_of};
ghost use Rattle.octets.specs.Octets.{part, put, unsigned};
ghost use Rattle.telegram.specs.Telegram.{padded, Wrote};
ghost use Rattle.md.specs.Uri.{sound};
ghost use Rattle.md.specs.Md.{session_id_of, source_uri_of, destination_uri_of, front_of, frame_of, write_checks_md};

use octets::Number;
use refusal::Refusal;
use telegram::{Common, Family, Header};

// The numbers of an MD header; identifier and URI fields stand beside it. A writer sets datasetLength by the dataset.
#[repr(C)]
#[derive(Clone, Copy)]
pub struct MdHeader {
    pub common: Common,
    pub reply_status: i32,
    pub reply_timeout: u32,
}

impl Header for MdHeader {
    ghost use Rattle.telegram.specs.declared.Family.TheVariants as families;
    ghost use Rattle.md.specs.Md as md;

    ghost family = { families.Md };

    ghost header_of = { md.header_of };

    // What the trait asks of each header, as in pd.
    fn family() -> Family {
        Family::Md
    }

    fn read(d: &[u8]) -> Self {
        Self {
            common: Common::read(d),
            reply_status: octets::to_signed(u32::big(d, 24)),
            reply_timeout: u32::big(d, 44),
        }
    }
}

impl MdHeader {
    // replyStatus as it is written.
    fn status(self) -> u32
        ensures { result ≡ unsigned self.reply_status }
    {
        octets::to_unsigned(self.reply_status)
    }
}

// A whole header: its numbers, and its identifier and URI fields.
#[derive(Clone, Copy)]
pub struct MdFields<'a> {
    pub header: MdHeader,
    pub session_id: &'a [u8; 16],
    pub source_uri: &'a [u8; 32],
    pub destination_uri: &'a [u8; 32],
}

// The session identifier of a datagram; zeros where it has none, and no Option, since `session_id_of` says zeros.
pub fn session_id(d: &[u8]) -> [u8; 16]
    ensures { result ≡ session_id_of d.now }
{
    if d.len() < 44 {
        return [0; 16];
    }
    octets::array(d, 28)
}

// The 32 octets of a URI field that stands at k; nothing where the datagram has none.
fn uri_field(d: &[u8], k: usize) -> &[u8]
    requires { k ≤ 80 }
    ensures { result.now ≡ cond (leb (k + 32) (length d.now)) (part 32 k d.now) [] }
{
    d.get(k..k + 32).unwrap_or(&[])
}

// The source URI field of a datagram; nothing where it has none.
pub fn source_uri(d: &[u8]) -> &[u8]
    ensures { result.now ≡ source_uri_of d.now }
{
    uri_field(d, 48)
}

// The destination URI field of a datagram; nothing where it has none. By its own name, as specs/ and docs/ name it.
pub fn destination_uri(d: &[u8]) -> &[u8]
    ensures { result.now ≡ destination_uri_of d.now }
{
    uri_field(d, 80)
}

impl<'a> MdFields<'a> {
    // Both URI fields are sound; else refusal 20.
    fn has_sound_uris(&self) -> bool
        ensures { result ≡ (sound self.now.source_uri.now && sound self.now.destination_uri.now) }
    {
        let (source, destination) = (self.source_uri, self.destination_uri);
        uri::is_sound(source) && uri::is_sound(destination)
    }

    // The target's first 112 octets become a header up to its check field, before a dataset of n octets.
    fn put_front(&self, n: u32, target: &mut [u8])
        requires { 112 ≤ length target.old }
        ensures written { target.new ≡ put 0 (front_of self.now.header self.now.session_id.now self.now.source_uri.now
            self.now.destination_uri.now n) target.old }
        ensures long { length (front_of self.now.header self.now.session_id.now self.now.source_uri.now
            self.now.destination_uri.now n) ≡ 112 }
    {
        let h = self.header;
        let (id, source, destination) = (self.session_id, self.source_uri, self.destination_uri);
        h.common.write(target, n);
        h.status().put_big(target, 24);
        octets::copy_into(target, 28, id);
        h.reply_timeout.put_big(target, 44);
        octets::copy_into(target, 48, source);
        octets::copy_into(target, 80, destination);
    }

    // The target's first octets become the telegram; the answer is their number. Bounds as in `telegram::finish`.
    fn fill(&self, dataset: &[u8], target: &mut [u8]) -> usize
        requires dataset_len_bound { length dataset.now ≤ 65388 }
        requires dataset_in_bounds { 116 + padded (length dataset.now) ≤ length target.old }
        ensures written { target.new ≡ put 0 (frame_of self.now.header self.now.session_id.now self.now.source_uri.now
            self.now.destination_uri.now dataset.now) target.old }
        ensures long { result ≡ length (frame_of self.now.header self.now.session_id.now self.now.source_uri.now
            self.now.destination_uri.now dataset.now) }
    {
        let n = dataset.len();
        self.put_front(n as u32, target);
        telegram::finish(target, 112, dataset);
        116 + telegram::padded_length(n)
    }
}

// A telegram written, and how many octets; or the first refusal of 4, 5, 16, 20 and 15, which changes nothing.
pub fn write_md(m: &MdFields, dataset: &[u8], target: &mut [u8]) -> Result<usize, Refusal>
    ensures { Wrote (first_of (write_checks_md m.now.header m.now.source_uri.now m.now.destination_uri.now
        (length dataset.now) (length target.old)))
        (frame_of m.now.header m.now.session_id.now m.now.source_uri.now m.now.destination_uri.now dataset.now)
        target.old result target.new }
{
    let n = dataset.len();
    telegram::judge_writing(
        Family::Md,
        m.header.common,
        n,
        m.has_sound_uris(),
        target.len(),
    )?;
    Ok(m.fill(dataset, target))
}
