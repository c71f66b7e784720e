// The calls that know no table: the frame check, and telegrams taken apart and written.
// Each fills the room with its answer; nothing where the line is none of its own.
#![tactic(auto)]

pub mod publications;

ghost use Rattle.std.specs.Prelude.{◌≡◌};
ghost use Rattle.refusal.specs.Refusal.{first_of, answer as answered};
ghost use Rattle.telegram.specs.Telegram.{checks};
ghost use Rattle.answer.specs.Said.{Answered};
ghost use Rattle.scenario_wire.specs.Wire.{found, common_fields, pd_fields, take_answer};
ghost use Rattle.scenario_wire.specs.Wire.{crc_answer, pdwrite_answer, mdwrite_answer, wire_answer};

use answer::Room;
use line::reader::Fields;
use md::{MdFields, MdHeader};
use pd::PdHeader;
use scenario_wire_words::Shown;
use telegram::Common;

// VERSION TYPE COMID ETB OPTRN behind a sequence counter.
fn common(fields: &mut Fields, counter: u32) -> Option<Common>
    ensures { found result fields.new ≡ common_fields fields.old counter }
{
    let protocol_version = fields.half()?;
    let msg_type = fields.half()?;
    let [com_id, etb_topo_cnt, op_trn_topo_cnt] = fields.words::<3>()?;
    Some(Common {
        sequence_counter: counter,
        protocol_version,
        msg_type,
        com_id,
        etb_topo_cnt,
        op_trn_topo_cnt,
        dataset_length: 0,
    })
}

// The same and RESERVED REPLYCOMID REPLYIP.
fn pd_header(fields: &mut Fields, counter: u32) -> Option<PdHeader>
    ensures { found result fields.new ≡ pd_fields fields.old counter }
{
    let common = common(fields, counter)?;
    let [reserved, reply_com_id, reply_ip_address] = fields.words::<3>()?;
    Some(PdHeader {
        common,
        reserved,
        reply_com_id,
        reply_ip_address,
    })
}

// Each verb reads the line s and fills the room out; of one value each would have to take the two out again.

// `crc OCTETS`
fn crc(s: &[u8], out: &mut Room) -> Option<()>
    ensures { Answered (crc_answer s.now) out.old result out.new }
{
    let mut data = line::buffer();
    let n = Fields::behind(s, 3).last(&mut data)?;
    out.word(b"crc");
    out.number(fcs::frame_check(&data[..n]));
    Some(())
}

// `pdtake OCTETS`, `mdtake OCTETS`
fn take<H: Shown>(s: &[u8], out: &mut Room) -> Option<()>
    ensures { Answered (take_answer H.words (λ d. answered (first_of (checks H.family d)) (H.header_of d)) s.now)
        out.old result out.new }
{
    let mut data = line::buffer();
    let n = Fields::behind(s, 6).last(&mut data)?;
    let datagram = &data[..n];
    match telegram::take::<H>(datagram) {
        Ok(h) => h.put(datagram, out),
        Err(r) => out.refused(r),
    }
    Some(())
}

// `pdwrite SEQ VERSION TYPE COMID ETB OPTRN RESERVED REPLYCOMID REPLYIP ROOM OCTETS`
fn pd_write(s: &[u8], out: &mut Room) -> Option<()>
    ensures { Answered (pdwrite_answer s.now) out.old result out.new }
{
    let mut fields = Fields::behind(s, 7);
    let counter = fields.word()?;
    let header = pd_header(&mut fields, counter)?;
    let room = fields.half()?;
    let mut data = line::buffer();
    let n = fields.last(&mut data)?;
    // md_write and send end alike. Tried, one function over a closure for the writer: `send`'s proof did not close,
    // since after the call nothing ties the publication to the closure.
    let mut target = line::fresh_target();
    let target = &mut target[..usize::from(room)];
    let written = pd::write_pd(header, &data[..n], target);
    scenario_wire_words::put_written(out, b"wrote", written, target);
    Some(())
}

// `mdwrite SEQ VERSION TYPE COMID ETB OPTRN STATUS ID TIMEOUT SRCURI DSTURI ROOM OCTETS`
fn md_write(s: &[u8], out: &mut Room) -> Option<()>
    ensures { Answered (mdwrite_answer s.now) out.old result out.new }
{
    let mut fields = Fields::behind(s, 7);
    let counter = fields.word()?;
    let common = common(&mut fields, counter)?;
    let status = fields.word()?;
    let session_id: [u8; 16] = fields.array()?;
    let reply_timeout = fields.word()?;
    let source_uri: [u8; 32] = fields.array()?;
    let destination_uri: [u8; 32] = fields.array()?;
    let room = fields.half()?;
    let mut data = line::buffer();
    let n = fields.last(&mut data)?;
    let telegram = MdFields {
        header: MdHeader {
            common,
            reply_status: octets::to_signed(status),
            reply_timeout,
        },
        session_id: &session_id,
        source_uri: &source_uri,
        destination_uri: &destination_uri,
    };
    let mut target = line::fresh_target();
    let target = &mut target[..usize::from(room)];
    let written = md::write_md(&telegram, &data[..n], target);
    scenario_wire_words::put_written(out, b"wrote", written, target);
    Some(())
}

// A line of one of these verbs answered.
#[tactic(auto, unfolding(crate::specs::Wire::wire_answer))]
pub fn answer(s: &[u8], out: &mut Room) -> Option<()>
    ensures { Answered (wire_answer s.now) out.old result out.new }
{
    if line::is_verb(s, b"crc") {
        crc(s, out)
    } else if line::is_verb(s, b"pdtake") {
        take::<PdHeader>(s, out)
    } else if line::is_verb(s, b"mdtake") {
        take::<MdHeader>(s, out)
    } else if line::is_verb(s, b"pdwrite") {
        pd_write(s, out)
    } else if line::is_verb(s, b"mdwrite") {
        md_write(s, out)
    } else {
        None
    }
}
