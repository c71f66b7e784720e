// What the calls over telegrams answer, in words.
#![tactic(auto)]

ghost use Rattle.std.specs.Prelude.{ℕ, List, MatchResult};
ghost use Rattle.answer.specs.Answer.{refused};
ghost use Rattle.answer.specs.Lent.{Fills};
ghost use Rattle.line.specs.Line.{target_words};
ghost use Rattle.scenario_wire_words.specs.Words.{common_words, pd_words, session_words, md_words};

use answer::Room;
use md::MdHeader;
use pd::PdHeader;
use telegram::{Common, Header};

// SEQ VERSION TYPE COMID ETB OPTRN LENGTH
fn put_common(out: &mut Room, c: Common)
    ensures { Fills (common_words c) out.old out.new }
{
    out.number(c.sequence_counter);
    out.number(c.protocol_version);
    out.number(c.msg_type);
    out.number(c.com_id);
    out.number(c.etb_topo_cnt);
    out.number(c.op_trn_topo_cnt);
    out.number(c.dataset_length);
}

// STATUS ID TIMEOUT SRCURI DSTURI; identifier and URIs stand in the datagram
fn put_session(out: &mut Room, h: MdHeader, d: &[u8])
    ensures { Fills (session_words h d.now) out.old out.new }
{
    out.number(octets::to_unsigned(h.reply_status));
    out.octets(&md::session_id(d));
    out.number(h.reply_timeout);
    out.octets(md::source_uri(d));
    out.octets(md::destination_uri(d));
}

// A header that is put in words; an identifier and URIs stand in its datagram.
pub trait Shown: Header {
    ghost words: { Self → List ℕ → List (List ℕ) };

    fn put(self, d: &[u8], out: &mut Room)
        ensures { Fills (words self d.now) out.old out.new };
}

// `header` and the fields of a PD header
impl Shown for PdHeader {
    ghost words = { λ h d. pd_words h };

    fn put(self, _d: &[u8], out: &mut Room) {
        out.word(b"header");
        put_common(out, self.common);
        out.number(self.reserved);
        out.number(self.reply_com_id);
        out.number(self.reply_ip_address);
    }
}

// `header` and the fields of an MD header
impl Shown for MdHeader {
    ghost words = { md_words };

    fn put(self, d: &[u8], out: &mut Room) {
        out.word(b"header");
        put_common(out, self.common);
        put_session(out, self, d);
    }
}

// How many octets were written and the whole target, or the refusal's number, which may be any.
pub fn put_written<R: Into<u8>>(
    out: &mut Room,
    done: &[u8],
    written: Result<usize, R>,
    target: &[u8],
)
    ensures { MatchResult written (λ n. Fills (target_words done.now n target.now) out.old out.new)
        (λ r. (number : ℕ) × R.converts r number × Fills (refused number) out.old out.new) }
{
    match written {
        Ok(n) => {
            out.word_of(done, n);
            out.octets(target);
        }
        Err(r) => out.refused(r),
    }
}
