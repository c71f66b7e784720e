// The calls over listeners and sessions. A line is read, what it asks is served, and its answer fills the room; nothing
// where the line is none of these.
#![tactic(auto)]

ghost use Rattle.std.specs.Prelude.{◌≡◌, Some};
ghost use Rattle.std.proofs.Math.Option.{some};
ghost use Rattle.session_table.specs.Table.{telegram};
ghost use Rattle.scenario_md.specs.Lines.{calls, listen_asked, unlisten_asked, call_asked, md_asked, reply_asked};
ghost use Rattle.scenario_md.specs.Lines.{confirm_asked, check_asked, session_asked, user_asked, asked_of};
ghost use Rattle.scenario_md.specs.Read.{asked_by, asked_if};
ghost use Rattle.scenario_md.specs.Served.{Serves, Answers};

use address::SenderRange;
use answer::Room;
use arrival::Arrival;
use line::reader::Fields;
use statistics::Statistics;
use telegram::Family;
use topography::TopoCounts;

// What a line of one of the user's verbs asks. A type is a number, as `sessions::reply` is given any.
#[derive(Clone, Copy)]
enum Asked {
    Listen {
        com_id: u32,
        senders: SenderRange,
        uri: [u8; 32],
    },
    // The listener's slot.
    Unlisten(usize),
    Call {
        id: [u8; 16],
        timeout: u32,
        time: u64,
    },
    Reply {
        session: usize,
        msg_type: u16,
        timeout: u32,
        time: u64,
    },
    Confirm {
        session: usize,
    },
    Check {
        time: u64,
    },
    // What the record of a session's slot says.
    Session(usize),
}

// `listen COMID START END URI`
fn listen(s: &[u8]) -> Option<Asked>
    ensures { asked_if result ≡ listen_asked s.now }
{
    let mut fields = Fields::behind(s, 6);
    let [com_id, start, end] = fields.words::<3>()?;
    let uri = fields.array()?;
    fields.end()?;
    Some(Asked::Listen {
        com_id,
        senders: SenderRange { start, end },
        uri,
    })
}

// `unlisten K`. Some verbs read alike: what they share are the methods of Fields, and each asks a variant of its own.
fn unlisten(s: &[u8]) -> Option<Asked>
    ensures { asked_if result ≡ unlisten_asked s.now }
{
    let mut fields = Fields::behind(s, 8);
    let k = fields.word()?;
    fields.end()?;
    Some(Asked::Unlisten(k as usize))
}

// `call ID TIMEOUT NOW`
fn call(s: &[u8]) -> Option<Asked>
    ensures { asked_if result ≡ call_asked s.now }
{
    let mut fields = Fields::behind(s, 4);
    let id = fields.array()?;
    let timeout = fields.word()?;
    let time = fields.number(16)?;
    fields.end()?;
    Some(Asked::Call { id, timeout, time })
}

// `reply K TYPE TIMEOUT NOW`
fn reply(s: &[u8]) -> Option<Asked>
    ensures { asked_if result ≡ reply_asked s.now }
{
    let mut fields = Fields::behind(s, 5);
    let k = fields.word()?;
    let msg_type = fields.half()?;
    let timeout = fields.word()?;
    let time = fields.number(16)?;
    fields.end()?;
    Some(Asked::Reply {
        session: k as usize,
        msg_type,
        timeout,
        time,
    })
}

// `confirm K NOW`, whose time asks nothing.
fn confirm(s: &[u8]) -> Option<Asked>
    ensures { asked_if result ≡ confirm_asked s.now }
{
    let mut fields = Fields::behind(s, 7);
    let k = fields.word()?;
    fields.number(16)?;
    fields.end()?;
    Some(Asked::Confirm {
        session: k as usize,
    })
}

// `mdcheck NOW`
fn check(s: &[u8]) -> Option<Asked>
    ensures { asked_if result ≡ check_asked s.now }
{
    let mut fields = Fields::behind(s, 7);
    let time = fields.number(16)?;
    fields.end()?;
    Some(Asked::Check { time })
}

// `session K`
fn session(s: &[u8]) -> Option<Asked>
    ensures { asked_if result ≡ session_asked s.now }
{
    let mut fields = Fields::behind(s, 7);
    let k = fields.word()?;
    fields.end()?;
    Some(Asked::Session(k as usize))
}

// A line of one of the user's verbs; nothing for another.
#[tactic(auto, unfolding(crate::specs::Lines::user_asked))]
fn parse(s: &[u8]) -> Option<Asked>
    ensures { asked_if result ≡ user_asked s.now }
{
    if line::is_verb(s, b"listen") {
        listen(s)
    } else if line::is_verb(s, b"unlisten") {
        unlisten(s)
    } else if line::is_verb(s, b"call") {
        call(s)
    } else if line::is_verb(s, b"reply") {
        reply(s)
    } else if line::is_verb(s, b"confirm") {
        confirm(s)
    } else if line::is_verb(s, b"mdcheck") {
        check(s)
    } else if line::is_verb(s, b"session") {
        session(s)
    } else {
        None
    }
}

// What was asked served, and the answer put.
fn serve(asked: Asked, tables: &mut [u8; 1280], out: &mut Room)
    ensures { Serves (some (asked_by asked)) tables.old out.old (Some tt) tables.new out.new }
{
    match asked {
        Asked::Listen {
            com_id,
            senders,
            uri,
        } => out.granted(b"listener", sessions::listen(tables, com_id, senders, uri)),
        Asked::Unlisten(k) => out.done(b"freed", sessions::unlisten(tables, k)),
        Asked::Call { id, timeout, time } => {
            out.granted(b"session", sessions::call(tables, id, timeout, time))
        }
        Asked::Reply {
            session,
            msg_type,
            timeout,
            time,
        } => out.done(
            b"replied",
            sessions::reply(tables, session, msg_type, timeout, time),
        ),
        Asked::Confirm { session } => out.done(b"confirmed", sessions::confirm(tables, session)),
        Asked::Check { time } => {
            scenario_md_words::put_codes(out, sessions::time_check(tables, time))
        }
        Asked::Session(k) => {
            scenario_md_words::put_slot(out, k, &packed_slots::session_at(tables, k))
        }
    }
}

// An MD datagram arrives, and is counted. Tables, statistics and room are lent apart: each is the program's own.
fn receive(
    tables: &mut [u8; 1280],
    statistics: &mut Statistics,
    a: Arrival,
    datagram: &[u8],
    out: &mut Room,
)
    ensures { Answers (some (calls (telegram a datagram.now))) tables.old statistics.old out.old (Some tt) tables.new
        statistics.new out.new }
{
    let said = messages::arrive(tables, a, datagram);
    statistics.record(Family::Md, messages::outcome_of(said));
    scenario_md_words::put_heard(out, said);
}

// `md SENDER DEST NOW OCTETS`. Reads as `pd` of scenario_pd does: each hands the datagram to a call of its own.
fn md(
    tables: &mut [u8; 1280],
    statistics: &mut Statistics,
    local: TopoCounts,
    s: &[u8],
    out: &mut Room,
) -> Option<()>
    ensures { Answers (md_asked local s.now) tables.old statistics.old out.old result tables.new statistics.new
        out.new }
{
    let mut fields = Fields::behind(s, 2);
    let [sender, destination] = fields.words::<2>()?;
    let time = fields.number(16)?;
    let mut data = line::buffer();
    let n = fields.last(&mut data)?;
    let a = Arrival {
        sender,
        destination,
        time,
        local,
    };
    receive(tables, statistics, a, &data[..n], out);
    Some(())
}

// A line of one of these verbs answered.
pub fn answer(
    tables: &mut [u8; 1280],
    statistics: &mut Statistics,
    local: TopoCounts,
    s: &[u8],
    out: &mut Room,
) -> Option<()>
    ensures { Answers (asked_of local s.now) tables.old statistics.old out.old result tables.new statistics.new
        out.new }
{
    if line::is_verb(s, b"md") {
        return md(tables, statistics, local, s, out);
    }
    serve(parse(s)?, tables, out);
    Some(())
}
