// The calls over one publication: `pub` and `send`.
ghost use Rattle.scenario_wire.specs.Publications.{pub_said, send_said, publication_said, Publishes};

use answer::Room;
use line::reader::Fields;
use publication::Publication;

// Each verb reads the line s and fills held and out; of one value each would have to take the three out again.

// `pub VERSION TYPE COMID ETB OPTRN RESERVED REPLYCOMID REPLYIP CYCLE`
fn publish(held: &mut Option<Publication>, s: &[u8], out: &mut Room) -> Option<()>
    ensures { Publishes (pub_said s.now) held.old out.old result held.new out.new }
{
    let mut fields = Fields::behind(s, 3);
    let header = crate::pd_header(&mut fields, 0)?;
    let cycle = fields.word()?;
    fields.end()?;
    *held = Some(Publication::new(header, cycle));
    out.word(b"ok");
    Some(())
}

// `send NOW ROOM OCTETS`
fn send(held: &mut Option<Publication>, s: &[u8], out: &mut Room) -> Option<()>
    ensures { Publishes (send_said held.old s.now) held.old out.old result held.new out.new }
{
    let mut publication = (*held)?;
    let mut fields = Fields::behind(s, 4);
    let time = fields.number(16)?;
    let room = fields.half()?;
    let mut data = line::buffer();
    let n = fields.last(&mut data)?;
    let mut target = line::fresh_target();
    let target = &mut target[..usize::from(room)];
    let sent = publication.send(time, &data[..n], target);
    *held = Some(publication);
    scenario_wire_words::put_written(out, b"sent", sent, target);
    Some(())
}

// A line of one of these verbs answered; a bad one leaves the publication.
#[tactic(auto, unfolding(crate::specs::Publications::publication_said))]
pub fn answer(held: &mut Option<Publication>, s: &[u8], out: &mut Room) -> Option<()>
    ensures { Publishes (publication_said held.old s.now) held.old out.old result held.new out.new }
{
    if line::is_verb(s, b"pub") {
        publish(held, s, out)
    } else if line::is_verb(s, b"send") {
        send(held, s, out)
    } else {
        None
    }
}
