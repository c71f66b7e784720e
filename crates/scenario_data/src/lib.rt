// The calls over a description run: `types`, `tohost` and `towire`. The run is the first numbers of lent memory, and how
// many they are stands beside it: memory is fixed.
// Each fills the room with its answer; nothing where the line is none of its own.
#![tactic(auto)]

ghost use Rattle.std.specs.Prelude.{◌≡◌, ◌≤◌, ◌*◌, length, take};
ghost use Rattle.octets.specs.Octets.{put};
ghost use Rattle.answer.specs.Said.{Answered};
ghost use Rattle.scenario_data.specs.Data.{numbers_of, is_run, types_said, convert_answer, data_said, Describes};

use answer::Room;
use dataset::Form;
use line::reader::Fields;
use octets::Number;

// The first n of the numbers lent, or all where they are fewer.
fn first(n: usize, run: &[u32]) -> &[u32]
    ensures { result.now ≡ take n run.now }
{
    &run[..n.min(run.len())]
}

// The first n numbers become those that four octets each write.
fn fill(run: &mut [u32], n: usize, s: &[u8])
    requires { (n ≤ length run.old) × (4 * n ≤ length s.now) }
    ensures { run.new ≡ put 0 (numbers_of n s.now) run.old }
{
    for i in 0..n {
        run[i] = u32::big(s, 4 * i);
    }
}

// So many octets are a multiple of 4, and their numbers no more than there is room for.
fn is_run(n: usize, room: usize) -> bool
    ensures { result ≡ is_run n room }
{
    n % 4 == 0 && n / 4 <= room
}

// Each verb reads the line s, uses the run and fills out; of one value each would have to take the three out again.

// `types OCTETS`
fn types(numbers: &mut usize, run: &mut [u32], s: &[u8], out: &mut Room) -> Option<()>
    ensures { Describes (types_said run.old s.now) numbers.old run.old out.old result numbers.new run.new out.new }
{
    let mut data = line::buffer();
    let n = Fields::behind(s, 5).last(&mut data)?;
    if !is_run(n, run.len()) {
        return None;
    }
    fill(run, n / 4, &data[..n]);
    *numbers = n / 4;
    out.word(b"ok");
    Some(())
}

// ID ROOM OCTETS behind a verb of 6 letters: data of the form given, converted to the other.
fn convert(form: Form, done: &[u8], run: &[u32], s: &[u8], out: &mut Room) -> Option<()>
    ensures { Answered (convert_answer form done.now run.now s.now) out.old result out.new }
{
    let mut fields = Fields::behind(s, 6);
    let id = fields.word()?;
    let room = fields.half()?;
    let mut data = line::buffer();
    let n = fields.last(&mut data)?;
    // Ends as scenario_wire's writers do, and stays apart as they do.
    let mut target = line::fresh_target();
    let target = &mut target[..usize::from(room)];
    let converted = dataset::convert(form, run, id, &data[..n], target);
    scenario_wire_words::put_written(out, done, converted, target);
    Some(())
}

// A line of one of these verbs answered; a bad one leaves the run.
#[tactic(auto, using(crate::proofs::Described::describes_kept), unfolding(crate::specs::Data::data_said))]
pub fn answer(numbers: &mut usize, run: &mut [u32], s: &[u8], out: &mut Room) -> Option<()>
    ensures { Describes (data_said numbers.old run.old s.now) numbers.old run.old out.old result
        numbers.new run.new out.new }
{
    if line::is_verb(s, b"types") {
        types(numbers, run, s, out)
    } else if line::is_verb(s, b"tohost") {
        convert(Form::Wire, b"host", first(*numbers, run), s, out)
    } else if line::is_verb(s, b"towire") {
        convert(Form::Host, b"wire", first(*numbers, run), s, out)
    } else {
        None
    }
}
