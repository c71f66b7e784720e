// A capture listed: PD frames read from standard input, one a line, each handed to a subscription and answered by a
// line on standard output.
#![tactic(auto)]

ghost use Rattle.std.specs.Prelude.{◌≡◌, ◌≤◌, length};

use answer::Room;
use line::input::{self, Program};
use line::output;
use listing::{Listing, Outcome};
use std::io::{self, Stdout};
use topography::TopoCounts;

// The longest line of the form: sender, destination, time and their spaces, and 2,944 digits.
const LINE: usize = 2_979;

// Answers are written out once more octets than this wait; input is read in blocks of as many.
const BLOCK: usize = 65_536;

// Room for answers: those that wait, and behind them two longest ones.
const ROOM: usize = 65_792;

// Line 1 is awaited, frames are, or line 1 was bad and nothing is.
// An enum, matched at a line and at the end: a closure for each stage would hand out the next one, in a box.
#[derive(Clone, Copy)]
enum Stage {
    Head,
    Frames(Listing),
    Over,
}

// The lines answered after line 1, the store of slot 0, a datagram's octets, and the room with the answers that wait to
// be written: fixed memory.
#[derive(Drop)]
struct Lister<'a> {
    to: Stdout,
    stage: Stage,
    lines: u64,
    store: [u8; 1432],
    buffer: [u8; 1472],
    room: Room<'a>,
    ghost within: { room.at ≤ length room.octets.now },
}

// The answers that wait in a room are written out where they are more than some number.
fn write_out(to: Stdout, room: &mut Room, most: usize) -> io::Result<()>
    requires { room.old.at ≤ length room.old.octets.now }
    ensures { room.new.at ≤ length room.new.octets.now }
{
    let waiting = room.at;
    room.at = output::flush(to, room.octets, waiting, most)?;
    Ok(())
}

impl<'a> Lister<'a> {
    // Before line 1: no answer waits.
    fn begin(to: Stdout, out: &'a mut [u8]) -> Lister<'a>
        ensures { result.room.at ≡ 0 }
    {
        Lister {
            to,
            stage: Stage::Head,
            lines: 0,
            store: [0; 1432],
            buffer: [0; 1472],
            room: Room { octets: out, at: 0 },
        }
    }

    fn say_bad_start(&mut self) {
        self.room.text(b"bad start\n");
    }

    // Frames follow; the answers that wait still do.
    fn start(&mut self, local: TopoCounts)
        ensures { self.new.room.at ≡ self.old.room.at }
    {
        self.stage = Stage::Frames(Listing::begin(local));
    }

    // Line 1 gives the local counters.
    fn take_head(&mut self, s: &[u8]) {
        if let Some(local) = capture::read_head(s) {
            self.start(local);
        } else {
            self.stage = Stage::Over;
            self.say_bad_start();
        }
    }

    // What became of the next line is answered.
    #[tactic(auto, using(answer::proofs::Rooms::inside))]
    fn reply(&mut self, outcome: Outcome) -> io::Result<()> {
        self.lines = self.lines.wrapping_add(1);
        outcome.put(self.lines, &mut self.room);
        write_out(self.to, &mut self.room, BLOCK)
    }

    // The input is over: a last line without LF is bad, and the total follows. By the stage, as in `take_line`.
    #[tactic(auto, using(answer::proofs::Rooms::inside))]
    fn finish(&mut self, is_begun: bool) -> io::Result<()> {
        match self.stage {
            Stage::Head => self.say_bad_start(),
            Stage::Frames(listing) => {
                if is_begun {
                    self.reply(Outcome::BadLine)?;
                }
                listing.totals.put(&mut self.room);
            }
            Stage::Over => {}
        }
        self.flush()
    }
}

impl Program for Lister<'_> {
    // By the stage, an enum for the reason that stands there.
    fn take_line(&mut self, s: &[u8]) -> io::Result<()> {
        match &mut self.stage {
            Stage::Head => self.take_head(s),
            Stage::Frames(listing) => {
                let outcome = listing.list(s, &mut self.store, &mut self.buffer);
                return self.reply(outcome);
            }
            Stage::Over => {}
        }
        Ok(())
    }

    // By the stage, as in `take_line`.
    fn is_over(&self) -> bool {
        matches!(self.stage, Stage::Over)
    }

    fn flush(&mut self) -> io::Result<()> {
        write_out(self.to, &mut self.room, 0)
    }
}

fn main(rt: HostRuntime) -> io::Result<()> {
    let mut block = [0u8; BLOCK];
    let mut line = [0u8; LINE];
    let mut out = [0u8; ROOM];
    let mut lister = Lister::begin(rt.stdout(), &mut out);
    let is_begun = input::take_lines(rt.stdin(), &mut lister, &mut block, &mut line)?;
    lister.finish(is_begun)
}
