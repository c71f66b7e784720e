// Calls of the stack read from standard input, one a line, each answered by a line on standard output.
#![tactic(auto)]

ghost use Rattle.std.specs.Prelude.{◌≤◌};

use answer::Room;
use line::input::{self, Program};
use line::output;
use scenario_calls::State;
use std::io::{self, Stdout};

// The longest line: `mdwrite`, its fields, and 66,000 octets.
const LINE: usize = 132_240;

// Answers are written out once more octets than this wait; input is read in blocks of as many.
const BLOCK: usize = 32_768;

// Room for answers: those that wait, and behind them a longest one, `n timedout OCTETS` with a substitute set of 66,000
// octets.
const ROOM: usize = 164_832;

// Room for a description run.
const NUMBERS: usize = 5_000;

// The store of 40 subscription slots.
const STORE: usize = 57_280;

// What the calls leave to the next, the lines answered, and the answers that wait to be written: so many octets of
// fixed memory, since there is no heap to gather them in.
#[derive(Drop)]
struct Answerer {
    to: Stdout,
    state: State,
    lines: u64,
    descriptions: [u32; NUMBERS],
    store: [u8; STORE],
    out: [u8; ROOM],
    waiting: usize,
    ghost within: { waiting ≤ 164_832 },
}

impl Answerer {
    // Before the first line.
    fn begin(to: Stdout) -> Answerer {
        Answerer {
            to,
            state: State::start(),
            lines: 0,
            descriptions: [0; NUMBERS],
            store: [0; STORE],
            out: [0; ROOM],
            waiting: 0,
        }
    }

    // A line answered, with its number before the answer.
    fn reply(&mut self, s: &[u8]) {
        self.lines = self.lines.wrapping_add(1);
        let mut room = Room {
            octets: &mut self.out,
            at: self.waiting,
        };
        room.digits(self.lines);
        self.state
            .answer(&mut self.descriptions, &mut self.store, s, &mut room);
        room.text(b"\n");
        self.waiting = room.at;
    }

    // The input is over: a last line without LF is bad; then all that waits is written.
    fn finish(&mut self, is_begun: bool) -> io::Result<()> {
        if is_begun {
            self.take_line(b"")?;
        }
        self.flush()
    }
}

impl Program for Answerer {
    fn take_line(&mut self, s: &[u8]) -> io::Result<()> {
        self.reply(s);
        self.waiting = output::flush(self.to, &self.out, self.waiting, BLOCK)?;
        Ok(())
    }

    fn is_over(&self) -> bool {
        false
    }

    fn flush(&mut self) -> io::Result<()> {
        self.waiting = output::flush(self.to, &self.out, self.waiting, 0)?;
        Ok(())
    }
}

fn main(rt: HostRuntime) -> io::Result<()> {
    let mut block = [0u8; BLOCK];
    let mut line = [0u8; LINE];
    let mut answerer = Answerer::begin(rt.stdout());
    let is_begun = input::take_lines(rt.stdin(), &mut answerer, &mut block, &mut line)?;
    answerer.finish(is_begun)
}
