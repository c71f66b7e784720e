// Input read in blocks and handed on line by line.
ghost use Rattle.std.specs.Prelude.{◌≡◌, ◌+◌, ◌<◌, length, take, drop, MatchOption, IfSome};
ghost use Rattle.answer.specs.Answer.{room};
ghost use Rattle.line.specs.Lines.{gathered, until_end};

use std::io::{self, Read, Stdin};

// A program that answers lines.
pub trait Program {
    // A whole line, without its LF.
    fn take_line(&mut self, s: &[u8]) -> io::Result<()>;

    // Nothing more is wanted of the input.
    fn is_over(&self) -> bool;

    // The answers that wait are written out.
    fn flush(&mut self) -> io::Result<()>;
}

// A line begun: its octets so far, in fixed memory. Their count is beyond the room where it is too long.
#[derive(Drop)]
struct Begun<'a> {
    octets: &'a mut [u8],
    count: usize,
}

impl<'a> Begun<'a> {
    // More octets of it.
    fn gather(&mut self, more: &[u8])
        ensures { room self.new.count self.new.octets.now
            ≡ gathered more.now (room self.old.count self.old.octets.now) }
    {
        self.count = crate::gather(self.octets, self.count, more);
    }

    // The line once it has ended. One too long is taken as an empty line is.
    fn line(&self) -> &[u8] {
        let count = self.count;
        let n = crate::ended(self.octets, count);
        &self.octets[..n]
    }
}

// The line up to the first LF, and what stands behind it; nothing where there is no LF.
pub fn split_line(block: &[u8]) -> Option<(&[u8], &[u8])>
    ensures cases { MatchOption result
        (until_end block.now ≡ length block.now)
        (λ p. (p.0.now ≡ take (until_end block.now) block.now) × (p.1.now ≡ drop (until_end block.now + 1) block.now)) }
    ensures shorter { IfSome result (λ p. length p.1.now < length block.now) }
{
    let e = crate::line_end(block, 0);
    if e == block.len() {
        return None;
    }
    Some((&block[..e], &block[e + 1..]))
}

// A line that ends: what was begun of it, and what stands before the LF. A line within one block is handed on as it is,
// however long: a program refuses one that is too long for its form.
fn end_line<P: Program>(program: &mut P, begun: &mut Begun, part: &[u8]) -> io::Result<()> {
    if begun.count == 0 {
        return program.take_line(part);
    }
    begun.gather(part);
    program.take_line(begun.line())?;
    begun.count = 0;
    Ok(())
}

// Whole lines handed on, and what begins one kept. No iterator: what is left behind the last LF is kept too.
fn take_block<P: Program>(program: &mut P, begun: &mut Begun, block: &[u8]) -> io::Result<()> {
    let mut rest = block;
    while let Some((part, behind)) = split_line(rest) {
        end_line(program, begun, part)?;
        rest = behind;
    }
    begun.gather(rest);
    Ok(())
}

// Line after line, to the input's end or until nothing more is wanted. Answers whether a line is left without its LF.
// Where a read fails, the answers that wait are written. A proved loop has to end, and nothing says that the input
// does: the turns are more than any run uses up. No clause says what is handed on: none can say what a stream gives
// (docs/DECISIONS.md).
pub fn take_lines<P: Program>(
    input: Stdin,
    program: &mut P,
    block: &mut [u8],
    line: &mut [u8],
) -> io::Result<bool> {
    let mut from = input;
    let mut begun = Begun {
        octets: line,
        count: 0,
    };
    for _ in 0..u64::MAX {
        let n = match from.read(block) {
            Ok(n) => n,
            Err(e) => {
                program.flush()?;
                return Err(e);
            }
        };
        if n == 0 {
            break;
        }
        take_block(program, &mut begun, &block[..n])?;
        if program.is_over() {
            break;
        }
    }
    Ok(0 < begun.count)
}
