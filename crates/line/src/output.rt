// Output gathered in memory and written in large blocks.
ghost use Rattle.std.specs.Prelude.{◌≡◌, cond, ◌<◌, ◌≤◌, ltb, length, IfOk, OnErr};

use std::io::{self, Print, Stdout};

// Octets that wait, the first of a program's fixed memory, written out where they are more than some number; how many
// still wait. An error comes of the write
// alone, which may then have written some of them.
pub fn flush(to: Stdout, out: &[u8], waiting: usize, most: usize) -> io::Result<usize>
    requires { waiting ≤ length out.now }
    ensures upper_bound { IfOk result (λ n. n ≤ waiting) }
    ensures value { IfOk result (λ n. n ≡ cond (ltb most waiting) 0 waiting) }
    ensures err { OnErr result (most < waiting) }
{
    if waiting <= most {
        return Ok(waiting);
    }
    to.write_all(&out[..waiting])?;
    Ok(0)
}
