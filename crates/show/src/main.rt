// The showing program: three lines of numbers in, the listing or the refusal out (01, The proved blocks). A text is over its limit where
// one byte more than the limit is there.
#![tactic(auto)]

ghost use Rattle.std.specs.Prelude.{◌≤◌, IfOk, length};

use std::io;
use std::io::{Read, Write};

// Reads until the room is full or the input ends; how many bytes it put at the front of the room.
fn read_full(input: &mut impl Read, room: &mut [u8]) -> io::Result<usize>
    ensures { IfOk result (λ n. n ≤ length room.new) }
{
    let mut n: usize = 0;
    while n < room.len() {
        let more = input.read(&mut room[n..])?;
        if more == 0 {
            break;
        }
        n = n + more;
    }
    Ok(n)
}

fn main(rt: HostRuntime) -> io::Result<()> {
    let mut given = [0u8; 4097];
    let n = read_full(&mut rt.stdin(), &mut given)?;
    let mut out = [0u8; 1024];
    let k = listing::show(&given[..n], &mut out);
    rt.stdout().write_all(&out[..k])
}
