// The grader: reads its input from standard input, and prints what comes of it.
#![tactic(auto)]

ghost use Rattle.std.specs.Prelude.{◌≤◌, length, IfOk};

use reply::text::reply;
use std::io;
use std::io::Read;

/// Bytes of the input past these do not exist.
const LIMIT: usize = 8192;

// Fills the buffer as far as standard input goes, and says how far.
// Kept, rule of the project: the input takes no memory, and each read asks for all that there is room for, so that no packet is cut.
fn read_all(rt: &HostRuntime, buffer: &mut [u8]) -> io::Result<usize>
    ensures { IfOk result (λ n. n ≤ length buffer.old) }
{
    let mut input = rt.stdin();
    let mut at = 0;
    while at < buffer.len() {
        let n = input.read(&mut buffer[at..])?;
        if n == 0 {
            break;
        }
        at += n;
    }
    Ok(at)
}

fn main(rt: HostRuntime) -> anyhow::Result<()> {
    let mut buffer = [0; LIMIT];
    let n = read_all(&rt, &mut buffer)?;
    let text = reply(rt.alloc(), &buffer[0..n])?;
    rt.print(&text)?;
    Ok(())
}
