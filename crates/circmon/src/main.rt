// Reads a table and requests from standard input and prints one line for each request; what these say is decided in `replay`.

#![tactic(auto)]

ghost use Rattle.std.specs.Prelude.{◌≡◌, ◌+◌, ◌*◌, ◌<◌, ◌≤◌, length, take, drop, Some, IfSome, IfOk, OnOk};
ghost use Rattle.std.specs.Io.KnownBytes.{Appends, Consumes, IsAtEnd};
ghost use Rattle.model.specs.Requests.{request_size};
ghost use Rattle.model.specs.Layout.{table_size};
ghost use Rattle.model.specs.Program.{most_requests, program};

use std::io;
use std::io::{Read, Write};

// Reads until the buffer is full or the input ends. Handed back: how many bytes it put at the start of the buffer.
// Nothing is said of the buffer where a read fails.
fn fill<R: Read>(input: &mut R, buffer: &mut [u8]) -> io::Result<usize>
    ensures within { IfOk result (λ n. n ≤ length buffer.new) }
    ensures bytes { IfOk result (λ n. Consumes (R.remaining input.old) (R.remaining input.new) (take n buffer.new)) }
    ensures end { IfOk result (λ n. n < length buffer.new → IsAtEnd (R.remaining input.new)) }
{
    let mut count = 0;
    while count < buffer.len() {
        let more = input.read(&mut buffer[count..])?;
        if more == 0 {
            break;
        }
        count += more;
    }
    Ok(count)
}

// The program between any reader and any writer whose bytes are known: what it writes for what it is given, and that it leaves what is
// behind the last request unread. Nothing is said of what was written where a read or a write fails.
fn run<R: Read, W: Write>(input: &mut R, output: &mut W) -> io::Result<()>
    ensures printed { OnOk result (IfSome (R.remaining input.old) (λ bytes. Appends (W.contents output.old) (W.contents output.new) (program bytes))) }
    ensures unread { OnOk result (IfSome (R.remaining input.old) (λ bytes. R.remaining input.new ≡ Some (drop (table_size + request_size * most_requests) bytes))) }
{
    let mut room = replay::input_room();
    let count = fill(input, &mut room)?;
    let printed = replay::program(&room[..count]);
    output.write_all(&printed.bytes[..printed.len])
}

fn main(rt: HostRuntime) -> io::Result<()> {
    run(&mut rt.stdin(), &mut rt.stdout())
}
