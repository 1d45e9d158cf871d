// A whole run from a table under the widest profile: one reply byte for each piece, or the lines that the program prints.

#![tactic(auto)]

ghost use Rattle.std.specs.Prelude.{◌≡◌, map, ◌+◌, ◌*◌, ◌≤◌, ◌<◌, length, take, replicate};
ghost use Rattle.model.specs.Decisions.{checked};
ghost use Rattle.bits.specs.Bits.{join};
ghost use Rattle.model.specs.Requests.{request_size};
ghost use Rattle.model.specs.Layout.{table_size};
ghost use Rattle.model.specs.Buffers.{put};
ghost use Rattle.model.specs.Program.{most_requests, line, program};
ghost use Rattle.replay.specs.Replay.{replay_answer, replayed};

use buffers::put_two;
use image::start_widest;
use model::{Decision, Monitor};
use turns::{piece_count, run};
use unit::ROWS;

// One reply byte for each piece of six bytes, a short last one counted; a refusal leaves every byte of the buffer.
pub fn replay(table: &[u8], requests: &[u8], out: &mut [u8]) -> Result<(), Decision>
    ensures { (result ≡ checked (replay_answer table.now requests.now (length out.old))) × (out.new ≡ replayed table.now requests.now out.old) }
{
    let mut unit = [[0u8; 16]; ROWS];
    start_widest(&mut unit, table)?;
    if out.len() < piece_count(requests.len()) {
        return Err(Decision::ShortBuffer);
    }
    run(&mut unit, requests, out);
    Ok(())
}

// ---- lines of decimal numbers, one behind the other in a buffer

// A number in decimal and a newline; returns where the next line begins.
fn put_line(out: &mut [u8], at: usize, n: u8) -> usize
    requires { at + 3 ≤ length out.old }
    ensures { (out.new ≡ put out.old at (line n)) × (result ≡ at + length (line n)) }
{
    if n < 10 {
        out[at] = 48 + n;
        out[at + 1] = 10;
        return at + 2;
    }
    put_two(out, at, n);
    out[at + 2] = 10;
    at + 3
}

// A line for each of the numbers; returns how many bytes they have.
fn put_lines(out: &mut [u8], numbers: &[u8]) -> usize
    requires { (3 * length numbers.now ≤ length out.old) × (length out.old < 65536) }
    ensures { (out.new ≡ put out.old 0 (join (map line numbers.now))) × (result ≡ length (join (map line numbers.now))) }
{
    let mut at = 0usize;
    for n in numbers {
        at = put_line(out, at, *n);
    }
    at
}

// All that the program reads: a table and 4,096 requests of six bytes.
pub const INPUT_BYTES: usize = Monitor::TABLE_BYTES + 6 * 4096;

// Room for it, each byte 0.
pub fn input_room() -> [u8; INPUT_BYTES]
    ensures { result ≡ replicate (table_size + request_size * most_requests) 0 }
{
    [0u8; INPUT_BYTES]
}

// What the program prints: the first len bytes. Kept as an array with its length, since the program has no heap.
#[derive(Clone, Copy)]
pub struct Printed {
    pub bytes: [u8; 12288],
    pub len: usize,
}

// The whole of `circmon`: from the bytes on standard input to those on standard output. A line has at most three bytes,
// and there are at most 4,096 of them.
pub fn program(input: &[u8]) -> Printed
    ensures { (result.bytes ≡ put (replicate 12288 0) 0 (program input.now)) × (result.len ≡ length (program input.now)) × (result.len ≤ 12288) }
{
    let mut bytes = [0u8; 12288];
    let end = Monitor::TABLE_BYTES.min(input.len());
    let mut unit = [[0u8; 16]; ROWS];
    if let Err(refusal) = start_widest(&mut unit, &input[0..end]) {
        let len = put_line(&mut bytes, 0, u8::from(refusal));
        return Printed { bytes, len };
    }
    let last = input.len().min(end + 24576);
    let mut replies = [0u8; 4096];
    run(&mut unit, &input[end..last], &mut replies);
    let count = piece_count(last - end);
    let len = put_lines(&mut bytes, &replies[..count]);
    Printed { bytes, len }
}
