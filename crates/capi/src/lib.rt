// The monitor for C and Rust, on byte slices: each passes as a pointer and a length. include/circmon.h says what each does. The functions here are on
// images alone, under the widest profile.

#![tactic(auto)]

mod clash;
mod levels;
mod loads;
mod sites;
mod units;

ghost use Rattle.std.specs.Prelude.{◌≡◌, length};
ghost use Rattle.model.specs.State.{widest};
ghost use Rattle.model.specs.Decisions.{number};
ghost use Rattle.model.specs.Reading.{read_image};
ghost use Rattle.replay.specs.Replay.{replay_answer, replayed};
ghost use Rattle.images_apart.specs.Apart.{distinguish_number, distinguish_bytes};
ghost use Rattle.capi.specs.Boundary.{begin_number, begin_bytes, request_number, request_bytes};

use asking::ask;
use beginning::{check_table, write_begun};
use image::open_widest;
use images_apart::tell;
use labels::number;
use model::widest;
use replay::replay;
use unit::ROWS;
use writing::save;

// The image of a monitor begun from a table, into the buffer.
#[unsafe(no_mangle)]
pub extern "C" fn circmon_begin(table: &[u8], image: &mut [u8]) -> u8
    ensures { (result ≡ begin_number table.now image.old) × (image.new ≡ begin_bytes table.now image.old) }
{
    if let Err(refusal) = check_table(table) {
        return u8::from(refusal);
    }
    number(write_begun(table, image))
}

// The number of reading an image.
#[unsafe(no_mangle)]
pub extern "C" fn circmon_read(image: &[u8]) -> u8
    ensures { result ≡ number (read_image widest image.now).decision }
{
    let mut unit = [[0u8; 16]; ROWS];
    number(open_widest(&mut unit, image))
}

// One request on the state that the buffer holds as an image; the state after it is written in place.
#[unsafe(no_mangle)]
pub extern "C" fn circmon_request(image: &mut [u8], bytes: &[u8]) -> u8
    ensures { (result ≡ request_number image.old bytes.now) × (image.new ≡ request_bytes image.old bytes.now) }
{
    let mut unit = [[0u8; 16]; ROWS];
    if let Err(refusal) = open_widest(&mut unit, image) {
        return 128 + u8::from(refusal);
    }
    let reply = u8::from(ask(&mut unit, bytes));
    let _ = save(&unit, image);
    reply
}

// One reply byte for each piece of six bytes, from a monitor begun from a table.
#[unsafe(no_mangle)]
pub extern "C" fn circmon_replay(table: &[u8], requests: &[u8], replies: &mut [u8]) -> u8
    ensures { (result ≡ number (replay_answer table.now requests.now (length replies.old))) × (replies.new ≡ replayed table.now requests.now replies.old) }
{
    number(replay(table, requests, replies))
}

// The requests on which the states of two images reply differently, into the buffer.
#[unsafe(no_mangle)]
pub extern "C" fn circmon_distinguish(a: &[u8], b: &[u8], requests: &mut [u8]) -> u8
    ensures { (result ≡ distinguish_number widest a.now b.now requests.old) × (requests.new ≡ distinguish_bytes widest a.now b.now requests.old) }
{
    tell(widest(), a, b, requests)
}
