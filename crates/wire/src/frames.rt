// The bytes of an event, and frames of 12 bytes laid into the output that a caller lends.
ghost use Rattle.std.specs.Prelude.{◌≡◌, ◌+◌, ◌*◌, ◌≤◌, ◌++◌};
ghost use Rattle.std.proofs.Math.ListN as List;
ghost use Rattle.model.specs.Frames.{kind_of_event, can_id, flag_in, length_in, data_at, sample_in, frame_bytes};
ghost use Rattle.wire.specs.Laid.{pushed, Emitted};

use super::bytes::{byte, get16};
use model::Frame;

// ---- An event's bytes

// Its kind. It stays a byte, as the flag does: `kind_of` and `flag` say what every event has there.
pub fn kind_of(e: &[u8]) -> u8
    ensures { result ≡ kind_of_event e.now }
{
    byte(e, 0)
}

// A frame's CAN-ID.
pub fn can_id(e: &[u8]) -> u16
    ensures { result ≡ can_id e.now }
{
    get16(e, 1)
}

// A frame's flag: 0 data, 1 remote.
pub fn flag(e: &[u8]) -> u8
    ensures { result ≡ flag_in e.now }
{
    byte(e, 3)
}

// How many of a frame's data bytes count.
pub fn length(e: &[u8]) -> u8
    ensures { result ≡ length_in e.now }
{
    byte(e, 4)
}

// A frame's data byte number i.
pub fn data(e: &[u8], i: usize) -> u8
    requires { i ≤ 7 }
    ensures { result ≡ data_at i e.now }
{
    byte(e, 5 + i)
}

// A sample's FV.
pub fn sample(e: &[u8]) -> u16
    ensures { result ≡ sample_in e.now }
{
    get16(e, 1)
}

// ---- Frames to send

// A frame goes into the first 12 bytes.
fn put_frame(out: &mut [u8], frame: Frame)
    requires { 12 ≤ List.length out.old }
    ensures { out.new ≡ frame_bytes frame ++ List.drop 12 out.old }
{
    let [low, high] = frame.id.to_le_bytes();
    let bytes = [
        low, high, 0, frame.len, frame.d0, frame.d1, frame.d2, frame.d3, frame.d4, frame.d5,
        frame.d6, frame.d7,
    ];
    out[..12].copy_from_slice(&bytes);
}

// Frame number n, from 0, goes to 12 * n, and n + 1 comes back.
pub fn push(out: &mut [u8], n: usize, frame: Frame) -> usize
    requires { (12 * n + 12 ≤ List.length out.old) × (n ≤ 3) }
    ensures { (result ≡ n + 1) × (out.new ≡ pushed out.old n frame) }
{
    let at = 12 * n;
    put_frame(&mut out[at..], frame);
    n + 1
}

// A frame where there is one, else nothing; the number of frames then comes back. Output and number stay apart, as document 01 has it: a frame
// goes to 12 times its number.
pub fn emit(out: &mut [u8], n: usize, frame: Option<Frame>) -> usize
    requires { (12 * n + 12 ≤ List.length out.old) × (n ≤ 3) }
    ensures { Emitted frame n out.old out.new result }
{
    match frame {
        Some(frame) => push(out, n, frame),
        None => n,
    }
}
