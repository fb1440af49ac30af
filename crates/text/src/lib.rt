// The text of the event program, line by line, in a buffer that the caller lends. Each method writes behind the text so far.
#![tactic(auto)]

ghost use Rattle.std.specs.Prelude.{[], ◌∷◌, ◌++◌, ◌≡◌, ◌+◌, ◌*◌, ◌<◌, ◌≤◌, length};
ghost use Rattle.model.specs.Program;
ghost use Rattle.text.specs.Written.{Wrote};
ghost use Rattle.text.specs.Sent.{frame_in, frames_in, added};

use itoa::Buffer;
use model::Frame;
use wire::bytes::{byte, copy, get16};

// The bytes of a frame in an output.
const FRAME: usize = 12;

// The first `len` bytes of a lent buffer are the text so far. No heap is a rule of this project: a `String` could run out, and a line cannot.
#[derive(Drop)]
pub struct Text<'a> {
    pub bytes: &'a mut [u8],
    pub len: usize,
}

impl<'a> Text<'a> {
    // ---- Bytes and numbers

    // One byte.
    fn push(&mut self, b: u8)
        requires { self.old.len < length self.old.bytes.now }
        ensures { Wrote 1 (b ∷ []) self.old self.new }
    {
        self.bytes[self.len] = b;
        self.len += 1;
    }

    // Some bytes.
    fn push_all(&mut self, s: &[u8])
        requires { self.old.len + length s.now ≤ length self.old.bytes.now }
        ensures { Wrote (length s.now) s.now self.old self.new }
    {
        copy(self.bytes, self.len, s);
        self.len += s.len();
    }

    // A number in decimal.
    fn decimal(&mut self, n: u64)
        requires { self.old.len + 20 ≤ length self.old.bytes.now }
        ensures { Wrote 20 (Program.decimal n) self.old self.new }
    {
        let mut digits = Buffer::new();
        self.push_all(digits.format(n).as_bytes());
    }

    // Two numbers with a word between them.
    fn numbers(&mut self, first: u64, word: &[u8], second: u64)
        requires { self.old.len + length word.now + 40 ≤ length self.old.bytes.now }
        ensures { Wrote (length word.now + 40) (Program.decimal first ++ word.now ++ Program.decimal second) self.old self.new }
    {
        self.decimal(first);
        self.push_all(word);
        self.decimal(second);
    }

    // A byte as two hexadecimal digits.
    fn hex(&mut self, b: u8)
        requires { self.old.len + 2 ≤ length self.old.bytes.now }
        ensures { Wrote 2 (Program.hex_byte b) self.old self.new }
    {
        self.push(hex_digit(b / 16));
        self.push(hex_digit(b % 16));
    }

    // Some bytes so.
    fn hexes(&mut self, s: &[u8])
        requires { self.old.len + 2 * length s.now ≤ length self.old.bytes.now }
        ensures { Wrote (2 * length s.now) (Program.hex_bytes s.now) self.old self.new }
    {
        for b in s {
            self.hex(*b);
        }
    }

    // ---- Lines. Not by `write!`: it says what it wrote only where it answers Ok, and these methods cannot fail.

    // A space and a CAN-ID in three digits.
    fn id_part(&mut self, id: u16)
        requires { (self.old.len + 4 ≤ length self.old.bytes.now) × (id < 4096) }
        ensures { Wrote 4 (Program.space ∷ Program.id_text id) self.old self.new }
    {
        self.push(b' ');
        self.push(hex_digit((id / 256) as u8));
        self.hex((id % 256) as u8);
    }

    // A space and the data.
    fn data_part(&mut self, d: &[u8])
        requires { (self.old.len + 17 ≤ length self.old.bytes.now) × (length d.now ≤ 8) }
        ensures { Wrote 17 (Program.space ∷ Program.hex_bytes d.now) self.old self.new }
    {
        self.push(b' ');
        self.hexes(d);
    }

    // A frame's line: the event's number, CAN-ID, data.
    pub fn frame_line(&mut self, n: u64, frame: Frame)
        requires { (self.old.len + 42 ≤ length self.old.bytes.now) × (frame.id < 4096) }
        ensures { Wrote 42 (Program.frame_text n frame) self.old self.new }
    {
        let data = [
            frame.d0, frame.d1, frame.d2, frame.d3, frame.d4, frame.d5, frame.d6, frame.d7,
        ];
        let len = usize::from(frame.len).min(8);
        self.decimal(n);
        self.id_part(frame.id);
        self.data_part(&data[..len]);
        self.push(b'\n');
    }

    // A refused record's line: the event's number and the refusal's, as C's answer has it.
    pub fn refusal_line(&mut self, n: u64, number: u8)
        requires { self.old.len + 50 ≤ length self.old.bytes.now }
        ensures { Wrote 50 (Program.refusal_text n number) self.old self.new }
    {
        self.numbers(n, b" refused ", u64::from(number));
        self.push(b'\n');
    }

    // The last line: the records read and the frames written.
    pub fn end_line(&mut self, records: u64, frames: u64)
        requires { self.old.len + 60 ≤ length self.old.bytes.now }
        ensures { Wrote 60 (Program.end_line records frames) self.old self.new }
    {
        self.push_all(b"end ");
        self.numbers(records, b" events ", frames);
        self.push_all(b" frames\n");
    }

    // ---- What a call adds

    // The lines of the first frames of an output.
    fn frame_lines(&mut self, n: u64, frames: &[u8], count: usize)
        requires { (self.old.len + 42 * count ≤ length self.old.bytes.now) × (12 * count ≤ length frames.now) }
        ensures { Wrote (42 * count) (Program.frames_texts n (frames_in count frames.now)) self.old self.new }
    {
        for frame in frames[..FRAME * count].chunks(FRAME) {
            self.frame_line(n, frame_in(frame));
        }
    }

    // What call number n adds: of a refused one its line, else a line for each frame of the output. `number` and `count` stand in the answer as C has them.
    #[tactic(auto, unfolding(crate::specs::Sent::added))]
    pub fn lines(&mut self, n: u64, number: u8, count: u8, frames: &[u8])
        requires room { self.old.len + 168 ≤ length self.old.bytes.now }
        requires few { count ≤ 4 }
        requires whole { 48 ≤ length frames.now }
        ensures { Wrote 168 (added n number (frames_in count frames.now)) self.old self.new }
    {
        if number != 0 {
            self.refusal_line(n, number);
        } else {
            self.frame_lines(n, frames, usize::from(count));
        }
    }
}

// A hexadecimal digit, in upper case.
#[tactic(auto, unfolding(model::specs::Program::hex_digit))]
fn hex_digit(d: u8) -> u8
    requires { d < 16 }
    ensures { result ≡ Program.hex_digit d }
{
    if d < 10 { b'0' + d } else { b'A' + (d - 10) }
}

// The frame in the first 12 bytes, with the three digits of its CAN-ID that a line shows.
#[tactic(auto, unfolding(crate::specs::Sent::frame_in))]
pub fn frame_in(s: &[u8]) -> Frame
    ensures { (result ≡ frame_in s.now) × (result.id < 4096) }
{
    Frame {
        id: get16(s, 0) % 4096,
        len: byte(s, 3),
        d0: byte(s, 4),
        d1: byte(s, 5),
        d2: byte(s, 6),
        d3: byte(s, 7),
        d4: byte(s, 8),
        d5: byte(s, 9),
        d6: byte(s, 10),
        d7: byte(s, 11),
    }
}
