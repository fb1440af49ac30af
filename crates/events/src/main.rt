// The event program: it powers a node on, reads records of 13 bytes from standard input and writes a line for each frame and each refusal, both
// by way of a buffer.
#![tactic(auto)]

ghost use Rattle.std.specs.Prelude.{◌≡◌, true, false, ◌==◌, if◌then◌else◌, ◌≤◌, [], ◌∷◌, length};
ghost use Rattle.model.specs.Program;
ghost use Rattle.model.specs.Step.{zero_store};
ghost use Rattle.program.specs.Turns.{calling};

use model::State;
use program::{begin, call};
use std::io;
use std::io::{Read, Write};
use text::Text;

// The bytes of a record, and of the 1,024 that are read at once.
const RECORD: usize = 13;

const INPUT: usize = 1024 * RECORD;

// The bytes of the text, of which a record's lines take 168 at most: past `FULL` there is no room for them.
const TEXT: usize = 16384;

const FULL: usize = TEXT - 168;

// The bytes of the store.
const STORE: usize = 64;

// What is kept from record to record: the node and its store, the counts, the text that waits, and whether the output still takes text.
#[derive(Drop)]
struct Run<'a> {
    rt: &'a HostRuntime,
    state: State,
    store: &'a mut [u8],
    records: u64,
    frames: u64,
    text: Text<'a>,
    open: bool,
    ghost fits: { (text.len ≤ 16384) × (length text.bytes.now ≡ 16384) },
}

impl<'a> Run<'a> {
    ghost use Rattle.events.specs.Reads.{waits, MayGo, Roomy, Went, Took, Whole, Ended, Done};

    // Standard output takes this text, and not where it was found closed; answers whether it did. Nothing else writes to it.
    fn hand_over(&self, out: &[u8]) -> bool
        requires { MayGo self.now out.now }
        ensures { result ≡ true → self.now.«open» ≡ true }
    {
        self.open && io::writer(self.rt).write_all(out).is_ok()
    }

    // All that waits so.
    fn hand_over_all(&self) -> bool
        requires { MayGo self.now (waits self.now) }
        ensures { result ≡ true → self.now.«open» ≡ true }
    {
        self.hand_over(&self.text.bytes[..self.text.len])
    }

    // Room for the next lines: where there is little left, the text so far is handed over. Nothing is written to an output that was
    // found closed, so that no text is missing from the middle.
    fn with_room(&mut self)
        ensures { Roomy self.old self.new }
    {
        if FULL < self.text.len {
            self.open = self.hand_over_all();
            self.text.len = 0;
        }
    }

    // One record.
    fn one(&mut self, bytes: &[u8])
        ensures { Went (calling bytes.now ∷ []) self.old self.new }
    {
        self.with_room();
        self.records = self.records.wrapping_add(1);
        let turn = call(bytes, self.records, self.state, &mut self.text, self.store);
        self.state = turn.state;
        self.frames = self.frames.wrapping_add(turn.frames);
    }

    // All the records of a buffer, of which the last is short where fewer than 13 bytes are left. Not by `chunks`, where one number is both the
    // length of a record and the place of the next: `records_of_twelve` gets the place wrong alone.
    fn records(&mut self, s: &[u8])
        ensures { Went (Program.records (length s.now) s.now) self.old self.new }
    {
        let mut rest = s;
        while RECORD <= rest.len() {
            self.one(&rest[..RECORD]);
            rest = &rest[RECORD..];
        }
        if !rest.is_empty() {
            self.one(rest);
        }
    }

    // A buffer of what was read; answers whether there is more. Where it is not full, the input has ended; where the output takes no more
    // text, so has the run.
    fn taken(&mut self, s: &[u8]) -> bool
        ensures went { Went (Program.records (length s.now) s.now) self.old self.new }
        ensures more { result ≡ (if self.new.«open» then (length s.now == 13312) else false) }
    {
        self.records(s);
        self.open && s.len() == INPUT
    }

    // One buffer of 1,024 records.
    fn buffer(&mut self) -> bool
        ensures { Took self.old self.new result }
    {
        let mut input = [0u8; INPUT];
        let n = read_full(self.rt, &mut input);
        self.taken(&input[..n])
    }

    // The whole input. Nothing says that it ends, so the turns are counted, to a number that no run uses up.
    fn input(&mut self)
        ensures { Took self.old self.new false }
    {
        for _ in 0..u64::MAX {
            if !self.buffer() {
                break;
            }
        }
    }

    // The last line.
    fn close(&mut self)
        ensures { Ended self.old self.new }
    {
        self.with_room();
        self.text.end_line(self.records, self.frames);
        self.hand_over_all();
    }

    // The power-on and the whole input, from a store of zeros.
    fn whole_run(
        rt: &'a HostRuntime,
        text: &'a mut [u8; TEXT],
        store: &'a mut [u8; STORE],
    ) -> Run<'a>
        requires { store.old ≡ zero_store }
        ensures { Whole result }
    {
        let mut text = Text {
            bytes: text,
            len: 0,
        };
        let turn = begin(&mut text, store);
        let mut run = Run {
            rt,
            state: turn.state,
            store,
            records: 0,
            frames: turn.frames,
            text,
            open: true,
        };
        run.input();
        run
    }

    // The whole run, and then the last line.
    fn to_end(rt: &'a HostRuntime, text: &'a mut [u8; TEXT], store: &'a mut [u8; STORE]) -> Run<'a>
        requires { store.old ≡ zero_store }
        ensures { Done result }
    {
        let mut run = Run::whole_run(rt, text, store);
        run.close();
        run
    }
}

// Standard input fills the buffer from its start on, until it is full, the input ends or a read fails; how many bytes it has then.
fn read_full(rt: &HostRuntime, buf: &mut [u8]) -> usize
    ensures { result ≤ length buf.new }
{
    let mut input = rt.stdin();
    let len = buf.len();
    let mut rest = buf;
    while !rest.is_empty() {
        match input.read(rest) {
            Ok(0) | Err(_) => break,
            Ok(n) => rest = &mut rest[n..],
        }
    }
    len - rest.len()
}

// A store of zeros, the power-on, the records, the last line.
fn main(rt: HostRuntime) {
    let mut text = [0u8; TEXT];
    let mut store = [0u8; STORE];
    Run::to_end(&rt, &mut text, &mut store);
}
