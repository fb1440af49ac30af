// The event program but for its descriptors: each call's lines are written behind the text so far.
#![tactic(auto)]

ghost use Rattle.std.specs.Prelude.{◌+◌, ◌≤◌, length};
ghost use Rattle.model.specs.Program.{zero_identity};
ghost use Rattle.program.specs.Turns.{Begins, Turned};

use model::{Identity, State};
use node::{event, power_on};
use text::Text;

// The output of a call: room for four frames.
const OUTPUT: usize = 48;

// What a call leaves beside its lines and the store: the state, and how many frames it sent.
#[derive(Clone, Copy)]
pub struct Turn {
    pub state: State,
    pub frames: u64,
}

// The power-on, with a zero identity. The room for a call's lines stays a clause, here and below: any text that has it will do.
pub fn begin(text: &mut Text<'_>, store: &[u8]) -> Turn
    requires { text.old.len + 168 ≤ length text.old.bytes.now }
    ensures { Begins zero_identity store.now text.old text.new result }
{
    let identity = Identity {
        vendor: 0,
        product: 0,
        revision: 0,
        serial: 0,
    };
    let mut out = [0u8; OUTPUT];
    let answer = power_on(identity, &mut out, store);
    text.lines(0, answer.number, answer.count, &out);
    Turn {
        state: answer.state,
        frames: u64::from(answer.count),
    }
}

// Record number n, whole or short.
pub fn call(bytes: &[u8], n: u64, state: State, text: &mut Text<'_>, store: &mut [u8]) -> Turn
    requires { text.old.len + 168 ≤ length text.old.bytes.now }
    ensures { Turned bytes.now n state store.old text.old text.new store.new result }
{
    let mut out = [0u8; OUTPUT];
    let answer = event(bytes, state, &mut out, store);
    text.lines(n, answer.number, answer.count, &out);
    Turn {
        state: answer.state,
        frames: u64::from(answer.count),
    }
}
