// The frames of the replies.
#![tactic(auto, unfolding(model::specs::Bytes::low_bytes))]

ghost use Rattle.std.specs.Prelude.{◌≡◌, ◌≤◌};
ghost use Rattle.model.specs.Parts.{id_of};
ghost use Rattle.model.specs.Sdo as Sdo;

use dictionary::abort::AbortCode;
use dictionary::content::content;
use model::{Change, Content, Entry, Frame, Kind, Missing, State};
use settings::values::{encode, kind_of, word};

// Eight bytes on the node's own CAN-ID. The Node-ID's bound stays a clause: the state is C's.
pub(crate) fn replied(bytes: [u8; 8], s: State) -> Frame
    requires { id_of s ≤ 127 }
    ensures { result ≡ Sdo.replied s bytes }
{
    Frame::new(0x580 + u16::from(s.core.active.id), 8, bytes)
}

// What is answered: the index and sub that a reply names, in a state whose Node-ID fits a CAN-ID.
#[derive(Clone, Copy)]
pub struct Named {
    pub index: u16,
    pub sub: u8,
    pub state: State,
    pub ghost id: { id_of state ≤ 127 },
}

impl Named {
    // A reply's index and sub, in a state.
    pub fn new(index: u16, sub: u8, state: State) -> Named
        requires { id_of state ≤ 127 }
        ensures { (result.index ≡ index) × (result.sub ≡ sub) × (result.state ≡ state) }
    {
        Named { index, sub, state }
    }

    // A command byte, index and sub, then four bytes.
    fn headed(&self, command: u8, four: [u8; 4]) -> Frame
        ensures { result ≡ Sdo.replied self.now.state (Sdo.headed command self.now.index self.now.sub four) }
    {
        let [low, high] = self.index.to_le_bytes();
        let [a, b, c, d] = four;
        replied([command, low, high, self.sub, a, b, c, d], self.state)
    }

    // ---- Writes and aborts

    // An accepted write.
    fn acknowledged(&self) -> Frame
        ensures { result ≡ Sdo.acknowledged self.now.index self.now.sub self.now.state }
    {
        self.headed(0x60, [0, 0, 0, 0])
    }

    // An abort, with its code, which goes out as a number: that is said of every number, so it takes one.
    pub fn aborted(&self, code: u32) -> Frame
        ensures { result ≡ Sdo.aborted self.now.index self.now.sub code self.now.state }
    {
        self.headed(0x80, word(code))
    }

    // The reply to a write that was checked. The code is a number, as in `aborted`.
    pub fn write_reply(&self, checked: Result<Change, u32>) -> Frame
        ensures { result ≡ Sdo.write_reply checked self.now.index self.now.sub self.now.state }
    {
        match checked {
            Ok(_) => self.acknowledged(),
            Err(code) => self.aborted(code),
        }
    }

    // ---- Reads

    // The reply that begins an upload: the name's length, since the name goes by segments, or the value.
    #[tactic(auto, using(settings::proofs::Alike::four_bytes_lem), unfolding(model::specs::Bytes::low_bytes))]
    fn uploaded(&self, what: Content) -> Frame
        ensures { result ≡ Sdo.uploaded what self.now.index self.now.sub self.now.state }
    {
        match what {
            Content::Text => self.headed(0x41, [15, 0, 0, 0]),
            Content::Plain(v) => {
                let command = expedited(kind_of(v));
                self.headed(command, encode(v))
            }
        }
    }

    // The reply to a read of what was found. A read has only the first two of the checks.
    pub fn read_reply(&self, found: Result<Entry, Missing>) -> Frame
        requires { self.now.state.settings.application.digits ≤ 4 }
        ensures { result ≡ Sdo.read_from found self.now.index self.now.sub self.now.state }
    {
        match found {
            Ok(e) => self.uploaded(content(e, self.state)),
            Err(missing) => self.aborted(AbortCode::from(missing).into()),
        }
    }
}

// The command byte of a value that goes in the reply itself: it tells how many of the four bytes are the value's.
fn expedited(k: Kind) -> u8
    ensures { result ≡ Sdo.expedited k }
{
    match k {
        Kind::U8 => 0x4f,
        Kind::U16 => 0x4b,
        Kind::U32 | Kind::Integer32 | Kind::Real32 => 0x43,
    }
}
