// The present reading, and the frames that go out by themselves.
ghost use Rattle.std.specs.Prelude.{◌≡◌, cond, not, ◌&&◌, [], ◌∷◌, ◌++◌, ◌+◌, ◌-◌, ◌≤◌, eqb};
ghost use Rattle.model.specs.Bytes.{low_bytes};
ghost use Rattle.model.specs.Frames.{frame, full, when, frames_of, heartbeats, tpdos, emcys};
ghost use Rattle.model.specs.Parts.{stopped};
ghost use Rattle.model.specs.Time as Time;
ghost use Rattle.model.specs.Time.{differ};
ghost use Rattle.time.specs.Told.{reading_of};

use model::{Frame, Integer, STOPPED, State};
use reading::{bits_of, integer_pv, to_pv};

// ---- The present reading

// The bits of PV, and the integer PV. For the rule of the reported flag and for the frames of a tick; EMCY makes the integer for itself (`output`).
#[derive(Clone, Copy)]
pub struct Reading {
    pub bits: u32,
    pub integer: Integer,
}

// The reading of the present FV and parameters. That the digits and the Node-ID fit stays a clause, here and below: the state holds a byte for
// each, as C has it, and the definitions take it so.
pub fn reading_of(s: State) -> Reading
    requires { s.settings.application.digits ≤ 4 }
    ensures { result ≡ reading_of s }
{
    let pv = to_pv(s.settings.application.scaling, s.core.fv);
    Reading {
        bits: bits_of(pv.0),
        integer: integer_pv(pv, s.settings.application.digits),
    }
}

// ---- The frames, by the active ID or the COB-ID and the number that they carry

// A frame of four bytes, low first.
#[tactic(auto, using(model::proofs::Numbers::low_of_32))]
fn four_bytes(id: u16, x: u32) -> Frame
    ensures { result ≡ frame id (low_bytes 4 x) }
{
    let [b0, b1, b2, b3] = x.to_le_bytes();
    Frame::new(id, 4, [b0, b1, b2, b3, 0, 0, 0, 0])
}

// Heartbeat: the NMT state's number. It stays a byte: C's state has one, and the boot-up goes out by 0.
pub fn heartbeat_frame(id: u8, nmt: u8) -> Frame
    requires { id ≤ 127 }
    ensures { result ≡ frame (heartbeats + id) (nmt ∷ []) }
{
    Frame::new(0x700 + u16::from(id), 1, [nmt, 0, 0, 0, 0, 0, 0, 0])
}

// TPDO: the integer PV.
pub fn tpdo_frame(id: u8, integer: u32) -> Frame
    requires { id ≤ 127 }
    ensures { result ≡ frame (tpdos + id) (low_bytes 4 integer) }
{
    four_bytes(0x180 + u16::from(id), integer)
}

// A TPDO where it is sent. The reading is made only then.
#[tactic(auto, unfolding(model::specs::Time::tpdo_frame))]
pub fn tpdo_reply(send: bool, s: State) -> Option<Frame>
    requires { (s.settings.application.digits ≤ 4) × (s.core.active.id ≤ 127) }
    ensures { frames_of result ≡ when send (Time.tpdo_frame s) }
{
    send.then(|| tpdo_frame(s.core.active.id, reading_of(s).integer.bits))
}

// SRDO: the bits of PV on the first COB-ID.
pub fn srdo_first(cob: u32, bits: u32) -> Frame
    requires { cob ≤ 0x180 }
    ensures { result ≡ frame cob (low_bytes 4 bits) }
{
    four_bytes(cob as u16, bits)
}

// SRDO: their inverse on the second.
pub fn srdo_second(cob: u32, bits: u32) -> Frame
    requires { cob ≤ 0x180 }
    ensures { result ≡ frame cob (low_bytes 4 (0xffffffff - bits)) }
{
    four_bytes(cob as u16, 0xffff_ffff - bits)
}

// ---- EMCY

// The error register (1001h).
pub fn error_register(capped: bool) -> u8
    ensures { result ≡ cond capped 0x81 0 }
{
    if capped { 0x81 } else { 0 }
}

// EMCY: the code, low byte first, for a capped reading or the end of it, and the error register.
#[tactic(auto, using(model::proofs::Numbers::low_of_16))]
pub fn emcy_frame(id: u8, capped: bool) -> Frame
    requires { id ≤ 127 }
    ensures { result ≡ full (emcys + id) (low_bytes 2 (cond capped 0xff01 0) ++ (cond capped 0x81 0 ∷ [])) }
{
    let code: u16 = if capped { 0xff01 } else { 0 };
    let [low, high] = code.to_le_bytes();
    Frame::new(
        0x80 + u16::from(id),
        8,
        [low, high, error_register(capped), 0, 0, 0, 0, 0],
    )
}

// It is due when capped is not what was reported, unless Stopped. The NMT state stays a byte, as C's state has it: the promise is of every one.
pub fn emcy_due(nmt: u8, capped: bool, reported: bool) -> bool
    ensures { result ≡ not (eqb nmt stopped) && differ capped reported }
{
    (nmt != STOPPED) & (capped ^ reported)
}
