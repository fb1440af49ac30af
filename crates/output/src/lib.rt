// What an event sends, laid into the output: the reply, the boot-up and EMCY, or the frames of a tick; and the services that send and change no parameter.
#![tactic(auto)]

ghost use Rattle.std.specs.Prelude.{◌≡◌, ◌++◌, ◌≤◌, length};
ghost use Rattle.model.specs.Frames.{frames_of};
ghost use Rattle.model.specs.Parts.{with_core};
ghost use Rattle.model.specs.Time as Time;
ghost use Rattle.wire.specs.Laid.{Laid};
ghost use Rattle.time.specs.Told.{due_of};
ghost use Rattle.rules.specs.Fit.{Fit};
ghost use Rattle.output.specs.Sent.{Leaves, emcy_of, reported_now, IsReported};

use model::{Application, Core, Frame, Fv, State};
use reading::{integer_pv, to_pv};
use time::frames::{
    emcy_due, emcy_frame, heartbeat_frame, reading_of, srdo_first, srdo_second, tpdo_frame,
    tpdo_reply,
};
use time::sync::{answers_remote, remote_answered, sampled, sync_sends, synced};
use time::tick::{Due, clocked};
use wire::frames::emit;

// ---- Frames

// The reply and the boot-up go out, and last the EMCY; how many that were. The room stays a clause, as below.
pub fn send(reply: Option<Frame>, boot: Option<Frame>, emcy: Option<Frame>, out: &mut [u8]) -> u8
    requires { 48 ≤ length out.old }
    ensures { Laid ((frames_of reply ++ frames_of boot) ++ frames_of emcy) out.old out.new result }
{
    let n1 = emit(out, 0, reply);
    let n2 = emit(out, n1, boot);
    let n3 = emit(out, n2, emcy);
    n3 as u8
}

// ---- EMCY

// EMCY where it is due, and the reported flag after that.
#[derive(Clone, Copy)]
pub struct Reported {
    pub emcy: Option<Frame>,
    pub reported: bool,
}

// By the present reading: of the parameters only those of group A count.
#[tactic(auto, using(wire::proofs::Lay::frames_when), unfolding(model::specs::Time::emcy_due, model::specs::Time::emcy_frame, model::specs::Parts::error_register))]
pub fn emcy_after(a: Application, c: Core) -> Reported
    requires { (a.digits ≤ 4) × (c.active.id ≤ 127) }
    ensures { (t : State) → t.settings.application ≡ a → t.core ≡ c → IsReported t result }
{
    let capped = integer_pv(to_pv(a.scaling, c.fv), a.digits).capped;
    let due = emcy_due(c.nmt, capped, c.reported);
    Reported {
        emcy: due.then_some(emcy_frame(c.active.id, capped)),
        reported: if due { capped } else { c.reported },
    }
}

// ---- An event that leaves the parameters

// `Fit` stays a clause: a struct around the state that C lends would have each promise speak of its field. So does the room of 48 bytes: these
// functions take every output from there on, and `[u8; 48]` would ask for one of that size.

// What an event that leaves the parameters comes to: how many frames went out, and the core after it.
#[derive(Clone, Copy)]
pub struct Sent {
    pub count: u8,
    pub core: Core,
}

// Its reply goes out, and this core is left.
pub fn replied(reply: Option<Frame>, core: Core, out: &mut [u8]) -> Sent
    requires { 48 ≤ length out.old }
    ensures { Leaves (frames_of reply) core out.old out.new result }
{
    let n = emit(out, 0, reply);
    Sent {
        count: n as u8,
        core,
    }
}

// EMCY goes out where it is due with the core h, after which the reported flag is right. Inlined, so that no state is laid down for it on the stack.
#[inline(always)]
pub fn report(s: State, h: Core, out: &mut [u8]) -> Sent
    requires { (s.settings.application.digits ≤ 4) × ((h.active.id ≤ 127) × (48 ≤ length out.old)) }
    ensures { Leaves (emcy_of (with_core s h)) (reported_now (with_core s h)).core out.old out.new result }
{
    let told = emcy_after(s.settings.application, h);
    let mut core = h;
    core.reported = told.reported;
    replied(told.emcy, core, out)
}

// A sample: the reading may be capped now, or no longer.
pub fn sample(fv: Fv, s: State, out: &mut [u8]) -> Sent
    requires { Fit s × (48 ≤ length out.old) }
    ensures { let t = with_core s (Time.sampled fv s.core) in Leaves (emcy_of t) (reported_now t).core out.old out.new result }
{
    report(s, sampled(fv, s.core), out)
}

// A SYNC: a TPDO where one is sent.
#[tactic(auto, unfolding(model::specs::Time::sync_frames))]
pub fn sync(s: State, out: &mut [u8]) -> Sent
    requires { Fit s × (48 ≤ length out.old) }
    ensures { Leaves (Time.sync_frames s) (Time.synced s) out.old out.new result }
{
    replied(tpdo_reply(sync_sends(s), s), synced(s), out)
}

// A remote frame on the TPDO of the node `to`.
#[tactic(auto, unfolding(model::specs::Time::remote_frames))]
pub fn remote(to: u8, s: State, out: &mut [u8]) -> Sent
    requires { Fit s × (48 ≤ length out.old) }
    ensures { Leaves (Time.remote_frames to s) (Time.remote_answered to s) out.old out.new result }
{
    replied(
        tpdo_reply(answers_remote(to, s), s),
        remote_answered(to, s),
        out,
    )
}

// ---- A tick

// Heartbeat, TPDO and the two frames of the SRDO, each where it is due. While capped an SRDO period passes unsent.
// On most ticks nothing is due: then the reading is not made. A frame goes out as soon as it is made: a loop over an array of the four takes up to 69 of
// 1,100 instructions of a tick more.
fn send_due(s: State, due: Due, out: &mut [u8]) -> usize
    requires { Fit s × ((due ≡ due_of (Time.clocked s)) × (48 ≤ length out.old)) }
    ensures { Laid (Time.tick_frames s) out.old out.new result × (result ≤ 4) }
{
    if !due.any() {
        return 0;
    }
    let id = s.core.active.id;
    let reading = reading_of(s);
    let srdo = due.srdo & !reading.integer.capped;
    let heartbeat = heartbeat_frame(id, s.core.nmt);
    let n1 = emit(out, 0, due.heartbeat.then_some(heartbeat));
    let tpdo = tpdo_frame(id, reading.integer.bits);
    let n2 = emit(out, n1, due.tpdo.then_some(tpdo));
    let first = srdo_first(s.settings.communication.srdo.first, reading.bits);
    let second = srdo_second(s.settings.communication.srdo.second, reading.bits);
    let n3 = emit(out, n2, srdo.then_some(first));
    emit(out, n3, srdo.then_some(second))
}

// The clock moves, and what is due goes out and starts anew. No EMCY can be due.
#[tactic(auto, unfolding(model::specs::Time::ticked))]
pub fn tick(s: State, out: &mut [u8]) -> Sent
    requires { Fit s × (48 ≤ length out.old) }
    ensures { Leaves (Time.tick_frames s) (Time.ticked s) out.old out.new result }
{
    let state = clocked(s);
    let due = Due::of(state);
    let n = send_due(s, due, out);
    Sent {
        count: n as u8,
        core: due.fired(state.core),
    }
}
