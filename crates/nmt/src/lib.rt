// NMT: the commands and the resets, and the state that a power-on resets.
#![tactic(auto)]

ghost use Rattle.std.specs.Prelude.{◌≡◌, ◌≤◌};
ghost use Rattle.model.specs.Store.{Saved, address_from};
ghost use Rattle.model.specs.Nmt as Nmt;
ghost use Rattle.model.specs.Step as Step;

pub mod commands; // the commands, by their bytes

use commands::{Command, UnknownCommand};
use model::{
    Address, Core, Frame, Fv, Groups, Identity, NO_SELECTION, NO_UPLOAD, OPERATIONAL,
    PRE_OPERATIONAL, STOPPED, Sending, Settings, State, Timer, Timers, VALID,
};
use settings::table::defaults;
use time::frames::heartbeat_frame;
use time::restarts::restart_timer;

// ---- Start, Stop and Pre-operational. Fields are set one by one: struct update over a whole `Core` takes up to 75 instructions more in a reset

// A command is for the node with its ID, or for all.
pub fn is_for(to: u8, id: u8) -> bool
    ensures { result ≡ Nmt.is_for to id }
{
    to == 0 || to == id
}

// Into another NMT state than Pre-operational, which ends LSS if it is left. The state stays a byte, as C's struct has it.
#[tactic(auto, unfolding(model::specs::Nmt::lss_left))]
fn leave_for(nmt: u8, c: Core) -> Core
    ensures { result ≡ Nmt.leave_for nmt c }
{
    let mut t = c;
    t.nmt = nmt;
    if c.nmt == PRE_OPERATIONAL {
        t.lss = NO_SELECTION;
    }
    t
}

// Start is obeyed with valid application parameters and, where the SRDO is on, valid ones of the SRDO.
#[tactic(auto, unfolding(model::specs::Nmt::start_obeyed))]
pub fn start_obeyed(k: Settings) -> bool
    ensures { result ≡ Nmt.start_obeyed k }
{
    k.application.valid == VALID
        && (k.communication.srdo.direction == 0 || k.communication.valid == VALID)
}

// Start: on the way into Operational TPDO and SRDO begin anew; a node that is there already stays as it is.
#[tactic(auto, unfolding(model::specs::Nmt::start))]
pub fn start(k: Settings, c: Core) -> Core
    ensures { result ≡ Nmt.start k c }
{
    if c.nmt != OPERATIONAL && start_obeyed(k) {
        restart_timer(
            Timer::Srdo,
            restart_timer(Timer::Tpdo, leave_for(OPERATIONAL, c)),
        )
    } else {
        c
    }
}

// Stop, which ends an upload.
#[tactic(auto, unfolding(model::specs::Nmt::stop))]
pub fn stop(c: Core) -> Core
    ensures { result ≡ Nmt.stop c }
{
    let mut stopped = leave_for(STOPPED, c);
    stopped.upload = NO_UPLOAD;
    stopped
}

// The command Pre-operational, which ends nothing.
pub fn pre_operational(c: Core) -> Core
    ensures { result ≡ Nmt.pre_operational_core c }
{
    let mut t = c;
    t.nmt = PRE_OPERATIONAL;
    t
}

// What a command other than a reset does. It comes as the frame's byte, here and below: `commanded` answers every one.
#[tactic(auto, unfolding(model::specs::Nmt::obeyed, model::specs::Choice::first_hit))]
pub fn obeyed(command: u8, k: Settings, c: Core) -> Core
    ensures { result ≡ Nmt.obeyed command k c }
{
    match Command::try_from(command) {
        Ok(Command::Start) => start(k, c),
        Ok(Command::Stop) => stop(c),
        Ok(Command::PreOperational) => pre_operational(c),
        Ok(Command::ResetNode | Command::ResetCommunication) | Err(UnknownCommand) => c,
    }
}

// The same for a command that may be another node's.
#[tactic(auto, unfolding(model::specs::Nmt::commanded))]
pub fn commanded(command: u8, to: u8, s: State) -> Core
    ensures { result ≡ Nmt.commanded command to s }
{
    if is_for(to, s.core.active.id) {
        obeyed(command, s.settings, s.core)
    } else {
        s.core
    }
}

// ---- Resets

// Where A is loaded too FV goes to 0, and the saved pair is active and pending; else the bit indexes stay.
#[tactic(auto, unfolding(model::specs::Nmt::readied))]
fn readied(gs: Groups, id: u8, bit: u8, c: Core) -> Core
    ensures { (sv : Saved) → (address_from sv).bit ≡ bit → result ≡ Nmt.readied gs id sv c }
{
    let mut t = c;
    match gs {
        Groups::Both => {
            t.active = Address { id, bit };
            t.pending = t.active;
            t.fv = Fv(0);
        }
        Groups::OnlyC => {
            t.active.id = id;
            t.pending.id = id;
        }
        Groups::OnlyA => {}
    }
    t
}

// Into Pre-operational with upload, LSS and the reported flag ended, and every timer restarted.
#[tactic(auto, unfolding(model::specs::Nmt::cleared))]
pub fn cleared(c: Core) -> Core
    ensures { result ≡ Nmt.cleared c }
{
    let mut t = pre_operational(c);
    t.lss = NO_SELECTION;
    t.upload = NO_UPLOAD;
    t.reported = false;
    restart_timer(
        Timer::Srdo,
        restart_timer(Timer::Tpdo, restart_timer(Timer::Heartbeat, t)),
    )
}

// Start by itself, where 2330h is 1.
#[tactic(auto, unfolding(model::specs::Nmt::auto_start))]
pub fn auto_start(k: Settings, c: Core) -> Core
    ensures { result ≡ Nmt.auto_start k c }
{
    if k.application.autostart == 1 {
        start(k, c)
    } else {
        c
    }
}

// The core after a load of these groups, with the parameters k that were loaded and the ID that becomes active.
// `bit` is the bit index that the store has: of what is saved nothing else is needed.
#[tactic(auto, unfolding(model::specs::Nmt::reset))]
pub fn reset(gs: Groups, id: u8, bit: u8, k: Settings, c: Core) -> Core
    ensures { (sv : Saved) → (address_from sv).bit ≡ bit → result ≡ Nmt.reset gs id sv k c }
{
    auto_start(k, cleared(readied(gs, id, bit, c)))
}

// The boot-up is a heartbeat with 0 for the NMT state. The Node-ID's bound is a clause here as in `time`.
pub fn boot_up(id: u8) -> Frame
    requires { id ≤ 127 }
    ensures { result ≡ Nmt.boot_up id }
{
    heartbeat_frame(id, 0)
}

// ---- Before the power-on

// A state at clock 0: the load leaves only the identity and the clock of it.
pub fn unborn(identity: Identity) -> State
    ensures { result ≡ Step.unborn identity }
{
    let address = Address { id: 1, bit: 3 };
    State {
        identity,
        settings: defaults(1),
        core: Core {
            active: address,
            pending: address,
            nmt: PRE_OPERATIONAL,
            reported: false,
            fv: Fv(0),
            timers: Timers {
                clock: 0,
                heartbeat: 0,
                tpdo: 0,
                srdo: 0,
            },
            tpdo: Sending {
                syncs: 0,
                sample: false,
            },
            lss: NO_SELECTION,
            upload: NO_UPLOAD,
        },
    }
}
