// A tick: the clock moves first, then the timers look at it.
ghost use Rattle.std.specs.Prelude.{◌≡◌, ◌||◌};
ghost use Rattle.model.specs.Time as Time;
ghost use Rattle.time.specs.Told.{due_of};

use super::sync::is_timed;
use model::{Core, OPERATIONAL, State, Transmission};
use wire::clock::{fires, fires_unless_off, next};

// What is due at a tick. The sender goes by it too.
#[derive(Clone, Copy)]
pub struct Due {
    pub heartbeat: bool,
    pub tpdo: bool,
    pub srdo: bool,
}

// The state with the clock moved.
pub fn clocked(s: State) -> State
    ensures { result ≡ Time.clocked s }
{
    let mut t = s;
    let clock = next(s.core.timers.clock);
    t.core.timers.clock = clock;
    t
}

// The heartbeat is due in every NMT state.
#[tactic(auto, unfolding(model::specs::Time::heartbeat_due))]
fn heartbeat_due(s: State) -> bool
    ensures { result ≡ Time.heartbeat_due s }
{
    fires_unless_off(
        s.core.timers.clock,
        s.core.timers.heartbeat,
        s.settings.communication.heartbeat,
    )
}

// The TPDO is due by its event timer in Operational.
#[tactic(auto, unfolding(model::specs::Time::tpdo_due))]
fn tpdo_due(s: State) -> bool
    ensures { result ≡ Time.tpdo_due s }
{
    let timed = is_timed(Transmission::from(s.settings.communication.tpdo.kind));
    let fired = fires_unless_off(
        s.core.timers.clock,
        s.core.timers.tpdo,
        s.settings.communication.tpdo.period,
    );
    (s.core.nmt == OPERATIONAL) & (timed & fired)
}

// The SRDO is due in Operational, where its direction is to send.
#[tactic(auto, unfolding(model::specs::Time::srdo_due))]
fn srdo_due(s: State) -> bool
    ensures { result ≡ Time.srdo_due s }
{
    let fired = fires(
        s.core.timers.clock,
        s.core.timers.srdo,
        s.settings.communication.srdo.refresh,
    );
    (s.core.nmt == OPERATIONAL) & ((s.settings.communication.srdo.direction == 1) & fired)
}

// A timer's start: the clock where it fires.
fn start_after(fired: bool, clock: u16, start: u16) -> u16
    ensures { result ≡ Time.start_after fired clock start }
{
    if fired { clock } else { start }
}

impl Due {
    // What is due in a state whose clock has moved.
    pub fn of(s: State) -> Due
        ensures { result ≡ due_of s }
    {
        Due {
            heartbeat: heartbeat_due(s),
            tpdo: tpdo_due(s),
            srdo: srdo_due(s),
        }
    }

    // Whether anything is.
    pub fn any(self) -> bool
        ensures { result ≡ (self.heartbeat || (self.tpdo || self.srdo)) }
    {
        self.heartbeat | (self.tpdo | self.srdo)
    }

    // What was due starts anew, and a TPDO uses up the sample.
    pub fn fired(self, c: Core) -> Core
        ensures { result ≡ Time.fired self.heartbeat self.tpdo self.srdo c }
    {
        let now = c.timers.clock;
        let mut t = c;
        t.timers.heartbeat = start_after(self.heartbeat, now, c.timers.heartbeat);
        t.timers.tpdo = start_after(self.tpdo, now, c.timers.tpdo);
        t.timers.srdo = start_after(self.srdo, now, c.timers.srdo);
        t.tpdo.sample = !self.tpdo & c.tpdo.sample;
        t
    }
}

// The core after a tick.
#[tactic(auto, unfolding(model::specs::Time::ticked))]
pub fn ticked(s: State) -> Core
    ensures { result ≡ Time.ticked s }
{
    let t = clocked(s);
    Due::of(t).fired(t.core)
}
