// A timer starts anew: its start is the clock.
ghost use Rattle.std.specs.Prelude.{◌≡◌};
ghost use Rattle.model.specs.Time as Time;

use model::{Core, Parameter, Timer};

// The timer that a parameter is a period or the type of, where it is one's.
#[tactic(auto, unfolding(model::specs::Time::timer_of, model::specs::Choice::first_hit))]
pub fn timer_of(p: Parameter) -> Option<Timer>
    ensures { result ≡ Time.timer_of p }
{
    match p {
        Parameter::P1017 => Some(Timer::Heartbeat),
        Parameter::P1301s2 => Some(Timer::Srdo),
        Parameter::P1800s2 | Parameter::P1800s5 => Some(Timer::Tpdo),
        _ => None,
    }
}

// One timer's restart. With its timer the TPDO loses what it remembers.
pub fn restart_timer(timer: Timer, c: Core) -> Core
    ensures { result ≡ Time.restart (Some timer) c }
{
    let mut t = c;
    match timer {
        Timer::Heartbeat => t.timers.heartbeat = c.timers.clock,
        Timer::Srdo => t.timers.srdo = c.timers.clock,
        Timer::Tpdo => {
            t.timers.tpdo = c.timers.clock;
            t.tpdo.syncs = 0;
            t.tpdo.sample = false;
        }
    }
    t
}

// After an accepted write of a parameter: the timer that it is a period or the type of, if any, starts anew.
pub fn restart(timer: Option<Timer>, c: Core) -> Core
    ensures { result ≡ Time.restart timer c }
{
    match timer {
        Some(timer) => restart_timer(timer, c),
        None => c,
    }
}
