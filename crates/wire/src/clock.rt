// The clock of 1 ms ticks, which wraps, and timers over it.
ghost use Rattle.std.specs.Prelude.{◌≡◌};
ghost use Rattle.model.specs.Clock as Clock;

// The clock after one more tick.
pub fn next(clock: u16) -> u16
    ensures { result ≡ Clock.next clock }
{
    clock.wrapping_add(1)
}

// The time since a timer's start.
pub fn elapsed(clock: u16, start: u16) -> u16
    ensures { result ≡ Clock.elapsed clock start }
{
    clock.wrapping_sub(start)
}

// Whether a timer's period has passed. Clock, start and period come apart, as C's state has them.
pub fn fires(clock: u16, start: u16, period: u16) -> bool
    ensures { result ≡ Clock.fires clock start period }
{
    period <= elapsed(clock, start)
}

// The same, for a period whose 0 means off.
pub fn fires_unless_off(clock: u16, start: u16, period: u16) -> bool
    ensures { result ≡ Clock.fires_unless_off clock start period }
{
    period != 0 && fires(clock, start, period)
}
