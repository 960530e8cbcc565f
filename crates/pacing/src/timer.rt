//! What shows the time and waits.
ghost use Rattle.std.specs.Prelude.{◌≡◌, ◌≤◌, ℕ, IfSome, true};

/// How often it is tried at most to wait for a time: a wait may end early.
const MOST_NAPS: u32 = 1_000;

/// Shows the time, in nanoseconds since some beginning, and waits.
pub trait Timer {
    /// The time that it showed last.
    ghost time: { Self → ℕ };

    /// The time; none if there is no clock.
    fn now(&mut self) -> Option<u64>
        ensures { IfSome result (λ now. now ≡ time self.new) };

    /// Waits so many nanoseconds, or fewer.
    fn pause(&mut self, nanos: u64);
}

/// Waits until a time, and answers whether it has come; it hasn't if there is no clock.
pub fn wait_until<T: Timer>(timer: &mut T, time: u64) -> bool
    ensures { result ≡ true → time ≤ T.time timer.new }
{
    for _ in 0..MOST_NAPS {
        let Some(now) = timer.now() else {
            return false;
        };
        if time <= now {
            return true;
        }
        timer.pause(time - now);
    }
    false
}
