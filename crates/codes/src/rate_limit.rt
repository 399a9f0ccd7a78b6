//! The limit on wrong codes.

ghost use Rattle.std.specs.Prelude.{◌≡◌};
ghost use Rattle.codes.specs.RateLimits.{counted, is_current, is_reached, limit_entry, none_wrong};

/// The maximum number of wrong codes per minute, 100 a second, which is far more than tellers can mistype.
const MOST_WRONG: u32 = 6_000;

/// A minute, in milliseconds.
const MINUTE: u64 = 60_000;

/// The number of wrong codes that all clients together have sent in the current minute. `since` is the time at which the minute
/// began, in milliseconds on some clock.
///
/// Only wrong codes are limited. A request with a correct code is accepted however many wrong codes have been sent.
#[derive(Clone, Copy)]
pub struct RateLimit {
    pub since: u64,
    pub count: u32,
}

impl RateLimit {
    /// Returns the limit before any wrong code has been sent.
    pub fn new() -> RateLimit
        ensures { limit_entry result ≡ none_wrong }
    {
        RateLimit { since: 0, count: 0 }
    }

    /// Returns true if the minute isn't over. If the clock is set back, the minute lasts longer, which does no harm because a
    /// correct code never has to wait.
    fn is_current(&self, now: u64) -> bool
        ensures { result ≡ is_current (limit_entry self.now) now }
    {
        now.saturating_sub(self.since) < MINUTE
    }

    /// Returns true if the number of wrong codes that were sent in the current minute has reached the limit.
    pub fn is_reached(&self, now: u64) -> bool
        ensures { result ≡ is_reached (limit_entry self.now) now }
    {
        self.count >= MOST_WRONG && self.is_current(now)
    }

    /// Counts a wrong code, either in the current minute, up to the limit, or as the first one of a new minute.
    pub fn count_wrong(&mut self, now: u64)
        ensures { limit_entry self.new ≡ counted now (limit_entry self.old) }
    {
        if self.is_current(now) {
            self.count = self.count.saturating_add(1).min(MOST_WRONG);
        } else {
            self.since = now;
            self.count = 1;
        }
    }
}
