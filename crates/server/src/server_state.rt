//! What the server keeps between requests.

ghost use Rattle.std.specs.Prelude.{◌≡◌, [], option_map};
ghost use Rattle.codes.specs.RateLimits.{limit_entry, none_wrong};
ghost use Rattle.wire.specs.Gates.{authentication_entry};
ghost use Rattle.server.specs.Reads.{memory_entry, limit_after, must_wait, reads_in};

use crate::read_cache::ReadCache;
use codes::RateLimit;
use std::alloc::Global;
use wire::{Authentication, Routes};

/// What the server keeps between requests: the cache of reads, the limit on wrong codes, the routes, which are built once, and
/// the recorder of accepted requests.
pub struct ServerState<R> {
    pub alloc: Global,
    pub routes: Routes,
    pub reads: ReadCache,
    pub limit: RateLimit,
    pub recorder: R,
}

impl<R> ServerState<R> {
    /// Returns a state with an empty cache, a limit with no wrong codes counted, the given routes, and the given recorder.
    /// Allocates nothing.
    pub fn new(alloc: Global, routes: Routes, recorder: R) -> ServerState<R>
        ensures { memory_entry result ≡ record { reads = []; limit = none_wrong; recorder = recorder } }
    {
        ServerState {
            alloc,
            routes,
            reads: ReadCache::new(alloc),
            limit: RateLimit::new(),
            recorder,
        }
    }

    /// Returns the recorder.
    pub fn into_recorder(self) -> R
        ensures { result ≡ self.recorder }
    {
        let ServerState {
            alloc: _,
            routes: _routes,
            reads: _reads,
            limit: _limit,
            recorder,
        } = self;
        recorder
    }

    /// Returns whether a client must wait at the given time: its code is wrong, and the rate limit is reached.
    pub fn must_wait(&self, authentication: Option<Authentication>, now: u64) -> bool
        ensures { result ≡ must_wait (option_map authentication_entry authentication) now (limit_entry self.now.limit) }
    {
        match authentication {
            Some(authentication) => authentication.is_wrong && self.limit.is_reached(now),
            None => false,
        }
    }

    /// Counts a wrong code, if the request carries one.
    pub fn count_if_wrong(&mut self, authentication: Option<Authentication>, now: u64)
        ensures reads { reads_in self.new.reads ≡ reads_in self.old.reads }
        ensures limit { limit_entry self.new.limit ≡ limit_after (option_map authentication_entry authentication) now (limit_entry self.old.limit) }
        ensures recorder { self.new.recorder ≡ self.old.recorder }
    {
        let Some(authentication) = authentication else {
            return;
        };
        if authentication.is_wrong {
            self.limit.count_wrong(now);
        }
    }
}
