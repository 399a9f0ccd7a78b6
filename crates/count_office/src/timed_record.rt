//! The second record of an office on this machine: above the line of each request, a comment says when the office accepted it, and who
//! sent it.

ghost use Rattle.std.specs.Prelude.{◌≡◌, IfOk, false, string_bytes, true};
ghost use Rattle.desk.specs.Records.{Leaves};
ghost use Rattle.count_office.specs.Records.{IsComment, file_of, has_failed, sender_text};

use crate::notices::tell_second_failed;
use desk::{DurableSink, Recorder, ScriptRecord};
use register::Request;
use std::alloc::{AllocError, Global};
use std::time::{SystemTime, UNIX_EPOCH};
use streams::Broken;

/// The number of seconds in a day.
const DAY: u64 = 86_400;

/// Returns the time of day in UTC, as `21:04:07 UTC`, so many seconds after the start of 1970.
pub fn clock_text(alloc: Global, since: u64) -> Result<String, AllocError> {
    let seconds = since % DAY;
    let (hour, minute, second) = (seconds / 3_600, seconds / 60 % 60, seconds % 60);
    format!(in alloc; "{hour:02}:{minute:02}:{second:02} UTC")
}

/// Returns the time of day in UTC now; an empty text if the clock fails.
pub fn time_of_day(rt: &HostRuntime) -> Result<String, AllocError> {
    let alloc = rt.alloc();
    let since = match SystemTime::now(rt) {
        Ok(now) => now.duration_since(UNIX_EPOCH),
        Err(_) => return Ok(String::new(alloc)),
    };
    let Ok(since) = since else {
        return Ok(String::new(alloc));
    };
    clock_text(alloc, since.as_secs())
}

#[tactic(auto, unfolding(crate::specs::Records::sender_text))]
/// Returns the name of the sender of a request.
fn sender_of(alloc: Global, actor: u32) -> Result<String, AllocError>
    ensures { IfOk result (λ text. string_bytes text ≡ sender_text actor) }
{
    if actor == 0 {
        String::from_str(alloc, "the office")
    } else {
        format!(in alloc; "clerk {actor}")
    }
}

/// Returns the comment for a request that is recorded now.
fn comment_now(rt: &HostRuntime, actor: u32) -> Result<String, AllocError>
    ensures { IfOk result (λ text. IsComment actor (string_bytes text)) }
{
    let time = time_of_day(rt)?;
    let sender = sender_of(rt.alloc(), actor)?;
    if time.is_empty() {
        return Ok(sender);
    }
    format!(in rt.alloc(); "{}, {}", time.as_str(), sender.as_str())
}

/// A second record in a file at a path. A stop leaves of it what it leaves of that file.
#[derive(Drop)]
pub struct TimedRecord<'a, W> {
    rt: &'a HostRuntime,
    path: &'a str,
    script: ScriptRecord<W>,
}

impl<'a, W: DurableSink> TimedRecord<'a, W> {
    /// Returns a record that continues the file at a path.
    pub fn new(rt: &'a HostRuntime, path: &'a str, file: W) -> TimedRecord<'a, W>
        ensures file { file_of result ≡ file }
        ensures unfailed { has_failed result ≡ false }
    {
        TimedRecord {
            rt,
            path,
            script: ScriptRecord::new(rt.alloc(), file),
        }
    }

    /// Prints to standard error that the record failed, and what to do.
    fn tell_failed(&self) {
        if let Some(fault) = self.script.fault() {
            tell_second_failed(self.rt, self.path, fault);
        }
    }
}

impl<W: DurableSink> Recorder for TimedRecord<'_, W> {
    ghost records = { λ _. true };

    ghost found = { λ timed. Leaves (W.kept (file_of timed)) };

    ghost failed = { λ timed. has_failed timed };

    fn has_failed(&self) -> bool {
        self.script.has_failed()
    }

    // Without memory for the comment, it is left out.
    fn record(&mut self, request: &Request) -> Result<(), Broken> {
        if let Ok(comment) = comment_now(self.rt, request.actor) {
            self.script.set_comment(comment);
        }
        let recorded = self.script.record(request);
        if recorded.is_err() {
            self.tell_failed();
        }
        recorded
    }
}
