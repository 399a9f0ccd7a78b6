//! The second record of an office: a script of its accepted requests on another disk, in case the office's own is lost.
//!
//! Each accepted request is recorded before it is acknowledged. Once a record has failed, nothing more is recorded.

ghost use Rattle.std.specs.Prelude.{◌≡◌, Bool, OnErr, OnOk, true, false};
ghost use Rattle.clap.specs.Words.{Text};
ghost use Rattle.desk.specs.Records.{Records};

use register::Request;
use streams::Broken;

/// Something that records the requests that an office accepts.
pub trait Recorder {
    /// Whether there is a record at all.
    ghost records: { Self → Bool };

    /// The texts that a stop may leave of the record.
    ghost found: { Self → Text → Type 0 };

    /// Whether the record failed. Nothing is recorded from then on.
    ghost failed: { Self → Bool };

    /// Returns whether the record failed.
    fn has_failed(&self) -> bool
        ensures value { result ≡ failed self.now }
        ensures recorded { failed self.now ≡ true → records self.now ≡ true };

    /// Records a request that the office has accepted. When this returns `Ok`, the request survives a stop.
    ///
    /// After `Broken`, the record has failed: a stop leaves it with this request, or without it.
    fn record(&mut self, request: &Request) -> Result<(), Broken>
        ensures recorded { failed self.old ≡ false → Records request.now (found self.old) (found self.new) (failed self.new) }
        ensures ok { OnOk result ((failed self.old ≡ false) × (failed self.new ≡ false)) }
        ensures err { OnErr result ((records self.old ≡ true) × (failed self.new ≡ true)) }
        ensures same { records self.new ≡ records self.old };
}

/// No second record.
#[derive(Drop)]
pub struct NoRecord;

impl Recorder for NoRecord {
    ghost records = { λ _. false };

    ghost found = { λ _ _. ⊥ };

    ghost failed = { λ _. false };

    fn has_failed(&self) -> bool {
        false
    }

    fn record(&mut self, _request: &Request) -> Result<(), Broken> {
        Ok(())
    }
}
