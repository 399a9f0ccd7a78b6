//! Sources of random bytes.

ghost use Rattle.std.specs.Prelude.{◌≡◌, ◌+◌, ◌-◌, ◌^◌, ◌<◌, ◌∷◌, [], IfOk, List, OnErr, OnOk, Option, ℕ};
ghost use Rattle.std.specs.Io.KnownBytes.{append_known};

/// The error from a failed draw.
#[derive(Clone, Copy, Debug, PartialEq, Eq, Drop)]
pub struct DrawFailed;

/// A source of random bytes that counts its failed draws.
pub trait RandomSource {
    /// The bytes drawn so far, if they are known.
    ghost drawn: { Self → Option (List ℕ) };

    /// The number of failed draws.
    ghost failed: { Self → ℕ };

    /// Draws a byte. If the draw fails, no byte is drawn.
    fn draw(&mut self) -> Result<u8, DrawFailed>
        requires { failed self.old < 2 ^ 64 - 1 }
        ensures drew { IfOk result (λ byte. drawn self.new ≡ append_known (drawn self.old) (byte ∷ [])) }
        ensures ok { OnOk result (failed self.new ≡ failed self.old) }
        ensures kept { OnErr result (drawn self.new ≡ drawn self.old) }
        ensures err { OnErr result (failed self.new ≡ failed self.old + 1) };
}
