//! The credentials of clerks and of the office.

ghost use Rattle.std.specs.Prelude.{◌≡◌, string_bytes};
ghost use Rattle.sha2.specs.Sha256.{sha256};

/// The text that a browser sends for a name and a code, and its digest.
#[derive(Drop)]
pub struct Basic {
    pub text: String,
    pub digest: [u8; 32],
    ghost is_its: { digest ≡ sha256 (string_bytes text) },
}

/// A clerk, and the text that a browser sends for this clerk and a code.
#[derive(Drop)]
pub struct Credentials {
    pub clerk: u32,
    pub basic: Basic,
}
