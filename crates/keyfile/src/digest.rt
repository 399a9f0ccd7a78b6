//! The digest that a file can be required to have, which identifies the file.

ghost use Rattle.std.specs.Prelude.{◌≡◌, ◌≢◌, ◌↔◌, ◌⊎◌, IsTrue, IfErr, IfOk, option_map, true};
ghost use Rattle.sha2.specs.Sha256.{sha256};
ghost use Rattle.keyfile.specs.Digests.{digest_bytes, digest_in};
ghost use Rattle.keyfile.specs.Faults.{is_stop, tells_failed_read};
ghost use Rattle.keyfile.specs.Reading.{Known};

use crate::fault::{FileFault, Flaw, at_record};
use crate::watched::LastRead;
use hex::FromHex;
use sha2::{Digest, Sha256};
use std::alloc::Global;
use std::io::Read;

/// A SHA-256 digest.
#[derive(Clone, Copy, Debug)]
pub struct FileDigest {
    bytes: [u8; 32],
}

impl FileDigest {
    /// Parses a digest of 64 hexadecimal digits in upper or lower case. Returns None for any other text.
    pub fn parse(text: &str) -> Option<FileDigest>
        ensures { option_map digest_bytes result ≡ digest_in text.now }
    {
        match <[u8; 32] as FromHex>::from_hex(text) {
            Ok(bytes) => Some(FileDigest { bytes }),
            Err(_) => None,
        }
    }

    /// Returns true if the bytes have this digest.
    fn is_of(self, bytes: &[u8]) -> bool
        ensures { IsTrue result ↔ (sha256 bytes.now ≡ digest_bytes self) }
    {
        let digest = Sha256::digest(bytes);
        digest.as_slice() == self.bytes.as_slice()
    }
}

/// Returns all bytes of a file with this digest. Fails if the file has a different digest (`OtherFile`), its last read failed
/// (`ReadFailed`), or an allocation failed (`Memory`). The whole file is read into memory, however long it is.
pub(crate) fn read_whole<R: Read + LastRead>(
    alloc: Global,
    file: &mut R,
    digest: FileDigest,
) -> Result<Vec<u8>, FileFault>
    ensures digest { IfOk result (λ bytes. sha256 bytes.items ≡ digest_bytes digest) }
    ensures bytes { IfOk result (λ bytes. Known (R.remaining file.old) (λ own. own ≡ bytes.items)) }
    ensures start { IfErr result (λ fault. fault.record_number ≡ 0) }
    ensures why { IfErr result (λ fault. (is_stop fault.flaw ≡ true) ⊎ ((fault.flaw ≡ Flaw.OtherFile) × Known (R.remaining file.old) (λ own. sha256 own ≢ digest_bytes digest))) }
    ensures failed { tells_failed_read result ≡ R.failed file.new }
{
    let mut bytes = Vec::new(alloc);
    let read = file.read_to_end(&mut bytes);
    if file.has_failed() {
        return at_record(0, Err(Flaw::ReadFailed));
    }
    let outcome = match read {
        Ok(_) if digest.is_of(&bytes) => Ok(bytes),
        Ok(_) => Err(Flaw::OtherFile),
        Err(_) => Err(Flaw::Memory),
    };
    at_record(0, outcome)
}
