//! The clerks who have codes, and the office's code.

ghost use Rattle.std.specs.Prelude.{◌≡◌, ◌&&◌, ◌==◌, IfOk, bytes_eq, is_some, map, option_map, string_bytes};
ghost use Rattle.sha2.specs.Sha256.{sha256};
ghost use Rattle.codes.specs.Codes.{basic_of, credentials_of, holder, holders_of, is_of, is_office, office_of};
ghost use Rattle.codes.specs.Files.{code_entry, holders_by, office_held};
ghost use Rattle.codes.specs.declared.credentials.Basic.{Basic};

use crate::credentials::{Basic, Credentials};
use crate::reading::CodeLine;
use base64::engine::general_purpose::STANDARD;
use sha2::{Digest, Sha256};
use std::alloc::{AllocError, Global};

/// The codes of clerks in the form that browsers send, the clerks whose codes are weak, and the office's code, if it has one.
#[derive(Drop)]
pub struct Codes {
    pub all: Vec<Credentials>,
    pub weak: Vec<u32>,
    pub office: Option<Basic>,
}

/// The name of the office in its line of a file, and in what a browser sends.
pub(crate) const OFFICE_USER_NAME: &str = "office";

/// Returns the credentials for a name and a code, as a text.
fn basic_text(alloc: Global, name: &str, code: &[u8]) -> Result<String, AllocError>
    ensures { IfOk result (λ text. string_bytes text ≡ basic_of name.now code.now) }
{
    let mut pair = format!(in alloc; "{name}:")?.into_bytes();
    pair.extend_from_slice(code)?;
    let mut text = String::from_str(alloc, "Basic ")?;
    STANDARD.encode_string(pair.as_slice(), &mut text)?;
    Ok(text)
}

/// Returns the digest of a text.
fn digest_of(text: &[u8]) -> [u8; 32]
    ensures { result ≡ sha256 text.now }
{
    Sha256::digest(text)
}

impl Basic {
    /// Returns the credentials for a name and a code.
    fn new(alloc: Global, name: &str, code: &[u8]) -> Result<Basic, AllocError>
        ensures { IfOk result (λ its. string_bytes its.text ≡ basic_of name.now code.now) }
    {
        let text = basic_text(alloc, name, code)?;
        let digest = digest_of(text.as_bytes());
        Ok(Basic { text, digest })
    }

    /// Returns true if a text equals these credentials. Compares the digests first, and the texts only if the digests are equal, so
    /// that the time taken doesn't reveal how much of the text is correct.
    fn are(&self, text: &[u8], digest: &[u8; 32]) -> bool
        requires { digest.now ≡ sha256 text.now }
        ensures { result ≡ bytes_eq text.now (string_bytes self.now.text) }
    {
        *digest == self.digest && text == self.text.as_bytes()
    }
}

impl Credentials {
    /// Returns the credentials for a clerk and a code.
    fn new(alloc: Global, clerk: u32, code: &[u8]) -> Result<Credentials, AllocError>
        ensures { IfOk result (λ its. (its.clerk ≡ clerk) × (string_bytes its.basic.text ≡ credentials_of clerk code.now)) }
    {
        let name = format!(in alloc; "{clerk}")?;
        let basic = Basic::new(alloc, name.as_str(), code)?;
        Ok(Credentials { clerk, basic })
    }
}

/// Returns true if a text is the credentials of the given clerk.
fn is_of(all: &[Credentials], clerk: u32, text: &[u8]) -> bool
    ensures { result ≡ is_of (map holder all.now) clerk text.now }
{
    let digest = digest_of(text);
    for one in all {
        if one.basic.are(text, &digest) && one.clerk == clerk {
            return true;
        }
    }
    false
}

/// Returns the credentials of the clerks in the given lines.
pub(crate) fn credentials_by(
    alloc: Global,
    lines: &[CodeLine<'_>],
) -> Result<Vec<Credentials>, AllocError>
    ensures { IfOk result (λ all. map holder all.items ≡ holders_by (map code_entry lines.now)) }
{
    let mut all = Vec::with_capacity(alloc, lines.len())?;
    for line in lines {
        all.push(Credentials::new(alloc, line.clerk, line.code)?)?;
    }
    Ok(all)
}

/// Returns the credentials of the office for a code, if it has one.
pub(crate) fn office_by(alloc: Global, code: Option<&[u8]>) -> Result<Option<Basic>, AllocError>
    ensures { IfOk result (λ own. option_map (λ (o : Basic). string_bytes o.text) own ≡ office_held (option_map (λ c. c.now) code.entry)) }
{
    let Some(code) = code else {
        return Ok(None);
    };
    Ok(Some(Basic::new(alloc, OFFICE_USER_NAME, code)?))
}

impl Codes {
    /// Returns true if a text is the credentials of the given clerk. Hashes the whole text and compares digests first, so that the
    /// time taken doesn't reveal how much of the text is correct.
    pub fn admits(&self, clerk: u32, text: &[u8]) -> bool
        ensures { result ≡ is_of (holders_of self.now) clerk text.now }
    {
        is_of(self.all.as_slice(), clerk, text)
    }

    /// Returns true if the office has a code.
    pub fn has_office(&self) -> bool
        ensures { result ≡ is_some (office_of self.now) }
    {
        self.office.is_some()
    }

    /// Returns true if a text is the credentials of the office, and false if the office has no code. Hashes the whole text and
    /// compares digests first, so that the time taken doesn't reveal how much of the text is correct.
    pub fn admits_office(&self, text: &[u8]) -> bool
        ensures { result ≡ is_office (office_of self.now) text.now }
    {
        let digest = digest_of(text);
        match &self.office {
            Some(own) => own.are(text, &digest),
            None => false,
        }
    }

    /// Returns the clerks whose codes are weak, in the order of the file. A weak code has fewer than 12 bytes other than hyphens
    /// and could be guessed.
    pub fn weak_clerks(&self) -> &[u32]
        ensures { result.now ≡ self.now.weak.items }
    {
        self.weak.as_slice()
    }
}
