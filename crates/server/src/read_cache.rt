//! The cache of reads: responses that are reused as long as nothing changes.
//!
//! The key is the resource that is read, regardless of the bytes of the request. The cache is emptied before a keying or an
//! order is processed.

ghost use Rattle.std.specs.Prelude.{◌≡◌, ◌⊎◌, ◌++◌, ◌∷◌, [], IfSome, List, true};
ghost use Rattle.std.specs.List.{Contains};
ghost use Rattle.server.specs.Reads.{ReadEntry, reads_in};

use std::alloc::Global;
use wire::{OfficeRead, Resource};

/// The maximum total size of the cached responses, in bytes.
const MAX_KEPT: usize = 16 << 20;

/// The maximum number of cached responses.
const MAX_ANSWERS: usize = 512;

/// A resource that was read, with the response.
#[derive(Drop)]
pub struct CachedRead {
    pub what: Resource,
    pub answer: Vec<u8>,
}

/// The cached responses, oldest first. All of them were produced after the last possible change.
#[derive(Drop)]
pub struct ReadCache {
    pub answers: Vec<CachedRead>,
    pub bytes: usize,
}

/// Returns whether two reads of the console are the same.
fn is_same_office_read(one: OfficeRead, other: OfficeRead) -> bool
    ensures { result ≡ true → one ≡ other }
{
    match (one, other) {
        (OfficeRead::Wards, OfficeRead::Wards) => true,
        (OfficeRead::Ward { ward }, OfficeRead::Ward { ward: other }) => ward == other,
        (OfficeRead::Batches { ward }, OfficeRead::Batches { ward: other }) => ward == other,
        (OfficeRead::Doubtful { ward }, OfficeRead::Doubtful { ward: other }) => ward == other,
        (OfficeRead::Differences { batch }, OfficeRead::Differences { batch: other }) => {
            batch == other
        }
        (OfficeRead::Papers { batch }, OfficeRead::Papers { batch: other }) => batch == other,
        (OfficeRead::Receipts { actor: None }, OfficeRead::Receipts { actor: None }) => true,
        (
            OfficeRead::Receipts { actor: Some(actor) },
            OfficeRead::Receipts { actor: Some(other) },
        ) => actor == other,
        _ => false,
    }
}

/// Returns whether two reads request the same resource.
fn is_same(one: Resource, other: Resource) -> bool
    ensures { result ≡ true → one ≡ other }
{
    match (one, other) {
        (Resource::Work { clerk }, Resource::Work { clerk: theirs }) => clerk == theirs,
        (
            Resource::Candidates { clerk, batch },
            Resource::Candidates {
                clerk: theirs,
                batch: too,
            },
        ) => clerk == theirs && batch == too,
        (
            Resource::Keyed { clerk, batch },
            Resource::Keyed {
                clerk: theirs,
                batch: too,
            },
        ) => clerk == theirs && batch == too,
        (Resource::Sheet { ward }, Resource::Sheet { ward: other }) => ward == other,
        (Resource::Declaration { ward }, Resource::Declaration { ward: other }) => ward == other,
        (Resource::Office(read), Resource::Office(other)) => is_same_office_read(read, other),
        _ => false,
    }
}

impl ReadCache {
    /// Returns an empty cache. Allocates nothing.
    pub fn new(alloc: Global) -> ReadCache
        ensures { reads_in result ≡ [] }
    {
        ReadCache {
            answers: Vec::new(alloc),
            bytes: 0,
        }
    }

    /// Empties the cache.
    pub fn empty(&mut self)
        ensures { reads_in self.new ≡ [] }
    {
        self.answers.clear();
        self.bytes = 0;
    }

    /// Returns a copy of the cached response to a read; `None` if there is no such response, or if the copy can't be allocated.
    pub fn get(&self, alloc: Global, what: Resource) -> Option<Vec<u8>>
        ensures { IfSome result (λ answer. (entry : ReadEntry) × Contains (reads_in self.now) entry × (entry.what ≡ what) × (entry.answer ≡ answer.items)) }
    {
        for kept in &self.answers {
            if is_same(kept.what, what) {
                return match Vec::from_slice(alloc, kept.answer.as_slice()) {
                    Ok(answer) => Some(answer),
                    Err(_) => None,
                };
            }
        }
        None
    }

    /// Removes the oldest responses until `more` bytes fit.
    fn evict_oldest(&mut self, more: usize)
        ensures { (gone : List ReadEntry) × (reads_in self.old ≡ gone ++ reads_in self.new) }
    {
        for _ in 0..MAX_ANSWERS {
            let is_full = self.answers.len() >= MAX_ANSWERS;
            if !is_full && self.bytes.saturating_add(more) <= MAX_KEPT {
                return;
            }
            if self.answers.is_empty() {
                return;
            }
            let oldest = self.answers.remove(0);
            self.bytes = self.bytes.saturating_sub(oldest.answer.len());
        }
    }

    /// Adds the response to a read, removing the oldest responses if the cache is full. Adds nothing if the response is too
    /// long or an allocation fails.
    pub fn keep(&mut self, alloc: Global, what: Resource, answer: &[u8])
        ensures { (gone kept : List ReadEntry) × (reads_in self.old ≡ gone ++ kept)
            × ((reads_in self.new ≡ kept) ⊎ (reads_in self.new ≡ kept ++ record { what = what; answer = answer.now } ∷ [])) }
    {
        if answer.len() > MAX_KEPT {
            return;
        }
        self.evict_oldest(answer.len());
        let Ok(answer) = Vec::from_slice(alloc, answer) else {
            return;
        };
        let len = answer.len();
        if self.answers.push(CachedRead { what, answer }).is_ok() {
            self.bytes = self.bytes.saturating_add(len);
        }
    }
}
