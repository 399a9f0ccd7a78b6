//! The words of an order, and the bytes of the files that it reads. They are read with the permissions of the person who gives
//! the order, and in that person's directory, before the order is sent to the program that serves the database.

use desk::{Folder, Job, Order, ReplayOrder, Task, files_named_in};
use order_protocol::{MAX_MESSAGE, is_message_len};
use std::alloc::{AllocError, Global};
use std::fs::File;
use std::io::{self, Read};
use store::Fault;

/// A word of an order; or a file that the order names, with its bytes, or without them if it can't be read.
#[derive(Drop)]
pub struct OrderPart {
    pub name: String,
    pub bytes: Option<Vec<u8>>,
}

/// The words of an order, and the files that it reads.
#[derive(Drop)]
pub struct OrderFiles {
    pub words: Vec<OrderPart>,
    pub files: Vec<OrderPart>,
}

impl OrderPart {
    /// Returns whether the whole file was read. If the file is longer than a message may be, only a prefix was read.
    fn is_whole(&self) -> bool {
        match &self.bytes {
            Some(bytes) => is_message_len(bytes.len()),
            None => true,
        }
    }
}

impl OrderFiles {
    /// Returns the file at a path, if it has been read.
    fn file(&self, path: &str) -> Option<&OrderPart> {
        for file in &self.files {
            if file.name.as_str() == path {
                return Some(file);
            }
        }
        None
    }
}

/// Returns the bytes of a file, at most one more than a message may have; `None` if it can't be read.
fn bytes_at(rt: &HostRuntime, path: &str) -> Option<Vec<u8>> {
    let file = File::open(rt, path).ok()?;
    let mut bytes = Vec::new(rt.alloc());
    file.take(MAX_MESSAGE as u64 + 1)
        .read_to_end(&mut bytes)
        .ok()?;
    Some(bytes)
}

/// Reads the file at a path, unless it has been read before.
fn read_file_once(
    rt: &HostRuntime,
    files: &mut Vec<OrderPart>,
    path: &str,
) -> Result<(), AllocError> {
    if files.iter().any(|file| file.name.as_str() == path) {
        return Ok(());
    }
    let bytes = bytes_at(rt, path);
    let name = String::from_str(rt.alloc(), path)?;
    files.push(OrderPart { name, bytes })?;
    Ok(())
}

/// Returns the paths that the script of an order names. The script is the first of the given files.
fn named_by(
    alloc: Global,
    files: &[OrderPart],
    asked: ReplayOrder<'_>,
) -> Result<Vec<String>, AllocError> {
    match files.first() {
        Some(
            OrderPart {
                bytes: Some(script),
                ..
            },
        ) => files_named_in(alloc, script, asked.cut),
        _ => Ok(Vec::new(alloc)),
    }
}

/// Reads the files of an order, each of them once: the order's own file, which may be a second record, and, if that is a script to
/// replay, the files that its lines name.
fn files_of(rt: &HostRuntime, order: &Order<'_>) -> Result<Vec<OrderPart>, AllocError> {
    let mut files = Vec::new(rt.alloc());
    if let Order::Second { path } = order {
        read_file_once(rt, &mut files, path)?;
    }
    let Order::Perform(task) = order else {
        return Ok(files);
    };
    if let Some(path) = task.file() {
        read_file_once(rt, &mut files, path)?;
    }
    if let Task::InOffice(Job::Replay(asked)) = task {
        for path in named_by(rt.alloc(), &files, *asked)? {
            read_file_once(rt, &mut files, path.as_str())?;
        }
    }
    Ok(files)
}

/// Returns the words of an order.
fn words_of(alloc: Global, words: &[&str]) -> Result<Vec<OrderPart>, AllocError> {
    let mut parts = Vec::new(alloc);
    for word in words {
        parts.push(OrderPart {
            name: String::from_str(alloc, word)?,
            bytes: None,
        })?;
    }
    Ok(parts)
}

/// Returns an order that reads no file, with the given words.
pub fn words_alone(alloc: Global, words: &[&str]) -> Result<OrderFiles, AllocError> {
    Ok(OrderFiles {
        words: words_of(alloc, words)?,
        files: Vec::new(alloc),
    })
}

fn order_files_of(
    rt: &HostRuntime,
    words: &[&str],
    order: &Order<'_>,
) -> Result<OrderFiles, AllocError> {
    Ok(OrderFiles {
        words: words_of(rt.alloc(), words)?,
        files: files_of(rt, order)?,
    })
}

/// Reads those parts of an order, with the given words, that are sent to a server. Fails if an allocation fails, or if a file
/// is longer than a message may be.
pub fn read_order_and_files(
    rt: &HostRuntime,
    words: &[&str],
    order: &Order<'_>,
) -> Result<OrderFiles, Fault> {
    match order_files_of(rt, words, order) {
        Ok(order_files) if order_files.files.iter().all(|file| file.is_whole()) => Ok(order_files),
        Ok(_) => Err(Fault::Store),
        Err(AllocError) => Err(Fault::Memory),
    }
}

/// The files on this machine. A file that has already been read isn't opened again, because a pipe can be read only once.
#[derive(Clone, Copy)]
pub struct LocalFolder<'a> {
    pub rt: &'a HostRuntime,
    pub brought: &'a Option<OrderFiles>,
}

/// A file that an order names: either open, or already read.
#[derive(Drop)]
pub enum FileSource<'a> {
    Open(File),
    Brought(&'a [u8]),
}

impl Read for FileSource<'_> {
    fn read(&mut self, buf: &mut [u8]) -> io::Result<usize> {
        match self {
            FileSource::Open(file) => file.read(buf),
            FileSource::Brought(bytes) => bytes.read(buf),
        }
    }
}

impl<'a> Folder for LocalFolder<'a> {
    type File = FileSource<'a>;

    fn open(&self, path: &str) -> Option<FileSource<'a>> {
        match self.brought {
            Some(order_files) => brought_or_opened(self.rt, order_files, path),
            None => opened(self.rt, path),
        }
    }
}

/// Returns the file at a path if it has already been read, and otherwise opens it; `None` if it couldn't be read or can't be
/// opened.
fn brought_or_opened<'a>(
    rt: &HostRuntime,
    order_files: &'a OrderFiles,
    path: &str,
) -> Option<FileSource<'a>> {
    match order_files.file(path) {
        Some(OrderPart { bytes, .. }) => match bytes {
            Some(bytes) => Some(FileSource::Brought(bytes.as_slice())),
            None => None,
        },
        None => opened(rt, path),
    }
}

/// Opens the file at a path; `None` if it can't be opened.
fn opened<'a>(rt: &HostRuntime, path: &str) -> Option<FileSource<'a>> {
    match File::open(rt, path) {
        Ok(file) => Some(FileSource::Open(file)),
        Err(_) => None,
    }
}
