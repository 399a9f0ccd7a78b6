//! An order as it is sent to the server.

/// Either a word, without bytes; or the path of a file, with the file's bytes unless it couldn't be read.
#[derive(Clone, Copy)]
pub struct MessagePart<'b> {
    pub name: &'b [u8],
    pub bytes: Option<&'b [u8]>,
}

/// An order as it is sent to the server. It contains the version of the program that sends it, and the device and inode numbers of
/// the file that it is for. Then come the words that were typed, the folder in which they were typed, and the files that the order
/// names.
#[derive(Drop)]
pub struct OrderMessage<'b> {
    pub version: &'b [u8],
    pub device: u64,
    pub inode: u64,
    pub folder: &'b [u8],
    pub words: Vec<MessagePart<'b>>,
    pub files: Vec<MessagePart<'b>>,
}
