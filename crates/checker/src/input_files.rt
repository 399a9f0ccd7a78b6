//! The source of the files.

ghost use Rattle.std.specs.Prelude.{◌≡◌, map, string_bytes, IfOk, IfErr};

/// The reason why a file, or a folder's list of names, wasn't read.
#[derive(Drop)]
pub enum NotRead {
    /// It can't be read, for the given reason.
    Because(String),
    /// An allocation failed.
    Memory,
}

/// A reader of files and folders by path.
pub trait InputFiles {
    ghost use Rattle.checker.specs.InputFiles.{InputFiles, Holds, HoldsInside, HoldsNames, AreNamesUnreadBy, IsUnreadBy, IsUnreadInside, nothing_known};

    /// The contents at each path and in each folder, as far as they are known.
    ghost held: { Self → InputFiles } = { λ _. nothing_known };

    /// Returns the bytes of the file at the given path, or the reason why it can't be read.
    fn read(&self, path: &str) -> Result<Vec<u8>, NotRead>
        ensures ok { IfOk result (λ bytes. Holds (held self.now) path.now bytes.items) }
        ensures err { IfErr result (λ why. IsUnreadBy (held self.now) path.now why) };

    /// Returns the names of all that is in the folder at the given path, or the reason why they can't be read.
    fn names(&self, path: &str) -> Result<Vec<String>, NotRead>
        ensures ok { IfOk result (λ names. HoldsNames (held self.now) path.now (map string_bytes names.items)) }
        ensures err { IfErr result (λ why. AreNamesUnreadBy (held self.now) path.now why) };

    /// Returns the bytes of the file with the given name in the folder at the given path, or the reason why it can't be read. A link
    /// isn't followed.
    fn read_inside(&self, path: &str, name: &str) -> Result<Vec<u8>, NotRead>
        ensures ok { IfOk result (λ bytes. HoldsInside (held self.now) path.now name.now bytes.items) }
        ensures err { IfErr result (λ why. IsUnreadInside (held self.now) path.now name.now why) };
}
