//! The folder in which the files named by an order or a script are opened.

ghost use Rattle.std.specs.Prelude.{◌≡◌, IfSome, None, option_map};
ghost use Rattle.clap.specs.Words.{Text};
ghost use Rattle.desk.specs.Folders.{Folder};

use std::io::Read;

/// Something that opens files by path.
pub trait Folder {
    type File: Read + Drop;

    ghost held: { Self → Folder } = { λ _ _. None };

    /// Opens the file at a path. Returns None if it can't be opened.
    fn open(&self, path: &str) -> Option<Self::File>
        ensures { IfSome (held self.now path.now) (λ file. option_map Self.File.remaining result ≡ file) };
}
