//! What serving an office requires of a machine: its files of clerks' codes, its network, and the identity of the office's file.
//!
//! `serving.rt` serves on any host, and uses nothing else on the machine except a connection and the error output. The machine
//! that the program runs on is a host (`localhost.rt`) about which nothing is known. The contracts in `serving.rt` also hold on
//! a host for which it is known what its files contain and what has arrived on each port.

ghost use Rattle.std.specs.Prelude.{◌≡◌, ◌≢◌, IfOk, IfSome, Option, ℕ};
ghost use Rattle.connections.specs.Tables.{NetworkEntry};
ghost use Rattle.server.specs.declared.server_settings.FileNumbers.{FileNumbers};
ghost use Rattle.count_office.specs.Hosts.{CodeFiles, IsReadAs};

use codes::{Codes, CodesError};
use connections::Network;
use desk::Failure;
use server::{FileNumbers, ServedFile};

/// An open network, what orders need in addition to the office, and the device and inode numbers of the office's file.
#[derive(Drop)]
pub struct Opened<D, A> {
    pub network: D,
    pub served_file: A,
    pub file: FileNumbers,
}

/// A machine on which an office can be served.
pub trait Host {
    type Sockets: Network;

    type OfficeFile: ServedFile;

    /// The network on each port, before it is opened and after it is closed, as far as it is known.
    ghost known: { Self → ℕ → NetworkEntry Self.Sockets.Stream };

    /// The codes in the file at each path, as far as they are known.
    ghost codes_at: { Self → CodeFiles };

    /// The device and inode numbers of the office's file, if they are known.
    ghost file: { Self → Option FileNumbers };

    /// Reads a file of clerks' codes.
    fn read_codes(&self, path: &str) -> Result<Codes, CodesError>
        ensures { IsReadAs (codes_at self.now path.now) result };

    /// Opens the network on a port.
    fn open(&mut self, port: u32) -> Result<Opened<Self::Sockets, Self::OfficeFile>, Failure>
        ensures known { IfOk result (λ opened. Self.Sockets.known opened.network ≡ known self.old port) }
        ensures file { IfOk result (λ opened. IfSome (file self.old) (λ numbers. opened.file ≡ numbers)) }
        ensures same { known self.new ≡ known self.old };

    /// Closes the network on a port.
    fn close(&mut self, port: u32, opened: Opened<Self::Sockets, Self::OfficeFile>)
        ensures known { known self.new port ≡ Self.Sockets.known opened.network }
        ensures others { (other : ℕ) → other ≢ port → known self.new other ≡ known self.old other };
}
