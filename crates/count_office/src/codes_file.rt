//! A file of clerks' codes: an existing one, which is read, or printed as slips to cut out, only if its permissions let nobody else
//! read it; or a new one.

ghost use Rattle.std.specs.Prelude.{◌≡◌, ◌-◌, ◌^◌, ◌<◌, IfErr, IfOk, None, OnOk, string_bytes};
ghost use Rattle.codes.specs.Drawing.{IsMadeByDraws, IsUnmadeByDraws};
ghost use Rattle.codes.specs.Making.{clerks_in, clerks_of};
ghost use Rattle.desk.specs.Pages.{IsErrorTold, Shows, Tells, outputs_of};
ghost use Rattle.origins.specs.Origins.{origin_text};
ghost use Rattle.count_office.specs.NewCodes.{IsFileOfNewCodes, IsPageOfNewCodes, IsPageOfSlips, made_page};
ghost use Rattle.count_office.specs.Serving.{untaken};

use codes::{
    ClerkRange, Codes, CodesError, CodesFault, DrawFailed, RandomSource, make, make_with_office,
};
use desk::{
    Failure, slips_of, tell_codes_and_office_made, tell_codes_fault, tell_codes_made, tell_failure,
    tell_slips,
};
use origins::Origin;
use std::alloc::Global;
use std::fs::{self, File, OpenOptions};
use std::io::{self, Read, Write};
use std::os::unix::fs::{MetadataExt, OpenOptionsExt};
use std::random::RandomSource as _;
use store::Fault;
use streams::Sink;

/// The maximum size of a file of codes, in bytes. A line for each clerk takes less than that.
const MAX_FILE: usize = 128 << 10;

/// The permission bits for the group and for others.
const RIGHTS_OF_OTHERS: u32 = 0o077;

/// The permissions of a file that only its owner may read and write.
const RIGHTS_OF_ITS_OWNER: u32 = 0o600;

/// The system's random bytes, about which nothing is known.
#[derive(Drop)]
struct SystemBytes<'a> {
    rt: &'a HostRuntime,
    failures: u64,
}

impl RandomSource for SystemBytes<'_> {
    ghost drawn = { λ _. None };

    ghost failed = { λ bytes. bytes.failures };

    fn draw(&mut self) -> Result<u8, DrawFailed> {
        let mut byte = [0];
        match self.rt.fill_bytes(&mut byte) {
            Ok(()) => Ok(byte[0]),
            Err(_) => {
                self.failures += 1;
                Err(DrawFailed)
            }
        }
    }
}

/// The user id of root.
const ROOT: u32 = 0;

/// Returns whether a file belongs to this program's user or to root, and nobody else has any permissions for it.
fn is_its_owners(file: &File) -> io::Result<bool> {
    let found = file.metadata()?;
    let is_own = found.uid() == libc::geteuid() || found.uid() == ROOT;
    Ok(is_own && found.mode() & RIGHTS_OF_OTHERS == 0)
}

/// Returns the bytes of a file, at most one more than a file of codes may have. Doesn't open pipes and devices, because opening
/// them may block.
fn bytes_of(rt: &HostRuntime, path: &str) -> Result<Vec<u8>, CodesFault> {
    match fs::metadata(rt, path) {
        Ok(found) if found.is_file() => {}
        _ => return Err(CodesFault::Unread),
    }
    let Ok(file) = File::open(rt, path) else {
        return Err(CodesFault::Unread);
    };
    match is_its_owners(&file) {
        Ok(true) => {}
        Ok(false) => return Err(CodesFault::OpenToOthers),
        Err(_) => return Err(CodesFault::Unread),
    }
    let mut bytes = Vec::new(rt.alloc());
    match file.take(MAX_FILE as u64 + 1).read_to_end(&mut bytes) {
        Ok(_) if bytes.len() <= MAX_FILE => Ok(bytes),
        _ => Err(CodesFault::Unread),
    }
}

/// Reads the codes from a file.
pub fn read_codes(rt: &HostRuntime, path: &str) -> Result<Codes, CodesError> {
    match bytes_of(rt, path) {
        Ok(bytes) => Codes::read(rt.alloc(), bytes.as_slice()),
        Err(fault) => Err(CodesError::Fault(fault)),
    }
}

/// Prints why codes were refused or weren't made, and returns the status.
pub fn tell_untaken<E: Sink>(why: CodesError, err: &mut E) -> u8
    requires { E.failed err.old < 2 ^ 64 - 1 }
    ensures { IsErrorTold E.taken E.failed err.old err.new (untaken why).err (untaken why).status result }
{
    match why {
        CodesError::Memory => tell_failure(Failure::Office(Fault::Memory), err),
        CodesError::Fault(fault) => tell_codes_fault(fault, err),
    }
}

/// Prints a page with a slip for each clerk of a file of codes, or why there is none. Returns 0; 1 for a codes fault; or 3 if an
/// allocation or an output failed.
pub fn print_slips<O: Sink, E: Sink>(
    rt: &HostRuntime,
    path: &str,
    address: Origin<'_>,
    out: &mut O,
    err: &mut E,
) -> u8
    requires out { O.failed out.old < 2 ^ 64 - 1 }
    requires err { E.failed err.old < 2 ^ 64 - 1 }
    ensures { let outputs = outputs_of O.taken O.failed E.taken E.failed in Tells (outputs out.old err.old) (outputs out.new err.new) result
        (λ _ page. IsPageOfSlips (origin_text address.entry) page) }
{
    let bytes = match bytes_of(rt, path) {
        Ok(bytes) => bytes,
        Err(fault) => return tell_codes_fault(fault, err),
    };
    match slips_of(rt.alloc(), address, bytes.as_slice()) {
        Ok(page) => tell_slips(page.as_str(), out, err),
        Err(why) => tell_untaken(why, err),
    }
}

/// Writes a text to a new file that only its owner may read. Removes the file if the text can't be written completely.
pub fn write_new(rt: &HostRuntime, path: &str, text: &[u8]) -> io::Result<()> {
    let mut file = OpenOptions::new()
        .write(true)
        .create_new(true)
        .mode(RIGHTS_OF_ITS_OWNER)
        .open(rt, path)?;
    match file.write_all(text).and_then(|_| file.sync_all()) {
        Ok(()) => Ok(()),
        Err(error) => {
            let _ = fs::remove_file(rt, path);
            Err(error)
        }
    }
}

/// Returns the text of a file of new codes for the given clerks and, if requested, for the office. The errors are those of
/// [`make`].
fn codes_for<D: RandomSource>(
    alloc: Global,
    draws: &mut D,
    clerks: ClerkRange,
    with_office: bool,
) -> Result<String, CodesError>
    requires { D.failed draws.old < 2 ^ 64 - 1 }
    ensures reads { IfOk result (λ text. IsFileOfNewCodes (clerks_of clerks) with_office (string_bytes text)) }
    ensures drawn { IfOk result (λ text. IsMadeByDraws clerks with_office (D.drawn draws.old) (D.drawn draws.new) (string_bytes text)) }
    ensures ok { OnOk result (D.failed draws.new ≡ D.failed draws.old) }
    ensures err { IfErr result (IsUnmadeByDraws clerks with_office (D.failed draws.old) (D.failed draws.new) (D.drawn draws.old) (D.drawn draws.new)) }
{
    if with_office {
        make_with_office(alloc, draws, clerks)
    } else {
        make(alloc, draws, clerks)
    }
}

/// Prints that codes were made for the given number of clerks, and whether one was made for the office. Returns the status: 0,
/// or 3 if the output fails.
fn tell_made<O: Sink, E: Sink>(with_office: bool, count: u32, out: &mut O, err: &mut E) -> u8
    requires out { O.failed out.old < 2 ^ 64 - 1 }
    requires err { E.failed err.old < 2 ^ 64 - 1 }
    ensures { let outputs = outputs_of O.taken O.failed E.taken E.failed in Shows (outputs out.old err.old) (outputs out.new err.new) (made_page with_office count) result }
{
    if with_office {
        tell_codes_and_office_made(count, out, err)
    } else {
        tell_codes_made(count, out, err)
    }
}

/// A request for a new file of codes: its path, the word that names its clerks, and whether the office gets a code too.
#[derive(Clone, Copy)]
pub struct NewCodes<'a> {
    pub path: &'a str,
    pub clerks: &'a str,
    pub with_office: bool,
}

/// Writes a new file of codes, and prints how many clerks it is for, or why it wasn't made. Returns the status: 0; 1 for a
/// codes fault; 3 if an allocation or an output failed. Never overwrites a file.
pub fn make_codes_file<O: Sink, E: Sink>(
    rt: &HostRuntime,
    asked: NewCodes<'_>,
    out: &mut O,
    err: &mut E,
) -> u8
    requires out { O.failed out.old < 2 ^ 64 - 1 }
    requires err { E.failed err.old < 2 ^ 64 - 1 }
    ensures { let outputs = outputs_of O.taken O.failed E.taken E.failed in Tells (outputs out.old err.old) (outputs out.new err.new) result
        (λ _ page. IsPageOfNewCodes (clerks_in asked.entry.clerks.now) asked.entry.with_office page) }
{
    let Some(clerks) = ClerkRange::parse(asked.clerks) else {
        return tell_codes_fault(CodesFault::NoClerks, err);
    };
    let mut bytes = SystemBytes { rt, failures: 0 };
    let text = match codes_for(rt.alloc(), &mut bytes, clerks, asked.with_office) {
        Ok(text) => text,
        Err(why) => return tell_untaken(why, err),
    };
    match write_new(rt, asked.path, text.as_bytes()) {
        Ok(()) => tell_made(asked.with_office, clerks.count() as u32, out, err),
        Err(_) => tell_codes_fault(CodesFault::Unmade, err),
    }
}
