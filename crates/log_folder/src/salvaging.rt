//! Writes a base of what is left of a damaged log.

use crate::data_folder::{DataFolder, open, remove, rename_synced, sync_folder};
use crate::error::FolderError;
use crate::listing::Listing;
use crate::rewriting::{begin_base, sync_and_mark};
use log_rewriting::RewriteError;
use log_salvage::{Gap, Header, Salvage, SalvageError, Salvaged, read_damaged_header};
use std::fs::{self, File};
use std::io::{self, BufWriter, ErrorKind, Read};
use store_replay::{Cause, Damage, FolderFile, LogPlace};

/// The start of the name of a damaged file that is kept.
const KEPT: &str = "damaged";

/// The files of a damaged log.
#[derive(Drop)]
struct DamagedLog<'w> {
    folder: &'w str,
    /// The owner that this process is.
    owner: u64,
    /// The files from the base on, also those that are missing.
    files: Vec<FolderFile>,
    /// The id of the file with the number 0, if there were one.
    origin: u64,
}

/// Returns the number of a file of a log.
fn number_of(file: FolderFile) -> u64 {
    match file {
        FolderFile::Log(number) | FolderFile::Base(number) => number,
        _ => 0,
    }
}

/// Returns the error for a file that cannot be used for its first bytes.
fn header_error(file: FolderFile, damage: Damage) -> FolderError {
    let place = LogPlace {
        file,
        place: 0,
        offset: 0,
    };
    FolderError::Damaged(place, damage)
}

/// Returns the bytes of a file, or `None` if it is missing.
fn bytes_of(
    rt: &HostRuntime,
    folder: &str,
    name: FolderFile,
) -> Result<Option<Vec<u8>>, FolderError> {
    let mut file = match open(rt, folder, name) {
        Ok(file) => file,
        Err(error) if matches!(error.kind(), ErrorKind::NotFound) => return Ok(None),
        Err(error) => return Err(FolderError::of_file("open", name, error)),
    };
    let mut bytes = Vec::new(rt.alloc());
    match file.read_to_end(&mut bytes) {
        Ok(_) => Ok(Some(bytes)),
        Err(error) => Err(FolderError::of_file("read", name, error)),
    }
}

/// Returns the id that would be that of the file with the number 0, by the header of one of its files.
fn origin_of(rt: &HostRuntime, folder: &str, name: FolderFile) -> Result<Option<u64>, FolderError> {
    let Some(bytes) = bytes_of(rt, folder, name)? else {
        return Ok(None);
    };
    match read_damaged_header(bytes.as_slice()) {
        Header::Id(id) => Ok(Some(id.wrapping_sub(number_of(name)))),
        Header::OtherVersion(version) => { Err(header_error(name, Damage::OtherVersion(version))) }
        Header::Unknown => Ok(None),
    }
}

/// Returns the number that most of the numbers are, and the first of them if several are.
fn most_frequent(numbers: &[u64]) -> Option<u64> {
    let mut found = None;
    let mut most = 0;
    for number in numbers {
        let count = numbers.iter().filter(|other| *other == number).count();
        if count > most {
            most = count;
            found = Some(*number);
        }
    }
    found
}

impl<'w> DamagedLog<'w> {
    /// Finds the files of a damaged log, and their ids: those that most of them have.
    ///
    /// # Errors
    ///
    /// - `File`, if a file cannot be read.
    /// - `Damaged`, if a file is of another version, if there are two logs, or if no file shows an id.
    /// - `Memory`
    fn find(
        rt: &HostRuntime,
        folder: &'w str,
        owner: u64,
        listing: &Listing,
    ) -> Result<DamagedLog<'w>, FolderError> {
        let files = match listing.all_files(rt.alloc()) {
            Ok(files) => files,
            Err(error) => return Err(FolderError::of_file("read", FolderFile::Folder, error)),
        };
        let mut origins = Vec::new(rt.alloc());
        for name in files.iter() {
            if let Some(origin) = origin_of(rt, folder, *name)? {
                if origins.push(origin).is_err() {
                    return Err(FolderError::Memory);
                }
            }
        }
        match most_frequent(origins.as_slice()) {
            Some(origin) => Ok(DamagedLog {
                folder,
                owner,
                files,
                origin,
            }),
            None => Err(header_error(FolderFile::Log(listing.last()), Damage::WrongSum)),
        }
    }

    /// Returns the id of the file with this number.
    fn id(&self, number: u64) -> u64 {
        self.origin.wrapping_add(number)
    }

    /// Gives each file to a salvage, and prints which parts of it are not read.
    fn read(
        &self,
        rt: &HostRuntime,
        salvage: &mut Salvage<BufWriter<&File>>,
    ) -> Result<(), FolderError> {
        let folder = self.folder;
        for name in self.files.iter() {
            match bytes_of(rt, folder, *name)? {
                Some(bytes) => {
                    let id = self.id(number_of(*name));
                    match salvage.take_file(bytes.as_slice(), id) {
                        Ok(gaps) => print_gaps(rt, folder, *name, gaps.as_slice()),
                        Err(error) => return Err(salvage_error(self.owner, *name, error)),
                    }
                }
                None => {
                    salvage.lose();
                    let _ = eprint!(rt; "blobd: lost: {folder}{name} is missing\n");
                }
            }
        }
        Ok(())
    }

    /// Writes what is left into `base.new` with this id, and syncs it.
    fn write(&self, rt: &HostRuntime, id: u64) -> Result<Salvaged, FolderError> {
        let new = FolderFile::NewBase(self.owner);
        let mut file = match begin_base(rt, self.folder, self.owner, id) {
            Ok(file) => file,
            Err(error) => return Err(FolderError::of_file("write", new, error)),
        };
        let Ok(output) = BufWriter::new(rt.alloc(), &file) else {
            return Err(FolderError::Memory);
        };
        let mut salvage = Salvage::new(rt.alloc(), output, id);
        self.read(rt, &mut salvage)?;
        let salvaged = match salvage.finish() {
            Ok(salvaged) => salvaged,
            Err(error) => return Err(salvage_error(self.owner, new, error)),
        };
        match sync_and_mark(&mut file, id, salvaged.end) {
            Ok(()) => Ok(salvaged),
            Err(error) => Err(FolderError::of_file("write", new, error)),
        }
    }

    /// Gives each file a second name, under which it is kept. A file may have it already, if an earlier start was interrupted.
    fn keep(&self, rt: &HostRuntime) -> Result<(), FolderError> {
        for name in self.files.iter() {
            match link_kept(rt, self.folder, *name) {
                Ok(()) => {}
                Err(error) => match error.kind() {
                    ErrorKind::NotFound | ErrorKind::AlreadyExists => {}
                    _ => return Err(FolderError::of_file("keep", *name, error)),
                },
            }
        }
        match sync_folder(rt, self.folder) {
            Ok(()) => Ok(()),
            Err(error) => Err(FolderError::of_file("sync", FolderFile::Folder, error)),
        }
    }
}

/// Gives a file its second name.
fn link_kept(rt: &HostRuntime, folder: &str, name: FolderFile) -> io::Result<()> {
    let kind = match name {
        FolderFile::Base(_) => "base",
        _ => "log",
    };
    let number = number_of(name);
    let kept = format!(in rt.alloc(); "{folder}/{KEPT}-{kind}-{number}")?;
    let path = name.path(rt.alloc(), folder)?;
    fs::hard_link(rt, path.as_str(), kept.as_str())
}

/// Prints which parts of a file are not read.
fn print_gaps(rt: &HostRuntime, folder: &str, name: FolderFile, gaps: &[Gap]) {
    for gap in gaps {
        let Gap { start, end } = *gap;
        let _ = eprint!(rt;
            "blobd: lost: {folder}{name} has no whole frame from byte {start} to byte {end}\n"
        );
    }
}

/// Returns the error for a log that is not salvaged.
fn salvage_error(owner: u64, name: FolderFile, error: SalvageError) -> FolderError {
    match error {
        SalvageError::Memory => FolderError::Memory,
        SalvageError::LaterKind(kind) => {
            header_error(name, Damage::Record(Cause::UnknownKind(kind)))
        }
        SalvageError::Write(RewriteError::Write(error)) => {
            FolderError::of_file("write", FolderFile::NewBase(owner), error)
        }
        SalvageError::Write(_) => {
            let error = io::Error::from(ErrorKind::FileTooLarge);
            FolderError::of_file("write", FolderFile::NewBase(owner), error)
        }
    }
}

/// Writes what is left of a damaged log into a base after all of its files, which it then replaces. The damaged files are kept under other
/// names (`damaged-log-N`, `damaged-base-N`). Prints what is lost, as far as readable records name it.
///
/// The base is synced before it gets its name. A crash leaves either the damaged log or the base.
///
/// # Errors
///
/// Then the log is as it was.
///
/// - `File`, if a file cannot be read, kept or written.
/// - `Damaged`, if no file shows the id of the log, or a file or a record is of another version.
/// - `Memory`
pub fn salvage(rt: &HostRuntime, folder: &DataFolder<'_>) -> Result<(), FolderError> {
    let (path, owner) = (folder.path, folder.ownership.owner);
    let listing = match Listing::read(rt, path) {
        Ok(listing) => listing,
        Err(error) => return Err(FolderError::of_file("read", FolderFile::Folder, error)),
    };
    let log = DamagedLog::find(rt, path, owner, &listing)?;
    let number = listing.last().saturating_add(1);
    let salvaged = match log.write(rt, log.id(number)) {
        Ok(salvaged) => salvaged,
        Err(error) => {
            let _ = remove(rt, path, FolderFile::NewBase(owner));
            return Err(error);
        }
    };
    log.keep(rt)?;
    let base = FolderFile::Base(number);
    if let Err(error) = rename_synced(rt, path, FolderFile::NewBase(owner), base) {
        return Err(FolderError::of_file("create", base, error));
    }
    for loss in salvaged.losses.iter() {
        let _ = eprint!(rt; "blobd: lost: {loss}\n");
    }
    let _ = eprint!(rt;
        "blobd: {path}{base} has what is left of the log; the damaged files are kept as {path}/{KEPT}-*\n"
    );
    Ok(())
}
