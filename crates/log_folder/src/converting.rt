//! Converts a log that has the bytes of all contents into one that has notes of the long ones, whose bytes go into files.

use crate::conversion::{Conversion, ConvertError};
use crate::data_folder::remove;
use crate::error::FolderError;
use crate::open_contents::{HeldContents, OpenContents};
use crate::progress::Work;
use crate::rewriting::{begin_base, length_of, replace, sync_and_mark};
use crate::segment::Segment;
use content_files::{ContentError, ContentName};
use content_folder::ContentFolder;
use log_frames::{Cursor, start_of};
use log_records::Change;
use log_rewriting::{Receiver, RecordWriter, RewriteError, give_changes};
use std::fs::File;
use std::io::{self, BufWriter, ErrorKind, Seek, SeekFrom};
use store_replay::{Cause, Damage, FolderFile, LogPlace};

/// Converts the changes of a log: those of long contents get notes in place of bytes, which it writes to their files.
#[derive(Drop)]
struct Converter<'c, 'r> {
    contents: OpenContents<'c, 'r>,
    /// The notes of a chunk.
    notes: Vec<u8>,
    /// Whether each chunk up to here was that of a session.
    is_whole: bool,
    /// The content whose file could not be written.
    failed: &'c mut Option<ContentName>,
}

impl<'c, 'r> Converter<'c, 'r> {
    /// Returns the name of the content of a session. If there can be no such session, the log is not converted further.
    fn name_of(&mut self, tenant: &[u8], number: u64) -> Option<ContentName> {
        let name = self.contents.name_of(tenant, number);
        if name.is_none() {
            self.is_whole = false;
        }
        name
    }

    /// Returns the error for a chunk that was not added to a content.
    fn error_of(&mut self, name: ContentName, error: ContentError) -> RewriteError {
        let error = match error {
            ContentError::Memory => return RewriteError::Memory,
            ContentError::Io(error) => error,
            ContentError::Fault => io::Error::from(ErrorKind::UnexpectedEof),
            ContentError::NoFiles | ContentError::Cut | ContentError::Notes => {
                io::Error::from(ErrorKind::InvalidData)
            }
        };
        *self.failed = Some(name);
        RewriteError::of_write(error)
    }

    /// Returns the change in place of a chunk of bytes.
    fn chunk<'n>(
        &'n mut self,
        tenant: &'n [u8],
        number: u64,
        bytes: &'n [u8],
    ) -> Result<Change<'n>, RewriteError> {
        let same = Change::ChunkReceived {
            tenant,
            number,
            bytes,
        };
        let Some(name) = self.name_of(tenant, number) else {
            return Ok(same);
        };
        self.notes.clear();
        match self.contents.add(name, bytes, &mut self.notes) {
            Ok(true) => Ok(Change::ChunkNoted {
                tenant,
                number,
                notes: self.notes.as_slice(),
            }),
            Ok(false) => Ok(same),
            Err(error) => Err(self.error_of(name, error)),
        }
    }

    /// Returns the change in place of a close with last bytes.
    fn seal<'n>(
        &'n mut self,
        tenant: &'n [u8],
        number: u64,
        digest: &'n [u8],
        last: &'n [u8],
    ) -> Result<Change<'n>, RewriteError> {
        let same = Change::SessionSealed {
            tenant,
            number,
            digest,
            last,
        };
        let Some(name) = self.name_of(tenant, number) else {
            return Ok(same);
        };
        self.notes.clear();
        match self.contents.close(name, last, &mut self.notes) {
            Ok(true) => Ok(Change::SealNoted {
                tenant,
                number,
                digest,
                notes: self.notes.as_slice(),
            }),
            Ok(false) => Ok(same),
            Err(error) => Err(self.error_of(name, error)),
        }
    }

    /// Takes a chunk of which the log has notes. If `is_last`, it closes the session. If these are not the notes of a chunk, the log
    /// is not converted further.
    fn noted(
        &mut self,
        tenant: &[u8],
        number: u64,
        notes: &[u8],
        is_last: bool,
    ) -> Result<(), RewriteError> {
        let Some(name) = self.name_of(tenant, number) else {
            return Ok(());
        };
        match self.contents.add_noted(name, notes, is_last) {
            Ok(()) => Ok(()),
            Err(ContentError::Notes) => {
                self.is_whole = false;
                Ok(())
            }
            Err(error) => Err(self.error_of(name, error)),
        }
    }

    /// Returns the change in place of one.
    fn converted<'n>(&'n mut self, change: Change<'n>) -> Result<Change<'n>, RewriteError> {
        if !self.is_whole {
            return Ok(change);
        }
        match change {
            Change::ChunkReceived {
                tenant,
                number,
                bytes,
            } => self.chunk(tenant, number, bytes),
            Change::SessionSealed {
                tenant,
                number,
                digest,
                last,
            } => self.seal(tenant, number, digest, last),
            Change::ChunkNoted {
                tenant,
                number,
                notes,
            } => {
                self.noted(tenant, number, notes, false)?;
                Ok(change)
            }
            Change::SealNoted {
                tenant,
                number,
                digest: _,
                notes,
            } => {
                self.noted(tenant, number, notes, true)?;
                Ok(change)
            }
            Change::SessionDropped { tenant, number } => {
                if let Some(name) = self.name_of(tenant, number) {
                    self.contents.forget(name);
                }
                Ok(change)
            }
            _ => Ok(change),
        }
    }
}

/// Writes the converted changes of a log.
#[derive(Drop)]
struct ConvertedLog<'c, 'r> {
    converter: Converter<'c, 'r>,
    records: RecordWriter<BufWriter<&'c File>>,
}

impl<'c, 'r> Receiver for ConvertedLog<'c, 'r> {
    fn receive(&mut self, change: &Change<'_>, offset: u64) -> Result<(), RewriteError> {
        let _ = offset;
        let converted = self.converter.converted(*change)?;
        self.records.add(&converted)
    }
}

/// What was written of a log.
#[derive(Clone, Copy)]
struct WrittenLog {
    /// The cursor after the last frame.
    end: Cursor,
    /// The contents in files.
    held: HeldContents,
    /// Whether each chunk was that of a session.
    is_whole: bool,
}

impl<'c, 'r> ConvertedLog<'c, 'r> {
    /// Begins a log with this id behind the header of a file. `failed` gets the name of a content whose file cannot be written.
    fn new(
        rt: &HostRuntime,
        contents: OpenContents<'c, 'r>,
        failed: &'c mut Option<ContentName>,
        file: &'c File,
        id: u64,
    ) -> Result<ConvertedLog<'c, 'r>, ConvertError> {
        let alloc = rt.alloc();
        let Ok(output) = BufWriter::new(alloc, file) else {
            return Err(ConvertError::from(FolderError::Memory));
        };
        Ok(ConvertedLog {
            converter: Converter {
                contents,
                notes: Vec::new(alloc),
                is_whole: true,
                failed,
            },
            records: RecordWriter::new(alloc, output, id, start_of(id)),
        })
    }

    /// Converts the next segment, whose first record has this offset in the joined payloads. Returns the offset after the last one.
    fn convert(
        self,
        rt: &HostRuntime,
        folder: &str,
        work: Work,
        segment: &mut Segment,
        buffer: &mut Vec<u8>,
        offset: u64,
    ) -> Result<(ConvertedLog<'c, 'r>, u64), RewriteError> {
        let id = segment.id;
        let mut input = match segment.frames(rt, folder, work) {
            Ok(input) => input,
            Err(error) => return Err(RewriteError::of_read(error)),
        };
        match give_changes(rt.alloc(), self, offset, &mut input, buffer, id) {
            Err(RewriteError::Read(error)) => {
                let error = input.get_ref().input().error(error.kind());
                Err(RewriteError::of_read(error))
            }
            done => done,
        }
    }

    /// Writes what is left.
    fn finish(self) -> Result<WrittenLog, RewriteError> {
        let ConvertedLog { converter, records } = self;
        let held = converter.contents.held();
        let is_whole = converter.is_whole;
        let end = records.finish()?;
        Ok(WrittenLog {
            end,
            held,
            is_whole,
        })
    }
}

/// Returns the error for `base.new` of an owner, if it cannot be written.
fn base_error(owner: u64, error: io::Error) -> ConvertError {
    ConvertError::from(FolderError::of_file("write", FolderFile::NewBase(owner), error))
}

/// Returns the error for the file of a content, if it cannot be written.
fn content_error(
    contents: &ContentFolder<'_>,
    name: ContentName,
    error: io::Error,
) -> ConvertError {
    match contents.path_of(name) {
        Ok(path) => ConvertError::Content { path, error },
        Err(_) => ConvertError::from(FolderError::Memory),
    }
}

/// Returns the error for a log that was not converted beyond a file, which begins at a place in the log.
fn log_error(owner: u64, start: LogPlace, error: RewriteError) -> ConvertError {
    let error = match error {
        RewriteError::Memory => FolderError::Memory,
        RewriteError::Read(error) => FolderError::of_file("read", start.file, error),
        RewriteError::Write(error) => return base_error(owner, error),
        RewriteError::NotWhole(place) => {
            let offset = start.offset.saturating_add(place);
            let place = LogPlace {
                file: start.file,
                place,
                offset,
            };
            FolderError::Damaged(place, Damage::CutOff)
        }
        RewriteError::NoRecord(_) => FolderError::Damaged(start, Damage::Record(Cause::Malformed)),
        RewriteError::TooLong | RewriteError::Broken(..) | RewriteError::Differs => {
            return base_error(owner, io::Error::from(ErrorKind::FileTooLarge));
        }
    };
    ConvertError::from(error)
}

/// The reason why a log was not converted, and where the segment begins that was converted.
#[derive(Clone, Copy)]
struct Stopped {
    start: LogPlace,
    error: RewriteError,
}

/// Converts segments one after another.
fn convert_each<'c, 'r>(
    rt: &HostRuntime,
    folder: &str,
    segments: &mut [Segment],
    log: ConvertedLog<'c, 'r>,
) -> Result<WrittenLog, Stopped> {
    let work = Work::begin(rt, "converting", length_of(segments));
    let mut log = log;
    let mut buffer = Vec::new(rt.alloc()); // One for all files, so that memory does not grow with their number.
    let mut offset = 0;
    let mut start = LogPlace {
        file: FolderFile::Folder,
        place: 0,
        offset: 0,
    };
    for segment in segments {
        start = segment.place(0);
        match log.convert(rt, folder, work, segment, &mut buffer, offset) {
            Ok((converted, after)) => {
                log = converted;
                offset = after;
            }
            Err(error) => return Err(Stopped { start, error }),
        }
    }
    match log.finish() {
        Ok(written) => Ok(written),
        Err(error) => Err(Stopped { start, error }),
    }
}

/// Converts segments into a log with this id, whose header a file has.
fn convert_segments(
    rt: &HostRuntime,
    folder: &str,
    owner: u64,
    segments: &mut [Segment],
    open: OpenContents<'_, '_>,
    contents: &ContentFolder<'_>,
    file: &File,
    id: u64,
) -> Result<WrittenLog, ConvertError> {
    let mut failed = None;
    let log = ConvertedLog::new(rt, open, &mut failed, file, id)?;
    let Stopped { start, error } = match convert_each(rt, folder, segments, log) {
        Ok(written) => return Ok(written),
        Err(stopped) => stopped,
    };
    match (failed, error) {
        (Some(name), RewriteError::Write(error)) => Err(content_error(contents, name, error)),
        (_, error) => Err(log_error(owner, start, error)),
    }
}

/// Syncs the folders of the tenants, so that a crash leaves the files of contents that an earlier process created.
fn sync_folders(contents: &ContentFolder<'_>, tenants: &[String]) -> Result<(), FolderError> {
    for index in 0..tenants.len() {
        let Ok(tenant) = u16::try_from(index) else {
            break;
        };
        if let Err(error) = contents.sync_tenant(tenant) {
            return Err(FolderError::of_file("sync", FolderFile::Folder, error));
        }
    }
    Ok(())
}

/// Converts segments into `base.new` of an owner with this id, and syncs it. Returns what was written, and the length of the file.
fn write_converted(
    rt: &HostRuntime,
    folder: &str,
    owner: u64,
    segments: &mut [Segment],
    contents: &ContentFolder<'_>,
    tenants: &[String],
    longest: u64,
    id: u64,
) -> Result<(WrittenLog, u64), ConvertError> {
    let open = OpenContents::new(rt.alloc(), contents, tenants, longest)?;
    let mut file = match begin_base(rt, folder, owner, id) {
        Ok(file) => file,
        Err(error) => return Err(base_error(owner, error)),
    };
    let written = convert_segments(rt, folder, owner, segments, open, contents, &file, id)?;
    sync_folders(contents, tenants)?;
    if let Err(error) = sync_and_mark(&mut file, id, written.end) {
        return Err(base_error(owner, error));
    }
    match file.seek(SeekFrom::End(0)) {
        Ok(length) => Ok((written, length)),
        Err(error) => Err(base_error(owner, error)),
    }
}

/// Writes a log anew, into the base up to its last segment, which has this number, as this owner. Contents of more than `longest` bytes go
/// into the files of a folder, which these tenants have, and the base has the notes of their pieces in place of their bytes. Prints how many
/// these are.
///
/// The log of the base is the one of a store that keeps such contents in files. It has the same changes. Contents of sessions that were
/// dropped are written too, unless the log was rewritten before.
///
/// Contents, their folders and the base are synced before the base takes the place of the segments. A crash leaves either. A log that was
/// converted, or in part, can be converted again.
///
/// # Errors
///
/// Before the base has its name, the log is as it was.
///
/// - `Content`, if the file of a content cannot be written.
/// - `Folder`: `File`, if a file of the log cannot be read, the base cannot be written or get its name, or a file that it replaces cannot
///   be removed. `Damaged`, if the log changed since it was opened. `Memory`.
///
/// # Memory
///
/// The longest record and the longest frame, and of each open session up to `longest` bytes and 16 bytes for each MiB.
///
/// # Cost
///
/// One sync for each chunk of a long content, and two for each of these contents.
pub fn convert(
    rt: &HostRuntime,
    folder: &str,
    owner: u64,
    segments: &mut [Segment],
    number: u64,
    contents: &ContentFolder<'_>,
    tenants: &[String],
    longest: u64,
) -> Result<Conversion, ConvertError> {
    let id = match segments.last() {
        Some(last) => last.id,
        None => {
            return Ok(Conversion {
                length: 0,
                is_whole: true,
            });
        }
    };
    let written = write_converted(rt, folder, owner, segments, contents, tenants, longest, id);
    let (written, length) = match written {
        Ok(written) => written,
        Err(error) => {
            let _ = remove(rt, folder, FolderFile::NewBase(owner));
            return Err(error);
        }
    };
    replace(rt, folder, owner, segments, number)?;
    let base = FolderFile::Base(number);
    let HeldContents { contents, bytes } = written.held;
    let _ = eprint!(rt;
        "blobd: {folder}{base} was written: {contents} contents of more than {longest} bytes, of {bytes} bytes in all, are in {folder}/contents\n"
    );
    Ok(Conversion {
        length,
        is_whole: written.is_whole,
    })
}
