//! Rewrites closed segments while a store is served.

use crate::close_request::CloseRequest;
use crate::data_folder::remove;
use crate::error::FolderError;
use crate::listing::Listing;
use crate::opening::open_following;
use crate::ownership::is_owner;
use crate::rewriting::{Outcome, When, compact, length_of};
use crate::scanning::check_closed;
use crate::segment::Segment;
use std::thread;
use std::time::Duration;
use store_replay::FolderFile;

/// The pause between two looks at the folder, in milliseconds.
const PAUSE_MILLIS: u64 = 1000;

/// The number of looks at which a request waits for the end of the last segment.
const PATIENCE: u64 = 2;

/// Watches the folder of a log, to rewrite its closed segments while a store writes the last one.
///
/// It examines them when they are twice as long as what was needed of them before, and when the file `rewrite` is in the folder. In that
/// case the last segment is closed before its next frame, and the request waits for that at two looks.
/// So the bytes that it reads are, over a long time, a small multiple of those that are written.
#[derive(Drop)]
pub struct Watch {
    rt: HostRuntime,
    folder: String,
    /// The owner that this process is.
    owner: u64,
    /// The names of the store's tenants, in their order.
    tenants: Vec<String>,
    /// The length of the closed segments from which on they are examined, in bytes.
    next: u64,
    /// The number of the last segment when they were last looked at.
    last: u64,
    close: CloseRequest,
    /// The number of looks at which a request still waits, and the number of the last segment when it was made.
    asked: Option<(u64, u64)>,
}

/// Returns the length of the closed segments from which on they are examined again, in bytes.
fn next_length(outcome: Outcome) -> u64 {
    match outcome {
        Outcome::Kept(needed) => needed.saturating_mul(2),
        Outcome::Rewritten(length) => length.saturating_mul(2),
    }
}

/// Opens the closed segments of a folder, which are all files of the log but the last.
///
/// # Errors
///
/// - `Damaged`, for the first one that is missing, does not begin as a log of this version, or has not the id that follows.
/// - `File`, `Memory`
fn open_closed(
    rt: &HostRuntime,
    folder: &str,
    listing: &Listing,
) -> Result<Vec<Segment>, FolderError> {
    let files = match listing.closed_files(rt.alloc()) {
        Ok(files) => files,
        Err(error) => return Err(FolderError::of_file("read", FolderFile::Folder, error)),
    };
    let mut segments: Vec<Segment> = Vec::new(rt.alloc());
    for file in files.iter() {
        let next = open_following(rt, folder, *file, segments.last())?;
        if segments.push(next).is_err() {
            return Err(FolderError::Memory);
        }
    }
    Ok(segments)
}

impl Watch {
    /// Begins after the segments of a folder were examined with this outcome, as this owner. The store's tenants have these names, in
    /// their order. It asks by this handle for the end of the last segment.
    pub fn new(
        rt: HostRuntime,
        folder: String,
        owner: u64,
        tenants: Vec<String>,
        outcome: Outcome,
        close: CloseRequest,
    ) -> Watch {
        Watch {
            rt,
            folder,
            owner,
            tenants,
            next: next_length(outcome),
            last: 0,
            close,
            asked: None,
        }
    }

    /// Notes a request if the file `rewrite` is in the folder, and removes the file. `last` is the number of the last segment, which
    /// is closed before its next frame from then on.
    fn note_request(&mut self, last: u64) {
        let removed = remove(&self.rt, self.folder.as_str(), FolderFile::Request);
        if matches!(removed, Ok(true)) {
            self.close.set(true);
            self.asked = Some((PATIENCE, last));
        }
    }

    /// Returns whether a request is due: the last segment of that time was closed, or was not at two looks.
    fn is_due(&mut self, last: u64) -> bool {
        let Some((looks, number)) = self.asked else {
            return false;
        };
        if last == number && looks > 0 {
            self.asked = Some((looks - 1, number));
            return false;
        }
        self.asked = None;
        true
    }

    /// Rewrites the closed segments of a listing, if they are long enough or it was asked for. If one of them is missing or damaged,
    /// nothing is changed.
    fn rewrite(&mut self, listing: &Listing, is_asked: bool) -> Result<(), FolderError> {
        let mut segments = open_closed(&self.rt, self.folder.as_str(), listing)?;
        if !is_asked && length_of(segments.as_slice()) < self.next {
            return Ok(());
        }
        let when = if is_asked {
            When::Always
        } else {
            When::Wasteful
        };
        check_closed(&self.rt, segments.as_mut_slice())?;
        let number = listing.last().saturating_sub(1);
        let (folder, owner) = (self.folder.as_str(), self.owner);
        let outcome = compact(
            &self.rt,
            folder,
            owner,
            self.tenants.as_slice(),
            segments.as_mut_slice(),
            number,
            when,
        )?;
        self.next = next_length(outcome);
        Ok(())
    }

    /// Looks at the folder, and rewrites the closed segments if it is the time to.
    fn look(&mut self) -> Result<(), FolderError> {
        let listing = match Listing::read(&self.rt, self.folder.as_str()) {
            Ok(listing) => listing,
            Err(error) => return Err(FolderError::of_file("read", FolderFile::Folder, error)),
        };
        let last = listing.last();
        self.note_request(last);
        let is_asked = self.is_due(last);
        if last == self.last && !is_asked {
            return Ok(());
        }
        self.last = last;
        if last <= listing.base.saturating_add(1) {
            return Ok(()); // No segment was closed since the base was written.
        }
        self.rewrite(&listing, is_asked)
    }

    /// Returns whether another process has become the owner of the folder.
    fn is_lost(&self) -> bool {
        matches!(
            is_owner(&self.rt, self.folder.as_str(), self.owner),
            Ok(false)
        )
    }

    /// Looks at the folder again and again, until another process is its owner. If a look fails, prints why.
    pub fn run(mut self) {
        for _ in 0..u64::MAX {
            thread::sleep(&self.rt, Duration::from_millis(PAUSE_MILLIS));
            if self.is_lost() {
                return;
            }
            if let Err(error) = self.look() {
                let folder = self.folder.as_str();
                let _ = eprint!(self.rt; "blobd: the log in {folder} was not rewritten: {error}\n");
            }
        }
    }
}
