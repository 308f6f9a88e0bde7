//! Makes the next segment of a log in a folder.

ghost use Rattle.std.specs.Prelude.{◌≡◌, IfOk};
ghost use Rattle.segmented_disk.specs.Views.{starting};

use crate::close_request::CloseRequest;
use crate::data_folder::{create, rename_synced};
use crate::ownership::{check_owner, is_owner};
use framed_disk::FramedDisk;
use log_disk::{DiskError, FileDisk};
use segmented_disk::{BytesCell, NoBytes, SegmentFolder};
use std::alloc::AllocError;
use std::io::{self, ErrorKind};
use std::marker::Model;
use store_replay::FolderFile;

/// The folder of a log, as the place where its next segment is made.
///
/// Contracts see what it has published since it was made.
#[derive(Drop)]
pub struct NextSegments {
    rt: HostRuntime,
    folder: String,
    /// The owner that this process is.
    owner: u64,
    /// The number of the last segment.
    number: u64,
    /// Its id.
    id: u64,
    /// By it the last segment is asked to close.
    close: CloseRequest,
    /// The payloads of the segments that have ended.
    ended: BytesCell,
    /// The payloads up to which it was confirmed that this process is the owner.
    confirmed: BytesCell,
}

impl Model for NextSegments {
    ghost use Rattle.segmented_disk.specs.Views.{FolderView};

    ghost Value = { FolderView };

    ghost view = { λ f. record { ended = f.ended; last_id = f.id; confirmed = f.confirmed } };
}

impl NextSegments {
    /// Continues the segments of a folder after the one with this number and id, as this owner. The last one is closed at a request.
    ///
    /// # Errors
    ///
    /// `AllocError` if memory runs out.
    pub fn after(
        rt: HostRuntime,
        folder: String,
        owner: u64,
        number: u64,
        id: u64,
        close: CloseRequest,
    ) -> Result<NextSegments, AllocError>
        ensures { IfOk result (λ f. f ≡ starting id) }
    {
        let ended = BytesCell::new::<NoBytes>(rt.alloc())?;
        let confirmed = BytesCell::new::<NoBytes>(rt.alloc())?;
        Ok(NextSegments {
            rt,
            folder,
            owner,
            number,
            id,
            close,
            ended,
            confirmed,
        })
    }
}

impl SegmentFolder<FileDisk> for NextSegments {
    ghost published = { λ f. f };

    /// Returns whether the last segment is to be closed by request.
    fn wants_next(&self) -> bool {
        self.close.is_made()
    }

    /// Makes `log.new`. Its id follows that of the last segment.
    fn create(&mut self) -> Result<(FileDisk, u64), DiskError> {
        let name = FolderFile::NewLog(self.owner);
        let file = create(&self.rt, self.folder.as_str(), name)?;
        let disk = FileDisk::new::<NoBytes>(self.rt.alloc(), file, 0)?;
        Ok((disk, self.id.wrapping_add(1)))
    }

    /// Gives `log.new` the next number, and syncs the folder. The call fails if another process is the owner.
    fn publish(
        &mut self,
        ended: &FramedDisk<FileDisk>,
        next: &FramedDisk<FileDisk>,
    ) -> Result<(), DiskError> {
        let Some(number) = self.number.checked_add(1) else {
            return Err(DiskError::Io(io::Error::from(ErrorKind::FileTooLarge)));
        };
        let (folder, name) = (self.folder.as_str(), FolderFile::Log(number));
        rename_synced(&self.rt, folder, FolderFile::NewLog(self.owner), name)?;
        self.number = number;
        self.id = next.id();
        self.ended.add_payloads(ended);
        self.close.set(false);
        Ok(())
    }

    /// Looks in the folder whether this process is still its owner.
    fn confirm(&mut self, segment: &FramedDisk<FileDisk>) -> Result<(), DiskError> {
        check_owner(&self.rt, self.folder.as_str(), self.owner)?;
        self.confirmed.set_payloads(&self.ended, segment);
        Ok(())
    }

    /// Looks in the folder whether another process is its owner.
    fn cause_of(&self, cause: DiskError) -> DiskError {
        match is_owner(&self.rt, self.folder.as_str(), self.owner) {
            Ok(false) => DiskError::Content,
            _ => cause,
        }
    }
}
