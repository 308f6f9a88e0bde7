//! What makes the disks of segments.

ghost use Rattle.std.specs.Prelude.{◌≡◌, [], IfOk, OnErr, OnOk};
ghost use Rattle.framed_disk.specs.Views.{EndsInOrder, attempted};
ghost use Rattle.segmented_disk.specs.Views.{IsDurable, IsNewLog, after_confirm, after_publish};

use framed_disk::FramedDisk;
use log_disk::{Disk, DiskError};

/// A folder that makes the disks of a log's segments.
///
/// Contracts see what it has `published` since it was made: the payloads of the segments that have ended, the id of the last
/// segment, and the payloads that were confirmed. Only `publish` and `confirm` change that.
pub trait SegmentFolder<D: Disk>: Drop {
    ghost use Rattle.segmented_disk.specs.Views.{FolderView};

    ghost published: { Self → FolderView };

    /// Returns whether the last segment is to be closed before the next payload is written, however short it is.
    fn wants_next(&self) -> bool;

    /// Makes an empty disk for the next segment. Returns it, and the id of the segment's log.
    ///
    /// A crash may lose the disk until it is published.
    ///
    /// # Errors
    ///
    /// The cause.
    fn create(&mut self) -> Result<(D, u64), DiskError>
        ensures empty { IfOk result (λ r. D.written r.0 ≡ []) }
        ensures kept { published self.new ≡ published self.old };

    /// Publishes the disk that was created last, on which the new log `next` is: it is the segment after `ended` from then on,
    /// also after a crash. `ended` is the last segment. It ends in order: with a mark, and all of it is synced.
    ///
    /// # Errors
    ///
    /// The cause. The disk may have been published.
    fn publish(&mut self, ended: &FramedDisk<D>, next: &FramedDisk<D>) -> Result<(), DiskError>
        requires ended { EndsInOrder ended.now }
        requires last { (ended.now).id ≡ (published self.old).last_id }
        requires next { IsNewLog next.now }
        ensures ok { OnOk result (published self.new ≡
            after_publish (published self.old) (attempted ended.now) (next.now).id) }
        ensures err { OnErr result (published self.new ≡ published self.old) };

    /// Confirms all payloads up to those of `segment`, the last one, all of which are durable: this process still owns the folder.
    /// A process that becomes the owner later reads them.
    ///
    /// # Errors
    ///
    /// The cause. It is `Content` if another process owns the folder.
    fn confirm(&mut self, segment: &FramedDisk<D>) -> Result<(), DiskError>
        requires last { (segment.now).id ≡ (published self.old).last_id }
        requires durable { IsDurable segment.now }
        ensures ok { OnOk result (published self.new
            ≡ after_confirm (published self.old) (attempted segment.now)) }
        ensures err { OnErr result (published self.new ≡ published self.old) };

    /// Returns why a call on the folder or on one of its disks failed: `Content` if another process owns the folder, and else
    /// this cause.
    fn cause_of(&self, cause: DiskError) -> DiskError;
}
