//! Laws of the definitions alone. Each is the contract of a function that does nothing.

ghost use Rattle.segmented_disk.specs.Owners.{OneWriter};

/// Of all processes that use the folder of one log, at most one at a time confirms records, and no confirmed record is lost.
///
/// A process confirms the records of a commit if it finds, after its sync, that it is still the owner of the folder
/// ([`SegmentFolder::confirm`](crate::SegmentFolder::confirm)). Replies promise only confirmed records. After another process has become
/// the owner, the earlier one confirms nothing. The later one reads all that was confirmed, and what the earlier one still writes is not in
/// the log.
///
/// The premise is what `Owners` states of each call: an open, a read or a rename meets what the last completed call of any process has
/// left.
pub fn one_writer()
    ensures { OneWriter }
{}
