//! What a rewritten log has in place of one change.

use log_records::Change;

/// The changes of the rewritten log in place of one of the old log, in order.
#[derive(Clone, Copy, Debug)]
pub enum Kept<'a> {
    /// No change.
    Nothing,
    /// One change.
    One(Change<'a>),
    /// Two changes.
    Two(Change<'a>, Change<'a>),
}
