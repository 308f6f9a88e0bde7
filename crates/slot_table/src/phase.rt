/// The state of a slot.
#[derive(Clone, Copy, Debug, PartialEq, Eq, Drop)]
pub enum Phase {
    /// It has no blob, and can get one.
    Free,
    /// It has a blob that repositories may link.
    Live,
    /// It has a blob without links, which is freed once no lease pins it.
    Condemned,
    /// It never gets a blob again.
    Retired,
}
