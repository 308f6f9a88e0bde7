//! The calls before and after each row.

/// A hook that is called before and after each row.
pub trait Gate {
    /// Runs before a row of this lane is executed. `row` is its place in the script, counted from 0.
    fn before(&self, lane: u8, row: usize);

    /// Runs after the row was executed.
    fn after(&self, lane: u8, row: usize);
}

/// A gate that lets each row pass at once.
#[derive(Clone, Copy, Debug)]
pub struct OpenGate;

impl Gate for OpenGate {
    fn before(&self, lane: u8, row: usize) {
        let _ = lane;
        let _ = row;
    }

    fn after(&self, lane: u8, row: usize) {
        let _ = lane;
        let _ = row;
    }
}
