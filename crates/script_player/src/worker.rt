//! The rows of each worker.
ghost use Rattle.std.specs.Prelude.{◌≡◌, ◌==◌, ◌%◌, ◌<◌, IfErr, IfOk, vec_len};
ghost use Rattle.script_player.specs.Shares.{CountsRows};

use crate::row_list::RowList;
use blob_digest::Refusal;
use std::alloc::Global;

/// One of the workers of a script, which executes the rows of its lanes in their order.
///
/// Lane L belongs to worker L modulo the number of workers.
#[derive(Clone, Copy, Debug)]
pub struct Worker {
    /// The number of workers.
    pub workers: usize,
    /// The number of this worker, counted from 0.
    pub number: usize,
    pub ghost some: { 0 < workers },
}

impl Worker {
    /// Returns the only worker of one, which executes all rows.
    pub fn alone() -> Worker
        ensures workers { result.workers ≡ 1 }
        ensures number { result.number ≡ 0 }
    {
        Worker {
            workers: 1,
            number: 0,
        }
    }

    /// Returns whether a lane belongs to this worker. It allocates nothing.
    pub fn plays(&self, lane: u8) -> bool
        ensures { result ≡ (lane % self.now.workers == self.now.number) }
    {
        lane as usize % self.workers == self.number
    }
}

/// Counts the rows of each worker, in the order of the workers' numbers.
///
/// # Errors
/// - `Memory` if the list of counts cannot be allocated.
///
/// # Cost
/// Looks up the lane of each row once. Allocates one number for each worker.
pub fn count_by_worker<L: RowList>(
    alloc: Global,
    rows: &L,
    workers: usize,
) -> Result<Vec<usize>, Refusal>
    requires { 0 < workers }
    ensures len { IfOk result (λ v. vec_len v ≡ workers) }
    ensures counts { IfOk result (λ v. CountsRows workers (L.lines rows.now) v.items) }
    ensures refused { IfErr result (λ e. e ≡ Refusal.Memory) }
{
    let mut counts = Vec::from_elem(alloc, 0usize, workers)?;
    for place in 0..rows.len() {
        let worker = rows.lane(place) as usize % workers;
        counts[worker] += 1;
    }
    Ok(counts)
}
