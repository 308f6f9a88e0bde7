//! Merges the replies of several workers in the order of the rows.
ghost use Rattle.std.specs.Prelude.{◌<◌, ◌≤◌, ◌≡◌, [], length, vec_capacity};
ghost use Rattle.store_api.specs.Answers.{answers_of};
ghost use Rattle.script_player.specs.Shares.{TakesNext, TakesReply, queues_by_row};

use crate::row_list::RowList;
use std::collections::VecDeque;
use std::marker::Model;
use store_api::Reply;

/// Removes the first reply of a worker's queue, and returns it.
fn take_first(queues: &mut Vec<VecDeque<Reply>>, worker: usize) -> Option<Reply>
    requires { worker < length queues.old.items }
    ensures takes { TakesReply queues.old.items queues.new.items worker result }
    ensures len { length queues.new.items ≡ length queues.old.items }
{
    queues[worker].pop_front()
}

/// The replies of several workers, in a queue for each, which are removed in the order of the rows.
///
/// Contracts see the remaining answers in that order.
#[derive(Drop)]
pub struct RepliesByRow<L: RowList> {
    rows: L,
    /// The place of the next row, counted from 0.
    place: usize,
    queues: Vec<VecDeque<Reply>>,
}

impl<L: RowList> Model for RepliesByRow<L> {
    ghost use Rattle.std.specs.Prelude.{◌<◌, List, drop, length, map};
    ghost use Rattle.store_api.specs.Answers.{Answer, answers_of};
    ghost use Rattle.script_player.specs.Shares.{answers_by_row};

    ghost Value = { List Answer };

    ghost view = { λ r. answers_by_row (length r.queues.items) (drop r.place (L.lines r.rows))
        (map (λ q. answers_of q.items) r.queues.items) };

    ghost invariant = { λ r. 0 < length r.queues.items };
}

impl<L: RowList> RepliesByRow<L> {
    /// Creates a merge of queues of replies, one queue for each worker in the order of their numbers.
    ///
    /// Each queue has its replies in the order of the worker's rows.
    ///
    /// # Memory
    /// Allocates nothing.
    pub fn new(rows: L, queues: Vec<VecDeque<Reply>>) -> RepliesByRow<L>
        requires { 0 < length queues.items }
        ensures { result ≡ queues_by_row (L.lines rows) queues.items }
    {
        RepliesByRow {
            rows,
            place: 0,
            queues,
        }
    }

    /// Removes the reply of the next row, and returns it.
    ///
    /// Returns `None` after the last row, or if the row's worker has no reply left.
    ///
    /// # Memory
    /// Allocates nothing.
    pub fn next_reply(&mut self) -> Option<Reply>
        ensures { TakesNext self.old result self.new }
    {
        if self.place >= self.rows.len() {
            return None;
        }
        let worker = self.rows.lane(self.place) as usize % self.queues.len();
        self.place += 1;
        take_first(&mut self.queues, worker)
    }

    /// Moves all replies into a list that has room for them.
    ///
    /// # Memory
    /// Allocates nothing. The list keeps its capacity.
    pub fn into_list(mut self, mut list: Vec<Reply>) -> Vec<Reply>
        requires empty { list.items ≡ [] }
        requires room { length self ≤ vec_capacity list }
        ensures all { answers_of result.items ≡ self }
        ensures same { vec_capacity result ≡ vec_capacity list }
    {
        while let Some(reply) = self.next_reply() {
            list.push_reserved(reply);
        }
        list
    }
}
