//! Defines a list of a fixed length of which only the front is stored.

ghost use Rattle.std.specs.Prelude.{◌≡◌, ◌<◌, length, replicate, slice_set, slice_index_or, IfOk};

use std::alloc::{AllocError, Global};
use std::marker::Model;

/// A list of a fixed length. Only its front is stored, and each element after it is `rest`.
///
/// Contracts see the whole list.
///
/// # Memory
///
/// Only `new` allocates. It reserves room for the whole list, and does not touch it: an element takes memory once it, or
/// one after it, was written.
#[derive(Drop)]
pub(crate) struct Padded<T: Copy> {
    front: Vec<T>,
    len: usize,
    rest: T,
}

impl<T: Copy> Model for Padded<T> {
    ghost use Rattle.std.specs.Prelude.{◌≤◌, ◌-◌, ◌++◌, List, length, replicate};
    ghost use Rattle.std.specs.Vec.{vec_capacity};

    ghost Value = { List T };

    ghost view = { λ a. a.front.items ++ replicate (a.len - length a.front.items) a.rest };

    ghost invariant = { λ a. (length a.front.items ≤ a.len) × (a.len ≤ vec_capacity a.front) };
}

impl<T: Copy> Padded<T> {
    /// Returns a list of `len` times the same value. Fails if out of memory.
    pub(crate) fn new(alloc: Global, len: usize, value: T) -> Result<Padded<T>, AllocError>
        ensures { IfOk result (λ p. p ≡ replicate len value) }
    {
        let front = Vec::with_capacity(alloc, len)?;
        Ok(Padded {
            front,
            len,
            rest: value,
        })
    }

    /// Returns an element.
    pub(crate) fn get(&self, index: usize) -> T
        requires { index < length self.now }
        ensures { result ≡ slice_index_or self.now index result }
    {
        if index < self.front.len() {
            self.front[index]
        } else {
            self.rest
        }
    }

    /// Replaces an element.
    pub(crate) fn set(&mut self, index: usize, value: T)
        requires { index < length self.old }
        ensures { self.new ≡ slice_set self.old index value }
    {
        if index >= self.front.len() && self.front.resize(index + 1, self.rest).is_err() {
            unreachable!();
        }
        self.front[index] = value;
    }
}
