//! Pages, whose room is made in advance.
ghost use Rattle.std.specs.Prelude.{◌≡◌, ◌+◌, ◌<◌, ◌≤◌, [], ◌∷◌, ◌++◌, ◌↔◌, IsTrue, IfOk, length};
ghost use Rattle.exact_list.specs.Pairs.{IsAt};

use prcu_model::NoMemory;
use std::alloc::Global;
use std::marker::Model;

/// A list of pairs for which there is room in advance.
#[derive(Drop)]
pub struct Page {
    capacity: u32,
    pairs: Vec<(u64, u64)>,
}

impl Model for Page {
    ghost use Rattle.std.specs.Prelude.{◌<◌, ◌≤◌};
    ghost use Rattle.std.specs.Vec.{vec_len, vec_capacity};
    ghost use Rattle.exact_list.specs.Tries.{Paged};

    ghost Value = { Paged };

    ghost view = { λ p. record { capacity = p.capacity; pairs = p.pairs.items } };

    ghost invariant = { λ p. (vec_len p.pairs ≤ p.capacity) × (p.capacity ≤ vec_capacity p.pairs) × (p.capacity < 4294967296) };
}

impl Page {
    /// An empty page for so many pairs, at least 1. `NoMemory` may come where memory is short.
    pub fn new(alloc: Global, capacity: u32) -> Result<Page, NoMemory>
        requires some { 1 ≤ capacity }
        ensures capacity { IfOk result (λ page. page.capacity ≡ capacity) }
        ensures empty { IfOk result (λ page. page.pairs ≡ []) }
    {
        Ok(Page {
            capacity,
            pairs: Vec::with_capacity(alloc, capacity as usize)?,
        })
    }

    /// For how many pairs it was made.
    pub fn capacity(&self) -> u32
        ensures { result ≡ self.now.capacity }
    {
        self.capacity
    }

    /// How many pairs it holds.
    pub fn count(&self) -> u32
        ensures count { result ≡ length self.now.pairs }
        ensures fits { result ≤ self.now.capacity }
    {
        self.pairs.len() as u32
    }

    /// The pair at this index, its key and its value. Those that `list` left have ascending keys.
    pub fn pair(&self, i: u32) -> (u64, u64)
        requires { i < length self.now.pairs }
        ensures { IsAt self.now.pairs i result }
    {
        self.pairs[i as usize]
    }

    /// The pairs that it holds. Those that `list` left have ascending keys.
    pub fn pairs(&self) -> &[(u64, u64)]
        ensures { result.now ≡ self.now.pairs }
    {
        &self.pairs
    }

    // Whether it has room for no more.
    pub(crate) fn is_full(&self) -> bool
        ensures full { IsTrue result ↔ (length self.now.pairs ≡ self.now.capacity) }
        ensures fits { length self.now.pairs ≤ self.now.capacity }
    {
        self.pairs.len() == self.capacity as usize
    }

    // Takes all pairs off.
    pub(crate) fn clear(&mut self)
        ensures capacity { self.new.capacity ≡ self.old.capacity }
        ensures empty { self.new.pairs ≡ [] }
    {
        self.pairs.clear();
    }

    // Adds a pair at the end. It takes no memory.
    pub(crate) fn add(&mut self, key: u64, value: u64)
        requires room { length self.old.pairs < self.old.capacity }
        ensures capacity { self.new.capacity ≡ self.old.capacity }
        ensures added { self.new.pairs ≡ self.old.pairs ++ (key, value) ∷ [] }
        ensures fits { length self.new.pairs ≤ self.new.capacity }
    {
        self.pairs.push((key, value)).unwrap();
    }
}
