//! The dictionary kept in an ordered map, one update after another.
ghost use Rattle.std.specs.Prelude.{◌≡◌, ◌↔◌, IsTrue, IfOk, OnOk, OnErr};
ghost use Rattle.std.specs.List.Sorted.{IsStrictlySortedBy};
ghost use Rattle.std.specs.Map.{keys_of};
ghost use Rattle.std.specs.Ordering.{nat_cmp};
ghost use Rattle.std.specs.FinMap as map;
ghost use Rattle.prcu_model.specs.Dictionary.{updated, is_filled, plain_reply};

use crate::memory::NoMemory;
use crate::operation::{Op, Reply};
use std::alloc::Global;
use std::collections::BTreeMap;
use std::marker::Model;

/// A dictionary that one caller changes. Each call takes a time that grows with the logarithm of its size.
#[derive(Drop)]
pub struct PlainMap {
    pairs: BTreeMap<u64, u64>,
}

impl Model for PlainMap {
    ghost use Rattle.std.specs.FinMap as map;
    ghost use Rattle.std.specs.Coded.{coded_ℕ};
    ghost use Rattle.std.specs.Prelude.{IsTrue};
    ghost use Rattle.std.specs.Ordering.{nat_cmp};
    ghost use Rattle.prcu_model.specs.Dictionary.{Dictionary, dictionary_code};

    ghost Value = { Dictionary };

    ghost coded = { dictionary_code };

    ghost view = { λ a. map.from_sorted a.pairs.entries };

    ghost invariant = { λ a. IsTrue (map.is_sorted nat_cmp a.pairs.entries) };
}

impl PlainMap {
    /// The empty dictionary.
    pub fn new(alloc: Global) -> PlainMap
        ensures { result ≡ map.empty }
    {
        PlainMap {
            pairs: BTreeMap::new(alloc),
        }
    }

    /// The key's value, `None` exactly where the key is absent.
    pub fn get(&self, key: u64) -> Option<u64>
        ensures { result ≡ map.get self.now key }
    {
        self.pairs.get(&key).copied()
    }

    /// How many pairs there are.
    pub fn len(&self) -> u64
        ensures { result ≡ map.len self.now }
    {
        self.pairs.len() as u64
    }

    /// Whether there is no pair.
    pub fn is_empty(&self) -> bool
        ensures { IsTrue result ↔ (map.len self.now ≡ 0) }
    {
        self.pairs.is_empty()
    }

    /// The pairs, keys ascending.
    pub fn pairs(&self, alloc: Global) -> Result<Vec<(u64, u64)>, NoMemory>
        ensures pairs { IfOk result (λ pairs. pairs.items ≡ map.entries self.now) }
        ensures ordered { IfOk result (λ pairs. IsStrictlySortedBy nat_cmp (keys_of pairs.items)) }
    {
        let mut pairs = Vec::with_capacity(alloc, self.pairs.len())?;
        for (key, value) in &self.pairs {
            pairs.push((*key, *value))?;
        }
        Ok(pairs)
    }

    // Whether there are as many pairs as the limit.
    fn is_filled(&self, limit: Option<u32>) -> bool
        ensures { result ≡ is_filled limit self.now }
    {
        match limit {
            Some(most) => u64::from(most) <= self.len(),
            None => false,
        }
    }

    /// What the operation is answered here, where the map takes no pair past the limit. It changes nothing.
    pub fn reply_to(&self, limit: Option<u32>, op: Op) -> Reply
        ensures { result ≡ plain_reply limit self.now op }
    {
        match op {
            Op::Put { key, .. } => match self.get(key) {
                Some(_) => Reply::Old,
                None if self.is_filled(limit) => Reply::Full,
                None => Reply::New,
            },
            Op::Get { key } => match self.get(key) {
                Some(value) => Reply::Val { value },
                None => Reply::Absent,
            },
            Op::Del { key } => match self.get(key) {
                Some(_) => Reply::Gone,
                None => Reply::Absent,
            },
            Op::Set { key, .. } => match self.get(key) {
                Some(value) => Reply::Was { value },
                None => Reply::Absent,
            },
        }
    }

    /// Makes the update. At `NoMemory` all stays as it was.
    pub fn update(&mut self, op: Op) -> Result<(), NoMemory>
        ensures ok { OnOk result (self.new ≡ updated self.old op) }
        ensures err { OnErr result (self.new ≡ self.old) }
    {
        match op {
            Op::Put { key, value } => {
                if !self.pairs.contains_key(&key) {
                    self.pairs.insert(key, value)?;
                }
            }
            Op::Get { .. } => {}
            Op::Del { key } => {
                self.pairs.remove(&key);
            }
            Op::Set { key, value } => {
                if self.pairs.contains_key(&key) {
                    self.pairs.insert(key, value)?;
                }
            }
        }
        Ok(())
    }
}
