//! The dictionary that a history makes, kept to be read.
ghost use Rattle.std.specs.Prelude.{◌≡◌, ◌<◌, ◌↔◌, IsTrue, IfOk, Some, slice_get};
ghost use Rattle.std.specs.FinMap as map;
ghost use Rattle.prcu_model.specs.Dictionary.{map_of};

use crate::memory::NoMemory;
use crate::operation::Update;
use crate::plain_map::PlainMap;
use std::alloc::Global;
use std::marker::Model;

/// The pairs of a dictionary, keys ascending.
#[derive(Drop)]
pub struct Dict {
    pairs: Vec<(u64, u64)>,
}

impl Model for Dict {
    ghost use Rattle.std.specs.FinMap as map;
    ghost use Rattle.std.specs.List.Sorted.{IsStrictlySortedBy};
    ghost use Rattle.std.specs.Map.{keys_of};
    ghost use Rattle.std.specs.Ordering.{nat_cmp};
    ghost use Rattle.prcu_model.specs.Dictionary.{Dictionary, dictionary_code};

    ghost Value = { Dictionary };

    ghost coded = { dictionary_code };

    ghost view = { λ a. map.from_sorted a.pairs.items };

    ghost invariant = { λ a. IsStrictlySortedBy nat_cmp (keys_of a.pairs.items) };
}

impl Dict {
    /// The dictionary that these updates make of nothing, one after another.
    pub fn replay(alloc: Global, updates: &[Update]) -> Result<Dict, NoMemory>
        ensures { IfOk result (λ dict. dict ≡ map_of updates.now) }
    {
        let mut map = PlainMap::new(alloc);
        for update in updates {
            map.update(update.op)?;
        }
        let pairs = map.pairs(alloc)?;
        Ok(Dict { pairs })
    }

    /// The key's value, `None` exactly where the key is absent.
    pub fn get(&self, key: u64) -> Option<u64>
        ensures { result ≡ map.get self.now key }
    {
        match self.pairs.binary_search_by_key(&key, |pair| pair.0) {
            Ok(i) => Some(self.pairs[i].1),
            Err(_) => None,
        }
    }

    /// How many pairs there are.
    pub fn len(&self) -> u64
        ensures { result ≡ map.len self.now }
    {
        self.pairs.len() as u64
    }

    /// Whether there is no pair.
    pub fn is_empty(&self) -> bool
        ensures { IsTrue result ↔ (map.len self.now ≡ 0) }
    {
        self.pairs.is_empty()
    }

    /// The pair at position `i`, counted from 0, in the ascending order of keys.
    pub fn pair(&self, i: u64) -> (u64, u64)
        requires { i < map.len self.now }
        ensures { slice_get (map.entries self.now) i ≡ Some result }
    {
        self.pairs[i as usize]
    }
}
