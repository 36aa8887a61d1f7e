//! The changes of a history, found by their keys.
ghost use Rattle.std.specs.Prelude.{◌≡◌, ℕ, ◌+◌, ◌-◌, ◌<◌, ◌≤◌, IfOk, OnOk, length, slice_index};
ghost use Rattle.std.specs.List.Sorted.{IsPermutation};
ghost use Rattle.account_text.specs.Judging.{bucket_of, IsOrdered, IsOrderedByBucket, AreStarts, IsCutOut};

use prcu_model::NoMemory;
use std::alloc::Global;
use std::marker::Model;

/// What an update left at its key.
#[derive(Clone, Copy)]
pub struct Change {
    pub key: u64,
    pub position: u64,
    pub value: Option<u64>,
}

// The part of 2^64 that the golden ratio cuts off, as an odd number: keys times it lie far apart where the keys lie
// close together (Knuth, "The Art of Computer Programming", volume 3, section 6.4).
const SPREAD: u64 = 11_400_714_819_323_198_485;

// The key's bucket, of so many.
fn bucket_of(key: u64, buckets: u32) -> u32
    ensures is { result ≡ bucket_of buckets key }
    ensures below { 0 < buckets → result < buckets }
{
    let spread = key.wrapping_mul(SPREAD) >> 32;
    ((spread * u64::from(buckets)) >> 32) as u32
}

// The changes in the order of their buckets, in each of their keys, and for each key of their positions.
fn in_order(mut changes: Vec<Change>, buckets: u32) -> Vec<Change>
    ensures same { IsPermutation changes.items result.items }
    ensures ordered { IsOrderedByBucket buckets result.items }
{
    changes.sort_unstable_by_key(|change| {
        (bucket_of(change.key, buckets), change.key, change.position)
    });
    changes
}

// Fills the list up to so many numbers with this one.
fn fill(starts: &mut Vec<usize>, count: usize, start: usize) -> Result<(), NoMemory>
    ensures long { OnOk result (length starts.new.items ≡ length starts.old.items + (count - length starts.old.items)) }
    ensures kept { OnOk result ((i : ℕ) → i < length starts.old.items → slice_index starts.new.items i ≡ slice_index starts.old.items i) }
    ensures filled { OnOk result ((i : ℕ) → length starts.old.items ≤ i → i < length starts.new.items
        → slice_index starts.new.items i ≡ start) }
{
    for _ in starts.len()..count {
        starts.push(start)?;
    }
    Ok(())
}

// Where each bucket begins among the changes, and where the last one ends.
fn starts_of(alloc: Global, changes: &[Change], buckets: u32) -> Result<Vec<usize>, NoMemory>
    requires some { 0 < buckets }
    requires ordered { IsOrderedByBucket buckets changes.now }
    ensures { IfOk result (λ starts. AreStarts buckets changes.now starts.items) }
{
    let mut starts = Vec::with_capacity(alloc, buckets as usize + 1)?;
    for (i, change) in changes.iter().enumerate() {
        fill(&mut starts, bucket_of(change.key, buckets) as usize + 1, i)?;
    }
    fill(&mut starts, buckets as usize + 1, changes.len())?;
    Ok(starts)
}

/// The changes of a history, in buckets by their keys.
#[derive(Drop)]
pub struct KeyIndex {
    buckets: u32,
    starts: Vec<usize>,
    changes: Vec<Change>,
}

impl Model for KeyIndex {
    ghost use Rattle.std.specs.Prelude.{List};
    ghost use Rattle.account_text.specs.declared.key_index.Change.{Change};

    ghost Value = { List Change };

    ghost view = { λ index. index.changes.items };

    ghost use Rattle.account_text.specs.Judging.{IsInBuckets};

    ghost invariant = { λ index. IsInBuckets index.buckets index.changes.items index.starts.items };
}

impl KeyIndex {
    // So many changes are in a bucket, where keys are spread evenly.
    const IN_A_BUCKET: usize = 4;

    /// The changes of each key together. The time is that of a sort.
    pub fn new(alloc: Global, changes: Vec<Change>) -> Result<KeyIndex, NoMemory>
        ensures { IfOk result (λ index. IsPermutation changes.items index) }
    {
        let buckets = u32::try_from(changes.len() / Self::IN_A_BUCKET + 1).unwrap_or(u32::MAX);
        let changes = in_order(changes, buckets);
        let starts = starts_of(alloc, &changes, buckets)?;
        Ok(KeyIndex {
            buckets,
            starts,
            changes,
        })
    }

    /// All changes of the key, with those of the other keys of its bucket, in the order of keys and then of positions.
    pub fn near(&self, key: u64) -> &[Change]
        ensures cut { IsCutOut self.now result.now key }
        ensures ordered { IsOrdered result.now }
    {
        let bucket = bucket_of(key, self.buckets) as usize;
        &self.changes[self.starts[bucket]..self.starts[bucket + 1]]
    }
}
