//! The rule by which the tree is kept shallow: which of a node and its child is to stand above the other, and when a way is deep.
ghost use Rattle.std.specs.Prelude.{◌≡◌, ◌-◌, ◌/◌, ◌≤◌, ℕ, nat_lt};
ghost use Rattle.tree_lift.specs.Ways.{AreTriedBehind, IsMostDepth, mixed, rises};

/// How often a turn is tried behind a put whose way was deep.
const ATTEMPTS: u32 = 24;

// The finalizer of SplitMix64 (Steele, Lea and Flood, "Fast splittable pseudorandom number generators", 2014).
fn mix(number: u64) -> u64
    ensures { result ≡ mixed number }
{
    let first = (number ^ (number >> 30)).wrapping_mul(0xbf58_476d_1ce4_e5b9);
    let second = (first ^ (first >> 27)).wrapping_mul(0x94d0_49bb_1331_11eb);
    second ^ (second >> 31)
}

/// Whether a child is to stand above its node: whether the mix of its key's bits with the salt is the greater one. A tree in which no child
/// rises above its node has the shape that it would have if its keys had been put in a random order, whatever order they came in: some 1.3
/// times the binary logarithm of their number on average. Who knows the salt can choose keys whose mixes descend as the keys ascend, and so
/// make the tree a path; so a salt is drawn once for each table, and not told.
pub fn rises_above(salt: u64, child_key: u64, node_key: u64) -> bool
    ensures { result ≡ rises salt child_key node_key }
{
    mix(node_key ^ salt) < mix(child_key ^ salt)
}

/// How many slots a way may lead over in a tree of so many keys before it is deep: 2 more than twice the number of binary digits.
pub fn most_depth(size: u64) -> u64
    ensures { IsMostDepth size result }
{
    let digits = u64::BITS - size.leading_zeros();
    2 * u64::from(digits) + 2
}

/// Whether a way over so many slots is deep in a tree of so many keys.
pub fn is_deep(depth: u64, size: u64) -> bool
    ensures { (most : ℕ) × IsMostDepth size most × (result ≡ nat_lt most depth) }
{
    most_depth(size) < depth
}

/// Whether three quarters of the way would be deep already, so that it is worth to stand still for readers.
pub fn is_far_too_deep(depth: u64, size: u64) -> bool
    ensures { (most : ℕ) × IsMostDepth size most × (result ≡ nat_lt most (depth - depth / 4)) }
{
    most_depth(size) < depth - depth / 4
}

/// How many keys are there at most in a table with so many slots, of which so many were found free: the slots that aren't.
pub fn most_keys(slots: u64, free: u64) -> u64
    ensures { result ≡ slots - free }
{
    slots.saturating_sub(free)
}

/// How often a turn is to be tried behind a put whose way led over so many slots, in a tree of so many keys: 24 times where the way is
/// deep, and else never. So many turns retire 48 slots: a lift stands still once at most where a place keeps so many back, and as often as
/// its room goes into 48 where it was opened for fewer.
pub fn attempts_behind(depth: u64, size: u64) -> u32
    ensures tried { AreTriedBehind depth size result }
    ensures few { result ≤ 24 }
{
    if is_deep(depth, size) { ATTEMPTS } else { 0 }
}
