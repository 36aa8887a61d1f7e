//! Lives under a lock.
ghost use Rattle.std.specs.Prelude.{◌≡◌, ◌*◌, ◌==◌};

use core_state::{generation_of, marked};

/// Whether a life is that of an unmarked node of this generation.
pub(crate) fn is_life(life: u64, generation: u64) -> bool
    ensures { result ≡ (life == 2 * generation) }
{
    !marked(life) && generation_of(life) == generation
}
