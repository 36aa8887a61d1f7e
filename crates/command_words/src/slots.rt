//! How many slots scripts share.
ghost use Rattle.std.specs.Prelude.{◌≡◌, ◌≤◌, length};
ghost use Rattle.prcu_model.specs.Scripts.{default_slots_of};
ghost use Rattle.command_words.specs.Commands.{AreSlots, slots_of};

use prcu_model::Scripts;

/// Those that were given and twenty more for each script but the first, or the default. With a script fewer than there may be, the
/// largest table has twenty more.
pub fn slots_for(slots: Option<u32>, scripts: &Scripts) -> u32
    requires { AreSlots slots }
    ensures shared { result ≡ slots_of slots scripts.now }
    ensures range { (1 ≤ result) × (result ≤ 2097152) }
    ensures spare { length scripts.now ≤ 63 → result ≤ 2097132 }
{
    match slots {
        Some(most) => most + 20 * scripts.count().saturating_sub(1),
        None => default_slots(scripts),
    }
}

/// The slots of a run that isn't given a number. The largest table has more.
pub fn default_slots(scripts: &Scripts) -> u32
    ensures default { result ≡ default_slots_of scripts.now }
    ensures range { (1 ≤ result) × (result ≤ 1049856) }
{
    // There are at most 1,048,576 puts and 64 scripts.
    let (_puts, _count) = (scripts.puts(), scripts.count());
    scripts.default_slots()
}
