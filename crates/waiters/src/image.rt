//! The classes that some key of an interval has.
ghost use Rattle.waiters.specs.Classes.{IsImage};

use key_interval::{Keys, class_of};

/// The classes of an interval's keys in their order: those below `below`, and then those from `from` to `last`.
#[derive(Clone, Copy)]
pub struct Image {
    pub below: u32,
    pub from: u32,
    pub last: u32,
}

/// The classes of these keys. Those of fewer than 64 keys begin at the least key's, and go on at 0 after 63.
pub fn image_of(keys: &Keys) -> Image
    ensures { IsImage keys.now result }
{
    let low = keys.low();
    let high = keys.high();
    let from = class_of(low);
    let last = class_of(high);
    if high - low >= 63 {
        return Image {
            below: 0,
            from: 0,
            last: 63,
        };
    }
    if from <= last {
        return Image {
            below: 0,
            from,
            last,
        };
    }
    Image {
        below: last + 1,
        from,
        last: 63,
    }
}
