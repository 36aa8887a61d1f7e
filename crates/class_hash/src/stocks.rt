//! What a seat keeps of the lists of its bucket.
ghost use Rattle.std.specs.Prelude.{◌≡◌};
ghost use Rattle.class_hash.specs.Room.{stock_of, remembers};

use crate::seat::{Bucket, Stock};
use hash_core::Field;

/// Which list begins at a field.
pub(crate) fn stock_of(field: &Field) -> Option<Stock>
    ensures { result ≡ stock_of field.now }
{
    match field {
        Field::Free { class: _ } => Some(Stock::Free),
        Field::Retired { class: _ } => Some(Stock::Retired),
        _ => None,
    }
}

/// Keeps what the first word of a list is.
pub(crate) fn remember(bucket: &mut Option<Bucket>, stock: Option<Stock>, number: u64)
    ensures { bucket.new ≡ remembers bucket.old stock number }
{
    if let Some(bucket) = bucket {
        match stock {
            Some(Stock::Free) => bucket.free = Some(number),
            Some(Stock::Retired) => bucket.retired = Some(number),
            None => {}
        }
    }
}
