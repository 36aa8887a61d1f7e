//! The orders in which keys come.

/// An order in which keys come.
#[derive(Clone, Copy)]
pub enum Order {
    Ascending,
    Descending,
    /// The least, the greatest, the least but one, and so on.
    Zigzag,
    /// Four ranges of keys in turn, each of them ascending.
    InTurn,
    /// Ascending. Where as many keys are there as the tree is to have, the oldest is deleted after each put, until all are others.
    Window,
    /// In no order.
    Scattered,
}

impl Order {
    pub const ALL: [Order; 6] = [
        Order::Ascending,
        Order::Descending,
        Order::Zigzag,
        Order::InTurn,
        Order::Window,
        Order::Scattered,
    ];

    pub fn name(self) -> &'static str {
        match self {
            Order::Ascending => "ascending",
            Order::Descending => "descending",
            Order::Zigzag => "outside in",
            Order::InTurn => "four ascending in turn",
            Order::Window => "a sliding window",
            Order::Scattered => "in no order",
        }
    }

    /// The key that comes after so many others, of so many that the tree is to have.
    pub fn key(self, before: u64, keys: u64) -> u64 {
        match self {
            Order::Ascending | Order::Window => before,
            Order::Descending => keys.wrapping_sub(before),
            Order::Zigzag if before % 2 == 0 => before / 2,
            Order::Zigzag => keys.wrapping_sub(before / 2),
            Order::InTurn => (before % 4).wrapping_mul(keys / 4).wrapping_add(before / 4),
            Order::Scattered => scattered(before),
        }
    }

    /// How many times as many puts as keys there are.
    pub fn times(self) -> u32 {
        match self {
            Order::Window => 2,
            _ => 1,
        }
    }
}

// Numbers in no order, each once: by two rounds of a multiplication by an odd number and a fold.
fn scattered(number: u64) -> u64 {
    let first = number.wrapping_mul(0x9e37_79b9_7f4a_7c15);
    let second = (first ^ (first >> 32)).wrapping_mul(0xd6e8_feb8_6659_fd93);
    second ^ (second >> 32)
}
