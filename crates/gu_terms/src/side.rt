//! The sides of a trade.

/// The side of a trade (FIX: Side, tag 54).
#[derive(Clone, Copy, Debug, PartialEq, Eq, Hash)]
pub enum Side {
    Buy,
    Sell,
}
