//! Faults of a view, and of takes and a cut.

ghost use Rattle.std.specs.Prelude.{◌≡◌};
ghost use Rattle.gu_view.specs.Faults.{number_of, name_of};

use gu_terms::{LimitKey, OfferNo};
use std::alloc::AllocError;
use thiserror::Error;

/// The reason that offers and rooms don't make a view.
#[derive(Clone, Copy, Debug, PartialEq, Eq, Error)]
pub enum ViewError {
    /// This offer's number isn't above the previous one, its lots are out of range, or 4,096 offers come before it.
    #[error("BadOffer")]
    BadOffer(OfferNo),
    /// An older offer under the same agreement has another path, or the second key of this offer's path isn't its agreement.
    #[error("PathDiffers")]
    PathDiffers(OfferNo),
    /// The rooms aren't exactly those of the paths' keys, each once, or one is above 1,000,000,000 lots.
    #[error("BadRooms")]
    BadRooms,
    /// An allocation failed.
    #[error("Memory")]
    Memory,
}

impl From<AllocError> for ViewError {
    ghost use Rattle.std.specs.Prelude.{◌≡◌};
    ghost use Rattle.gu_view.specs.declared.error.ViewError.TheVariants.{Memory};

    ghost from_gives = { λ _ error. error ≡ Memory };

    fn from(_error: AllocError) -> ViewError {
        ViewError::Memory
    }
}

/// A key or an offer that takes or a cut name but the view lacks.
#[derive(Clone, Copy, Debug, PartialEq, Eq)]
pub enum Unknown {
    /// A key that is on no path of the view.
    Key(LimitKey),
    /// An offer that isn't in the view.
    Offer(OfferNo),
}

/// The first fault of takes and a cut, in the order of the tests.
#[derive(Clone, Copy, Debug, PartialEq, Eq, Error)]
pub enum CutFault {
    /// The takes or the cut name something that the view lacks.
    #[error("Unknown")]
    Unknown(Unknown),
    /// More is taken from this offer than it has.
    #[error("OverOffer")]
    OverOffer(OfferNo),
    /// More is taken under this key than its room.
    #[error("OverLimit")]
    OverLimit(LimitKey),
    /// Lots are taken from this offer while an older one under its agreement isn't full.
    #[error("NotOldestFirst")]
    NotOldestFirst(OfferNo),
    /// This offer neither is in the cut nor has a key in it.
    #[error("Uncovered")]
    Uncovered(OfferNo),
    /// The cut's room differs from the lots taken.
    #[error("RoomDiffers")]
    RoomDiffers,
}

impl CutFault {
    /// Returns its number in a reply.
    pub fn number(self) -> u64
        ensures { result ≡ number_of self }
    {
        match self {
            CutFault::OverOffer(_) => 1,
            CutFault::OverLimit(_) => 2,
            CutFault::Uncovered(_) => 3,
            CutFault::RoomDiffers => 4,
            CutFault::Unknown(_) => 5,
            CutFault::NotOldestFirst(_) => 6,
        }
    }

    /// Returns its name in a reply.
    pub fn name(self) -> &'static str
        ensures { result.now ≡ name_of self }
    {
        match self {
            CutFault::OverOffer(_) => "OverOffer",
            CutFault::OverLimit(_) => "OverLimit",
            CutFault::Uncovered(_) => "Uncovered",
            CutFault::RoomDiffers => "RoomDiffers",
            CutFault::Unknown(_) => "Unknown",
            CutFault::NotOldestFirst(_) => "NotOldestFirst",
        }
    }
}
