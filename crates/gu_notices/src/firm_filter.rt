//! Sets of firms that fit in one 64-bit number.

ghost use Rattle.std.specs.Prelude.{◌≡◌, ◌<◌, true};
ghost use Rattle.gu_terms.specs.declared.firm.FirmId.{FirmId as FirmOf};
ghost use Rattle.gu_notices.specs.Filters.{Keeps, has_place, may_hold, place_of};

use gu_terms::FirmId;

/// The number of bits in a set.
const PLACES: u32 = 64;

/// The bit for a firm. Some firms share one.
#[derive(Clone, Copy, Debug)]
pub struct FirmPlace {
    number: u32,
    ghost few: { number < 64 },
}

impl FirmPlace {
    /// Returns the bit for a firm.
    pub fn of(firm: &FirmId) -> Self
        ensures { result.number ≡ place_of firm.now }
    {
        let mut number = 0;
        for byte in firm.get() {
            number = (number * 17 + u32::from(*byte)) % PLACES;
        }
        FirmPlace { number }
    }

    /// Returns its number, from 0 to 63.
    pub fn number(self) -> u32
        ensures number { result ≡ self.number }
        ensures few { result < 64 }
    {
        self.number
    }
}

/// A set of firms that may hold more than were added: with a firm it holds every firm that shares its bit.
#[derive(Clone, Copy, Debug, PartialEq, Eq)]
pub struct FirmFilter {
    /// A bit for each place.
    places: u64,
}

impl FirmFilter {
    /// The empty set.
    pub const NONE: FirmFilter = FirmFilter { places: 0 };

    /// Adds a firm.
    pub fn add(&mut self, firm: &FirmId)
        ensures added { may_hold self.new firm.now ≡ true }
        ensures kept { Keeps self.old self.new }
    {
        self.places |= 1 << FirmPlace::of(firm).number;
    }

    /// Adds all firms.
    pub fn add_all(&mut self)
        ensures { (firm : FirmOf) → may_hold self.new firm ≡ true }
    {
        self.places = u64::MAX;
    }

    /// Returns the set as a number, with place 0 in the lowest bit.
    pub fn bits(self) -> u64
        ensures { result ≡ self.places }
    {
        self.places
    }

    /// Returns whether it may hold the firms with this bit.
    pub fn has(self, place: FirmPlace) -> bool
        ensures { result ≡ has_place self place.number }
    {
        self.places >> place.number & 1 != 0
    }
}
