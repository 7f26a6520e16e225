//! Where an operator came from.
ghost use Rattle.std.specs.Prelude.{◌≡◌, ◌↔◌, ◌-◌, ◌^◌, IsTrue};
ghost use Rattle.walrus_code.specs.Location.{location, location_at};

/// Where an operator stood in the input: the place of its first byte. The largest number is the default, which
/// operators have that came from nowhere.
#[derive(Clone, Copy, Debug, PartialEq, Eq, PartialOrd, Ord, Hash)]
pub struct InstrLocId {
    value: u32,
}

impl InstrLocId {
    /// The location of what came from nowhere, 2^32 - 1.
    pub const DEFAULT: InstrLocId = InstrLocId { value: u32::MAX };

    /// The location of this number.
    pub fn new(value: u32) -> InstrLocId
        ensures { location result ≡ value }
    {
        InstrLocId { value }
    }

    /// The location of the operator that begins at a place of the input, in bytes from its front: the default from 2^32 - 1 on.
    pub fn of_place(place: usize) -> InstrLocId
        ensures { location result ≡ location_at place }
    {
        if place < u32::MAX as usize {
            InstrLocId::new(place as u32)
        } else {
            InstrLocId::DEFAULT
        }
    }

    /// The number of the location.
    pub fn value(self) -> u32
        ensures { result ≡ location self }
    {
        self.value
    }

    /// Whether this is the default, 2^32 - 1.
    pub fn is_default(self) -> bool
        ensures { IsTrue result ↔ (location self ≡ 2 ^ 32 - 1) }
    {
        self.value == u32::MAX
    }
}
