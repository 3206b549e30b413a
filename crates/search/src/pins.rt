// Pins: a cell that has one is fixed to 0 or 1.
ghost use Rattle.std.specs.Prelude.{◌≡◌};
ghost use Rattle.search.specs.Lists.{fits};

// The most cells of a ring, as places.
pub const MAX_CELLS: usize = 31;

// A pin for each cell, or none. Fixed memory: the places of cells that a search does not have stay none.
pub type Pins = [Option<u32>; MAX_CELLS];

// Whether each pinned cell of the vector has the value of its pin.
pub(crate) fn obeyed(pins: &Pins, vector: u32) -> bool
    ensures { result ≡ fits pins.now vector }
{
    pins.iter().enumerate().all(|(place, pin)| pin.is_none_or(|value| vector >> place & 1 == value))
}
