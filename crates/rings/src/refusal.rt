// The questions that calls ask, each by what is wrong where its answer is no.
ghost use Rattle.std.specs.Prelude.{◌≡◌, Some};
ghost use Rattle.rings.specs.Questions.{number_of, place_of};
ghost use Rattle.rings.specs.Texts.{refusal_text};

use std::fmt;

#[derive(Clone, Copy, PartialEq, Eq)]
pub enum Refusal {
    // The polynomial is 0 or 1.
    PolynomialBelowTwo,
    // The search has given vectors since its start, so its pins stay.
    SearchRunning,
    // A ring of this many cells has no such cell.
    NoSuchCell,
    // A pin fixes a cell to 0 or 1.
    PinValue,
    // The cell has a pin already.
    CellPinned,
    // The cell has no pin to remove.
    CellNotPinned,
    // All fitting vectors have been given.
    NoVectorLeft,
    // A chosen sum takes at most 32 items.
    TooManyItems,
    // The word is not below 2^cells.
    WordTooLarge,
    // All cells 0: a linear generator would stand still.
    SeedZero,
    // No seed was accepted yet.
    NotSeeded,
    // The clock would pass 2^62.
    ClockPastLimit,
    // A ring has 1 to 31 cells.
    CellCount,
    // The vector is not below 2^cells.
    VectorTooLarge,
    // Phase shifts are told of at most 20 cells.
    TooManyCells,
    // This cell, counted from 1, is the lowest that has no phase shift.
    NoShift(u32),
    // The buffer has fewer places than the ring has cells.
    BufferTooShort,
    // A spacing takes two cells.
    TooFewCells,
    // A sheet has 1 to 64 slots.
    SlotCount,
    // The buffer is too short for the slots, or longer than 65,535 bytes.
    SheetLength,
    // All slots of the sheet are used.
    NoSlotFree,
    // Entries ascend by polynomial.
    PolynomialNotAbove,
    // The entry is closed, or was void from the start.
    EntryNotOpen,
    // The vector has another polynomial than the entry.
    OtherPolynomial,
    // Vectors of an entry ascend.
    VectorNotAbove,
    // The sheet has no four bytes left.
    NoRoom,
    // The entry lacks vectors of its polynomial.
    ListNotFull,
}

impl Refusal {
    // The number by which formats, commands and C know the refusal.
    pub fn number(&self) -> u32
        ensures { result ≡ number_of self.now }
    {
        match self {
            Refusal::PolynomialBelowTwo => 1,
            Refusal::SearchRunning => 2,
            Refusal::NoSuchCell => 3,
            Refusal::PinValue => 4,
            Refusal::CellPinned => 5,
            Refusal::CellNotPinned => 6,
            Refusal::NoVectorLeft => 7,
            Refusal::TooManyItems => 8,
            Refusal::WordTooLarge => 11,
            Refusal::SeedZero => 12,
            Refusal::NotSeeded => 13,
            Refusal::ClockPastLimit => 14,
            Refusal::CellCount => 15,
            Refusal::VectorTooLarge => 16,
            Refusal::TooManyCells => 17,
            Refusal::NoShift(_) => 18,
            Refusal::BufferTooShort => 19,
            Refusal::TooFewCells => 20,
            Refusal::SlotCount => 31,
            Refusal::SheetLength => 32,
            Refusal::NoSlotFree => 33,
            Refusal::PolynomialNotAbove => 34,
            Refusal::EntryNotOpen => 35,
            Refusal::OtherPolynomial => 36,
            Refusal::VectorNotAbove => 37,
            Refusal::NoRoom => 38,
            Refusal::ListNotFull => 39,
        }
    }

    // The cell, counted from 1, that the refusal names, if it names one: a part of it and no conversion, as the number is its name.
    pub fn place(&self) -> Option<u32>
        ensures { result ≡ place_of self.now }
    {
        match self {
            Refusal::NoShift(cell) => Some(*cell),
            _ => None,
        }
    }
}

impl fmt::Display for Refusal {
    ghost output = { λ q. Some (refusal_text q) };

    fn fmt<W: fmt::Write>(&self, f: &mut fmt::Formatter<W>) -> fmt::Result {
        let number = self.number();
        match self.place() {
            Some(cell) => write!(f, "refused {number} at cell {cell}"),
            None => write!(f, "refused {number}"),
        }
    }
}

// By its number, as everything outside of Rust knows a refusal: a derived one would write the variant's name.
impl fmt::Debug for Refusal {
    fn fmt<W: fmt::Write>(&self, f: &mut fmt::Formatter<W>) -> fmt::Result {
        let number = self.number();
        write!(f, "refused {number}")
    }
}
