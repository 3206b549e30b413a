// The calls of a search.
ghost use Rattle.std.specs.Prelude.{◌≡◌, ◌-◌, length, Some, None};
ghost use Rattle.rings.specs.Questions.{Answers, Changes, polynomial_refusal};
ghost use Rattle.search.specs.Identity.{Identity};
ghost use Rattle.search.specs.Views.{view, fitting, Opened, cell_refusal, pin_refusal, unpin_refusal, with_pin, GoesOn, rewound};

use super::Search;
use crate::candidates::Candidates;
use crate::pins::MAX_CELLS;
use gf2::Modulus;
use rings::Refusal;

const MAX_VALUE: u32 = 1;

impl Search {
    // A search without pins, on any polynomial from 2 on.
    #[tactic(auto, using(crate::proofs::Identity::identity))]
    pub fn open(polynomial: u32) -> Result<Search, Refusal>
        ensures value { Answers result (polynomial_refusal polynomial) (λ s. Opened polynomial (view s)) }
        ensures identity { Identity }
    {
        let modulus = Modulus::new(polynomial).ok_or(Refusal::PolynomialBelowTwo)?;
        Ok(Search {
            candidates: Candidates::of(modulus),
            pins: [None; MAX_CELLS],
            from: None,
        })
    }

    // The degree of the polynomial.
    pub fn cells(&self) -> u32
        ensures { result ≡ (view self.now).cells }
    {
        self.candidates.cells()
    }

    // Fixes a cell, counted from 1, to 0 or 1.
    pub fn pin(&mut self, cell: u32, value: u32) -> Result<(), Refusal>
        ensures { Changes result (pin_refusal (view self.old) cell value) (view self.old) (with_pin (view self.old) cell (Some value)) (view self.new) }
    {
        let place = self.place(cell)?;
        if value > MAX_VALUE {
            return Err(Refusal::PinValue);
        }
        if self.pins[place].is_some() {
            return Err(Refusal::CellPinned);
        }
        self.pins[place] = Some(value);
        Ok(())
    }

    // Removes the pin of a cell.
    pub fn unpin(&mut self, cell: u32) -> Result<(), Refusal>
        ensures { Changes result (unpin_refusal (view self.old) cell) (view self.old) (with_pin (view self.old) cell None) (view self.new) }
    {
        let place = self.place(cell)?;
        self.pins[place].take().ok_or(Refusal::CellNotPinned)?;
        Ok(())
    }

    // How many vectors obey the pins.
    pub fn count(&self) -> u32
        ensures { result ≡ length (fitting (view self.now)) }
    {
        // A loop: an iterator's count asks that it ends, which neither `successors` nor `from_fn` promises, so that proof stays open.
        let mut from = 0;
        let mut count = 0;
        while let Some(vector) = self.candidates.least(&self.pins, from) {
            from = vector + 1;
            count += 1;
        }
        count
    }

    // The fitting vector after the last one given, or the first.
    pub fn next(&mut self) -> Result<u32, Refusal>
        ensures { GoesOn result (view self.old) (view self.new) }
    {
        let from = self.from.unwrap_or(0);
        // It runs from here on, even if no vector is left.
        self.from = Some(from);
        let next = self.candidates.least(&self.pins, from);
        let vector = next.ok_or(Refusal::NoVectorLeft)?;
        self.from = Some(vector + 1);
        Ok(vector)
    }

    // Back to the start; the pins stay.
    pub fn rewind(&mut self)
        ensures { view self.new ≡ rewound (view self.old) }
    {
        self.from = None;
    }

    // Where the pin of a cell stands, while the search does not run.
    fn place(&self, cell: u32) -> Result<usize, Refusal>
        ensures { Answers result (cell_refusal (view self.now) cell None) (λ i. i ≡ cell - 1) }
    {
        if self.from.is_some() {
            return Err(Refusal::SearchRunning);
        }
        if cell == 0 || cell > self.cells() {
            return Err(Refusal::NoSuchCell);
        }
        Ok(cell as usize - 1)
    }
}
