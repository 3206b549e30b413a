// Commands: what a line asks for.

// What a line asks for. A number too large for its word stands here as the largest, which every question refuses alike.
#[derive(Clone, Copy)]
pub enum Command {
    // The polynomial of a vector.
    Multiply {
        cells: u32,
        vector: u32,
    },
    // What a ring shows at a moment.
    Pattern {
        cells: u32,
        vector: u32,
        moment: Moment,
    },
    // What a register shows at a moment.
    Register {
        polynomial: u32,
        moment: Moment,
    },
}

// So many clocks after a seed, seen through layers.
#[derive(Clone, Copy)]
pub struct Moment {
    pub seed: u32,
    pub clock: u64,
    pub layers: Layers,
}

// How many layers of each kind stand over the generator; their order does not matter. A pile has the same two numbers beside its
// generator, which a line of words does not have.
#[derive(Clone, Copy, Default)]
pub struct Layers {
    pub doublers: u32,
    pub taps: u32,
}
