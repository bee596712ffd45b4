//! Numbers that look random, the same for the same seed.

/// A row of such numbers.
#[derive(Clone, Copy)]
pub(crate) struct Chance {
    state: u64,
}

/// Another number for each number, in which all bits depend on all bits.
pub(crate) fn mixed(number: u64) -> u64 {
    let mut mixed = number.wrapping_add(0x9E37_79B9_7F4A_7C15);
    mixed = (mixed ^ mixed >> 30).wrapping_mul(0xBF58_476D_1CE4_E5B9);
    mixed = (mixed ^ mixed >> 27).wrapping_mul(0x94D0_49BB_1331_11EB);
    mixed ^ mixed >> 31
}

impl Chance {
    /// The row of a seed. Rows of the same seed with other tags are others.
    pub(crate) fn new(seed: u64, tag: u64) -> Chance {
        Chance {
            state: mixed(seed ^ mixed(tag)),
        }
    }

    /// The next number, of 32 bits.
    fn step(&mut self) -> u64 {
        self.state = self
            .state
            .wrapping_mul(6_364_136_223_846_793_005)
            .wrapping_add(1_442_695_040_888_963_407);
        self.state >> 32
    }

    /// The next number, of 24 bits.
    pub(crate) fn next(&mut self) -> u32 {
        (self.step() & 0xFF_FFFF) as u32
    }

    /// The next number, brought below a size. Below 0 it is 0.
    pub(crate) fn part(&mut self, size: u32) -> u32 {
        (self.step().wrapping_mul(size as u64) >> 32) as u32
    }

    /// The next number, brought below a limit. Below 0 it is 0.
    pub(crate) fn below(&mut self, limit: u32) -> u32 {
        self.next() % limit.max(1)
    }
}
