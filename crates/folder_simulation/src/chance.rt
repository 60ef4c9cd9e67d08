//! Chance by a seed: the same numbers at every run.

/// A source of numbers.
#[derive(Drop)]
pub struct Chance {
    state: u64,
}

impl Chance {
    /// The numbers of this seed.
    pub fn new(seed: u64) -> Chance {
        Chance {
            state: seed
                .wrapping_mul(0x9e37_79b9_7f4a_7c15)
                .wrapping_add(0x1234_5678_9abc_def1),
        }
    }

    /// A number below this one, or 0.
    pub fn below(&mut self, end: usize) -> usize {
        let mut x = self.state;
        x ^= x >> 12;
        x ^= x.wrapping_mul(33_554_432);
        x ^= x >> 27;
        self.state = x;
        let drawn = (x.wrapping_mul(0x2545_f491_4f6c_dd1d) >> 33) as usize;
        if end == 0 { 0 } else { drawn % end }
    }

    /// Whether something is so that is so once in so many times.
    pub fn once_in(&mut self, times: usize) -> bool {
        self.below(times) == 0
    }
}
