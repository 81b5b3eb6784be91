// What a job went over.

/// How many things a job went over, and the sum of their numbers, which wraps.
#[derive(Clone, Copy, Default)]
pub struct Tally {
    pub count: u64,
    pub sum: u64,
}

impl Tally {
    /// Adds so many things with this sum. Both numbers wrap.
    pub fn add(&mut self, count: u64, sum: u64) {
        self.count = self.count.wrapping_add(count);
        self.sum = self.sum.wrapping_add(sum);
    }

    /// Adds one more thing, where the order of things counts. Both numbers wrap.
    pub fn add_next(&mut self, n: u64) {
        self.count = self.count.wrapping_add(1);
        self.sum = self.sum.wrapping_mul(31).wrapping_add(n);
    }
}

/// The number in eight bytes, and 0 for other bytes.
pub fn number(bytes: &[u8]) -> u64 {
    match bytes.try_into() {
        Ok(bytes) => u64::from_be_bytes(bytes),
        Err(_) => 0,
    }
}
