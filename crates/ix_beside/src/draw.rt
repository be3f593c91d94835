// Numbers that look drawn.

/// A linear congruential generator (Numerical Recipes, section 7.1).
#[derive(Clone, Copy)]
pub struct Draw(pub u32);

impl Draw {
    pub fn next(&mut self) -> u32 {
        self.0 = self.0.wrapping_mul(1_664_525).wrapping_add(1_013_904_223);
        self.0 >> 16
    }
}
