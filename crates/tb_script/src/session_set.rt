//! Sets of sessions.

ghost use Rattle.std.specs.Prelude.{◌≡◌, ◌<◌, ℕ, ◌||◌, ◌&&◌, ◌==◌, nat_lt, true, false};
ghost use Rattle.tb_script.specs.Sets.{holds, TakesFirst};

/// Some of the sessions: bit n stands for session n.
#[derive(Clone, Copy, Debug)]
pub struct SessionSet {
    bits: u64,
}

impl SessionSet {
    pub fn none() -> SessionSet
        ensures { (at : ℕ) → holds result at ≡ false }
    {
        SessionSet { bits: 0 }
    }

    /// As many sessions as there can be.
    pub fn all() -> SessionSet
        ensures { (at : ℕ) → at < 64 → holds result at ≡ true }
    {
        SessionSet { bits: u64::MAX }
    }

    pub fn add(&mut self, at: u32)
        requires small { at < 64 }
        ensures { (n : ℕ) → holds self.new n ≡ ((at == n) || holds self.old n) }
    {
        self.bits |= 1u64 << at;
    }

    /// Adds the sessions of another set.
    pub fn join(&mut self, other: SessionSet)
        ensures { (n : ℕ) → holds self.new n ≡ (holds self.old n || holds other n) }
    {
        self.bits |= other.bits;
    }

    /// The sessions of higher numbers.
    pub fn behind(self, at: u32) -> SessionSet
        requires small { at < 64 }
        ensures { (n : ℕ) → holds result n ≡ (nat_lt at n && holds self n) }
    {
        SessionSet {
            bits: self.bits & (u64::MAX << at) & !(1u64 << at),
        }
    }

    /// Takes the session of the lowest number.
    pub fn take_first(&mut self) -> Option<u32>
        ensures { TakesFirst self.old self.new result }
    {
        if self.bits == 0 {
            return None;
        }
        let first = self.bits.trailing_zeros();
        self.bits &= !(1u64 << first);
        Some(first)
    }
}
