//! A SunSpec model: its address, its ID and its length.
ghost use Rattle.std.specs.Prelude.{◌≡◌};

/// A SunSpec model: the address of its ID register, its ID, and its length. The length is the
/// number of registers after the ID and length registers.
#[derive(Clone, Copy, PartialEq, Eq)]
pub struct Model {
    pub address: u16,
    pub id: u16,
    pub length: u16,
}

impl Model {
    ghost use Rattle.sun_chain.specs.Chain.{next_after};

    /// Returns the address after the model's last register.
    pub fn next(&self) -> u32
        ensures { result ≡ next_after self.now }
    {
        u32::from(self.address) + 2 + u32::from(self.length)
    }
}
