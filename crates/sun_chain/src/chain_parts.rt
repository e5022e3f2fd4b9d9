//! Accessors of a chain of SunSpec models: its base address, its models and its end.
ghost use Rattle.std.specs.Prelude.{◌≡◌, ◌≤◌, length};
ghost use Rattle.std.specs.List.{All};
ghost use Rattle.sun_chain.specs.Chain.{base_of, end_of, models_of, next_after};

use crate::chain::Chain;
use crate::model::Model;

impl Chain<'_> {
    /// Returns the address of the chain's `SunS` mark.
    pub fn base(&self) -> u16
        ensures { result ≡ base_of self.now }
    {
        self.base
    }

    /// Returns the address of the ID 0xFFFF that ends the chain.
    pub fn end(&self) -> u16
        ensures { result ≡ end_of self.now }
    {
        self.end
    }

    /// Returns the models of the chain of SunSpec models, in order of address.
    pub fn models(&self) -> &[Model]
        ensures models { result.now ≡ models_of self.now }
        ensures few { length result.now ≤ 64 }
        ensures inside { All (λ model. next_after model ≤ 65536) result.now }
    {
        &self.models
    }
}
