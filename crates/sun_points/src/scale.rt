//! SunSpec scale factors, decoded from `sunssf` registers.
ghost use Rattle.std.specs.Prelude.{◌≡◌, ◌≤ℤ◌, pos, negsuc};
ghost use Rattle.sun_points.specs.Scale.{scale_of};

use std::marker::Model;

/// A scale factor: the power of ten that multiplies a value, -10 to 10.
#[derive(Clone, Copy, PartialEq, Eq)]
pub struct Scale {
    exponent: i8,
}

impl Model for Scale {
    ghost use Rattle.std.specs.Prelude.{ℤ, ◌≤ℤ◌, pos, negsuc};

    ghost Value = { ℤ };

    ghost view = { λ s. s.exponent };

    ghost invariant = { λ s. (negsuc 9 ≤ℤ s.exponent) × (s.exponent ≤ℤ pos 10) };

    ghost inverse = { λ z. record { exponent = z } };
}

impl Scale {
    /// Returns the scale factor of a sunssf register, or `None` if the value is not from -10 to 10.
    /// The value 0x8000 ("not implemented") means 0.
    pub fn new(word: u16) -> Option<Self>
        ensures { result ≡ scale_of word }
    {
        if word == 0x8000 {
            return Some(Scale { exponent: 0 });
        }
        match word.cast_signed() {
            exponent @ -10..=10 => Some(Scale {
                exponent: exponent as i8,
            }),
            _ => None,
        }
    }

    /// Returns the power of ten of this scale, -10 to 10. A SunSpec scale is the power of ten by
    /// which a point's value is multiplied.
    pub fn exponent(self) -> i8
        ensures value { result ≡ self }
        ensures low { negsuc 9 ≤ℤ result }
        ensures high { result ≤ℤ pos 10 }
    {
        self.exponent
    }
}

impl Default for Scale {
    ghost use Rattle.std.specs.Prelude.{◌≡◌, pos};

    ghost is_default = { λ scale. scale ≡ pos 0 };

    fn default() -> Self {
        Scale { exponent: 0 }
    }
}
