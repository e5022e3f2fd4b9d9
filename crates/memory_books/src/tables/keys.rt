//! The keys of lookups in the store's tables: a name, or a name and a number.
ghost use Rattle.std.specs.Prelude.{nat_eq};
ghost use Rattle.std.proofs.Common.{rules};
ghost use Rattle.std.specs.Str.{bytes_eq};
ghost use Rattle.std.specs.Cmp.{partial_order_from_own_ties};
ghost use Rattle.std.specs.Cmp.Lexicographic.{slice_cmp};
ghost use Rattle.std.specs.Cmp.Rules.{comparing};
ghost use Rattle.std.specs.Ordering.{nat_cmp, on, then_cmp, eq_of_both, as_partial_cmp};

use office_events::Name;
use std::cmp::Ordering;

/// The key of a lookup: a name and a number. For lookups by name only, the number is 0.
#[derive(Clone, Copy)]
pub(crate) struct Key {
    pub(crate) name: Name,
    pub(crate) number: u64,
}

impl PartialEq for Key {
    ghost eq = { eq_of_both (on (λ k. k.name) bytes_eq) (on (λ k. k.number) nat_eq) };

    ghost laws = { Prim.search (comparing, rules) };

    fn eq(&self, other: &Key) -> bool {
        self.name.is(&other.name) && self.number == other.number
    }
}

impl Eq for Key {
    ghost laws = { Prim.search (comparing, rules) };
}

impl Ord for Key {
    ghost cmp = { then_cmp (on (λ k. k.name) (slice_cmp nat_cmp)) (on (λ k. k.number) nat_cmp) };

    ghost total = { Prim.search (comparing, rules) };

    ghost matches_partial_cmp = { Prim.search (comparing, rules) };

    ghost matches_eq = { Prim.search (comparing, rules) };

    fn cmp(&self, other: &Key) -> Ordering {
        self.name
            .as_bytes()
            .cmp(other.name.as_bytes())
            .then(self.number.cmp(&other.number))
    }
}

impl PartialOrd for Key {
    ghost partial_cmp = { as_partial_cmp (then_cmp (on (λ k. k.name) (slice_cmp nat_cmp))
        (on (λ k. k.number) nat_cmp)) };

    ghost laws = { partial_order_from_own_ties (Prim.search (comparing, rules))
        (Prim.search (comparing, rules)) };

    fn partial_cmp(&self, other: &Key) -> Option<Ordering> {
        Some(self.cmp(other))
    }
}
