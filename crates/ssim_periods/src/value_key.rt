//! Values as keys of maps.
ghost use Rattle.std.specs.Prelude.{refl};
ghost use Rattle.std.specs.Ordering.{as_partial_cmp, eq_by_cmp, on};
ghost use Rattle.std.specs.Cmp.{eq_by_cmp_equiv, on_total, partial_equiv_from_equiv};
ghost use Rattle.std.specs.Cmp.{partial_order_from_total};

use crate::Value;
use std::cmp::Ordering;

/// A value as a key of maps, which rise by the order of values.
#[derive(Clone, Copy)]
pub(crate) struct ValueKey<'a, V: Value> {
    pub(crate) value: &'a V,
}

impl<'a, V: Value> Ord for ValueKey<'a, V> {
    ghost cmp = { on (λ k. k.value.now) V.compared };

    ghost total = { on_total (λ k. k.value.now) V.total };

    ghost matches_partial_cmp = { λ x y. refl };

    ghost matches_eq = { λ x y. refl };

    fn cmp(&self, other: &Self) -> Ordering {
        self.value.order(other.value)
    }
}

impl<'a, V: Value> PartialOrd for ValueKey<'a, V> {
    ghost partial_cmp = { as_partial_cmp (on (λ k. k.value.now) V.compared) };

    ghost laws = { partial_order_from_total (on_total (λ k. k.value.now) V.total) };

    fn partial_cmp(&self, other: &Self) -> Option<Ordering> {
        Some(self.cmp(other))
    }
}

impl<'a, V: Value> PartialEq for ValueKey<'a, V> {
    ghost eq = { eq_by_cmp (on (λ k. k.value.now) V.compared) };

    ghost laws = { partial_equiv_from_equiv (eq_by_cmp_equiv (on_total (λ k. k.value.now) V.total)) };

    fn eq(&self, other: &Self) -> bool {
        self.cmp(other).is_eq()
    }
}

impl<'a, V: Value> Eq for ValueKey<'a, V> {
    ghost laws = { eq_by_cmp_equiv (on_total (λ k. k.value.now) V.total) };
}
