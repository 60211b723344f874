//! Distinct values, each with its index, found by the order of values.

ghost use Rattle.std.specs.Prelude.{◌≡◌, ◌<◌, ◌^◌, ◌++◌, ◌∷◌, [], None, map, IfSome, OnOk};
ghost use Rattle.ssim_periods.specs.Distinct.{index_of};

use crate::Value;
use crate::value_key::ValueKey;
use ssim_values::Memory;
use std::alloc::Global;
use std::collections::BTreeMap;
use std::marker::Model;

/// Distinct values, in the order in which they came. A value among n others is found by comparing it
/// with about log n of them.
#[derive(Drop)]
pub struct DistinctValues<'a, V: Value> {
    values: Vec<&'a V>,
    /// The index of each value.
    indices: BTreeMap<ValueKey<'a, V>, usize>,
}

impl<'a, V: Value> Model for DistinctValues<'a, V> {
    ghost use Rattle.std.specs.Prelude.{List, map};
    ghost use Rattle.ssim_periods.specs.internal.Gather.{ArePlaced};

    ghost Value = { List V };

    ghost view = { λ d. map (λ value. value.now) d.values.items };

    ghost invariant = { λ d. ArePlaced V.alike V.compared (λ key. key.value.now)
        (map (λ value. value.now) d.values.items) d.indices };
}

impl<'a, V: Value> DistinctValues<'a, V> {
    /// No values. Allocates nothing.
    pub fn new(alloc: Global) -> DistinctValues<'a, V>
        ensures { result ≡ [] }
    {
        DistinctValues {
            values: Vec::new(alloc),
            indices: BTreeMap::new(alloc),
        }
    }

    /// The values, by index.
    pub fn values(&self) -> &[&'a V]
        ensures { map (λ value. value.now) result.now ≡ self.now }
    {
        &self.values
    }

    /// The index of a value, if it is one of these.
    pub fn index_of(&self, value: &'a V) -> Option<usize>
        ensures value { result ≡ index_of V.alike self.now value.now }
        ensures bound { IfSome result (λ index. index < 2 ^ 63) }
    {
        self.indices.get(&ValueKey { value }).copied()
    }

    /// Adds a value that is none of these, as the last one. The only error is out of memory.
    pub fn add(&mut self, value: &'a V) -> Result<(), Memory>
        requires { index_of V.alike self.old value.now ≡ None }
        ensures { OnOk result (self.new ≡ self.old ++ value.now ∷ []) }
    {
        self.values.reserve(1)?;
        self.indices.insert(ValueKey { value }, self.values.len())?;
        self.values.push_reserved(value);
        Ok(())
    }
}
