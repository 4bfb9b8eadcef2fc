//! Names and their indices by ascending name.

ghost use Rattle.std.specs.Prelude.{◌≡◌, ◌<◌, ◌^◌, length, IfOk, map};
ghost use Rattle.mrpc_table.specs.Valid.{AreDistinct};
ghost use Rattle.schema_resolve.specs.Placing.{IsOrder, IsPermutationOfIndices, AreInverseIndices, IsOrderedNames};

use mrpc_table::{Memory, Name};
use std::alloc::Global;

// Names, and their indices by ascending name.
#[derive(Drop)]
pub(crate) struct PlacedNames {
    pub names: Vec<Name>,
    // For each index in the ascending order, the index of its name.
    pub order: Vec<usize>,
    // For each name, its index in the ascending order.
    pub places: Vec<u32>,
}

// Names with their indices, by ascending name.
fn sorted<'a>(alloc: Global, names: &'a [Name]) -> Result<Vec<(&'a [u8], usize)>, Memory>
    requires { AreDistinct names.now }
    ensures { IfOk result (λ v. IsOrder names.now (map (λ p. p.1) v.items)) }
{
    let mut pairs = Vec::with_capacity(alloc, names.len())?;
    for i in 0..names.len() {
        pairs.push((names[i].as_slice(), i))?;
    }
    pairs.sort()?;
    Ok(pairs)
}

fn order(alloc: Global, names: &[Name]) -> Result<Vec<usize>, Memory>
    requires { AreDistinct names.now }
    ensures { IfOk result (λ v. IsOrder names.now v.items) }
{
    let sorted = sorted(alloc, names)?;
    Ok(sorted.iter().map(|pair| pair.1).collect(alloc)?)
}

// A vector of this many zeros.
fn unplaced(alloc: Global, count: usize) -> Result<Vec<u32>, Memory>
    ensures { IfOk result (λ v. length v.items ≡ count) }
{
    let mut places = Vec::with_capacity(alloc, count)?;
    for _ in 0..count {
        places.push(0)?;
    }
    Ok(places)
}

// The index of each name in an order.
fn places(alloc: Global, order: &[usize]) -> Result<Vec<u32>, Memory>
    requires few { length order.now < 2 ^ 32 }
    requires all { IsPermutationOfIndices order.now }
    ensures { IfOk result (λ v. AreInverseIndices order.now v.items) }
{
    let mut places = unplaced(alloc, order.len())?;
    for place in 0..order.len() {
        places[order[place]] = place as u32;
    }
    Ok(places)
}

impl PlacedNames {
    // Names with their ascending order and their indices in it.
    pub(crate) fn new(alloc: Global, names: Vec<Name>) -> Result<PlacedNames, Memory>
        requires few { length names.items < 2 ^ 32 }
        requires distinct { AreDistinct names.items }
        ensures { IfOk result (IsOrderedNames names.items) }
    {
        let order = order(alloc, names.as_slice())?;
        let places = places(alloc, order.as_slice())?;
        Ok(PlacedNames {
            names,
            order,
            places,
        })
    }
}
