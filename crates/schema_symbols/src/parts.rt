//! The parts of names.

ghost use Rattle.std.specs.Prelude.{◌≡◌, ◌≢◌, ◌∷◌, ℕ, List, Some, IfOk, OnOk, MatchOption, cond};
ghost use Rattle.mrpc_table.specs.Names.{parts_of};
ghost use Rattle.proto_ast.specs.Joined.{package_parts};
ghost use Rattle.schema_symbols.specs.Parts.{KnowsLastIndices, last_in, is_same_name, values_of};

use mrpc_table::{Memory, split_once};
use proto_ast::Word;
use std::alloc::Global;
use std::collections::BTreeMap;

// The part of a name after a leading dot; `None` if there is no leading dot.
pub(crate) fn after_dot(name: &[u8]) -> Option<&[u8]>
    ensures { MatchOption result ((rest : List ℕ) → name.now ≢ 46 ∷ rest) (λ r. name.now ≡ 46 ∷ r.now) }
{
    match name {
        [b'.', rest @ ..] => Some(rest),
        _ => None,
    }
}

// The first part of a name.
pub(crate) fn first_part(name: &[u8]) -> &[u8]
    ensures { (others : List (List ℕ)) × (parts_of name.now ≡ result.now ∷ others) }
{
    match split_once(name, b'.') {
        Some((part, _)) => part,
        None => name,
    }
}

// The parts of a name.
fn name_parts(alloc: Global, name: &[u8]) -> Result<Vec<&[u8]>, Memory>
    ensures { IfOk result (λ v. values_of v.items ≡ parts_of name.now) }
{
    let mut parts = Vec::new(alloc);
    let mut rest = name;
    while let Some((part, others)) = split_once(rest, b'.') {
        parts.push(part)?;
        rest = others;
    }
    parts.push(rest)?;
    Ok(parts)
}

// The parts of a package.
pub(crate) fn package_parts(alloc: Global, declared: &Option<Word>) -> Result<Vec<&[u8]>, Memory>
    ensures { IfOk result (λ v. values_of v.items ≡ package_parts declared.now) }
{
    match declared {
        Some(word) => name_parts(alloc, word.name.as_slice()),
        None => Ok(Vec::new(alloc)),
    }
}

// Sets the last index of a part.
fn put_last<'a>(
    places: &mut BTreeMap<&'a [u8], usize>,
    part: &'a [u8],
    place: usize,
) -> Result<(), Memory>
    ensures { OnOk result ((q : List ℕ) → last_in places.new q
        ≡ cond (is_same_name part.now q) (Some place) (last_in places.old q)) }
{
    places.insert(part, place)?;
    Ok(())
}

// The last index of each of some parts.
pub(crate) fn last_places<'a>(
    alloc: Global,
    parts: &[&'a [u8]],
) -> Result<BTreeMap<&'a [u8], usize>, Memory>
    ensures { IfOk result (KnowsLastIndices (values_of parts.now)) }
{
    let mut places = BTreeMap::new(alloc);
    for i in 0..parts.len() {
        put_last(&mut places, parts[i], i)?;
    }
    Ok(places)
}
