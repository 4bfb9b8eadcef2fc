//! The policies that an application names.

ghost use Rattle.std.specs.Prelude.{◌≡◌, IfOk, codes, filter_map, map, option_and_then};
ghost use Rattle.policy_declarations.specs.Declarations.{policy_index};
ghost use Rattle.toml.specs.View.{table_view};
ghost use Rattle.scenario.specs.Applications.{policies_named_in};
ghost use Rattle.scenario_toml.specs.Values.{text_at};

use mrpc_table::{Memory, Sequence};
use policy_declarations::Declarations;
use scenario_toml::{text_at, texts_at};
use std::alloc::Global;
use toml::Table;

// The names of its chain, followed by that of the policy that judges deliveries.
pub(crate) fn names_in<'a>(alloc: Global, entry: &'a Table) -> Result<Vec<&'a [u8]>, Memory>
    ensures { IfOk result (λ names. map (λ n. n.now) names.items ≡ policies_named_in (table_view entry.now)) }
{
    let mut names = texts_at(alloc, entry, "chain")?;
    match text_at(entry, "inbound") {
        Some(name) => names.push(name.as_bytes())?,
        None => {}
    }
    Ok(names)
}

// The indices of the names that are declared.
pub(crate) fn policy_indices(
    alloc: Global,
    declared: &Declarations,
    names: &[&[u8]],
) -> Result<Sequence<usize>, Memory>
    ensures { IfOk result (λ places. places ≡ filter_map (policy_index declared.now) (map (λ n. n.now) names.now)) }
{
    let mut places = Sequence::new(alloc);
    for name in names {
        if let Some(place) = declared.policy(name) {
            places.push(place)?;
        }
    }
    Ok(places)
}

// The index of the policy that judges deliveries to an application, if it names a declared one.
pub(crate) fn inbound_in(declared: &Declarations, entry: &Table) -> Option<usize>
    ensures { result ≡ option_and_then (policy_index declared.now) (text_at (codes "inbound") (table_view entry.now)) }
{
    match text_at(entry, "inbound") {
        Some(name) => declared.policy(name.as_bytes()),
        None => None,
    }
}
