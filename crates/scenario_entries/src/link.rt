//! Links.

ghost use Rattle.std.specs.Prelude.{◌≡◌, List, MatchResult};
ghost use Rattle.std.specs.List.{list_all};
ghost use Rattle.toml.specs.Data.{Members};
ghost use Rattle.toml.specs.View.{table_view};
ghost use Rattle.scenario_lines.specs.Programs.{Each};
ghost use Rattle.scenario_toml.specs.Values.{is_within_at, number_or_default};
ghost use Rattle.scenario.specs.Applications.{IsLinkFault, app_tables};
ghost use Rattle.scenario.specs.Keys as keys;
ghost use Rattle.scenario.specs.Keys.{link_ranges};
ghost use Rattle.scenario_entries.specs.Entries.{AreFaultFree, IsEntryRead, IsListFault, views};
ghost use Rattle.scenario_entries.specs.AppConnections.{IsAppConnectionOf, has_client, has_app_connection, is_client, is_linked, first_link_reason};
ghost use Rattle.scenario.specs.Scenarios.{IsLinkMeaning};
ghost use Rattle.scenario.specs.declared.fault.FaultyEntry.TheVariants as place;

use mrpc_table::Sequence;
use run_plan::LinkPlan;
use scenario::keys::{end_a, end_b, has_link_keys};
use scenario::{FaultyEntry, RoleWord, ScenarioFault, ScenarioReason, earlier, reason_if};
use scenario_toml::are_within;
use std::alloc::Global;
use toml::Table;

/// The connection of an application, and the application's role.
#[derive(Clone, Copy)]
pub struct AppConnection {
    pub conn: u64,
    pub role: RoleWord,
}

// Whether a role is that of a client.
fn is_client(role: RoleWord) -> bool
    ensures { result ≡ is_client role }
{
    matches!(role, RoleWord::Client)
}

/// Whether an application is on the connection.
pub fn has_app_connection(ports: &[AppConnection], conn: u64) -> bool
    ensures { result ≡ has_app_connection ports.now conn }
{
    ports.iter().any(|port| port.conn == conn)
}

// Whether the application on the connection is a client.
fn has_client(ports: &[AppConnection], conn: u64) -> bool
    ensures { result ≡ has_client ports.now conn }
{
    ports
        .iter()
        .any(|port| port.conn == conn && is_client(port.role))
}

// Whether the connection is an end of one of the links.
fn is_linked(links: &[LinkPlan], conn: u64) -> bool
    ensures { result ≡ is_linked links.now conn }
{
    links.iter().any(|link| u64::from(link.a) == conn || u64::from(link.b) == conn)
}

// The first reason of faults in a link of two connections that follows other links, among these applications.
fn first_link_reason(
    ports: &[AppConnection],
    before: &[LinkPlan],
    a: u64,
    b: u64,
) -> Option<ScenarioReason>
    ensures { result ≡ first_link_reason ports.now before.now a b }
{
    let known = has_app_connection(ports, a) && has_app_connection(ports, b);
    let linked = is_linked(before, a) || is_linked(before, b);
    let client = has_client(ports, a) || has_client(ports, b);
    earlier(
        reason_if(!known, ScenarioReason::Unknown),
        reason_if(a == b || linked || !client, ScenarioReason::Pair),
    )
}

// Whether the ends of a link are in range.
fn has_ends(entry: &Table) -> bool
    ensures { result ≡ list_all (is_within_at (table_view entry.now)) link_ranges }
{
    are_within(&[end_a(), end_b()], entry)
}

// One end of a link.
fn first_end(entry: &Table) -> u64
    ensures { result ≡ number_or_default keys.end_a (table_view entry.now) }
{
    end_a().number(entry)
}

// The other end of a link.
fn second_end(entry: &Table) -> u64
    ensures { result ≡ number_or_default keys.end_b (table_view entry.now) }
{
    end_b().number(entry)
}

// The link of an entry that follows other links, among these applications, or the first reason of its faults.
fn read_link(
    ports: &[AppConnection],
    before: &[LinkPlan],
    entry: &Table,
) -> Result<LinkPlan, ScenarioReason>
    ensures { (all : Members) (links : List Members) → Each IsAppConnectionOf (app_tables all) ports.now
        → Each IsLinkMeaning links before.now
        → IsEntryRead (IsLinkFault all links (table_view entry.now)) (IsLinkMeaning (table_view entry.now)) result }
{
    if !has_link_keys(entry) {
        return Err(ScenarioReason::Key);
    }
    if !has_ends(entry) {
        return Err(ScenarioReason::Number);
    }
    let a = first_end(entry);
    let b = second_end(entry);
    match first_link_reason(ports, before, a, b) {
        Some(reason) => Err(reason),
        None => Ok(LinkPlan {
            a: a as u32,
            b: b as u32,
        }),
    }
}

/// The links of these entries, among these applications.
pub fn read_links(
    alloc: Global,
    ports: &[AppConnection],
    entries: &[&Table],
) -> Result<Sequence<LinkPlan>, ScenarioFault>
    ensures { (all : Members) → Each IsAppConnectionOf (app_tables all) ports.now
        → MatchResult result (λ links. AreFaultFree (IsLinkFault all) (views entries.now) × Each IsLinkMeaning (views entries.now) links)
        (IsListFault place.Link (IsLinkFault all) (views entries.now)) }
{
    let mut links = Sequence::new(alloc);
    let mut number = 0;
    for entry in entries {
        number += 1;
        match read_link(ports, links.as_slice(), entry) {
            Ok(link) => links.push(link)?,
            Err(reason) => {
                return Err(ScenarioFault::At {
                    entry: FaultyEntry::Link(number),
                    reason,
                });
            }
        }
    }
    Ok(links)
}
