//! Applications.

ghost use Rattle.std.specs.Prelude.{◌≡◌, ◌≤◌, ◌<◌, ◌+◌, ◌*◌, ◌++◌, ◌∷◌, [], List, None, Some, Ok, true, All, IfOk, MatchOption, MatchResult, OnOk, filter_map, length, map, sum};
ghost use Rattle.std.specs.List.{list_all};
ghost use Rattle.mrpc_table.specs.declared.table.Table.{Table as TheTable};
ghost use Rattle.policy_declarations.specs.Declarations.{policy_names, policy_index};
ghost use Rattle.toml.specs.Data.{Members};
ghost use Rattle.toml.specs.View.{table_view};
ghost use Rattle.scenario_toml.specs.Values.{is_within_at, number_or_default};
ghost use Rattle.scenario.specs.Applications.{IsAppFault, chain_names, entry_submissions};
ghost use Rattle.scenario.specs.Keys as keys;
ghost use Rattle.scenario.specs.Keys.{app_ranges, entry_role};
ghost use Rattle.scenario.specs.Policies.{entry_names};
ghost use Rattle.scenario.specs.Reasons.{IsSoFar, lower_ranked};
ghost use Rattle.scenario.specs.declared.fault.FaultyEntry.TheVariants as place;
ghost use Rattle.scenario_lines.specs.Programs.{Each};
ghost use Rattle.scenario_entries.specs.Entries.{AreFaultFree, IsEntryRead, IsListFault, views};
ghost use Rattle.scenario_entries.specs.AppConnections.{IsAppConnectionOf};
ghost use Rattle.scenario_reader.specs.AppContext.{IsAppContext};
ghost use Rattle.scenario_reader.specs.Joining.{AreJoined, HasAppHeadFault, IsDraft, IsEarlyRead, IsJoined, IsLateRead, IsRoleRead, HasNoEarlyFault, is_on_end, is_not_inbound_policy, reason_in};
ghost use Rattle.scenario_reader.specs.Owning.{HasValidOwn, IsValidOwn};

use crate::app_context::{AppContext, Apps, JoinedApplication};
use crate::attaching::attach_all;
use crate::names::{inbound_in, names_in, policy_indices};
use crate::own::own_in;
use engine_core::{Policy, change_or_rejection, change_preserves_chain};
use mrpc_table::{Memory, Sequence};
use policy_declarations::Declarations;
use run_plan::{Application, MAX_WORK, OwnSchema, Role};
use scenario::keys::{conn, entry_role, has_app_keys, heap, receive, ring, weight};
use scenario::{
    FaultyEntry, RoleWord, ScenarioFault, ScenarioReason, earlier, first_with, reason_if,
    reason_of_line,
};
use scenario_entries::{
    AppConnection, ChainOutline, has_app_connection, names_keep_index, names_reason, read_program,
    submissions,
};
use scenario_lines::ProgramRole;
use scenario_toml::{are_within, texts_at};
use script_grammar::meanings_or_reason;
use std::alloc::Global;
use toml::Table;

// What an application's program means, or the first reason of its faults.
fn role_in(
    alloc: Global,
    role: RoleWord,
    heap: u32,
    lines: &[&[u8]],
) -> Result<Result<Role, ScenarioReason>, Memory>
    ensures { IfOk result (IsRoleRead role heap (map (λ t. t.now) lines.now)) }
{
    meanings_or_reason();
    match role {
        RoleWord::Client => match read_program(alloc, ProgramRole::Client, heap, lines)? {
            Ok(program) => Ok(Ok(Role::Client(program))),
            Err(reason) => Ok(Err(reason_of_line(reason))),
        },
        RoleWord::Server => match read_program(alloc, ProgramRole::Server, heap, lines)? {
            Ok(program) => Ok(Ok(Role::Server(program))),
            Err(reason) => Ok(Err(reason_of_line(reason))),
        },
        RoleWord::Echo => Ok(Ok(Role::Echo)),
    }
}

// Whether the numbers of an application are in range.
fn has_ranges(entry: &Table) -> bool
    ensures { result ≡ list_all (is_within_at (table_view entry.now)) app_ranges }
{
    are_within(&[conn(), heap(), receive(), ring(), weight()], entry)
}

// The size of its heap in words, which is in range.
fn heap_in(entry: &Table) -> u32
    requires { list_all (is_within_at (table_view entry.now)) app_ranges ≡ true }
    ensures { result ≡ number_or_default keys.heap (table_view entry.now) }
{
    heap().number(entry) as u32
}

// The number of its connection, which is in range.
fn conn_in(entry: &Table) -> u32
    requires { list_all (is_within_at (table_view entry.now)) app_ranges ≡ true }
    ensures { result ≡ number_or_default keys.conn (table_view entry.now) }
{
    conn().number(entry) as u32
}

// The number of its connection.
fn number_of(entry: &Table) -> u64
    ensures { result ≡ number_or_default keys.conn (table_view entry.now) }
{
    conn().number(entry)
}

// The first reason of faults in the connection of an application and the policies that it names.
fn head_reason(
    declared: &Declarations,
    ports: &[AppConnection],
    conn: u64,
    names: &[&[u8]],
) -> Option<ScenarioReason>
    ensures { (policies before : List Members) → policy_names declared.now ≡ entry_names policies
        → Each IsAppConnectionOf before ports.now
        → IsSoFar (HasAppHeadFault policies before conn (map (λ n. n.now) names.now)) result }
{
    let known = reason_if(has_app_connection(ports, conn), ScenarioReason::Known);
    earlier(names_reason(declared, names), known)
}

// The role of an application, and its own schema.
struct EarlyPart {
    role: Role,
    own: Option<OwnSchema>,
}

// Written by hand so that a drop is one call, not a drop of each field.
impl Drop for EarlyPart {
    fn drop(self) {
        let EarlyPart {
            role: _role,
            own: _own,
        } = self;
    }
}

impl EarlyPart {
    // The application of an entry without a fault.
    fn draft(
        self,
        alloc: Global,
        declared: &Declarations,
        entry: &Table,
    ) -> Result<Application, Memory>
        requires { list_all (is_within_at (table_view entry.now)) app_ranges ≡ true }
        ensures { IfOk result (IsDraft declared.now (table_view entry.now) self.role self.own) }
    {
        let chain = attached_in(alloc, declared, entry)?;
        let EarlyPart { role, own } = self;
        Ok(Application {
            conn: conn_in(entry),
            role,
            heap: heap().number(entry),
            receive: receive().number(entry),
            ring: ring().number(entry),
            weight: weight().number(entry),
            chain,
            inbound: inbound_in(declared, entry),
            own,
        })
    }
}

// The indices of the policies that are attached to an application's connection.
fn attached_in(
    alloc: Global,
    declared: &Declarations,
    entry: &Table,
) -> Result<Sequence<usize>, Memory>
    ensures { IfOk result (λ places. places
        ≡ filter_map (policy_index declared.now) (chain_names (table_view entry.now))) }
{
    let names = texts_at(alloc, entry, "chain")?;
    policy_indices(alloc, declared, names.as_slice())
}

// The first of several reasons of faults in an application, if one of its parts has one.
fn early_of(
    head: Option<ScenarioReason>,
    role: Result<Role, ScenarioReason>,
    own: Result<Option<OwnSchema>, ScenarioReason>,
) -> Result<EarlyPart, ScenarioReason>
    ensures { MatchResult result (λ e. (head ≡ None) × (role ≡ Ok e.role) × (own ≡ Ok e.own))
        (λ q. Some q ≡ lower_ranked (lower_ranked head (reason_in role)) (reason_in own)) }
{
    match role {
        Err(of_role) => match own {
            Err(of_own) => Err(first_with(earlier(head, Some(of_role)), of_own)),
            Ok(_) => Err(first_with(head, of_role)),
        },
        Ok(role) => match own {
            Err(of_own) => Err(first_with(head, of_own)),
            Ok(own) => match head {
                Some(reason) => Err(reason),
                None => Ok(EarlyPart { role, own }),
            },
        },
    }
}

// The role and the own schema of an application, or the first reason of faults in these, its connection and the
// policies that it names. The application has its keys, and its numbers are in range.
fn early_in(
    alloc: Global,
    above: AppContext<'_, '_, '_>,
    ports: &[AppConnection],
    role: RoleWord,
    entry: &Table,
) -> Result<Result<EarlyPart, ScenarioReason>, Memory>
    requires long { length above.policies.now ≡ length above.declared.now.policies }
    requires ranges { list_all (is_within_at (table_view entry.now)) app_ranges ≡ true }
    ensures read { (all : Members) (T : TheTable) (before : List Members) → IsAppContext all T above.entry
        → Each IsAppConnectionOf before ports.now
        → entry_role (table_view entry.now) ≡ Some role → IfOk result (IsEarlyRead all before (table_view entry.now)) }
    ensures valid { IfOk result (λ r. IfOk r (λ e. IsValidOwn e.own)) }
{
    names_keep_index();
    let lines = texts_at(alloc, entry, "program")?;
    let said = role_in(alloc, role, heap_in(entry), lines.as_slice())?;
    let own = own_in(alloc, above, entry)?;
    let names = names_in(alloc, entry)?;
    let head = head_reason(above.declared, ports, number_of(entry), names.as_slice());
    Ok(early_of(head, said, own))
}

// Whether the policy at an index doesn't judge deliveries: only access policies do.
fn is_not_inbound_policy(declared: &Declarations, inbound: Option<usize>) -> bool
    ensures { result ≡ is_not_inbound_policy declared.now inbound }
{
    match inbound {
        None => false,
        Some(place) => match declared.policies().get(place) {
            None => false,
            Some(named) => !matches!(named.policy, Policy::Access(_)),
        },
    }
}

// Whether a connection is an end of a link.
fn is_on_end(ends: &[u64], conn: u64) -> bool
    ensures { result ≡ is_on_end ends.now conn }
{
    ends.iter().any(|end| *end == conn)
}

// The total number of submitted calls; `None` if a run may not load that much. Each call is counted twice, for its
// reply.
fn work_in(loads: u64, before: u64, more: u64) -> Option<u64>
    requires from_one { 1 ≤ loads }
    requires few { loads ≤ 16384 }
    ensures { MatchOption result (MAX_WORK < 2 * (before + more) * loads)
        (λ n. (n ≡ before + more) × (2 * n * loads ≤ MAX_WORK)) }
{
    if before > MAX_WORK || more > MAX_WORK {
        return None;
    }
    let submitted = before + more;
    if 2 * submitted * loads <= MAX_WORK {
        Some(submitted)
    } else {
        None
    }
}

// The number of calls that an application submits.
fn submissions_of(alloc: Global, role: RoleWord, entry: &Table) -> Result<u64, Memory>
    ensures { IfOk result (λ n. entry_role (table_view entry.now) ≡ Some role
        → n ≡ entry_submissions (table_view entry.now)) }
{
    let lines = texts_at(alloc, entry, "program")?;
    Ok(submissions(role, lines.as_slice()))
}

// The chain of an application, and the number of calls submitted up to it.
#[derive(Drop)]
struct LatePart<'a> {
    chain: ChainOutline<'a>,
    submitted: u64,
}

// The chain of an application and the number of calls submitted up to it, or the first reason of faults in these, the
// policy that judges deliveries, and its links. The policies of the application are declared.
fn late_in<'a>(
    alloc: Global,
    above: AppContext<'a, '_, '_>,
    before: u64,
    role: RoleWord,
    entry: &'a Table,
) -> Result<Result<LatePart<'a>, ScenarioReason>, Memory>
    requires from_one { 1 ≤ above.loads }
    requires few { above.loads ≤ 16384 }
    requires ranges { list_all (is_within_at (table_view entry.now)) app_ranges ≡ true }
    ensures { (all : Members) (T : TheTable) (apps : List Members) → IsAppContext all T above.entry
        → before ≡ sum (map entry_submissions apps) → entry_role (table_view entry.now) ≡ Some role
        → HasNoEarlyFault all apps (table_view entry.now)
        → IfOk result (IsLateRead all above.entry.declared.now.policies apps (table_view entry.now)) }
{
    change_or_rejection();
    change_preserves_chain();
    names_keep_index();
    let names = texts_at(alloc, entry, "chain")?;
    let chain = match attach_all(alloc, above.declared, names.as_slice())? {
        Ok(chain) => chain,
        Err(reason) => return Ok(Err(reason)),
    };
    if is_not_inbound_policy(above.declared, inbound_in(above.declared, entry)) {
        return Ok(Err(ScenarioReason::OtherKind));
    }
    if !is_on_end(above.ends, number_of(entry)) {
        return Ok(Err(ScenarioReason::Pair));
    }
    let more = submissions_of(alloc, role, entry)?;
    match work_in(above.loads, before, more) {
        None => Ok(Err(ScenarioReason::Work)),
        Some(submitted) => Ok(Ok(LatePart { chain, submitted })),
    }
}

// The application of an entry that follows others, or the first reason of its faults.
fn read_app<'a>(
    alloc: Global,
    above: AppContext<'a, '_, '_>,
    ports: &[AppConnection],
    submitted: u64,
    entry: &'a Table,
) -> Result<Result<JoinedApplication<'a>, ScenarioReason>, Memory>
    requires long { length above.policies.now ≡ length above.declared.now.policies }
    requires from_one { 1 ≤ above.loads }
    requires few { above.loads ≤ 16384 }
    ensures read { (all : Members) (T : TheTable) (before : List Members) → IsAppContext all T above.entry
        → Each IsAppConnectionOf before ports.now
        → submitted ≡ sum (map entry_submissions before)
        → IfOk result (IsEntryRead (IsAppFault all above.entry.declared.now.policies before (table_view entry.now))
        (IsJoined all above.entry.declared.now before (table_view entry.now))) }
    ensures valid { IfOk result (λ r. IfOk r (λ j. HasValidOwn j.app)) }
{
    let Some(role) = entry_role(entry) else {
        return Ok(Err(ScenarioReason::Key));
    };
    if !has_app_keys(role, entry) {
        return Ok(Err(ScenarioReason::Key));
    }
    if !has_ranges(entry) {
        return Ok(Err(ScenarioReason::Number));
    }
    let early = match early_in(alloc, above, ports, role, entry)? {
        Ok(early) => early,
        Err(reason) => return Ok(Err(reason)),
    };
    let late = match late_in(alloc, above, submitted, role, entry)? {
        Ok(late) => late,
        Err(reason) => return Ok(Err(reason)),
    };
    let LatePart { chain, submitted } = late;
    let app = early.draft(alloc, above.declared, entry)?;
    let port = AppConnection {
        conn: number_of(entry),
        role,
    };
    Ok(Ok(JoinedApplication {
        port,
        app,
        chain,
        submitted,
    }))
}

impl<'a> Apps<'a> {
    // An empty list of applications.
    fn new(alloc: Global) -> Apps<'a>
        ensures ports { result.ports.items ≡ [] }
        ensures applications { result.applications ≡ [] }
        ensures chains { result.chains.items ≡ [] }
    {
        Apps {
            ports: Vec::new(alloc),
            applications: Sequence::new(alloc),
            chains: Vec::new(alloc),
        }
    }

    // Appends an application.
    fn push(
        &mut self,
        port: AppConnection,
        app: Application,
        chain: ChainOutline<'a>,
    ) -> Result<(), Memory>
        ensures ports { OnOk result (self.new.ports.items ≡ self.old.ports.items ++ port ∷ []) }
        ensures applications { OnOk result (self.new.applications ≡ self.old.applications ++ app ∷ []) }
        ensures chains { OnOk result (self.new.chains.items ≡ self.old.chains.items ++ chain.entry ∷ []) }
    {
        self.ports.push(port)?;
        self.applications.push(app)?;
        match self.chains.push(chain) {
            Ok(()) => Ok(()),
            Err(_) => Err(Memory),
        }
    }
}

// The applications of these entries.
pub(crate) fn read_apps<'a>(
    alloc: Global,
    above: AppContext<'a, '_, '_>,
    entries: &[&'a Table],
) -> Result<Apps<'a>, ScenarioFault>
    requires long { length above.policies.now ≡ length above.declared.now.policies }
    requires from_one { 1 ≤ above.loads }
    requires few { above.loads ≤ 16384 }
    ensures read { (all : Members) (T : TheTable) → IsAppContext all T above.entry
        → MatchResult result (λ apps. AreFaultFree (IsAppFault all above.entry.declared.now.policies)
        (views entries.now)
        × AreJoined all above.entry.declared.now (views entries.now) apps)
        (IsListFault place.App (IsAppFault all above.entry.declared.now.policies) (views entries.now)) }
    ensures valid { IfOk result (λ apps. All HasValidOwn apps.applications) }
    ensures chained { IfOk result (λ apps. length apps.chains.items ≡ length apps.applications) }
{
    let mut apps = Apps::new(alloc);
    let mut submitted = 0;
    let mut number = 0;
    for entry in entries {
        number += 1;
        match read_app(alloc, above, apps.ports.as_slice(), submitted, entry)? {
            Ok(joined) => {
                let JoinedApplication {
                    port,
                    app,
                    chain,
                    submitted: more,
                } = joined;
                submitted = more;
                apps.push(port, app, chain)?;
            }
            Err(reason) => {
                return Err(ScenarioFault::At {
                    entry: FaultyEntry::App(number),
                    reason,
                });
            }
        }
    }
    Ok(apps)
}
