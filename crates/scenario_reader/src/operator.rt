//! Operators.

ghost use Rattle.std.specs.Prelude.{◌≡◌, ◌==◌, List, All, IfOk, MatchResult, false, true, length, map, position};
ghost use Rattle.mrpc_table.specs.Valid.{AreDistinct};
ghost use Rattle.mrpc_table.specs.declared.table.Table.{Table as TheTable};
ghost use Rattle.policy_declarations.specs.Declarations.{policy_names};
ghost use Rattle.toml.specs.Data.{Members};
ghost use Rattle.toml.specs.View.{table_view};
ghost use Rattle.scenario.specs.Applications.{app_tables, entry_conn, entry_conns, policy_tables};
ghost use Rattle.scenario.specs.Keys as keys;
ghost use Rattle.scenario.specs.Keys.{operator_keys};
ghost use Rattle.scenario.specs.Operators.{IsOperatorFault, step_lines_of};
ghost use Rattle.scenario.specs.Policies.{entry_names};
ghost use Rattle.scenario.specs.Reasons.{IsSoFar};
ghost use Rattle.scenario.specs.Scenarios.{IsOperatorMeaning};
ghost use Rattle.scenario.specs.declared.fault.FaultyEntry.TheVariants as place;
ghost use Rattle.scenario_lines.specs.Programs.{Each};
ghost use Rattle.scenario_toml.specs.Values.{has_keys, is_out};
ghost use Rattle.scenario_entries.specs.Entries.{AreFaultFree, IsEntryRead, IsListFault, views};
ghost use Rattle.scenario_reader.specs.AppContext.{IsAppContext};
ghost use Rattle.scenario_reader.specs.Joining.{AreJoined, IsApp};
ghost use Rattle.scenario_reader.specs.Operating.{HasOperatorHeadFault, IsOperatorOf, HasOperatorOwnFault, is_operated};
ghost use Rattle.scenario_reader.specs.Owning.{AreStepNames, HasValidOwn};
ghost use Rattle.scenario_reader.specs.StepLinesReading.{HasReadLines};

use crate::app_context::{AppContext, Apps};
use crate::own::step_names;
use crate::steps::{StepLinesReader, read_steps};
use crate::walk::{apply_all, plan_steps};
use engine_core::{change_or_rejection, change_preserves_chain};
use mrpc_table::{Memory, Sequence};
use policy_declarations::Declarations;
use run_plan::{Application, MAX_STEPS, Operator};
use scenario::keys::{conn, has_operator_keys};
use scenario::{FaultyEntry, ScenarioFault, ScenarioReason, earlier, first_with, reason_if};
use scenario_entries::{ChainOutline, has_undeclared_name, names_keep_index, read_own_policies};
use scenario_lines::StepText;
use scenario_toml::texts_at;
use script_grammar::meanings_or_reason;
use std::alloc::Global;
use toml::Table;

// Whether one of the operators is on the connection.
fn has_operator(before: &[Operator], conn: u64) -> bool
    ensures { result ≡ is_operated before.now conn }
{
    before
        .iter()
        .any(|operator| u64::from(operator.conn) == conn)
}

// The first reason of faults in the lines of an operator, its connection and the policies that it names, apart from
// schemas.
fn head_reason(
    declared: &Declarations,
    before: &[Operator],
    conn: u64,
    lines: u64,
    steps: &StepLinesReader<'_>,
    names: &[&[u8]],
) -> Option<ScenarioReason>
    ensures { (all ms : Members) (tables : List Members) → policy_names declared.now ≡ entry_names (policy_tables all)
        → Each (IsOperatorMeaning all) tables before.now → conn ≡ entry_conn ms → lines ≡ length (step_lines_of ms)
        → HasReadLines (step_lines_of ms) steps.now.told.items steps.now.most steps.now.first
        → AreStepNames ms (map (λ n. n.now) names.now) → IsSoFar (HasOperatorHeadFault all tables ms) result }
{
    let counted = earlier(
        steps.first,
        reason_if(lines > MAX_STEPS, ScenarioReason::Number),
    );
    let known = earlier(
        counted,
        reason_if(has_operator(before, conn), ScenarioReason::Known),
    );
    earlier(
        known,
        reason_if(
            has_undeclared_name(declared, names),
            ScenarioReason::Unknown,
        ),
    )
}

// What the lines of an operator mean, the policies that they name, and the first reason of faults in these and its
// connection, apart from schemas.
struct OperatorRequest<'a> {
    steps: StepLinesReader<'a>,
    names: Vec<&'a [u8]>,
    head: Option<ScenarioReason>,
}

// Written by hand so that a drop is one call, not a drop of each field.
impl<'a> Drop for OperatorRequest<'a> {
    fn drop(self) {
        let OperatorRequest {
            steps: _steps,
            names: _names,
            head: _,
        } = self;
    }
}

// What an operator that follows others requests.
fn asked_in<'a>(
    alloc: Global,
    declared: &Declarations,
    before: &[Operator],
    conn: u64,
    entry: &'a Table,
) -> Result<OperatorRequest<'a>, Memory>
    ensures told { IfOk result (λ asked.
        HasReadLines (step_lines_of (table_view entry.now)) asked.steps.told.items asked.steps.most asked.steps.first) }
    ensures names { IfOk result (λ asked. AreStepNames (table_view entry.now) (map (λ n. n.now) asked.names.items)) }
    ensures head { (all : Members) (tables : List Members) → policy_names declared.now ≡ entry_names (policy_tables all)
        → Each (IsOperatorMeaning all) tables before.now → conn ≡ entry_conn (table_view entry.now)
        → IfOk result (λ asked. IsSoFar (HasOperatorHeadFault all tables (table_view entry.now)) asked.head) }
{
    let lines = texts_at(alloc, entry, "steps")?;
    let steps = read_steps(alloc, lines.as_slice())?;
    let names = step_names(alloc, entry)?;
    let head = head_reason(
        declared,
        before,
        conn,
        lines.len() as u64,
        &steps,
        names.as_slice(),
    );
    Ok(OperatorRequest { steps, names, head })
}

// The index of the application on a connection.
fn app_index_on(applications: &[Application], conn: u64) -> Option<usize>
    ensures { result ≡ position (λ app. app.conn == conn) applications.now }
{
    applications
        .iter()
        .position(|app| u64::from(app.conn) == conn)
}

// The first reason of faults in the named policies, under the schema of an application; `None` if it has no schema.
fn own_reason(
    alloc: Global,
    above: AppContext<'_, '_, '_>,
    app: &Application,
    names: &[&[u8]],
) -> Result<Option<ScenarioReason>, Memory>
    requires long { length above.policies.now ≡ length above.declared.now.policies }
    requires valid { HasValidOwn app.now }
    ensures { (all ams ms : Members) (T : TheTable) → IsAppContext all T above.entry
        → IsApp all above.entry.declared.now ams app.now
        → AreStepNames ms (map (λ n. n.now) names.now) → IfOk result (IsSoFar (HasOperatorOwnFault all ams ms)) }
{
    match &app.own {
        None => Ok(None),
        Some(own) => {
            let read = read_own_policies(alloc, &own.table, above.declared, above.policies, names)?;
            Ok(read.err())
        }
    }
}

// The operator with these steps, on a chain, or the reason of the first refusal.
fn apply_steps<'a>(
    alloc: Global,
    declared: &'a Declarations,
    chain: &ChainOutline<'a>,
    conn: u32,
    told: &[StepText<'a>],
) -> Result<Result<Operator, ScenarioReason>, Memory>
    ensures { IfOk result (IsOperatorOf declared.now chain.now.entries.items conn told.now) }
{
    let mut chain = chain.copied(alloc)?;
    match apply_all(&mut chain, declared, told)? {
        Some(reason) => Ok(Err(reason)),
        None => Ok(Ok(Operator {
            conn,
            steps: plan_steps(alloc, declared, told)?,
        })),
    }
}

// The number of an operator's connection, which is in range.
fn conn_in(entry: &Table) -> u32
    requires { is_out (table_view entry.now) keys.conn ≡ false }
    ensures { result ≡ entry_conn (table_view entry.now) }
{
    conn().number(entry) as u32
}

// The operator of an entry that has its keys and its connection and follows others, or the first reason of its
// faults.
fn judge_operator<'a>(
    alloc: Global,
    above: AppContext<'a, '_, '_>,
    apps: &Apps<'a>,
    before: &[Operator],
    entry: &'a Table,
) -> Result<Result<Operator, ScenarioReason>, Memory>
    requires range { is_out (table_view entry.now) keys.conn ≡ false }
    requires long { length above.policies.now ≡ length above.declared.now.policies }
    requires valid { All HasValidOwn apps.now.applications }
    requires chained { length apps.now.chains.items ≡ length apps.now.applications }
    ensures { (all : Members) (T : TheTable) (tables : List Members) → IsAppContext all T above.entry
        → AreJoined all above.entry.declared.now (app_tables all) apps.now → AreDistinct (entry_conns (app_tables all))
        → Each (IsOperatorMeaning all) tables before.now → has_keys operator_keys (table_view entry.now) ≡ true
        → IfOk result (IsEntryRead (IsOperatorFault all above.entry.declared.now.policies tables (table_view entry.now))
        (IsOperatorMeaning all (table_view entry.now))) }
{
    change_or_rejection();
    change_preserves_chain();
    meanings_or_reason();
    names_keep_index();
    let number = conn_in(entry);
    let asked = asked_in(alloc, above.declared, before, u64::from(number), entry)?;
    let applications = apps.applications.as_slice();
    let Some(place) = app_index_on(applications, u64::from(number)) else {
        return Ok(Err(first_with(asked.head, ScenarioReason::Unknown)));
    };
    let own = own_reason(alloc, above, &applications[place], asked.names.as_slice())?;
    if let Some(reason) = earlier(asked.head, own) {
        return Ok(Err(reason));
    }
    apply_steps(
        alloc,
        above.declared,
        &apps.chains[place],
        number,
        asked.steps.told.as_slice(),
    )
}

// The operator of an entry that follows others, or the first reason of its faults.
fn read_operator<'a>(
    alloc: Global,
    above: AppContext<'a, '_, '_>,
    apps: &Apps<'a>,
    before: &[Operator],
    entry: &'a Table,
) -> Result<Result<Operator, ScenarioReason>, Memory>
    requires long { length above.policies.now ≡ length above.declared.now.policies }
    requires valid { All HasValidOwn apps.now.applications }
    requires chained { length apps.now.chains.items ≡ length apps.now.applications }
    ensures { (all : Members) (T : TheTable) (tables : List Members) → IsAppContext all T above.entry
        → AreJoined all above.entry.declared.now (app_tables all) apps.now → AreDistinct (entry_conns (app_tables all))
        → Each (IsOperatorMeaning all) tables before.now
        → IfOk result (IsEntryRead (IsOperatorFault all above.entry.declared.now.policies tables (table_view entry.now))
        (IsOperatorMeaning all (table_view entry.now))) }
{
    if !has_operator_keys(entry) {
        return Ok(Err(ScenarioReason::Key));
    }
    if conn().is_out(entry) {
        return Ok(Err(ScenarioReason::Number));
    }
    judge_operator(alloc, above, apps, before, entry)
}

// The operators of these entries.
pub(crate) fn read_operators<'a>(
    alloc: Global,
    above: AppContext<'a, '_, '_>,
    apps: &Apps<'a>,
    entries: &[&'a Table],
) -> Result<Sequence<Operator>, ScenarioFault>
    requires long { length above.policies.now ≡ length above.declared.now.policies }
    requires valid { All HasValidOwn apps.now.applications }
    requires chained { length apps.now.chains.items ≡ length apps.now.applications }
    ensures { (all : Members) (T : TheTable) → IsAppContext all T above.entry
        → AreJoined all above.entry.declared.now (app_tables all) apps.now → AreDistinct (entry_conns (app_tables all))
        → MatchResult result (λ operators. AreFaultFree (IsOperatorFault all above.entry.declared.now.policies)
        (views entries.now)
        × Each (IsOperatorMeaning all) (views entries.now) operators)
        (IsListFault place.Operator (IsOperatorFault all above.entry.declared.now.policies) (views entries.now)) }
{
    let mut operators = Sequence::new(alloc);
    let mut number = 0;
    for entry in entries {
        number += 1;
        match read_operator(alloc, above, apps, operators.as_slice(), entry)? {
            Ok(operator) => operators.push(operator)?,
            Err(reason) => {
                return Err(ScenarioFault::At {
                    entry: FaultyEntry::Operator(number),
                    reason,
                });
            }
        }
    }
    Ok(operators)
}
