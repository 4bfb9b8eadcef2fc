//! Reads access policies from their lines.

ghost use Rattle.std.specs.Prelude.{◌≡◌, ◌+◌, ◌++◌, ◌^◌, ◌<◌, ◌≤◌, ℕ, List, [], ◌∷◌, Err, false, length, IfOk, IfErr, OnOk, MatchResult, nat_le};
ghost use Rattle.mrpc_table.specs.Valid.{IsValid};
ghost use Rattle.policy_access.specs.Faults.{is_rule_name, is_among, IsFaultOf};
ghost use Rattle.policy_access.specs.Lines.{access_line_of};
ghost use Rattle.policy_access.specs.Names.{AreKnownNames};
ghost use Rattle.policy_access.specs.Reading.{names_of_rules, AreRead, IsDefaultAt};
ghost use Rattle.policy_access.specs.Texts.{IsTextOf};
ghost use Rattle.policy_access.specs.Verdict.{AccessPolicy};
ghost use Rattle.mrpc_table.specs.declared.policy_lines.RuleFault.TheVariants.{Memory as NoMemory};
ghost use Rattle.policy_access.specs.Rules.{selector_in};
ghost use Rattle.policy_access.specs.LineContent.{judged_rule, judged_line, reason_after_default};
ghost use Rattle.policy_access.specs.declared.line.RuleLine.{RuleLine};
ghost use Rattle.policy_access.specs.declared.limits.TheConstants.{MAX_RULES};

use crate::access::Access;
use crate::fault::SelectorReason;
use crate::form::access_line_of;
use crate::limits::MAX_RULES;
use crate::line::{PolicyLine, RuleLine};
use crate::names::SeenNames;
use crate::resolve::selector_in;
use crate::rule::{CallSelector, Rule};
use mrpc_table::{
    Bytes, Lines, Memory, RuleFault, RuleReason, Table, is_name_form, is_short, is_word,
};
use std::alloc::Global;

// The content of a valid line.
#[derive(Drop)]
pub(crate) enum LineContent {
    // A rule.
    Rule(Rule),
    // The default; true if it allows.
    Default(bool),
}

fn is_rule_name(name: &[u8]) -> bool
    ensures { result ≡ is_rule_name name.now }
{
    is_name_form(name) && is_short(name) && !is_word(name, b"default")
}

// The rule of a line, after `count` rules with these names; otherwise the first reason against the line.
fn judged_rule(
    alloc: Global,
    table: &Table,
    names: &SeenNames,
    count: usize,
    line: RuleLine,
) -> Result<Result<Rule, RuleReason>, Memory>
    requires { IsValid table.now }
    ensures { (before : List (List ℕ)) → AreKnownNames names.now before
        → IfOk result (λ r. r ≡ judged_rule (nat_le MAX_RULES count) (selector_in table.now line.about)
        (is_rule_name line.name) (is_among line.name before) line) }
{
    if count >= MAX_RULES {
        return Ok(Err(RuleReason::Word));
    }
    let about = selector_in(alloc, table, &line.about)?;
    let named = is_rule_name(line.name.as_slice());
    let known = names.contains(line.name.as_slice());
    Ok(judged(about, named, known, line))
}

// The rule of a line, or the first reason against it. It depends on the selected calls, on whether the name is valid,
// and on whether an earlier rule has the name.
fn judged(
    about: Result<CallSelector, SelectorReason>,
    named: bool,
    known: bool,
    line: RuleLine,
) -> Result<Rule, RuleReason>
    ensures { result ≡ judged_rule false about named known line }
{
    match about {
        Err(reason) => Err(first_reason(reason, named, known)),
        Ok(about) => {
            if named && !known {
                Ok(line.with_selector(about))
            } else {
                Err(if named {
                    RuleReason::Known
                } else {
                    RuleReason::Name
                })
            }
        }
    }
}

// The first reason against a line of a rule whose call selector has a fault.
fn first_reason(reason: SelectorReason, named: bool, known: bool) -> RuleReason
    ensures { (line : RuleLine) → judged_rule false (Err reason) named known line ≡ Err result }
{
    match reason {
        SelectorReason::Word => RuleReason::Word,
        SelectorReason::Number => RuleReason::Number,
        SelectorReason::Path if !named => RuleReason::Name,
        SelectorReason::Path if known => RuleReason::Known,
        SelectorReason::Path => RuleReason::Path,
    }
}

// The content of a line after `count` rules with these names, or the first reason against the line.
pub(crate) fn judged_line(
    alloc: Global,
    table: &Table,
    names: &SeenNames,
    count: usize,
    line: &[u8],
) -> Result<Result<LineContent, RuleReason>, Memory>
    requires { IsValid table.now }
    ensures { (before : List (List ℕ)) → AreKnownNames names.now before → count ≡ length before
        → IfOk result (λ s. s ≡ judged_line table.now before (access_line_of line.now)) }
{
    match access_line_of(alloc, line)? {
        None => Ok(Err(RuleReason::Word)),
        Some(PolicyLine::Default(allow)) => Ok(Ok(LineContent::Default(allow))),
        Some(PolicyLine::Rule(rule)) => match judged_rule(alloc, table, names, count, rule)? {
            Err(reason) => Ok(Err(reason)),
            Ok(rule) => Ok(Ok(LineContent::Rule(rule))),
        },
    }
}

// The reason against a line after the default.
fn reason_after_default(
    alloc: Global,
    table: &Table,
    names: &SeenNames,
    count: usize,
    line: &[u8],
) -> Result<RuleReason, Memory>
    requires { IsValid table.now }
    ensures { (before : List (List ℕ)) → AreKnownNames names.now before → count ≡ length before
        → IfOk result (λ q. q ≡ reason_after_default (judged_line table.now before (access_line_of line.now))) }
{
    match judged_line(alloc, table, names, count, line)? {
        Err(reason) => Ok(reason),
        Ok(_) => Ok(RuleReason::Default),
    }
}

// The rules so far, and their names.
struct SoFar {
    rules: Vec<Rule>,
    names: SeenNames,
}

// Written by hand, so that a drop is one call instead of one for each field.
impl Drop for SoFar {
    fn drop(self) {
        let SoFar {
            rules: _rules,
            names: _names,
        } = self;
    }
}

impl SoFar {
    fn new(alloc: Global) -> SoFar
        ensures rules { result.rules.items ≡ [] }
        ensures names { AreKnownNames result.names [] }
    {
        SoFar {
            rules: Vec::new(alloc),
            names: SeenNames::new(alloc),
        }
    }

    fn add(&mut self, alloc: Global, rule: Rule) -> Result<(), Memory>
        ensures rules { OnOk result (self.new.rules.items ≡ self.old.rules.items ++ rule ∷ []) }
        ensures names { (names : List (List ℕ)) → AreKnownNames self.old.names names
            → OnOk result (AreKnownNames self.new.names (names ++ rule.name ∷ [])) }
    {
        self.names.add(alloc, rule.name.as_slice())?;
        self.rules.push(rule)?;
        Ok(())
    }

    // The policy of the rules, with this default.
    fn into_access(self, alloc: Global, allow: bool) -> Result<Access, Memory>
        requires { length self.rules.items ≤ MAX_RULES }
        ensures { IfOk result (λ a. (a.rules ≡ self.rules.items) × (a.allow ≡ allow)) }
    {
        let SoFar {
            rules,
            names: _names,
        } = self;
        Access::new(alloc, rules, allow)
    }
}

// The policy, if the default's line at this index is the last; otherwise the fault of the line after it.
fn finish(
    alloc: Global,
    table: &Table,
    lines: &[Bytes],
    place: usize,
    so_far: SoFar,
    allow: bool,
) -> Result<Access, RuleFault>
    requires valid { IsValid table.now }
    requires read { AreRead table.now lines.now place so_far.rules.items }
    requires names { AreKnownNames so_far.names (names_of_rules so_far.rules.items) }
    requires default { IsDefaultAt table.now lines.now place so_far.rules.items allow }
    ensures accepted { IfOk result (λ a. IsTextOf table.now lines.now a) }
    ensures fault { IfErr result (λ e. IsFaultOf table.now lines.now e) }
{
    match lines.get(place + 1) {
        None => Ok(so_far.into_access(alloc, allow)?),
        Some(line) => {
            let reason = reason_after_default(
                alloc,
                table,
                &so_far.names,
                so_far.rules.len(),
                line.as_slice(),
            )?;
            Err(RuleFault::at(place + 1, reason))
        }
    }
}

// Reads the rules before the default's line. Returns the index of that line and whether it allows, or the fault of an
// earlier line.
fn read_rules(
    alloc: Global,
    table: &Table,
    lines: &[Bytes],
    so_far: &mut SoFar,
) -> Result<(usize, bool), RuleFault>
    requires valid { IsValid table.now }
    requires none { so_far.old.rules.items ≡ [] }
    requires no_names { AreKnownNames so_far.old.names [] }
    ensures read { IfOk result (λ default. AreRead table.now lines.now default.0 so_far.new.rules.items) }
    ensures names { IfOk result (λ default. AreKnownNames so_far.new.names (names_of_rules so_far.new.rules.items)) }
    ensures default { IfOk result (λ default.
        IsDefaultAt table.now lines.now default.0 so_far.new.rules.items default.1) }
    ensures fault { IfErr result (λ e. IsFaultOf table.now lines.now e) }
{
    for (place, line) in lines.iter().enumerate() {
        match judged_line(
            alloc,
            table,
            &so_far.names,
            so_far.rules.len(),
            line.as_slice(),
        )? {
            Err(reason) => return Err(RuleFault::at(place, reason)),
            Ok(LineContent::Default(allow)) => return Ok((place, allow)),
            Ok(LineContent::Rule(rule)) => so_far.add(alloc, rule)?,
        }
    }
    Err(RuleFault::at(lines.len(), RuleReason::Default))
}

fn read_lines(alloc: Global, lines: &[Bytes], table: &Table) -> Result<Access, RuleFault>
    requires { IsValid table.now }
    ensures accepted { IfOk result (λ a. IsTextOf table.now lines.now a) }
    ensures fault { IfErr result (λ e. IsFaultOf table.now lines.now e) }
{
    let mut so_far = SoFar::new(alloc);
    let (place, allow) = read_rules(alloc, table, lines, &mut so_far)?;
    finish(alloc, table, lines, place, so_far, allow)
}

/// Reads the access policy from its lines, or returns their first fault. Each line but the last is a rule, `rule NAME
/// allow|deny [method INDEX [reply] [where PATH OP [VALUE]]]`; there are at most 64 rules. The last line is `default
/// allow|deny`. Paths and methods refer to the table.
///
/// It takes time in proportion to the text, except that names, fields and methods are looked up by search.
/// `RuleFault::Memory` means out of memory.
pub fn read_access(alloc: Global, lines: &Lines, table: &Table) -> Result<Access, RuleFault>
    requires { IsValid table.now }
    // The result is the policy of the lines.
    ensures accepted { IfOk result (λ policy. IsTextOf table.now lines.now policy) }
    // The text of a policy gives this policy, except when out of memory.
    ensures only { (policy : AccessPolicy) → IsTextOf table.now lines.now policy
        → MatchResult result (λ read. read ≡ policy) (λ fault. fault ≡ NoMemory) }
    // A fault is the first one of the lines.
    ensures fault { IfErr result (λ fault. IsFaultOf table.now lines.now fault) }
{
    read_lines(alloc, lines.as_slice(), table)
}
