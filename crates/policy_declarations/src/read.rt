//! Reads declarations from their lines.

ghost use Rattle.std.specs.Prelude.{◌≡◌, ℕ, List, IfOk, IfErr, MatchResult};
ghost use Rattle.mrpc_table.specs.Valid.{IsValid};
ghost use Rattle.script_grammar.specs.Meanings.{meanings_of};
ghost use Rattle.script_grammar.specs.declared.fault.ScriptFault.TheVariants.{Memory as OutOfMemory};
ghost use Rattle.script_grammar.specs.WordKinds.{name_at};
ghost use Rattle.policy_access.specs.Verdict.{AccessPolicy};
ghost use Rattle.policy_redact.specs.declared.redact.Clear.{Clear as TheClear};
ghost use Rattle.policy_declarations.specs.DeclarationTexts.{policy_with_name, tenant_of_words, rate_of_words, IsQuotaOfWords, IsAccessIn, IsRedactIn, IsDeclarationHead, HasDeclaration, IsFaultOfDeclaration};
ghost use Rattle.policy_declarations.specs.Reading.{IsScriptFaultAfterHead};
ghost use Rattle.policy_declarations.specs.declared.declaration.Declaration.{Declaration as TheItem};

use crate::block::{declaration_fault, missing_end_fault, read_block};
use crate::declaration::{Declaration, NamedPolicy, Tenant};
use crate::declaration_form::DeclarationForm;
use crate::declarations::Declarations;
use crate::head::read_head;
use crate::laws::declaration_or_fault;
use engine_core::Policy;
use mrpc_table::{Memory, Name, RuleFault, Table};
use policy_access::{
    first_fault_is_unique as one_access_fault, read_access, text_or_fault as access_or_fault,
};
use policy_rate::Rate;
use policy_redact::{
    first_fault_is_unique as one_redact_fault, read_redact, text_or_fault as redact_or_fault,
};
use script_grammar::{Keyword, ScriptFault, WordValue, keyword_at, name_at, number_at};
use std::alloc::Global;

/// The text of a declaration, split after its first line.
#[derive(Clone, Copy)]
pub struct DeclarationLines<'a> {
    /// The form of its first line.
    pub form: DeclarationForm,
    /// Its first line, without its line feed.
    pub line: &'a [u8],
    /// The text after that line.
    pub behind: &'a [u8],
}

/// Reads a declaration, and returns it with the remainder of the text after it. If `skips` is true, a block's lines
/// that are empty or start with `#` are skipped; otherwise they are lines of its policy. Apart from look-ups of names,
/// the time is linear in the length of the declaration.
///
/// # Errors
///
/// [`ScriptFault::At`] has the first line with a fault, counted from 1 at the declaration's first line, and its first
/// reason. [`ScriptFault::Memory`] means out of memory.
pub fn read_declaration<'a>(
    alloc: Global,
    table: &Table,
    declared: &Declarations,
    lines: DeclarationLines<'a>,
    skips: bool,
) -> Result<(Declaration, &'a [u8]), ScriptFault>
    requires { IsValid table.now }
    // The result is what the lines declare.
    ensures read { IfOk result (λ r. HasDeclaration table.now skips declared.now lines.entry.form lines.entry.line.now
        lines.entry.behind.now r.0 r.1.now) }
    // If the lines declare something, the call returns it, unless it runs out of memory.
    ensures only { (i : TheItem) (rest : List ℕ) → HasDeclaration table.now skips declared.now lines.entry.form
        lines.entry.line.now lines.entry.behind.now i rest
        → MatchResult result (λ r. (r.0 ≡ i) × (r.1.now ≡ rest)) (λ e. e ≡ OutOfMemory) }
    // A fault is the lines': the first line with a fault, and its first reason.
    ensures fault { IfErr result (IsFaultOfDeclaration table.now skips declared.now lines.entry.form lines.entry.line.now
        lines.entry.behind.now) }
{
    declaration_or_fault();
    declaration_of(alloc, table, declared, lines, skips)
}

fn declaration_of<'a>(
    alloc: Global,
    table: &Table,
    declared: &Declarations,
    lines: DeclarationLines<'a>,
    skips: bool,
) -> Result<(Declaration, &'a [u8]), ScriptFault>
    requires { IsValid table.now }
    ensures { MatchResult result (λ r. HasDeclaration table.now skips declared.now lines.entry.form lines.entry.line.now
        lines.entry.behind.now r.0 r.1.now) (IsFaultOfDeclaration table.now skips declared.now lines.entry.form
        lines.entry.line.now lines.entry.behind.now) }
{
    let words = match read_head(declared, lines.form, lines.line) {
        Ok(words) => words,
        Err(reason) => return Err(ScriptFault::At { line: 1, reason }),
    };
    let words = words.as_slice();
    match lines.form {
        DeclarationForm::Tenant => Ok((tenant_of(alloc, words)?, lines.behind)),
        DeclarationForm::Rate => Ok((
            policy_with_name(alloc, words, rate_of(words))?,
            lines.behind,
        )),
        DeclarationForm::Quota => Ok((
            policy_with_name(alloc, words, quota_of(declared, lines.line, words))?,
            lines.behind,
        )),
        DeclarationForm::Count => Ok((
            policy_with_name(alloc, words, Policy::Count)?,
            lines.behind,
        )),
        DeclarationForm::Access => access_of(alloc, table, words, lines.behind, skips),
        DeclarationForm::Redact => redact_of(alloc, table, words, lines.behind, skips),
    }
}

fn tenant_of(alloc: Global, words: &[WordValue<'_>]) -> Result<Declaration, Memory>
    ensures { IfOk result (λ i. i ≡ tenant_of_words (meanings_of words.now)) }
{
    Ok(Declaration::Tenant(Tenant {
        name: Name::from_slice(alloc, name_at(words, 1))?,
        per: number_at(words, 2),
    }))
}

// Gives the policy the name that follows the word `policy`.
fn policy_with_name(
    alloc: Global,
    words: &[WordValue<'_>],
    policy: Policy,
) -> Result<Declaration, Memory>
    ensures { IfOk result (λ i. i ≡ policy_with_name (name_at (meanings_of words.now) 1) policy) }
{
    Ok(Declaration::Policy(NamedPolicy {
        name: Name::from_slice(alloc, name_at(words, 1))?,
        policy,
    }))
}

fn rate_of(words: &[WordValue<'_>]) -> Policy
    ensures { result ≡ rate_of_words (meanings_of words.now) }
{
    Policy::Rate(Rate {
        amount: number_at(words, 3),
        per: number_at(words, 5),
        burst: number_at(words, 7),
        hold: matches!(keyword_at(words, 8), Some(Keyword::Hold)),
    })
}

fn quota_of(declared: &Declarations, line: &[u8], words: &[WordValue<'_>]) -> Policy
    requires { IsDeclarationHead declared.now DeclarationForm.Quota line.now (meanings_of words.now) }
    ensures { IsQuotaOfWords declared.now (meanings_of words.now) result }
{
    let tenants = declared.tenants();
    let Some(place) = declared.tenant(name_at(words, 3)) else {
        unreachable!()
    };
    Policy::Quota {
        tenant: place as u32,
        per: tenants[place].per,
        cap: number_at(words, 5),
    }
}

fn access_of<'a>(
    alloc: Global,
    table: &Table,
    words: &[WordValue<'_>],
    text: &'a [u8],
    skips: bool,
) -> Result<(Declaration, &'a [u8]), ScriptFault>
    requires { IsValid table.now }
    ensures { MatchResult result (λ r. (p : AccessPolicy) × IsAccessIn table.now skips text.now p r.1.now
        × (r.0 ≡ policy_with_name (name_at (meanings_of words.now) 1) (Policy.Access p)))
        (IsScriptFaultAfterHead table.now skips DeclarationForm.Access text.now) }
{
    one_access_fault();
    access_or_fault();
    let block = read_block(alloc, text, skips)?;
    let policy = match read_access(alloc, &block.lines, table) {
        Ok(policy) => policy,
        Err(fault) => return Err(declaration_fault(&block, text, skips, fault)),
    };
    let Some(rest) = block.rest else {
        return Err(missing_end_fault(text));
    };
    Ok((
        policy_with_name(alloc, words, Policy::Access(policy))?,
        rest,
    ))
}

fn redact_of<'a>(
    alloc: Global,
    table: &Table,
    words: &[WordValue<'_>],
    text: &'a [u8],
    skips: bool,
) -> Result<(Declaration, &'a [u8]), ScriptFault>
    requires { IsValid table.now }
    ensures { MatchResult result (λ r. (p : List TheClear) × IsRedactIn table.now skips text.now p r.1.now
        × (r.0 ≡ policy_with_name (name_at (meanings_of words.now) 1) (Policy.Redact p)))
        (IsScriptFaultAfterHead table.now skips DeclarationForm.Redact text.now) }
{
    one_redact_fault();
    redact_or_fault();
    let block = read_block(alloc, text, skips)?;
    let policy = match read_redact(alloc, &block.lines, table) {
        Ok(policy) => policy,
        Err(fault) => return Err(declaration_fault(&block, text, skips, fault)),
    };
    let Some(rest) = block.rest else {
        return Err(missing_end_fault(text));
    };
    Ok((
        policy_with_name(alloc, words, Policy::Redact(policy))?,
        rest,
    ))
}
