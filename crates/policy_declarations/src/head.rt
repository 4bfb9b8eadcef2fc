//! The first line of a declaration.

ghost use Rattle.std.specs.Prelude.{◌≡◌, MatchResult};
ghost use Rattle.mrpc_table.specs.Lines.{words_of};
ghost use Rattle.script_grammar.specs.Meanings.{meanings_of};
ghost use Rattle.script_grammar.specs.Reasons.{IsFirstReason};
ghost use Rattle.policy_declarations.specs.DeclarationTexts.{HasHeadReason, IsDeclarationHead};
ghost use Rattle.policy_declarations.specs.HeadTests.{has_max_tenants, is_name_taken, lacks_tenant};

use crate::declaration_form::DeclarationForm;
use crate::declarations::Declarations;
use crate::limits::MAX_TENANTS;
use script_grammar::{
    ScriptReason, WordValue, WordValues, check_words, meanings_or_reason, name_at,
};

// Returns true if this is a tenant, and 16 tenants are declared.
fn has_max_tenants(declared: &Declarations, form: DeclarationForm) -> bool
    ensures { result ≡ has_max_tenants declared.now form }
{
    form.is_tenant() && declared.tenants().len() >= MAX_TENANTS
}

// Returns true if another tenant, or another policy, has the name.
fn is_name_taken(declared: &Declarations, form: DeclarationForm, words: &[WordValue<'_>]) -> bool
    ensures { result ≡ is_name_taken declared.now form (meanings_of words.now) }
{
    let name = name_at(words, 1);
    if form.is_tenant() {
        declared.tenant(name).is_some()
    } else {
        declared.policy(name).is_some()
    }
}

// Returns true if this is a quota whose tenant isn't declared.
fn lacks_tenant(declared: &Declarations, form: DeclarationForm, words: &[WordValue<'_>]) -> bool
    ensures { result ≡ lacks_tenant declared.now form (meanings_of words.now) }
{
    matches!(form, DeclarationForm::Quota) && declared.tenant(name_at(words, 3)).is_none()
}

// Returns the values of the words of a declaration's first line, or its first reason.
pub(crate) fn read_head<'a>(
    declared: &Declarations,
    form: DeclarationForm,
    line: &'a [u8],
) -> Result<WordValues<'a>, ScriptReason>
    ensures { MatchResult result (λ words. IsDeclarationHead declared.now form line.now (meanings_of words.items))
        (IsFirstReason (HasHeadReason declared.now form (words_of line.now))) }
{
    meanings_or_reason();
    if has_max_tenants(declared, form) {
        return Err(ScriptReason::Number);
    }
    let words = check_words(form.form().word_kinds(), line)?;
    if is_name_taken(declared, form, words.as_slice()) {
        return Err(ScriptReason::Known);
    }
    if lacks_tenant(declared, form, words.as_slice()) {
        return Err(ScriptReason::Unknown);
    }
    Ok(words)
}
