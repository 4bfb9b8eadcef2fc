//! The forms of declarations, by their first lines.

ghost use Rattle.std.specs.Prelude.{◌≡◌};
ghost use Rattle.mrpc_table.specs.Lines.{words_of};
ghost use Rattle.policy_declarations.specs.DeclarationTexts.{head_form, declaration_form, declaration_form_in, is_tenant};

use script_grammar::{LineForm, form_of};

/// The form of a declaration's first line.
#[derive(Clone, Copy)]
pub enum DeclarationForm {
    /// `tenant NAME PER`
    Tenant,
    /// `policy NAME access`, followed by the lines of a policy and `end`
    Access,
    /// `policy NAME rate N per P burst B hold|deny`
    Rate,
    /// `policy NAME quota TENANT cap C`
    Quota,
    /// `policy NAME count`
    Count,
    /// `policy NAME redact`, followed by the lines of a policy and `end`
    Redact,
}

impl DeclarationForm {
    /// Returns the form of the declaration that a line starts; `None` if it starts none.
    pub fn of(line: &[u8]) -> Option<DeclarationForm>
        ensures { result ≡ declaration_form_in (words_of line.now) }
    {
        DeclarationForm::of_form(form_of(line)?)
    }

    /// Returns the form of the declaration whose first line has this form; `None` if there is none.
    pub fn of_form(form: LineForm) -> Option<DeclarationForm>
        ensures { result ≡ declaration_form form }
    {
        match form {
            LineForm::Tenant => Some(DeclarationForm::Tenant),
            LineForm::Access => Some(DeclarationForm::Access),
            LineForm::Rate => Some(DeclarationForm::Rate),
            LineForm::Quota => Some(DeclarationForm::Quota),
            LineForm::Count => Some(DeclarationForm::Count),
            LineForm::Redact => Some(DeclarationForm::Redact),
            _ => None,
        }
    }

    /// The line form of its first line.
    pub fn form(self) -> LineForm
        ensures { result ≡ head_form self }
    {
        match self {
            DeclarationForm::Tenant => LineForm::Tenant,
            DeclarationForm::Access => LineForm::Access,
            DeclarationForm::Rate => LineForm::Rate,
            DeclarationForm::Quota => LineForm::Quota,
            DeclarationForm::Count => LineForm::Count,
            DeclarationForm::Redact => LineForm::Redact,
        }
    }

    /// Returns true for a tenant, false for a policy.
    pub fn is_tenant(self) -> bool
        ensures { result ≡ is_tenant self }
    {
        matches!(self, DeclarationForm::Tenant)
    }
}
