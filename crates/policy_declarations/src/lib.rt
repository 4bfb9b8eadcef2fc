//! Declarations of tenants and policies, in scripts and in the inputs of `audit`.
//!
//! [`DeclarationForm::of`] recognizes the first line of a declaration. [`read_declaration`] reads a declaration with the lines of its
//! block, or returns its first fault. [`Declarations`] keeps what was read.
//!
//! `specs/DeclarationTexts.antt` defines what the lines of a declaration mean, and their first fault. `specs/Blocks.antt` defines
//! where a block ends, and `specs/Declarations.antt` which declarations are valid. The crate depends on `mrpc_table`,
//! `policy_access`, `policy_rate`, `policy_redact`, `engine_core` and `script_grammar`. Its one contract for the layers
//! above: after some declarations, lines that start one have exactly one next declaration, or exactly one first fault.
#![tactic(auto)]

mod block;
mod declaration;
mod declaration_form;
mod declarations;
mod head;
mod laws;
mod limits;
mod read;

pub use block::is_skipped;
pub use declaration::{Declaration, NamedPolicy, Tenant};
pub use declaration_form::DeclarationForm;
pub use declarations::Declarations;
pub use laws::{declaration_or_fault, declaration_preserves_validity};
pub use limits::MAX_TENANTS;
pub use read::{DeclarationLines, read_declaration};
