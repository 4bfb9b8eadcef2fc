//! The lines of a scenario: what a line of a program or of an operator means, for an application's role and heap size,
//! and which fault comes first.
//!
//! `specs/Forms.antt` lists the forms of lines. `specs/Lines.antt` defines what a line of a program means and which
//! faults it has. `specs/StepLines.antt` does so for a line of an operator, and `specs/Programs.antt` for the lines of a
//! whole program, which a [`ProgramReader`] reads line by line. The crate depends on `mrpc_table`, on `app_program`
//! for programs, and on `script_grammar` for words. The layers above use one contract: a line has one meaning, or one
//! first reason why it is faulty.
#![tactic(auto)]

mod form;
mod program;
mod program_line;
mod reason;
mod step;
mod words;

pub use form::ProgramRole;
pub use program::ProgramReader;
pub use program_line::read_line;
pub use reason::LineReason;
pub use step::{StepText, read_step};
