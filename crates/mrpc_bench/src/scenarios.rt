//! Reads a scenario from standard input, as a plan or only as TOML, and prints how many lines the programs of
//! its applications have. `bench/scenario` counts its instructions.
//!
//!     mrpc_bench scenario plan|toml
//!
//! It measures `scenario_reader` and the kit's `toml`. It ends with status 1 if the words have another form,
//! or the text is no plan or no TOML.

use crate::discard;
use crate::given::{named, text_of};
use crate::lines::line_of;
use mrpc_table::Bytes;
use run_plan::{Plan, Role};
use scenario_reader::read_scenario;
use scenario_toml::{tables_at, texts_at};
use std::alloc::Global;
use std::io::Read;
use toml::{Table, table_from_slice};

// How a text is read.
#[derive(Clone, Copy)]
enum TextForm {
    Plan,
    Toml,
}

// Counts the lines of the programs of an input, and returns what to print.
pub(crate) fn output<I: Read>(alloc: Global, words: &[String], input: &mut I) -> Option<Bytes> {
    let form = named(&FORMS, words.first()?.as_str())?;
    let text = text_of(alloc, input)?;
    let lines = lines_of(alloc, form, text.as_slice())?;
    line_of(alloc, &[lines as u64])
}

const FORMS: [(&str, TextForm); 2] = [("plan", TextForm::Plan), ("toml", TextForm::Toml)];

// The number of lines of the programs of a text; `None` if the text isn't of the form.
fn lines_of(alloc: Global, form: TextForm, text: &[u8]) -> Option<usize> {
    match form {
        TextForm::Plan => lines_of_plan(alloc, text),
        TextForm::Toml => lines_of_table(alloc, text),
    }
}

fn lines_of_plan(alloc: Global, text: &[u8]) -> Option<usize> {
    let plan = read_scenario(alloc, text).ok()?;
    let lines = lines_in_plan(&plan);
    discard(plan);
    Some(lines)
}

fn lines_of_table(alloc: Global, text: &[u8]) -> Option<usize> {
    let table = table_from_slice(alloc, text).ok()?;
    let lines = lines_in_table(alloc, &table);
    discard(table);
    lines
}

fn lines_in_plan(plan: &Plan) -> usize {
    let mut lines = 0usize;
    for app in plan.applications.as_slice() {
        match &app.role {
            Role::Client(program) | Role::Server(program) => lines = lines.saturating_add(
                program.len(),
            ),
            Role::Echo => {}
        }
    }
    lines
}

fn lines_in_table(alloc: Global, all: &Table) -> Option<usize> {
    let mut lines = 0usize;
    let apps = tables_at(alloc, all, "app").ok()?;
    for app in &apps {
        let program = texts_at(alloc, app, "program").ok()?;
        lines = lines.saturating_add(program.len());
    }
    Some(lines)
}
