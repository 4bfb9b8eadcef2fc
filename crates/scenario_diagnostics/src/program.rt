//! Lines of programs.

use crate::Phrase;
use crate::site::{DiagnosedPart, Site, say_at, say_in, text_of};
use app_program::{MAX_REQUEST_STORES, MAX_STORES};
use mrpc_table::{Bytes, MAX_HEAP};
use scenario::keys::{entry_role, heap};
use scenario::{RoleWord, ScenarioReason, reason_of_line};
use scenario_lines::{ProgramRole, read_line};
use scenario_toml::items_at;
use toml::Value;

const CLIENT_FORMS: &str =
    "expected \"store PLACE VALUE\", \"spin N PLACE V W\", \"submit METHOD ADDR\" or \"reclaim BLOCK\"";

const SERVER_FORMS: &str =
    "expected \"store PLACE VALUE\", \"spin N PLACE V W\" or, as the last line, \"reply ADDR\"";

const RANGES: &str =
    "a number is out of its range: of METHOD 0 to 65535, of N 0 to 500000, of BLOCK 1 to 9223372036854775808, of \
     others 64 bits";

const STORES: &str = ": its program stores ";

const COUNTED: &str = " times at the most, a \"spin\" counted twice for each N";

const LAST: &str = ": the one \"reply ADDR\" of a server's program is its last line";

// Appends which line of an application's program has this reason, or the text of the reason if it is about
// all lines.
pub(crate) fn say_program(
    out: &mut Bytes,
    site: &Site<'_>,
    reason: ScenarioReason,
) -> DiagnosedPart<'static> {
    let role = match entry_role(site.entry) {
        Some(RoleWord::Client) => ProgramRole::Client,
        Some(RoleWord::Server) => ProgramRole::Server,
        _ => return Ok(None),
    };
    let heap = heap().number(site.entry).min(MAX_HEAP) as u32;
    say_lines(out, role, heap, items_at(site.entry, "program"), reason)
}

fn say_lines(
    out: &mut Bytes,
    role: ProgramRole,
    heap: u32,
    lines: &[Value],
    reason: ScenarioReason,
) -> DiagnosedPart<'static> {
    let mut number = 0u64;
    for item in lines {
        let line = text_of(item);
        number = number.saturating_add(1);
        if is_against(role, heap, line, reason) {
            let line = Phrase::Line(number, line);
            let words = line_words(role, heap, reason);
            return say_in(out, "program", number, &[line, words[0], words[1]]);
        }
    }
    say_whole(out, role, reason)
}

// Whether this is the first reason of a line.
fn is_against(role: ProgramRole, heap: u32, line: &[u8], reason: ScenarioReason) -> bool {
    match read_line(role, heap, line) {
        Ok(_) => false,
        Err(why) => reason_of_line(why).order() == reason.order(),
    }
}

// The text of a reason about a line.
fn line_words(role: ProgramRole, heap: u32, reason: ScenarioReason) -> [Phrase<'static>; 2] {
    match (reason, role) {
        (ScenarioReason::Number, _) => [Phrase::Text(RANGES), Phrase::Text("")],
        (ScenarioReason::Place, _) => {
            let most = u64::from(heap).saturating_sub(1);
            [
                Phrase::Text("a place of its heap is "),
                Phrase::Range(1, most),
            ]
        }
        (_, ProgramRole::Client) => [Phrase::Text(CLIENT_FORMS), Phrase::Text("")],
        (_, ProgramRole::Server) => [Phrase::Text(SERVER_FORMS), Phrase::Text("")],
    }
}

// Appends the text of a reason, if it is about all lines.
fn say_whole(out: &mut Bytes, role: ProgramRole, reason: ScenarioReason) -> DiagnosedPart<'static> {
    let most = match role {
        ProgramRole::Client => MAX_STORES,
        ProgramRole::Server => MAX_REQUEST_STORES,
    };
    match reason {
        ScenarioReason::Number => {
            let parts = [
                Phrase::Text(STORES),
                Phrase::Number(most),
                Phrase::Text(COUNTED),
            ];
            say_at(out, "program", &parts)
        }
        ScenarioReason::Word => say_at(out, "program", &[Phrase::Text(LAST)]),
        _ => Ok(None),
    }
}
