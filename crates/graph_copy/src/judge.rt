//! Which words are invalid, and the first reason.

ghost use Rattle.std.specs.Prelude.{◌≡◌, ◌≤◌, ◌↔◌, ℕ, IsTrue};
ghost use Rattle.mrpc_table.specs.Normal.{fields_of};
ghost use Rattle.mrpc_table.specs.Valid.{IsValid};
ghost use Rattle.mrpc_table.specs.Words.{IsWordForm};
ghost use Rattle.mrpc_table.specs.declared.limits.TheConstants.{MAX_HEAP};
ghost use Rattle.mrpc_table.specs.declared.table.Table.{Table};
ghost use Rattle.graph_form.specs.Roles.{link, case_word, size_words};
ghost use Rattle.graph_form.specs.Placed.{IsSpanInHeap};
ghost use Rattle.graph_copy.specs.Expected.{layout_role};
ghost use Rattle.graph_copy.specs.Judged.{IsJudgement, IsReasonUnless, IsMember};

use crate::look_up::field_of;
use crate::role::Role;
use graph_form::{Reason, element_words, run_words, size_words};
use mrpc_table::{Kind, Label, MAX_DEPTH, Table};

// Whether a span of words is inside a heap. Word 0 belongs to no message.
pub(crate) fn lies_in(size: u64, place: u64, words: u64) -> bool
    ensures { IsTrue result ↔ IsSpanInHeap size place words }
{
    place >= 1 && place <= size && words <= size - place
}

// The first reason why a word of the role is invalid in a heap of this size; `None` if it is valid.
pub(crate) fn first_invalid_reason(
    table: &Table,
    size: u64,
    role: Role,
    value: u64,
) -> Option<Reason>
    requires valid { IsValid table.now }
    requires least { 1 ≤ size }
    requires most { size ≤ MAX_HEAP }
    ensures { IsJudgement table.now size (layout_role table.now role) value result }
{
    match role {
        Role::Value(kind) => judge_value(kind, value),
        Role::Presence(_) => judge_presence(value),
        Role::RunLength(_) => judge_length(value, 8 * size - 8),
        Role::RunPresence(_) => judge_length(value, 8 * size - 7),
        Role::RunAddress { kind: _, bytes } => judge_address(size, value, run_words(bytes)),
        Role::Link {
            message,
            depth,
            needed,
        } => judge_link(size, size_words(table, message), depth, needed, value),
        Role::Count { kind, depth: _ } => judge_length(value, (size - 1) / element_words(kind)),
        Role::Elements {
            kind,
            count,
            depth: _,
        } => judge_address(size, value, count.saturating_mul(element_words(kind))),
        Role::EntryCount { .. } => judge_length(value, (size - 1) / 4),
        Role::Entries {
            key: _,
            kind: _,
            count,
            depth: _,
        } => judge_address(size, value, count.saturating_mul(4)),
        Role::Case {
            message,
            oneof,
            depth: _,
        } => judge_case(table, message, oneof, value),
    }
}

fn judge_value(kind: Kind, value: u64) -> Option<Reason>
    ensures { IsReasonUnless (IsWordForm kind value) Reason.Narrow result }
{
    if kind.is_word_form(value) {
        None
    } else {
        Some(Reason::Narrow)
    }
}

fn judge_presence(value: u64) -> Option<Reason>
    ensures { IsReasonUnless (value ≤ 1) Reason.Presence result }
{
    if value <= 1 {
        None
    } else {
        Some(Reason::Presence)
    }
}

fn judge_length(value: u64, most: u64) -> Option<Reason>
    ensures { IsReasonUnless (value ≤ most) Reason.Length result }
{
    if value <= most {
        None
    } else {
        Some(Reason::Length)
    }
}

fn judge_address(size: u64, place: u64, words: u64) -> Option<Reason>
    ensures { IsReasonUnless (IsSpanInHeap size place words) Reason.Address result }
{
    if lies_in(size, place, words) {
        None
    } else {
        Some(Reason::Address)
    }
}

fn judge_link(size: u64, words: u64, depth: u32, needed: bool, value: u64) -> Option<Reason>
    ensures { (T : Table) (m : ℕ) → words ≡ size_words T m → IsJudgement T size (link m depth needed) value result }
{
    if value == 0 && !needed {
        return None;
    }
    if !lies_in(size, value, words) {
        return Some(Reason::Address);
    }
    if depth >= MAX_DEPTH {
        return Some(Reason::Depth);
    }
    None
}

fn judge_case(table: &Table, message: u32, oneof: u32, value: u64) -> Option<Reason>
    requires { IsValid table.now }
    ensures { (H depth : ℕ) → IsJudgement table.now H (case_word (fields_of table.now message) oneof depth) value result }
{
    if value == 0 || has_member(table, message, oneof, value) {
        None
    } else {
        Some(Reason::Case)
    }
}

// Whether the field of a number is a member of the oneof.
fn has_member(table: &Table, message: u32, oneof: u32, number: u64) -> bool
    requires { IsValid table.now }
    ensures { IsTrue result ↔ IsMember (fields_of table.now message) oneof number }
{
    match field_of(table, message, number) {
        Some(field) => match field.label {
            Label::Member(place) => place == oneof,
            _ => false,
        },
        None => false,
    }
}
