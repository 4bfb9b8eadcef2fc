//! The laws of the crates below, as the proofs here combine them. These functions do nothing; their clauses
//! are the laws.

ghost use Rattle.text_commands.specs.Laws.{AuditLaw, FileLaw, FrameLaw, MeaningLaw, LineNumberLaw, SetLaw, TextLaw};

use audit_check::{audit_input_or_fault, check_is_deterministic};
use frame_transport::{frame_is_unique, frames_join, split_is_unique};
use proto_schema::{
    alone_is_ordered, file_is_unique, file_or_fault, text_fault_is_unique as one_proto_fault,
};
use proto_set::bundle_or_fault;
use schema_files::{files_fault_is_unique, files_table_is_unique, table_or_files_fault};
use schema_resolve::{file_violation_is_unique, resolved_table_is_unique, table_or_violation};
use table_text::{
    table_after_is_unique, table_fault_is_unique as one_table_fault, table_or_fault,
    table_text_is_unique,
};
use wire_decode::{decode_fault_is_unique, meaning_is_unique, meaning_or_fault};

// Laws of a table's text within a text.
pub(crate) fn text_law()
    ensures { TextLaw }
{
    table_text_is_unique();
    one_table_fault();
    table_after_is_unique();
    table_or_fault();
}

// Laws of frames and streams.
pub(crate) fn frame_law()
    ensures { FrameLaw }
{
    split_is_unique();
    frame_is_unique();
    frames_join();
}

// Laws of the meaning of payloads, and of the frames that hold them.
pub(crate) fn meaning_law()
    ensures { MeaningLaw }
{
    frame_law();
    meaning_is_unique();
    decode_fault_is_unique();
    meaning_or_fault();
}

// Laws of proto files and their tables.
pub(crate) fn file_law()
    ensures { FileLaw }
{
    file_is_unique();
    alone_is_ordered();
    one_proto_fault();
    file_or_fault();
    resolved_table_is_unique();
    file_violation_is_unique();
    table_or_violation();
}

// Laws of sets of files and their tables.
pub(crate) fn set_law()
    ensures { SetLaw }
{
    bundle_or_fault();
    files_table_is_unique();
    files_fault_is_unique();
    table_or_files_fault();
}

// Laws of the input of `audit`, and of the text in it.
pub(crate) fn audit_law()
    ensures { AuditLaw }
{
    audit_input_or_fault();
    check_is_deterministic();
}

// Laws of the line numbers that a check of an audit reports.
pub(crate) fn line_number_law()
    ensures { LineNumberLaw }
{}
