//! Checks a proto file or a set of files: prints the table that it declares, or its first fault.

ghost use Rattle.std.specs.Prelude.{◌≡◌, ◌≢◌, ◌≤◌, ◌⊎◌, List, ℕ, length, IfOk, IfErr};
ghost use Rattle.mrpc_base.specs.Failures.{HasCause};
ghost use Rattle.mrpc_table.specs.Text.{table_text};
ghost use Rattle.mrpc_table.specs.Valid.{IsValid};
ghost use Rattle.mrpc_table.specs.declared.table.Table.{Table};
ghost use Rattle.proto_set.specs.Bundle.{IsBundle};
ghost use Rattle.text_commands.specs.Checking.{HasDeclaredTable, HasCheckedText, IsCheckFault, IsFaultOf, HasRejectedProto};
ghost use Rattle.text_commands.specs.Stopping.{HasEndedEarly};
ghost use Rattle.text_commands.specs.declared.check.FaultLocation.{FaultLocation};

use crate::fault_line::write_fault_at;
use crate::laws::{file_law, set_law};
use crate::status::{DONE, FAULTY_INPUT, INPUT_FAILED, NO_COMMAND, NO_MEMORY, OUTPUT_FAILED};
use mrpc_base::{MAX_INPUT, Sink, write_all};
use mrpc_table::{Bytes, Memory, Table};
use proto_grammar::ProtoFault;
use proto_schema::{alone_is_ordered, read_proto};
use proto_set::{BundleFault, is_bundle, read_bundle};
use schema_files::{FilesFault, fault_in_set, resolve_files};
use schema_resolve::{ResolveFault, resolve};
use std::alloc::Global;
use table_text::table_text;

/// The location of a fault, as a command prints it.
#[derive(Drop, Clone, Copy)]
pub enum FaultLocation {
    /// On this line of a proto file.
    Line(u64),
    /// In this file of a set, counted from 1, on this line of it.
    InFile { file: u64, line: u64 },
    /// At this file of a set, counted from 1.
    OfFile(u64),
}

// Why a text has no table.
#[derive(Drop, Clone, Copy)]
enum CheckFault {
    // The text has its first fault here; `word` is the word of its reason.
    At {
        spot: FaultLocation,
        word: &'static str,
    },
    // Out of memory.
    Memory,
}

impl From<Memory> for CheckFault {
    ghost use Rattle.std.specs.Prelude.{◌≡◌};
    ghost use Rattle.text_commands.specs.declared.check.CheckFault.TheVariants.{Memory as NoMemory};

    ghost from_gives = { λ _ fault. fault ≡ NoMemory };

    fn from(_: Memory) -> CheckFault {
        CheckFault::Memory
    }
}

/// Reads a proto file or a set of files of at most [`MAX_INPUT`] bytes. Writes the text of its table, or
/// its first fault as one line.
pub fn check_to<K: Sink>(alloc: Global, text: &[u8], out: &mut K) -> u8
    requires short { length text.now ≤ MAX_INPUT }
    ensures statuses { result ≤ OUTPUT_FAILED }
    ensures some { (result ≢ NO_COMMAND) × (result ≢ INPUT_FAILED) }
    ensures done { result ≡ DONE → HasCheckedText text.now (K.written out.old) (K.written out.new) }
    ensures faulty { result ≡ FAULTY_INPUT → HasRejectedProto text.now (K.written out.old) (K.written out.new) }
    ensures early { (result ≡ NO_MEMORY) ⊎ (result ≡ OUTPUT_FAILED) → HasEndedEarly (HasCheckedText text.now)
        (HasRejectedProto text.now) (K.written out.old) (K.written out.new) }
    ensures out_cause { HasCause (result ≡ OUTPUT_FAILED) (K.failures out.old) (K.failures out.new) }
{
    match checked_text(alloc, text) {
        Ok(lines) => {
            if write_all(out, lines.as_slice()) {
                DONE
            } else {
                OUTPUT_FAILED
            }
        }
        Err(CheckFault::At { spot, word }) => write_fault_at(alloc, spot, word.as_bytes(), out),
        Err(CheckFault::Memory) => NO_MEMORY,
    }
}

// The canonical text of the table of a proto file or of a set of files.
fn checked_text(alloc: Global, text: &[u8]) -> Result<Bytes, CheckFault>
    requires short { length text.now ≤ MAX_INPUT }
    ensures checked { IfOk result (λ lines. (T : Table) × HasDeclaredTable text.now T × (lines ≡ table_text T)) }
    ensures fault { IfErr result (IsFaultOf text.now) }
{
    let table = table_of(alloc, text)?;
    Ok(table_text(alloc, &table)?)
}

// The table of a proto file or of a set of files.
fn table_of(alloc: Global, text: &[u8]) -> Result<Table, CheckFault>
    requires short { length text.now ≤ MAX_INPUT }
    ensures checked { IfOk result (λ T. HasDeclaredTable text.now T × IsValid T) }
    ensures fault { IfErr result (IsFaultOf text.now) }
{
    if is_bundle(text) {
        table_of_set(alloc, text)
    } else {
        table_of_file(alloc, text)
    }
}

// The table of a proto file. Other faults count only if each token is at a legal position.
fn table_of_file(alloc: Global, text: &[u8]) -> Result<Table, CheckFault>
    requires short { length text.now ≤ MAX_INPUT }
    requires alone { IsBundle text.now → ⊥ }
    ensures checked { IfOk result (λ T. HasDeclaredTable text.now T × IsValid T) }
    ensures fault { IfErr result (IsFaultOf text.now) }
{
    alone_is_ordered();
    let file = match read_proto(alloc, text) {
        Ok(file) => file,
        Err(ProtoFault::At { reason, line, .. }) => {
            return Err(CheckFault::At {
                spot: FaultLocation::Line(line),
                word: reason.word(),
            });
        }
        Err(ProtoFault::Memory) => return Err(CheckFault::Memory),
    };
    match resolve(alloc, &file) {
        Ok(table) => Ok(table),
        Err(ResolveFault::At { reason, line, .. }) => Err(CheckFault::At {
            spot: FaultLocation::Line(line),
            word: reason.word(),
        }),
        Err(ResolveFault::Memory) => Err(CheckFault::Memory),
    }
}

// The table of a set of files.
fn table_of_set(alloc: Global, text: &[u8]) -> Result<Table, CheckFault>
    requires short { length text.now ≤ MAX_INPUT }
    requires set { IsBundle text.now }
    ensures checked { IfOk result (λ T. HasDeclaredTable text.now T × IsValid T) }
    ensures fault { IfErr result (IsFaultOf text.now) }
{
    fault_in_set();
    let files = match read_bundle(alloc, text) {
        Ok(files) => files,
        Err(BundleFault::Bundle { file }) => {
            return Err(CheckFault::At {
                spot: FaultLocation::OfFile(u64::from(file)),
                word: "Bundle",
            });
        }
        Err(BundleFault::Memory) => return Err(CheckFault::Memory),
    };
    match resolve_files(alloc, files.as_slice()) {
        Ok(table) => Ok(table),
        Err(FilesFault::Path { file }) => Err(CheckFault::At {
            spot: FaultLocation::OfFile(file as u64 + 1),
            word: "Path",
        }),
        Err(FilesFault::At { file, line, reason }) => Err(CheckFault::At {
            spot: FaultLocation::InFile {
                file: file as u64 + 1,
                line,
            },
            word: reason.word(),
        }),
        Err(FilesFault::Memory) => Err(CheckFault::Memory),
    }
}

/// A text has one table or one first fault, never both.
pub fn checked_table_is_unique()
    ensures tables { (text : List ℕ) (T U : Table) → HasDeclaredTable text T → HasDeclaredTable text U → T ≡ U }
    ensures faults { (text word spelled : List ℕ) (spot at : FaultLocation) → IsCheckFault text spot word
        → IsCheckFault text at spelled → (spot ≡ at) × (word ≡ spelled) }
    ensures never_both { (text word : List ℕ) (T : Table) (spot : FaultLocation) → HasDeclaredTable text T
        → IsCheckFault text spot word → ⊥ }
    ensures never_neither { (text : List ℕ) → ((T : Table) → HasDeclaredTable text T → ⊥)
        → ((spot : FaultLocation) (word : List ℕ) → IsCheckFault text spot word → ⊥) → ⊥ }
{
    file_law();
    set_law();
}
