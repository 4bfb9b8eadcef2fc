//! The whole script of an input.

ghost use Rattle.std.specs.Prelude.{◌≡◌, ◌<◌, ◌≤◌, ◌^◌, ◌++◌, ℕ, List, codes, length, IfOk, IfErr, OnOk};
ghost use Rattle.mrpc_table.specs.Text.{table_text};
ghost use Rattle.mrpc_table.specs.Valid.{IsValid};
ghost use Rattle.frame_view.specs.Faults.{OnFault};
ghost use Rattle.script_view.specs.Scripts.{IsReplayable, IsScriptOf, HasStop, empty_counts, script_text};
ghost use Rattle.script_view.specs.Unplayable.{CallCounts};
ghost use Rattle.script_view.specs.ReplayRanges.{IsReplayBetween, IsFirstStop};

use crate::calls::ReplayCalls;
use crate::lines::{put_line, put_parts};
use crate::playing::put_stream;
use frame_view::{ReadFault, frames_are_consecutive, read_head};
use mrpc_table::{Bytes, Memory, Table};
use std::alloc::Global;
use table_text::table_text;
use wire_decode::TreePool;

/// The script that stores, submits and sends the message of each frame of an input except hellos.
pub fn script_of(alloc: Global, text: &[u8]) -> Result<Bytes, ReadFault>
    requires short { length text.now < 2 ^ 63 }
    ensures script { IfOk result (IsScriptOf text.now) }
    ensures fault { IfErr result (OnFault (HasStop text.now)) }
{
    frames_are_consecutive();
    match read_head(alloc, text) {
        Ok((table, stream)) => script_of_stream(alloc, &table, stream),
        Err(fault) => Err(fault),
    }
}

fn script_of_stream(alloc: Global, table: &Table, stream: &[u8]) -> Result<Bytes, ReadFault>
    requires valid { IsValid table.now }
    requires countable { length stream.now < 2 ^ 63 }
    ensures script { IfOk result (λ script. (to : ℕ) × (body : List ℕ) × (made : CallCounts) × (length stream.now ≤ to)
        × IsReplayBetween table.now stream.now 0 to empty_counts body made × IsReplayable body made
        × (script ≡ script_text table.now made.loads body)) }
    ensures fault { IfErr result (OnFault (IsFirstStop table.now stream.now empty_counts)) }
{
    let mut calls = ReplayCalls::new();
    let mut body = Bytes::new(alloc);
    let mut spare = TreePool::new(alloc);
    match put_stream(alloc, table, stream, &mut spare, &mut calls, &mut body) {
        Ok(()) => whole_script(alloc, table, calls.loads, body.as_slice()),
        Err(fault) => Err(fault),
    }
}

// The preamble of a script, the lines of its frames, and its last line.
fn whole_script(alloc: Global, table: &Table, loads: u64, body: &[u8]) -> Result<Bytes, ReadFault>
    requires { IsValid table.now }
    ensures script { IfOk result (λ script. script ≡ script_text table.now loads body.now) }
    ensures fault { IfErr result (λ fault. fault ≡ ReadFault.Memory) }
{
    let mut script = Bytes::from_slice(alloc, b"mrpc-replay 1\n")?;
    put_line(&mut script, b"loads", &[loads])?;
    put_body(alloc, &mut script, table, body)?;
    Ok(script)
}

// Appends the table, the lines of the frames, and the last line.
fn put_body(alloc: Global, script: &mut Bytes, table: &Table, body: &[u8]) -> Result<(), Memory>
    requires { IsValid table.now }
    ensures { OnOk result (script.new ≡ script.old ++ (codes "table\n" ++ (table_text table.now ++ (codes "end\n"
        ++ (body.now ++ codes "close\n"))))) }
{
    let table = table_text(alloc, table)?;
    put_parts(
        script,
        &[b"table\n", table.as_slice(), b"end\n", body, b"close\n"],
    )
}
