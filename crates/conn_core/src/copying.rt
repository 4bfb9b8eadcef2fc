//! How a submission is copied, and how its call becomes pending.

ghost use Rattle.std.specs.Prelude.{◌≡◌, ◌<◌, ◌≤◌, ◌+◌, ◌++◌, ◌∷◌, [], ℕ, All, IfOk, IfSome, None, length};
ghost use Rattle.mrpc_table.specs.Valid.{IsValid};
ghost use Rattle.mrpc_table.specs.declared.limits.TheConstants.{MAX_HEAP, MAX_LOADS, MIN_HEAP};
ghost use Rattle.graph_copy.specs.Copies.{loads_since};
ghost use Rattle.call_history.specs.Trace.{copied};
ghost use Rattle.conn_core.specs.Invariant.{IsAsked, IsOfCopyResult, IsWellCopied, with_call, acceptance_events};
ghost use Rattle.conn_core.specs.ConnectionSteps.{IsReadBy};

use crate::answers::Ask;
use call_history::{AcceptedCall, History, HistoryRecord, RecordedCause, TookCopy};
use chain_upgrade::Chain;
use engine_core::{MAX_CALLS, Standing};
use graph_copy::{CopyResult, copies_are_short, copy};
use graph_form::{Reason, malformed_graphs_are_within_limit, sound_tree_is_normal};
use mrpc_base::Words;
use mrpc_table::{Call, Memory, Table};
use std::alloc::Global;

// A copied submission: the call as it is recorded and, if it has a copy, its form.
#[derive(Drop)]
pub(crate) struct CopiedSubmission {
    pub call: AcceptedCall,
    pub form: Option<Call>,
}

// Copies the message of a submission from a heap, by at most `limit` loads. If the table lacks the method, loads
// nothing.
pub(crate) fn copy_submission<W: Words>(
    alloc: Global,
    words: &mut W,
    table: &Table,
    limit: u64,
    conn: u32,
    seq: u32,
    ask: Ask,
) -> Result<CopiedSubmission, Memory>
    requires valid { IsValid table.now }
    requires least_heap { MIN_HEAP ≤ W.size words.old }
    requires greatest_heap { W.size words.old ≤ MAX_HEAP }
    requires least_limit { 1 ≤ limit }
    requires greatest_limit { limit ≤ MAX_LOADS }
    ensures asked { IfOk result (λ s. IsAsked seq ask s.call) }
    ensures well { IfOk result (λ s. IsWellCopied table.now (W.size words.old) limit
        (loads_since (W.loads words.old) (W.loads words.new)) s.call s.form) }
    ensures form { IfOk result (λ s. s.form ≡ copied conn s.call s.call.copy) }

    ensures size { W.size words.new ≡ W.size words.old }
    ensures adds { W.loads words.new ≡ W.loads words.old ++ loads_since (W.loads words.old) (W.loads words.new) }
    ensures reads { IsReadBy W.after_room W.after_load words.old (loads_since (W.loads words.old) (W.loads words.new))
        words.new }
{
    if usize::from(ask.method) >= table.methods.len() {
        return Ok(lacks_method(seq, ask));
    }
    sound_tree_is_normal();
    malformed_graphs_are_within_limit();
    copies_are_short();
    let message = table.message_at(ask.method, ask.number);
    let answer = copy(alloc, words, table, message, ask.addr, limit)?;
    from_copy_result(alloc, conn, seq, ask, answer)
}

// A submission whose method the table lacks.
fn lacks_method(seq: u32, ask: Ask) -> CopiedSubmission
    ensures asked { IsAsked seq ask result.call }
    ensures copy { result.call.copy ≡ TookCopy.Malformed Reason.NoMethod 0 ask.method }
    ensures count { result.call.count ≡ 0 }
    ensures form { result.form ≡ None }
{
    let copy = TookCopy::Malformed {
        reason: Reason::NoMethod,
        place: 0,
        value: u64::from(ask.method),
    };
    CopiedSubmission {
        call: call_of(seq, ask, 0, copy),
        form: None,
    }
}

// The submission for a result of the copy. The recorded copy and the form are two separate trees.
fn from_copy_result(
    alloc: Global,
    conn: u32,
    seq: u32,
    ask: Ask,
    answer: CopyResult,
) -> Result<CopiedSubmission, Memory>
    ensures { IfOk result (λ s. IsOfCopyResult conn seq ask answer s.call s.form) }
{
    match answer {
        CopyResult::Copied { tree, loads } => {
            let form = Call {
                conn,
                seq,
                method: ask.method,
                number: ask.number,
                tree: tree.copied(alloc)?,
            };
            Ok(CopiedSubmission {
                call: call_of(seq, ask, loads, TookCopy::Copy { tree }),
                form: Some(form),
            })
        }
        CopyResult::Malformed {
            reason,
            place,
            value,
            loads,
        } => {
            let copy = TookCopy::Malformed {
                reason,
                place,
                value,
            };
            Ok(CopiedSubmission {
                call: call_of(seq, ask, loads, copy),
                form: None,
            })
        }
    }
}

// The call as it is recorded.
fn call_of(seq: u32, ask: Ask, count: u64, copy: TookCopy) -> AcceptedCall
    ensures asked { IsAsked seq ask result }
    ensures count { result.count ≡ count }
    ensures copy { result.copy ≡ copy }
{
    AcceptedCall {
        seq,
        method: ask.method,
        number: ask.number,
        addr: ask.addr,
        after: ask.after,
        count,
        copy,
    }
}

// Records an accepted call. It becomes pending, or is refused if it is malformed. Never allocates.
pub(crate) fn make_pending(chain: &mut Chain, history: &mut History, submission: CopiedSubmission)
    requires few { length chain.old.calls < MAX_CALLS }
    requires greater { IfSome submission.form (λ form. All (λ s. s.call.seq < form.seq) chain.old.calls) }
    requires room { 2 ≤ history.old.room }
    ensures chain { chain.new ≡ with_call submission.form chain.old }
    ensures steps { history.new.steps ≡ history.old.steps }
    ensures told { history.new.happenings
        ≡ history.old.happenings ++ acceptance_events submission.call submission.form }
    ensures room { history.old.room ≤ history.new.room + 2 }
{
    let seq = submission.call.seq;
    history.push(HistoryRecord::Took(submission.call));
    match submission.form {
        Some(form) => push(chain, Standing::new(form)),
        None => history.push(HistoryRecord::Refused {
            seq,
            by: RecordedCause::Malformed,
        }),
    }
}

// Appends a call to the others, of which there are fewer than `MAX_CALLS`.
fn push(chain: &mut Chain, call: Standing)
    requires few { length chain.old.calls < MAX_CALLS }
    requires unmarked { call.marks ≡ [] }
    requires greater { All (λ s. s.call.seq < call.call.seq) chain.old.calls }
    ensures { chain.new ≡ record chain.old {
      calls = chain.old.calls ++ call ∷ [];
      row = chain.old.row ++ (call.call.seq, 0) ∷ [];
    } }
{
    match chain.push(call) {
        Ok(()) => {}
        Err(_) => unreachable!(),
    }
}
