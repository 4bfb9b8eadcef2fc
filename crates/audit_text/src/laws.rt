//! Laws of the audit text. These functions do nothing; each contract is a law.

ghost use Rattle.std.specs.Prelude.{◌≡◌, ◌≢◌, ◌++◌, ℕ, List, All, Option};
ghost use Rattle.mrpc_table.specs.Valid.{IsValid};
ghost use Rattle.mrpc_table.specs.declared.table.Table.{Table};
ghost use Rattle.call_history.specs.Legal.{History};
ghost use Rattle.call_history.specs.declared.happening.ConnectionEvent.{ConnectionEvent};
ghost use Rattle.policy_declarations.specs.Declarations.{Declared};
ghost use Rattle.audit_text.specs.Lines.{audit, audit_line, happening_words, stands_line, stands_words, IsSplitInto};
ghost use Rattle.audit_text.specs.Writable.{IsWritablePendingCall, IsWritable};
ghost use Rattle.audit_text.specs.Faults.{IsFirstInvalidLine};
ghost use Rattle.audit_text.specs.declared.holding.Holding.{Holding};

use wire_decode::{meaning_is_unique, meaning_of_encoding};

/// Under a valid table and declared policies, a text is the audit of at most one history of writable events. Its first
/// line determines one event and the remainder.
pub fn history_of_text_is_unique()
    ensures front { (T : Table) (declared : Declared) (x y : ConnectionEvent) (a b : List ℕ) → IsValid T
        → IsWritable T declared x → IsWritable T declared y → audit_line T x ++ a ≡ audit_line T y ++ b
        → (x ≡ y) × (a ≡ b) }
    ensures text { (T : Table) (declared : Declared) (h k : History) → IsValid T → All (IsWritable T declared) h
        → All (IsWritable T declared) k → audit T h ≡ audit T k → h ≡ k }
{
    meaning_of_encoding();
    meaning_is_unique();
}

/// Under a valid table, a text has at most one first invalid line, and none if it is the audit of a history of writable
/// events.
pub fn first_invalid_line_is_unique()
    ensures bad { (T : Table) (declared : Declared) (text : List ℕ) (line other : ℕ) → IsValid T
        → IsFirstInvalidLine T declared text line → IsFirstInvalidLine T declared text other → line ≡ other }
    ensures not_both { (T : Table) (declared : Declared) (text : List ℕ) (h : History) (line : ℕ) → IsValid T
        → All (IsWritable T declared) h → text ≡ audit T h → IsFirstInvalidLine T declared text line → ⊥ }
{
    history_of_text_is_unique();
}

/// The line of a pending call is never the line of an event, and it determines the call.
pub fn stands_line_determines_call()
    ensures apart { (T : Table) (x : ConnectionEvent) (conn seq position : ℕ) (name : List ℕ) (holding : Option Holding)
        → stands_line conn seq position name holding ≢ audit_line T x }
    ensures one { (conn seq position conn' seq' position' : ℕ) (name name' : List ℕ) (holding holding' : Option Holding)
        → IsWritablePendingCall conn seq position name holding
        → IsWritablePendingCall conn' seq' position' name' holding'
        → stands_line conn seq position name holding ≡ stands_line conn' seq' position' name' holding'
        → (conn ≡ conn') × (seq ≡ seq') × (position ≡ position') × (name ≡ name') × (holding ≡ holding') }
{}

/// A line has one line feed, at its end, and splits into its words at its spaces.
pub fn line_splits_into_words()
    ensures happening { (T : Table) (declared : Declared) (x : ConnectionEvent) → IsValid T → IsWritable T declared x
        → IsSplitInto (happening_words T x.conn x.what) }
    ensures stands { (conn seq position : ℕ) (name : List ℕ) (holding : Option Holding)
        → IsWritablePendingCall conn seq position name holding
        → IsSplitInto (stands_words conn seq position name holding) }
{}
