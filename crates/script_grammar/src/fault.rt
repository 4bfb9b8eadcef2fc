//! Faults of a text of lines.

ghost use Rattle.std.specs.Prelude.{◌≡◌};
ghost use Rattle.script_grammar.specs.Reasons.{reason_word, script_reason_rank, of_table, of_rule};
ghost use Rattle.script_grammar.specs.declared.fault.ScriptFault.TheVariants.{Memory as OutOfMemory};

use mrpc_table::{Memory, RuleReason};
use std::fmt;
use table_text::TableReason;
use thiserror::Error;

/// The reason of a fault in a line. Among several reasons of one line, the first in this list counts.
#[derive(Clone, Copy, Debug)]
pub enum ScriptReason {
    /// The first line doesn't name the format.
    Header,
    /// In the table: the form or order of its lines, a label that its kind doesn't allow, or an enum without a value.
    Syntax,
    /// A number is out of range, or the tenant is the 17th. In the table also: an enum lacks 0, or the index of a
    /// method is out of sequence.
    Number,
    /// In the table: a duplicate name or field number.
    Duplicate,
    /// In the table: a reference to a message or an enum that the table doesn't declare.
    UnknownType,
    /// In the table: a map key that is neither integral, nor a bool, nor a string.
    MapKey,
    /// In the table: one of its limits is exceeded.
    Limit,
    /// The line has no form, a word doesn't have the form of its sort, a policy or a table lacks its `end`, or the last
    /// line lacks its line feed.
    Word,
    /// A word that has to be a name isn't a name of at most 64 bytes.
    Name,
    /// The line declares or opens something a second time, or the name of the rule is already in use.
    Known,
    /// The line uses something that isn't declared or open.
    Unknown,
    /// The table lacks the method or the field, or the operator isn't one for that field.
    Path,
    /// A line follows the default of a policy, or the policy has no default.
    Default,
    /// The place isn't in the connection's heap, or the load of a race is 0.
    Place,
    /// No entry of the chain has the name.
    NoSuch,
    /// An entry of the chain already has the name.
    Taken,
    /// The chain has no such position.
    At,
    /// The chain already has 8 entries.
    ChainFull,
    /// The entry has a policy of another kind.
    OtherKind,
    /// The submissions up to this line could load too much.
    Work,
    /// The text ends without its last line.
    Close,
    /// A line follows `close`.
    After,
}

/// Why a text couldn't be read.
#[derive(Clone, Copy, Debug, Error)]
pub enum ScriptFault {
    /// The first line with a fault, counted from 1, and its first reason.
    #[error("fault {line} {reason}")]
    At { line: u64, reason: ScriptReason },
    /// Out of memory.
    #[error("out of memory")]
    Memory,
}

impl ScriptReason {
    /// The word that names the reason in the text of a fault.
    pub fn word(self) -> &'static str
        ensures { result.now ≡ reason_word self }
    {
        match self {
            ScriptReason::Header => "Header",
            ScriptReason::Syntax => "Syntax",
            ScriptReason::Number => "Number",
            ScriptReason::Duplicate => "Duplicate",
            ScriptReason::UnknownType => "UnknownType",
            ScriptReason::MapKey => "MapKey",
            ScriptReason::Limit => "Limit",
            ScriptReason::Word => "Word",
            ScriptReason::Name => "Name",
            ScriptReason::Known => "Known",
            ScriptReason::Unknown => "Unknown",
            ScriptReason::Path => "Path",
            ScriptReason::Default => "Default",
            ScriptReason::Place => "Place",
            ScriptReason::NoSuch => "NoSuch",
            ScriptReason::Taken => "Taken",
            ScriptReason::At => "At",
            ScriptReason::ChainFull => "ChainFull",
            ScriptReason::OtherKind => "OtherKind",
            ScriptReason::Work => "Work",
            ScriptReason::Close => "Close",
            ScriptReason::After => "After",
        }
    }

    /// Its rank in the order: among several reasons, the one with the lowest rank counts.
    pub fn order(self) -> u8
        ensures { result ≡ script_reason_rank self }
    {
        self as u8
    }

    /// Maps the reason of a table's line to the reason of the text that contains the table.
    pub fn of_table(reason: TableReason) -> ScriptReason
        ensures { result ≡ of_table reason }
    {
        match reason {
            TableReason::Syntax => ScriptReason::Syntax,
            TableReason::Number => ScriptReason::Number,
            TableReason::Duplicate => ScriptReason::Duplicate,
            TableReason::UnknownType => ScriptReason::UnknownType,
            TableReason::MapKey => ScriptReason::MapKey,
            TableReason::Limit => ScriptReason::Limit,
        }
    }

    /// Maps the reason of a policy's line to the reason of the text that contains the policy.
    pub fn of_rule(reason: RuleReason) -> ScriptReason
        ensures { result ≡ of_rule reason }
    {
        match reason {
            RuleReason::Word => ScriptReason::Word,
            RuleReason::Number => ScriptReason::Number,
            RuleReason::Name => ScriptReason::Name,
            RuleReason::Known => ScriptReason::Known,
            RuleReason::Path => ScriptReason::Path,
            RuleReason::Default => ScriptReason::Default,
        }
    }
}

impl fmt::Display for ScriptReason {
    fn fmt<W: fmt::Write>(&self, f: &mut fmt::Formatter<W>) -> fmt::Result {
        f.write_str(self.word())
    }
}

impl std::error::Error for ScriptReason {}

impl From<Memory> for ScriptFault {
    ghost from_gives = { λ _ e. e ≡ OutOfMemory };

    fn from(_: Memory) -> ScriptFault {
        ScriptFault::Memory
    }
}
