//! Why a text isn't a scenario.

ghost use Rattle.std.specs.Prelude.{◌≡◌};
ghost use Rattle.scenario.specs.Reasons.{number_of_entry, scenario_reason_rank, scenario_reason_word};
ghost use Rattle.scenario.specs.declared.fault.ScenarioFault.TheVariants.{Memory as NoMemory};

use mrpc_table::Memory;

/// The reason of a fault in an entry. Of several reasons at one entry, the first one of this list counts.
#[derive(Clone, Copy)]
pub enum ScenarioReason {
    /// The text isn't TOML.
    Toml,
    /// A key that entries of this kind don't have, a missing key, a value of another type, or a `kind`, `role` or
    /// `mode` that isn't known.
    Key,
    /// A number out of range, counts of steps that decrease, too many stores, or a 17th tenant.
    Number,
    /// A word that isn't a name, where a name is required.
    Name,
    /// An earlier entry declares the same.
    Known,
    /// The entry uses what isn't declared.
    Unknown,
    /// A schema without a table.
    Schema,
    /// A method or a field that the table lacks, or an OP that doesn't suit the field.
    Path,
    /// A line after the default of a policy, or no default.
    Default,
    /// A line of a policy, a program or an operator that is of no form.
    Word,
    /// A place outside the application's heap.
    Place,
    /// No entry of the chain has the name.
    NoSuch,
    /// An entry of the chain has the name already.
    Taken,
    /// The chain has no such position.
    At,
    /// The chain has 8 entries already.
    ChainFull,
    /// The policy is of another kind than the entry's, or isn't an access policy at `inbound`.
    OtherKind,
    /// Connections that aren't paired by links with a client at one end.
    Pair,
    /// The calls submitted so far could load too much.
    Work,
}

/// The faulty entry, by its number in its list, from 1.
#[derive(Clone, Copy)]
pub enum FaultyEntry {
    Top,
    Tenant(u64),
    Policy(u64),
    App(u64),
    Link(u64),
    Operator(u64),
}

/// Why no scenario was read.
#[derive(Clone, Copy)]
pub enum ScenarioFault {
    /// The first faulty entry, with its first reason.
    At {
        entry: FaultyEntry,
        reason: ScenarioReason,
    },
    /// Out of memory.
    Memory,
}

impl ScenarioReason {
    /// The word that names the reason in the text of a fault.
    pub fn word(self) -> &'static str
        ensures { result.now ≡ scenario_reason_word self }
    {
        match self {
            ScenarioReason::Toml => "Toml",
            ScenarioReason::Key => "Key",
            ScenarioReason::Number => "Number",
            ScenarioReason::Name => "Name",
            ScenarioReason::Known => "Known",
            ScenarioReason::Unknown => "Unknown",
            ScenarioReason::Schema => "Schema",
            ScenarioReason::Path => "Path",
            ScenarioReason::Default => "Default",
            ScenarioReason::Word => "Word",
            ScenarioReason::Place => "Place",
            ScenarioReason::NoSuch => "NoSuch",
            ScenarioReason::Taken => "Taken",
            ScenarioReason::At => "At",
            ScenarioReason::ChainFull => "ChainFull",
            ScenarioReason::OtherKind => "OtherKind",
            ScenarioReason::Pair => "Pair",
            ScenarioReason::Work => "Work",
        }
    }

    /// Its rank: of two reasons the one with the lower number counts.
    pub fn order(self) -> u8
        ensures { result ≡ scenario_reason_rank self }
    {
        self as u8
    }
}

impl FaultyEntry {
    /// The number in the text of a fault: that of the entry in its list, from 1, or 0 for the whole scenario.
    pub fn number(self) -> u64
        ensures { result ≡ number_of_entry self }
    {
        match self {
            FaultyEntry::Top => 0,
            FaultyEntry::Tenant(number)
            | FaultyEntry::Policy(number)
            | FaultyEntry::App(number)
            | FaultyEntry::Link(number)
            | FaultyEntry::Operator(number) => number,
        }
    }
}

impl From<Memory> for ScenarioFault {
    ghost from_gives = { λ _ fault. fault ≡ NoMemory };

    fn from(_: Memory) -> ScenarioFault {
        ScenarioFault::Memory
    }
}
