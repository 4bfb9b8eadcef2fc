//! The keys of a scenario's entries, and the values that each takes.

use mrpc_table::{MAX_HEAP, MAX_LOADS, MIN_HEAP};
use run_plan::{MAX_CONNECTIONS, MAX_RING, MAX_WEIGHT, MAX_WORKERS};
use scenario::keys::{entry_kind, entry_role};
use scenario::{FaultyEntry, PolicyKind, RoleWord};
use toml::Table;

// The values that a key takes.
#[derive(Clone, Copy)]
pub(crate) enum ValueForm {
    Text,
    // A number in this range, both ends included.
    Number(u64, u64),
    Flag,
    Texts,
    Tables,
}

// A key, the values that it takes, and whether it is required. Required keys come first in a table.
pub(crate) type KeyForm = (&'static str, ValueForm, bool);

// The longest window and the longest period of a rate, in milliseconds.
const DAY: u64 = 86_400_000;

// The most calls that a rate lets pass.
const MAX_CALLS: u64 = 1_000_000;

// The largest cap of a window.
const MAX_TICKETS: u64 = 4_294_967_295;

const CONNECTIONS: u64 = MAX_CONNECTIONS as u64;

const TOP: [KeyForm; 11] = [
    ("mrpc", ValueForm::Number(1, 1), true),
    ("service", ValueForm::Text, true),
    ("schema", ValueForm::Text, true),
    ("loads", ValueForm::Number(1, MAX_LOADS), false),
    ("workers", ValueForm::Number(1, MAX_WORKERS), false),
    ("weighted", ValueForm::Flag, false),
    ("tenant", ValueForm::Tables, false),
    ("policy", ValueForm::Tables, false),
    ("app", ValueForm::Tables, false),
    ("link", ValueForm::Tables, false),
    ("operator", ValueForm::Tables, false),
];

const TENANT: [KeyForm; 2] = [
    ("name", ValueForm::Text, true),
    ("per", ValueForm::Number(1, DAY), true),
];

const ACCESS: [KeyForm; 3] = [
    ("name", ValueForm::Text, true),
    ("kind", ValueForm::Text, true),
    ("rules", ValueForm::Texts, true),
];

const RATE: [KeyForm; 6] = [
    ("name", ValueForm::Text, true),
    ("kind", ValueForm::Text, true),
    ("amount", ValueForm::Number(1, MAX_CALLS), true),
    ("per", ValueForm::Number(1, DAY), true),
    ("burst", ValueForm::Number(1, MAX_CALLS), true),
    ("mode", ValueForm::Text, true),
];

const QUOTA: [KeyForm; 4] = [
    ("name", ValueForm::Text, true),
    ("kind", ValueForm::Text, true),
    ("tenant", ValueForm::Text, true),
    ("cap", ValueForm::Number(0, MAX_TICKETS), true),
];

const COUNT: [KeyForm; 2] = [
    ("name", ValueForm::Text, true),
    ("kind", ValueForm::Text, true),
];

const REDACT: [KeyForm; 3] = [
    ("name", ValueForm::Text, true),
    ("kind", ValueForm::Text, true),
    ("clears", ValueForm::Texts, true),
];

const PROGRAM: [KeyForm; 10] = [
    ("conn", ValueForm::Number(1, CONNECTIONS), true),
    ("role", ValueForm::Text, true),
    ("program", ValueForm::Texts, true),
    ("inbound", ValueForm::Text, false),
    ("schema", ValueForm::Text, false),
    ("heap", ValueForm::Number(MIN_HEAP, MAX_HEAP), false),
    ("receive", ValueForm::Number(MIN_HEAP, MAX_HEAP), false),
    ("ring", ValueForm::Number(1, MAX_RING), false),
    ("weight", ValueForm::Number(1, MAX_WEIGHT), false),
    ("chain", ValueForm::Texts, false),
];

const ECHO: [KeyForm; 9] = [
    ("conn", ValueForm::Number(1, CONNECTIONS), true),
    ("role", ValueForm::Text, true),
    ("inbound", ValueForm::Text, false),
    ("schema", ValueForm::Text, false),
    ("heap", ValueForm::Number(MIN_HEAP, MAX_HEAP), false),
    ("receive", ValueForm::Number(MIN_HEAP, MAX_HEAP), false),
    ("ring", ValueForm::Number(1, MAX_RING), false),
    ("weight", ValueForm::Number(1, MAX_WEIGHT), false),
    ("chain", ValueForm::Texts, false),
];

const LINK: [KeyForm; 2] = [
    ("a", ValueForm::Number(1, CONNECTIONS), true),
    ("b", ValueForm::Number(1, CONNECTIONS), true),
];

const OPERATOR: [KeyForm; 2] = [
    ("conn", ValueForm::Number(1, CONNECTIONS), true),
    ("steps", ValueForm::Texts, true),
];

// The keys of an entry; empty if its kind or its role isn't known.
pub(crate) fn keys_of(at: FaultyEntry, entry: &Table) -> &'static [KeyForm] {
    match at {
        FaultyEntry::Top => &TOP,
        FaultyEntry::Tenant(_) => &TENANT,
        FaultyEntry::Policy(_) => policy_keys(entry),
        FaultyEntry::App(_) => app_keys(entry),
        FaultyEntry::Link(_) => &LINK,
        FaultyEntry::Operator(_) => &OPERATOR,
    }
}

fn policy_keys(entry: &Table) -> &'static [KeyForm] {
    match entry_kind(entry) {
        None => &[],
        Some(PolicyKind::Access) => &ACCESS,
        Some(PolicyKind::Rate) => &RATE,
        Some(PolicyKind::Quota) => &QUOTA,
        Some(PolicyKind::Count) => &COUNT,
        Some(PolicyKind::Redact) => &REDACT,
    }
}

fn app_keys(entry: &Table) -> &'static [KeyForm] {
    match entry_role(entry) {
        None => &[],
        Some(RoleWord::Echo) => &ECHO,
        Some(_) => &PROGRAM,
    }
}

// A key that takes one of a few words, and these words.
pub(crate) type Choice = (&'static str, &'static str);

const KIND: Choice = (
    "kind",
    "\"access\", \"rate\", \"quota\", \"count\" or \"redact\"",
);

const ROLE: Choice = ("role", "\"client\", \"server\" or \"echo\"");

const MODE: Choice = ("mode", "\"hold\" or \"deny\"");

// The choice that an entry has besides its keys; `None` if it has none.
pub(crate) fn choice_of(at: FaultyEntry, entry: &Table) -> Option<Choice> {
    match at {
        FaultyEntry::Policy(_) => match entry_kind(entry) {
            None => Some(KIND),
            Some(PolicyKind::Rate) => Some(MODE),
            Some(_) => None,
        },
        FaultyEntry::App(_) => Some(ROLE),
        _ => None,
    }
}
