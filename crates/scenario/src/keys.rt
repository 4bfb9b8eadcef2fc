//! The keys of each table of a scenario, with the defaults and ranges of its numbers.

ghost use Rattle.std.specs.Prelude.{◌≡◌, Some, codes};
ghost use Rattle.toml.specs.View.{table_view};
ghost use Rattle.scenario_toml.specs.Values.{required_key, has_keys};
ghost use Rattle.scenario_toml.specs.declared.key.ValueType.TheVariants as shape;
ghost use Rattle.scenario.specs.Keys as keys;
ghost use Rattle.scenario.specs.Policies as policies;
ghost use Rattle.scenario.specs.declared.entry_words.RoleWord.TheVariants as role;

use crate::entry_words::{PolicyKind, RoleWord};
use mrpc_table::{MAX_HEAP, MAX_LOADS, MIN_HEAP, is_word};
use run_plan::{MAX_CONNECTIONS, MAX_RING, MAX_WEIGHT, MAX_WORKERS};
use scenario_toml::{IntegerRange, TableKey, ValueType, has_keys, text_or_empty};
use toml::Table;

// The longest window, and the longest period of a rate, in milliseconds.
const DAY: u64 = 86_400_000;

/// The version of the format.
pub fn format() -> IntegerRange
    ensures { result ≡ keys.format }
{
    IntegerRange::new("mrpc", 1, 1, 1)
}

/// The maximum number of loads of one call.
pub fn loads() -> IntegerRange
    ensures { result ≡ keys.loads }
{
    IntegerRange::new("loads", 1024, 1, MAX_LOADS as u64)
}

/// The number of threads that serve the connections.
pub fn workers() -> IntegerRange
    ensures { result ≡ keys.workers }
{
    IntegerRange::new("workers", 2, 1, MAX_WORKERS)
}

/// The milliseconds of a window or of the period of a rate.
pub fn per() -> IntegerRange
    ensures { result ≡ keys.per }
{
    IntegerRange::new("per", 1, 1, DAY)
}

/// The number of calls that a rate lets pass in its period.
pub fn amount() -> IntegerRange
    ensures { result ≡ keys.amount }
{
    IntegerRange::new("amount", 1, 1, 1_000_000)
}

/// The number of calls that a rate lets pass at once.
pub fn burst() -> IntegerRange
    ensures { result ≡ keys.burst }
{
    IntegerRange::new("burst", 1, 1, 1_000_000)
}

/// The number of tickets in a window that pass.
pub fn cap() -> IntegerRange
    ensures { result ≡ keys.cap }
{
    IntegerRange::new("cap", 0, 0, 4_294_967_295)
}

/// The number of a connection.
pub fn conn() -> IntegerRange
    ensures { result ≡ keys.conn }
{
    IntegerRange::new("conn", 0, 1, MAX_CONNECTIONS as u64)
}

/// The size in words of a heap that the application stores to.
pub fn heap() -> IntegerRange
    ensures { result ≡ keys.heap }
{
    IntegerRange::new("heap", 64, MIN_HEAP as u64, MAX_HEAP as u64)
}

/// The size in words of a heap where messages are delivered.
pub fn receive() -> IntegerRange
    ensures { result ≡ keys.receive }
{
    IntegerRange::new("receive", 1024, MIN_HEAP as u64, MAX_HEAP as u64)
}

/// The capacity of a ring, in items.
pub fn ring() -> IntegerRange
    ensures { result ≡ keys.ring }
{
    IntegerRange::new("ring", 4, 1, MAX_RING)
}

/// The weight of a connection among ready ones.
pub fn weight() -> IntegerRange
    ensures { result ≡ keys.weight }
{
    IntegerRange::new("weight", 1, 1, MAX_WEIGHT)
}

/// One end of a link.
pub fn end_a() -> IntegerRange
    ensures { result ≡ keys.end_a }
{
    IntegerRange::new("a", 0, 1, MAX_CONNECTIONS as u64)
}

/// The other end of a link.
pub fn end_b() -> IntegerRange
    ensures { result ≡ keys.end_b }
{
    IntegerRange::new("b", 0, 1, MAX_CONNECTIONS as u64)
}

// The key of a name.
fn name_key() -> TableKey
    ensures { result ≡ required_key (codes "name") shape.Text }
{
    TableKey::required("name", ValueType::Text)
}

// The key of a connection.
fn conn_key() -> TableKey
    ensures { result ≡ required_key (codes "conn") shape.Integer }
{
    TableKey::required("conn", ValueType::Integer)
}

/// Whether the top table has its keys.
pub fn has_top_keys(all: &Table) -> bool
    ensures { result ≡ has_keys keys.top_keys (table_view all.now) }
{
    let keys = [
        TableKey::required("mrpc", ValueType::Integer),
        TableKey::required("service", ValueType::Text),
        TableKey::required("schema", ValueType::Text),
        TableKey::optional("loads", ValueType::Integer),
        TableKey::optional("workers", ValueType::Integer),
        TableKey::optional("weighted", ValueType::Flag),
        TableKey::optional("tenant", ValueType::Tables),
        TableKey::optional("policy", ValueType::Tables),
        TableKey::optional("app", ValueType::Tables),
        TableKey::optional("link", ValueType::Tables),
        TableKey::optional("operator", ValueType::Tables),
    ];
    has_keys(&keys, all)
}

/// Whether a tenant has its keys.
pub fn has_tenant_keys(entry: &Table) -> bool
    ensures { result ≡ has_keys keys.tenant_keys (table_view entry.now) }
{
    has_keys(
        &[name_key(), TableKey::required("per", ValueType::Integer)],
        entry,
    )
}

/// The kind of a policy; `None` if its word isn't a kind.
pub fn entry_kind(entry: &Table) -> Option<PolicyKind>
    ensures { result ≡ keys.entry_kind (table_view entry.now) }
{
    let word = text_or_empty(entry, "kind");
    if is_word(word, b"access") {
        Some(PolicyKind::Access)
    } else if is_word(word, b"rate") {
        Some(PolicyKind::Rate)
    } else if is_word(word, b"quota") {
        Some(PolicyKind::Quota)
    } else if is_word(word, b"count") {
        Some(PolicyKind::Count)
    } else if is_word(word, b"redact") {
        Some(PolicyKind::Redact)
    } else {
        None
    }
}

/// Whether a policy of a kind has its keys.
pub fn has_policy_keys(kind: PolicyKind, entry: &Table) -> bool
    ensures { result ≡ keys.has_policy_keys (Some kind) (table_view entry.now) }
{
    let word = TableKey::required("kind", ValueType::Text);
    match kind {
        PolicyKind::Access => has_keys(
            &[
                name_key(),
                word,
                TableKey::required("rules", ValueType::Texts),
            ],
            entry,
        ),
        PolicyKind::Rate => {
            let keys = [
                name_key(),
                word,
                TableKey::required("amount", ValueType::Integer),
                TableKey::required("per", ValueType::Integer),
                TableKey::required("burst", ValueType::Integer),
                TableKey::required("mode", ValueType::Text),
            ];
            has_keys(&keys, entry)
                && (holds(entry) || is_word(text_or_empty(entry, "mode"), b"deny"))
        }
        PolicyKind::Quota => {
            let keys = [
                name_key(),
                word,
                TableKey::required("tenant", ValueType::Text),
                TableKey::required("cap", ValueType::Integer),
            ];
            has_keys(&keys, entry)
        }
        PolicyKind::Count => has_keys(&[name_key(), word], entry),
        PolicyKind::Redact => has_keys(
            &[
                name_key(),
                word,
                TableKey::required("clears", ValueType::Texts),
            ],
            entry,
        ),
    }
}

/// Whether a rate policy holds calls.
pub fn holds(entry: &Table) -> bool
    ensures { result ≡ policies.holds (table_view entry.now) }
{
    is_word(text_or_empty(entry, "mode"), b"hold")
}

/// The role of an application; `None` if its word isn't a role.
pub fn entry_role(entry: &Table) -> Option<RoleWord>
    ensures { result ≡ keys.entry_role (table_view entry.now) }
{
    let word = text_or_empty(entry, "role");
    if is_word(word, b"client") {
        Some(RoleWord::Client)
    } else if is_word(word, b"server") {
        Some(RoleWord::Server)
    } else if is_word(word, b"echo") {
        Some(RoleWord::Echo)
    } else {
        None
    }
}

// Whether an echo has its keys.
fn has_echo_keys(entry: &Table) -> bool
    ensures { result ≡ has_keys (keys.app_keys role.Echo) (table_view entry.now) }
{
    let keys = [
        conn_key(),
        TableKey::required("role", ValueType::Text),
        TableKey::optional("heap", ValueType::Integer),
        TableKey::optional("receive", ValueType::Integer),
        TableKey::optional("ring", ValueType::Integer),
        TableKey::optional("weight", ValueType::Integer),
        TableKey::optional("chain", ValueType::Texts),
        TableKey::optional("inbound", ValueType::Text),
        TableKey::optional("schema", ValueType::Text),
    ];
    has_keys(&keys, entry)
}

// Whether an application with a program has its keys.
fn has_program_keys(entry: &Table) -> bool
    ensures { result ≡ has_keys (keys.app_keys role.Client) (table_view entry.now) }
{
    let keys = [
        conn_key(),
        TableKey::required("role", ValueType::Text),
        TableKey::optional("heap", ValueType::Integer),
        TableKey::optional("receive", ValueType::Integer),
        TableKey::optional("ring", ValueType::Integer),
        TableKey::optional("weight", ValueType::Integer),
        TableKey::optional("chain", ValueType::Texts),
        TableKey::optional("inbound", ValueType::Text),
        TableKey::optional("schema", ValueType::Text),
        TableKey::required("program", ValueType::Texts),
    ];
    has_keys(&keys, entry)
}

/// Whether an application of a role has its keys.
pub fn has_app_keys(role: RoleWord, entry: &Table) -> bool
    ensures { result ≡ keys.has_app_keys (Some role) (table_view entry.now) }
{
    match role {
        RoleWord::Echo => has_echo_keys(entry),
        RoleWord::Client | RoleWord::Server => has_program_keys(entry),
    }
}

/// Whether a link has its keys.
pub fn has_link_keys(entry: &Table) -> bool
    ensures { result ≡ has_keys keys.link_keys (table_view entry.now) }
{
    let keys = [
        TableKey::required("a", ValueType::Integer),
        TableKey::required("b", ValueType::Integer),
    ];
    has_keys(&keys, entry)
}

/// Whether an operator has its keys.
pub fn has_operator_keys(entry: &Table) -> bool
    ensures { result ≡ has_keys keys.operator_keys (table_view entry.now) }
{
    has_keys(
        &[conn_key(), TableKey::required("steps", ValueType::Texts)],
        entry,
    )
}
