//! The meanings of the words at `kind` and `role`.

/// The kind of a policy.
#[derive(Clone, Copy)]
pub enum PolicyKind {
    Access,
    Rate,
    Quota,
    Count,
    Redact,
}

/// What an application does.
#[derive(Clone, Copy)]
pub enum RoleWord {
    Client,
    Server,
    Echo,
}
