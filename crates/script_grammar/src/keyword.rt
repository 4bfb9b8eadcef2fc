//! The fixed words of lines.

ghost use Rattle.std.specs.Prelude.{◌≡◌, ◌↔◌, IsTrue};
ghost use Rattle.script_grammar.specs.Keywords.{spelling};

/// A fixed word of lines.
#[derive(Clone, Copy)]
pub enum Keyword {
    Access,
    Attach,
    Burst,
    Cap,
    Close,
    Conn,
    Count,
    Deny,
    Detach,
    Drain,
    Hold,
    Moment,
    Per,
    Policy,
    Quota,
    Race,
    Rate,
    Redact,
    Send,
    Store,
    Submit,
    Tenant,
    Turn,
    Upgrade,
}

impl Keyword {
    /// The bytes of the word.
    pub fn spelling(self) -> &'static [u8]
        ensures { result.now ≡ spelling self }
    {
        match self {
            Keyword::Access => b"access",
            Keyword::Attach => b"attach",
            Keyword::Burst => b"burst",
            Keyword::Cap => b"cap",
            Keyword::Close => b"close",
            Keyword::Conn => b"conn",
            Keyword::Count => b"count",
            Keyword::Deny => b"deny",
            Keyword::Detach => b"detach",
            Keyword::Drain => b"drain",
            Keyword::Hold => b"hold",
            Keyword::Moment => b"moment",
            Keyword::Per => b"per",
            Keyword::Policy => b"policy",
            Keyword::Quota => b"quota",
            Keyword::Race => b"race",
            Keyword::Rate => b"rate",
            Keyword::Redact => b"redact",
            Keyword::Send => b"send",
            Keyword::Store => b"store",
            Keyword::Submit => b"submit",
            Keyword::Tenant => b"tenant",
            Keyword::Turn => b"turn",
            Keyword::Upgrade => b"upgrade",
        }
    }

    /// Returns true if a word is this one.
    pub fn is(self, word: &[u8]) -> bool
        ensures { IsTrue result ↔ (word.now ≡ spelling self) }
    {
        word == self.spelling()
    }
}
