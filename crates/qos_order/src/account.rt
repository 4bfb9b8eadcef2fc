//! The account of one connection: the rounds that its visits were granted, given, kept and dropped.

ghost use Rattle.std.specs.Prelude.{◌≡◌, ◌≤◌, ℕ};
ghost use Rattle.qos_order.specs.Account.{IsWeight, granted};

/// How a visit of a connection ended.
#[derive(Clone, Copy)]
pub enum Ending {
    /// All rounds of the grant were given.
    Given,
    /// The connection had nothing to do, so the remaining rounds of the grant are dropped.
    Idle,
    /// The connection may have no round now, so the remaining rounds of the grant are kept.
    Shut,
}

/// The sums over all visits of one connection.
#[derive(Clone, Copy, PartialEq, Eq)]
pub struct Account {
    /// The number of visits, 0 to 2^40.
    pub visits: u64,
    /// The rounds given.
    pub rounds: u64,
    /// The rounds kept from a grant that ended `Shut`, at most twice the weight.
    pub kept: u64,
    /// The rounds granted but neither given nor kept.
    pub dropped: u64,
}

// An account with this number of visits no longer changes.
const MAX_VISITS: u64 = 1_099_511_627_776;

impl Account {
    ghost use Rattle.std.specs.Prelude.{◌≡◌, ◌≤◌, ℕ};
    ghost use Rattle.qos_order.specs.Account.{IsWithinGrant, IsBalanced, IsWeight, granted, new_account, after_visit};

    /// The account before the first visit.
    pub fn new() -> Account
        ensures zeros { result ≡ new_account }
        ensures balanced { (weight : ℕ) → IsBalanced weight result }
    {
        Account {
            visits: 0,
            rounds: 0,
            kept: 0,
            dropped: 0,
        }
    }

    /// Counts one visit: how many rounds the connection was given, and how the visit ended. `weight` is the same in
    /// all visits of an account. An account with 2^40 visits no longer changes.
    pub fn visit(&mut self, weight: u64, given: u64, ending: Ending)
        requires weight { IsWeight weight }
        requires balanced { IsBalanced weight self.old }
        requires fits { IsWithinGrant (granted weight self.old.kept) (record { given = given; ending = ending }) }
        ensures visited { self.new ≡ after_visit weight self.old (record { given = given; ending = ending }) }
        ensures balanced { IsBalanced weight self.new }
    {
        if self.visits >= MAX_VISITS {
            return;
        }
        let used = self.kept.min(weight);
        let rest = weight + used - given;
        let (kept, dropped) = match ending {
            Ending::Given => (0, 0),
            Ending::Idle => (0, rest),
            Ending::Shut => (rest, 0),
        };
        self.dropped += self.kept - used + dropped;
        self.visits += 1;
        self.rounds += given;
        self.kept = kept;
    }
}

// The rounds granted to a connection with this weight and these kept rounds: the weight, plus the kept rounds up to
// the weight.
pub(crate) fn granted(weight: u64, kept: u64) -> u64
    requires { IsWeight weight }
    ensures value { result ≡ granted weight kept }
    ensures few { result ≤ 200 }
{
    weight + kept.min(weight)
}
