//! Laws of later states of connections. The function does nothing; its contract is the law.

ghost use Rattle.service_loop.specs.declared.endpoint.Endpoint.{Endpoint};
ghost use Rattle.service_wiring.specs.Pooling.{IsLaterEndpoint};

use mrpc_base::{Clock, Link, Tickets};

/// The relation between a connection and its later state is reflexive and transitive.
pub fn since_is_transitive<C: Clock, Q: Tickets, L: Link>()
    ensures itself { (e : Endpoint C Q L) → IsLaterEndpoint C.Clock Q.Tickets L.Link e e }
    ensures later { (first next last : Endpoint C Q L) → IsLaterEndpoint C.Clock Q.Tickets L.Link first next
        → IsLaterEndpoint C.Clock Q.Tickets L.Link next last → IsLaterEndpoint C.Clock Q.Tickets L.Link first last }
{}
