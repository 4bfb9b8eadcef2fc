//! Laws of plans. These functions do nothing; their contracts are the laws.

ghost use Rattle.std.specs.Prelude.{◌≡◌, ◌≢◌, ◌∷◌, ◌++◌, ℕ, List, Some, Contains, map};
ghost use Rattle.engine_core.specs.Chains.{Chain, HasChanged};
ghost use Rattle.engine_core.specs.declared.op.Op.{Op};
ghost use Rattle.run_plan.specs.Chains.{IsChangedBy, empty_chain, chain_lines, op_of};
ghost use Rattle.run_plan.specs.Plans.{IsPlan};
ghost use Rattle.run_plan.specs.Links.{connections_of, peer_in};
ghost use Rattle.run_plan.specs.declared.application.Application.{Application};
ghost use Rattle.run_plan.specs.declared.operator.StepLine.{StepLine};
ghost use Rattle.run_plan.specs.declared.plan.Plan.{Plan};

/// Each line for a connection's chain resolves to an operation, which changes the chain that the lines before it
/// made.
pub fn chains_never_refuse()
    ensures { (plan : Plan) (app : Application) (front back : List StepLine) (line : StepLine) → IsPlan plan
        → Contains plan.applications app → chain_lines plan app ≡ front ++ line ∷ back
        → (ops : List Op) × (op : Op) × (before after : Chain) × (map (op_of plan app) front ≡ map Some ops)
        × (op_of plan app line ≡ Some op) × IsChangedBy empty_chain ops before × HasChanged before op after }
{}

/// Each connection of a plan has a peer, which has this connection as its peer.
pub fn peers_are_mutual()
    ensures { (plan : Plan) (conn : ℕ) → IsPlan plan → Contains (connections_of plan.applications) conn
        → (peer : ℕ) × (peer_in plan.links conn ≡ Some peer) × (peer_in plan.links peer ≡ Some conn)
        × Contains (connections_of plan.applications) peer × (conn ≢ peer) }
{}
