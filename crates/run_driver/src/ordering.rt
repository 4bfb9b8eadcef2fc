//! The order in which ready connections get rounds.

ghost use Rattle.std.specs.Prelude.{◌≡◌, IfOk};
ghost use Rattle.qos_order.specs.Account.{granted};
ghost use Rattle.qos_order.specs.Weights.{weight_of};
ghost use Rattle.run_plan.specs.Plans.{IsPlan};
ghost use Rattle.service_wiring.specs.Weighing.{IsPlanOrder};
ghost use Rattle.run_driver.specs.Ordering.{HasPlanWeights, weights_of};

use mrpc_table::Memory;
use qos_order::{Weight, Weighted, Weights, weights_or_fault};
use run_plan::Plan;
use std::alloc::Global;

// The order by the weights of a plan.
pub(crate) fn weighted(alloc: Global, plan: &Plan) -> Result<Weighted, Memory>
    requires { IsPlan plan.now }
    ensures weighs { IfOk result (HasPlanWeights plan.now) }
    ensures goes_by { IfOk result (λ order. IsPlanOrder plan.now (λ conn kept. granted (weight_of order conn) kept)) }
{
    weights_or_fault();
    let weights = weights(alloc, plan)?;
    match Weighted::new(weights) {
        Ok(order) => Ok(order),
        Err(_) => unreachable!(),
    }
}

// The weights of a plan's connections.
fn weights(alloc: Global, plan: &Plan) -> Result<Weights, Memory>
    ensures { IfOk result (λ weights. weights ≡ weights_of plan.now) }
{
    let mut weights = Vec::new(alloc);
    let apps = plan.applications.as_slice();
    for app in apps {
        weights.push(Weight {
            conn: app.conn,
            weight: app.weight,
        })?;
    }
    Ok(Weights::from_vec(weights))
}
