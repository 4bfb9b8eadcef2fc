//! What all connections of a run share.

use polling::RunFlag;
use run_plan::Plan;
use std::alloc::Global;

/// What all connections of a run share.
#[derive(Drop)]
pub struct RunContext<'t, R, C, G, O> {
    pub rt: &'t R,
    pub alloc: Global,
    pub plan: &'t Plan,
    pub clock: &'t C,
    /// The gate that may shut connections for a while.
    pub gate: &'t G,
    /// The order that grants rounds to visits.
    pub order: &'t O,
    pub stop: &'t RunFlag,
}
