//! The weights of connections, as grants of rounds.

ghost use Rattle.std.specs.Prelude.{◌≡◌, ℕ, OnOk, IfOk, IfErr};
ghost use Rattle.qos_order.specs.Account.{IsWeight};
ghost use Rattle.qos_order.specs.Weights.{IsFirstFault, AreValidWeights, weight_of};

use crate::account::granted;
use crate::weights::{Weight, WeightFault, Weights, by_number};
use mrpc_base::ReadyOrder;
use std::marker::Model;

/// The weighted order: how many rounds in a row each connection gets. A connection that isn't listed has weight 1.
#[derive(Drop)]
pub struct Weighted {
    weights: Vec<Weight>,
}

impl Model for Weighted {
    ghost use Rattle.std.specs.Prelude.{List};
    ghost use Rattle.qos_order.specs.declared.weights.Weight.{Weight};
    ghost use Rattle.qos_order.specs.Weights.{AreValidSortedWeights};

    ghost Value = { List Weight };

    ghost view = { λ w. w.weights.items };

    ghost invariant = { λ w. AreValidSortedWeights w.weights.items };
}

impl Weighted {
    /// The order by these weights. Doesn't allocate.
    pub fn new(weights: Weights) -> Result<Weighted, WeightFault>
        ensures sound { OnOk result (AreValidWeights weights) }
        ensures weights { IfOk result (λ order. (conn : ℕ) → weight_of order conn ≡ weight_of weights conn) }
        ensures fault { IfErr result (IsFirstFault weights) }
    {
        let weights = by_number(weights)?;
        Ok(Weighted { weights })
    }

    /// The weight of a connection, 1 to 100; 1 if it isn't listed.
    pub fn weight(&self, conn: u32) -> u64
        ensures value { result ≡ weight_of self.now conn }
        ensures range { IsWeight result }
    {
        match self.weights.binary_search_by_key(&conn, |entry| entry.conn) {
            Ok(place) => self.weights[place].weight,
            Err(_) => 1,
        }
    }
}

impl ReadyOrder for Weighted {
    ghost use Rattle.qos_order.specs.Account.{granted};
    ghost use Rattle.qos_order.specs.Weights.{weight_of};

    ghost grant_of = { λ order conn kept. granted (weight_of order conn) kept };

    /// The rounds in a row for a connection with these kept rounds: its weight, plus the kept rounds up to the
    /// weight.
    fn grant(&self, conn: u32, kept: u64) -> u64
        ensures { result ≡ granted (weight_of self.now conn) kept }
    {
        granted(self.weight(conn), kept)
    }
}
