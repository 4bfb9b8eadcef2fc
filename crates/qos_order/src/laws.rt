//! Laws of all lists of visits within their grants, and of all lists of weights.

ghost use Rattle.qos_order.specs.Account.{AllVisitsBalance};
ghost use Rattle.qos_order.specs.Weights.{HasAtMostOneFault, HasNoFaultIfValid, IsValidOrFaulty};
ghost use Rattle.qos_order.specs.Wheel.{AllWheelVisitsBalance, AreVisitsEven, AreSharesProportional};

/// Over every list of visits within their grants, the rounds given, kept and dropped sum to the weight times the
/// visits, and at most twice the weight is kept. So it is for each account of a wheel. Does nothing.
pub fn visits_balance()
    ensures account { AllVisitsBalance }
    ensures wheel { AllWheelVisitsBalance }
{}

/// Consider a stretch of visits that starts with no rounds kept, in which no connection leaves, no account is at its
/// limit and each grant is given in full. Then the visits of two connections on the wheel differ by at most one, and
/// their rounds are in proportion to their weights up to one visit. Does nothing.
pub fn shares_are_proportional()
    ensures visits { AreVisitsEven }
    ensures rounds { AreSharesProportional }
{}

/// A list of weights is valid or has one first fault. Does nothing.
pub fn weights_or_fault()
    ensures once { HasAtMostOneFault }
    ensures never_both { HasNoFaultIfValid }
    ensures never_neither { IsValidOrFaulty }
{}
