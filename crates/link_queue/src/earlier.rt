//! An earlier state of a link. Only contracts read it; it needs no memory at run time.

ghost use Rattle.std.specs.Prelude.{◌≡◌};
ghost use Rattle.std.specs.Borrow.{ftrue};

use std::marker::{Model, PhantomData};

#[derive(Drop)]
pub(crate) struct EarlierLink<L> {
    of: PhantomData<L>,
    pub ghost value: { L },
}

impl<L> Model for EarlierLink<L> {
    ghost also_owns = { λ _. ftrue };
}

// It owns nothing.
unsafe impl<L: Send> Send for EarlierLink<L> {}

impl<L> EarlierLink<L> {
    pub(crate) fn of(_link: &L) -> EarlierLink<L>
        ensures { result.value ≡ _link.now }
    {
        EarlierLink { of: PhantomData }
    }
}
