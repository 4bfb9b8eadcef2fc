//! Why an echo ended before its rings were closed.

use crate::waiting::Stopped;
use mrpc_table::Memory;

#[derive(Drop)]
pub(crate) enum EchoError {
    FlagSet,
    NoMemory,
}

impl From<Stopped> for EchoError {
    ghost use Rattle.std.specs.Prelude.{◌≡◌};
    ghost use Rattle.app_stub.specs.declared.echo_error.EchoError.TheVariants.{FlagSet};

    ghost from_gives = { λ _ e. e ≡ FlagSet };

    fn from(_: Stopped) -> EchoError {
        EchoError::FlagSet
    }
}

impl From<Memory> for EchoError {
    ghost use Rattle.std.specs.Prelude.{◌≡◌};
    ghost use Rattle.app_stub.specs.declared.echo_error.EchoError.TheVariants.{NoMemory};

    ghost from_gives = { λ _ e. e ≡ NoMemory };

    fn from(_: Memory) -> EchoError {
        EchoError::NoMemory
    }
}
