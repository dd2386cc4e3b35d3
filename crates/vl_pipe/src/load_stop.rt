//! Why a load ends before all is done.
ghost use Rattle.std.specs.Prelude.{◌≡◌};

use crate::interrupt::Interrupt;
use std::alloc::AllocError;
use vl_io::ReadFault;

/// Why a load ends before all is done.
#[derive(Drop)]
pub enum LoadStop {
    /// As any run over an input ends.
    Interrupted(Interrupt),
    /// There is no number for another batch, or for another list of the store.
    Spent,
    /// The vault failed.
    VaultFault,
}

impl From<Interrupt> for LoadStop {
    ghost use Rattle.vl_pipe.specs.declared.load_stop.LoadStop.TheVariants.{Interrupted};

    ghost from_gives = { λ interrupt stop. stop ≡ Interrupted interrupt };

    fn from(interrupt: Interrupt) -> LoadStop {
        LoadStop::Interrupted(interrupt)
    }
}

impl From<AllocError> for LoadStop {
    ghost use Rattle.vl_pipe.specs.declared.interrupt.Interrupt.TheVariants.{NoMemory};
    ghost use Rattle.vl_pipe.specs.declared.load_stop.LoadStop.TheVariants.{Interrupted};

    ghost from_gives = { λ _ stop. stop ≡ Interrupted NoMemory };

    fn from(_: AllocError) -> LoadStop {
        LoadStop::Interrupted(Interrupt::NoMemory)
    }
}

impl From<ReadFault> for LoadStop {
    ghost use Rattle.vl_pipe.specs.Interrupt.{interrupt_at};
    ghost use Rattle.vl_pipe.specs.declared.load_stop.LoadStop.TheVariants.{Interrupted};

    ghost from_gives = { λ fault stop. stop ≡ Interrupted (interrupt_at fault) };

    fn from(fault: ReadFault) -> LoadStop {
        LoadStop::Interrupted(Interrupt::from(fault))
    }
}
