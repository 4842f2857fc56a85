// Why a run is refused before anything changes.
ghost use Rattle.std.specs.Prelude.{◌≡◌};
ghost use Rattle.model.specs.declared.refusal.RunRefusal.TheVariants.{Words, Replies};
ghost use Rattle.model.specs.Refusals.{run_refusal_number};

use memory::MemoryError;
use player::ListFault;

// It stays in this crate, with neither `Display` nor `Error`: C is told its number, and nothing prints it.
#[derive(Clone, Copy)]
pub enum RunRefusal {
    // The words can't be a memory.
    Words(MemoryError),
    // There are fewer places for replies than commands.
    Replies(ListFault),
}

impl RunRefusal {
    // The number by which users know the refusal.
    pub fn number(self) -> u8
        ensures { result ≡ run_refusal_number self }
    {
        match self {
            RunRefusal::Words(refusal) => refusal.number(),
            RunRefusal::Replies(fault) => fault.number(),
        }
    }
}

impl From<MemoryError> for RunRefusal {
    ghost from_gives = { λ e r. r ≡ Words e };

    fn from(e: MemoryError) -> RunRefusal {
        RunRefusal::Words(e)
    }
}

impl From<ListFault> for RunRefusal {
    ghost from_gives = { λ e r. r ≡ Replies e };

    fn from(e: ListFault) -> RunRefusal {
        RunRefusal::Replies(e)
    }
}
