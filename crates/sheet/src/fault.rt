// Why a sheet was not read, or a record not written.
ghost use Rattle.std.specs.Prelude.{◌≡◌};
ghost use Rattle.sheet.specs.declared.record.SheetFault.TheVariants.{Memory};
ghost use Rattle.sheet.specs.Refusals.{fault_number, fault_place};

use crate::record::SheetFault;
use std::alloc::{AllocError, AllocFailed};

// Two, since a list gives back what it could not keep and a buffer does not.
impl From<AllocError> for SheetFault {
    ghost from_gives = { λ _ r. r ≡ Memory };

    fn from(_e: AllocError) -> SheetFault {
        SheetFault::Memory
    }
}

impl<T: Drop> From<AllocFailed<T>> for SheetFault {
    ghost from_gives = { λ _ r. r ≡ Memory };

    fn from(_e: AllocFailed<T>) -> SheetFault {
        SheetFault::Memory
    }
}

impl SheetFault {
    // The refusal's number; want of memory has none.
    pub fn number(self) -> Option<u8>
        ensures { result ≡ fault_number self }
    {
        match self {
            SheetFault::CutShort(_) => Some(20),
            SheetFault::BitSeven(_) => Some(21),
            SheetFault::TooLong => Some(22),
            SheetFault::Memory => None,
        }
    }

    // The place of the bad record's bit map, 0 where no record is to blame.
    pub fn place(self) -> usize
        ensures { result ≡ fault_place self }
    {
        match self {
            SheetFault::CutShort(place) | SheetFault::BitSeven(place) => place,
            SheetFault::TooLong | SheetFault::Memory => 0,
        }
    }
}
