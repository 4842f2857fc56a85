// What the bus tells of the latest accepted turn.
ghost use Rattle.std.specs.Prelude.{◌≡◌};
ghost use Rattle.snooping.specs.Report.{kind_number, supplier_number, quiet, bus_read, bus_write, written_last};

use versions::WrittenBack;

#[derive(Clone, Copy, PartialEq, Debug)]
pub enum BusKind {
    // No bus request.
    Quiet = 0,
    // A load without a line for its address.
    BusRead = 1,
    // A store of which other caches are told.
    BusWrite = 2,
    // Words written back to memory, by a commit or a replacement.
    BusWback = 3,
}

impl BusKind {
    // The number by which users know the kind.
    pub fn number(self) -> u8
        ensures { result ≡ kind_number self }
    {
        self as u8
    }
}

// Who gives the word of a bus read. For none there is a case, and no `Option`, since it has one of the numbers that users know; the
// processor is a number, as they read it.
#[derive(Clone, Copy, PartialEq, Debug)]
pub enum Supplier {
    // The cache of a processor, with the processor's number.
    Processor { p: u32 },
    // The memory: 4.
    Memory,
    // Nobody, where the turn is no bus read: 5.
    Nobody,
}

impl Supplier {
    // The number by which users know the supplier: the processor's, 4 for memory, 5 for nobody.
    pub fn number(self) -> u32
        ensures { result ≡ supplier_number self }
    {
        match self {
            Supplier::Processor { p } => p,
            Supplier::Memory => 4,
            Supplier::Nobody => 5,
        }
    }
}

// All five values are what users see, of every kind. This crate makes reports by four functions only.
#[derive(Clone, Copy, PartialEq, Debug)]
pub struct BusReport {
    pub kind: BusKind,
    pub address: u32,
    pub supplier: Supplier,
    // The processors that an invalidation reached, as the sum of 2 to the power of each.
    pub invalidated: u32,
    // How many words were written back.
    pub written: u32,
}

impl BusReport {
    // No bus request, as at opening.
    pub(crate) fn quiet() -> BusReport
        ensures { result ≡ quiet }
    {
        BusReport {
            kind: BusKind::Quiet,
            address: 0,
            supplier: Supplier::Nobody,
            invalidated: 0,
            written: 0,
        }
    }

    // A read of address a.
    pub(crate) fn bus_read(a: u32, supplier: Supplier) -> BusReport
        ensures { result ≡ bus_read a supplier }
    {
        BusReport {
            kind: BusKind::BusRead,
            address: a,
            supplier,
            ..BusReport::quiet()
        }
    }

    // A write of address a that reached the processors of a mask.
    pub(crate) fn bus_write(a: u32, invalidated: u32) -> BusReport
        ensures { result ≡ bus_write a invalidated }
    {
        BusReport {
            kind: BusKind::BusWrite,
            address: a,
            invalidated,
            ..BusReport::quiet()
        }
    }

    // Words written back, if there were any.
    pub(crate) fn written_back(wrote: WrittenBack) -> BusReport
        ensures { result ≡ written_last wrote.last wrote.words }
    {
        match wrote.last {
            Some(a) => BusReport {
                kind: BusKind::BusWback,
                address: a,
                written: wrote.words,
                ..BusReport::quiet()
            },
            None => BusReport::quiet(),
        }
    }
}
