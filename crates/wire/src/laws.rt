// The laws of reading. Each function has one theorem as its contract.
ghost use Rattle.wire.specs.Causes.{HeadLowest, CableLowest, FrameLowest};
ghost use Rattle.wire.specs.Laws.{CablesEncoded, CablesProper, CablesBack, CablesCut, TableEncoded, TableShaped, TableBack, TableCut, ThingEncoded, ThingBack, ThingCut};

// An accepted list of cables is the encoding of its value.
pub fn cables_encoded()
    ensures { CablesEncoded }
{}

// The value of an accepted list of cables is one that can be written.
pub fn cables_proper()
    ensures { CablesProper }
{}

// Reading the encoding of a list of cables gives it back.
pub fn cables_read_back()
    ensures { CablesBack }
{}

// A list of cables that is cut is refused where it is cut.
pub fn cables_cut()
    ensures { CablesCut }
{}

// An accepted table is the encoding of its value.
pub fn table_encoded()
    ensures { TableEncoded }
{}

// The value of an accepted table is one that can be written.
pub fn table_shaped()
    ensures { TableShaped }
{}

// Reading the encoding of a table gives it back.
pub fn table_read_back()
    ensures { TableBack }
{}

// A table that is cut is refused where it is cut.
pub fn table_cut()
    ensures { TableCut }
{}

// A thing that is read is the encoding of its value.
pub fn thing_encoded()
    ensures { ThingEncoded }
{}

// Reading the encoding of a thing gives it back.
pub fn thing_read_back()
    ensures { ThingBack }
{}

// A thing that is cut is refused at its first byte.
pub fn thing_cut()
    ensures { ThingCut }
{}

// Of the faults of a cable list's head the lowest number wins.
pub fn head_lowest()
    ensures { HeadLowest }
{}

// Of the faults of a cable the lowest number wins.
pub fn cable_lowest()
    ensures { CableLowest }
{}

// Of the faults of a table's head the lowest number wins. An entry has but one fault besides a cut.
pub fn frame_lowest()
    ensures { FrameLowest }
{}
