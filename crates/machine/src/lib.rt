// The machine in specs/: the state of a net, what a round does, and the promises. In proofs/ the promises are
// proved of it, over any good net and any script. Each function here has one theorem as its contract.
#![tactic(auto)]

ghost use Rattle.machine.specs.OnTime.{OnTime};
ghost use Rattle.machine.specs.Promise.{Fits, CountRight, Conserved, InOrder, AtPlace, OneLink, Moves, Waits, Enters, Main};
ghost use Rattle.machine.specs.Still.{StandsStill};

// The definitions can stand still: only rising ranks forbid it.
pub fn ring_stands_still()
    ensures { StandsStill }
{}

// No store is ever overfilled.
pub fn fits_always()
    ensures { Fits }
{}

// The credits counted at the near end are right.
pub fn count_is_right()
    ensures { CountRight }
{}

// Nothing is lost, doubled or changed.
pub fn nothing_lost()
    ensures { Conserved }
{}

// Of the blocks of one door for one place, those that came are a first part of those let in.
pub fn in_order()
    ensures { InOrder }
{}

// Where a block's door leads to its place, it comes there.
pub fn at_place()
    ensures { AtPlace }
{}

// In a round each block moves over at most one link.
pub fn one_link_a_round()
    ensures { OneLink }
{}

// As long as anything is under way, some channel has less after the next round.
pub fn never_still()
    ensures { Moves }
{}

// A block that stands anywhere has come after as many rounds as its wait.
pub fn waits_bounded()
    ensures { Waits }
{}

// So has a block that is let in, counted from that moment.
pub fn enters_bounded()
    ensures { Enters }
{}

// The whole promise.
pub fn whole_promise()
    ensures { Main }
{}

// A block can take as long as its wait.
pub fn takes_its_wait()
    ensures { OnTime }
{}
