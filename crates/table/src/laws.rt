ghost use Rattle.table.specs.Promised.{EachAtItsPlace};
ghost use Rattle.table.specs.Laws.{HereWhereItShould, LaidIsGood, RoadsAreRight};

// The road that the table walks from a door is legal, ends at its place, is as short as any legal road, and takes the
// lowest link of the shortest ones at each step.
pub fn roads_are_right()
    ensures { RoadsAreRight }
{}

// An entry is here exactly where it should be.
pub fn here_where_it_should()
    ensures { HereWhereItShould }
{}

// The net that is laid out of a graph is good, and leads every door's blocks to every place.
pub fn laid_is_good()
    ensures { LaidIsGood }
{}

// In the net of every accepted list of cables each block that came did so at its place.
pub fn each_at_its_place()
    ensures { EachAtItsPlace }
{}
