ghost use Rattle.graph.specs.Laws.{DistanceIsShortest, RootIsCentral};

// A walk of as many cables as the distance exists, and none is shorter.
pub fn distance_is_shortest()
    ensures { DistanceIsShortest }
{}

// No switch has a smaller greatest distance than the root, and each of lower number has a larger one.
pub fn root_is_central()
    ensures { RootIsCentral }
{}
