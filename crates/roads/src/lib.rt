// The theory of shortest roads, over any states: in specs/ what a road is, how long a shortest one is and which link it
// begins with; in proofs/ its laws. Plain distance and the legal roads of a tree are its two instances. Each function
// here has one theorem as its contract.
#![tactic(auto)]

ghost use Rattle.roads.specs.Laws.{EveryRoadIsSoon, LeastIsLeast, ShortestRoads};
ghost use Rattle.std.specs.Prelude.{ℕ};

// The least number that passes a test is the one that passes while none below it does.
pub fn least_is_least()
    ensures { LeastIsLeast }
{}

// A road as long as `shortest` says exists, none is shorter, and `first` is the lowest link that one begins with.
pub fn roads_are_shortest()
    ensures { ShortestRoads ℕ }
{}

// Among n states, where there is any road there is one of fewer than n links.
pub fn every_road_is_soon()
    ensures { EveryRoadIsSoon }
{}
