ghost use Rattle.tree.specs.Laws.{LegalRoads, OneHigher, RanksRise};

// Every switch but the root has a link to one a level higher.
pub fn one_higher()
    ensures { OneHigher }
{}

// Along legal roads ranks rise.
pub fn ranks_rise()
    ensures { RanksRise }
{}

// A legal road leads from every switch to every other.
pub fn legal_roads()
    ensures { LegalRoads }
{}
