// The theorems, each as the contract of a function that does nothing.
ghost use Rattle.retiming.specs.Laws.{WitnessSuffices, LatticeHolds, PathsKeep, BothWaysSuffice, NearestDetermines, AlikeNeedsAlike, WeightBounds};

pub fn witness_suffices()
    ensures { WitnessSuffices }
{}

pub fn lattice_holds()
    ensures { LatticeHolds }
{}

pub fn paths_keep()
    ensures { PathsKeep }
{}

pub fn both_ways_suffice()
    ensures { BothWaysSuffice }
{}

pub fn nearest_determines()
    ensures { NearestDetermines }
{}

pub fn alike_needs_alike()
    ensures { AlikeNeedsAlike }
{}

pub fn weight_bounds()
    ensures { WeightBounds }
{}
