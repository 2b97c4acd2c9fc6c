//! What is known of races where it is known of next accesses. The function here does nothing, and its contract is a law.

ghost use Rattle.search_race_free.specs.Laws.{RacesMeet};

/// Where threads can race, they can come to where two next accesses race.
pub fn races_meet<X, T, E, V, A>()
    ensures { RacesMeet X T E V A }
{}
