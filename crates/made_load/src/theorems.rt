//! Laws of loads that no single call says.

ghost use Rattle.made_load.specs.Theorems.{LoadsCommitAll, LoadsTakeFewNumbers, LoadsNameTheirSessions};
ghost use Rattle.made_load.specs.Theorems.{LoadsNameFourSessions, LoadsStallNothing};

/// A load of n batches has n commits, which take n numbers and one more for each eighth batch. Its script counts its
/// sessions, which are of the first four, and none of its rounds stalls a poll.
pub fn a_load_asks_for_few()
    ensures commits { LoadsCommitAll }
    ensures numbers { LoadsTakeFewNumbers }
    ensures names { LoadsNameTheirSessions }
    ensures four { LoadsNameFourSessions }
    ensures calm { LoadsStallNothing }
{}
