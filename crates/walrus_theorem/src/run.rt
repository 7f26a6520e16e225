//! What a run comes to.

ghost use Rattle.walrus_theorem.specs.RunLaws.{RunsFew, RunsFine, RunsOk, RunsOutput, RunsTooLarge};

/// Of bytes that are accepted: what is parsed from them and what gc leaves is well made, with nothing in the way but its
/// size. What is written of that comes to the output, what is refused for its size comes out too large, and nothing else
/// is refused but for lack of memory.
pub fn runs_come_out()
    ensures fine { RunsFine }
    ensures output { RunsOutput }
    ensures ok { RunsOk }
    ensures too_large { RunsTooLarge }
    ensures few { RunsFew }
{}
