ghost use Rattle.ms_session.specs.Laws.{NodesKeepValid, NextKeepsValid, FewNodes, EnoughIsLeft, EnoughIsNeverSpent, LargeFrameNeverCuts, EnoughStaysEnough, NextIsBySolutions, NextHasItsEffect, ClosedMeansAllGiven, SpendingKeepsFrames, BeginningIsValid, OpeningIsValid, EnteringKeepsValid, LeavingKeepsValid, PostingKeepsValid, SteppingKeepsValid, OpeningHasRoom, PushingKeepsRoom, PoppingKeepsRoom, EnteringKeepsRoom, LeavingKeepsRoom, PostingKeepsRoom, SteppingKeepsRoom};

/// Does nothing: its contract says that each node and each `next` keeps a scope valid.
pub fn validity_laws()
    ensures node { NodesKeepValid }
    ensures next { NextKeepsValid }
{}

/// Does nothing: its contract says that a scope takes at most twice as many nodes as there are assignments, in
/// its whole life, and that of a frame with enough left for the nodes that it may still take a node is left as long as
/// there is a box: so it never cuts its `next`, this time or later, and where all frames have enough nothing does.
pub fn limit_laws()
    ensures few { FewNodes }
    ensures left { EnoughIsLeft }
    ensures never { EnoughIsNeverSpent }
    ensures enough { LargeFrameNeverCuts }
    ensures stays { EnoughStaysEnough }
{}

/// Does nothing: its contract says what `next` means by solutions. An answer meets the constraints, was not given
/// before, and is the least of these under an ordered branching; none is left only where all were given.
pub fn solution_law()
    ensures { NextIsBySolutions }
{}

/// Does nothing: its contract says what `next` leaves of the scope and of the frames, by its answer, and that a
/// scope whose search has come to its end has given all that meets its constraints; and that frames which lose nodes
/// stay as many, each with its number.
pub fn effect_laws()
    ensures effect { NextHasItsEffect }
    ensures closed { ClosedMeansAllGiven }
    ensures frames { SpendingKeepsFrames }
{}

/// Does nothing: its contract says that a session is valid where it begins, and that each call that answers `Ok`,
/// and `leave`, keeps it so. After want of memory nothing is said of the current scope.
pub fn session_laws()
    ensures beginning { BeginningIsValid }
    ensures opening { OpeningIsValid }
    ensures entering { EnteringKeepsValid }
    ensures leaving { LeavingKeepsValid }
    ensures posting { PostingKeepsValid }
    ensures stepping { SteppingKeepsValid }
{}

/// Does nothing: its contract says that the nodes spent in a scope cannot leave 64 bits, where all nodes of a
/// session are taken from one budget; so `next` may be called after any calls that answered `Ok`, and `leave`.
pub fn room_laws()
    ensures opening { OpeningHasRoom }
    ensures pushing { PushingKeepsRoom }
    ensures popping { PoppingKeepsRoom }
    ensures entering { EnteringKeepsRoom }
    ensures leaving { LeavingKeepsRoom }
    ensures posting { PostingKeepsRoom }
    ensures stepping { SteppingKeepsRoom }
{}
