ghost use Rattle.ms_fix.specs.Laws.{DoorsAgree};

/// Does nothing: its contract says that an expression that is handed in comes to what its typed tree comes to, placed among
/// the operands of the env's names.
pub fn doors_agree()
    ensures { DoorsAgree }
{}
