ghost use Rattle.ms_placed_laws.specs.Laws as law;

/// Does nothing: its contract says that what an expression comes to may be asked on the declared sets, where what stands
/// outside and the names around are fit. The first two clauses say it of each part of an expression and of each call, with what
/// is done behind them.
pub fn what_is_placed_may_be_asked()
    ensures parts { law.PlacingGoesWell }
    ensures calls { law.CallingGoesWell }
    ensures whole { law.PlacedMayBeAsked }
    ensures integers { law.PlacedIntegersNest }
    ensures conditions { law.PlacedConditionsNest }
{}
