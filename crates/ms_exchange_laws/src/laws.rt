ghost use Rattle.ms_exchange_laws.specs.Laws as law;

/// Does nothing: its contract says that what is handed in is fit on the declared sets, where the value may be handed in.
pub fn handed_in_is_fit()
    ensures { law.HandedInIsFit }
{}

/// Does nothing: its contract says that what is given of a fit operand may be handed in at its type, and comes back as it was.
pub fn given_comes_back()
    ensures { law.GivenComesBack }
{}
