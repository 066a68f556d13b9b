//! What holds of types whatever finds them. Each function does nothing; its contract is the law.

ghost use Rattle.ms_typing.specs.Judged as law;

/// Conversion is an order: each type converts to itself, one after the other is one, and two types
/// that convert to each other are the same. The test decides it.
pub fn conversions()
    ensures itself { law.ConvertsToItself }
    ensures along { law.ConvertsAlong }
    ensures one_way { law.ConvertsOneWay }
    ensures decided { law.Decided }
{}

/// What the function on rows asks of a node's parts is what a row of the tables does, and its
/// result is below that of each row that fits.
pub fn rows_of_tables()
    ensures asked { law.AsksByTables }
    ensures least { law.GivesLeast }
{}

/// A typed term has a least type, to which each other of its types is a conversion; a term that
/// has none has a first fault; and the function on terms finds it. Likewise of a list of terms.
pub fn least_types()
    ensures some { law.HasLeast }
    ensures judged { law.Judged }
    ensures all { law.JudgedAll }
    ensures found { law.FaultFound }
    ensures all_found { law.FaultOfAllFound }
{}

/// A term with a type has no fault, and each has at most one first fault. Likewise of a list of
/// terms.
pub fn judged_once()
    ensures typed { law.Excludes }
    ensures fault { law.OneFault }
    ensures all_typed { law.ExcludesAll }
    ensures all_fault { law.OneFaultOfAll }
{}

/// A model is well typed or has exactly one first fault in its types, never both.
pub fn models_judged_once()
    ensures some { law.WellTypedOrFaulty }
    ensures not_both { law.NotBoth }
    ensures fault { law.OneFirstFault }
{}

/// The nodes of a chain of operators are its operators in pairs, as they group.
pub fn chains_group()
    ensures pairs { law.ChainsGroup }
{}

/// An expression that is typed in a model is typed in a body that an output item calls, where all
/// of its values are known.
pub fn typed_where_known()
    ensures known { law.TypedWhereKnown }
{}
