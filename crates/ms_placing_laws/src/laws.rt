//! What holds of placing. Each function does nothing; its contract is the law.

ghost use Rattle.std.specs.Prelude.{◌≡◌, [], ◌∷◌, true, Some};
ghost use Rattle.ms_typing.specs.declared.types.ExprType.TheVariants.{Plain};
ghost use Rattle.ms_typing.specs.declared.types.Scalar.TheVariants.{Number};
ghost use Rattle.ms_typing.specs.declared.types.Shape.TheVariants.{Line};
ghost use Rattle.ms_code.specs.Code.{generators};
ghost use Rattle.ms_code.specs.declared.code.Code.TheVariants as c;
ghost use Rattle.ms_code.specs.declared.code.Reference.TheVariants as r;
ghost use Rattle.ms_placing_laws.specs.Laws as law;
ghost use Rattle.ms_placing_laws.specs.Renaming.{HasLocals, keep, lifted, put, renamed};
ghost use Rattle.ms_placing_laws.specs.Sample.{at, declared, local, over};

/// Placing goes in steps: what is done with the operand of an expression is done last, with the steps and the words that are
/// left then, and not at all after a fault. So placing, with what is done behind it, is placing and then what is done; and it is
/// the direct definition, which places the parts of each form one after the other and then the node.
pub fn placing_in_steps()
    ensures any { law.PlacingGoesOn }
    ensures calls { law.FunctionsGoOn }
    ensures whole { law.PlacesGoesOn }
    ensures direct { law.PlacesDirectly }
{}

/// A value may be put in for a name. A tree is placed as the tree that it becomes where its names become others with the same
/// values, however many names are declared inside. So under names of which one has this value it is placed as the tree in which a
/// name that stands for the value has taken that local's place, under the names without it; and any name that the tree does not
/// have may be given the value.
pub fn values_for_names()
    ensures any { law.NamesBecome }
    ensures declared { law.DeclaredStand }
    ensures put { law.ValuesArePut }
    ensures fresh { law.FreshNamesServe }
{}

/// A call of a function is placed as a `let` whose values are the arguments and whose body is that of the function, where one
/// body less may yet be opened: the same operand, the same faults, steps and words. Its body has no locals of outside but the
/// parameters, so the names around the call do not matter to it.
pub fn calls_as_lets()
    ensures alone { law.BodiesStandAlone }
    ensures calls { law.CallsAreLets }
{}

/// Worked rows of names that are replaced: in `let { int: a = 0; int: b = 0 } in 3`, where a number is a local by how many were
/// declared after it, the local 0 becomes a name of the model; in `[1 | i, j in 0 where 3]` likewise, with two names inside; the
/// arguments `0` and `0` as the values of a `let`; `1` under one parameter.
#[tactic(auto, using(ms_code::specs::declared::code::Code::TheFolds::the_lemmas))]
pub fn renamed_rows()
    ensures locals { put (r.Model 7) 0 (c.Let at (local 0 ∷ local 0 ∷ []) (local 3)) ≡ c.Let at (declared 7 ∷ local 0 ∷ []) (local 2) }
    ensures body { put (r.Model 7) 0 (c.Let at (local 1 ∷ local 1 ∷ []) (local 2)) ≡ c.Let at (local 0 ∷ declared 7 ∷ []) (declared 7) }
    ensures generators { put (r.Model 7) 0 (c.Comprehension at (Plain Number Line true) (generators (over 2 (local 0) ∷ []) (Some (local 3))) (local 1))
        ≡ c.Comprehension at (Plain Number Line true) (generators (over 2 (declared 7) ∷ []) (Some (local 2))) (local 1) }
    ensures arguments { lifted 0 (local 0 ∷ local 0 ∷ []) ≡ local 0 ∷ local 1 ∷ [] }
    ensures parameter { HasLocals 1 (local 0) }
    ensures other { renamed (keep 1) 0 (local 1) ≡ declared 0 }
{}
