//! Instances and their parts.

ghost use Rattle.std.specs.Prelude.{◌≡◌, IfOk};
ghost use Rattle.ms_items.specs.Declaring.{declarers};
ghost use Rattle.ms_types.specs.Texts.{model_of, library_of, names_among};
ghost use Rattle.ms_instance.specs.Instances.{IsInstance};
ghost use Rattle.ms_instance.specs.Reading.{model_items, output_places, shown_among};

use crate::bodies::{body_at, known_body_at, value_at};
use crate::goal::{goal_in, output_at, output_places};
use crate::places::{Places, places_of};
use crate::point::{known_at, narrow_numbers};
use crate::shown::shown_names;
use ms_base::Bytes;
use ms_code::{Code, Goal, Reference};
use ms_exchange::given;
use ms_num::Ranges;
use ms_syntax::{Place, Word};
use ms_trees::{Branching, Ground, Trees};
use ms_types::Typed;
use ms_values::{Elements, Narrow, Operand, Value};
use sqlite_items::at;
use std::alloc::{AllocError, Global};

/// A model with its variables, constraints and values. Contracts see it by `specs/Views`.
#[derive(Drop)]
pub struct Instance {
    pub(crate) typed: Typed,
    // For each name that the items declare, the place of the item.
    pub(crate) model_places: Vec<usize>,
    pub(crate) library_places: Vec<usize>,
    // The places of the output items.
    pub(crate) outputs: Vec<usize>,
    // The names of the variables.
    pub(crate) shown: Vec<Bytes>,
    pub(crate) sets: Vec<Ranges>,
    pub(crate) constraints: Trees,
    pub(crate) branching: Branching,
    // Of each name that the model's items declare.
    pub(crate) values: Elements<Operand>,
    pub ghost model_declares: { model_places.items ≡ declarers 0 (model_of typed).0 },
    pub ghost library_declares: { library_places.items ≡ declarers 0 (library_of typed).0 },
    pub ghost outputs_stand: { outputs.items ≡ output_places 0 (model_items typed) },
    pub ghost variables: { shown.items ≡ shown_among (model_of typed).0 },
    pub ghost fit: { ∥ IsInstance (names_among typed).model sets.items constraints branching.order values ∥₁ },
}

// The output items and the names of the variables.
#[derive(Drop)]
struct Readings {
    outputs: Vec<usize>,
    shown: Vec<Bytes>,
}

fn readings_of(alloc: Global, typed: &Typed) -> Result<Readings, AllocError>
    ensures outputs { IfOk result (λ r. r.outputs.items ≡ output_places 0 (model_items typed.now)) }
    ensures shown { IfOk result (λ r. r.shown.items ≡ shown_among (model_of typed.now).0) }
{
    let outputs = output_places(alloc, typed.items())?;
    let shown = shown_names(alloc, typed.tree().items.as_slice())?;
    Ok(Readings { outputs, shown })
}

/// What an instance is made of.
#[derive(Drop)]
pub struct Parts {
    /// The declared set of each variable.
    pub sets: Vec<Ranges>,
    pub constraints: Trees,
    pub branching: Branching,
    /// The value of each name that the model's items declare, in their order; that of a function is without a value.
    pub values: Elements<Operand>,
}

impl Instance {
    ghost use Rattle.std.specs.Prelude.{length, slice_get, IfOk, IsTrue, Some};
    ghost use Rattle.std.specs.List.{list_all};
    ghost use Rattle.ms_num.specs.Span.{is_within};
    ghost use Rattle.std.specs.Option.{option_copied};
    ghost use Rattle.ms_instance.specs.Names.{body_of, known_body_of};
    ghost use Rattle.ms_instance.specs.Points.{given_at, value_on};
    ghost use Rattle.ms_instance.specs.Reading.{goal_in as goal_of, outputs_in, shown_in};
    ghost use Rattle.ms_instance.specs.Views.{constraints_of, read_in, sets_of, text_of, value_in, values_of};

    // The parts, with the items that declare the names.
    fn made(typed: Typed, parts: Parts, places: Places, readings: Readings) -> Instance
        requires fit { IsInstance (names_among typed).model parts.sets.items parts.constraints parts.branching.order parts.values }
        requires model { places.model.items ≡ declarers 0 (model_of typed).0 }
        requires library { places.library.items ≡ declarers 0 (library_of typed).0 }
        requires outputs { readings.outputs.items ≡ output_places 0 (model_items typed) }
        requires shown { readings.shown.items ≡ shown_among (model_of typed).0 }
        ensures text { text_of result ≡ typed }
        ensures sets { sets_of result ≡ parts.sets.items }
        ensures constraints { constraints_of result ≡ parts.constraints }
        ensures branching { result.branching ≡ parts.branching }
        ensures values { values_of result ≡ parts.values }
    {
        let Parts {
            sets,
            constraints,
            branching,
            values,
        } = parts;
        let Places { model, library } = places;
        let Readings { outputs, shown } = readings;
        Instance {
            typed,
            model_places: model,
            library_places: library,
            outputs,
            shown,
            sets,
            constraints,
            branching,
            values,
        }
    }

    /// An instance of a model.
    pub fn new(alloc: Global, typed: Typed, parts: Parts) -> Result<Instance, AllocError>
        requires { IsInstance (names_among typed).model parts.sets.items parts.constraints parts.branching.order parts.values }
        ensures text { IfOk result (λ i. text_of i ≡ typed) }
        ensures sets { IfOk result (λ i. sets_of i ≡ parts.sets.items) }
        ensures constraints { IfOk result (λ i. constraints_of i ≡ parts.constraints) }
        ensures branching { IfOk result (λ i. i.branching ≡ parts.branching) }
        ensures values { IfOk result (λ i. values_of i ≡ parts.values) }
    {
        let places = places_of(alloc, &typed)?;
        let readings = readings_of(alloc, &typed)?;
        Ok(Instance::made(typed, parts, places, readings))
    }

    /// The model beside the library, with the typed trees of their items.
    pub fn typed(&self) -> &Typed
        ensures same { result.now ≡ text_of self.now }
        ensures fit { ∥ IsInstance (names_among (text_of self.now)).model (sets_of self.now) (constraints_of self.now) self.now.branching.order (values_of self.now) ∥₁ }
    {
        &self.typed
    }

    /// How many variables there are.
    pub fn vars(&self) -> usize
        ensures { result ≡ length (sets_of self.now) }
    {
        self.sets.len()
    }

    /// The declared set of each variable.
    pub fn sets(&self) -> &[Ranges]
        ensures { result.now ≡ sets_of self.now }
    {
        self.sets.as_slice()
    }

    /// The constraints.
    pub fn cons(&self) -> &[Ground]
        ensures { result.now ≡ constraints_of self.now }
    {
        self.constraints.as_slice()
    }

    /// How a search splits boxes.
    pub fn branching(&self) -> &Branching
        ensures { result.now ≡ self.now.branching }
    {
        &self.branching
    }

    /// The value of each name that the model's items declare, in their order.
    pub fn values(&self) -> &[Operand]
        ensures { result.now ≡ values_of self.now }
    {
        self.values.as_slice()
    }

    /// The value of a declared name.
    pub fn value_of(&self, alloc: Global, name: Reference) -> Result<Operand, AllocError>
        ensures { IfOk result (λ x. x ≡ value_in self.now name) }
    {
        match name {
            Reference::Model(number) => value_at(alloc, self.values.as_slice(), number),
            Reference::Local(_) | Reference::Library(_) | Reference::BuiltIn(_) => {
                Ok(Operand::Number(None))
            }
        }
    }

    /// The typed body of a function.
    pub fn body(&self, name: Reference) -> Option<&Code>
        ensures { option_copied result ≡ read_in body_of (text_of self.now) name }
    {
        match name {
            Reference::Model(number) => {
                body_at(self.typed.items(), self.model_places.as_slice(), number)
            }
            Reference::Library(number) => body_at(
                self.typed.library_items(),
                self.library_places.as_slice(),
                number,
            ),
            Reference::Local(_) | Reference::BuiltIn(_) => None,
        }
    }

    /// The typed body of a function where every value is known, as output items call it; a search has none.
    pub fn known_body(&self, name: Reference) -> Option<&Code>
        ensures { option_copied result ≡ read_in known_body_of (text_of self.now) name }
    {
        match name {
            Reference::Model(number) => {
                known_body_at(self.typed.items(), self.model_places.as_slice(), number)
            }
            Reference::Library(number) => known_body_at(
                self.typed.library_items(),
                self.library_places.as_slice(),
                number,
            ),
            Reference::Local(_) | Reference::BuiltIn(_) => None,
        }
    }

    /// What the solve item asks for.
    pub fn goal(&self) -> &Goal
        ensures { Some result.now ≡ goal_of (text_of self.now) }
    {
        goal_in(&self.typed)
    }

    /// How many output items there are.
    #[tactic(auto, using(crate::proofs::Outputs::output_count))]
    pub fn outputs(&self) -> usize
        ensures { result ≡ length (outputs_in (text_of self.now)) }
    {
        self.outputs.len()
    }

    /// The typed tree of the output item with this number, in the order of the items.
    pub fn output(&self, item: usize) -> Option<&Code>
        ensures { option_copied result ≡ slice_get (outputs_in (text_of self.now)) item }
    {
        output_at(self.typed.items(), self.outputs.as_slice(), item)
    }

    /// The names of the declared variables and arrays of variables, in their order.
    pub fn shown(&self) -> &[Bytes]
        ensures { result.now ≡ shown_in (text_of self.now) }
    {
        self.shown.as_slice()
    }

    // The value of a name with this number, where the variables have these numbers.
    fn value_at_point(
        &self,
        alloc: Global,
        number: usize,
        point: &[Narrow],
    ) -> Result<Option<Value>, AllocError>
        ensures { IfOk result (λ v. v ≡ given_at self.now point.now number) }
    {
        match at(self.values.as_slice(), number) {
            None => Ok(None),
            Some(x) => given(alloc, known_at(alloc, point, x)?),
        }
    }

    /// The value of a declared name where the variables have these numbers. None for a name that the model does not declare,
    /// for a function, and where there is no value.
    pub fn value(
        &self,
        alloc: Global,
        name: &[u8],
        point: &[i64],
    ) -> Result<Option<Value>, AllocError>
        requires { IsTrue (list_all is_within point.now) }
        ensures { IfOk result (λ v. v ≡ value_on self.now name.now point.now) }
    {
        let place = Place {
            file: 0,
            line: 1,
            col: 1,
        };
        let word = Word::from_slice(alloc, name)?;
        match self.typed.names().assigned(place, &word) {
            None => Ok(None),
            Some((number, _)) => {
                let numbers = narrow_numbers(alloc, point)?;
                self.value_at_point(alloc, number, numbers.as_slice())
            }
        }
    }
}
