//! Values that are changed in a place of their own.

ghost use Rattle.std.specs.Prelude.{◌≡◌, [], ◌∷◌, false, IfOk, OnOk, MatchOption};
ghost use Rattle.ms_rules.specs.Cells.{grown};

use crate::frame::{Making, Plan, Turn};
use ms_rules::grow;
use ms_values::{Cells, Operand};
use std::alloc::{AllocError, Global};
use std::marker::Model;

/// A value in a place of its own, which contracts see as the value.
#[derive(Drop)]
pub struct Held<T> {
    inner: Box<T>,
}

impl<T> Model for Held<T> {
    ghost Value = { T };

    ghost coded = { T.code };

    ghost view = { λ h. h.inner.value };
}

impl<T> Held<T> {
    pub fn into_inner(self) -> T
        ensures { result ≡ self }
    {
        let Held { inner } = self;
        Box::into_inner(inner)
    }
}

impl<T: Drop> Held<T> {
    pub fn new(alloc: Global, value: T) -> Result<Held<T>, AllocError>
        ensures { IfOk result (λ h. h ≡ value) }
    {
        Ok(Held {
            inner: Box::new(alloc, value)?,
        })
    }
}

impl Held<Cells> {
    /// One more element.
    pub fn gain(&mut self, alloc: Global, x: Operand) -> Result<(), AllocError>
        ensures { OnOk result (self.new ≡ grown self.old x) }
    {
        grow(alloc, &mut self.inner, x)
    }
}

impl<'a> Held<Making<'a>> {
    pub fn plan(&self) -> Plan<'a>
        ensures { result ≡ self.now.plan }
    {
        self.inner.plan
    }

    /// One more name runs.
    pub fn begin(&mut self, turn: Turn<'a>) -> Result<(), AllocError>
        ensures { OnOk result (self.new ≡ record self.old { turns = turn.entry ∷ self.old.turns }) }
    {
        self.inner.turns.push(turn)
    }

    /// The latest name that runs, if there is one, is taken away.
    pub fn latest(&mut self) -> Option<Turn<'a>>
        ensures { MatchOption result ((self.old.turns ≡ []) × (self.new ≡ self.old)) (λ last. (self.old.turns ≡ last ∷ self.new.turns) × (self.new ≡ record self.old { turns = self.new.turns })) }
    {
        self.inner.turns.pop()
    }

    /// A set has no value.
    pub fn spoil(&mut self)
        ensures { self.new ≡ record self.old { whole = false } }
    {
        self.inner.whole = false;
    }

    /// One more element.
    pub fn gain(&mut self, alloc: Global, x: Operand) -> Result<(), AllocError>
        ensures { OnOk result (self.new ≡ record self.old { cells = grown self.old.cells x }) }
    {
        grow(alloc, &mut self.inner.cells, x)
    }
}
