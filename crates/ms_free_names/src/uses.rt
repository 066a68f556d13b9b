//! The names that expressions use and do not bind.

ghost use Rattle.std.specs.Prelude.{◌≡◌, ◌++◌, ◌∷◌, [], IfOk, length, map, take};
ghost use Rattle.ms_syntax.specs.Tree.{arm_view, arms_of, base_view, declaration_view, decls_of};
ghost use Rattle.ms_syntax.specs.Tree.{ex_view, exs_view, gens_view, generators_view};
ghost use Rattle.ms_syntax.specs.Tree.{index_view, indices_of, kind_view, links_view};
ghost use Rattle.ms_syntax.specs.Tree.{maybe_view, names_view, parameter_view, row_view};
ghost use Rattle.ms_syntax.specs.Tree.{rows_of, subscripts_view};
ghost use Rattle.ms_free_names.specs.Used.{Used};
ghost use Rattle.ms_free_names.specs.Uses as spec;
ghost use Rattle.ms_free_names.specs.Uses.{generated, locals, names_alone};

use crate::bound::Bound;
use ms_syntax::{
    Arm, Base, Binder, Declaration, Expr, Generator, Generators, Index, Kind, Link, Parameter, Row,
    Subscript, Word,
};
use std::alloc::{AllocError, Global};
use std::marker::Model;

/// The names that are bound around an expression, and those that were used where they are not.
#[derive(Drop)]
pub struct Uses {
    bound: Bound,
    found: Vec<Word>,
}

impl Model for Uses {
    ghost use Rattle.ms_free_names.specs.Used.{Used};

    ghost Value = { Used };

    ghost view = { λ u. record { bound = u.bound; found = u.found.items } };
}

impl Uses {
    /// Nothing is bound or used.
    pub fn new(alloc: Global) -> Uses
        ensures bound { result.bound ≡ [] }
        ensures found { result.found ≡ [] }
    {
        Uses {
            bound: Bound::new(alloc),
            found: Vec::new(alloc),
        }
    }

    /// The names that were used.
    pub fn found(&self) -> &[Word]
        ensures { result.now ≡ self.now.found }
    {
        self.found.as_slice()
    }

    /// A name that is used.
    fn use_name(&mut self, alloc: Global, name: &Word) -> Result<(), AllocError>
        ensures bound { IfOk result (λ _. self.new.bound ≡ self.old.bound) }
        ensures found { IfOk result (λ _. self.new.found
            ≡ self.old.found ++ spec.free_name self.old.bound name.now) }
    {
        if self.bound.contains(name) {
            return Ok(());
        }
        self.found.push(name.copy(alloc)?)?;
        Ok(())
    }

    fn bind(&mut self, alloc: Global, name: &Word) -> Result<(), AllocError>
        ensures bound { IfOk result (λ _. self.new.bound ≡ self.old.bound ++ name.now ∷ []) }
        ensures found { IfOk result (λ _. self.new.found ≡ self.old.found) }
    {
        self.bound.push(alloc, name)
    }

    fn bind_all(&mut self, alloc: Global, names: &[Binder]) -> Result<(), AllocError>
        ensures bound { IfOk result (λ _. self.new.bound
            ≡ self.old.bound ++ names_alone (names_view names.now)) }
        ensures found { IfOk result (λ _. self.new.found ≡ self.old.found) }
    {
        for binder in names {
            self.bind(alloc, &binder.name)?;
        }
        Ok(())
    }

    /// How many names are bound.
    fn depth(&self) -> usize
        ensures { result ≡ length self.now.bound }
    {
        self.bound.len()
    }

    /// Leaves so many names bound.
    fn leave(&mut self, depth: usize)
        ensures bound { self.new.bound ≡ take depth self.old.bound }
        ensures found { self.new.found ≡ self.old.found }
    {
        self.bound.truncate(depth);
    }

    /// Adds the names that an expression uses.
    #[cycle(uses)]
    pub fn collect(&mut self, alloc: Global, expression: &Expr) -> Result<(), AllocError>
        ensures bound { IfOk result (λ _. self.new.bound ≡ self.old.bound) }
        ensures found { IfOk result (λ _. self.new.found
            ≡ self.old.found ++ spec.uses self.old.bound (ex_view expression.now)) }
    {
        match expression {
            Expr::Let(_, declarations, _, body) => {
                let depth = self.depth();
                self.collect_locals(alloc, declarations)?;
                self.collect(alloc, body)?;
                self.leave(depth);
                Ok(())
            }
            Expr::Equivalence(first, links) => {
                self.collect(alloc, first)?;
                self.collect_links(alloc, links)?;
                Ok(())
            }
            Expr::Implication(first, links) => {
                self.collect(alloc, first)?;
                self.collect_links(alloc, links)?;
                Ok(())
            }
            Expr::Disjunction(first, links) => {
                self.collect(alloc, first)?;
                self.collect_links(alloc, links)?;
                Ok(())
            }
            Expr::Conjunction(first, links) => {
                self.collect(alloc, first)?;
                self.collect_links(alloc, links)?;
                Ok(())
            }
            Expr::Comparison(first, link) => {
                self.collect(alloc, first)?;
                self.collect(alloc, &link.operand)?;
                Ok(())
            }
            Expr::Membership(first, link) => {
                self.collect(alloc, first)?;
                self.collect(alloc, &link.operand)?;
                Ok(())
            }
            Expr::Range(first, link) => {
                self.collect(alloc, first)?;
                self.collect(alloc, &link.operand)?;
                Ok(())
            }
            Expr::Sum(first, links) => {
                self.collect(alloc, first)?;
                self.collect_links(alloc, links)?;
                Ok(())
            }
            Expr::Product(first, links) => {
                self.collect(alloc, first)?;
                self.collect_links(alloc, links)?;
                Ok(())
            }
            Expr::Concatenation(first, links) => {
                self.collect(alloc, first)?;
                self.collect_links(alloc, links)?;
                Ok(())
            }
            Expr::Prefix(_, _, operand) => self.collect(alloc, operand),
            Expr::Access(_, array, subscripts) => {
                self.collect(alloc, array)?;
                self.collect_subscripts(alloc, subscripts)?;
                Ok(())
            }
            Expr::Number(_, _) => Ok(()),
            Expr::Text(_, _) => Ok(()),
            Expr::Truth(_, _) => Ok(()),
            Expr::Name(_, name) => self.use_name(alloc, name),
            Expr::Call(_, name, arguments) => {
                self.use_name(alloc, name)?;
                self.collect_all(alloc, arguments)?;
                Ok(())
            }
            Expr::GeneratorCall(_, name, generators, body) => {
                self.use_name(alloc, name)?;
                let depth = self.depth();
                self.collect_generators(alloc, generators)?;
                self.collect(alloc, body)?;
                self.leave(depth);
                Ok(())
            }
            Expr::Parenthesis(_, inner) => self.collect(alloc, inner),
            Expr::Array(_, elements) => self.collect_all(alloc, elements),
            Expr::Comprehension(_, element, generators) => {
                let depth = self.depth();
                self.collect_generators(alloc, generators)?;
                self.collect(alloc, element)?;
                self.leave(depth);
                Ok(())
            }
            Expr::Rows(_, rows) => self.collect_rows(alloc, rows),
            Expr::Set(_, elements) => self.collect_all(alloc, elements),
            Expr::If(_, condition, branch, arms, last) => {
                self.collect(alloc, condition)?;
                self.collect(alloc, branch)?;
                self.collect_arms(alloc, arms)?;
                self.collect(alloc, last)?;
                Ok(())
            }
        }
    }

    #[cycle(uses)]
    pub fn collect_maybe(&mut self, alloc: Global, part: &Option<Expr>) -> Result<(), AllocError>
        ensures bound { IfOk result (λ _. self.new.bound ≡ self.old.bound) }
        ensures found { IfOk result (λ _. self.new.found
            ≡ self.old.found ++ spec.uses_maybe self.old.bound (maybe_view part.now)) }
    {
        match part {
            Some(inner) => self.collect(alloc, inner),
            None => Ok(()),
        }
    }

    #[cycle(uses)]
    fn collect_all(&mut self, alloc: Global, parts: &[Expr]) -> Result<(), AllocError>
        ensures bound { IfOk result (λ _. self.new.bound ≡ self.old.bound) }
        ensures found { IfOk result (λ _. self.new.found
            ≡ self.old.found ++ spec.uses_exs self.old.bound (exs_view parts.now)) }
    {
        for part in parts {
            self.collect(alloc, part)?;
        }
        Ok(())
    }

    #[cycle(uses)]
    fn collect_links(&mut self, alloc: Global, links: &[Link]) -> Result<(), AllocError>
        ensures bound { IfOk result (λ _. self.new.bound ≡ self.old.bound) }
        ensures found { IfOk result (λ _. self.new.found
            ≡ self.old.found ++ spec.uses_links self.old.bound (links_view links.now)) }
    {
        for link in links {
            self.collect(alloc, &link.operand)?;
        }
        Ok(())
    }

    #[cycle(uses)]
    fn collect_arms(&mut self, alloc: Global, arms: &[Arm]) -> Result<(), AllocError>
        ensures bound { IfOk result (λ _. self.new.bound ≡ self.old.bound) }
        ensures found { IfOk result (λ _. self.new.found
            ≡ self.old.found ++ spec.uses_arms self.old.bound (arms_of (map arm_view arms.now))) }
    {
        for arm in arms {
            self.collect(alloc, &arm.condition)?;
            self.collect(alloc, &arm.branch)?;
        }
        Ok(())
    }

    #[cycle(uses)]
    fn collect_rows(&mut self, alloc: Global, rows: &[Row]) -> Result<(), AllocError>
        ensures bound { IfOk result (λ _. self.new.bound ≡ self.old.bound) }
        ensures found { IfOk result (λ _. self.new.found
            ≡ self.old.found ++ spec.uses_rows self.old.bound (rows_of (map row_view rows.now))) }
    {
        for row in rows {
            self.collect_all(alloc, &row.elements)?;
        }
        Ok(())
    }

    #[cycle(uses)]
    fn collect_subscripts(
        &mut self,
        alloc: Global,
        subscripts: &[Subscript],
    ) -> Result<(), AllocError>
        ensures bound { IfOk result (λ _. self.new.bound ≡ self.old.bound) }
        ensures found { IfOk result (λ _. self.new.found
            ≡ self.old.found ++ spec.uses_subscripts self.old.bound (subscripts_view subscripts.now)) }
    {
        for subscript in subscripts {
            self.collect(alloc, &subscript.first)?;
            self.collect_maybe(alloc, &subscript.second)?;
        }
        Ok(())
    }

    /// Leaves the names of the generators bound.
    #[cycle(uses)]
    fn collect_generators(
        &mut self,
        alloc: Global,
        generators: &Generators,
    ) -> Result<(), AllocError>
        ensures bound { IfOk result (λ _. self.new.bound
            ≡ self.old.bound ++ generated (generators_view generators.now).0) }
        ensures found { IfOk result (λ _. self.new.found
            ≡ self.old.found ++ spec.uses_generators self.old.bound (generators_view generators.now)) }
    {
        self.collect_generator_list(alloc, &generators.list)?;
        match &generators.condition {
            Some(condition) => self.collect(alloc, condition),
            None => Ok(()),
        }
    }

    #[cycle(uses)]
    fn collect_generator_list(
        &mut self,
        alloc: Global,
        generators: &[Generator],
    ) -> Result<(), AllocError>
        ensures bound { IfOk result (λ _. self.new.bound
            ≡ self.old.bound ++ generated (gens_view generators.now)) }
        ensures found { IfOk result (λ _. self.new.found
            ≡ self.old.found ++ spec.uses_gens self.old.bound (gens_view generators.now)) }
    {
        for generator in generators {
            self.collect(alloc, &generator.set)?;
            self.bind_all(alloc, generator.names.as_slice())?;
        }
        Ok(())
    }

    /// Leaves the names of the locals bound.
    #[cycle(uses)]
    fn collect_locals(
        &mut self,
        alloc: Global,
        declarations: &[Declaration],
    ) -> Result<(), AllocError>
        ensures bound { IfOk result (λ _. self.new.bound
            ≡ self.old.bound ++ locals (decls_of (map declaration_view declarations.now))) }
        ensures found { IfOk result (λ _. self.new.found
            ≡ self.old.found ++ spec.uses_locals self.old.bound (decls_of (map declaration_view
            declarations.now))) }
    {
        for declaration in declarations {
            self.collect_kind(alloc, &declaration.kind)?;
            self.collect_maybe(alloc, &declaration.value)?;
            self.bind(alloc, &declaration.name)?;
        }
        Ok(())
    }

    #[cycle(uses)]
    pub fn collect_kind(&mut self, alloc: Global, kind: &Kind) -> Result<(), AllocError>
        ensures bound { IfOk result (λ _. self.new.bound ≡ self.old.bound) }
        ensures found { IfOk result (λ _. self.new.found
            ≡ self.old.found ++ spec.uses_kind self.old.bound (kind_view kind.now)) }
    {
        self.collect_indices(alloc, &kind.indices)?;
        self.collect_base(alloc, &kind.base)?;
        Ok(())
    }

    #[cycle(uses)]
    fn collect_base(&mut self, alloc: Global, base: &Base) -> Result<(), AllocError>
        ensures bound { IfOk result (λ _. self.new.bound ≡ self.old.bound) }
        ensures found { IfOk result (λ _. self.new.found
            ≡ self.old.found ++ spec.uses_base self.old.bound (base_view base.now)) }
    {
        match base {
            Base::Bool => Ok(()),
            Base::Int => Ok(()),
            Base::String => Ok(()),
            Base::Ann => Ok(()),
            Base::SetOfInt => Ok(()),
            Base::SetOf(set) => self.collect(alloc, set),
            Base::Within(set) => self.collect(alloc, set),
        }
    }

    #[cycle(uses)]
    fn collect_indices(&mut self, alloc: Global, indices: &[Index]) -> Result<(), AllocError>
        ensures bound { IfOk result (λ _. self.new.bound ≡ self.old.bound) }
        ensures found { IfOk result (λ _. self.new.found
            ≡ self.old.found ++ spec.uses_indices self.old.bound (indices_of (map index_view indices.now))) }
    {
        for index in indices {
            self.collect_index(alloc, index)?;
        }
        Ok(())
    }

    #[cycle(uses)]
    fn collect_index(&mut self, alloc: Global, index: &Index) -> Result<(), AllocError>
        ensures bound { IfOk result (λ _. self.new.bound ≡ self.old.bound) }
        ensures found { IfOk result (λ _. self.new.found
            ≡ self.old.found ++ spec.uses_maybe self.old.bound (index_view index.now)) }
    {
        match index {
            Index::AnyInt => Ok(()),
            Index::Over(set) => self.collect(alloc, set),
        }
    }

    /// The names that the kinds of parameters use. Leaves the names of the parameters bound.
    pub fn collect_parameters(
        &mut self,
        alloc: Global,
        parameters: &[Parameter],
    ) -> Result<(), AllocError>
        ensures bound { IfOk result (λ _. self.new.bound
            ≡ self.old.bound ++ spec.parameters (map parameter_view parameters.now)) }
        ensures found { IfOk result (λ _. self.new.found
            ≡ self.old.found ++ spec.uses_params self.old.bound (map parameter_view parameters.now)) }
    {
        for parameter in parameters {
            self.collect_kind(alloc, &parameter.kind)?;
        }
        for parameter in parameters {
            self.bind(alloc, &parameter.name)?;
        }
        Ok(())
    }
}
