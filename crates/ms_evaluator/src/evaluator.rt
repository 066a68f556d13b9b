ghost use Rattle.std.specs.Prelude.{◌≡◌, ◌≤◌, map, length, drop, IsTrue, IfOk, OnOk, true};
ghost use Rattle.ms_trees.specs.Enclosure.{enclosure, hull_of, distinct as distinct_of};
ghost use Rattle.ms_trees.specs.WellFormed.{is_well_formed as is_well_formed_of};
ghost use Rattle.ms_ground.specs.Known.{known};
ghost use Rattle.ms_evaluator.specs.Findings.{findings, all_numbers, all_truths};
ghost use Rattle.ms_evaluator.specs.Pushed.{ArePushed};

use crate::distinct::Matching;
use crate::lists;
use crate::nodes::{
    at_most, bit, denial, difference, either, either_of_truths, equal, equivalence, exclusive,
    implication, less, magnitude, membership, negation, product, quotient, remainder, sum, unequal,
};
use ms_ground::as_hull;
use ms_ground::leaves::{bit_variable, constant, variable};
use ms_ground::operations::{boolean, numeric};
use ms_num::Intervals;
use ms_trees::{Enclosure, Extreme, Ground, Hull};
use std::alloc::{AllocError, Global};

/// Evaluates trees with memory that is kept between calls, so that no part is evaluated twice.
#[derive(Drop)]
pub struct Evaluator {
    kept: Vec<Enclosure>,
    matching: Matching,
}

impl Evaluator {
    pub fn new(alloc: Global) -> Evaluator {
        Evaluator {
            kept: Vec::new(alloc),
            matching: Matching::new(alloc),
        }
    }

    /// What the tree may mean on the box of these intervals, where it is well formed there.
    pub fn enclose<B: Intervals>(
        &mut self,
        g: &Ground,
        sets: B,
    ) -> Result<Option<Enclosure>, AllocError>
        ensures { IfOk result (λ r. r ≡ known (is_well_formed_of (B.spans sets) g.now) (enclosure (B.spans sets) g.now)) }
    {
        self.kept.clear();
        match self.number(g, sets)? {
            Some(x) => Ok(Some(x)),
            None => self.truth(g, sets),
        }
    }

    /// Whether the tree is well formed on the box of these intervals.
    pub fn is_well_formed<B: Intervals>(&mut self, g: &Ground, sets: B) -> Result<bool, AllocError>
        ensures { IfOk result (λ r. r ≡ is_well_formed_of (B.spans sets) g.now) }
    {
        let enclosed = self.enclose(g, sets)?;
        Ok(enclosed.is_some())
    }

    /// What the tree may mean on the box of these intervals.
    pub fn hull<B: Intervals>(&mut self, g: &Ground, sets: B) -> Result<Hull, AllocError>
        requires { IsTrue (is_well_formed_of (B.spans sets) g.now) }
        ensures { IfOk result (λ h. h ≡ hull_of (enclosure (B.spans sets) g.now)) }
    {
        match self.enclose(g, sets)? {
            Some(x) => Ok(as_hull(x)),
            None => unreachable!(),
        }
    }

    /// Whether numbers may be distinct, and whether they may not, from what each of them may be.
    pub fn distinct(&mut self, parts: &[Enclosure]) -> Result<Enclosure, AllocError>
        ensures { IfOk result (λ r. r ≡ distinct_of parts.now) }
    {
        self.matching.distinct(parts)
    }

    // What the tree may mean, where it is a well formed integer tree.
    #[cycle(walk)]
    fn number<B: Intervals>(&mut self, g: &Ground, sets: B) -> Result<Option<Enclosure>, AllocError>
        ensures value { IfOk result (λ o. o ≡ (findings (B.spans sets) g.now).number) }
        ensures kept { OnOk result (self.new.kept.items ≡ self.old.kept.items) }
    {
        match g {
            Ground::Num(n) => Ok(constant(*n)),
            Ground::Undef => Ok(Some(numeric(None, true))),
            Ground::Var(v) => Ok(variable(*v, sets)),
            Ground::Add(a, b) => {
                let x = self.number(a.get(), sets)?;
                let y = self.number(b.get(), sets)?;
                Ok(sum(x, y))
            }
            Ground::Sub(a, b) => {
                let x = self.number(a.get(), sets)?;
                let y = self.number(b.get(), sets)?;
                Ok(difference(x, y))
            }
            Ground::Mul(a, b) => {
                let x = self.number(a.get(), sets)?;
                let y = self.number(b.get(), sets)?;
                Ok(product(x, y))
            }
            Ground::Div(a, b) => {
                let x = self.number(a.get(), sets)?;
                let y = self.number(b.get(), sets)?;
                Ok(quotient(x, y))
            }
            Ground::Mod(a, b) => {
                let x = self.number(a.get(), sets)?;
                let y = self.number(b.get(), sets)?;
                Ok(remainder(x, y))
            }
            Ground::Neg(a) => {
                let x = self.number(a.get(), sets)?;
                Ok(negation(x))
            }
            Ground::Abs(a) => {
                let x = self.number(a.get(), sets)?;
                Ok(magnitude(x))
            }
            Ground::Sum(parts) => {
                let Some(base) = self.push_numbers(parts.as_slice(), sets)? else {
                    return Ok(None);
                };
                let x = lists::sum(top(self.kept.as_slice(), base));
                self.kept.truncate(base);
                Ok(x)
            }
            Ground::Least(parts) => {
                let Some(base) = self.push_numbers(parts.as_slice(), sets)? else {
                    return Ok(None);
                };
                let x = lists::extreme(Extreme::Least, top(self.kept.as_slice(), base));
                self.kept.truncate(base);
                Ok(x)
            }
            Ground::Greatest(parts) => {
                let Some(base) = self.push_numbers(parts.as_slice(), sets)? else {
                    return Ok(None);
                };
                let x = lists::extreme(Extreme::Greatest, top(self.kept.as_slice(), base));
                self.kept.truncate(base);
                Ok(x)
            }
            Ground::ToInt(a) => {
                let x = self.truth(a.get(), sets)?;
                Ok(bit(x))
            }
            Ground::Elem(low, parts, index) => {
                let Some(i) = self.number(index.get(), sets)? else {
                    return Ok(None);
                };
                let Some(base) = self.push_numbers(parts.as_slice(), sets)? else {
                    return Ok(None);
                };
                let x = lists::element(top(self.kept.as_slice(), base), *low, i);
                self.kept.truncate(base);
                Ok(x)
            }
            Ground::Elem2(low, left, width, parts, row, column) => {
                let Some(i) = self.number(row.get(), sets)? else {
                    return Ok(None);
                };
                let Some(j) = self.number(column.get(), sets)? else {
                    return Ok(None);
                };
                let Some(base) = self.push_numbers(parts.as_slice(), sets)? else {
                    return Ok(None);
                };
                let parts = top(self.kept.as_slice(), base);
                let x = lists::element_of_grid(parts, *low, *left, *width as usize, i, j);
                self.kept.truncate(base);
                Ok(x)
            }
            Ground::Count(parts, a) => {
                let Some(y) = self.number(a.get(), sets)? else {
                    return Ok(None);
                };
                let Some(base) = self.push_numbers(parts.as_slice(), sets)? else {
                    return Ok(None);
                };
                let x = lists::count(top(self.kept.as_slice(), base), y);
                self.kept.truncate(base);
                Ok(x)
            }
            Ground::IteI(condition, a, b) => {
                let c = self.truth(condition.get(), sets)?;
                let x = self.number(a.get(), sets)?;
                let y = self.number(b.get(), sets)?;
                Ok(either(c, x, y))
            }
            _ => Ok(None),
        }
    }

    // What the tree may mean, where it is a well formed Boolean tree.
    #[cycle(walk)]
    fn truth<B: Intervals>(&mut self, g: &Ground, sets: B) -> Result<Option<Enclosure>, AllocError>
        ensures value { IfOk result (λ o. o ≡ (findings (B.spans sets) g.now).truth) }
        ensures kept { OnOk result (self.new.kept.items ≡ self.old.kept.items) }
    {
        match g {
            Ground::True => Ok(Some(boolean(true, false))),
            Ground::False => Ok(Some(boolean(false, true))),
            Ground::BVar(v) => Ok(bit_variable(*v, sets)),
            Ground::And(parts) => {
                let Some(base) = self.push_truths(parts.as_slice(), sets)? else {
                    return Ok(None);
                };
                let x = lists::all(top(self.kept.as_slice(), base));
                self.kept.truncate(base);
                Ok(Some(x))
            }
            Ground::Or(parts) => {
                let Some(base) = self.push_truths(parts.as_slice(), sets)? else {
                    return Ok(None);
                };
                let x = lists::some(top(self.kept.as_slice(), base));
                self.kept.truncate(base);
                Ok(Some(x))
            }
            Ground::Not(a) => {
                let x = self.truth(a.get(), sets)?;
                Ok(denial(x))
            }
            Ground::Iff(a, b) => {
                let x = self.truth(a.get(), sets)?;
                let y = self.truth(b.get(), sets)?;
                Ok(equivalence(x, y))
            }
            Ground::Imp(a, b) => {
                let x = self.truth(a.get(), sets)?;
                let y = self.truth(b.get(), sets)?;
                Ok(implication(x, y))
            }
            Ground::Xor(a, b) => {
                let x = self.truth(a.get(), sets)?;
                let y = self.truth(b.get(), sets)?;
                Ok(exclusive(x, y))
            }
            Ground::Eq(a, b) => {
                let x = self.number(a.get(), sets)?;
                let y = self.number(b.get(), sets)?;
                Ok(equal(x, y))
            }
            Ground::Ne(a, b) => {
                let x = self.number(a.get(), sets)?;
                let y = self.number(b.get(), sets)?;
                Ok(unequal(x, y))
            }
            Ground::Lt(a, b) => {
                let x = self.number(a.get(), sets)?;
                let y = self.number(b.get(), sets)?;
                Ok(less(x, y))
            }
            Ground::Le(a, b) => {
                let x = self.number(a.get(), sets)?;
                let y = self.number(b.get(), sets)?;
                Ok(at_most(x, y))
            }
            Ground::IteB(condition, a, b) => {
                let c = self.truth(condition.get(), sets)?;
                let x = self.truth(a.get(), sets)?;
                let y = self.truth(b.get(), sets)?;
                Ok(either_of_truths(c, x, y))
            }
            Ground::In(a, ranges) => {
                let x = self.number(a.get(), sets)?;
                Ok(membership(x, ranges))
            }
            Ground::AllDiff(parts) => {
                let Some(base) = self.push_numbers(parts.as_slice(), sets)? else {
                    return Ok(None);
                };
                let x = self.matching.distinct(top(self.kept.as_slice(), base))?;
                self.kept.truncate(base);
                Ok(Some(x))
            }
            Ground::Table(parts, rows) => {
                let Some(base) = self.push_numbers(parts.as_slice(), sets)? else {
                    return Ok(None);
                };
                let x = lists::rowed(top(self.kept.as_slice(), base), rows.as_slice());
                self.kept.truncate(base);
                Ok(Some(x))
            }
            _ => Ok(None),
        }
    }

    // What the parts may mean, on the stack from the place that is returned, where each is a well formed integer tree.
    #[cycle(walk)]
    fn push_numbers<B: Intervals>(
        &mut self,
        parts: &[Ground],
        sets: B,
    ) -> Result<Option<usize>, AllocError>
        ensures { IfOk result (λ base. ArePushed self.old.kept.items self.new.kept.items base (all_numbers (map (findings (B.spans sets)) parts.now))) }
    {
        let base = self.kept.len();
        for part in parts {
            let Some(x) = self.number(part, sets)? else {
                self.kept.truncate(base);
                return Ok(None);
            };
            self.kept.extend_from_slice(&[x])?;
        }
        Ok(Some(base))
    }

    // The same of Boolean parts.
    #[cycle(walk)]
    fn push_truths<B: Intervals>(
        &mut self,
        parts: &[Ground],
        sets: B,
    ) -> Result<Option<usize>, AllocError>
        ensures { IfOk result (λ base. ArePushed self.old.kept.items self.new.kept.items base (all_truths (map (findings (B.spans sets)) parts.now))) }
    {
        let base = self.kept.len();
        for part in parts {
            let Some(x) = self.truth(part, sets)? else {
                self.kept.truncate(base);
                return Ok(None);
            };
            self.kept.extend_from_slice(&[x])?;
        }
        Ok(Some(base))
    }
}

// The parts on the stack from a place on.
fn top(kept: &[Enclosure], base: usize) -> &[Enclosure]
    requires { base ≤ length kept.now }
    ensures { result.now ≡ drop base kept.now }
{
    let (_, parts) = kept.split_at(base);
    parts
}
