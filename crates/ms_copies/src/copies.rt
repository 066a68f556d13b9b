//! The walk that copies a tree.

ghost use Rattle.std.specs.Prelude.{◌≡◌, IfOk, Ok, map, option_map};
ghost use Rattle.ms_syntax.specs.Tree.{Ex, arm_view, base_view, declaration_view, ex_view};
ghost use Rattle.ms_syntax.specs.Tree.{generator_view, generators_view, index_view, kind_view};
ghost use Rattle.ms_syntax.specs.Tree.{link_view, note_view, row_view, subscript_view};

use ms_syntax::{
    Arm, Base, Declaration, Expr, Generator, Generators, Index, Kind, Link, Note, Row, Subscript,
};
use std::alloc::{AllocError, Global};

/// Trees that can be copied.
pub trait CopyTree {
    /// What stands for a tree.
    ghost Seen: { Type 0 };
    /// What stands for this one.
    ghost view: { Self → Seen };

    /// The same tree once more: it writes the same tokens at the same places. Only the room that
    /// its lists have set aside may differ, which no view sees.
    fn copy(&self, alloc: Global) -> Result<Self, AllocError>
        ensures { IfOk result (λ copied. view copied ≡ view self.now) };
}

impl CopyTree for Expr {
    ghost Seen = { Ex };

    ghost view = { ex_view };

    fn copy(&self, alloc: Global) -> Result<Expr, AllocError>
        ensures { IfOk result (λ copied. ex_view copied ≡ ex_view self.now) }
    {
        copy_tree(alloc, self)
    }
}

#[cycle(copy)]
fn copy_tree(alloc: Global, tree: &Expr) -> Result<Expr, AllocError>
    ensures { IfOk result (λ copied. ex_view copied ≡ ex_view tree.now) }
{
    match tree {
        Expr::Let(place, declarations, closed, body) => {
            let declarations = copy_declarations(alloc, declarations);
            let (declarations, body) = both(declarations, copy_box(alloc, body))?;
            Ok(Expr::Let(*place, declarations, *closed, body))
        }
        Expr::Equivalence(first, links) => {
            let (links, first) = both(copy_links(alloc, links), copy_box(alloc, first))?;
            Ok(Expr::Equivalence(first, links))
        }
        Expr::Implication(first, links) => {
            let (links, first) = both(copy_links(alloc, links), copy_box(alloc, first))?;
            Ok(Expr::Implication(first, links))
        }
        Expr::Disjunction(first, links) => {
            let (links, first) = both(copy_links(alloc, links), copy_box(alloc, first))?;
            Ok(Expr::Disjunction(first, links))
        }
        Expr::Conjunction(first, links) => {
            let (links, first) = both(copy_links(alloc, links), copy_box(alloc, first))?;
            Ok(Expr::Conjunction(first, links))
        }
        Expr::Comparison(first, link) => {
            let (first, link) = both(copy_box(alloc, first), copy_link_box(alloc, link))?;
            Ok(Expr::Comparison(first, link))
        }
        Expr::Membership(first, link) => {
            let (first, link) = both(copy_box(alloc, first), copy_link_box(alloc, link))?;
            Ok(Expr::Membership(first, link))
        }
        Expr::Range(first, link) => {
            let (first, link) = both(copy_box(alloc, first), copy_link_box(alloc, link))?;
            Ok(Expr::Range(first, link))
        }
        Expr::Sum(first, links) => {
            let (links, first) = both(copy_links(alloc, links), copy_box(alloc, first))?;
            Ok(Expr::Sum(first, links))
        }
        Expr::Product(first, links) => {
            let (links, first) = both(copy_links(alloc, links), copy_box(alloc, first))?;
            Ok(Expr::Product(first, links))
        }
        Expr::Concatenation(first, links) => {
            let (links, first) = both(copy_links(alloc, links), copy_box(alloc, first))?;
            Ok(Expr::Concatenation(first, links))
        }
        Expr::Prefix(place, sign, operand) => {
            Ok(Expr::Prefix(*place, *sign, copy_box(alloc, operand)?))
        }
        Expr::Access(place, array, subscripts) => {
            let subscripts = copy_subscripts(alloc, subscripts);
            let (subscripts, array) = both(subscripts, copy_box(alloc, array))?;
            Ok(Expr::Access(*place, array, subscripts))
        }
        Expr::Number(place, number) => Ok(Expr::Number(*place, *number)),
        Expr::Text(place, text) => Ok(Expr::Text(*place, text.copy(alloc)?)),
        Expr::Truth(place, value) => Ok(Expr::Truth(*place, *value)),
        Expr::Name(place, name) => Ok(Expr::Name(*place, name.copy(alloc)?)),
        Expr::Call(place, name, arguments) => {
            let (name, arguments) = both(name.copy(alloc), copy_exprs(alloc, arguments))?;
            Ok(Expr::Call(*place, name, arguments))
        }
        Expr::GeneratorCall(place, name, generators, body) => {
            let parts = both(copy_generators(alloc, generators), copy_box(alloc, body));
            let (name, (generators, body)) = both(name.copy(alloc), parts)?;
            Ok(Expr::GeneratorCall(*place, name, generators, body))
        }
        Expr::Parenthesis(place, inner) => {
            Ok(Expr::Parenthesis(*place, copy_box(alloc, inner)?))
        }
        Expr::Array(place, elements) => { Ok(Expr::Array(*place, copy_exprs(alloc, elements)?)) }
        Expr::Comprehension(place, element, generators) => {
            let generators = copy_generators(alloc, generators);
            let (generators, element) = both(generators, copy_box(alloc, element))?;
            Ok(Expr::Comprehension(*place, element, generators))
        }
        Expr::Rows(place, rows) => Ok(Expr::Rows(*place, copy_rows(alloc, rows)?)),
        Expr::Set(place, elements) => Ok(Expr::Set(*place, copy_exprs(alloc, elements)?)),
        Expr::If(place, condition, branch, arms, last) => {
            let arms = both(copy_arms(alloc, arms), copy_box(alloc, last));
            let first = both(copy_box(alloc, condition), copy_box(alloc, branch));
            let ((arms, last), (condition, branch)) = both(arms, first)?;
            Ok(Expr::If(*place, condition, branch, arms, last))
        }
    }
}

/// Both parts of a node, unless memory fails for one. A part that is held where the other may fail
/// would be let go there, in code that is made anew for each such place.
fn both<A: Drop, B: Drop>(
    first: Result<A, AllocError>,
    second: Result<B, AllocError>,
) -> Result<(A, B), AllocError>
    ensures { IfOk result (λ pair. (first ≡ Ok pair.0) × (second ≡ Ok pair.1)) }
{
    match (first, second) {
        (Ok(first), Ok(second)) => Ok((first, second)),
        (Err(refused), _) => Err(refused),
        (_, Err(refused)) => Err(refused),
    }
}

#[cycle(copy)]
fn copy_box(alloc: Global, part: &Box<Expr>) -> Result<Box<Expr>, AllocError>
    ensures { IfOk result (λ copied. ex_view copied.value ≡ ex_view part.now.value) }
{
    Ok(Box::new(alloc, copy_tree(alloc, part)?)?)
}

#[cycle(copy)]
fn copy_maybe(alloc: Global, part: &Option<Expr>) -> Result<Option<Expr>, AllocError>
    ensures { IfOk result (λ copied. option_map ex_view copied ≡ option_map ex_view part.now) }
{
    match part {
        Some(inner) => Ok(Some(copy_tree(alloc, inner)?)),
        None => Ok(None),
    }
}

#[cycle(copy)]
fn copy_exprs(alloc: Global, parts: &[Expr]) -> Result<Vec<Expr>, AllocError>
    ensures { IfOk result (λ copied. map ex_view copied.items ≡ map ex_view parts.now) }
{
    let mut all = Vec::new(alloc);
    for part in parts {
        all.push(copy_tree(alloc, part)?)?;
    }
    Ok(all)
}

#[cycle(copy)]
fn copy_link(alloc: Global, link: &Link) -> Result<Link, AllocError>
    ensures { IfOk result (λ copied. link_view copied ≡ link_view link.now) }
{
    Ok(Link {
        operator: link.operator,
        place: link.place,
        operand: copy_tree(alloc, &link.operand)?,
    })
}

#[cycle(copy)]
fn copy_link_box(alloc: Global, link: &Box<Link>) -> Result<Box<Link>, AllocError>
    ensures { IfOk result (λ copied. link_view copied.value ≡ link_view link.now.value) }
{
    Ok(Box::new(alloc, copy_link(alloc, link)?)?)
}

#[cycle(copy)]
fn copy_links(alloc: Global, links: &[Link]) -> Result<Vec<Link>, AllocError>
    ensures { IfOk result (λ copied. map link_view copied.items ≡ map link_view links.now) }
{
    let mut all = Vec::new(alloc);
    for link in links {
        all.push(copy_link(alloc, link)?)?;
    }
    Ok(all)
}

#[cycle(copy)]
fn copy_arms(alloc: Global, arms: &[Arm]) -> Result<Vec<Arm>, AllocError>
    ensures { IfOk result (λ copied. map arm_view copied.items ≡ map arm_view arms.now) }
{
    let mut all = Vec::new(alloc);
    for arm in arms {
        let (condition, branch) = both(
            copy_tree(alloc, &arm.condition),
            copy_tree(alloc, &arm.branch),
        )?;
        all.push(Arm { condition, branch })?;
    }
    Ok(all)
}

#[cycle(copy)]
fn copy_rows(alloc: Global, rows: &[Row]) -> Result<Vec<Row>, AllocError>
    ensures { IfOk result (λ copied. map row_view copied.items ≡ map row_view rows.now) }
{
    let mut all = Vec::new(alloc);
    for row in rows {
        all.push(Row {
            elements: copy_exprs(alloc, &row.elements)?,
        })?;
    }
    Ok(all)
}

#[cycle(copy)]
fn copy_subscripts(alloc: Global, subscripts: &[Subscript]) -> Result<Vec<Subscript>, AllocError>
    ensures { IfOk result (λ copied. map subscript_view copied.items
        ≡ map subscript_view subscripts.now) }
{
    let mut all = Vec::new(alloc);
    for subscript in subscripts {
        let second = copy_maybe(alloc, &subscript.second);
        let (first, second) = both(copy_tree(alloc, &subscript.first), second)?;
        all.push(Subscript { first, second })?;
    }
    Ok(all)
}

#[cycle(copy)]
fn copy_generator_list(
    alloc: Global,
    generators: &[Generator],
) -> Result<Vec<Generator>, AllocError>
    ensures { IfOk result (λ copied. map generator_view copied.items
        ≡ map generator_view generators.now) }
{
    let mut all = Vec::new(alloc);
    for generator in generators {
        let (names, set) = both(
            generator.names.copy(alloc),
            copy_tree(alloc, &generator.set),
        )?;
        all.push(Generator { names, set })?;
    }
    Ok(all)
}

#[cycle(copy)]
fn copy_generators(alloc: Global, generators: &Generators) -> Result<Generators, AllocError>
    ensures { IfOk result (λ copied. generators_view copied ≡ generators_view generators.now) }
{
    let list = copy_generator_list(alloc, &generators.list);
    match &generators.condition {
        Some(condition) => {
            let (list, condition) = both(list, copy_box(alloc, condition))?;
            let condition = Some(condition);
            Ok(Generators { list, condition })
        }
        None => {
            let list = list?;
            let condition = None;
            Ok(Generators { list, condition })
        }
    }
}

#[cycle(copy)]
fn copy_declaration(alloc: Global, declaration: &Declaration) -> Result<Declaration, AllocError>
    ensures { IfOk result (λ copied. declaration_view copied ≡ declaration_view declaration.now) }
{
    let place = declaration.place;
    let what = both(
        copy_kind(alloc, &declaration.kind),
        declaration.name.copy(alloc),
    );
    let notes = copy_notes(alloc, &declaration.notes);
    let behind = both(notes, copy_maybe(alloc, &declaration.value));
    let ((kind, name), (notes, value)) = both(what, behind)?;
    Ok(Declaration {
        place,
        kind,
        name,
        notes,
        value,
    })
}

#[cycle(copy)]
fn copy_declarations(
    alloc: Global,
    declarations: &[Declaration],
) -> Result<Vec<Declaration>, AllocError>
    ensures { IfOk result (λ copied. map declaration_view copied.items
        ≡ map declaration_view declarations.now) }
{
    let mut all = Vec::new(alloc);
    for declaration in declarations {
        all.push(copy_declaration(alloc, declaration)?)?;
    }
    Ok(all)
}

#[cycle(copy)]
fn copy_kind(alloc: Global, kind: &Kind) -> Result<Kind, AllocError>
    ensures { IfOk result (λ copied. kind_view copied ≡ kind_view kind.now) }
{
    let mode = kind.mode;
    let indices = copy_indices(alloc, &kind.indices);
    let (indices, base) = both(indices, copy_base(alloc, &kind.base))?;
    Ok(Kind {
        indices,
        mode,
        base,
    })
}

#[cycle(copy)]
fn copy_base(alloc: Global, base: &Base) -> Result<Base, AllocError>
    ensures { IfOk result (λ copied. base_view copied ≡ base_view base.now) }
{
    match base {
        Base::Bool => Ok(Base::Bool),
        Base::Int => Ok(Base::Int),
        Base::String => Ok(Base::String),
        Base::Ann => Ok(Base::Ann),
        Base::SetOfInt => Ok(Base::SetOfInt),
        Base::SetOf(set) => Ok(Base::SetOf(copy_tree(alloc, set)?)),
        Base::Within(set) => Ok(Base::Within(copy_tree(alloc, set)?)),
    }
}

#[cycle(copy)]
fn copy_index(alloc: Global, index: &Index) -> Result<Index, AllocError>
    ensures { IfOk result (λ copied. index_view copied ≡ index_view index.now) }
{
    match index {
        Index::AnyInt => Ok(Index::AnyInt),
        Index::Over(set) => Ok(Index::Over(copy_tree(alloc, set)?)),
    }
}

#[cycle(copy)]
fn copy_indices(alloc: Global, indices: &[Index]) -> Result<Vec<Index>, AllocError>
    ensures { IfOk result (λ copied. map index_view copied.items ≡ map index_view indices.now) }
{
    let mut all = Vec::new(alloc);
    for index in indices {
        all.push(copy_index(alloc, index)?)?;
    }
    Ok(all)
}

#[cycle(copy)]
fn copy_notes(alloc: Global, notes: &[Note]) -> Result<Vec<Note>, AllocError>
    ensures { IfOk result (λ copied. map note_view copied.items ≡ map note_view notes.now) }
{
    let mut all = Vec::new(alloc);
    for note in notes {
        let place = note.place;
        let (name, arguments) = both(note.name.copy(alloc), copy_exprs(alloc, &note.arguments))?;
        all.push(Note {
            place,
            name,
            arguments,
        })?;
    }
    Ok(all)
}
