//! What the names of a node are, and its faults.

ghost use Rattle.std.specs.Prelude.{◌≡◌, ◌≤◌, ◌<◌, ℕ, None, Some, length, slice_get, false, IsTrue, MatchResult};
ghost use Rattle.kernel_raw.specs.RawTexts.{text_at};
ghost use Rattle.kernel_code.specs.StaticFaults.{use_fault, answer_fault, declared_fault, token_fault, size_fault, name_fault, first_of_two, node_fault, is_over_limit, block_fault, param_fault_of};
ghost use Rattle.kernel_code.specs.Scopes.{locals_before, meaning_of, is_begun};
ghost use Rattle.kernel_code.specs.Known.{AreBegun, AreNames, answer_named, name_named, meaning_if, has_name, has_answer};

use crate::check::demands::{
    answer_kind_fault, demand_fault, fault_if, loop_variable_fault, lowest, variable_fault,
};
use crate::check::forms::{declares, has_answer, has_name};
use crate::check::names::{Local, Meaning, Named, meaning_of};
use crate::check::operators::joins;
use crate::check::params::{fault_at, length_fault};
use crate::check::streams::{StreamBlock, stands_in};
use frame_ast::kernel::FaultKind;
use frame_grammar::TokenAt;
use job_base::limits::{MOST_LOCALS, MOST_PARAMS};
use kernel_raw::{RawForm, RawKernel, RawNode, StaticFault, is_above, kind_at, text_at};

/// The greatest number of a kernel's text.
pub const MOST_NUMBER: u64 = 9_223_372_036_854_775_807;

// What is known where a node stands: the locals before it, and the blocks that have begun there.
#[derive(Clone, Copy)]
struct Scope<'a> {
    locals: &'a [Local],
    blocks: &'a [StreamBlock],
}

// What a node's token is, where it is a name before an effect.
fn answer_named(
    raw: &RawKernel<'_>,
    names: &[&[u8]],
    locals: &[Local],
    number: usize,
    node: &RawNode,
) -> Option<Named>
    requires names { AreNames raw.now names.now }
    requires params { length raw.now.params.items ≤ MOST_PARAMS }
    requires few { length locals.now ≤ MOST_LOCALS }
    requires locals { locals.now ≡ locals_before raw.now.nodes.items number }
    ensures { result ≡ answer_named raw.now number node.now }
{
    if has_answer(node.form) {
        meaning_of(raw, names, locals, number, text_at(raw, node.at))
    } else {
        None
    }
}

// The fault of a stream that is the name of a form, for the blocks in which the form stands.
fn block_fault(
    raw: &RawKernel<'_>,
    blocks: &[StreamBlock],
    number: usize,
    form: RawForm,
    x: u32,
) -> Option<FaultKind>
    requires { AreBegun raw.now number blocks.now }
    ensures { result ≡ block_fault form (is_begun raw.now number x) }
{
    if matches!(form, RawForm::Write) {
        fault_if(FaultKind::KindMismatch, !stands_in(x, number, blocks))
    } else if matches!(form, RawForm::Begin) {
        fault_if(FaultKind::KindMismatch, stands_in(x, number, blocks))
    } else {
        None
    }
}

// The fault of a parameter that is the name of a form.
fn param_fault_of(
    raw: &RawKernel<'_>,
    blocks: &[StreamBlock],
    number: usize,
    form: RawForm,
    x: u32,
) -> Option<FaultKind>
    requires { AreBegun raw.now number blocks.now }
    ensures { result ≡ param_fault_of form (is_begun raw.now number x) (slice_get raw.now.params.items x) }
{
    match raw.params.get(x as usize) {
        Some(param) => lowest(
            demand_fault(form, *param),
            block_fault(raw, blocks, number, form, x),
        ),
        None => Some(FaultKind::KindMismatch),
    }
}

// The fault of the name of a form, by what it is.
fn use_fault(
    raw: &RawKernel<'_>,
    blocks: &[StreamBlock],
    number: usize,
    form: RawForm,
    named: Option<Named>,
) -> Option<FaultKind>
    requires { AreBegun raw.now number blocks.now }
    ensures { result ≡ use_fault raw.now number form named }
{
    match named {
        None => Some(FaultKind::UnknownName),
        Some(Named::Variable(_)) => variable_fault(form),
        Some(Named::LoopVariable(_)) => loop_variable_fault(form),
        Some(Named::Parameter(x)) => param_fault_of(raw, blocks, number, form, x),
    }
}

// The fault of a name before an effect, by what it is.
fn answer_fault(raw: &RawKernel<'_>, named: Option<Named>) -> Option<FaultKind>
    ensures { result ≡ answer_fault raw.now named }
{
    match named {
        None => Some(FaultKind::UnknownName),
        Some(Named::Variable(_)) => None,
        Some(Named::LoopVariable(_)) => Some(FaultKind::WriteOfReadOnly),
        Some(Named::Parameter(x)) => match raw.params.get(x as usize) {
            Some(param) => answer_kind_fault(param.kind),
            None => Some(FaultKind::KindMismatch),
        },
    }
}

// The fault of a name that is declared behind so many locals, by what it is already.
fn declared_fault(
    raw: &RawKernel<'_>,
    locals: &[Local],
    number: usize,
    name: &[u8],
    named: Option<Named>,
) -> Option<FaultKind>
    requires locals { locals.now ≡ locals_before raw.now.nodes.items number }
    requires named { named ≡ meaning_of raw.now number name.now }
    ensures { result ≡ declared_fault raw.now number name.now }
{
    lowest(
        fault_if(FaultKind::DuplicateName, named.is_some()),
        lowest(
            fault_if(FaultKind::Limit, locals.len() >= MOST_LOCALS as usize),
            length_fault(name),
        ),
    )
}

/// What the token of a node without an answer says, its number and depth aside: a Number, `index` or what stands
/// between two sides can be wrong.
pub fn atom_fault(raw: &RawKernel<'_>, node: &RawNode) -> Option<FaultKind>
    requires { has_answer node.now.form ≡ false }
    ensures { (i : ℕ) → result ≡ token_fault raw.now i node.now.at node.now.form }
{
    match node.form {
        RawForm::Number => fault_if(FaultKind::Limit, is_above(raw, node.at, MOST_NUMBER)),
        RawForm::Index => fault_if(FaultKind::UnknownName, !raw.parallel),
        RawForm::Binary => fault_if(FaultKind::Syntax, !joins(kind_at(raw, node.at))),
        RawForm::Name
        | RawForm::Element
        | RawForm::Length
        | RawForm::Has
        | RawForm::Count
        | RawForm::Item
        | RawForm::Unary
        | RawForm::Var
        | RawForm::SetName
        | RawForm::SetPlace
        | RawForm::SetTryAdd
        | RawForm::SetRemove
        | RawForm::AddItem
        | RawForm::AddPair
        | RawForm::Remove
        | RawForm::Clear
        | RawForm::Write
        | RawForm::Begin
        | RawForm::If
        | RawForm::IfElse
        | RawForm::For
        | RawForm::While => None,
    }
}

// What a node's own token says, its number and depth aside.
fn token_fault(
    raw: &RawKernel<'_>,
    number: usize,
    node: &RawNode,
    answer: Option<Named>,
) -> Option<FaultKind>
    requires { answer ≡ answer_named raw.now number node.now }
    ensures { result ≡ token_fault raw.now number node.now.at node.now.form }
{
    if has_answer(node.form) {
        lowest(
            answer_fault(raw, answer),
            length_fault(text_at(raw, node.at)),
        )
    } else {
        atom_fault(raw, node)
    }
}

// What a node's name says, where it has one.
fn name_fault(
    raw: &RawKernel<'_>,
    scope: Scope<'_>,
    number: usize,
    node: &RawNode,
    name: &[u8],
    named: Option<Named>,
) -> Option<FaultKind>
    requires some { IsTrue (has_name node.now.form) }
    requires locals { scope.locals.now ≡ locals_before raw.now.nodes.items number }
    requires blocks { AreBegun raw.now number scope.blocks.now }
    requires name { name.now ≡ text_at raw.now node.now.name }
    requires named { named ≡ meaning_of raw.now number name.now }
    ensures { result ≡ name_fault raw.now number node.now.name node.now.form }
{
    if declares(node.form) {
        declared_fault(raw, scope.locals, number, name, named)
    } else {
        lowest(
            use_fault(raw, scope.blocks, number, node.form, named),
            length_fault(name),
        )
    }
}

// The first fault of two tokens, the first of which stands before the second or is the same.
fn first_of_two(
    first: TokenAt,
    a: Option<FaultKind>,
    second: TokenAt,
    b: Option<FaultKind>,
) -> Option<StaticFault>
    ensures { result ≡ first_of_two first a second b }
{
    if first == second {
        fault_at(first, lowest(a, b))
    } else {
        fault_at(first, a).or(fault_at(second, b))
    }
}

// The fault of a node without a name, of which it is known whether it is one too many or too deep.
fn nameless_fault(
    raw: &RawKernel<'_>,
    number: usize,
    node: &RawNode,
    is_over: bool,
) -> Option<StaticFault>
    requires none { has_name node.now.form ≡ false }
    requires over { is_over ≡ is_over_limit raw.now number }
    ensures { result ≡ node_fault raw.now number node.now }
{
    let token = atom_fault(raw, node);
    fault_at(node.at, lowest(token, fault_if(FaultKind::Limit, is_over)))
}

// The first fault of a node with a name, of which it is known what its names are and whether it is one too many or too
// deep.
fn named_fault(
    raw: &RawKernel<'_>,
    scope: Scope<'_>,
    number: usize,
    node: &RawNode,
    name: &[u8],
    meaning: Meaning,
    is_over: bool,
) -> Option<StaticFault>
    requires some { IsTrue (has_name node.now.form) }
    requires locals { scope.locals.now ≡ locals_before raw.now.nodes.items number }
    requires blocks { AreBegun raw.now number scope.blocks.now }
    requires text { name.now ≡ text_at raw.now node.now.name }
    requires answer { meaning.answer ≡ answer_named raw.now number node.now }
    requires name { meaning.name ≡ meaning_of raw.now number name.now }
    requires over { is_over ≡ is_over_limit raw.now number }
    ensures { result ≡ node_fault raw.now number node.now }
{
    let token = lowest(
        token_fault(raw, number, node, meaning.answer),
        fault_if(FaultKind::Limit, is_over),
    );
    let called = name_fault(raw, scope, number, node, name, meaning.name);
    first_of_two(node.at, token, node.name, called)
}

// A meaning, unless there is a fault.
fn unless(fault: Option<StaticFault>, meaning: Meaning) -> Result<Meaning, StaticFault>
    ensures { MatchResult result (λ m. (fault ≡ None) × (m ≡ meaning)) (λ found. fault ≡ Some found) }
{
    match fault {
        Some(fault) => Err(fault),
        None => Ok(meaning),
    }
}

/// What the names of a node are, or its first fault. It is known whether the node is one too many or too deep.
// A name's text is read once.
pub fn look_up(
    raw: &RawKernel<'_>,
    names: &[&[u8]],
    locals: &[Local],
    blocks: &[StreamBlock],
    number: usize,
    node: &RawNode,
    is_over: bool,
) -> Result<Meaning, StaticFault>
    requires names { AreNames raw.now names.now }
    requires params { length raw.now.params.items ≤ MOST_PARAMS }
    requires few { length locals.now ≤ MOST_LOCALS }
    requires locals { locals.now ≡ locals_before raw.now.nodes.items number }
    requires blocks { AreBegun raw.now number blocks.now }
    requires over { is_over ≡ is_over_limit raw.now number }
    ensures { MatchResult result
        (λ m. (node_fault raw.now number node.now ≡ None)
        × (m.answer ≡ answer_named raw.now number node.now)
        × (m.name ≡ name_named raw.now number node.now))
        (λ fault. node_fault raw.now number node.now ≡ Some fault) }
{
    if !has_name(node.form) {
        let nothing = Meaning {
            answer: None,
            name: None,
        };
        return unless(nameless_fault(raw, number, node, is_over), nothing);
    }
    let name = text_at(raw, node.name);
    let meaning = Meaning {
        answer: answer_named(raw, names, locals, number, node),
        name: meaning_of(raw, names, locals, number, name),
    };
    let scope = Scope { locals, blocks };
    unless(
        named_fault(raw, scope, number, node, name, meaning, is_over),
        meaning,
    )
}
