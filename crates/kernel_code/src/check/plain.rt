//! What the names of plain nodes are: of almost all nodes, of which little is asked.

ghost use Rattle.std.specs.Prelude.{◌≡◌, ◌≤◌, ℕ, length, is_none, IsTrue};
ghost use Rattle.kernel_raw.specs.RawTexts.{text_at};
ghost use Rattle.kernel_code.specs.StaticFaults.{use_fault};
ghost use Rattle.kernel_code.specs.Scopes.{locals_before};
ghost use Rattle.kernel_code.specs.Known.{AreNames, only_uses, used_name, plain_name};

use crate::check::demands::{demand_fault, loop_variable_fault, variable_fault};
use crate::check::forms::{has_name, only_uses};
use crate::check::names::{Local, Named, meaning_of};
use crate::check::nodes::atom_fault;
use crate::check::params::length_fault;
use job_base::limits::{MOST_LOCALS, MOST_PARAMS};
use kernel_raw::{RawForm, RawKernel, RawNode, text_at};

// Whether what a name stands for can be the name of a form that only uses it.
fn fits_use(raw: &RawKernel<'_>, form: RawForm, named: Option<Named>) -> bool
    requires { IsTrue (only_uses form) }
    ensures { (i : ℕ) → result ≡ is_none (use_fault raw.now i form named) }
{
    match named {
        None => false,
        Some(Named::Variable(_)) => variable_fault(form).is_none(),
        Some(Named::LoopVariable(_)) => loop_variable_fault(form).is_none(),
        Some(Named::Parameter(x)) => match raw.params.get(x as usize) {
            Some(param) => demand_fault(form, *param).is_none(),
            None => false,
        },
    }
}

// What the name of a node is that only uses it, if nothing is wrong with it.
#[inline(always)]
fn used_name(
    raw: &RawKernel<'_>,
    names: &[&[u8]],
    locals: &[Local],
    number: usize,
    node: &RawNode,
) -> Option<Option<Named>>
    requires uses { IsTrue (only_uses node.now.form) }
    requires names { AreNames raw.now names.now }
    requires params { length raw.now.params.items ≤ MOST_PARAMS }
    requires few { length locals.now ≤ MOST_LOCALS }
    requires locals { locals.now ≡ locals_before raw.now.nodes.items number }
    ensures { result ≡ used_name raw.now number node.now.form (text_at raw.now node.now.name) }
{
    let text = text_at(raw, node.name);
    let name = meaning_of(raw, names, locals, number, text);
    if fits_use(raw, node.form, name) && length_fault(text).is_none() {
        Some(name)
    } else {
        None
    }
}

/// What the name of a node is, if it has none or only uses it, and if nothing is wrong with its token and its name.
// In line, so that the loop over the nodes calls little for them.
#[inline(always)]
pub fn plain_name(
    raw: &RawKernel<'_>,
    names: &[&[u8]],
    locals: &[Local],
    number: usize,
    node: &RawNode,
) -> Option<Option<Named>>
    requires names { AreNames raw.now names.now }
    requires params { length raw.now.params.items ≤ MOST_PARAMS }
    requires few { length locals.now ≤ MOST_LOCALS }
    requires locals { locals.now ≡ locals_before raw.now.nodes.items number }
    ensures { result ≡ plain_name raw.now number node.now }
{
    if !has_name(node.form) {
        return match atom_fault(raw, node) {
            Some(_) => None,
            None => Some(None),
        };
    }
    if only_uses(node.form) {
        used_name(raw, names, locals, number, node)
    } else {
        None
    }
}
