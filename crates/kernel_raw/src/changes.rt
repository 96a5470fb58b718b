//! What is changed by a part of a kernel: the parameter that is read, or the innermost open node.

ghost use Rattle.std.specs.Prelude.{◌≡◌};
ghost use Rattle.kernel_raw.specs.Reading.{fresh, param_with, changed, is_last, is_whole, last_after};

use crate::part::Part;
use crate::{RawForm, RawNode, RawParam};
use frame_ast::kernel::ParamKind;
use frame_grammar::TokenAt;
use job_base::Access;

/// A parameter of this name of which nothing else has been read.
pub fn fresh(name: TokenAt) -> RawParam
    ensures { result ≡ fresh name }
{
    RawParam {
        name,
        kind: ParamKind::Int,
        access: Access::Read,
        word: name,
        width: None,
    }
}

/// The parameter, when this part of it has been read at this place.
pub fn param_with(part: Part, place: TokenAt, param: RawParam) -> RawParam
    ensures { result ≡ param_with part place param }
{
    match part {
        Part::Access(access) => RawParam { access, ..param },
        Part::Container(kind) => RawParam { kind, ..param },
        Part::Stream => RawParam {
            kind: ParamKind::Stream,
            word: place,
            ..param
        },
        Part::Width => RawParam {
            word: place,
            ..param
        },
        Part::Number => RawParam {
            width: Some(place),
            ..param
        },
        Part::Name => fresh(place),
        Part::Nothing
        | Part::Parameter
        | Part::Statement
        | Part::Atom
        | Part::Operator
        | Part::Ends(_)
        | Part::Joins
        | Part::Closes(_)
        | Part::Heads
        | Part::Block
        | Part::Nests(_)
        | Part::Branches => param,
    }
}

/// Changes the open node by this part of it, which has been read at this place, where so many nodes stand after it.
pub fn change_node(part: Part, place: TokenAt, behind: u32, node: &mut RawNode)
    ensures { node.new ≡ changed part place behind node.old }
{
    match part {
        Part::Name => node.name = place,
        Part::Ends(form) => {
            node.form = form;
            node.before = 0;
            node.after = behind;
        }
        Part::Joins => {
            node.form = RawForm::Binary;
            node.after = behind;
        }
        Part::Closes(form) => {
            node.form = form;
            node.after = behind;
            node.heads = behind;
        }
        Part::Heads => node.heads = behind,
        Part::Block => node.inside = behind.saturating_sub(node.heads),
        Part::Nests(form) => {
            node.form = form;
            node.after = behind;
            node.inside = behind.saturating_sub(node.heads);
        }
        Part::Branches => {
            node.form = RawForm::IfElse;
            node.after = behind;
        }
        Part::Nothing
        | Part::Access(_)
        | Part::Container(_)
        | Part::Stream
        | Part::Width
        | Part::Parameter
        | Part::Statement
        | Part::Atom
        | Part::Operator
        | Part::Number => {}
    }
}

/// Whether a node is whole with this part.
pub fn is_last(part: Part) -> bool
    ensures { result ≡ is_last part }
{
    matches!(
        part,
        Part::Ends(_) | Part::Joins | Part::Closes(_) | Part::Nests(_) | Part::Branches
    )
}

/// Whether an expression is whole with this part.
pub fn is_whole(part: Part) -> bool
    ensures { result ≡ is_whole part }
{
    matches!(part, Part::Ends(_) | Part::Joins)
}

/// The first node of the expression that was whole last, after this part of the node at this index.
pub fn last_after(part: Part, at: u32, before: u32, last: u32) -> u32
    ensures { result ≡ last_after part at before last }
{
    if is_whole(part) {
        at.saturating_sub(before)
    } else {
        last
    }
}
