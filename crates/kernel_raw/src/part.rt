//! What each event of a kernel says of its raw form.

ghost use Rattle.std.specs.Prelude.{◌≡◌};
ghost use Rattle.kernel_raw.specs.Reading.{part_of};

use crate::RawForm;
use frame_ast::kernel::ParamKind;
use frame_grammar::Action;
use job_base::Access;

/// What an event says of the raw form of a kernel.
#[derive(Clone, Copy)]
pub enum Part {
    /// Nothing that it keeps.
    Nothing,

    // Parameters
    Access(Access),
    Container(ParamKind),
    /// The word `stream`, which stands for its container.
    Stream,
    /// The word `by`.
    Width,
    /// The parameter is whole.
    Parameter,

    // Nodes
    /// A statement begins.
    Statement,
    /// An atom begins.
    Atom,
    /// An operator, on its one side or between two.
    Operator,
    /// A Number: an atom, or the width of a parameter.
    Number,
    /// The name of the innermost open node, or of the next parameter.
    Name,
    /// The atom or the operator on its one side is whole.
    Ends(RawForm),
    /// The operator between two sides is whole.
    Joins,
    /// The statement without a block is whole.
    Closes(RawForm),
    /// The expressions of the statement with a block are whole.
    Heads,
    /// A block of the statement begins.
    Block,
    /// The statement with one block is whole.
    Nests(RawForm),
    /// The statement with two blocks is whole.
    Branches,
}

/// What an action of the grammar says, where a kernel is read.
pub fn part_of(action: Action) -> Part
    ensures { result ≡ part_of action }
{
    match action {
        Action::ReadParameter => Part::Access(Access::Read),
        Action::WriteParameter => Part::Access(Access::Write),
        Action::ReadWriteParameter => Part::Access(Access::Both),
        Action::ArrayContainer => Part::Container(ParamKind::Array),
        Action::ListContainer => Part::Container(ParamKind::List),
        Action::RefContainer => Part::Container(ParamKind::Ref),
        Action::MapContainer => Part::Container(ParamKind::Map),
        Action::StreamContainer => Part::Stream,
        Action::Width => Part::Width,
        Action::Parameter => Part::Parameter,
        Action::StartStatement => Part::Statement,
        Action::StartAtom => Part::Atom,
        Action::Operator => Part::Operator,
        Action::Number => Part::Number,
        Action::Name => Part::Name,
        Action::NumberAtom => Part::Ends(RawForm::Number),
        Action::IndexAtom => Part::Ends(RawForm::Index),
        Action::NameAtom => Part::Ends(RawForm::Name),
        Action::PlaceAtom => Part::Ends(RawForm::Element),
        Action::LenAtom => Part::Ends(RawForm::Length),
        Action::HasAtom => Part::Ends(RawForm::Has),
        Action::CountAtom => Part::Ends(RawForm::Count),
        Action::AtAtom => Part::Ends(RawForm::Item),
        Action::Unary => Part::Ends(RawForm::Unary),
        Action::Binary => Part::Joins,
        Action::VarStatement => Part::Closes(RawForm::Var),
        Action::SetName => Part::Closes(RawForm::SetName),
        Action::SetPlace => Part::Closes(RawForm::SetPlace),
        Action::SetTryAdd => Part::Closes(RawForm::SetTryAdd),
        Action::SetRemove => Part::Closes(RawForm::SetRemove),
        Action::AddItem => Part::Closes(RawForm::AddItem),
        Action::AddPair => Part::Closes(RawForm::AddPair),
        Action::RemoveStatement => Part::Closes(RawForm::Remove),
        Action::ClearStatement => Part::Closes(RawForm::Clear),
        Action::WriteStatement => Part::Closes(RawForm::Write),
        Action::BeginHead | Action::IfHead | Action::ForHead | Action::WhileHead => Part::Heads,
        Action::OpenBlock => Part::Block,
        Action::BeginStatement => Part::Nests(RawForm::Begin),
        Action::IfStatement => Part::Nests(RawForm::If),
        Action::ForStatement => Part::Nests(RawForm::For),
        Action::WhileStatement => Part::Nests(RawForm::While),
        Action::IfElseStatement => Part::Branches,
        _ => Part::Nothing,
    }
}
