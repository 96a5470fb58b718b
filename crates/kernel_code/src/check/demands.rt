//! What forms need of their names.

ghost use Rattle.std.specs.Prelude.{◌≡◌, is_some, IfSome};
ghost use Rattle.frame_ast.specs.declared.kernel.ParamKind.{ParamKind};
ghost use Rattle.kernel_code.specs.StaticFaults.{demand_of, demand_fault, variable_fault, loop_variable_fault, answer_kind_fault, number_of, lowest};
ghost use Rattle.frame_ast.specs.Lists.{some_if};

use frame_ast::kernel::{FaultKind, ParamKind};
use job_base::Access;
use kernel_raw::{RawForm, RawParam};

// Whether a parameter of a kind may be the name of a form.
fn fits(form: RawForm, kind: ParamKind) -> bool
    ensures { result ≡ is_some (demand_of form kind) }
{
    match form {
        RawForm::Name | RawForm::SetName => matches!(kind, ParamKind::Int | ParamKind::Ref),
        RawForm::Element | RawForm::SetPlace => {
            matches!(kind, ParamKind::Array | ParamKind::List | ParamKind::Map)
        }
        RawForm::Length => !matches!(kind, ParamKind::Int | ParamKind::Ref),
        RawForm::Has | RawForm::SetTryAdd | RawForm::SetRemove | RawForm::AddPair => {
            matches!(kind, ParamKind::Map)
        }
        RawForm::Count | RawForm::Item | RawForm::Write | RawForm::Begin => {
            matches!(kind, ParamKind::Stream)
        }
        RawForm::AddItem | RawForm::Remove => matches!(kind, ParamKind::List),
        RawForm::Clear => matches!(kind, ParamKind::List | ParamKind::Map),
        RawForm::Number
        | RawForm::Index
        | RawForm::Unary
        | RawForm::Binary
        | RawForm::Var
        | RawForm::If
        | RawForm::IfElse
        | RawForm::For
        | RawForm::While => false,
    }
}

// Whether a form reads a parameter of a kind that is its name.
fn reads(form: RawForm, kind: ParamKind) -> bool
    ensures { IfSome (demand_of form kind) (λ t. result ≡ t.reads) }
{
    match form {
        RawForm::Name
        | RawForm::Element
        | RawForm::Has
        | RawForm::Count
        | RawForm::Item
        | RawForm::SetTryAdd
        | RawForm::SetRemove => true,
        RawForm::Length => matches!(kind, ParamKind::List | ParamKind::Map),
        RawForm::Number
        | RawForm::Index
        | RawForm::Unary
        | RawForm::Binary
        | RawForm::Var
        | RawForm::SetName
        | RawForm::SetPlace
        | RawForm::AddItem
        | RawForm::AddPair
        | RawForm::Remove
        | RawForm::Clear
        | RawForm::Write
        | RawForm::Begin
        | RawForm::If
        | RawForm::IfElse
        | RawForm::For
        | RawForm::While => false,
    }
}

// Whether a form writes the parameter that is its name.
fn writes(form: RawForm) -> bool
    ensures { (kind : ParamKind) → IfSome (demand_of form kind) (λ t. result ≡ t.writes) }
{
    match form {
        RawForm::SetName
        | RawForm::SetPlace
        | RawForm::SetTryAdd
        | RawForm::SetRemove
        | RawForm::AddItem
        | RawForm::AddPair
        | RawForm::Remove
        | RawForm::Clear
        | RawForm::Write
        | RawForm::Begin => true,
        RawForm::Number
        | RawForm::Index
        | RawForm::Name
        | RawForm::Element
        | RawForm::Length
        | RawForm::Has
        | RawForm::Count
        | RawForm::Item
        | RawForm::Unary
        | RawForm::Binary
        | RawForm::Var
        | RawForm::If
        | RawForm::IfElse
        | RawForm::For
        | RawForm::While => false,
    }
}

/// Why a parameter can't be the name of a form.
// In line, since almost all calls are those of one loop.
#[inline(always)]
pub fn demand_fault(form: RawForm, param: RawParam) -> Option<FaultKind>
    ensures { result ≡ demand_fault (demand_of form) param }
{
    if !fits(form, param.kind) {
        return Some(FaultKind::KindMismatch);
    }
    match param.access {
        Access::Read => fault_if(FaultKind::WriteOfReadOnly, writes(form)),
        Access::Write => fault_if(FaultKind::ReadOfWriteOnly, reads(form, param.kind)),
        Access::Both => None,
    }
}

/// Why a local of a `var` can't be the name of a form.
pub fn variable_fault(form: RawForm) -> Option<FaultKind>
    ensures { result ≡ variable_fault form }
{
    match form {
        RawForm::Name | RawForm::SetName => None,
        RawForm::Number
        | RawForm::Index
        | RawForm::Element
        | RawForm::Length
        | RawForm::Has
        | RawForm::Count
        | RawForm::Item
        | RawForm::Unary
        | RawForm::Binary
        | RawForm::Var
        | RawForm::SetPlace
        | RawForm::SetTryAdd
        | RawForm::SetRemove
        | RawForm::AddItem
        | RawForm::AddPair
        | RawForm::Remove
        | RawForm::Clear
        | RawForm::Write
        | RawForm::Begin
        | RawForm::If
        | RawForm::IfElse
        | RawForm::For
        | RawForm::While => Some(FaultKind::KindMismatch),
    }
}

/// Why a local of a `for` can't be the name of a form: it isn't written, and is else as one of a `var`.
pub fn loop_variable_fault(form: RawForm) -> Option<FaultKind>
    ensures { result ≡ loop_variable_fault form }
{
    if matches!(form, RawForm::SetName) {
        Some(FaultKind::WriteOfReadOnly)
    } else {
        variable_fault(form)
    }
}

/// Why a parameter can't stand before an effect.
pub fn answer_kind_fault(kind: ParamKind) -> Option<FaultKind>
    ensures { result ≡ answer_kind_fault kind }
{
    match kind {
        ParamKind::Int => Some(FaultKind::WriteOfReadOnly),
        ParamKind::Array | ParamKind::List | ParamKind::Ref | ParamKind::Map | ParamKind::Stream =>
            Some(FaultKind::KindMismatch),
    }
}

/// A fault where a test holds.
pub fn fault_if(kind: FaultKind, holds: bool) -> Option<FaultKind>
    ensures { result ≡ some_if holds kind }
{
    if holds { Some(kind) } else { None }
}

fn number_of(kind: FaultKind) -> u8
    ensures { result ≡ number_of kind }
{
    match kind {
        FaultKind::Syntax => 1,
        FaultKind::UnknownName => 2,
        FaultKind::DuplicateName => 3,
        FaultKind::KindMismatch => 4,
        FaultKind::ReadOfWriteOnly => 5,
        FaultKind::WriteOfReadOnly => 6,
        FaultKind::Limit => 7,
        FaultKind::TooLong => 8,
    }
}

/// Of two faults of one token, the one of the lower number.
pub fn lowest(a: Option<FaultKind>, b: Option<FaultKind>) -> Option<FaultKind>
    ensures { result ≡ lowest a b }
{
    match (a, b) {
        (Some(a), Some(b)) => {
            if number_of(a) <= number_of(b) {
                Some(a)
            } else {
                Some(b)
            }
        }
        (Some(a), None) => Some(a),
        (None, b) => b,
    }
}
