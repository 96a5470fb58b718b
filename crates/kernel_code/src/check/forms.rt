//! What forms do with names: which have one, declare one, answer to one, and only use one.

ghost use Rattle.std.specs.Prelude.{◌≡◌};
ghost use Rattle.kernel_code.specs.Known.{has_name, has_answer, only_uses};
ghost use Rattle.kernel_code.specs.Scopes.{declares, is_loop, is_begin};

use kernel_raw::RawForm;

/// Whether a form has a name.
pub fn has_name(form: RawForm) -> bool
    ensures { result ≡ has_name form }
{
    !matches!(
        form,
        RawForm::Number
            | RawForm::Index
            | RawForm::Unary
            | RawForm::Binary
            | RawForm::If
            | RawForm::IfElse
            | RawForm::While
    )
}

/// Whether a form begins with the local that an effect answers to.
pub fn has_answer(form: RawForm) -> bool
    ensures { result ≡ has_answer form }
{
    matches!(form, RawForm::SetTryAdd | RawForm::SetRemove)
}

/// Whether a form declares its name.
pub fn declares(form: RawForm) -> bool
    ensures { result ≡ declares form }
{
    matches!(form, RawForm::Var | RawForm::For)
}

/// Whether a form declares its name for its own block.
pub fn is_loop(form: RawForm) -> bool
    ensures { result ≡ is_loop form }
{
    matches!(form, RawForm::For)
}

/// Whether a form is the block of a stream.
pub fn is_begin(form: RawForm) -> bool
    ensures { result ≡ is_begin form }
{
    matches!(form, RawForm::Begin)
}

/// Whether a form only uses its name: it neither declares nor answers to it, and no block says whether it fits.
pub fn only_uses(form: RawForm) -> bool
    ensures { result ≡ only_uses form }
{
    matches!(
        form,
        RawForm::Name
            | RawForm::Element
            | RawForm::Length
            | RawForm::Has
            | RawForm::Count
            | RawForm::Item
            | RawForm::SetName
            | RawForm::SetPlace
            | RawForm::AddItem
            | RawForm::AddPair
            | RawForm::Remove
            | RawForm::Clear
    )
}
