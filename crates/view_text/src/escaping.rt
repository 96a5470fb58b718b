//! Texts in another language, in which each character stands for itself.
ghost use Rattle.std.specs.Prelude.{◌≡◌, ◌++◌, string_bytes, IfOk, OnOk};
ghost use Rattle.view_text.specs.Escapes.{escape_of, escaped};

use std::alloc::{AllocError, Global};

/// Where a text is to stand.
#[derive(Clone, Copy, Debug, PartialEq, Eq)]
pub(crate) enum Language {
    /// In a quoted text of Graphviz.
    Dot,
    /// In a page, as text or as the value of an attribute.
    Html,
}

fn push_char(out: &mut String, c: char, language: Language) -> Result<(), AllocError>
    ensures { OnOk result (string_bytes out.new ≡ string_bytes out.old ++ escape_of language c) }
{
    match (language, c) {
        (Language::Dot, '"') => out.push_str("\\\""),
        (Language::Dot, '\\') => out.push_str("\\\\"),
        (Language::Html, '&') => out.push_str("&amp;"),
        (Language::Html, '"') => out.push_str("&quot;"),
        (Language::Html, '<') => out.push_str("&lt;"),
        (Language::Dot | Language::Html, _) => out.push(c),
    }
}

/// A text whose characters are escaped where the language asks for it.
pub(crate) fn escape(alloc: Global, text: &str, language: Language) -> Result<String, AllocError>
    ensures { IfOk result (λ s. string_bytes s ≡ escaped language text.now) }
{
    let mut out = String::new(alloc);
    for c in text.chars() {
        push_char(&mut out, c, language)?;
    }
    Ok(out)
}
