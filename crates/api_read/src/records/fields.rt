//! The names of the fields that a query string asks for.

ghost use Rattle.std.specs.Prelude.{◌≡◌, IfOk};
ghost use Rattle.std.specs.Str.{chars};
ghost use Rattle.form_urlencoded.specs.Form.{split};
ghost use Rattle.model_reads.specs.RecordJson.{fields_text};

use base_value::{Items, Text};
use form_urlencoded::parse;
use std::alloc::{AllocError, Global};

/// The value of the first pair `fields` of a query string, if there is one.
///
/// # Errors
///
/// When out of memory.
pub(crate) fn fields_text(alloc: Global, pairs: &Text) -> Result<Option<Text>, AllocError>
    ensures { IfOk result (λ text. text ≡ fields_text pairs.now) }
{
    for pair in parse(alloc, pairs.as_str().as_bytes()) {
        let (name, value) = pair?;
        if name.as_str() == "fields" {
            let text = value.into_owned(alloc)?;
            return Ok(Some(Text::from_string(text)));
        }
    }
    Ok(None)
}

/// The names between the commas of a text.
///
/// # Errors
///
/// When out of memory.
pub(crate) fn split_names(alloc: Global, text: &str) -> Result<Items<Text>, AllocError>
    ensures { IfOk result (λ names. names ≡ split 44 (chars text.now)) }
{
    let mut names = Items::new(alloc);
    let mut last = String::new(alloc);
    'characters: for c in text.chars() {
        if c == ',' {
            names.push(Text::from_string(last))?;
            last = String::new(alloc);
        } else {
            last.push(c)?;
        }
    }
    names.push(Text::from_string(last))?;
    Ok(names)
}
