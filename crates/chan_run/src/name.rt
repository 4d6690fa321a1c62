//! Naming an input in what is written of it.

ghost use Rattle.std.specs.Prelude.{◌≡◌, ◌++◌, IfOk};
ghost use Rattle.chan_run.specs.Name.{heading_of, name_before, name_in};

use std::alloc::{AllocError, Global};

/// How an input is named in what is written of it.
#[derive(Clone, Copy)]
pub struct Naming<'a> {
    /// Its name, if it has one.
    pub name: Option<&'a str>,
    /// Whether it is one of several inputs. Then its name comes also before each line beside the
    /// answer, and over a listing and over needs.
    pub is_among: bool,
}

/// The name of an input, and a colon and a space, where it has a name and it is wanted; else two
/// empty texts.
pub(crate) fn named(name: Option<&str>, wanted: bool) -> (&str, &str)
    ensures { result.0.now ++ result.1.now ≡ name_before (name_in name.entry) wanted }
{
    match name {
        Some(name) if wanted => (name, ": "),
        _ => ("", ""),
    }
}

/// The line over a listing or over needs: the name of one of several inputs, and a colon. Any other
/// input has none.
pub(crate) fn heading_of(alloc: Global, naming: Naming<'_>) -> Result<Vec<u8>, AllocError>
    ensures { IfOk result (λ heading. heading.items ≡ heading_of naming.entry) }
{
    match naming.name {
        Some(name) if naming.is_among => Ok(format!(in alloc; "{name}:\n")?.into_bytes()),
        _ => Ok(Vec::new(alloc)),
    }
}
