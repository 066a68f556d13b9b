//! Values by their names.

ghost use Rattle.std.specs.Prelude.{◌≡◌, ℕ, List, IfOk, OnOk, Some, if◌then◌else◌};
ghost use Rattle.std.specs.HashMap.{get};
ghost use Rattle.std.specs.Str.{bytes_eq};
ghost use Rattle.ms_built_ins.specs.BuiltIns.{or_else};
ghost use Rattle.ms_given.specs.Givings as g;
ghost use Rattle.ms_given.specs.Views.{givings_of};

use crate::source::Source;
use ms_syntax::Word;
use std::alloc::{AllocError, Global};
use std::collections::HashMap;

/// A value for a name that has none.
pub fn put(
    alloc: Global,
    map: &mut HashMap<Word, Source>,
    name: &Word,
    source: Source,
) -> Result<(), AllocError>
    ensures { OnOk result ((w : List ℕ) → get bytes_eq map.new w ≡ (if bytes_eq name.now w then Some source else get bytes_eq map.old w)) }
{
    let name = name.copy(alloc)?;
    map.insert(name, source)?;
    Ok(())
}
