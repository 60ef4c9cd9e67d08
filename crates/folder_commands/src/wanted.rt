//! Which names of a folder are read as parts, and which of these go.
ghost use Rattle.std.specs.Prelude.{◌≡◌, map, filter, string_bytes, IfOk};
ghost use Rattle.std.specs.List.{list_any};
ghost use Rattle.table_model.specs.Identifier.{same_text};
ghost use Rattle.folder_commands.specs.Wanted.{is_wanted, goes};

use folder_parts::is_part_name;
use std::alloc::{AllocError, Global};
use table_model::same_text;

/// Whether a name is among others.
fn is_among(names: &[String], name: &str) -> bool
    ensures { result ≡ list_any (λ other. same_text (string_bytes other) name.now) names.now }
{
    names
        .iter()
        .any(|other| same_text(other.as_bytes(), name.as_bytes()))
}

/// Whether the file of a name is read as a part, if some names are passed over.
#[tactic(auto, unfolding(crate::specs::Wanted::is_wanted))]
pub(crate) fn is_wanted(passed: &[String], name: &str) -> bool
    ensures { result ≡ is_wanted (map string_bytes passed.now) name.now }
{
    is_part_name(name) && !is_among(passed, name)
}

/// Whether the part of a name goes once the part of another name has taken its place.
fn goes(passed: &[String], new: &str, name: &str) -> bool
    ensures { result ≡ goes (map string_bytes passed.now) new.now name.now }
{
    is_wanted(passed, name) && !same_text(name.as_bytes(), new.as_bytes())
}

/// Those of these names whose parts go once the part of another name has taken their place.
pub(crate) fn going(
    alloc: Global,
    passed: &[String],
    new: &str,
    names: &[String],
) -> Result<Vec<String>, AllocError>
    ensures { IfOk result (λ gone. map string_bytes gone.items ≡ filter (goes (map string_bytes passed.now) new.now) (map string_bytes names.now)) }
{
    let mut gone = Vec::new(alloc);
    for index in 0..names.len() {
        let name = names[index].as_str();
        if goes(passed, new, name) {
            gone.push(String::from_str(alloc, name)?)?;
        }
    }
    Ok(gone)
}
