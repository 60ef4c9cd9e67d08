//! Names among those that were listed.
ghost use Rattle.std.specs.Prelude.{◌≡◌, map, true, false};
ghost use Rattle.std.specs.List.{list_any};
ghost use Rattle.std.specs.Str.{bytes_eq};
ghost use Rattle.std.specs.String.{string_bytes};
ghost use Rattle.folder_model.specs.Disk.{Among};

/// Whether a name is among those that were listed, mostly in ascending order. It wants no memory.
pub fn has_name(listed: &[String], name: &str) -> bool
    ensures lacking { result ≡ false → Among name.now (map string_bytes listed.now) → ⊥ }
    ensures having { result ≡ true → Among name.now (map string_bytes listed.now) }
{
    match listed.binary_search_by(|other| other.as_str().cmp(name)) {
        Ok(at) if listed[at].as_str() == name => true,
        _ => is_any(listed, name),
    }
}

/// Whether a name is one of these, in whatever order.
fn is_any(names: &[String], name: &str) -> bool
    ensures { result ≡ list_any (λ other. bytes_eq (string_bytes other) name.now) names.now }
{
    names.iter().any(|other| other.as_str() == name)
}
