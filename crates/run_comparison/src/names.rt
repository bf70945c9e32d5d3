//! Places of names.
ghost use Rattle.std.specs.Prelude.{◌≡◌, map, string_bytes};
ghost use Rattle.run_comparison.specs.Names.{place_of};

/// The first place of a name.
pub fn place_of(names: &[String], name: &str) -> Option<usize>
    ensures { result ≡ place_of (map string_bytes names.now) name.now }
{
    for (place, other) in names.iter().enumerate() {
        if other.as_str() == name {
            return Some(place);
        }
    }
    None
}
