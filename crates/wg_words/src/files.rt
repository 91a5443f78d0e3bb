ghost use Rattle.std.specs.Prelude.{◌≡◌, ◌++◌, option_map};
ghost use Rattle.std.specs.Str.{bytes_eq};
ghost use Rattle.wg_words.specs.Files.{is_file_of, is_given, overwrites};

use wg_outside::{GRAPH, OFFSETS, PROPERTIES};

// Whether the name is the first text with the second at its end.
fn is_joined(first: &str, second: &str, name: &str) -> bool
    ensures { result ≡ bytes_eq name.now (first.now ++ second.now) }
{
    match name.as_bytes().strip_prefix(first.as_bytes()) {
        Some(rest) => rest == second.as_bytes(),
        None => false,
    }
}

/// Whether the name is one of the archive's files.
pub fn is_file_of(base: &str, name: &str) -> bool
    ensures { result ≡ is_file_of base.now name.now }
{
    is_joined(base, PROPERTIES, name)
        || is_joined(base, GRAPH, name)
        || is_joined(base, OFFSETS, name)
}

// Whether the name is the one that is given, if one is.
fn is_given(name: &str, given: Option<&str>) -> bool
    ensures { result ≡ is_given name.now (option_map (λ s. s.now) given.entry) }
{
    match given {
        None => false,
        Some(given) => name == given,
    }
}

/// Whether a certificate would be written over a file of the archive or over the weights.
pub fn overwrites(base: &str, weights: Option<&str>, certificate: Option<&str>) -> bool
    ensures { result ≡ overwrites base.now (option_map (λ s. s.now) weights.entry) (option_map (λ s. s.now) certificate.entry) }
{
    let Some(certificate) = certificate else {
        return false;
    };
    is_file_of(base, certificate) || is_given(certificate, weights)
}
