// The words of the command line: names of files.

ghost use Rattle.std.specs.Prelude.{◌≡◌, map, option_map, string_bytes};
ghost use Rattle.std.specs.List.{list_any};
ghost use Rattle.lint.specs.Language.{is_option, named_by};

/// The names of the files that the words name, the program's name first; None where a word is no name or there is none. A name
/// does not begin with `-`; a file whose name does can be named with a folder in front, as `./-a.pl`.
pub fn names_of(words: &[String]) -> Option<&[String]>
    ensures { option_map (λ names. map string_bytes names.now) result ≡ named_by (map string_bytes words.now) }
{
    let (_, names) = words.split_first()?;
    if names.is_empty() || has_option(names) {
        return None;
    }
    Some(names)
}

/// Whether one of the words begins with `-`.
fn has_option(words: &[String]) -> bool
    ensures { result ≡ list_any is_option (map string_bytes words.now) }
{
    for word in words {
        if is_option(word.as_bytes()) {
            return true;
        }
    }
    false
}

/// Whether a word begins with `-`.
fn is_option(word: &[u8]) -> bool
    ensures { result ≡ is_option word.now }
{
    match word.first() {
        Some(b) => *b == b'-',
        None => false,
    }
}
