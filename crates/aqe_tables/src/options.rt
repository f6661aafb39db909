//! The options of a table.

ghost use Rattle.std.specs.Prelude.{◌≡◌, [], Option, option_map};
ghost use Rattle.std.specs.Str.{str_eq_ignore_ascii_case};
ghost use Rattle.aqe_tables.specs.Options.{bad_key as bad_key_of, first_byte as first_byte_of, has_header as has_header_of, has_key as has_key_of};
ghost use Rattle.aqe_tables.specs.Options.{is_header_key as is_header_key_text, is_known as is_known_option, is_same_key as is_same_key_text, is_separator as is_separator_text};
ghost use Rattle.aqe_tables.specs.Options.{is_separator_byte as is_separator_byte_code, is_separator_key as is_separator_key_text, is_true as is_true_text, is_truth as is_truth_text};
ghost use Rattle.aqe_tables.specs.Options.{separator_of as separator_of_options};

use aqe_values::Text;

/// Whether two texts are one but for the cases of ASCII letters.
pub(crate) fn is_same_word(a: &str, b: &str) -> bool
    ensures { result ≡ str_eq_ignore_ascii_case a.now b.now }
{
    a.eq_ignore_ascii_case(b)
}

fn is_header_key(key: &str) -> bool
    ensures { result ≡ is_header_key_text key.now }
{
    is_same_word(key, "header")
}

fn is_separator_key(key: &str) -> bool
    ensures { result ≡ is_separator_key_text key.now }
{
    is_same_word(key, "sep") || is_same_word(key, "delimiter")
}

fn is_same_key(a: &str, b: &str) -> bool
    ensures { result ≡ is_same_key_text a.now b.now }
{
    is_header_key(a) && is_header_key(b) || is_separator_key(a) && is_separator_key(b)
}

fn is_true(value: &str) -> bool
    ensures { result ≡ is_true_text value.now }
{
    is_same_word(value, "true")
}

fn is_truth(value: &str) -> bool
    ensures { result ≡ is_truth_text value.now }
{
    is_true(value) || is_same_word(value, "false")
}

fn is_separator_byte(byte: u8) -> bool
    ensures { result ≡ is_separator_byte_code byte }
{
    b' ' <= byte && byte <= b'~' && byte != b'"' && byte != b'\\'
}

fn is_separator(value: &str) -> bool
    ensures { result ≡ is_separator_text value.now }
{
    match value.as_bytes() {
        [byte] => is_separator_byte(*byte),
        _ => false,
    }
}

fn is_known(key: &str, value: &str) -> bool
    ensures { result ≡ is_known_option key.now value.now }
{
    is_header_key(key) && is_truth(value) || is_separator_key(key) && is_separator(value)
}

/// Whether one of these options has the key.
fn has_key(options: &[(Text, Text)], key: &str) -> bool
    ensures { result ≡ has_key_of options.now key.now }
{
    options
        .iter()
        .any(|option| is_same_key(option.0.as_str(), key))
}

/// The key of the first option that is not known or whose key came before.
///
/// Two options at most are passed, so the search among those before is short.
pub(crate) fn bad_key(options: &[(Text, Text)]) -> Option<&Text>
    ensures { option_map (λ key. key.now) result ≡ bad_key_of [] options.now }
{
    'options: for (i, option) in options.iter().enumerate() {
        let key = option.0.as_str();
        if !is_known(key, option.1.as_str()) || has_key(&options[..i], key) {
            return Some(&option.0);
        }
    }
    None
}

/// Whether the first record of each file is left out.
pub(crate) fn has_header(options: &[(Text, Text)]) -> bool
    ensures { result ≡ has_header_of options.now }
{
    options.iter().any(|option| is_header_key(option.0.as_str()) && is_true(option.1.as_str()))
}

fn first_byte(value: &str) -> u8
    ensures { result ≡ first_byte_of value.now }
{
    match value.as_bytes() {
        [byte, ..] => *byte,
        [] => b',',
    }
}

/// The byte between two fields.
pub(crate) fn separator_of(options: &[(Text, Text)]) -> u8
    ensures { result ≡ separator_of_options options.now }
{
    'options: for option in options {
        if is_separator_key(option.0.as_str()) {
            return first_byte(option.1.as_str());
        }
    }
    b','
}
