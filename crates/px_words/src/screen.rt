// Words that no item can begin with are turned away before the rest is read.
ghost use Rattle.std.specs.Prelude.{◌≡◌, ◌==◌, map, position, bytes_eq, string_bytes};
ghost use Rattle.std.specs.List.{list_any};
ghost use Rattle.px_words.specs.Words.{opened, cut, begins_with_dash, is_known};
ghost use Rattle.px_words.specs.Screen.{opened_as, passes, all_pass};

use crate::options::NAMES;

/// What a word is where a name may stand.
enum Word<'a> {
    Item(&'a [u8], &'a [u8]),
    Named(&'a [u8]),
    Other,
}

/// Whether each word that begins with a dash is `--NAME` or `--NAME=VALUE`, with a name of the table.
pub fn all_pass(words: &[String]) -> bool
    ensures { result ≡ all_pass (map string_bytes words.now) }
{
    for word in words {
        if !passes(word.as_bytes()) {
            return false;
        }
    }
    true
}

fn passes(word: &[u8]) -> bool
    ensures { result ≡ passes word.now }
{
    if !begins_with_dash(word) {
        return true;
    }
    match opened(word) {
        Word::Item(name, _) => is_known(name),
        Word::Named(name) => is_known(name),
        Word::Other => false,
    }
}

fn begins_with_dash(word: &[u8]) -> bool
    ensures { result ≡ begins_with_dash word.now }
{
    matches!(word, [b'-', ..])
}

fn opened(word: &[u8]) -> Word<'_>
    ensures { opened_as result ≡ opened word.now }
{
    match word {
        [b'-', b'-', text @ ..] => cut(text),
        _ => Word::Other,
    }
}

// Cut at the first `=`.
fn cut(text: &[u8]) -> Word<'_>
    ensures { opened_as result ≡ cut text.now }
{
    match equals_sign(text) {
        Some(at) => Word::Item(&text[..at], &text[at + 1..]),
        None => Word::Named(text),
    }
}

fn equals_sign(text: &[u8]) -> Option<usize>
    ensures { result ≡ position (λ b. b == 61) text.now }
{
    text.iter().position(|byte| *byte == b'=')
}

// Whether a name is in the table.
fn is_known(name: &[u8]) -> bool
    ensures { result ≡ is_known name.now }
{
    is_one_of(&NAMES, name)
}

fn is_one_of(table: &[&str], name: &[u8]) -> bool
    ensures { result ≡ list_any (λ known. bytes_eq name.now known.now) table.now }
{
    table.iter().any(|known| name == known.as_bytes())
}
