//! Words that are nearly the same.

ghost use Rattle.std.specs.Prelude.{◌≡◌};
ghost use Rattle.std.specs.Cmp.Lexicographic.{pointwise};
ghost use Rattle.std.specs.Char.{eq_ignore_ascii_case};
ghost use Rattle.ga_parser.specs.Nearness.{is_within_one_edit, are_first_letters_exchanged};

/// Whether a word is a name but for one letter: one is missing, too much or another, or two that stand together are exchanged.
#[tactic(auto, unfolding(crate::specs::Nearness::is_within_one_edit))]
pub fn is_within_one_edit(word: &[u8], name: &[u8]) -> bool
    ensures { result ≡ is_within_one_edit word.now name.now }
{
    let Some((first, rest)) = word.split_first() else {
        return name.len() <= 1;
    };
    let Some((letter, more)) = name.split_first() else {
        return rest.is_empty();
    };
    if first == letter {
        return is_within_one_edit(rest, more);
    }
    rest == more || rest == name || word == more || are_first_letters_exchanged(word, name)
}

/// Whether the first two letters of two words are exchanged, and the others the same.
#[tactic(auto, unfolding(crate::specs::Nearness::are_first_letters_exchanged))]
fn are_first_letters_exchanged(word: &[u8], name: &[u8]) -> bool
    ensures { result ≡ are_first_letters_exchanged word.now name.now }
{
    match word {
        [first, second, rest @ ..] => match name {
            [other, letter, more @ ..] => first == letter && second == other && rest == more,
            _ => false,
        },
        _ => false,
    }
}

/// Whether a word is a name but for letters in upper case.
pub fn is_same_ignoring_case(word: &[u8], name: &[u8]) -> bool
    ensures { result ≡ pointwise eq_ignore_ascii_case word.now name.now }
{
    let Some((first, rest)) = word.split_first() else {
        return name.is_empty();
    };
    let Some((letter, more)) = name.split_first() else {
        return false;
    };
    first.eq_ignore_ascii_case(letter) && is_same_ignoring_case(rest, more)
}
