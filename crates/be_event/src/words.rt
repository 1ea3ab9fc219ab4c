//! The words of a line: its parts between blanks.

ghost use Rattle.std.specs.Prelude.{◌≡◌, ◌<◌, ◌≤◌, ◌∷◌, true, false, length, take, drop, not, option_map};
ghost use Rattle.std.specs.List.{list_all};
ghost use Rattle.be_base.specs.Text.{name_of};
ghost use Rattle.be_base.specs.Tokens.{is_blank};
ghost use Rattle.be_model.specs.Schemas.{is_among_texts, all_differ};
ghost use Rattle.be_event.specs.Grammar.{is_name};
ghost use Rattle.be_event.specs.SchemaTexts.{words, begins_word};
ghost use Rattle.be_event.specs.Words.{FirstWord};

use be_base::{Name, after_blanks, is_blank};

// The first word of a text, and the text after it.
pub(crate) fn next_word(text: &[u8]) -> Option<(&[u8], &[u8])>
    ensures { FirstWord text.now (option_map (λ r. (r.0.now, r.1.now)) result) }
{
    let text = after_blanks(text);
    if text.is_empty() {
        return None;
    }
    Some(text.split_at(word_len(text)))
}

// How many bytes at the text's front are of a word.
fn word_len(text: &[u8]) -> usize
    ensures within { result ≤ length text.now }
    ensures word { list_all (λ b. not (is_blank b)) (take result text.now) ≡ true }
    ensures rest { begins_word (drop result text.now) ≡ false }
{
    for (i, b) in text.iter().enumerate() {
        if is_blank(*b) {
            return i;
        }
    }
    text.len()
}

// How many words there are.
pub(crate) fn count_words(text: &[u8]) -> usize
    ensures { result ≡ length (words text.now) }
{
    let mut count = 0;
    let mut rest = text;
    while let Some((_, after)) = next_word(rest) {
        count += 1;
        rest = after;
    }
    count
}

// Whether each word is a name.
pub(crate) fn are_names(text: &[u8]) -> bool
    ensures { result ≡ list_all (λ w. is_name (name_of w)) (words text.now) }
{
    let mut rest = text;
    while let Some((word, after)) = next_word(rest) {
        if Name::read(word).is_err() {
            return false;
        }
        rest = after;
    }
    true
}

// Whether no two words are the same.
pub(crate) fn are_different(text: &[u8]) -> bool
    ensures { result ≡ all_differ (words text.now) }
{
    let mut rest = text;
    while let Some((word, after)) = next_word(rest) {
        if is_among(word, after) {
            return false;
        }
        rest = after;
    }
    true
}

fn is_among(word: &[u8], text: &[u8]) -> bool
    ensures { result ≡ is_among_texts word.now (words text.now) }
{
    let mut rest = text;
    while let Some((other, after)) = next_word(rest) {
        if other == word {
            return true;
        }
        rest = after;
    }
    false
}
