ghost use Rattle.std.specs.Prelude.{◌≡◌, option_map};
ghost use Rattle.std.specs.List.{list_any};
ghost use Rattle.cable_script.specs.Words.{first_word, after_word, is_word, is_blank, next_word, one_word, two_words, three_words, two_words_and_rest};

/// The first word of a line, and what stands behind its blank where it has one.
pub fn cut_word(line: &str) -> (&str, Option<&str>)
    ensures word { result.0.now ≡ first_word line.now }
    ensures rest { option_map (λ s. s.now) result.1 ≡ after_word line.now }
{
    match line.split_once(' ') {
        Some((word, rest)) => (word, Some(rest)),
        None => (line, None),
    }
}

fn has_blank(word: &str) -> bool
    ensures { result ≡ list_any is_blank word.now }
{
    word.as_bytes().iter().any(|b| *b == b' ')
}

fn is_word(word: &str) -> bool
    ensures { result ≡ is_word word.now }
{
    !word.is_empty() && !has_blank(word)
}

/// A word that isn't empty, and all that follows its blank.
#[tactic(auto, unfolding(crate::specs::Words::next_word))]
pub fn next_word(text: &str) -> Option<(&str, &str)>
    ensures { option_map (λ p. (p.0.now, p.1.now)) result ≡ next_word text.now }
{
    let (word, rest) = cut_word(text);
    let rest = rest?;
    if word.is_empty() {
        None
    } else {
        Some((word, rest))
    }
}

/// One word that isn't empty, and no more.
#[tactic(auto, unfolding(crate::specs::Words::one_word))]
pub fn one_word(text: &str) -> Option<&str>
    ensures { option_map (λ s. s.now) result ≡ one_word text.now }
{
    if is_word(text) { Some(text) } else { None }
}

/// Two words that aren't empty, and no more.
#[tactic(auto, unfolding(crate::specs::Words::two_words))]
pub fn two_words(text: &str) -> Option<(&str, &str)>
    ensures { option_map (λ p. (p.0.now, p.1.now)) result ≡ two_words text.now }
{
    let (first, rest) = next_word(text)?;
    let second = one_word(rest)?;
    Some((first, second))
}

/// Three words that aren't empty, and no more.
#[tactic(auto, unfolding(crate::specs::Words::three_words))]
pub fn three_words(text: &str) -> Option<(&str, &str, &str)>
    ensures { option_map (λ p. (p.0.now, p.1.now, p.2.now)) result ≡ three_words text.now }
{
    let (first, rest) = next_word(text)?;
    let (second, third) = two_words(rest)?;
    Some((first, second, third))
}

/// Two words that aren't empty, and all that follows the blank behind them.
#[tactic(auto, unfolding(crate::specs::Words::two_words_and_rest))]
pub fn two_words_and_rest(text: &str) -> Option<(&str, &str, &str)>
    ensures { option_map (λ p. (p.0.now, p.1.now, p.2.now)) result ≡ two_words_and_rest text.now }
{
    let (first, rest) = next_word(text)?;
    let (second, rest) = next_word(rest)?;
    Some((first, second, rest))
}
