ghost use Rattle.std.specs.Prelude.{◌≡◌, ℕ, ◌<◌, ◌≤◌, Bool, [], length, MatchOption};
ghost use Rattle.std.specs.Fn.{Called};
ghost use Rattle.std.specs.Iterator.{YieldsFirstRef, item_count, at_most};
ghost use Rattle.std.specs.List.{position_or_len};
ghost use Rattle.question.specs.Stretches.{blank, with_word, words_of, line_of, after_line};

#[tactic(auto, unfolding(crate::specs::Stretches::blank))]
fn is_blank(byte: u8) -> bool
    ensures { result ≡ blank byte }
{
    byte == b' ' || byte == b'\t' || byte == b'\r'
}

// How long the stretch is before the first byte that passes a test.
fn stretch<F: FnMut(&u8) -> bool>(text: &[u8], test: F) -> usize
    requires { (state : F) (byte : _) → F.pre state byte }
    ensures within { result ≤ length text.now }
    ensures place { (p : ℕ → Bool) → ((byte : _) (b : _) (after : _) → Called F.FnMut test (byte, tt) b after → (after ≡ test) × (b ≡ p byte.now)) → result ≡ position_or_len p text.now }
{
    text.iter().position(test).unwrap_or(text.len())
}

// The first word and the text after it; an empty word where no word is left.
fn split_word(text: &[u8]) -> (&[u8], &[u8])
    ensures words { words_of text.now ≡ with_word result.0.now (words_of result.1.now) }
    ensures none { length result.0.now ≡ 0 → words_of text.now ≡ [] }
{
    let (_, from_word) = text.split_at(stretch(text, |byte| !is_blank(*byte)));
    from_word.split_at(stretch(from_word, |byte| is_blank(*byte)))
}

// The words of a text, from the front on.
#[derive(Drop)]
pub(crate) struct Words<'a> {
    pub(crate) text: &'a [u8],
}

impl<'a> Iterator for Words<'a> {
    type Item = &'a [u8];

    ghost next_gives = { YieldsFirstRef (λ words. words_of words.text.now) };

    ghost remaining = { item_count (λ words. words_of words.text.now) };

    fn next(&mut self) -> Option<&'a [u8]> {
        let (word, rest) = split_word(self.text);
        self.text = rest;
        if word.is_empty() { None } else { Some(word) }
    }
}

// The first line, without its newline, and the text after it.
pub fn split_line(text: &[u8]) -> (&[u8], &[u8])
    ensures line { result.0.now ≡ line_of text.now }
    ensures rest { result.1.now ≡ after_line text.now }
    ensures shorter { 0 < length text.now → length result.1.now < length text.now }
{
    let (line, rest) = text.split_at(stretch(text, |byte| *byte == b'\n'));
    match rest.split_first() {
        Some((_newline, after)) => (line, after),
        None => (line, rest),
    }
}

// The lines of a text, without their newlines; a newline at the end of the text begins no line.
#[derive(Drop)]
pub struct Lines<'a> {
    rest: &'a [u8],
}

impl<'a> Lines<'a> {
    pub fn of(text: &'a [u8]) -> Lines<'a>
        ensures { result.rest.now ≡ text.now }
    {
        Lines { rest: text }
    }
}

impl<'a> Iterator for Lines<'a> {
    type Item = &'a [u8];

    ghost next_gives = { λ lines next after. MatchOption next (lines.rest.now ≡ []) (λ line. (line.now ≡ line_of lines.rest.now) × (after.rest.now ≡ after_line lines.rest.now)) };

    ghost remaining = { λ lines. at_most (length lines.rest.now) };

    fn next(&mut self) -> Option<&'a [u8]> {
        if self.rest.is_empty() {
            return None;
        }
        let (line, after) = split_line(self.rest);
        self.rest = after;
        Some(line)
    }
}
