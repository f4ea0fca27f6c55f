//! The words of a line.
ghost use Rattle.std.specs.Prelude.{◌≡◌, ◌≤◌, false, List, [], ◌∷◌, length, drop, MatchOption};
ghost use Rattle.std.specs.List.{position_or_len};
ghost use Rattle.rc_openings.specs.Words.{words_of, words_left, first_byte, byte_behind, is_blank as blank, is_none_left, starts_blank};

/// A cursor over the words of a text: what stands between blanks, which are space and tab.
///
/// It takes no memory, and a copy of it goes over the same words again.
#[derive(Clone, Copy)]
pub struct Words<'a> {
    text: &'a [u8],
}

pub(crate) fn is_blank(byte: u8) -> bool
    ensures { result ≡ blank byte }
{
    byte == b' ' || byte == b'\t'
}

/// The text without the blanks at its front.
fn skip_blanks(text: &[u8]) -> &[u8]
    ensures same { words_of result.now ≡ words_of text.entry.now }
    ensures front { starts_blank result.now ≡ false }
{
    let mut rest = text;
    while let [first, tail @ ..] = rest {
        if !is_blank(*first) {
            break;
        }
        rest = tail;
    }
    rest
}

/// How many bytes stand before the first blank.
fn word_len(text: &[u8]) -> usize
    ensures within { result ≤ length text.now }
    ensures place { result ≡ position_or_len blank text.now }
{
    for (i, byte) in text.iter().enumerate() {
        if is_blank(*byte) {
            return i;
        }
    }
    text.len()
}

impl<'a> Words<'a> {
    /// The words of a text.
    pub fn new(text: &'a [u8]) -> Words<'a>
        ensures { words_left result ≡ words_of text.entry.now }
    {
        Words { text }
    }

    /// The next word, which is taken off.
    pub fn next_word(&mut self) -> Option<&'a [u8]>
        ensures { MatchOption result ((words_left self.old ≡ []) × (words_left self.new ≡ [])) (λ word. words_left self.old ≡ word.now ∷ words_left self.new) }
    {
        let text = skip_blanks(self.text);
        let end = word_len(text);
        self.text = &text[end..];
        if end == 0 { None } else { Some(&text[..end]) }
    }

    /// Whether no word is left.
    pub fn is_empty(mut self) -> bool
        ensures { result ≡ is_none_left (words_left self.entry) }
    {
        self.next_word().is_none()
    }

    /// The words behind the first few.
    pub fn skip(mut self, count: usize) -> Words<'a>
        ensures { words_left result ≡ drop count (words_left self.entry) }
    {
        for _ in 0..count {
            let _ = self.next_word();
        }
        self
    }

    /// The text of the words that are left, from the first of them on.
    pub(crate) fn text(self) -> &'a [u8]
        ensures { words_of result.now ≡ words_left self.entry }
    {
        skip_blanks(self.text)
    }

    /// The first byte of the next word, or 0 where there is none.
    pub(crate) fn first_byte(self) -> u8
        ensures { result ≡ first_byte (words_left self.entry) }
    {
        match skip_blanks(self.text) {
            [first, ..] => *first,
            [] => 0,
        }
    }

    /// The first byte of the word behind so many, or 0 where there is none.
    pub(crate) fn byte_behind(self, count: usize) -> u8
        ensures { result ≡ byte_behind count (words_left self.entry) }
    {
        self.skip(count).first_byte()
    }
}
