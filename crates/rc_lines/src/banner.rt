//! Banners.
ghost use Rattle.rc_lines.specs.Banners as spec;
ghost use Rattle.std.specs.Prelude.{◌≡◌, ◌==◌, ◌<◌, List, ℕ, [], length, Some, None};
ghost use Rattle.std.specs.List.{list_any};
ghost use Rattle.std.specs.Option.{option_map};
ghost use Rattle.std.specs.Str.Lines.{lines};
ghost use Rattle.rc_openings.specs.Words.{is_blank, words_of};
ghost use Rattle.rc_lines.specs.Banners.{begins_with_b, indent_of, first_is_banner, is_banner, from_word, behind_word, third_word_on, Opened, opened, opened_at, begins, holds, banner_part, part_of, left_open, open_after};

use crate::lines::first_line;
use rc_openings::Words;

/// What a line is to the reader of a file.
#[derive(Clone, Copy)]
pub enum Part {
    /// A line to be read by its own text.
    Plain,
    /// A line of a banner after its first one, of any indent: it is passed over.
    InBanner,
    /// The first line of a banner that ends.
    Banner,
    /// A banner line with fewer than three words.
    ShortBanner,
    /// The first line of a banner whose delimiter doesn't come again.
    OpenBanner,
}

/// What ends a banner.
#[derive(Clone, Copy)]
pub enum Delimiter {
    Byte(u8),
    /// The two bytes `^C`.
    ControlC,
}

/// A delimiter, and what stands behind it on its line.
#[derive(Drop)]
struct OpenedText<'a> {
    delimiter: Delimiter,
    behind: &'a [u8],
}

fn is_blank_byte(byte: u8) -> bool
    ensures { result ≡ is_blank byte }
{
    byte == b' ' || byte == b'\t'
}

/// Whether a line has no indent: its first byte is no blank, or it has none.
pub(crate) fn is_flush_text(text: &[u8]) -> bool
    ensures { result ≡ (indent_of text.now == 0) }
{
    match text {
        [first, ..] => !is_blank_byte(*first),
        [] => true,
    }
}

fn begins_with_banner(text: &[u8]) -> bool
    ensures { result ≡ first_is_banner (words_of text.now) }
{
    let mut words = Words::new(text);
    match words.next_word() {
        Some(word) => word == b"banner".as_slice(),
        None => false,
    }
}

fn begins_with_b(text: &[u8]) -> bool
    ensures { result ≡ begins_with_b text.now }
{
    match text {
        [first, ..] => *first == b'b',
        [] => false,
    }
}

/// Whether a line is a banner's first one: its first byte tells of most lines that they are none.
fn is_banner_line(text: &[u8]) -> bool
    ensures { result ≡ is_banner text.now }
{
    begins_with_b(text) && begins_with_banner(text)
}

/// The text without the blanks at its front.
fn without_blanks(text: &[u8]) -> &[u8]
    ensures { result.now ≡ from_word text.entry.now }
{
    let mut rest = text;
    while let [first, tail @ ..] = rest {
        if !is_blank_byte(*first) {
            break;
        }
        rest = tail;
    }
    rest
}

/// The text without the word at its front.
fn without_word(text: &[u8]) -> &[u8]
    ensures { result.now ≡ behind_word text.entry.now }
{
    let mut rest = text;
    while let [first, tail @ ..] = rest {
        if is_blank_byte(*first) {
            break;
        }
        rest = tail;
    }
    rest
}

fn from_third_word(text: &[u8]) -> &[u8]
    ensures { result.now ≡ third_word_on text.now }
{
    let second = without_blanks(without_word(without_blanks(text)));
    without_blanks(without_word(second))
}

impl Delimiter {
    /// The delimiter with which a text begins, and what stands behind it.
    fn opening(text: &[u8]) -> Option<OpenedText<'_>>
        ensures { option_map (λ o. record { delimiter = o.delimiter; behind = o.behind.now }) result ≡ opened_at text.now }
    {
        match text {
            [b'^', b'C', behind @ ..] => Some(OpenedText {
                delimiter: Delimiter::ControlC,
                behind,
            }),
            [byte, behind @ ..] => Some(OpenedText {
                delimiter: Delimiter::Byte(*byte),
                behind,
            }),
            [] => None,
        }
    }

    fn begins(self, text: &[u8]) -> bool
        ensures { result ≡ begins self text.now }
    {
        match (self, text) {
            (Delimiter::Byte(byte), [first, ..]) => *first == byte,
            (Delimiter::ControlC, [first, second, ..]) => *first == b'^' && *second == b'C',
            _ => false,
        }
    }

    /// Whether it stands somewhere in a text.
    fn is_in(self, text: &[u8]) -> bool
        ensures { result ≡ holds self text.now }
    {
        let mut rest = text;
        while let [_, tail @ ..] = rest {
            if self.begins(rest) {
                return true;
            }
            rest = tail;
        }
        false
    }

    /// Whether it stands in one of the lines of these bytes.
    fn is_in_lines(self, bytes: &[u8]) -> bool
        ensures { result ≡ list_any (holds self) (lines bytes.now) }
    {
        let mut rest = bytes;
        while !rest.is_empty() {
            let (text, more) = first_line(rest);
            if self.is_in(text) {
                return true;
            }
            rest = more;
        }
        false
    }
}

fn part_of_banner(text: &[u8], later: &[u8]) -> Part
    ensures { result ≡ banner_part (opened text.now) (lines later.now) }
{
    match Delimiter::opening(from_third_word(text)) {
        None => Part::ShortBanner,
        Some(opened) => {
            let delimiter = opened.delimiter;
            if delimiter.is_in(opened.behind) || delimiter.is_in_lines(later) {
                Part::Banner
            } else {
                Part::OpenBanner
            }
        }
    }
}

/// What a line is, given the delimiter of the banner that is open and the bytes after it.
fn part_at(open_banner: Option<Delimiter>, text: &[u8], later: &[u8]) -> Part
    ensures { result ≡ part_of open_banner text.now (lines later.now) }
{
    if open_banner.is_some() {
        return Part::InBanner;
    }
    if is_banner_line(text) {
        part_of_banner(text, later)
    } else {
        Part::Plain
    }
}

fn opened_by(text: &[u8]) -> Option<Delimiter>
    ensures { result ≡ left_open (opened text.now) }
{
    match Delimiter::opening(from_third_word(text)) {
        None => None,
        Some(opened) => {
            if opened.delimiter.is_in(opened.behind) {
                None
            } else {
                Some(opened.delimiter)
            }
        }
    }
}

/// The delimiter of the banner that is open after a line.
fn delimiter_after(open_banner: Option<Delimiter>, text: &[u8]) -> Option<Delimiter>
    ensures { result ≡ open_after open_banner text.now }
{
    match open_banner {
        Some(delimiter) => {
            if delimiter.is_in(text) {
                None
            } else {
                open_banner
            }
        }
        None => {
            if is_banner_line(text) {
                opened_by(text)
            } else {
                None
            }
        }
    }
}

/// What a line is, as `part_at` says, and the delimiter of the banner that is open after it. Of most lines one look tells both.
pub(crate) fn part_and_delimiter(
    open_banner: Option<Delimiter>,
    text: &[u8],
    later: &[u8],
) -> (Part, Option<Delimiter>)
    ensures part { result.0 ≡ part_of open_banner text.now (lines later.now) }
    ensures after { result.1 ≡ open_after open_banner text.now }
{
    match open_banner {
        None if !is_banner_line(text) => (Part::Plain, None),
        _ => (
            part_at(open_banner, text, later),
            delimiter_after(open_banner, text),
        ),
    }
}

/// A banner line is short, with no delimiter, exactly where it has fewer than three words.
pub fn short_banners()
    ensures { spec.ShortBannersHaveTwoWords }
{}
