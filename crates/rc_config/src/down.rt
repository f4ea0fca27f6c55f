//! Which interfaces are down.
ghost use Rattle.std.specs.Prelude.{◌≡◌, ◌↔◌, [], IsTrue};
ghost use Rattle.std.specs.Char.{is_ascii_digit};
ghost use Rattle.std.specs.List.{list_all};
ghost use Rattle.rc_config.specs.Down.{before_number, is_number, parent_of, is_down, is_down_within, IsDown};
ghost use Rattle.std.specs.Option.{option_copied, option_map};

use crate::RouterText;
use rc_base::Name;

fn are_digits(text: &[u8]) -> bool
    ensures { result ≡ list_all is_ascii_digit text.now }
{
    text.iter().all(|b| b.is_ascii_digit())
}

/// Whether a text is one or more digits.
fn is_number(text: &[u8]) -> bool
    ensures { result ≡ is_number text.now }
{
    !text.is_empty() && are_digits(text)
}

/// What stands before the last point, where only a number follows it.
fn before_number(text: &[u8]) -> Option<&[u8]>
    ensures { option_map (λ front. front.now) result ≡ before_number [] text.now }
{
    for index in 0..text.len() {
        if text[index] == b'.' && is_number(&text[index + 1..]) {
            return Some(&text[..index]);
        }
    }
    None
}

/// The name of which a name is a subinterface.
pub(crate) fn parent_of(name: &Name) -> Option<Name>
    ensures { result ≡ parent_of name.now }
{
    let front = before_number(name.as_bytes());
    match front {
        Some(front) => Name::new(front),
        None => None,
    }
}

/// Whether the interface of a name is down, over so many names.
fn is_down_within(names: usize, file: &RouterText, name: &Name) -> bool
    ensures { result ≡ is_down_within names file.now.interfaces name.now }
{
    if names == 0 {
        return false;
    }
    let found = file.interfaces.get(name);
    match found {
        None => false,
        Some(interface) => {
            if interface.shutdown {
                return true;
            }
            let parent = parent_of(name);
            match parent {
                None => false,
                Some(parent) => is_down_within(names - 1, file, &parent),
            }
        }
    }
}

impl RouterText {
    /// Whether the interface of a name is down: it is declared, and it is shut or it is a subinterface `X.n` of a declared
    /// interface that is down.
    pub fn is_down(&self, name: &Name) -> bool
        ensures value { result ≡ is_down self.now.interfaces name.now }
        ensures down { IsTrue result ↔ IsDown self.now.interfaces name.now }
    {
        // A parent's name is shorter, so there are no more names above one than it has bytes.
        is_down_within(name.as_bytes().len() + 1, self, name)
    }
}
