//! The names of routers and files.
ghost use Rattle.std.specs.Prelude.{◌≡◌, ◌-◌, ◌++◌, decimal, string_bytes, map, IfOk, OnOk};
ghost use Rattle.std.specs.List.{range_with_len};
ghost use Rattle.rc_generate.specs.Files.{file_name, three_digits};
ghost use Rattle.rc_generate.specs.Names.{number_in};

use rc_base::FileName;
use std::alloc::{AllocError, Global};

/// Puts a number in decimal at the end of a text.
pub(crate) fn put_number(text: &mut String, number: u32) -> Result<(), AllocError>
    ensures { OnOk result (string_bytes text.new ≡ string_bytes text.old ++ decimal number) }
{
    let mut digits = itoa::Buffer::new();
    text.push_str(digits.format(number))
}

/// Puts the three digits of a number below 1000 at the end of a text.
pub(crate) fn put_three_digits(text: &mut String, number: u32) -> Result<(), AllocError>
    ensures { OnOk result (string_bytes text.new ≡ string_bytes text.old ++ three_digits number) }
{
    put_number(text, number / 100)?;
    put_number(text, number / 10 % 10)?;
    put_number(text, number % 10)
}

/// The name of a router's file.
#[tactic(auto, unfolding(crate::specs::Files::file_name))]
fn file_name(alloc: Global, router: u32) -> Result<String, AllocError>
    ensures { IfOk result (λ name. string_bytes name ≡ file_name router) }
{
    let mut name = String::from_str(alloc, "r")?;
    put_three_digits(&mut name, router)?;
    name.push_str(".cfg")?;
    Ok(name)
}

/// The names of the files of all routers.
pub(crate) fn file_names(alloc: Global, routers: u32) -> Result<Vec<FileName>, AllocError>
    ensures { IfOk result (λ names. names.items ≡ map file_name (range_with_len 0 routers)) }
{
    let mut names = Vec::with_capacity(alloc, routers as usize)?;
    for router in 0..routers {
        let name = file_name(alloc, router)?;
        names.push(FileName::new(name))?;
    }
    Ok(names)
}

/// The value of a digit, and 0 to 207 for any other byte.
fn digit(byte: u8) -> u32
    ensures { result ≡ byte - 48 }
{
    u32::from(byte.saturating_sub(b'0'))
}

/// The number that stands in the name of a router's file.
pub(crate) fn number_in(name: &[u8]) -> u32
    ensures { result ≡ number_in name.now }
{
    match name {
        [_, hundreds, tens, ones, ..] => {
            digit(*hundreds) * 100 + digit(*tens) * 10 + digit(*ones)
        }
        _ => 0,
    }
}
