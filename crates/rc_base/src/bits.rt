//! The bits of a header, by the table of its fields.
ghost use Rattle.std.specs.Prelude.{◌≡◌, ◌<◌};
ghost use Rattle.rc_base.specs.Header as spec;

use crate::{Field, Header};

/// Whether a bit of a header is 1, by its number: field behind field, each field's most significant bit first.
pub fn header_bit(header: &Header, number: u8) -> bool
    requires { number < spec.bit_count }
    ensures { result ≡ spec.bit header.now number }
{
    let mut left = number;
    for field in Field::all() {
        let width = field.width();
        if left < width {
            return (field.of(header) >> (width - 1 - left)) % 2 == 1;
        }
        left -= width;
    }
    false
}

/// The header with a bit set to 1, by its number.
pub fn with_header_bit(header: &Header, number: u8) -> Header
    requires { number < spec.bit_count }
    ensures { result ≡ spec.set_bit header.now number }
{
    let mut left = number;
    for field in Field::all() {
        let width = field.width();
        if left < width {
            return field.with(field.of(header) | (1 << (width - 1 - left)), header);
        }
        left -= width;
    }
    *header
}

/// Whether a header has no bit that is 1.
pub fn header_is_free(header: &Header) -> bool
    ensures { result ≡ spec.is_free header.now }
{
    Field::all().iter().all(|field| field.of(header) == 0)
}

/// Each field has its own place in a header and its own bits, which are those of its number; a bit that is set changes no other; and
/// whatever the bits, a header has them.
pub fn header_laws()
    ensures apart { spec.FieldsAreApart }
    ensures read { spec.FieldsAreRead }
    ensures set { spec.BitsAreSet }
    ensures from_bits { spec.HeadersAreBits }
{}
