//! A cube: headers told by some of their bits.
ghost use Rattle.std.specs.Prelude.{◌≡◌, ◌<◌};
ghost use Rattle.rc_base.specs.Header.{bit_count};
ghost use Rattle.rc_cubes.specs.Cubes.{all, with_test};

use rc_base::{Header, with_header_bit};

/// The headers whose bits under the mask are those of the value. The value is one of them: the example, with 0 in each bit that the mask
/// leaves free. A field is tested where its mask isn't 0.
#[derive(Clone, Copy)]
pub struct Cube {
    pub value: Header,
    pub mask: Header,
}

impl Cube {
    /// The cube of all headers.
    pub fn all() -> Cube
        ensures { result ≡ all }
    {
        Cube {
            value: Header::zeros(),
            mask: Header::zeros(),
        }
    }

    /// The cube again.
    pub fn copy(&self) -> Cube
        ensures { result ≡ self.now }
    {
        Cube {
            value: self.value,
            mask: self.mask,
        }
    }

    /// A cube that tests one bit more.
    #[tactic(auto, unfolding(crate::specs::Cubes::with_test))]
    pub fn with_test(&self, place: u8, bit: bool) -> Cube
        requires { place < bit_count }
        ensures { result ≡ with_test place bit self.now }
    {
        Cube {
            value: if bit {
                with_header_bit(&self.value, place)
            } else {
                self.value
            },
            mask: with_header_bit(&self.mask, place),
        }
    }
}
