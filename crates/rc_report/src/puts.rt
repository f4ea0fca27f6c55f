//! Texts that are put one behind another.
//!
//! Each is a value that knows its text and puts it. So the layer above joins such values, and writes what it joined by one call.
ghost use Rattle.std.specs.Prelude.{◌≡◌, ◌++◌, List, ℕ};
ghost use Rattle.rc_outside.specs.Put.{CountsFault, IsPut};

use crate::{Buffer, SinkFault};
use rc_outside::Sink;

/// What puts a text, line by line, and takes no memory for it.
pub trait Puts: Drop {
    /// What has to hold of it before.
    ghost ready: { Self → Type 0 };

    /// That its text is this one.
    ghost says: { Self → List ℕ → Type 0 };

    /// Puts the text.
    fn put<S: Sink>(self, out: &mut S, line: &mut Buffer) -> Result<(), SinkFault>
        requires { ready self }
        ensures text { (text : List ℕ) → says self text → IsPut S.Sink out.old out.new result text }
        ensures faults { CountsFault (S.faults out.old) (S.faults out.new) result };
}

/// A text, and another one behind it.
#[derive(Drop)]
pub struct Then<A, B> {
    pub first: A,
    pub behind: B,
}

impl<A: Puts, B: Puts> Puts for Then<A, B> {
    ghost ready = { λ t. A.ready t.first × B.ready t.behind };

    ghost says = { λ t text. (x : List ℕ) × (y : List ℕ) × A.says t.first x × B.says t.behind y × (text ≡ x ++ y) };

    fn put<S: Sink>(self, out: &mut S, line: &mut Buffer) -> Result<(), SinkFault> {
        let Then { first, behind } = self;
        first.put(out, line)?;
        behind.put(out, line)
    }
}

/// No text.
#[derive(Drop)]
pub struct Nothing;

impl Puts for Nothing {
    ghost use Rattle.std.specs.Prelude.{[]};

    ghost ready = { λ n. Unit {0} };

    ghost says = { λ n text. text ≡ [] };

    fn put<S: Sink>(self, out: &mut S, line: &mut Buffer) -> Result<(), SinkFault> {
        let _ = out;
        let _ = line;
        Ok(())
    }
}
