ghost use Rattle.std.specs.Prelude.{ℕ, List, IfOk};
ghost use Rattle.cert_reader.specs.inner.Text.{Stands};

use crate::not_printed::NotPrinted;
use std::alloc::Global;

/// A value that is read where its text stands.
pub trait ReadAt: Sized {
    /// Its text.
    ghost text: { Self → List ℕ };

    /// It is in the range of its type.
    ghost in_range: { Self → Type 0 };

    /// The value whose text stands at a place, and the place behind it.
    fn read_at(alloc: Global, bytes: &[u8], at: usize) -> Result<(Self, usize), NotPrinted>
        ensures text { IfOk result (λ p. Stands bytes.now at p.1 (text p.0)) }
        ensures in_range { IfOk result (λ p. in_range p.0) };
}
