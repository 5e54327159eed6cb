use std::alloc::{AllocError, Global};
use std::marker::Model;

/// The flags of a class: for each item in map order, whether it is saturated, that is, gets its cap. Contracts see it
/// as the list of its flags.
#[derive(Debug, Drop)]
pub struct Sat {
    flags: Vec<bool>,
}

impl Model for Sat {
    ghost use Rattle.std.specs.Prelude.{List, Bool};

    ghost Value = { List Bool };

    ghost view = { λ s. s.flags.items };
}

impl PartialEq for Sat {
    ghost use Rattle.std.proofs.Math.Bool.{beq};
    ghost use Rattle.std.specs.Cmp.{bool_eq_equiv, partial_equiv_from_equiv};
    ghost use Rattle.std.specs.Cmp.Lexicographic.{pointwise, lists_equiv};

    ghost eq = { pointwise beq };

    ghost laws = { partial_equiv_from_equiv (lists_equiv bool_eq_equiv) };

    fn eq(&self, other: &Sat) -> bool {
        self.as_slice() == other.as_slice()
    }
}

impl Eq for Sat {
    ghost use Rattle.std.specs.Cmp.{bool_eq_equiv};
    ghost use Rattle.std.specs.Cmp.Lexicographic.{lists_equiv};

    ghost laws = { lists_equiv bool_eq_equiv };
}

impl Sat {
    ghost use Rattle.std.specs.Prelude.{◌≡◌, IfOk};

    /// Makes a `Sat` of these flags. It allocates no memory.
    pub fn new(flags: Vec<bool>) -> Self
        ensures { result ≡ flags.items }
    {
        Sat { flags }
    }

    /// Flags, in map order.
    pub fn as_slice(&self) -> &[bool]
        ensures { result.now ≡ self.now }
    {
        self.flags.as_slice()
    }

    /// Makes an equal copy.
    ///
    /// # Errors
    ///
    /// `AllocError` if memory is refused.
    pub fn try_copy(&self, alloc: Global) -> Result<Self, AllocError>
        ensures { IfOk result (λ copy. copy ≡ self.now) }
    {
        let flags = Vec::from_slice(alloc, &self.flags)?;
        Ok(Sat { flags })
    }
}
