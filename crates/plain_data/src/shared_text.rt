//! A text that several own.

use crate::NoMemory;
use std::marker::Model;
use std::sync::Arc;

/// A text that stays as it is and whose copies take no memory, since they share its bytes. Contracts see it as their list.
#[derive(Debug, Drop)]
pub struct SharedText {
    bytes: Arc<Vec<u8>>,
}

impl Model for SharedText {
    ghost use Rattle.std.specs.Prelude.{ℕ, List};
    ghost use Rattle.std.specs.Arc.{arc_value};

    ghost Value = { List ℕ };

    ghost view = { λ text. (arc_value text.bytes).items };
}

impl SharedText {
    ghost use Rattle.std.specs.Prelude.{◌≡◌, IfOk};

    pub fn new(bytes: Vec<u8>) -> Result<SharedText, NoMemory>
        ensures { IfOk result (λ text. text ≡ bytes.items) }
    {
        let alloc = *bytes.allocator();
        Ok(SharedText {
            bytes: Arc::new(alloc, bytes)?,
        })
    }

    pub fn as_bytes(&self) -> &[u8]
        ensures { result.now ≡ self.now }
    {
        self.bytes.as_slice()
    }

    /// Another owner of the same bytes.
    pub fn try_clone(&self) -> Result<SharedText, NoMemory>
        ensures { IfOk result (λ text. text ≡ self.now) }
    {
        Ok(SharedText {
            bytes: self.bytes.clone()?,
        })
    }
}

impl PartialEq for SharedText {
    ghost use Rattle.std.specs.Prelude.{nat_eq};
    ghost use Rattle.std.specs.Cmp.{partial_equiv_from_equiv};
    ghost use Rattle.std.specs.Cmp.Lexicographic.{pointwise, nat_list_eq_equiv};

    ghost eq = { pointwise nat_eq };

    ghost laws = { partial_equiv_from_equiv nat_list_eq_equiv };

    fn eq(&self, other: &SharedText) -> bool {
        self.as_bytes() == other.as_bytes()
    }
}

impl Eq for SharedText {
    ghost use Rattle.std.specs.Cmp.Lexicographic.{nat_list_eq_equiv};

    ghost laws = { nat_list_eq_equiv };
}
