//! Paths to places in a value.

ghost use Rattle.std.specs.Prelude.{◌≡◌, IfOk};
ghost use Rattle.json_form.specs.Path.{joined};

use std::alloc::{AllocError, Global};
use std::marker::Model;

/// Where a place lies in a value, as in `members[0].born`. Contracts see its bytes.
#[derive(Debug, Drop)]
pub struct Path {
    text: String,
}

impl Model for Path {
    ghost use Rattle.std.specs.Prelude.{ℕ, List, string_bytes};

    ghost Value = { List ℕ };

    ghost view = { λ path. string_bytes path.text };
}

impl Path {
    ghost use Rattle.std.specs.Prelude.{[]};

    /// The path of the value itself.
    pub fn whole(alloc: Global) -> Path
        ensures { result ≡ [] }
    {
        Path {
            text: String::new(alloc),
        }
    }

    pub fn as_str(&self) -> &str
        ensures { result.now ≡ self.now }
    {
        self.text.as_str()
    }

    /// The same place, seen from the value in which that name or position leads here.
    pub fn under(&self, alloc: Global, step: &str) -> Result<Path, AllocError>
        ensures { IfOk result (λ longer. longer ≡ joined step.now self.now) }
    {
        let mut text = step.to_string(alloc)?;
        let path = self.text.as_str();
        if !path.is_empty() && path.as_bytes()[0] != b'[' {
            text.push('.')?;
        }
        text.push_str(path)?;
        Ok(Path { text })
    }
}

impl PartialEq for Path {
    ghost use Rattle.std.specs.Prelude.{nat_eq};
    ghost use Rattle.std.specs.Cmp.{partial_equiv_from_equiv};
    ghost use Rattle.std.specs.Cmp.Lexicographic.{pointwise, nat_list_eq_equiv};

    ghost eq = { pointwise nat_eq };

    ghost laws = { partial_equiv_from_equiv nat_list_eq_equiv };

    fn eq(&self, other: &Path) -> bool {
        self.text == other.text
    }
}

impl Eq for Path {
    ghost use Rattle.std.specs.Cmp.Lexicographic.{nat_list_eq_equiv};

    ghost laws = { nat_list_eq_equiv };
}
