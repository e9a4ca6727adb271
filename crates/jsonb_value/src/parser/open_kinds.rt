//! The kinds of the containers that are open.

ghost use Rattle.std.specs.Prelude.{◌≤◌, length};

use crate::error::Error;
use std::alloc::Global;

/// Of each open container, whether it is an object. At most `limit` are open at once.
#[derive(Drop)]
pub struct OpenKinds {
    kinds: Vec<bool>,
    limit: usize,
    ghost within: { length kinds.items ≤ limit },
}

impl OpenKinds {
    ghost use Rattle.std.specs.Prelude.{◌≡◌, ◌<◌, ◌∷◌, [], List, Bool, OnOk, IfErr, IsTrue, ◌↔◌};
    ghost use Rattle.jsonb_value.specs.Words.{OutOfMemory};
    ghost use Rattle.jsonb_value.specs.Reader.OpenKinds.{kinds_held};
    ghost use Rattle.jsonb_value.specs.Reader.Resume.{innermost};

    /// No container is open.
    pub fn new(alloc: Global, limit: usize) -> Self
        ensures { (kinds_held result ≡ []) × (result.limit ≡ limit) }
    {
        OpenKinds {
            kinds: Vec::new(alloc),
            limit,
        }
    }

    /// Whether the innermost container is an object. `None` if no container is open.
    #[inline(always)]
    pub fn innermost(&self) -> Option<bool>
        ensures { result ≡ innermost (kinds_held self.now) }
    {
        self.kinds.last().copied()
    }

    /// Whether as many containers are open as there may be.
    #[inline(always)]
    pub fn is_full(&self) -> bool
        ensures { IsTrue result ↔ (self.now.limit ≡ length (kinds_held self.now)) }
    {
        self.kinds.len() == self.limit
    }

    /// Opens a container.
    #[inline(always)]
    pub fn push(&mut self, is_object: bool) -> Result<(), Error>
        requires { length (kinds_held self.old) < self.old.limit }
        ensures ok { OnOk result (kinds_held self.new ≡ is_object ∷ kinds_held self.old) }
        ensures limit { self.new.limit ≡ self.old.limit }
        ensures memory { IfErr result (λ e. e ≡ OutOfMemory) }
    {
        self.kinds.push(is_object)?;
        Ok(())
    }

    /// Closes the innermost container.
    #[inline(always)]
    pub fn pop(&mut self)
        ensures { ((b : Bool) (bs : List Bool) → kinds_held self.old ≡ b ∷ bs
            → kinds_held self.new ≡ bs) × (self.new.limit ≡ self.old.limit) }
    {
        let _ = self.kinds.pop();
    }
}
