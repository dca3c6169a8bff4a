//! Whose a slot is, and who runs in it.
ghost use Rattle.std.specs.Prelude.{◌≡◌, Some};
ghost use Rattle.world_model.specs.Book.{has_part, hold_without, own_hold};
ghost use Rattle.world_model.specs.SlotCalls.{dropped, held_by, holds};

/// Whose a slot is, and who runs in it.
#[derive(Clone, Copy)]
pub struct Hold {
    pub owner: u8,
    pub holder: u8,
}

impl Hold {
    /// A slot that its owner holds.
    pub fn own(owner: u8) -> Hold
        ensures { result ≡ own_hold owner }
    {
        let holder = owner;
        Hold { owner, holder }
    }

    /// Whether the environment holds the slot.
    pub fn is_held_by(self, env: u8) -> bool
        ensures { result ≡ holds env (Some self) }
    {
        self.holder == env
    }

    /// Whether the environment owns or holds the slot.
    pub fn has_part(self, env: u8) -> bool
        ensures { result ≡ has_part env (Some self) }
    {
        self.owner == env || self.holder == env
    }

    /// The slot with another holder; its owner stays.
    pub fn held_by(self, holder: u8) -> Hold
        ensures { result ≡ held_by holder self }
    {
        Hold { holder, ..self }
    }

    /// The slot once the environment, its holder, has dropped it.
    pub fn dropped_by(self, env: u8) -> Option<Hold>
        ensures { result ≡ dropped env (Some self) }
    {
        if self.owner == env {
            None
        } else {
            Some(Hold::own(self.owner))
        }
    }

    /// The slot once the environment is gone.
    pub fn without(self, env: u8) -> Option<Hold>
        ensures { result ≡ hold_without env (Some self) }
    {
        if self.owner == env {
            None
        } else if self.holder == env {
            Some(Hold::own(self.owner))
        } else {
            Some(self)
        }
    }
}
