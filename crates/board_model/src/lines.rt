//! Whose the interrupt lines are.
ghost use Rattle.std.specs.Prelude.{◌≡◌, ◌<◌, map, slice_set};
ghost use Rattle.external_event.specs.Limits.{lines};
ghost use Rattle.world_model.specs.LineCalls.{line_without};
ghost use Rattle.board_model.specs.Lines.{free_lines, line_at};

use external_event::LINES;
use std::marker::Model;

/// The owner of each interrupt line, by its number: an environment, or nobody.
#[derive(Drop)]
pub struct Lines {
    owners: [Option<u8>; LINES as usize],
}

impl Model for Lines {
    ghost use Rattle.std.specs.Prelude.{ℕ, List, Option};

    ghost Value = { List (Option ℕ) };

    ghost view = { λ l. l.owners };
}

impl Lines {
    /// Lines that are nobody's.
    pub fn new() -> Lines
        ensures { result ≡ free_lines }
    {
        Lines {
            owners: [None; LINES as usize],
        }
    }

    /// Whose a line is, if anybody's.
    pub fn owner(&self, line: u8) -> Option<u8>
        requires { line < lines }
        ensures { result ≡ line_at self.now line }
    {
        self.owners[line as usize]
    }

    /// A line has another owner from now on, or none.
    pub fn set(&mut self, line: u8, owner: Option<u8>)
        requires { line < lines }
        ensures { self.new ≡ slice_set self.old line owner }
    {
        self.owners[line as usize] = owner;
    }

    /// The lines of an environment are nobody's from now on.
    pub fn clear(&mut self, env: u8)
        ensures { self.new ≡ map (line_without env) self.old }
    {
        clear(&mut self.owners, env);
    }
}

/// The owner of a line once an environment is gone.
fn without(env: u8, owner: Option<u8>) -> Option<u8>
    ensures { result ≡ line_without env owner }
{
    match owner {
        Some(owner) if owner == env => None,
        _ => owner,
    }
}

/// Takes its lines from an environment.
fn clear(owners: &mut [Option<u8>], env: u8)
    ensures { owners.new ≡ map (line_without env) owners.old }
{
    for owner in owners.iter_mut() {
        *owner = without(env, *owner);
    }
}
