//! What happens from outside: what it does to the board's parts.
ghost use Rattle.std.specs.Prelude.{◌≡◌, ◌<◌, true};
ghost use Rattle.external_event.specs.Limits.{lines};

use crate::board::Board;
use board_acts::deliver;
use call_verdicts::CallView;
use external_event::PacketBytes;
use filter_core::Packet;
use kernel_journal::Row;
use revocation_book::Pending;
use world_model::Life;

impl Board {
    ghost use Rattle.board_model.specs.Doing.{after_arrival, after_revocation, after_signal};
    ghost use Rattle.board_model.specs.Sound.{HasClaimNumbers};

    /// A packet comes: for the lowest claim whose filter matches it, or for nobody. Then it is dropped, and the ledger tells
    /// its length.
    pub(crate) fn arrive(&mut self, packet: &PacketBytes)
        requires { 0 < self.old.ledger.spare }
        ensures { self.new ≡ after_arrival self.old packet.now }
    {
        let packet = Packet::of(packet);
        match self.claims.claim_for(&packet) {
            Some(claim) => deliver(
                &mut self.frames,
                &mut self.claims,
                &mut self.roster,
                claim,
                &packet,
            ),
            None => self.journal.push(Row::Unclaimed {
                time: self.time.ticks(),
                length: packet.bytes().len() as u32,
            }),
        }
    }

    /// A signal on an interrupt line sets the line's bit in its owner's context page, if it has an owner.
    pub(crate) fn signal(&mut self, line: u8)
        requires { line < lines }
        ensures { self.new ≡ after_signal self.old line }
    {
        if let Some(owner) = self.lines.owner(line) {
            self.roster.frame(owner).signal(&mut self.frames, line);
        }
    }

    /// An environment that is there and lives is asked for so many pages more, until a deadline; if any are outstanding
    /// then, it finds in its context page how many, and until when.
    pub(crate) fn revoke(&mut self, env: u8, count: u32, deadline: u32)
        requires { 0 < self.old.ledger.spare }
        ensures { self.new ≡ after_revocation self.old env count deadline }
    {
        let Some(Life::Live) = self.life_at(u32::from(env)) else {
            return;
        };
        self.revocations.ask(env, count, deadline);
        let Some(
            Pending {
                outstanding,
                deadline,
            },
        ) = self.revocations.pending(env)
        else {
            return;
        };
        let frame = self.roster.frame(env);
        frame.ask(&mut self.frames, outstanding, deadline);
        self.journal.push(Row::Asked {
            time: self.time.ticks(),
            env,
            outstanding,
            deadline,
        });
    }

    /// Law: the numbers of the claims rise, and are below that of the next one.
    pub(crate) fn law_claim_numbers(&self)
        ensures { HasClaimNumbers self.now }
    {
        self.claims.law_numbers();
    }
}
