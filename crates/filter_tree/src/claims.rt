//! The book of claims.
ghost use Rattle.std.specs.Prelude.{true, ◌≡◌, ◌<◌, ◌≤◌, ◌+◌, ◌^◌, [], is_some, IfOk};
ghost use Rattle.std.specs.Option.{option_map};
ghost use Rattle.filter_tree.specs.ClaimBook.{are_numbered, claims_in, is_of_env};
ghost use Rattle.filter_tree.specs.Prefixes.{prefixes};
ghost use Rattle.filter_tree.specs.Claims.{atom_count, claim_answer, claim_for, claim_handler, claim_held, claim_refusal, claimed, delivered, downloaded, is_claim, is_into, without};
ghost use Rattle.filter_tree.specs.Withdrawals.{is_withdrawn};

use crate::claim::{Claim, ClaimNo};
use crate::leaf::Leaf;
use crate::row::ClaimRow;
use crate::search::{MOST_CLAIMS, claim_handler, claim_held, claim_numbered, has_into, refusal};
use crate::steps::Steps;
use crate::tree::Tree;
use crate::withdrawal::{Withdrawal, download, turn, withdraw};
use aegis_limits::OutOfMemory;
use filter_core::{Filter, Packet};
use handler_rules::Handler;
use packet_ring::Buffer;
use std::alloc::Global;
use std::marker::{Brand as StepBrand, Model};
use std::sync::ledger::{Blank as StepBlank, Ledger as StepLedger};

/// The claims that stand, by rising number. Room for eight of each environment is taken at the start, so that no claim
/// takes memory.
#[derive(Drop)]
pub struct Claims {
    rows: Vec<ClaimRow>,
    tree: Tree,
    next: u64,
    envs: u8,
}

impl Model for Claims {
    ghost use Rattle.std.specs.Prelude.{vec_capacity};
    ghost use Rattle.filter_tree.specs.ClaimBook.{ClaimBook};
    ghost use Rattle.filter_tree.specs.Keeping.{IsGrown};

    ghost Value = { ClaimBook };

    ghost view = { λ c. record { rows = c.rows.items; next = c.next; envs = c.envs } };

    ghost invariant = { λ c. IsGrown (record { rows = c.rows.items; next = c.next; envs = c.envs }) (vec_capacity c.rows) c.tree };
}

impl Claims {
    /// No claims, with room for eight of each of so many environments. An `Err` says that there is no memory for them.
    pub fn new(alloc: Global, envs: u8) -> Result<Claims, OutOfMemory>
        ensures { IfOk result (λ c. c ≡ record { rows = []; next = 0; envs = envs }) }
    {
        let room = usize::from(envs) * MOST_CLAIMS;
        let rows = Vec::with_capacity(alloc, room)?;
        let tree = Tree::new(alloc, room)?;
        Ok(Claims {
            rows,
            tree,
            next: 0,
            envs,
        })
    }

    /// Claims for an environment the packets that the filter matches, into a page. The answer is the claim's number. It
    /// is refused if the environment has eight claims, and then if the filter overlaps one of another environment.
    pub fn claim(&mut self, env: u8, filter: Filter, page: u32) -> Result<u32, ClaimNo>
        requires env { env < self.old.envs }
        requires numbers { self.old.next < 2 ^ 32 }
        ensures answer { result ≡ claim_answer self.old env filter }
        ensures after { self.new ≡ claimed self.old env filter page }
    {
        if let Some(no) = self.refusal(env, &filter) {
            return Err(no);
        }
        let id = self.next as u32;
        let claim = Claim {
            id,
            env,
            page,
            next: Buffer::First,
        };
        self.tree.plant(Leaf {
            id,
            env,
            page,
            filter: filter.copy(),
        });
        self.rows
            .push(ClaimRow {
                claim,
                filter,
                handler: None,
            })
            .unwrap();
        self.next += 1;
        Ok(id)
    }

    /// Why the environment's filter is refused, if it is: the environment has eight claims, or the filter overlaps one of
    /// another's.
    pub fn refusal(&self, env: u8, filter: &Filter) -> Option<ClaimNo>
        ensures { result ≡ claim_refusal (claims_in self.now) env filter.now }
    {
        refusal(&self.rows, env, filter)
    }

    /// The number of the next claim.
    pub fn next(&self) -> u64
        ensures { result ≡ self.now.next }
    {
        self.next
    }

    /// Law: the numbers of the claims rise, and are below that of the next one.
    pub fn law_numbers(&self)
        ensures { are_numbered 0 self.now.next self.now.rows ≡ true }
    {
        let _ = &self.rows;
    }

    /// A packet of the claim of this number is in its buffer: the next one goes into the other.
    pub fn delivered(&mut self, id: u32)
        ensures { self.new ≡ delivered id self.old }
    {
        turn(&mut self.rows, id);
    }

    /// Keeps a copy of a handler with the claim of this number, in place of the one that it has; with none it has none from
    /// now on.
    pub fn download(&mut self, id: u32, handler: Option<&Handler>)
        ensures { self.new ≡ downloaded id (option_map (λ handler. handler.now) handler.entry) self.old }
    {
        download(&mut self.rows, id, handler);
    }

    /// The handler of the claim of this number, if it stands and has one.
    pub fn handler(&self, id: u32) -> Option<&Handler>
        ensures { option_map (λ handler. handler.now) result ≡ claim_handler self.now id }
    {
        claim_handler(&self.rows, id)
    }

    /// Withdraws the environment's claim of this number. The answer is whether there was one; if not, nothing changes.
    pub fn unclaim(&mut self, env: u8, id: u32) -> bool
        ensures answer { result ≡ is_some (claim_held self.old env id) }
        ensures after { self.new ≡ without (is_claim env id) self.old }
    {
        let stood = self.held(env, id).is_some();
        self.withdraw(Withdrawal::Numbered { env, id });
        stood
    }

    /// The environment's claim of this number, if it stands.
    pub fn held(&self, env: u8, id: u32) -> Option<Claim>
        ensures { result ≡ claim_held self.now env id }
    {
        claim_held(&self.rows, env, id)
    }

    /// The claim to which a packet goes: the lowest whose filter matches it. Each field that is read of the packet is a
    /// step.
    pub fn find<L: StepLedger>(&self, packet: &Packet<'_>, steps: &mut Steps<L>) -> Option<Claim>
        ensures answer { result ≡ claim_for self.now packet.now }
        ensures steps { steps.new ≤ steps.old + atom_count self.now }
        ensures prefixes { steps.new ≤ steps.old + prefixes self.now }
    {
        let id = self.tree.find(packet, steps)?;
        claim_numbered(&self.rows, id)
    }

    /// The same, where nobody counts the steps.
    pub fn claim_for(&self, packet: &Packet<'_>) -> Option<Claim>
        ensures { result ≡ claim_for self.now packet.now }
    {
        self.find_from::<StepBrand>(packet, StepBlank::new(1))
    }

    /// The same, with the steps in a ledger that is begun here.
    fn find_from<L: StepLedger>(&self, packet: &Packet<'_>, blank: StepBlank) -> Option<Claim>
        requires name { blank.name ≡ L.name }
        requires parts { blank.parts ≡ L.parts }
        requires some { 0 < L.parts }
        ensures { result ≡ claim_for self.now packet.now }
    {
        self.find(packet, &mut Steps::<L>::new(blank))
    }

    /// Withdraws the claims whose packets go into a page.
    pub fn drop_page(&mut self, page: u32)
        ensures { self.new ≡ without (is_into page) self.old }
    {
        if !has_into(&self.rows, page) {
            return;
        }
        self.withdraw(Withdrawal::IntoPage(page));
    }

    /// Withdraws the claims of an environment.
    pub fn clear_env(&mut self, env: u8)
        ensures { self.new ≡ without (is_of_env env) self.old }
    {
        self.withdraw(Withdrawal::OfEnv(env));
    }

    /// Withdraws claims.
    fn withdraw(&mut self, withdrawal: Withdrawal)
        ensures { self.new ≡ without (is_withdrawn withdrawal) self.old }
    {
        withdraw(&mut self.rows, withdrawal);
        self.tree.withdraw(withdrawal);
    }
}
