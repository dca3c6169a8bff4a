//! The environments of a board.
ghost use Rattle.std.specs.Prelude.{◌≡◌, ◌≢◌, ◌<◌, ◌≤◌, ◌+◌, [], ◌∷◌, length, replicate, slice_get, Some, IfOk, IfSome};
ghost use Rattle.aegis_limits.specs.Limits.{console_size};
ghost use Rattle.external_event.specs.Limits.{most_packet_size, most_sent};
ghost use Rattle.env_frames.specs.Context.{context_number, handler_of};
ghost use Rattle.env_frames.specs.Frame.{page_of};
ghost use Rattle.env_frames.specs.Transfer.{carried, entered_cpu, entry_context};
ghost use Rattle.std.specs.Borrow.{sem};
ghost use Rattle.std.specs.Option.{option_map};
ghost use Rattle.board_model.specs.Shown.{with_record, console_of, handlers_of, mappings_of, accept_mask_of, no_output, registers_of, sent_of, with_list, with_newcomer};
ghost use Rattle.board_model.specs.Doing.{frames_after_entry, with_registers, with_mask, with_handler_at, dead_frame, with_bytes_put, with_replies_sent, with_packet_sent};

use crate::console::Console;
use crate::output::Output;
use crate::sent::Sent;
use aegis_limits::OutOfMemory;
use env_frames::{Context, Env, TransferKind};
use frame_store::Frames;
use mips_exec::Cpu;
use std::alloc::Global;
use std::marker::Model;
use world_model::{Cause, Life};

/// An environment: its name, whether it lives, its frame, and what it puts out.
#[derive(Drop)]
pub struct Environment {
    /// One to eight characters, then zeros.
    pub name: [u8; 8],
    pub life: Life,
    /// Its registers while it doesn't run, its handlers, and its guaranteed mappings.
    pub env: Env,
    /// What it wrote and sent, which stays when it dies.
    pub output: Output,
}

/// The environments by number, and empty outputs for those that will come. The memory for all is taken when the roster is
/// made.
#[derive(Drop)]
pub struct Roster {
    list: Vec<Environment>,
    spare: Vec<Output>,
}

impl Model for Roster {
    ghost use Rattle.std.specs.Prelude.{◌≡◌, ◌+◌, ◌≤◌, All, vec_len, vec_capacity};
    ghost use Rattle.board_model.specs.Shown.{Environments, no_output};

    ghost Value = { Environments };

    ghost view = { λ r. record { list = r.list.items; spare = vec_len r.spare } };

    ghost invariant = { λ r. (vec_len r.list + vec_len r.spare ≤ vec_capacity r.list) × All (λ output. output ≡ no_output) r.spare.items };
}

impl Roster {
    ghost use Rattle.board_model.specs.Lending.{LendsEnvironment};

    /// A roster with room for so many environments.
    pub fn new(alloc: Global, envs: u8) -> Result<Roster, OutOfMemory>
        ensures { IfOk result (λ r. r ≡ record { list = []; spare = envs }) }
    {
        let list = Vec::with_capacity(alloc, usize::from(envs))?;
        let spare = empty_outputs(alloc, envs)?;
        Ok(Roster { list, spare })
    }

    /// How many environments there are.
    pub fn len(&self) -> usize
        ensures { result ≡ length self.now.list }
    {
        self.list.len()
    }

    /// The environment of this number.
    pub fn at(&self, env: u8) -> &Environment
        requires { env < length self.now.list }
        ensures { slice_get self.now.list env ≡ Some result.now }
    {
        &self.list[usize::from(env)]
    }

    /// The environment of this number, to be written. All others stay as they are.
    fn record_mut(&mut self, env: u8) -> &mut Environment
        requires { env < length self.old.list }
        ensures* writes_back { sem 𝓛 (LendsEnvironment self.entry env result) }
        ensures environment { slice_get self.old.list env ≡ Some result.now }
    {
        &mut self.list[usize::from(env)]
    }

    /// The frame of the environment of this number.
    pub fn frame(&self, env: u8) -> &Env
        requires { env < length self.now.list }
        ensures mappings { result.now.mappings ≡ mappings_of self.now.list env }
        ensures registers { result.now.cpu ≡ registers_of self.now.list env }
        ensures handlers { result.now.handlers ≡ handlers_of self.now.list env }
        ensures mask { result.now.mask ≡ accept_mask_of self.now.list env }
    {
        &self.at(env).env
    }

    /// Whether the environment of this number lives, or why it died; none where there is no such environment.
    pub fn life(&self, number: u32) -> Option<Life>
        ensures { result ≡ option_map (λ x. x.life) (slice_get self.now.list number) }
    {
        let environment = self.list.get(number as usize)?;
        Some(environment.life)
    }

    /// Adds the next environment, for which there must be room: it lives, has this name and this frame, and put out
    /// nothing.
    pub fn push(&mut self, name: [u8; 8], env: Env)
        requires { 0 < self.old.spare }
        ensures { self.new ≡ with_newcomer name env self.old }
    {
        let output = self.spare.pop().unwrap();
        self.list
            .push(Environment {
                name,
                life: Life::Live,
                env,
                output,
            })
            .unwrap();
    }

    /// The console of the environment of this number.
    pub fn console(&self, env: u8) -> &Console
        requires { env < length self.now.list }
        ensures { result.now ≡ console_of self.now.list env }
    {
        &self.at(env).output.console
    }

    /// Appends bytes to the console of the environment of this number, which must have room for them.
    pub fn put(&mut self, env: u8, bytes: &[u8])
        requires there { env < length self.old.list }
        requires room { length (console_of self.old.list env) + length bytes.now ≤ console_size }
        ensures { self.new ≡ with_list self.old (with_record (with_bytes_put bytes.now) self.old.list env) }
    {
        self.record_mut(env).output.console.put(bytes);
    }

    /// The packets that the environment of this number sent.
    pub fn sent(&self, env: u8) -> &Sent
        requires { env < length self.now.list }
        ensures { result.now ≡ sent_of self.now.list env }
    {
        &self.at(env).output.sent
    }

    /// Appends a packet of these bytes to those that the environment of this number sent, which must have room for it.
    pub fn send(&mut self, env: u8, bytes: &[u8])
        requires there { env < length self.old.list }
        requires size { length bytes.now ≤ most_packet_size }
        requires room { length (sent_of self.old.list env) < most_sent }
        ensures { self.new ≡ with_list self.old (with_record (with_packet_sent bytes.now) self.old.list env) }
    {
        self.record_mut(env).output.sent.send(bytes);
    }

    /// Appends a handler's reply of these bytes to the packets that the environment of this number sent, or drops it where
    /// that has sent 256.
    pub fn reply(&mut self, env: u8, bytes: &[u8])
        requires there { env < length self.old.list }
        requires size { length bytes.now ≤ most_packet_size }
        ensures { self.new ≡ with_list self.old (with_record (with_replies_sent (bytes.now ∷ [])) self.old.list env) }
    {
        self.record_mut(env).output.sent.reply(bytes);
    }

    /// Law: no replies change nothing, since each environment holds at most 256 packets.
    pub fn law_no_reply(&self, env: u8)
        requires { env < length self.now.list }
        ensures { with_record (with_replies_sent []) self.now.list env ≡ self.now.list }
    {
        self.sent(env).law_few();
    }

    /// Keeps the registers of the environment of this number.
    pub fn keep(&mut self, env: u8, cpu: &Cpu)
        requires { env < length self.old.list }
        ensures { self.new ≡ with_list self.old (with_record (with_registers cpu.now) self.old.list env) }
    {
        self.record_mut(env).env.keep(cpu);
    }

    /// The handler of a context of the environment of this number stands at an address from now on; 0 is none.
    pub fn handle(&mut self, env: u8, context: Context, address: u32)
        requires { env < length self.old.list }
        ensures { self.new ≡ with_list self.old (with_record (with_handler_at context address) self.old.list env) }
    {
        self.record_mut(env).env.set_handler(context, address);
    }

    /// The environment of this number accepts the yields and transfers of those in this mask, and of no others.
    pub fn accept(&mut self, env: u8, mask: u32)
        requires { env < length self.old.list }
        ensures { self.new ≡ with_list self.old (with_record (with_mask mask) self.old.list env) }
    {
        self.record_mut(env).env.set_accept(mask);
    }

    /// A transfer of another's enters the environment of this number, which has an entry for its kind: the
    /// result is the registers with which it goes on, and it accepts nobody.
    pub fn enter(
        &mut self,
        env: u8,
        frames: &mut Frames,
        from: u8,
        kind: TransferKind,
        caller: &Cpu,
    ) -> Cpu
        requires there { env < length self.old.list }
        requires open { handler_of (handlers_of self.old.list env) (entry_context kind) ≢ 0 }
        requires page { IfSome (page_of (mappings_of self.old.list env) context_number) (λ page. page < length frames.old) }
        ensures cpu { result ≡ entered_cpu (handler_of (handlers_of self.old.list env) (entry_context kind)) (carried caller.now) }
        ensures frames { frames.new ≡ frames_after_entry self.old.list from env kind frames.old }
        ensures roster { self.new ≡ with_list self.old (with_record (with_mask 0) self.old.list env) }
        ensures size { length frames.new ≡ length frames.old }
    {
        self.record_mut(env).env.enter(frames, from, kind, caller)
    }

    /// The environment of this number dies: its registers and its mappings go.
    pub fn die(&mut self, env: u8, cause: Cause)
        requires { env < length self.old.list }
        ensures { self.new ≡ with_list self.old (with_record (dead_frame cause) self.old.list env) }
    {
        let environment = self.record_mut(env);
        environment.life = Life::Dead(cause);
        environment.env.clear();
    }
}

/// So many empty outputs.
fn empty_outputs(alloc: Global, count: u8) -> Result<Vec<Output>, OutOfMemory>
    ensures { IfOk result (λ outputs. outputs.items ≡ replicate count no_output) }
{
    let mut outputs = Vec::with_capacity(alloc, usize::from(count))?;
    for _ in 0..count {
        outputs.push(Output::new(alloc)?)?;
    }
    Ok(outputs)
}
