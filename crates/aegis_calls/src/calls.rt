//! Kernel calls: a call is decided, answered, and what it does is done.
ghost use Rattle.std.specs.Prelude.{◌≡◌, ◌<◌, Some, false};
ghost use Rattle.aegis_limits.specs.Limits.{environment_numbers};
ghost use Rattle.world_model.specs.declared.call.Call.TheVariants.{Accept, Bind, Context, Put, Unbind};
ghost use Rattle.world_model.specs.Call.{deed_of};
ghost use Rattle.world_model.specs.May.{May};
ghost use Rattle.aegis_calls.specs.Calls.{MayCall, is_short};

use crate::board::Board;
use board_acts::answer;
use call_verdicts::{decide, deed_of, law_again, law_granted};
use revocation_book::law_richest;
use world_model::{CALL_NUMBER, Call, Cause, Deed, EXIT, FIRST_ARGUMENT, Verdict};

impl Board {
    ghost use Rattle.board_model.specs.Doing.{after_answer, after_runner_call, after_grant, after_decision, with_one_asked};
    ghost use Rattle.board_model.specs.Showing.{world_of};

    /// The runner's call is answered.
    fn answer(&mut self, verdict: Verdict)
        ensures { self.new ≡ after_answer self.old verdict }
    {
        answer(&mut self.machine.cpu, verdict);
    }

    /// The runner's call is granted with a value, and does what it may.
    #[inline(always)]
    fn grant(&mut self, env: u8, call: Option<Call>, value: u32)
        requires call { MayCall self.old env }
        requires may { May (world_of self.old) env (deed_of call value self.old.cpu) }
        ensures { self.new ≡ after_grant self.old env value (deed_of call value self.old.cpu) }
    {
        let deed = deed_of(call, value, &self.machine.cpu);
        self.do_deed(env, value, deed);
    }

    /// The runner's call is granted with a value, and does this, which it may.
    #[inline(always)]
    fn do_deed(&mut self, env: u8, value: u32, deed: Deed)
        requires call { MayCall self.old env }
        requires may { May (world_of self.old) env deed }
        ensures { self.new ≡ after_grant self.old env value deed }
    {
        self.law_sound();
        match deed {
            Deed::Answers => {}
            Deed::Own(own) => self.do_own(env, own),
            Deed::Allocates { page, words } => self.allocate(env, page, words),
            Deed::Frees(page) => self.free(env, page),
            Deed::Recaps { page, words } => self.recap(env, page, words),
            Deed::Binds { binding, .. } => self.bind(env, binding),
            Deed::Unbinds(vpn) => self.unbind(env, vpn),
            Deed::TakesSlot(slot) => self.take_slot(env, slot),
            Deed::DropsSlot(slot) => self.drop_slot(env, slot),
            Deed::TakesLine(line) => self.set_line(line, Some(env)),
            Deed::DropsLine(line) => self.set_line(line, None),
            Deed::Claims {
                address,
                atoms,
                page,
                ..
            } => self.claim(env, address, atoms, page),
            Deed::Unclaims(claim) => self.unclaim(env, claim),
            Deed::Downloads {
                claim,
                address,
                words,
            } => self.download(env, claim, address, words),
            Deed::Loads(page) => self.load(env, page),
            Deed::Stops => {
                self.answer(Verdict::Grant(value));
                return self.stop(env);
            }
            Deed::Gives(target) => {
                self.answer(Verdict::Grant(value));
                return self.give(env, target as u8);
            }
            Deed::Transfers { target, kind } => {
                return self.transfer(env, value, target as u8, kind);
            }
        }
        self.answer(Verdict::Grant(value));
    }

    /// An environment is asked for a page within two quanta, if nothing is pending for it.
    #[inline(never)]
    fn press(&mut self, env: u8)
        requires number { env < environment_numbers }
        requires room { 0 < self.old.ledger.spare }
        ensures { self.new ≡ with_one_asked self.old env }
    {
        if self.revocations.pending(env).is_none() {
            let deadline = self.time.ticks() + 2 * self.slots.quantum();
            self.revoke(env, 1, deadline);
        }
    }

    /// A kernel call of the runner, which isn't an exit, is decided, answered, and done. It is inlined: where the call is
    /// known it is the code of that call alone.
    #[inline(always)]
    fn settle_call(&mut self, env: u8, call: Option<Call>)
        requires { MayCall self.old env }
        ensures { self.new ≡ after_decision self.old env call }
    {
        self.law_sound();
        match decide(self, env, call) {
            Verdict::Grant(value) => {
                law_granted();
                self.grant(env, call, value);
            }
            Verdict::Again(who) => {
                law_again();
                law_richest();
                self.press(who);
                self.answer(Verdict::Again(who));
            }
            refusal => self.answer(refusal),
        }
    }

    /// A put.
    #[inline(never)]
    fn settle_put(&mut self, env: u8)
        requires { MayCall self.old env }
        ensures { self.new ≡ after_decision self.old env (Some Put) }
    {
        self.settle_call(env, Some(Call::Put));
    }

    /// A bind.
    #[inline(never)]
    fn settle_bind(&mut self, env: u8)
        requires { MayCall self.old env }
        ensures { self.new ≡ after_decision self.old env (Some Bind) }
    {
        self.settle_call(env, Some(Call::Bind));
    }

    /// An unbind.
    #[inline(never)]
    fn settle_unbind(&mut self, env: u8)
        requires { MayCall self.old env }
        ensures { self.new ≡ after_decision self.old env (Some Unbind) }
    {
        self.settle_call(env, Some(Call::Unbind));
    }

    /// The call of contexts.
    #[inline(never)]
    fn settle_context(&mut self, env: u8)
        requires { MayCall self.old env }
        ensures { self.new ≡ after_decision self.old env (Some Context) }
    {
        self.settle_call(env, Some(Call::Context));
    }

    /// An accept.
    #[inline(never)]
    fn settle_accept(&mut self, env: u8)
        requires { MayCall self.old env }
        ensures { self.new ≡ after_decision self.old env (Some Accept) }
    {
        self.settle_call(env, Some(Call::Accept));
    }

    /// Any other call than the short ones, each in an arm of its own.
    #[inline(never)]
    fn settle_other(&mut self, env: u8, call: Call)
        requires may { MayCall self.old env }
        requires other { is_short call ≡ false }
        ensures { self.new ≡ after_decision self.old env (Some call) }
    {
        match call {
            Call::Yield => self.settle_call(env, Some(Call::Yield)),
            Call::Alloc => self.settle_call(env, Some(Call::Alloc)),
            Call::Free => self.settle_call(env, Some(Call::Free)),
            Call::Recap => self.settle_call(env, Some(Call::Recap)),
            Call::Transfer => self.settle_call(env, Some(Call::Transfer)),
            Call::SlotTake => self.settle_call(env, Some(Call::SlotTake)),
            Call::SlotDrop => self.settle_call(env, Some(Call::SlotDrop)),
            Call::Claim => self.settle_call(env, Some(Call::Claim)),
            Call::Unclaim => self.settle_call(env, Some(Call::Unclaim)),
            Call::Handler => self.settle_call(env, Some(Call::Handler)),
            Call::Line => self.settle_call(env, Some(Call::Line)),
            Call::Backup => self.settle_call(env, Some(Call::Backup)),
            Call::Send => self.settle_call(env, Some(Call::Send)),
            Call::OwnNumber => self.settle_call(env, Some(Call::OwnNumber)),
            Call::Clock => self.settle_call(env, Some(Call::Clock)),
            _ => unreachable!(),
        }
    }

    /// The same of any call. The short calls, which programs make most, are found first. All but the question are out of
    /// line, so that none of them pays for the host's registers that another's code needs.
    #[inline(always)]
    fn answer_call(&mut self, env: u8, call: Option<Call>)
        requires { MayCall self.old env }
        ensures { self.new ≡ after_decision self.old env call }
    {
        match call {
            Some(Call::Query) => self.settle_call(env, Some(Call::Query)),
            Some(Call::Put) => self.settle_put(env),
            Some(Call::Bind) => self.settle_bind(env),
            Some(Call::Unbind) => self.settle_unbind(env),
            Some(Call::Context) => self.settle_context(env),
            Some(Call::Accept) => self.settle_accept(env),
            Some(call) => self.settle_other(env, call),
            None => self.settle_call(env, None),
        }
    }

    /// The runner stands at a kernel call: it exits, or its call is served.
    #[inline(always)]
    pub(crate) fn take_call(&mut self, env: u8)
        requires { MayCall self.old env }
        ensures { self.new ≡ after_runner_call self.old env }
    {
        let number = self.machine.cpu.reg(CALL_NUMBER);
        if number == EXIT {
            let code = self.machine.cpu.reg(FIRST_ARGUMENT);
            return self.die(env, Cause::Exit(code));
        }
        self.answer_call(env, Call::named(number));
    }
}
