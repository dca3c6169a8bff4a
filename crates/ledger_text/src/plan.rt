//! Plans, and their reader.
ghost use Rattle.std.specs.Prelude.{◌≡◌, ◌<◌, ◌≤◌, ◌^◌, [], ◌∷◌, length, IfOk};
ghost use Rattle.line_text.specs.Failing.{Gives};
ghost use Rattle.ledger_text.specs.Limits.{last_environment, most_share};
ghost use Rattle.ledger_text.specs.PlanText.{client_form, client_said, from_form, next_client, plan_read, plan_seen, share_in};
ghost use Rattle.ledger_text.specs.RowText.{if_numerals};
ghost use Rattle.ledger_text.specs.Words.{spaced_words};

use crate::fault::LedgerWhy;
use crate::rows::env_in;
use crate::words::{few_words, is_numeral, number_in};
use line_text::{Failure, LineFault, TextFailure, cut, end_of};
use std::alloc::Global;

/// The first word of the scheduler's line.
const FROM: &[u8] = b"from";

/// The first word of a client's line.
const CLIENT: &[u8] = b"client";

/// The fewest clients of a plan.
const LEAST_CLIENTS: usize = 2;

/// The most clients of a plan.
const MOST_CLIENTS: usize = 8;

/// The greatest share of a client.
const MOST_SHARE: u32 = 12;

/// A plan: who hands slices on, and to whom, each with its share of them.
#[derive(Drop)]
pub struct Plan {
    /// The scheduler.
    pub from: u8,
    /// The clients by rising number, each with its share, from 1 to 12.
    pub clients: Vec<(u8, u32)>,
}

/// Reads a plan, or answers its first fault, unless memory runs out. `docs/LEDGER_AUDIT.md` has the form.
#[tactic(auto, unfolding(crate::specs::PlanText::plan_read))]
pub fn read_plan(alloc: Global, text: &[u8]) -> Result<Plan, TextFailure<LedgerWhy>>
    requires { length text.now < 2 ^ 27 }
    ensures { Gives plan_seen result (plan_read text.now) }
{
    let line = end_of(text);
    let why = LedgerWhy::Syntax;
    let short = Failure::Fault(LineFault { line, why });
    let mut lines = cut(text);
    let Some(first) = lines.next() else {
        return Err(short);
    };
    let from = match from_said(first.text) {
        Ok(from) => from,
        Err(why) => return Err(first.breaks(why)),
    };
    let mut clients = Vec::new(alloc);
    let mut least = 0;
    for line in lines {
        let client = match next_client(from, least, clients.len(), line.text) {
            Ok(client) => client,
            Err(why) => return Err(line.breaks(why)),
        };
        least = client.0 + 1;
        clients.push(client)?;
    }
    if clients.len() < LEAST_CLIENTS {
        return Err(short);
    }
    Ok(Plan { from, clients })
}

/// The scheduler's line: `from ENV`.
#[tactic(auto, using(crate::proofs::Forms::long_from))]
fn from_said(text: &[u8]) -> Result<u8, LedgerWhy>
    ensures value { result ≡ from_form (spaced_words text.now) }
    ensures within { IfOk result (λ n. n ≤ last_environment) }
{
    let Some(words) = few_words(text) else {
        return Err(LedgerWhy::Syntax);
    };
    match words.as_slice() {
        [name, env] if *name == FROM && is_numeral(env) => {
            let env = env_in(env)? as u8;
            Ok(env)
        }
        _ => Err(LedgerWhy::Syntax),
    }
}

/// The next client's line, behind so many others, whose numbers are all below the least.
fn next_client(from: u8, least: u8, others: usize, text: &[u8]) -> Result<(u8, u32), LedgerWhy>
    ensures value { result ≡ next_client from least others text.now }
    ensures within { IfOk result (λ client. client.0 ≤ last_environment) }
{
    if others >= MOST_CLIENTS {
        return Err(LedgerWhy::Syntax);
    }
    let client = client_said(text)?;
    if client.0 < least || client.0 == from {
        return Err(LedgerWhy::Range);
    }
    Ok(client)
}

/// A client's line: `client ENV SHARE`.
#[tactic(auto, using(crate::proofs::Forms::long_client))]
fn client_said(text: &[u8]) -> Result<(u8, u32), LedgerWhy>
    ensures value { result ≡ client_form (spaced_words text.now) }
    ensures within { IfOk result (λ client. client.0 ≤ last_environment) }
{
    let Some(words) = few_words(text) else {
        return Err(LedgerWhy::Syntax);
    };
    match words.as_slice() {
        [name, env, share] if *name == CLIENT => client_of(env, share),
        _ => Err(LedgerWhy::Syntax),
    }
}

/// A client and its share.
fn client_of(env: &[u8], share: &[u8]) -> Result<(u8, u32), LedgerWhy>
    ensures value { result ≡ if_numerals (env.now ∷ share.now ∷ []) (client_said env.now share.now) }
    ensures within { IfOk result (λ client. client.0 ≤ last_environment) }
{
    if !is_numeral(env) || !is_numeral(share) {
        return Err(LedgerWhy::Syntax);
    }
    let env = env_in(env)? as u8;
    let share = share_in(share)?;
    Ok((env, share))
}

/// A share, from 1 to 12.
fn share_in(word: &[u8]) -> Result<u32, LedgerWhy>
    ensures { result ≡ share_in word.now }
{
    let share = number_in(word, MOST_SHARE)?;
    if share == 0 {
        return Err(LedgerWhy::Range);
    }
    Ok(share)
}
