ghost use Rattle.std.specs.Prelude.{◌≤◌, IfOk, length};
ghost use Rattle.net_base.specs.Values.{IsParty};
ghost use Rattle.ledger_types.specs.Requests.{IsNotaryAnswer};
ghost use Rattle.ledger_types.specs.Torn.{IsTornTx};

use super::columns::{let_go, value};
use super::spellings::spelling;
use anyhow::{Context, Result, bail};
use ledger_types::{Entry, NotaryAnswer, RefList, Request};
use net_base::{Identity, Moment};
use notary_book::{Book, Decision};
use signing::KeyedDigest;
use std::alloc::{AllocError, Global};
use tx_tear::{TearFault, visible};

/// What the notary replies, and the inputs that it saw.
fn decide(
    alloc: Global,
    book: &Book,
    request: &Request,
    me: &Identity,
    now: Moment,
) -> Result<(RefList, Decision)>
    ensures inputs { IsTornTx request.now.torn → IfOk result (λ p. length p.0 ≤ 64) }
    ensures answer { IsParty me.now.party → IfOk result (λ p. IsNotaryAnswer p.1.answer) }
{
    match visible(alloc, &request.torn) {
        Ok(seen) => {
            let decision = book.decide(alloc, request, Some(&seen), me, now, &KeyedDigest)?;
            Ok((seen.inputs, decision))
        }
        Err(TearFault::BadTear) => {
            let decision = book.decide(alloc, request, None, me, now, &KeyedDigest)?;
            Ok((RefList::new(alloc), decision))
        }
        Err(TearFault::Memory) => bail!("out of memory"),
    }
}

/// The same at the moment that a column tells. No answer to a request that the book has answered is fresh.
fn decide_at(
    alloc: Global,
    book: &Book,
    request: &Request,
    me: &Identity,
    now: &str,
) -> Result<(RefList, Decision)>
    ensures inputs { IsTornTx request.now.torn → IfOk result (λ p. length p.0 ≤ 64) }
    ensures answer { IsParty me.now.party → IfOk result (λ p. IsNotaryAnswer p.1.answer) }
{
    let now = Moment(now.parse::<u64>()?);
    let known = book.has_answered(request);
    let (inputs, decision) = decide(alloc, book, request, me, now)?;
    if known && decision.fresh {
        let_go(decision);
        bail!("a fresh answer to a request that was answered");
    }
    Ok((inputs, decision))
}

/// The request with what is replied to it, and whether the answer is fresh.
fn entry_of(
    alloc: Global,
    book: &Book,
    request: Request,
    me: &Identity,
    now: &str,
) -> Result<(Entry, bool)>
    ensures inputs { IsTornTx request.torn → IfOk result (λ p. length p.0.inputs ≤ 64) }
    ensures answer { IsParty me.now.party → IfOk result (λ p. IsNotaryAnswer p.0.answer) }
{
    match decide_at(alloc, book, &request, me, now) {
        Ok((inputs, Decision { answer, fresh })) => Ok((
            Entry {
                request,
                inputs,
                answer,
            },
            fresh,
        )),
        Err(error) => {
            let_go(request);
            Err(error)
        }
    }
}

/// The bytes of an answer, and `+` where it is fresh, else `-`.
fn answer_text(alloc: Global, answer: &NotaryAnswer, fresh: bool) -> Result<String>
    requires { IsNotaryAnswer answer.now }
{
    let text = hex::encode(alloc, spelling(alloc, answer)?.as_slice())?;
    let sign = if fresh { "+" } else { "-" };
    Ok(format!(in alloc; "{text}{sign}")?)
}

/// Books an entry where its answer is fresh.
fn keep(alloc: Global, book: &mut Book, entry: Entry, fresh: bool) -> Result<(), AllocError>
    requires inputs { length entry.inputs ≤ 64 }
    requires answer { IsNotaryAnswer entry.answer }
{
    if !fresh {
        let_go(entry);
        return Ok(());
    }
    match book.make_room(alloc) {
        Ok(()) => {
            book.add(entry);
            Ok(())
        }
        Err(error) => {
            let_go(entry);
            Err(error)
        }
    }
}

/// Answers a request `REQUEST@MOMENT` by the bytes of the answer, and `+` where it is fresh and so was booked, else `-`.
fn reply(alloc: Global, book: &mut Book, me: &Identity, asked: &str) -> Result<String>
    requires { IsParty me.now.party }
{
    let (request, now) = asked.split_once('@').context("a request has a moment")?;
    let request = value::<Request>(alloc, request)?;
    let (entry, fresh) = entry_of(alloc, book, request, me, now)?;
    let text = answer_text(alloc, &entry.answer, fresh);
    keep(alloc, book, entry, fresh)?;
    text
}

/// The replies to requests, one after the other over one book.
fn replies(alloc: Global, book: &mut Book, me: &Identity, requests: &[&str]) -> Result<String>
    requires { IsParty me.now.party }
{
    let mut text = String::new(alloc);
    for asked in requests {
        if !text.is_empty() {
            text.push(' ')?;
        }
        text.push_str(reply(alloc, book, me, asked)?.as_str())?;
    }
    Ok(text)
}

/// `book IDENTITY REQUEST@MOMENT ..`: what a node of this identity replies to these requests, one after the other over one book.
pub fn replies_of(alloc: Global, values: &[&str]) -> Result<String> {
    let [identity, requests @ ..] = values else {
        bail!("a book has an identity")
    };
    let me = value::<Identity>(alloc, identity)?;
    let mut book = Book::new(alloc);
    let text = replies(alloc, &mut book, &me, requests);
    let_go(book);
    text
}
