//! A flow set of one machine, which performs a list of acts that it is handed.

ghost use Rattle.std.specs.Prelude.{◌≡◌, ◌≤◌, ◌<◌, ◌^◌, ◌∷◌, length, IfOk};
ghost use Rattle.flow_machine.specs.Tags.{answer_tags, resumed_tags, value_tags};
ghost use Rattle.node_acts.specs.Script.{act_cost, asked, called, fails, filled, follows, ids_shown, load, number_shown, paid, shown, steps, tagged, verdict_number};

use flow_machine::{Act, FlowSet, MakeFault, Place, Resumed, WordFault};
use ledger_types::{NotaryAnswer, Request, SignedTx, TagList, Value, Verdict};
use net_base::{
    Boxed, ByteList, Hash32, Key, ListOf, PartFault, Reader, Spelt, Tag, TryCopy, Writer,
    read_bytes16, write_bytes16,
};
use std::alloc::{AllocError, Global};

/// A frame: the acts that are to come, as bytes behind a first one; no byte where it is over.
///
/// A flow of class 1 is made of acts, one behind the other as they stand in a checkpoint. It performs them in turn, whatever is answered.
/// Behind the last one it returns the last answer as a value: values, transactions, tags and a notary's answers as they are, and all
/// else as a number, which is the answer's own in the order of `Resumed`, times 100,000, and its code or count.
///
/// A flow that answers an Init of class 2 takes one item, and returns what that was.
///
/// No machine makes tags. So an act that has some takes those of the answer before it in place of its own. A frame fails with 70 where
/// the bytes are no act, with 71 where there is no tag for a request, and with 72 where a subflow is over before it begins.
#[derive(Drop)]
pub struct Script(pub ByteList);

type Next = (Script, Act<Script>);

#[tactic(auto, unfolding(crate::specs::Script::script_at))]
impl Spelt for Script {
    ghost use Rattle.node_acts.specs.Script.{IsScript, script_text, script_at};
    ghost use Rattle.node_acts.specs.ScriptLaws.{script_laws};

    ghost exact = { ⊥ };

    ghost spelling = { script_text };

    ghost within = { IsScript };

    ghost reading = { script_at };

    ghost laws = { script_laws };

    fn read_part(alloc: Global, from: &mut Reader) -> Result<Script, PartFault> {
        Ok(Script(read_bytes16(alloc, from, 32768)?))
    }

    fn write_part(&self, alloc: Global, out: &mut Writer) -> Result<(), AllocError> {
        write_bytes16(alloc, &self.0, out)
    }
}

/// The number of a verdict.
fn verdict_number(verdict: &Verdict) -> u64
    ensures { result ≡ verdict_number verdict.now }
{
    match verdict {
        Verdict::Accepted => 0,
        Verdict::Broken { rule } => 1000 + u64::from(*rule),
        Verdict::NoContract { id } => 2000 + u64::from(*id),
        Verdict::Refused { contract, clause } => {
            3000 + u64::from(*contract) * 256 + u64::from(*clause)
        }
    }
}

/// One id as itself, any other count as a number.
fn ids_shown(list: &[Hash32]) -> Value
    ensures { result ≡ ids_shown list.now }
{
    match list {
        [] => Value::Number(1_400_000),
        [id] => Value::Id(*id),
        [_, _, more @ ..] => Value::Number(1_400_002 + more.len().min(1000) as u64),
    }
}

/// An answer that is no value, no transaction, no tag and none of a notary, as a number.
fn number_shown(with: &Resumed) -> u64
    ensures { result ≡ number_shown with.now }
{
    match with {
        Resumed::Opened { .. } => 100_000,
        Resumed::Sent => 200_000,
        Resumed::Rejected { code } => 400_000 + u64::from(*code),
        Resumed::Failed { code } => 500_000 + u64::from(*code),
        Resumed::Ended => 600_000,
        Resumed::Lapsed => 700_000,
        Resumed::Started => 800_000,
        Resumed::Verdict { verdict } => 900_000 + verdict_number(verdict),
        Resumed::Coins { list } => 1_000_000 + list.len().min(1000) as u64,
        Resumed::Short { have } => 1_100_000 + (*have).min(1_000_000_000) as u64,
        Resumed::Absent => 1_300_000,
        Resumed::Recorded => 1_700_000,
        Resumed::Refused { code } => 1_900_000 + u64::from(*code),
        _ => 0,
    }
}

/// An answer as a value.
fn shown(alloc: Global, with: &Resumed) -> Result<Value, AllocError>
    ensures { IfOk result (λ v. v ≡ shown with.now) }
{
    match with {
        Resumed::Got { value } | Resumed::Returned { value } => value.copy(alloc),
        Resumed::Found { stx } => Ok(Value::Tx(stx.try_copy(alloc)?)),
        Resumed::Ids { list } => Ok(ids_shown(list.as_slice())),
        Resumed::Tagged { tag } => Ok(Value::Tags(ListOf::from_slice(alloc, &[*tag])?)),
        Resumed::Answer { answer } => Ok(Value::Answer(answer.try_copy(alloc)?)),
        _ => Ok(Value::Number(number_shown(with))),
    }
}

/// The tags of a notary's answer.
fn answer_tags(alloc: Global, answer: &NotaryAnswer) -> Result<TagList, AllocError>
    ensures { IfOk result (λ tags. tags ≡ answer_tags answer.now) }
{
    match answer {
        NotaryAnswer::Signed { tag } => ListOf::from_slice(alloc, &[*tag]),
        _ => Ok(ListOf::new(alloc)),
    }
}

/// The tags of a value.
fn value_tags(alloc: Global, value: &Value) -> Result<TagList, AllocError>
    ensures { IfOk result (λ tags. tags ≡ value_tags value.now) }
{
    match value {
        Value::Tx(stx) => stx.get().tags.copy(alloc),
        Value::Request(request) => ListOf::from_slice(alloc, &[request.get().tag]),
        Value::Answer(answer) => answer_tags(alloc, answer.get()),
        Value::Tags(tags) => tags.copy(alloc),
        _ => Ok(ListOf::new(alloc)),
    }
}

/// The tags of an answer.
fn resumed_tags(alloc: Global, with: &Resumed) -> Result<TagList, AllocError>
    ensures { IfOk result (λ tags. tags ≡ resumed_tags with.now) }
{
    match with {
        Resumed::Got { value } | Resumed::Returned { value } => value_tags(alloc, value),
        Resumed::Found { stx } => stx.get().tags.copy(alloc),
        Resumed::Tagged { tag } => ListOf::from_slice(alloc, &[*tag]),
        Resumed::Answer { answer } => answer_tags(alloc, answer.get()),
        _ => Ok(ListOf::new(alloc)),
    }
}

/// The transaction with these tags in place of its own.
fn signed(alloc: Global, stx: Boxed<SignedTx>, tags: TagList) -> Result<Boxed<SignedTx>, AllocError>
    ensures { IfOk result (λ s. s ≡ record { tx = stx.tx; tags = tags }) }
{
    let tx = stx.into_inner().tx;
    Boxed::new(alloc, SignedTx { tx, tags })
}

/// A value with these tags in place of its own.
fn tagged(alloc: Global, value: Value, tags: TagList) -> Result<Value, AllocError>
    ensures { IfOk result (λ v. v ≡ tagged tags value) }
{
    match value {
        Value::Tx(stx) => Ok(Value::Tx(signed(alloc, stx, tags)?)),
        Value::Request(_) | Value::Answer(_) | Value::Tags(_) => Ok(Value::Tags(tags)),
        other => Ok(other),
    }
}

/// A request with the first of these tags in place of its own.
fn asked(alloc: Global, request: Boxed<Request>, tags: &[Tag]) -> Result<Act<Script>, AllocError>
    ensures { IfOk result (λ a. a ≡ asked tags.now request) }
{
    match tags {
        [] => Ok(Act::Fail { code: 71 }),
        [tag, ..] => {
            let request = Request {
                tag: *tag,
                ..request.into_inner()
            };
            Ok(Act::Notarise {
                request: Boxed::new(alloc, request)?,
            })
        }
    }
}

/// A subflow of a frame that isn't over.
fn called(frame: Script) -> Act<Script>
    ensures { result ≡ called frame.0 }
{
    if frame.0.len() == 0 {
        Act::Fail { code: 72 }
    } else {
        Act::Sub { frame }
    }
}

/// An act with these tags in place of its own.
fn filled(alloc: Global, act: Act<Script>, tags: TagList) -> Result<Act<Script>, AllocError>
    ensures { IfOk result (λ a. a ≡ filled tags act) }
{
    match act {
        Act::Open { to, class, first } => Ok(Act::Open {
            to,
            class,
            first: tagged(alloc, first, tags)?,
        }),
        Act::Send { key, value } => Ok(Act::Send {
            key,
            value: tagged(alloc, value, tags)?,
        }),
        Act::Sub { frame } => Ok(called(frame)),
        Act::Notarise { request } => asked(alloc, request, tags.as_slice()),
        Act::Record { stx } => Ok(Act::Record {
            stx: signed(alloc, stx, tags)?,
        }),
        Act::Return { value } => Ok(Act::Return {
            value: tagged(alloc, value, tags)?,
        }),
        other => Ok(other),
    }
}

/// What an Init of a class may cause.
fn load(class: u16) -> u128
    ensures { result ≡ load class }
{
    if class == 2 { 8 } else { 0 }
}

/// What an act may cause.
fn act_cost(act: &Act<Script>) -> u128
    ensures cost { result ≡ act_cost act.now }
    ensures small { result < 2 ^ 70 }
{
    match act {
        Act::Open { class, .. } => load(*class) + 6,
        Act::Send { .. } => 2,
        Act::Sub { frame } => 7 * frame.0.len() as u128 + 1,
        _ => 1,
    }
}

/// The frame fails.
fn fails(alloc: Global, code: u16) -> Next
    ensures { result ≡ fails code }
{
    (Script(ListOf::new(alloc)), Act::Fail { code })
}

/// The frame that has the rest.
fn onwards(alloc: Global, rest: &[u8]) -> Result<Script, AllocError>
    ensures { IfOk result (λ f. f ≡ record { 0 = 1 ∷ rest.now }) }
{
    let mut bytes = Vec::with_capacity(alloc, 1)?;
    bytes.push(1)?;
    bytes.extend_from_slice(rest)?;
    Ok(Script(ListOf::from_vec(bytes)))
}

/// The act, and the frame that has the rest.
fn follows(alloc: Global, rest: &[u8], act: Act<Script>) -> Result<Next, AllocError>
    ensures { IfOk result (λ g. g ≡ follows rest.now act) }
{
    if matches!(&act, Act::Return { .. } | Act::Fail { .. }) {
        return Ok((Script(ListOf::new(alloc)), act));
    }
    Ok((onwards(alloc, rest)?, act))
}

/// The act, where it costs no more than its bytes.
fn paid(alloc: Global, left: usize, rest: &[u8], act: Act<Script>) -> Result<Next, AllocError>
    requires { left ≤ 32768 }
    ensures { IfOk result (λ g. g ≡ paid left rest.now act) }
{
    if 7 * rest.len() as u128 + act_cost(&act) <= 7 * left as u128 {
        follows(alloc, rest, act)
    } else {
        Ok(fails(alloc, 73))
    }
}

/// The next act, and after the last one the return.
fn steps(alloc: Global, acts: &[u8], with: &Resumed) -> Result<Next, AllocError>
    requires { length acts.now ≤ 32768 }
    ensures { IfOk result (λ g. g ≡ steps acts.now with.now) }
{
    if acts.is_empty() {
        let value = shown(alloc, with)?;
        return Ok((Script(ListOf::new(alloc)), Act::Return { value }));
    }
    let mut from = Reader::new(acts);
    match Act::read_part(alloc, &mut from) {
        Ok(act) => {
            let act = filled(alloc, act, resumed_tags(alloc, with)?)?;
            paid(alloc, acts.len(), left_in(&mut from), act)
        }
        Err(PartFault::Memory) => Err(AllocError),
        Err(PartFault::Left(_)) => Ok(fails(alloc, 70)),
    }
}

/// The bytes that are left.
fn left_in<'a>(from: &mut Reader<'a>) -> &'a [u8]
    ensures { result.now ≡ from.old.left }
{
    let count = from.remaining();
    from.bytes(count).unwrap()
}

impl FlowSet for Script {
    ghost use Rattle.node_acts.specs.Script.{script};
    ghost use Rattle.node_acts.specs.ScriptLaws.{spells_content, keeps_limits, falls, load_holds, overs_hold, over_fails, keeps_tags, begins_bare, args_are_short, known_by_name};

    ghost machine = { script };

    ghost spells_content = { spells_content };

    ghost keeps_limits = { keeps_limits };

    ghost falls = { falls };

    ghost load_holds = { load_holds };

    ghost overs_hold = { overs_hold };

    ghost over_fails = { over_fails };

    ghost keeps_tags = { keeps_tags };

    ghost begins_bare = { begins_bare };

    ghost args_are_short = { args_are_short };

    ghost known_by_name = { known_by_name };

    fn read_words(_: Global, _class: &str, _args: &[String]) -> Result<(u16, ByteList), WordFault> {
        Err(WordFault::UnknownClass)
    }

    fn make(
        alloc: Global,
        class: u16,
        args: &ByteList,
        _at: &Place,
    ) -> Result<(Script, Act<Script>), MakeFault> {
        if class != 1 {
            return Err(MakeFault::UnknownClass);
        }
        if args.len() > 32767 {
            return Err(MakeFault::BadArgs);
        }
        Ok(steps(alloc, args.as_slice(), &Resumed::Started)?)
    }

    fn initiated(
        alloc: Global,
        class: u16,
        key: &Key,
        _at: &Place,
    ) -> Result<(Script, Act<Script>), MakeFault> {
        if class != 2 {
            return Err(MakeFault::UnknownClass);
        }
        Ok((onwards(alloc, &[])?, Act::Receive { key: *key }))
    }

    fn resume(
        &self,
        alloc: Global,
        with: &Resumed,
        _at: &Place,
    ) -> Result<(Script, Act<Script>), AllocError> {
        match self.0.as_slice() {
            [] => Ok(fails(alloc, with.unnamed_code())),
            [_, acts @ ..] => steps(alloc, acts, with),
        }
    }

    fn weight(&self) -> u64 {
        7 * self.0.len() as u64
    }
}
