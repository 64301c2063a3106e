ghost use Rattle.std.specs.Prelude.{◌≡◌, ◌<◌, ◌≤◌, ◌+◌, ◌↔◌, [], ◌∷◌, ℕ, List, length, OnOk, IfOk, IfErr, IsErrOf, Option};
ghost use Rattle.outside.specs.Faults.{Rose};
ghost use Rattle.network_core.specs.Worlds.{World, NetSeen, Shows, Coherent};
ghost use Rattle.network_core.specs.Drains.{with_world};
ghost use Rattle.net_base.specs.declared.names.Identity.{Identity};
ghost use Rattle.net_model.specs.Environment.{environment, meaning};
ghost use Rattle.shell_words.specs.Script.{is_quit};
ghost use Rattle.std.specs.Io.KnownBytes.{Consumes, IsAtEnd};
ghost use Rattle.node_shell.specs.Responds.{NetLink, NetShort};
ghost use Rattle.node_shell.specs.Together.{InPair, PairLink, PairShort};
ghost use Rattle.node_shell.specs.Story.{Progress, ScriptRun, AnswerComes, IsLastStatus, IsScriptStatus, status_of};

use super::serving::reply_to;
use super::statuses::Status;
use super::streams::{next_byte, write_all};
use contract_verify::Judge;
use flow_machine::FlowSet;
use network_core::Net;
use outside::{Bay, Failed, Gate, Sink, Source};
use shell_words::without_cr;
use std::alloc::Global;
use std::sync::Wait;
use std::thread::Threads;

/// The most bytes of a script.
const MOST_BYTES: u64 = 16777216;

/// Why a line has no answer, or no whole one.
#[derive(Clone, Copy, Debug, PartialEq, Eq)]
pub enum Stop {
    Write,
    Memory,
}

/// How a script ended, and how many bytes the source gave.
#[derive(Clone, Copy, Debug, PartialEq, Eq)]
pub struct End {
    pub status: Status,
    pub bytes_read: u64,
}

/// Answers a line, and says whether it asked to quit.
fn answer<
    B: Bay + Send,
    F: FlowSet + Send + Sync,
    K: Sink,
    J: Judge + Sync,
    R: Threads + Wait + Sync,
    G: Gate + Sync,
>(
    rt: &R,
    alloc: Global,
    net: &mut Net<B, F>,
    sink: &mut K,
    line: &[u8],
    contracts: &J,
    gate: &G,
) -> Result<bool, Stop>
    ensures comes { AnswerComes (NetLink (meaning F.machine F.reading (J.judges contracts.now)))
        (NetShort (meaning F.machine F.reading (J.judges contracts.now))) net.old line.now
        (K.written sink.old) (K.written sink.new) result net.new }
    ensures count { length net.new.nodes ≡ length net.old.nodes }
    ensures quit { IfOk result (λ quit. quit ≡ is_quit line.now) }
    ensures cause { IsErrOf result Stop.Write → Rose (K.faults sink.old) (K.faults sink.new) }
    ensures later { K.faults sink.old ≤ K.faults sink.new }
{
    let Ok(reply) = reply_to(rt, alloc, net, line, contracts, gate) else {
        return Err(Stop::Memory);
    };
    let Ok(text) = reply.to_string(alloc) else {
        return Err(Stop::Memory);
    };
    match write_all(sink, text.as_bytes()) {
        Ok(()) => Ok(reply.is_end()),
        Err(Failed) => Err(Stop::Write),
    }
}

fn status_of(stop: Stop) -> Status
    ensures { result ≡ status_of stop }
{
    match stop {
        Stop::Write => Status::WriteFault,
        Stop::Memory => Status::NoMemory,
    }
}

/// Answers the line that the input ends with, where there is one.
fn answer_last<
    B: Bay + Send,
    F: FlowSet + Send + Sync,
    K: Sink,
    J: Judge + Sync,
    R: Threads + Wait + Sync,
    G: Gate + Sync,
>(
    rt: &R,
    alloc: Global,
    net: &mut Net<B, F>,
    sink: &mut K,
    line: &[u8],
    contracts: &J,
    gate: &G,
) -> Status
    ensures ended { (start : NetSeen) (left0 left1 written0 : Option (List ℕ)) (count : ℕ)
        → count ≤ 16777216 → IsAtEnd left1
        → Progress (NetLink (meaning F.machine F.reading (J.judges contracts.now))) start left0
        left1 written0 (K.written sink.old) count net.old line.now
        → ScriptRun (NetLink (meaning F.machine F.reading (J.judges contracts.now)))
        (NetShort (meaning F.machine F.reading (J.judges contracts.now))) start left0 left1
        written0 (K.written sink.new) count net.new result }
    ensures count { length net.new.nodes ≡ length net.old.nodes }
    ensures kinds { IsLastStatus result }
    ensures cause { result ≡ Status.WriteFault → Rose (K.faults sink.old) (K.faults sink.new) }
    ensures later { K.faults sink.old ≤ K.faults sink.new }
{
    if line.is_empty() {
        return Status::Finished;
    }
    match answer(rt, alloc, net, sink, line, contracts, gate) {
        Ok(_) => Status::Finished,
        Err(stop) => status_of(stop),
    }
}

/// Answers a line that ended with the byte before; an `Err` ends the script.
fn answer_line<
    B: Bay + Send,
    F: FlowSet + Send + Sync,
    K: Sink,
    J: Judge + Sync,
    R: Threads + Wait + Sync,
    G: Gate + Sync,
>(
    rt: &R,
    alloc: Global,
    net: &mut Net<B, F>,
    sink: &mut K,
    line: &[u8],
    contracts: &J,
    gate: &G,
) -> Result<(), Status>
    ensures ok { OnOk result ((start : NetSeen) (left0 left1 left2 written0 : Option (List ℕ))
        (count : ℕ) → count < 16777216 → Consumes left1 left2 (10 ∷ [])
        → Progress (NetLink (meaning F.machine F.reading (J.judges contracts.now))) start left0
        left1 written0 (K.written sink.old) count net.old line.now
        → Progress (NetLink (meaning F.machine F.reading (J.judges contracts.now))) start left0
        left2 written0 (K.written sink.new) (count + 1) net.new []) }
    ensures err { IfErr result (λ status.
        (start : NetSeen) (left0 left1 left2 written0 : Option (List ℕ)) (count : ℕ)
        → count < 16777216 → Consumes left1 left2 (10 ∷ [])
        → Progress (NetLink (meaning F.machine F.reading (J.judges contracts.now))) start left0
        left1 written0 (K.written sink.old) count net.old line.now
        → ScriptRun (NetLink (meaning F.machine F.reading (J.judges contracts.now)))
        (NetShort (meaning F.machine F.reading (J.judges contracts.now))) start left0 left2
        written0 (K.written sink.new) (count + 1) net.new status) }
    ensures count { length net.new.nodes ≡ length net.old.nodes }
    ensures kinds { IfErr result IsLastStatus }
    ensures cause { IsErrOf result Status.WriteFault
        → Rose (K.faults sink.old) (K.faults sink.new) }
    ensures later { K.faults sink.old ≤ K.faults sink.new }
{
    match answer(rt, alloc, net, sink, without_cr(line), contracts, gate) {
        Ok(false) => Ok(()),
        Ok(true) => Err(Status::Finished),
        Err(stop) => Err(status_of(stop)),
    }
}

/// Takes the next byte, and answers the line that it ends; an `Err` ends the script.
fn take_byte<
    B: Bay + Send,
    F: FlowSet + Send + Sync,
    S: Source,
    K: Sink,
    J: Judge + Sync,
    R: Threads + Wait + Sync,
    G: Gate + Sync,
>(
    rt: &R,
    alloc: Global,
    net: &mut Net<B, F>,
    line: &mut Vec<u8>,
    source: &mut S,
    sink: &mut K,
    count: u64,
    contracts: &J,
    gate: &G,
) -> Result<(), End>
    requires within { count ≤ 16777216 }
    ensures ok { OnOk result ((start : NetSeen) (left0 written0 : Option (List ℕ))
        → Progress (NetLink (meaning F.machine F.reading (J.judges contracts.now))) start left0
        (S.left source.old) written0 (K.written sink.old) count net.old line.old.items
        → Progress (NetLink (meaning F.machine F.reading (J.judges contracts.now))) start left0
        (S.left source.new) written0 (K.written sink.new) (count + 1) net.new line.new.items) }
    ensures within { OnOk result (count < 16777216) }
    ensures err { IfErr result (λ e. (start : NetSeen) (left0 written0 : Option (List ℕ))
        → Progress (NetLink (meaning F.machine F.reading (J.judges contracts.now))) start left0
        (S.left source.old) written0 (K.written sink.old) count net.old line.old.items
        → ScriptRun (NetLink (meaning F.machine F.reading (J.judges contracts.now)))
        (NetShort (meaning F.machine F.reading (J.judges contracts.now))) start left0
        (S.left source.new) written0 (K.written sink.new) e.bytes_read net.new e.status) }
    ensures too_long { IfErr result (λ e. e.status ≡ Status.TooLong ↔ (e.bytes_read ≡ 16777217)) }
    ensures few { IfErr result (λ e. e.bytes_read ≤ 16777217) }
    ensures count { length net.new.nodes ≡ length net.old.nodes }
    ensures kinds { IfErr result (λ e. IsScriptStatus e.status) }
    ensures read_fault { IfErr result (λ e. e.status ≡ Status.ReadFault
        → Rose (S.faults source.old) (S.faults source.new)) }
    ensures write_fault { IfErr result
        (λ e. e.status ≡ Status.WriteFault → Rose (K.faults sink.old) (K.faults sink.new)) }
    ensures later { (S.faults source.old ≤ S.faults source.new)
        × (K.faults sink.old ≤ K.faults sink.new) }
{
    let byte = match next_byte(source) {
        Ok(Some(byte)) => byte,
        Ok(None) => {
            let status = answer_last(rt, alloc, net, sink, line.as_slice(), contracts, gate);
            return Err(End {
                status,
                bytes_read: count,
            });
        }
        Err(Failed) => {
            return Err(End {
                status: Status::ReadFault,
                bytes_read: count,
            });
        }
    };
    let bytes_read = count + 1;
    if count == MOST_BYTES {
        return Err(End {
            status: Status::TooLong,
            bytes_read,
        });
    }
    if byte != b'\n' {
        if line.push(byte).is_err() {
            return Err(End {
                status: Status::NoMemory,
                bytes_read,
            });
        }
        return Ok(());
    }
    if let Err(status) = answer_line(rt, alloc, net, sink, line.as_slice(), contracts, gate) {
        return Err(End { status, bytes_read });
    }
    line.clear();
    Ok(())
}

/// Answers the lines of a source, until it ends, a line asks to quit, or something fails.
pub fn session<
    B: Bay + Send,
    F: FlowSet + Send + Sync,
    S: Source,
    K: Sink,
    J: Judge + Sync,
    R: Threads + Wait + Sync,
    G: Gate + Sync,
>(
    rt: &R,
    alloc: Global,
    net: &mut Net<B, F>,
    source: &mut S,
    sink: &mut K,
    contracts: &J,
    gate: &G,
) -> End
    ensures count { length net.new.nodes ≡ length net.old.nodes }
    ensures went { ScriptRun (NetLink (meaning F.machine F.reading (J.judges contracts.now)))
        (NetShort (meaning F.machine F.reading (J.judges contracts.now))) net.old
        (S.left source.old) (S.left source.new) (K.written sink.old)
        (K.written sink.new) result.bytes_read net.new result.status }
    ensures ran { (id : Identity) (start : World)
        (shows : Shows (environment (meaning F.machine F.reading (J.judges contracts.now)) id)
        net.old start)
        (coherent : Coherent (environment (meaning F.machine F.reading (J.judges contracts.now)) id)
        start)
        → InPair (environment (meaning F.machine F.reading (J.judges contracts.now)) id) net.new
        (λ last. ScriptRun (PairLink (meaning F.machine F.reading (J.judges contracts.now)) id)
        (PairShort (meaning F.machine F.reading (J.judges contracts.now)) id)
        (with_world net.old start shows coherent) (S.left source.old) (S.left source.new)
        (K.written sink.old) (K.written sink.new) result.bytes_read last result.status) }
    ensures too_long { result.status ≡ Status.TooLong ↔ (result.bytes_read ≡ 16777217) }
    ensures few { result.bytes_read ≤ 16777217 }
    ensures kinds { IsScriptStatus result.status }
    ensures read_fault { result.status ≡ Status.ReadFault
        → Rose (S.faults source.old) (S.faults source.new) }
    ensures write_fault { result.status ≡ Status.WriteFault
        → Rose (K.faults sink.old) (K.faults sink.new) }
    ensures later { (S.faults source.old ≤ S.faults source.new)
        × (K.faults sink.old ≤ K.faults sink.new) }
{
    let mut line = Vec::new(alloc);
    'bytes: for count in 0..MOST_BYTES + 1 {
        if let Err(end) = take_byte(
            rt, alloc, net, &mut line, source, sink, count, contracts, gate,
        ) {
            return end;
        }
    }
    unreachable!()
}
