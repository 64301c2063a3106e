//! All machines, as one part of a flow set.

ghost use Rattle.std.specs.Prelude.{◌≡◌};

use crate::beside::Beside;
use crate::calls::{CallFrames, Called, CountFrame, FinalityFrame};
use crate::set::{Answering, Cash, Deals, Talking};
use cash_flows::{ExitFrame, IssueFrame, PayFrame, SpendFrame};
use deal_flows::{FactFrame, IouFrame, RefactFrame};
use finality_flows::AgreeFrame;
use flow_forms::{ByInit, ByWords, Call, Flows, Frame, InFirst, Opens, Sum};
use flow_machine::{Act, MakeFault, Place, Resumed, WordFault};
use net_base::{ByteList, Key, PartFault, Reader, Writer};
use notary_flows::{ClientFrame, ServiceFrame};
use resolve_flows::{ReceiverFrame, ResolveFrame};
use shipped_flows::{Echo, EchoPlace, Ping, PingPlace, Probe, ProbePlace};
use std::alloc::{AllocError, Global};
use std::marker::Model;

/// The sum of all machines. It is as flat as can be: what the prover computes of a sum grows with how deep it is. The frames of machines
/// that keep much stand on the heap (`Beside`), since each frame is as large as the largest, and a step moves it some ten times.
pub type Machines = Sum<Called, Sum<Beside<Answering, Cash>, Beside<Talking, Deals>>>;

/// A frame of any of the machines. Contracts see one of their sum.
///
/// This is a type of its own, and not the sum under another name, since a check of a call goes through all that the call's type parameters
/// are made of, each time that it meets them.
#[derive(Drop)]
pub struct App {
    frame: Machines,
}

impl Model for App {
    ghost use Rattle.app_flows.specs.Seen.{AppSeen};

    ghost Value = { AppSeen };

    ghost view = { λ a. a.frame };
}

impl App {
    /// A frame of the sum.
    fn of(frame: Machines) -> App
        ensures { result ≡ frame }
    {
        App { frame }
    }
}

impl Flows for App {
    ghost use Rattle.std.specs.Prelude.{codes, refl, true, false};
    ghost use Rattle.std.proofs.Common.{arith};
    ghost use Rattle.flow_forms.specs.Bytes.{placed, sum_spells};
    ghost use Rattle.flow_forms.specs.FormLaws.{no_way, no_way_laws, frame_spells};
    ghost use Rattle.flow_forms.specs.Sums.{sum, sum_laws, sum_contents};
    ghost use Rattle.flow_forms.specs.Ways.{by_init_laws};
    ghost use Rattle.app_flows.specs.Laws.{then, end, byte, short, middle, long, currency, id, options, worded, frames};
    ghost use Rattle.shipped_flows.specs.Count as count;
    ghost use Rattle.shipped_flows.specs.Ping as ping;
    ghost use Rattle.shipped_flows.specs.Probe as probe;
    ghost use Rattle.shipped_flows.specs.Echo as echo;
    ghost use Rattle.notary_flows.specs.Client as client;
    ghost use Rattle.notary_flows.specs.ClientLaws as client_laws;
    ghost use Rattle.notary_flows.specs.Service as service;
    ghost use Rattle.notary_flows.specs.ServiceLaws as service_laws;
    ghost use Rattle.resolve_flows.specs.Resolve as resolve;
    ghost use Rattle.resolve_flows.specs.ResolveLaws as resolve_laws;
    ghost use Rattle.resolve_flows.specs.Receiver as receiver;
    ghost use Rattle.resolve_flows.specs.ReceiverLaws as receiver_laws;
    ghost use Rattle.finality_flows.specs.Finality as finality;
    ghost use Rattle.finality_flows.specs.FinalityLaws as finality_laws;
    ghost use Rattle.finality_flows.specs.Agree as agree;
    ghost use Rattle.finality_flows.specs.AgreeLaws as agree_laws;
    ghost use Rattle.cash_flows.specs.Issue as issue;
    ghost use Rattle.cash_flows.specs.IssueLaws as issue_laws;
    ghost use Rattle.cash_flows.specs.Exit as exit;
    ghost use Rattle.cash_flows.specs.ExitLaws as exit_laws;
    ghost use Rattle.cash_flows.specs.Pay as pay;
    ghost use Rattle.cash_flows.specs.PayLaws as pay_laws;
    ghost use Rattle.cash_flows.specs.Spend as spend;
    ghost use Rattle.cash_flows.specs.SpendLaws as spend_laws;
    ghost use Rattle.deal_flows.specs.Fact as fact;
    ghost use Rattle.deal_flows.specs.FactLaws as fact_laws;
    ghost use Rattle.deal_flows.specs.Refact as refact;
    ghost use Rattle.deal_flows.specs.RefactLaws as refact_laws;
    ghost use Rattle.deal_flows.specs.Iou as iou;
    ghost use Rattle.deal_flows.specs.IouLaws as iou_laws;

    ghost within = { ⟦<Machines as Flows>⟧.within };

    ghost part = { ⟦<Machines as Flows>⟧.part };

    ghost kinds = { ⟦<Machines as Flows>⟧.kinds };

    ghost kind = { ⟦<Machines as Flows>⟧.kind };

    ghost body = { ⟦<Machines as Flows>⟧.body };

    ghost reading = { ⟦<Machines as Flows>⟧.reading };

    ghost laws = { sum_laws _ _ _ _
        (sum_laws _ _ _ _
        (frames false count.numbers count.kept count.form _ 1 count.is_form
        (worded count.kept count.form (codes "count") 1 count.begins (then middle end) (omega arith)
        count.begins_within))
        (sum_laws _ _ _ _
        (frames true client_laws.numbers client_laws.kept client.form no_way 31 client_laws.is_form
        (no_way_laws _ _))
        (sum_laws _ _ _ _
        (frames true resolve_laws.numbers resolve_laws.kept resolve.form no_way 32
        resolve_laws.is_form (no_way_laws _ _))
        (frames true finality_laws.numbers finality_laws.kept finality.form no_way 30
        finality_laws.is_form (no_way_laws _ _)))))
        (sum_laws _ _ _ _
        (sum_laws _ _ _ _
        (sum_laws _ _ _ _
        (sum_laws _ _ _ _
        (frames false echo.numbers echo.kept echo.form _ 11 echo.is_form
        (by_init_laws _ _ 2 echo.answers echo.answers_within))
        (frames false service_laws.numbers service_laws.kept service.form _ 20 service_laws.is_form
        (by_init_laws _ _ 20 service.fresh service_laws.answers_within)))
        (sum_laws _ _ _ _
        (frames false receiver.numbers receiver.kept receiver.form _ 21 receiver_laws.is_form
        (by_init_laws _ _ 21 receiver.fresh receiver_laws.answers_within))
        (frames false agree.numbers agree.kept agree.form _ 22 agree_laws.is_form
        (by_init_laws _ _ 22 agree.fresh agree_laws.answers_within))))
        (sum_laws _ _ _ _
        (sum_laws _ _ _ _
        (frames false issue.numbers issue.kept issue.form _ 3 issue_laws.is_form
        (worded issue.kept issue.form (codes "issue") 3 issue.begins (then currency (then long end))
        (omega arith) issue_laws.begins_within))
        (frames false pay_laws.numbers pay_laws.kept pay.form _ 4 pay_laws.is_form
        (worded pay_laws.kept pay.form (codes "pay") 4 pay.begins
        (then byte (then currency (then byte (then long options)))) (omega arith)
        pay_laws.begins_within)))
        (sum_laws _ _ _ _
        (frames false exit.numbers exit.kept exit.form _ 5 exit_laws.is_form
        (worded exit.kept exit.form (codes "exit") 5 exit.begins (then currency (then long end))
        (omega arith) exit_laws.begins_within))
        (frames false spend.numbers spend.kept spend.form _ 8 spend_laws.is_form
        (worded spend.kept spend.form (codes "spend") 8 spend.begins
        (then id (then middle (then byte end))) (omega arith) spend_laws.begins_within)))))
        (sum_laws _ _ _ _
        (sum_laws _ _ _ _
        (frames false ping.numbers ping.kept ping.form _ 2 ping.is_form
        (worded ping.kept ping.form (codes "ping") 2 ping.begins (then byte (then middle end))
        (omega arith) ping.begins_within))
        (frames false probe.numbers probe.kept probe.form _ 10 probe.is_form
        (worded probe.kept probe.form (codes "probe") 10 probe.begins (then byte (then short end))
        (omega arith) probe.begins_within)))
        (sum_laws _ _ _ _
        (frames false fact.numbers fact.kept fact.form _ 6 fact_laws.is_form
        (worded fact.kept fact.form (codes "fact") 6 fact.begins
        (then byte (then long (then long end))) (omega arith) fact_laws.begins_within))
        (sum_laws _ _ _ _
        (frames false refact.numbers refact.kept refact.form _ 7 refact_laws.is_form
        (worded refact.kept refact.form (codes "refact") 7 refact.begins
        (then id (then middle (then long end))) (omega arith) refact_laws.begins_within))
        (frames false iou.numbers iou.kept iou.form _ 9 iou_laws.is_form
        (worded iou.kept iou.form (codes "iou") 9 iou.begins
        (then byte (then currency (then byte (then long end)))) (omega arith)
        iou_laws.begins_within)))))) };

    ghost contents = { sum_contents
        (sum ⟦<CountFrame as Flows>⟧.part
        (sum ⟦<ClientFrame as Flows>⟧.part
        (sum ⟦<ResolveFrame as Flows>⟧.part ⟦<FinalityFrame as Flows>⟧.part)))
        (sum (sum (sum
        (sum ⟦<Frame<EchoPlace, Echo, ByInit> as Flows>⟧.part ⟦<ServiceFrame as Flows>⟧.part)
        (sum ⟦<ReceiverFrame as Flows>⟧.part ⟦<AgreeFrame as Flows>⟧.part))
        (sum (sum ⟦<IssueFrame as Flows>⟧.part ⟦<PayFrame as Flows>⟧.part)
        (sum ⟦<ExitFrame as Flows>⟧.part ⟦<SpendFrame as Flows>⟧.part)))
        (sum (sum ⟦<Frame<PingPlace, Ping, ByWords> as Flows>⟧.part
        ⟦<Frame<ProbePlace, Probe, ByWords> as Flows>⟧.part)
        (sum ⟦<FactFrame as Flows>⟧.part
        (sum ⟦<RefactFrame as Flows>⟧.part ⟦<IouFrame as Flows>⟧.part))))
        (sum_contents ⟦<CountFrame as Flows>⟧.part
        (sum ⟦<ClientFrame as Flows>⟧.part
        (sum ⟦<ResolveFrame as Flows>⟧.part ⟦<FinalityFrame as Flows>⟧.part))
        (λ f. refl)
        (sum_contents ⟦<ClientFrame as Flows>⟧.part
        (sum ⟦<ResolveFrame as Flows>⟧.part ⟦<FinalityFrame as Flows>⟧.part)
        (λ f. refl)
        (sum_contents ⟦<ResolveFrame as Flows>⟧.part ⟦<FinalityFrame as Flows>⟧.part
        (λ f. refl)
        (λ f. refl))))
        (sum_contents (sum (sum
        (sum ⟦<Frame<EchoPlace, Echo, ByInit> as Flows>⟧.part ⟦<ServiceFrame as Flows>⟧.part)
        (sum ⟦<ReceiverFrame as Flows>⟧.part ⟦<AgreeFrame as Flows>⟧.part))
        (sum (sum ⟦<IssueFrame as Flows>⟧.part ⟦<PayFrame as Flows>⟧.part)
        (sum ⟦<ExitFrame as Flows>⟧.part ⟦<SpendFrame as Flows>⟧.part)))
        (sum (sum ⟦<Frame<PingPlace, Ping, ByWords> as Flows>⟧.part
        ⟦<Frame<ProbePlace, Probe, ByWords> as Flows>⟧.part)
        (sum ⟦<FactFrame as Flows>⟧.part
        (sum ⟦<RefactFrame as Flows>⟧.part ⟦<IouFrame as Flows>⟧.part)))
        (sum_contents (sum
        (sum ⟦<Frame<EchoPlace, Echo, ByInit> as Flows>⟧.part ⟦<ServiceFrame as Flows>⟧.part)
        (sum ⟦<ReceiverFrame as Flows>⟧.part ⟦<AgreeFrame as Flows>⟧.part))
        (sum (sum ⟦<IssueFrame as Flows>⟧.part ⟦<PayFrame as Flows>⟧.part)
        (sum ⟦<ExitFrame as Flows>⟧.part ⟦<SpendFrame as Flows>⟧.part))
        (sum_contents
        (sum ⟦<Frame<EchoPlace, Echo, ByInit> as Flows>⟧.part ⟦<ServiceFrame as Flows>⟧.part)
        (sum ⟦<ReceiverFrame as Flows>⟧.part ⟦<AgreeFrame as Flows>⟧.part)
        (sum_contents ⟦<Frame<EchoPlace, Echo, ByInit> as Flows>⟧.part
        ⟦<ServiceFrame as Flows>⟧.part
        (λ f. refl)
        (λ f. refl))
        (sum_contents ⟦<ReceiverFrame as Flows>⟧.part ⟦<AgreeFrame as Flows>⟧.part
        (λ f. refl)
        (λ f. refl)))
        (sum_contents (sum ⟦<IssueFrame as Flows>⟧.part ⟦<PayFrame as Flows>⟧.part)
        (sum ⟦<ExitFrame as Flows>⟧.part ⟦<SpendFrame as Flows>⟧.part)
        (sum_contents ⟦<IssueFrame as Flows>⟧.part ⟦<PayFrame as Flows>⟧.part
        (λ f. refl)
        (λ f. refl))
        (sum_contents ⟦<ExitFrame as Flows>⟧.part ⟦<SpendFrame as Flows>⟧.part
        (λ f. refl)
        (λ f. refl))))
        (sum_contents (sum ⟦<Frame<PingPlace, Ping, ByWords> as Flows>⟧.part
        ⟦<Frame<ProbePlace, Probe, ByWords> as Flows>⟧.part)
        (sum ⟦<FactFrame as Flows>⟧.part
        (sum ⟦<RefactFrame as Flows>⟧.part ⟦<IouFrame as Flows>⟧.part))
        (sum_contents ⟦<Frame<PingPlace, Ping, ByWords> as Flows>⟧.part
        ⟦<Frame<ProbePlace, Probe, ByWords> as Flows>⟧.part
        (λ f. refl)
        (λ f. refl))
        (sum_contents ⟦<FactFrame as Flows>⟧.part
        (sum ⟦<RefactFrame as Flows>⟧.part ⟦<IouFrame as Flows>⟧.part)
        (λ f. refl)
        (sum_contents ⟦<RefactFrame as Flows>⟧.part ⟦<IouFrame as Flows>⟧.part
        (λ f. refl)
        (λ f. refl))))) };

    ghost spells = { λ unlike. sum_spells unlike
        (λ unlike. sum_spells unlike
        (λ unlike. frame_spells 1 (placed false count.numbers) count.kept.laws)
        (λ unlike. sum_spells unlike
        (λ unlike. frame_spells 31 (placed true client_laws.numbers) client_laws.kept.laws)
        (λ unlike. sum_spells unlike
        (λ unlike. frame_spells 32 (placed true resolve_laws.numbers) resolve_laws.kept.laws)
        (λ unlike. frame_spells 30 (placed true finality_laws.numbers) finality_laws.kept.laws))))
        (λ unlike. sum_spells unlike
        (λ unlike. sum_spells unlike
        (λ unlike. sum_spells unlike
        (λ unlike. sum_spells unlike
        (λ unlike. frame_spells 11 (placed false echo.numbers) echo.kept.laws)
        (λ unlike. frame_spells 20 (placed false service_laws.numbers) service_laws.kept.laws))
        (λ unlike. sum_spells unlike
        (λ unlike. frame_spells 21 (placed false receiver.numbers) receiver.kept.laws)
        (λ unlike. frame_spells 22 (placed false agree.numbers) agree.kept.laws)))
        (λ unlike. sum_spells unlike
        (λ unlike. sum_spells unlike
        (λ unlike. frame_spells 3 (placed false issue.numbers) issue.kept.laws)
        (λ unlike. frame_spells 4 (placed false pay_laws.numbers) pay_laws.kept.laws))
        (λ unlike. sum_spells unlike
        (λ unlike. frame_spells 5 (placed false exit.numbers) exit.kept.laws)
        (λ unlike. frame_spells 8 (placed false spend.numbers) spend.kept.laws))))
        (λ unlike. sum_spells unlike
        (λ unlike. sum_spells unlike
        (λ unlike. frame_spells 2 (placed false ping.numbers) ping.kept.laws)
        (λ unlike. frame_spells 10 (placed false probe.numbers) probe.kept.laws))
        (λ unlike. sum_spells unlike
        (λ unlike. frame_spells 6 (placed false fact.numbers) fact.kept.laws)
        (λ unlike. sum_spells unlike
        (λ unlike. frame_spells 7 (placed false refact.numbers) refact.kept.laws)
        (λ unlike. frame_spells 9 (placed false iou.numbers) iou.kept.laws))))) };

    fn has(machine: u8) -> bool {
        <Machines as Flows>::has(machine)
    }

    fn machine(&self) -> u8 {
        self.frame.machine()
    }

    fn read_body(alloc: Global, machine: u8, from: &mut Reader) -> Result<App, PartFault> {
        Ok(App::of(<Machines as Flows>::read_body(alloc, machine, from)?))
    }

    fn write_body(&self, alloc: Global, out: &mut Writer) -> Result<(), AllocError> {
        self.frame.write_body(alloc, out)
    }

    fn next(
        &self,
        alloc: Global,
        with: &Resumed,
        here: &Place,
    ) -> Result<(App, Act<Call>), AllocError> {
        let (frame, act) = self.frame.next(alloc, with, here)?;
        Ok((App::of(frame), act))
    }

    fn bound(&self) -> u64 {
        self.frame.bound()
    }

    fn read_words(
        alloc: Global,
        class: &str,
        args: &[String],
    ) -> Result<(u16, ByteList), WordFault> {
        <Machines as Flows>::read_words(alloc, class, args)
    }

    fn make(
        alloc: Global,
        class: u16,
        args: &ByteList,
        here: &Place,
    ) -> Result<(App, Act<Call>), MakeFault> {
        let (frame, act) = <Machines as Flows>::make(alloc, class, args, here)?;
        Ok((App::of(frame), act))
    }

    fn initiated(
        alloc: Global,
        class: u16,
        key: &Key,
        here: &Place,
    ) -> Result<(App, Act<Call>), MakeFault> {
        let (frame, act) = <Machines as Flows>::initiated(alloc, class, key, here)?;
        Ok((App::of(frame), act))
    }
}

/// The frames of calls are those of `CallFrames`.
#[derive(Clone, Copy)]
pub struct AppCalls;

impl Opens<App> for AppCalls {
    ghost use Rattle.flow_forms.specs.Closing.{opens_first};
    ghost use Rattle.app_flows.specs.Opening.{opens_by};
    ghost use Rattle.app_flows.specs.Frames.{see, none, asks, resolves, ends, none_opens, asks_opens, resolves_opens, ends_opens};

    ghost see = { ⟦<InFirst<CallFrames> as Opens<Machines>>⟧.see };

    ghost opens = { opens_first _ _ _ _ see (opens_by ⟦<CountFrame as Flows>⟧.within
        ⟦<ClientFrame as Flows>⟧.within ⟦<ResolveFrame as Flows>⟧.within
        ⟦<FinalityFrame as Flows>⟧.within ⟦<CountFrame as Flows>⟧.part
        ⟦<ClientFrame as Flows>⟧.part ⟦<ResolveFrame as Flows>⟧.part
        ⟦<FinalityFrame as Flows>⟧.part none asks resolves ends none_opens asks_opens
        resolves_opens ends_opens) };

    fn open(alloc: Global, call: Call) -> Result<App, AllocError> {
        let frame: Machines = <InFirst<CallFrames> as Opens<Machines>>::open(alloc, call)?;
        Ok(App::of(frame))
    }
}
