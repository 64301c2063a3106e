//! The flow set of all machines.

ghost use Rattle.flow_forms.specs.Tables.{table_part, SameFlows};
ghost use Rattle.app_flows.specs.Table.{called, answering, cash, talking, deals};

use crate::app::{App, AppCalls};
use crate::beside::Beside;
use crate::calls::Called;
use cash_flows::{ExitFrame, IssueFrame, PayFrame, SpendFrame};
use deal_flows::{FactFrame, IouFrame, RefactFrame};
use finality_flows::AgreeFrame;
use flow_forms::{ByInit, ByWords, Closed, Closes, Flows, Frame, Sum, Tabled};
use notary_flows::ServiceFrame;
use resolve_flows::ReceiverFrame;
use shipped_flows::{Echo, EchoPlace, Ping, PingPlace, Probe, ProbePlace};

/// The machines that answer an Init: 11, the echo; 20, the notary service; 21, the receiver; and 22, which signs what a lender agrees to.
pub type Answering = Sum<
    Beside<Frame<EchoPlace, Echo, ByInit>, ServiceFrame>,
    Beside<ReceiverFrame, AgreeFrame>,
>;

/// The machines of cash: 3 issues it, 4 pays, 5 takes it out, and 8 spends a state of it that is named.
pub type Cash = Sum<Sum<IssueFrame, PayFrame>, Sum<ExitFrame, SpendFrame>>;

/// The machines that talk for the sake of it: 2 pings, and 10 probes.
pub type Talking = Sum<Frame<PingPlace, Ping, ByWords>, Frame<ProbePlace, Probe, ByWords>>;

/// The machines of agreements: 6 states a fact, 7 changes one, and 9 makes a debt.
pub type Deals = Sum<FactFrame, Sum<RefactFrame, IouFrame>>;

/// How the machines become a flow set.
#[derive(Clone, Copy)]
pub struct AppSet;

impl Closes<App> for AppSet {
    ghost use Rattle.std.specs.Prelude.{refl};
    ghost use Rattle.app_flows.specs.Machines.{machines, unlike_as};

    type Calls = AppCalls;

    ghost unlike = { unlike_as machines ⟦<App as Flows>⟧.kinds refl refl };
}

/// A frame of the program's flow set, of any of its machines.
pub type AppFlow = Closed<App, AppSet>;

/// The law of every part of a flow set: its flows are those of the table of its machines.
fn means_its_table<F: Tabled>()
    ensures { SameFlows F.put F.take ⟦<F as Flows>⟧.part (table_part F.table) }
{}

/// The law of the machines that calls may be: their flows are those of the table that is written out, with its numbers, names, classes and Inits.
/// It does nothing when it runs.
pub fn called_means_its_table()
    ensures { SameFlows ⟦<Called as Tabled>⟧.put ⟦<Called as Tabled>⟧.take ⟦<Called as Flows>⟧.part
        (table_part called) }
{
    means_its_table::<Called>();
}

/// The law of the machines that answer an Init: their flows are those of the table that is written out, with its numbers, names, classes and Inits.
/// It does nothing when it runs.
pub fn answering_means_its_table()
    ensures { SameFlows ⟦<Answering as Tabled>⟧.put ⟦<Answering as Tabled>⟧.take
        ⟦<Answering as Flows>⟧.part
        (table_part answering) }
{
    means_its_table::<Answering>();
}

/// The law of the machines of cash: their flows are those of the table that is written out, with its numbers, names, classes and Inits.
/// It does nothing when it runs.
pub fn cash_means_its_table()
    ensures { SameFlows ⟦<Cash as Tabled>⟧.put ⟦<Cash as Tabled>⟧.take ⟦<Cash as Flows>⟧.part
        (table_part cash) }
{
    means_its_table::<Cash>();
}

/// The law of the machines that only talk: their flows are those of the table that is written out, with its numbers, names, classes and Inits.
/// It does nothing when it runs.
pub fn talking_means_its_table()
    ensures { SameFlows ⟦<Talking as Tabled>⟧.put ⟦<Talking as Tabled>⟧.take
        ⟦<Talking as Flows>⟧.part
        (table_part talking) }
{
    means_its_table::<Talking>();
}

/// The law of the machines of agreements: their flows are those of the table that is written out, with its numbers, names, classes and Inits.
/// It does nothing when it runs.
pub fn deals_means_its_table()
    ensures { SameFlows ⟦<Deals as Tabled>⟧.put ⟦<Deals as Tabled>⟧.take ⟦<Deals as Flows>⟧.part
        (table_part deals) }
{
    means_its_table::<Deals>();
}
