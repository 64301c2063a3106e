//! Parts of a flow set as tables of machines.

ghost use Rattle.std.specs.Prelude.{◌≡◌, ◌++◌, ◌∷◌, []};
ghost use Rattle.flow_forms.specs.declared.calls.Call.{Call};
ghost use Rattle.flow_forms.specs.Bytes.{placed};
ghost use Rattle.flow_forms.specs.Closing.{closed};
ghost use Rattle.flow_forms.specs.Tables.{FrameIn, table_part, SameSet};

use crate::begins::Begins;
use crate::closed::{Closed, Closes};
use crate::flows::Flows;
use crate::forms::{Frame, Sum};
use crate::machine::{Machine, Numbered};
use flow_machine::FlowSet;

/// A part of a flow set, and the table of its machines.
pub trait Tabled: Flows {
    ghost use Rattle.std.specs.Prelude.{List};
    ghost use Rattle.flow_forms.specs.Tables.{Row, FrameIn, table_part, SameFlows};

    /// The machines, in the order in which a name or a class is looked for.
    ghost table: { List Row };

    /// A frame of the table as one of the part.
    ghost put: { FrameIn table → Self };

    /// A frame of the part as one of the table.
    ghost take: { Self → FrameIn table };

    /// The flows are those of the table.
    ghost tabled: { SameFlows put take Self.part (table_part table) };
}

impl<P: Numbered, S: Machine<P>, W: Begins<P, S>> Tabled for Frame<P, S, W> {
    ghost use Rattle.flow_forms.specs.Tables.{row_of};
    ghost use Rattle.flow_forms.specs.TableLaws.{put_one, take_one, one_row};

    ghost table = { row_of S.MACHINE (placed W.CALLABLE P.numbers) S.kept.spelling S.form W.way
        ∷ [] };

    ghost put = { put_one (row_of S.MACHINE
        (placed W.CALLABLE P.numbers) S.kept.spelling S.form W.way) };

    ghost take = { take_one (row_of S.MACHINE
        (placed W.CALLABLE P.numbers) S.kept.spelling S.form W.way) };

    ghost tabled = { one_row (row_of S.MACHINE
        (placed W.CALLABLE P.numbers) S.kept.spelling S.form W.way) };
}

impl<A: Tabled, B: Tabled> Tabled for Sum<A, B> {
    ghost use Rattle.flow_forms.specs.TableLaws.{put_both, take_both, both_tables};

    ghost table = { A.table ++ B.table };

    ghost put = { put_both A.table B.table A.put B.put };

    ghost take = { take_both A.table B.table A.take B.take };

    ghost tabled = { both_tables A.table B.table A.put A.take B.put B.take A.tabled B.tabled };
}

/// The law of every flow set that is made of a part and the frames of its calls: it means what the table of its machines means, with these
/// frames as frames of the table. It does nothing when it runs.
pub fn set_means_its_table<F: Tabled, C: Closes<F>>()
    ensures { (calls : Call → FrameIn F.table) → ((c : Call) → C.Calls.see c ≡ F.put (calls c))
        → SameSet F.put F.take ⟦<Closed<F, C> as FlowSet>⟧.machine
        (closed (table_part F.table) calls) }
{}
