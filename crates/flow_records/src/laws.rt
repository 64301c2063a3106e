ghost use Rattle.flow_records.specs.Steps.{FewValuesAreShort};

/// The law that what changes in the sessions is short enough for `spell_step` where at most three of the items that are sent carry a
/// value, so also where one does.
#[tactic(auto, using(crate::proofs::Lengths::few_values_are_short))]
pub fn few_values_are_short()
    ensures { FewValuesAreShort }
{}
