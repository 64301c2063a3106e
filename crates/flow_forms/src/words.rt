//! What the words of a class come to.

ghost use Rattle.flow_forms.specs.Again.{BeginsByWords};

use crate::begins::Worded;

/// The law of every machine that words begin: the bytes that the words of its class give begin a flow by the arguments of these words,
/// where these are in range. It does nothing when it runs.
pub fn begins_by_its_words<P, S: Worded<P>>()
    ensures { BeginsByWords S.name S.CLASS S.Args.worded S.Args.spelling S.Args.reading S.begins }
{}
