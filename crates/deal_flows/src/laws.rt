//! What words come to, and what the contracts of facts and of IOUs say: laws, each the contract of a function that does nothing.

ghost use Rattle.std.specs.Prelude.{codes};
ghost use Rattle.flow_forms.specs.Again.{BeginsByWords};
ghost use Rattle.deal_flows.specs.Fact as fact;
ghost use Rattle.deal_flows.specs.FactWords as fact_words;
ghost use Rattle.deal_flows.specs.FactAccepted.{FactIsAccepted};
ghost use Rattle.deal_flows.specs.Refact as refact;
ghost use Rattle.deal_flows.specs.RefactWords as refact_words;
ghost use Rattle.deal_flows.specs.RefactAccepted.{RefactIsAccepted};
ghost use Rattle.deal_flows.specs.Iou as iou;
ghost use Rattle.deal_flows.specs.IouWords as iou_words;
ghost use Rattle.deal_flows.specs.IouAccepted.{IouIsAccepted};

use crate::fact::{Fact, FactPlace};
use crate::iou::{Iou, IouPlace};
use crate::refact::{Refact, RefactPlace};
use flow_forms::begins_by_its_words;

/// The bytes that the words of a fact, `fact P NAME VALUE`, give begin a flow by the arguments of these words, where these are in range.
pub fn fact_begins_by_its_words()
    ensures { BeginsByWords (codes "fact") 6 fact_words.args_of fact_words.args fact_words.args_at
        fact.begins }
{
    begins_by_its_words::<FactPlace, Fact>();
}

/// No clause of the contract of facts refuses a fact.
pub fn fact_is_accepted()
    ensures { FactIsAccepted }
{}

/// The bytes that the words of a changed fact, `refact ID INDEX VALUE`, give begin a flow by the arguments of these words, where these are in range.
pub fn refact_begins_by_its_words()
    ensures { BeginsByWords (codes "refact") 7 refact_words.args_of refact_words.args
        refact_words.args_at refact.begins }
{
    begins_by_its_words::<RefactPlace, Refact>();
}

/// No clause of the contract of facts refuses the change of what is a fact of this party and has no encumbrance.
pub fn refact_is_accepted()
    ensures { RefactIsAccepted }
{}

/// The bytes that the words of a debt, `iou P CODE ISSUER AMOUNT`, give begin a flow by the arguments of these words, where these are in range.
pub fn iou_begins_by_its_words()
    ensures { BeginsByWords (codes "iou") 9 iou_words.args_of iou_words.args iou_words.args_at
        iou.begins }
{
    begins_by_its_words::<IouPlace, Iou>();
}

/// No clause of the contract of IOUs refuses a debt of at least 1 to another node of the network.
pub fn iou_is_accepted()
    ensures { IouIsAccepted }
{}
