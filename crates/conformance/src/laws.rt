//! The laws of the model and of the network that speak of any flows, or of any of another kind of thing, each at flows that the program
//! ships. What asks something of the flows or of the contracts is called at the flow set and the contracts of the program itself, so that
//! they are seen to meet it. A law does nothing when it runs: its contract is the law.

use app_flows::AppFlow;
use contract_verify::ContractBook;
use flow_forms::set_means_its_table;
use flow_machine::{
    args_are_short, begins_bare, classes_are_known_by_name, frames_are_spelt, limits_are_kept,
    load_holds, over_frames_fail, over_is_exact, same_bytes, tags_are_kept, weight_falls,
};
use ledger_laws::{
    back_chains_are_whole, each_state_has_one_consumer, no_state_is_spent_twice,
    recorded_was_signed_in_its_window, what_is_held_was_signed,
};
use net_base::{Cause, one_spelling};
use net_model::{
    books_hold, came_was_sent, commits_keep, enabled_is_defined, faithful_exactly, faithful_run,
    items_stay, left_falls, merges_each, merges_in_order, notary_tags_hold, prefixes_are_runs,
    stamps_rise, step_is_its_effect, steps_fit, stored_is_signed, stores_hold,
};
use network_core::{
    acknowledged_at_all_moments, acknowledged_stands_once, calls_are_ways, coherent_is_faithful,
    drains_by_turns, kept_on_ways, left_is_coherent, new_disks_are_coherent, pairs_are_both,
    rounds_are_bounded, ways_have_all_moments, ways_move_one_by_one,
};
use node_shell::{lines_are_passages, scripts_are_both, scripts_are_passages};
use session_acts::{accepted_as_meant, sessions_are_sound};
use shipped_flows::{NoCalls, Shipped, ShippedFlow, a_ping_returns_its_count};
use story_laws::ledgers_hold_in_scripts;
use work_law::{
    acknowledged_is_kept, acknowledged_on_passages, acks_are_kept, attained_are_coherent,
    histories_last, kept_on_passages, unworked_are_ways, works_coherently,
};

/// All of them.
pub fn all() {
    of_the_model();
    of_the_network();
    of_work_side_by_side();
    of_sessions_and_scripts();
    of_spellings();
    of_weights();
    of_ends_and_tags();
    of_words();
    of_ledgers();
    of_ledgers_in_scripts();
}

/// The laws of steps, of runs and of what they keep.
fn of_the_model() {
    step_is_its_effect::<ShippedFlow>();
    enabled_is_defined::<ShippedFlow>();
    steps_fit::<ShippedFlow>();
    items_stay::<ShippedFlow>();
    came_was_sent::<ShippedFlow>();
    stamps_rise::<ShippedFlow>();
    merges_in_order::<Cause>();
    merges_each();
    prefixes_are_runs::<ShippedFlow>();
    faithful_exactly::<ShippedFlow>();
    faithful_run::<ShippedFlow>();
    commits_keep::<ShippedFlow>();
    left_falls::<ShippedFlow>();
    notary_tags_hold::<ShippedFlow>();
    stores_hold::<ShippedFlow>();
    stored_is_signed::<ShippedFlow>();
    books_hold::<ShippedFlow>();
}

/// The laws of a network over disks and frames, and of its flows.
fn of_the_network() {
    coherent_is_faithful::<ShippedFlow>();
    new_disks_are_coherent::<ShippedFlow>();
    drains_by_turns::<ShippedFlow>();
    rounds_are_bounded::<ShippedFlow>();
    acknowledged_stands_once::<ShippedFlow>();
    calls_are_ways::<ShippedFlow>();
    pairs_are_both::<ShippedFlow>();
    kept_on_ways::<ShippedFlow>();
    left_is_coherent::<ShippedFlow>();
    acknowledged_at_all_moments::<ShippedFlow>();
    ways_have_all_moments::<ShippedFlow>();
    ways_move_one_by_one::<ShippedFlow>();
    a_ping_returns_its_count();
}

/// The laws of nodes that are worked on side by side.
fn of_work_side_by_side() {
    works_coherently::<ShippedFlow>();
    histories_last::<ShippedFlow>();
    attained_are_coherent::<ShippedFlow>();
    acknowledged_is_kept::<ShippedFlow>();
    acks_are_kept::<ShippedFlow>();
    unworked_are_ways::<ShippedFlow>();
    kept_on_passages::<ShippedFlow>();
    acknowledged_on_passages::<ShippedFlow>();
}

/// The laws of what is accepted into sessions, of scripts, and of a flow set that is made of a table of machines.
fn of_sessions_and_scripts() {
    accepted_as_meant::<ShippedFlow>();
    sessions_are_sound::<ShippedFlow>();
    scripts_are_passages::<ShippedFlow>();
    lines_are_passages::<ShippedFlow>();
    scripts_are_both::<ShippedFlow>();
    set_means_its_table::<Shipped, NoCalls>();
}

/// The laws of what is spelt, at the frames of the program's flows.
fn of_spellings() {
    one_spelling::<AppFlow>();
    same_bytes::<AppFlow>();
    frames_are_spelt::<AppFlow>();
}

/// The laws of limits and of weights, at the program's flows.
fn of_weights() {
    limits_are_kept::<AppFlow>();
    weight_falls::<AppFlow>();
    load_holds::<AppFlow>();
}

/// The laws of frames that are over and of tags, at the program's flows.
fn of_ends_and_tags() {
    over_is_exact::<AppFlow>();
    over_frames_fail::<AppFlow>();
    tags_are_kept::<AppFlow>();
    begins_bare::<AppFlow>();
}

/// The laws of the words that begin a flow, at the program's flows.
fn of_words() {
    args_are_short::<AppFlow>();
    classes_are_known_by_name::<AppFlow>();
}

/// The laws of the ledgers of all nodes, at the program's flows and contracts.
fn of_ledgers() {
    each_state_has_one_consumer::<AppFlow>();
    what_is_held_was_signed::<AppFlow, ContractBook>();
    back_chains_are_whole::<AppFlow>();
    no_state_is_spent_twice::<AppFlow, ContractBook>();
    recorded_was_signed_in_its_window::<AppFlow, ContractBook>();
}

/// The law of ledgers throughout a script, at the program's flows and contracts.
fn of_ledgers_in_scripts() {
    ledgers_hold_in_scripts::<AppFlow, ContractBook>();
}
